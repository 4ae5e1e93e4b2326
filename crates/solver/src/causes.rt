// The causes of the refusals 11 to 14.
ghost use Rattle.std.specs.Prelude.{◌≡◌};
ghost use Rattle.entrance.specs.Judge.{unless};
ghost use Rattle.solver.specs.Internals.{late_cause};

use crate::Cause;
use sweep::Walk;

// Returns the cause of the first row from 11 to 14 in 01's table that applies, as an error. The sweep has given `walk` and `count`, and
// `finite` says whether all velocities are finite.
pub(crate) fn check_search(walk: Walk, count: usize, finite: bool) -> Result<(), Cause>
    ensures { result ≡ unless (late_cause walk count finite) tt }
{
    match walk {
        Walk::AllTimed if count == 0 => Err(Cause::NoCrossing),
        Walk::SomeVoid(station) if count == 0 => Err(Cause::StationVoid(station)),
        Walk::NinthFound => Err(Cause::NinthCrossing),
        _ if finite => Ok(()),
        _ => Err(Cause::VelocityNotFinite),
    }
}
