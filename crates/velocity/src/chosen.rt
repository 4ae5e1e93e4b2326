// The choice of an end of a bracket, and the test whether the velocities there are finite.
ghost use Rattle.std.specs.Prelude.{◌≡◌};
ghost use Rattle.velocity.specs.Chosen.{upper_chosen, vector_finite, velocities_finite};

use crate::Velocities;
use float64::Vector;

// Reports whether |upper - wanted| is below |lower - wanted|, each an f64 difference without its sign. A tie and a NaN give
// false.
#[tactic(auto, unfolding(crate::specs::Chosen::upper_chosen))]
pub fn upper_chosen(lower: f64, upper: f64, wanted: f64) -> bool
    ensures { result ≡ upper_chosen lower upper wanted }
{
    float64::magnitude(upper - wanted) < float64::magnitude(lower - wanted)
}

#[tactic(auto, unfolding(crate::specs::Chosen::vector_finite))]
fn is_finite(v: Vector) -> bool
    ensures { result ≡ vector_finite v }
{
    float64::is_finite(v.x) & (float64::is_finite(v.y) & float64::is_finite(v.z))
}

// Reports whether all components of both velocities are finite.
#[tactic(auto, unfolding(crate::specs::Chosen::velocities_finite))]
pub fn are_finite(w: Velocities) -> bool
    ensures { result ≡ velocities_finite w }
{
    let v1 = w.v1;
    let v2 = w.v2;
    is_finite(v1) & is_finite(v2)
}
