// What a sweep finds out about the times at the stations.
ghost use Rattle.std.specs.Prelude.{◌≡◌};
ghost use Rattle.stations.specs.Stations.{station_of};
ghost use Rattle.sweep.specs.Walks.{void_at, or_later, walk_of};
ghost use Rattle.sweep.specs.declared.walks.Walk.TheVariants.{SomeVoid};

use hypergeometric::Reason;
use stations::{Side, station_j};

// A void station, with the reason why it is void. Its place is k = j * 2^20.
#[derive(Clone, Copy, Debug, PartialEq, Eq)]
pub struct VoidStation {
    pub j: i32,
    pub reason: Reason,
}

// The report about the times at the stations: all stations have times, or some are void, and this is
// the first of them in rising x. `NinthFound` means that the sweep stopped at a ninth crossing. In
// that case it does not report whether a station is void.
#[derive(Clone, Copy)]
pub enum Walk {
    AllTimed,
    SomeVoid(VoidStation),
    NinthFound,
}

// Returns the report about the stations up to station i, given the report about those before it and the side of station i. Nearly every
// station has a time, and then the report stays as it is.
pub(crate) fn report_with(seen: Walk, side: Side, i: u16) -> Walk
    ensures { result ≡ or_later seen (void_at side (station_of i)) }
{
    match side {
        Side::Below => seen,
        Side::NotBelow => seen,
        Side::Unknown(reason) => or_void(
            seen,
            VoidStation {
                j: station_j(i),
                reason,
            },
        ),
    }
}

// Returns the report about some stations and a later one, which is void.
fn or_void(seen: Walk, station: VoidStation) -> Walk
    ensures { result ≡ or_later seen (SomeVoid station) }
{
    match seen {
        Walk::AllTimed => Walk::SomeVoid(station),
        Walk::SomeVoid(first) => Walk::SomeVoid(first),
        Walk::NinthFound => Walk::NinthFound,
    }
}

// Returns the report of a whole sweep.
pub(crate) fn walk_of(ninth: bool, seen: Walk) -> Walk
    ensures { result ≡ walk_of ninth seen }
{
    if ninth { Walk::NinthFound } else { seen }
}
