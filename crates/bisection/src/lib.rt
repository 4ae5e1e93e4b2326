// The bisection of a pair of neighbouring stations (01, Stations, sides, crossings). The interval
// where it stops is the bracket of the pair.
#![tactic(auto)]

ghost use Rattle.std.specs.Prelude.{◌≡◌, ◌-◌};
ghost use Rattle.stations.specs.Grid.{stations};
ghost use Rattle.stations.specs.Sides.{side_at};
ghost use Rattle.bisection.specs.Halving.{with_side, bisect_of};
ghost use Rattle.bisection.specs.Interval.{Interval};
ghost use Rattle.bisection.specs.Pairs.{bracket_from};

use flight_time::Place;
use stations::{Search, Side, are_opposite, is_unknown, side_at, station};

// A bracket: the interval where the bisection of a pair stops, and how many times the pair was
// halved.
#[derive(Clone, Copy)]
pub struct Bracket {
    pub lower: i64,
    pub upper: i64,
    pub halvings: u32,
}

// Returns the bracket of the pair of stations i and i + 1. `low` is the side of station i, which
// the caller has already computed. If the two stations are on opposite sides, so are the ends of
// the bracket.
pub fn bracket_of(search: Search, low: Side, i: u16) -> Bracket
    ensures { result ≡ bracket_from (side_at search) low stations i }
{
    let a = station(i);
    bisect(search, low, a, a + Place::STATION_SPACING, 0)
}

// Bisects the interval from a to b, which is the result of h halvings so far. `low` is the side of
// the lower end a. In an interval wider than 1 the middle is never an end, so the code has no
// branch for that.
#[tactic(auto, using(crate::proofs::Intervals::stops_at_one))]
fn bisect(search: Search, low: Side, a: i64, b: i64, h: u32) -> Bracket
    requires { Interval a b h }
    ensures { result ≡ bisect_of (with_side (side_at search) a low) (20 - h) h a b }
{
    let here = Bracket {
        lower: a,
        upper: b,
        halvings: h,
    };
    if b - a == 1 {
        return here;
    }
    let middle = (a + b) / 2;
    let side = side_at(search, middle);
    if is_unknown(side) {
        return here; // A void middle isn't counted.
    }
    if are_opposite(low, side) {
        bisect(search, low, a, middle, h + 1)
    } else {
        bisect(search, side, middle, b, h + 1)
    }
}
