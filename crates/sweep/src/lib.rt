// The sweep (01, Stations, sides, crossings) finds where the time of flight crosses the wanted
// time. It walks over the stations in rising x and bisects each of the first eight neighbouring
// pairs whose times are on different sides, down to a bracket.
#![tactic(auto)]

ghost use Rattle.std.specs.Prelude.{◌≡◌};
ghost use Rattle.sweep.specs.Crossings.{sweep_for};

mod walks;

pub use bisection::Bracket;
use bisection::bracket_of;
use hypergeometric::Reason;
use stations::{Search, Side, are_opposite, last_station, side_of_station};
pub use walks::{VoidStation, Walk};
use walks::{report_with, walk_of};

// The result of a sweep: the brackets of the first eight crossings, the lowest first. The list has
// eight elements. The first `count` of them are used, and the others are zeros: 01 asks for an array
// beside a count (Where to use each form). `walk` is the report about the times at the stations.
#[derive(Clone, Copy)]
pub struct Crossings {
    pub list: [Bracket; 8],
    pub count: usize,
    pub walk: Walk,
}

// Sweeps over the stations of a search. Returns the brackets of the first eight crossings, their
// count, and what was found out about the times at the stations.
pub fn find_crossings(search: Search) -> Crossings
    ensures { result ≡ sweep_for search }
{
    let last = last_station(search.revolutions);
    let blank = Bracket {
        lower: 0,
        upper: 0,
        halvings: 0,
    };
    let mut list = [blank; 8];
    let mut count: usize = 0;
    let mut seen = Walk::AllTimed;
    let mut low = Side::Unknown(Reason::OutsideRange); // A station before the first would be outside the range.
    // The loop counts i by hand. A `for` would need a flag for the ninth crossing, because i is not known after it. 01 asks for the label.
    let mut i: u16 = 0;
    'stations: while i <= last {
        let high = side_of_station(search, i);
        if are_opposite(low, high) {
            if count == 8 {
                break 'stations;
            }
            list[count] = bracket_of(search, low, i - 1);
            count += 1;
        }
        seen = report_with(seen, high, i);
        low = high;
        i += 1;
    }
    // If the loop ended before it passed the last station, it found a ninth crossing.
    Crossings {
        list,
        count,
        walk: walk_of(i <= last, seen),
    }
}
