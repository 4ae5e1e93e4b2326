// Stations and sides (01, Stations, sides, crossings). The stations are the fixed places, 2^20
// apart and rising, where a sweep computes the time. The side of a place says whether its time is
// below the wanted time.
#![tactic(auto)]

ghost use Rattle.std.specs.Prelude.{◌≡◌};
ghost use Rattle.stations.specs.Sides.{side_at};
ghost use Rattle.stations.specs.Stations.{station_of, j_of, last_of};

mod search;
mod side;

use flight_time::Place;
pub use search::Search;
pub use side::{Side, are_opposite, is_unknown, side_at};

// The first station's j, where k = j * 2^20. It is at the lowest place of the range, so j is -4095.
const FIRST_J: i64 = Place::LOWEST / Place::STATION_SPACING;

// The index of the last station, counted from 0, if there are no whole revolutions.
const LAST_STATION: u16 = ((Place::HIGHEST - Place::LOWEST) / Place::STATION_SPACING) as u16;

// The index of the last station if there are whole revolutions.
const LAST_STATION_REVOLVING: u16 = ((Place::HIGHEST_REVOLVING - Place::LOWEST)
    / Place::STATION_SPACING) as u16;

// Returns the place of station i, counted from 0.
#[tactic(auto, unfolding(crate::specs::Stations::station_of))]
pub fn station(i: u16) -> i64
    ensures { result ≡ station_of i }
{
    (i as i64 + FIRST_J) * Place::STATION_SPACING
}

// Returns the j of station i.
pub fn station_j(i: u16) -> i32
    ensures { result ≡ j_of (station_of i) }
{
    (i as i64 + FIRST_J) as i32
}

// Returns the index of the last station for the given number of whole revolutions.
#[tactic(auto, unfolding(crate::specs::Stations::last_of))]
pub fn last_station(revolutions: u16) -> u16
    ensures { result ≡ last_of revolutions }
{
    if revolutions == 0 {
        LAST_STATION
    } else {
        LAST_STATION_REVOLVING
    }
}

// Returns the side of station i in a search.
pub fn side_of_station(search: Search, i: u16) -> Side
    ensures { result ≡ side_at search (station_of i) }
{
    side_at(search, station(i))
}
