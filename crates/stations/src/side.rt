// The side of the wanted time T* that a place is on.
ghost use Rattle.std.specs.Prelude.{◌≡◌};
ghost use Rattle.stations.specs.Sides.{side_of, side_at, opposite, is_unknown};

use crate::Search;
use flight_time::Place;
use hypergeometric::Reason;

// The side of a place. A place with a time is below the wanted time or not below it; an equal time
// is not below. The side of a void place is `Unknown`, with the reason why the place is void.
#[derive(Clone, Copy, Debug, PartialEq, Eq)]
pub enum Side {
    Below,
    NotBelow,
    Unknown(Reason),
}

// Returns the side of place k in a search.
#[tactic(auto, unfolding(crate::specs::Sides::side_at))]
pub fn side_at(search: Search, k: i64) -> Side
    ensures { result ≡ side_at search k }
{
    let triangle = search.triangle;
    side_of(
        flight_time::time_at(triangle, k, search.revolutions),
        search.wanted,
    )
}

#[tactic(auto, unfolding(crate::specs::Sides::side_of))]
fn side_of(place: Place, wanted: f64) -> Side
    ensures { result ≡ side_of place wanted }
{
    match place {
        Place::Timed(time) => {
            if time < wanted {
                Side::Below
            } else {
                Side::NotBelow
            }
        }
        Place::Void(reason) => Side::Unknown(reason),
    }
}

// Reports whether both sides are known and differ.
pub fn are_opposite(a: Side, b: Side) -> bool
    ensures { result ≡ opposite a b }
{
    matches!(
        (a, b),
        (Side::Below, Side::NotBelow) | (Side::NotBelow, Side::Below)
    )
}

// Reports whether a side is `Unknown`, the side of a void place.
pub fn is_unknown(side: Side) -> bool
    ensures { result ≡ is_unknown side }
{
    matches!(side, Side::Unknown(_))
}
