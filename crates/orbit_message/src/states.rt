// A state in decimals: read from the values of a message, or rounded from a position and a velocity.
ghost use Rattle.std.specs.Prelude.{◌≡◌, [], ◌∷◌, ◌+◌, ◌<◌};
ghost use Rattle.orbit_message.specs.Matches.{Inside, matched_value};
ghost use Rattle.orbit_message.specs.States.{vector_shown, vector_of, state_of};
ghost use Rattle.decimal.specs.Texts.{parse_of};

use crate::matching::Match;
use decimal::Decimal;
use float64::Vector;

// A vector whose components are decimals.
#[derive(Clone, Copy, Debug, PartialEq, Eq)]
pub struct DecimalVector {
    pub x: Decimal,
    pub y: Decimal,
    pub z: Decimal,
}

// The position and the velocity of a message.
#[derive(Clone, Copy, Debug, PartialEq, Eq)]
pub struct State {
    pub position: DecimalVector,
    pub velocity: DecimalVector,
}

// Returns the decimal that the value k shows, or `None` if it is not the text of one.
fn decimal_at(s: &[u8], found: Match, k: usize) -> Option<Decimal>
    requires { Inside s.now found × (found.count ≡ 14) × (k < 14) }
    ensures { result ≡ parse_of (matched_value s.now found k) }
{
    decimal::parse(found.value(s, k))
}

// Returns the vector that three values show, from the value k on, or `None` if one of them is not the text of a decimal.
pub(crate) fn vector_at(s: &[u8], found: Match, k: usize) -> Option<DecimalVector>
    requires { Inside s.now found × (found.count ≡ 14) × (k < 12) }
    ensures { result ≡ vector_shown (matched_value s.now found k
        ∷ (matched_value s.now found (k + 1) ∷ (matched_value s.now found (k + 2) ∷ []))) }
{
    Some(DecimalVector {
        x: decimal_at(s, found, k)?,
        y: decimal_at(s, found, k + 1)?,
        z: decimal_at(s, found, k + 2)?,
    })
}

// Rounds each component of a vector. Returns `None` if one of them is out of range. With `vector_at` as one function over a closure, each
// would still have a line for each component.
fn vector_of(v: Vector) -> Option<DecimalVector>
    ensures { result ≡ vector_of v }
{
    Some(DecimalVector {
        x: decimal::round(v.x)?,
        y: decimal::round(v.y)?,
        z: decimal::round(v.z)?,
    })
}

// Rounds each number of a position and a velocity. Returns `None` if one of them is out of range.
pub(crate) fn state_of(r: Vector, v: Vector) -> Option<State>
    ensures { result ≡ state_of r v }
{
    Some(State {
        position: vector_of(r)?,
        velocity: vector_of(v)?,
    })
}
