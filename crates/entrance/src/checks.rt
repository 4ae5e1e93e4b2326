// The entrance checks one by one, and the first of them that applies.
ghost use Rattle.std.specs.Prelude.{◌≡◌, cond, Ok, Err};
ghost use Rattle.entrance.specs.Conditions.{malformed, far_off, position_far, positions_far, mu_outside};
ghost use Rattle.entrance.specs.Conditions.{time_outside, many_revolutions, small_buffer};
ghost use Rattle.entrance.specs.Judge.{checks, first_of, unless};

use crate::Fault;
use float64::Vector;
use geometry::{LARGEST_LENGTH, Shape};
use records::{ANSWER_ROOM, QUESTION_KIND, QUESTION_LENGTH, QUESTION_SIZE, Question};

// The largest mu: 2^60.
const LARGEST_MU: f64 = 1152921504606846976.0;

// The longest time: 2^40.
const LONGEST_TIME: f64 = 1099511627776.0;

const MOST_REVOLUTIONS: u16 = 16;

#[tactic(auto, unfolding(crate::specs::Conditions::malformed))]
fn is_malformed(size: usize, q: Question) -> bool
    ensures { result ≡ malformed size q }
{
    (size != QUESTION_SIZE)
        | ((q.length != QUESTION_LENGTH)
            | ((q.kind != QUESTION_KIND) | ((q.job == 0) | ((q.way > 1) | (q.spare != 0)))))
}

// Reports whether a component is not finite or exceeds 2^40 in magnitude.
#[tactic(auto, unfolding(crate::specs::Conditions::far_off))]
fn far_off(x: f64) -> bool
    ensures { result ≡ far_off x }
{
    !float64::is_finite(x) | (LARGEST_LENGTH < float64::magnitude(x))
}

#[tactic(auto, unfolding(crate::specs::Conditions::position_far))]
fn position_far(v: Vector) -> bool
    ensures { result ≡ position_far v }
{
    far_off(v.x) | (far_off(v.y) | far_off(v.z))
}

#[tactic(auto, unfolding(crate::specs::Conditions::positions_far))]
fn positions_far(q: Question) -> bool
    ensures { result ≡ positions_far q }
{
    let r1 = q.r1;
    let r2 = q.r2;
    position_far(r1) | position_far(r2)
}

#[tactic(auto, unfolding(crate::specs::Conditions::mu_outside))]
fn mu_outside(q: Question) -> bool
    ensures { result ≡ mu_outside q }
{
    geometry::outside(1.0, LARGEST_MU, q.mu)
}

#[tactic(auto, unfolding(crate::specs::Conditions::time_outside))]
fn time_outside(q: Question) -> bool
    ensures { result ≡ time_outside q }
{
    geometry::outside(1.0, LONGEST_TIME, q.time)
}

#[tactic(auto, unfolding(crate::specs::Conditions::many_revolutions))]
fn many_revolutions(q: Question) -> bool
    ensures { result ≡ many_revolutions q }
{
    q.revolutions > MOST_REVOLUTIONS
}

#[tactic(auto, unfolding(crate::specs::Conditions::small_buffer))]
fn small_buffer(room: usize) -> bool
    ensures { result ≡ small_buffer room }
{
    room < ANSWER_ROOM
}

// Returns the fault as an error if its check applies.
fn refuse_if(applies: bool, fault: Fault) -> Result<(), Fault>
    ensures { result ≡ cond applies (Err fault) (Ok tt) }
{
    if applies { Err(fault) } else { Ok(()) }
}

// Makes the entrance checks in the order of 01's table, and returns the fault of the first that applies as an error.
#[tactic(auto, unfolding(crate::specs::Judge::checks, crate::specs::Judge::first_of))]
pub(crate) fn check_all(size: usize, room: usize, q: Question, shape: Shape) -> Result<(), Fault>
    ensures { result ≡ unless (first_of (checks size room q shape)) tt }
{
    let triangle = shape.triangle;
    refuse_if(is_malformed(size, q), Fault::Malformed)?;
    refuse_if(positions_far(q), Fault::PositionFar)?;
    refuse_if(geometry::radius_outside(shape), Fault::RadiusOutside)?;
    refuse_if(mu_outside(q), Fault::MuOutside)?;
    refuse_if(time_outside(q), Fault::TimeOutside)?;
    refuse_if(many_revolutions(q), Fault::ManyRevolutions)?;
    refuse_if(small_buffer(room), Fault::SmallBuffer)?;
    refuse_if(geometry::no_plane(shape), Fault::NoPlane)?;
    refuse_if(geometry::short_chord(triangle), Fault::ShortChord)?;
    refuse_if(geometry::flat_triangle(triangle), Fault::FlatTriangle)
}
