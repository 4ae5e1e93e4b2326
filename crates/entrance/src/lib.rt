// The entrance checks (01, Numbers of refusal). `judge` takes any bytes and the size of an answer
// buffer, and returns the problem to solve, or the first fault.
#![tactic(auto)]

ghost use Rattle.std.specs.Prelude.{◌≡◌};
ghost use Rattle.entrance.specs.Judge.{fault_number, problem_of, judge_of};

mod checks;

use checks::check_all;
use float64::Vector;
use geometry::{Frame, Shape, Triangle};
use records::Question;

// The problem to solve: the question's own numbers, its triangle and unit vectors, and the wanted
// time in the triangle's unit.
#[derive(Clone, Copy)]
pub struct Problem {
    pub job: u32,
    pub revision: u32,
    pub revolutions: u16,
    pub long_way: bool,
    pub mu: f64,
    pub triangle: Triangle,
    pub radius1: f64,
    pub radius2: f64,
    pub frame: Frame,
    pub wanted: f64,
}

// What can be wrong with a question, in the order of the checks. Each fault has a number from 1 to 10.
#[derive(Clone, Copy, Debug, PartialEq, Eq)]
pub enum Fault {
    Malformed,
    PositionFar,
    RadiusOutside,
    MuOutside,
    TimeOutside,
    ManyRevolutions,
    SmallBuffer,
    NoPlane,
    ShortChord,
    FlatTriangle,
}

// The number of a fault in a record.
impl From<Fault> for u16 {
    ghost from_gives = { λ f n. n ≡ fault_number f };

    fn from(fault: Fault) -> u16 {
        match fault {
            Fault::Malformed => 1,
            Fault::PositionFar => 2,
            Fault::RadiusOutside => 3,
            Fault::MuOutside => 4,
            Fault::TimeOutside => 5,
            Fault::ManyRevolutions => 6,
            Fault::SmallBuffer => 7,
            Fault::NoPlane => 8,
            Fault::ShortChord => 9,
            Fault::FlatTriangle => 10,
        }
    }
}

// Returns the problem of a question, or its first fault, for an answer buffer of `room` bytes.
pub fn judge(question: &[u8], room: usize) -> Result<Problem, Fault>
    ensures { result ≡ judge_of question.now room }
{
    let q = records::read_question(question);
    let r1 = q.r1;
    let r2 = q.r2;
    let shape = geometry::shape_of(r1, r2, q.way == 1);
    check_all(question.len(), room, q, shape)?;
    Ok(problem_of(q, shape))
}

// Returns the problem of a question, given its shape.
#[tactic(auto, unfolding(crate::specs::Judge::problem_of))]
fn problem_of(q: Question, shape: Shape) -> Problem
    ensures { result ≡ problem_of q shape }
{
    let r1 = q.r1;
    let r2 = q.r2;
    let triangle = shape.triangle;
    let long_way = q.way == 1;
    let frame = geometry::frame_of(r1, r2, shape, long_way);
    let wanted = geometry::wanted_time(q.mu, triangle.semiperimeter, q.time);
    Problem {
        job: q.job,
        revision: q.revision,
        revolutions: q.revolutions,
        long_way,
        mu: q.mu,
        triangle,
        radius1: shape.radius1,
        radius2: shape.radius2,
        frame,
        wanted,
    }
}
