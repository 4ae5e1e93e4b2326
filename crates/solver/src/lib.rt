// Solves a question: from its bytes to its answer or refusal (01). The steps are the entrance checks, the sweep, and for each crossing
// its bracket, the chosen end and the velocities there.
#![tactic(auto)]

ghost use Rattle.std.specs.Prelude.{◌≡◌};
ghost use Rattle.solver.specs.Table.{cause_number};
ghost use Rattle.solver.specs.Solve.{settled_of, solve_of};
ghost use Rattle.solver.specs.declared.Cause.TheVariants.{Entrance};

mod causes;

use causes::check_search;
use entrance::{Fault, Problem};
use records::VOID_NUMBER;
use stations::Search;
use sweep::VoidStation;

// Why a question is refused: the fault that the entrance checks find, or what is wrong with the result of the search.
#[derive(Clone, Copy, Debug, PartialEq, Eq)]
pub enum Cause {
    Entrance(Fault),
    // There is no crossing, and every station has a time.
    NoCrossing,
    // There is no crossing, and this is the first void station, with the reason why it is void.
    StationVoid(VoidStation),
    NinthCrossing,
    VelocityNotFinite,
}

impl From<Fault> for Cause {
    ghost from_gives = { λ f c. c ≡ Entrance f };

    fn from(fault: Fault) -> Cause {
        Cause::Entrance(fault)
    }
}

// The number of a refusal in a record.
impl From<Cause> for u16 {
    ghost from_gives = { λ c n. n ≡ cause_number c };

    fn from(cause: Cause) -> u16 {
        match cause {
            Cause::Entrance(fault) => u16::from(fault),
            Cause::NoCrossing => 11,
            Cause::StationVoid(_) => VOID_NUMBER,
            Cause::NinthCrossing => 13,
            Cause::VelocityNotFinite => 14,
        }
    }
}

// Judges and solves a question, and returns how many entries its answer has. Writes an answer at the start of the buffer; a refusal leaves
// the buffer untouched.
pub fn solve(question: &[u8], answer: &mut [u8]) -> Result<u16, Cause>
    ensures outcome { result ≡ (solve_of question.now answer.old).outcome }
    ensures buffer { answer.new ≡ (solve_of question.now answer.old).buffer }
{
    let problem = entrance::judge(question, answer.len())?;
    settle(problem, answer)
}

// Solves a problem that has passed the entrance checks.
fn settle(p: Problem, answer: &mut [u8]) -> Result<u16, Cause>
    ensures outcome { result ≡ (settled_of p answer.old).outcome }
    ensures buffer { answer.new ≡ (settled_of p answer.old).buffer }
{
    let triangle = p.triangle;
    let search = Search {
        triangle,
        revolutions: p.revolutions,
        wanted: p.wanted,
    };
    let found = sweep::find_crossings(search);
    let list = found.list;
    let walk = found.walk;
    let listed = entries::entries_of(p, list, found.count);
    let finite = entries::all_finite(listed, found.count);
    check_search(walk, found.count, finite)?;
    entries::write_answer(p.job, p.revision, listed, found.count, answer);
    let count = found.count as u16;
    Ok(count)
}
