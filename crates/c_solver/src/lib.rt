// The C interface to the solver, for hosts in other languages: it solves a question, and gives the values of its curve. A slice is a
// pointer and a length. The memory of a question and of a buffer must not overlap.
#![tactic(auto)]

ghost use Rattle.std.specs.Prelude.{◌≡◌};
ghost use Rattle.question_record.specs.Record.{output_of};
ghost use Rattle.solver.specs.Solve.{solve_of};
ghost use Rattle.c_solver.specs.OutcomeWord.{void_word, outcome_word};

pub mod curve;

use little_endian::signed32_bits;
use question_record::write_record;
use records::VOID_NUMBER;
use solver::{Cause, solve};
use sweep::VoidStation;

// Calls `solve`. Returns 0 for an answer. For a refusal, the result is:
// - bits 0 to 15: the number of the refusal;
// - bits 16 to 31: if the number is 12, the number of the reason why the first void station is void;
// - bits 32 to 63: if the number is 12, the j of this station in two's complement.
// All other bits are 0. The station with this j has the place k = j * 2^20, and its index is i = j + 4095 (see `lambert_station`).
pub fn lambert_solve(question: &[u8], answer: &mut [u8]) -> u64
    ensures outcome { result ≡ outcome_word (solve_of question.now answer.old).outcome }
    ensures buffer { answer.new ≡ (solve_of question.now answer.old).buffer }
{
    outcome_word(solve(question, answer))
}

// Returns the word for an outcome.
fn outcome_word(outcome: Result<u16, Cause>) -> u64
    ensures { result ≡ outcome_word outcome }
{
    match outcome {
        Err(Cause::StationVoid(station)) => void_word(station),
        Err(cause) => u64::from(u16::from(cause)),
        Ok(_) => 0,
    }
}

// Returns the word for refusal 12, given the first void station.
fn void_word(station: VoidStation) -> u64
    ensures { result ≡ void_word station }
{
    let reason = station.reason;
    VOID_NUMBER as u64
        + 0x1_0000 * u64::from(u16::from(reason))
        + 0x1_0000_0000 * signed32_bits(station.j) as u64
}

// Calls `write_record` and returns its result.
pub fn lambert_record(question: &[u8], out: &mut [u8]) -> usize
    ensures size { result ≡ (output_of question.now out.old).size }
    ensures buffer { out.new ≡ (output_of question.now out.old).buffer }
{
    write_record(question, out)
}
