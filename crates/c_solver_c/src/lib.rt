// The C interface to the solver, for hosts in other languages: each function calls the one of `c_solver` with its name, and promises the
// same. A slice is a pointer and a length. The memory of a question and of a buffer must not overlap. They
// stand apart because no crate can use a static library.
#![tactic(auto)]

ghost use Rattle.std.specs.Prelude.{◌≡◌};
ghost use Rattle.question_record.specs.Record.{output_of};
ghost use Rattle.solver.specs.Solve.{solve_of};
ghost use Rattle.stations.specs.Stations.{station_of};
ghost use Rattle.c_solver.specs.OutcomeWord.{outcome_word};
ghost use Rattle.c_solver.specs.Curve.{wanted_bits, station_count, time_bits};

use c_solver::curve;

// Solves a question. Returns 0 for an answer, and for a refusal its number, with 12 also the first void station and its reason.
#[unsafe(no_mangle)]
pub extern "C" fn lambert_solve(question: &[u8], answer: &mut [u8]) -> u64
    ensures outcome { result ≡ outcome_word (solve_of question.now answer.old).outcome }
    ensures buffer { answer.new ≡ (solve_of question.now answer.old).buffer }
{
    c_solver::lambert_solve(question, answer)
}

// Writes the record of a question, an answer or a refusal, to the buffer, and returns its size.
#[unsafe(no_mangle)]
pub extern "C" fn lambert_record(question: &[u8], out: &mut [u8]) -> usize
    ensures size { result ≡ (output_of question.now out.old).size }
    ensures buffer { out.new ≡ (output_of question.now out.old).buffer }
{
    c_solver::lambert_record(question, out)
}

// Returns the bits of the wanted time, or all ones if the question does not pass the entrance checks.
#[unsafe(no_mangle)]
pub extern "C" fn lambert_wanted(question: &[u8]) -> u64
    ensures { result ≡ wanted_bits question.now }
{
    curve::lambert_wanted(question)
}

// Returns how many stations the question's grid has.
#[unsafe(no_mangle)]
pub extern "C" fn lambert_stations(question: &[u8]) -> u64
    ensures { result ≡ station_count question.now }
{
    curve::lambert_stations(question)
}

// Returns the place k of the station with index i, counted from 0.
#[unsafe(no_mangle)]
pub extern "C" fn lambert_station(i: u16) -> i64
    ensures { result ≡ station_of i }
{
    curve::lambert_station(i)
}

// Returns the bits of the time at the place k, those of a NaN that stands for the reason if the place is void, or all ones if the question
// does not pass the entrance checks.
#[unsafe(no_mangle)]
pub extern "C" fn lambert_time(question: &[u8], k: i64) -> u64
    ensures { result ≡ time_bits question.now k }
{
    curve::lambert_time(question, k)
}
