// Writes the record of a question: its answer or its refusal.
#![tactic(auto)]

ghost use Rattle.std.specs.Prelude.{◌≡◌};
ghost use Rattle.question_record.specs.Record.{refusal_for, void_refusal_for, cause_refusal, output_of};
ghost use Rattle.little_endian.specs.Bytes.{written};
ghost use Rattle.records.specs.Layout.{refusal_size};
ghost use Rattle.records.specs.Records.{refusal_bytes};

use records::{ANSWER_ROOM, Refusal, VOID_NUMBER, refusal_with};
use solver::{Cause, solve};
use sweep::VoidStation;

// Writes the record of a question at the start of the buffer and returns its size. If the buffer has no room for the longest answer, it
// stays untouched and the size is 0, as the C function `lambert_record` promises it.
pub fn write_record(question: &[u8], out: &mut [u8]) -> usize
    ensures size { result ≡ (output_of question.now out.old).size }
    ensures buffer { out.new ≡ (output_of question.now out.old).buffer }
{
    if out.len() < ANSWER_ROOM {
        return 0;
    }
    match solve(question, out) {
        Ok(entries) => records::answer_size(entries),
        Err(cause) => put_refusal(out, cause_refusal(question, cause)),
    }
}

// Returns the refusal of a question, given its cause.
fn cause_refusal(question: &[u8], cause: Cause) -> Refusal
    ensures { result ≡ cause_refusal question.now cause }
{
    match cause {
        Cause::StationVoid(station) => void_refusal_for(question, station),
        _ => refusal_for(question, u16::from(cause)),
    }
}

// Returns the refusal of a question. Number 1 means that the bytes are not a well-formed question, so its record has job 0 and revision 0.
fn refusal_for(question: &[u8], number: u16) -> Refusal
    ensures { result ≡ refusal_for question.now number }
{
    if number == 1 {
        return refusal_with(0, 0, number);
    }
    refusal_with(
        records::job_of(question),
        records::revision_of(question),
        number,
    )
}

// Returns the refusal with number 12, which names a void station.
fn void_refusal_for(question: &[u8], station: VoidStation) -> Refusal
    ensures { result ≡ void_refusal_for question.now station }
{
    let reason = station.reason;
    Refusal {
        job: records::job_of(question),
        revision: records::revision_of(question),
        number: VOID_NUMBER,
        station: station.j,
        reason: u16::from(reason),
    }
}

// Writes a refusal at the start of the buffer and returns its size.
fn put_refusal(out: &mut [u8], refusal: Refusal) -> usize
    ensures size { result ≡ refusal_size refusal.number }
    ensures buffer { out.new ≡ written out.old (refusal_bytes refusal) }
{
    records::write_refusal(out, refusal);
    records::refusal_size(refusal.number)
}
