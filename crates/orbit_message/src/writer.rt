// Writes the departure state of an answer's entry as a message.
ghost use Rattle.std.specs.Prelude.{◌≡◌, ◌-◌, ◌≤◌, length};
ghost use Rattle.records.specs.Layout.{most_entries, answer_size};
ghost use Rattle.orbit_message.specs.Fillings.{filled_bytes};
ghost use Rattle.orbit_message.specs.Writing.{departure_velocity, put_of, write_of};

use crate::filling::Filling;
use crate::messages::message_of;
use crate::refusals::Refusal;
use crate::states::state_of;
use crate::texts::are_texts;
use float64::Vector;
use records::{REFUSAL_KIND, answer_size, kind_of, number_of, read_entry};

// Writes the message of an entry, counted from 1, of an answer to the start of `out`. The bytes after it stay unchanged. The message has
// the position r1 and the entry's velocity v1. `texts` is eight lines that end with an LF each, in the order CREATION_DATE, ORIGINATOR,
// OBJECT_NAME, OBJECT_ID, CENTER_NAME, REF_FRAME, TIME_SYSTEM, EPOCH. A legal text has 1 to 60 printable bytes, and no blank first or
// last. The refusals are, in this order: B1 if the record passed as the answer is malformed or a refusal, B5 if `texts` is not eight
// legal texts, B6 if the answer has no such entry, B7 if a number of the state is not finite or its size is 10^7 or more, and B8 if the
// buffer is shorter than the message.
pub fn write(
    answer: &[u8],
    entry: usize,
    r1: Vector,
    texts: &[u8],
    out: &mut [u8],
) -> Result<usize, Refusal>
    ensures result { result ≡ (write_of answer.now entry r1 texts.now out.old).result }
    ensures buffer { out.new ≡ (write_of answer.now entry r1 texts.now out.old).buffer }
{
    if !outcomes::is_outcome(answer) | (kind_of(answer) == REFUSAL_KIND) {
        return Err(Refusal::NotAnAnswer);
    }
    if !are_texts(texts) {
        return Err(Refusal::IllegalTexts);
    }
    if (entry < 1) | ((number_of(answer) as usize) < entry) {
        return Err(Refusal::NoSuchEntry);
    }
    let state = state_of(r1, departure_velocity(answer, entry)).ok_or(Refusal::OutOfRange)?;
    put(out, message_of(texts, state))
}

// Returns the velocity v1 of an entry, counted from 1.
fn departure_velocity(answer: &[u8], entry: usize) -> Vector
    requires { (1 ≤ entry) × (entry ≤ most_entries) × (answer_size (entry - 1) ≤ length answer.now) }
    ensures { result ≡ departure_velocity answer.now entry }
{
    let at = answer_size((entry - 1) as u16);
    let e = read_entry(&answer[at..]);
    e.v1
}

// Writes a message to the start of the buffer, or refuses with `SmallBuffer` if the buffer is shorter.
fn put(out: &mut [u8], message: Filling) -> Result<usize, Refusal>
    requires { message.length ≤ 1100 }
    ensures result { result ≡ (put_of (filled_bytes message) out.old).result }
    ensures buffer { out.new ≡ (put_of (filled_bytes message) out.old).buffer }
{
    let n = message.length;
    if out.len() < n {
        return Err(Refusal::SmallBuffer);
    }
    out[..n].copy_from_slice(&message.bytes[..n]);
    Ok(n)
}
