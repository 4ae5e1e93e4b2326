// Writes the whole record of a question into a buffer that has room for any record, and decides what to write for one slot of an input.
// Here a slot is 82 bytes of the input, not a slot of a board. The programs that answer questions use these functions.
#![tactic(auto)]

ghost use Rattle.std.specs.Prelude.{◌≡◌, ◌≤◌, length, take};
ghost use Rattle.question_record.specs.Record.{record_of};
ghost use Rattle.little_endian.specs.Bytes.{written};
ghost use Rattle.slot_records.specs.Inputs.{slot_record, slot_reply};

use records::{ANSWER_ROOM, QUESTION_ROOM};

// Writes the record of a question at the start of the buffer and returns its size.
pub fn record_of(question: &[u8], out: &mut [u8; ANSWER_ROOM]) -> usize
    ensures size { result ≡ length (record_of question.now) }
    ensures buffer { out.new ≡ written out.old (record_of question.now) }
    ensures within { (result ≤ length out.new) × (result ≡ length (take result out.new)) }
    ensures record { take result out.new ≡ record_of question.now }
{
    question_record::write_record(question, out)
}

// The reply to a slot: how many bytes at the start of the buffer are to be written, and whether another slot may follow.
// Both fields hold in every reply, so neither is an Option of the other.
#[derive(Clone, Copy)]
pub struct SlotReply {
    pub size: usize,
    pub another: bool,
}

// Puts the bytes to be written for a slot at the start of the buffer. `came` is the part of the slot that was read. It is empty at the
// end of the input, and then there is nothing to write.
pub fn answer_slot(came: &[u8], out: &mut [u8; ANSWER_ROOM]) -> SlotReply
    ensures reply { result ≡ slot_reply came.now }
    ensures buffer { out.new ≡ written out.old (slot_record came.now) }
    ensures within { (result.size ≤ length out.new) × (result.size ≡ length (take result.size out.new)) }
    ensures bytes { take result.size out.new ≡ slot_record came.now }
{
    if came.len() == 0 {
        return SlotReply {
            size: 0,
            another: false,
        };
    }
    let size = record_of(came, out);
    SlotReply {
        size,
        another: came.len() == QUESTION_ROOM,
    }
}
