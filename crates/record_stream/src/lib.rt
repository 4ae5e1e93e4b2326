// Records one after another in an input: finds the end of each by its length field, and says in words why a record is
// refused.
#![tactic(auto)]

ghost use Rattle.std.specs.Prelude.{◌≡◌};
ghost use Rattle.record_stream.specs.Streams.{start_of};

mod reasons;

pub use reasons::{REASON_ROOM, length_reason, reason_of};
use records::{ANSWER_ROOM, LENGTH_SIZE, length_of};

// The largest number of bytes that follow the length field of a record.
const LONGEST_REST: usize = ANSWER_ROOM - LENGTH_SIZE;

// What comes next in the input.
// - `End`: the end of the input.
// - `Record`: a record, with the number of bytes that its length field says follow. The input may end before them. The
//   number is 0 if the input ends within the length field.
// - `NoRecord`: a length above that of the longest record, so nothing tells where the next record starts.
// The three have names: as a Result of an Option, the end of the input and a record would be `Ok(None)` and `Ok(Some)`.
#[derive(Clone, Copy)]
pub enum Start {
    End,
    Record(usize),
    NoRecord,
}

// Returns what comes next in the input. The caller passes the next bytes: as many as a length field has, or fewer at
// the end of the input.
pub fn start_of(head: &[u8]) -> Start
    ensures { result ≡ start_of head.now }
{
    if head.is_empty() {
        return Start::End;
    }
    if head.len() < LENGTH_SIZE {
        return Start::Record(0);
    }
    let rest = length_of(head) as usize;
    if LONGEST_REST < rest {
        return Start::NoRecord;
    }
    Start::Record(rest)
}
