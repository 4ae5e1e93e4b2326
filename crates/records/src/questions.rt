// A question (kind 1).
ghost use Rattle.std.specs.Prelude.{◌≡◌};
ghost use Rattle.little_endian.specs.Bytes.{has_room, written};
ghost use Rattle.records.specs.Records.{question_of, question_numbers, question_bytes};

use crate::Question;
use crate::floats::{float_at, vector_at};
use float64::to_bits;
use little_endian::{put_numbers, u8_at, u16_at, u32_at};

const WIDTHS: [usize; 15] = [4, 2, 4, 4, 2, 1, 1, 8, 8, 8, 8, 8, 8, 8, 8];

// Returns the question at the start of the bytes. A byte past the end counts as 0.
pub fn read_question(s: &[u8]) -> Question
    ensures { result ≡ question_of s.now }
{
    Question {
        length: u32_at(s, 0),
        kind: u16_at(s, 4),
        job: u32_at(s, 6),
        revision: u32_at(s, 10),
        revolutions: u16_at(s, 14),
        way: u8_at(s, 16),
        spare: u8_at(s, 17),
        r1: vector_at(s, 18),
        r2: vector_at(s, 42),
        mu: float_at(s, 66),
        time: float_at(s, 74),
    }
}

// Writes a question to the start of the buffer and returns true. If there is no room, it changes nothing and returns false.
pub fn write_question(out: &mut [u8], q: Question) -> bool
    ensures room { result ≡ has_room out.old (question_bytes q) }
    ensures bytes { out.new ≡ written out.old (question_bytes q) }
{
    put_numbers(out, WIDTHS, numbers_of(q))
}

// Returns the values of the fields in the order of the table.
fn numbers_of(q: Question) -> [u64; 15]
    ensures { result ≡ question_numbers q }
{
    [
        q.length as u64,
        q.kind as u64,
        q.job as u64,
        q.revision as u64,
        q.revolutions as u64,
        q.way as u64,
        q.spare as u64,
        to_bits(q.r1.x),
        to_bits(q.r1.y),
        to_bits(q.r1.z),
        to_bits(q.r2.x),
        to_bits(q.r2.y),
        to_bits(q.r2.z),
        to_bits(q.mu),
        to_bits(q.time),
    ]
}
