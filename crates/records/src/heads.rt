// The head of an answer (kind 2) and of a refusal (kind 3).
ghost use Rattle.std.specs.Prelude.{◌≡◌};
ghost use Rattle.little_endian.specs.Bytes.{has_room, written};
ghost use Rattle.records.specs.Layout.{answer_size};
ghost use Rattle.records.specs.Records.{head_of, head_numbers, head_bytes, answer_head_of};

use crate::{ANSWER_KIND, ENTRY_SIZE, HEAD_SIZE, Head, LENGTH_SIZE};
use little_endian::{put_numbers, u16_at, u32_at};

const WIDTHS: [usize; 5] = [4, 2, 4, 4, 2];

// Returns the head at the start of the bytes. A byte past the end counts as 0.
pub fn read_head(s: &[u8]) -> Head
    ensures { result ≡ head_of s.now }
{
    Head {
        length: u32_at(s, 0),
        kind: u16_at(s, 4),
        job: u32_at(s, 6),
        revision: u32_at(s, 10),
        number: u16_at(s, 14),
    }
}

// Writes a head to the start of the buffer and returns true. If there is no room, it changes nothing and returns false.
pub fn write_head(out: &mut [u8], h: Head) -> bool
    ensures room { result ≡ has_room out.old (head_bytes h) }
    ensures bytes { out.new ≡ written out.old (head_bytes h) }
{
    put_numbers(out, WIDTHS, numbers_of(h))
}

// Returns the values of the fields in the order of the table.
fn numbers_of(h: Head) -> [u64; 5]
    ensures { result ≡ head_numbers h }
{
    [
        h.length as u64,
        h.kind as u64,
        h.job as u64,
        h.revision as u64,
        h.number as u64,
    ]
}

// Returns the size of an answer with the given number of entries. This is also
// the offset at which one more entry would start.
pub fn answer_size(entries: u16) -> usize
    ensures { result ≡ answer_size entries }
{
    HEAD_SIZE + ENTRY_SIZE * (entries as usize)
}

// Returns the head of an answer with the given number of entries.
pub fn answer_head(job: u32, revision: u32, entries: u16) -> Head
    ensures { result ≡ answer_head_of job revision entries }
{
    Head {
        length: (answer_size(entries) - LENGTH_SIZE) as u32,
        kind: ANSWER_KIND,
        job,
        revision,
        number: entries,
    }
}
