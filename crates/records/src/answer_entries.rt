// An entry of an answer.
ghost use Rattle.std.specs.Prelude.{◌≡◌};
ghost use Rattle.little_endian.specs.Bytes.{has_room, written};
ghost use Rattle.records.specs.Records.{entry_of, entry_numbers, entry_bytes};

use crate::Entry;
use crate::floats::vector_at;
use float64::to_bits;
use little_endian::{put_numbers, signed_bits, signed_of, u32_at, word_at};

const WIDTHS: [usize; 9] = [8, 4, 4, 8, 8, 8, 8, 8, 8];

// Returns the entry at the start of the bytes. A byte past the end counts as 0.
pub fn read_entry(s: &[u8]) -> Entry
    ensures { result ≡ entry_of s.now }
{
    Entry {
        lower: signed_of(word_at(s, 0)),
        halvings: u32_at(s, 8),
        chosen: u32_at(s, 12),
        v1: vector_at(s, 16),
        v2: vector_at(s, 40),
    }
}

// Writes an entry to the start of the buffer and returns true. If there is no room, it changes nothing and returns false.
pub fn write_entry(out: &mut [u8], e: Entry) -> bool
    ensures room { result ≡ has_room out.old (entry_bytes e) }
    ensures bytes { out.new ≡ written out.old (entry_bytes e) }
{
    put_numbers(out, WIDTHS, numbers_of(e))
}

// Returns the values of the fields in the order of the table.
fn numbers_of(e: Entry) -> [u64; 9]
    ensures { result ≡ entry_numbers e }
{
    [
        signed_bits(e.lower),
        e.halvings as u64,
        e.chosen as u64,
        to_bits(e.v1.x),
        to_bits(e.v1.y),
        to_bits(e.v1.z),
        to_bits(e.v2.x),
        to_bits(e.v2.y),
        to_bits(e.v2.z),
    ]
}
