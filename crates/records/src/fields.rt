// Single fields of a record, read from its bytes without the other fields. A byte past the end counts as 0.
ghost use Rattle.std.specs.Prelude.{◌≡◌};
ghost use Rattle.records.specs.Layout.{LENGTH, CHOSEN, value_of, kind_of, job_of, revision_of, number_of, size_of, chosen_at};

use crate::LENGTH_SIZE;
use crate::heads::answer_size;
use little_endian::{u16_at, u32_at};

// Returns the length, the first field of a record.
pub fn length_of(s: &[u8]) -> u32
    ensures { result ≡ value_of LENGTH s.now }
{
    u32_at(s, 0)
}

// Returns the size of the record at the start of the bytes, according to its length field.
pub fn size_of(s: &[u8]) -> usize
    ensures { result ≡ size_of s.now }
{
    length_of(s) as usize + LENGTH_SIZE
}

// Returns the kind of a record.
pub fn kind_of(s: &[u8]) -> u16
    ensures { result ≡ kind_of s.now }
{
    u16_at(s, 4)
}

// Returns the job of a record.
pub fn job_of(s: &[u8]) -> u32
    ensures { result ≡ job_of s.now }
{
    u32_at(s, 6)
}

// Returns the revision of a record.
pub fn revision_of(s: &[u8]) -> u32
    ensures { result ≡ revision_of s.now }
{
    u32_at(s, 10)
}

// Returns the number of a refusal, or the number of entries of an answer.
pub fn number_of(s: &[u8]) -> u16
    ensures { result ≡ number_of s.now }
{
    u16_at(s, 14)
}

// Returns the chosen end in the entry of index i of an answer.
pub fn chosen_at(s: &[u8], i: u16) -> u32
    ensures { result ≡ chosen_at i s.now }
{
    u32_at(s, answer_size(i) + 12)
}
