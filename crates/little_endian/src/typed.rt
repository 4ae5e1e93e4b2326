// Numbers of 1, 2 and 4 bytes as values of the type of that width. They always fit, so no caller needs a cast.
//
// These are three functions and not one over a trait. A clause cannot use a value of a type parameter as a number, so the trait would
// need a member that turns it into one, and a call would no longer show how many bytes it reads.
ghost use Rattle.std.specs.Prelude.{◌≡◌};
ghost use Rattle.little_endian.specs.Bytes.{number_at};

use crate::bytes::number_at;

// Returns the u8 stored at the offset `at`, or 0 if that is past the end.
pub fn u8_at(s: &[u8], at: usize) -> u8
    ensures { result ≡ number_at 1 s.now at }
{
    number_at(s, at, 1) as u8
}

// Returns the u16 stored from the offset `at` on. A byte past the end counts as 0.
pub fn u16_at(s: &[u8], at: usize) -> u16
    ensures { result ≡ number_at 2 s.now at }
{
    number_at(s, at, 2) as u16
}

// Returns the u32 stored from the offset `at` on. A byte past the end counts as 0.
pub fn u32_at(s: &[u8], at: usize) -> u32
    ensures { result ≡ number_at 4 s.now at }
{
    number_at(s, at, 4) as u32
}
