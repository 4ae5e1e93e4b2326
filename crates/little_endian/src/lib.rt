// Little-endian numbers in slices of bytes. Reading accepts any bytes and any offset, and a byte past the end counts as 0.
// Writing starts at the first byte of the buffer. If the buffer is too short, a write changes nothing and returns false.
#![tactic(auto)]

mod bytes;
mod tables;
mod typed;
mod words;

pub use bytes::word_at;
pub use tables::put_numbers;
pub use typed::{u8_at, u16_at, u32_at};
pub use words::{signed_bits, signed_of, signed32_bits, signed32_of};
