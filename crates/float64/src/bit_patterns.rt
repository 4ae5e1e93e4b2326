// The bit patterns of f64 that the code names.

// The bit pattern of +infinity. A pattern that is above it once the sign bit is cleared is a NaN.
pub(crate) const INFINITY: u64 = 0x7FF0_0000_0000_0000;

// The bit pattern that `to_bits` returns for a NaN.
pub(crate) const NAN: u64 = 0x7FF8_0000_0000_0000;

// The sign bit.
pub(crate) const SIGN: u64 = 0x8000_0000_0000_0000;

// 2^52: one step of the exponent field, and the leading digit of a normal number's significand.
pub(crate) const LEADING_DIGIT: u64 = 0x0010_0000_0000_0000;
