// Signed numbers as words of 64 and of 32 bits, in two's complement. Each function is one call of the library's cast at its width.
ghost use Rattle.std.specs.Prelude.{◌≡◌};
ghost use Rattle.little_endian.specs.Bytes.{signed_bits, signed_of, signed32_bits, signed32_of};

// Returns the two's complement of k as a word of 64 bits.
pub fn signed_bits(k: i64) -> u64
    ensures { result ≡ signed_bits k }
{
    i64::cast_unsigned(k)
}

// Returns the signed number that has the two's complement b in 64 bits.
pub fn signed_of(b: u64) -> i64
    ensures { result ≡ signed_of b }
{
    u64::cast_signed(b)
}

// Returns the two's complement of k as a word of 32 bits.
pub fn signed32_bits(k: i32) -> u32
    ensures { result ≡ signed32_bits k }
{
    i32::cast_unsigned(k)
}

// Returns the signed number that has the two's complement b in 32 bits.
pub fn signed32_of(b: u32) -> i32
    ensures { result ≡ signed32_of b }
{
    u32::cast_signed(b)
}
