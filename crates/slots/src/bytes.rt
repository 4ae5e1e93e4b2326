// Compares bytes with zeros and with each other.
ghost use Rattle.std.specs.Prelude.{◌≡◌};
ghost use Rattle.slots.specs.Slots.{is_zero, same_bytes};

// Reports whether all bytes are 0. The loop has no early exit, so that LLVM tests many bytes at a time. The method `all` of an iterator
// stops at the first byte that fails, so it tests one byte at a time, and a board that is nearly empty has 33,000 zeros.
pub fn is_zero(s: &[u8]) -> bool
    ensures { result ≡ is_zero s.now }
{
    let mut zero = true;
    for &byte in s {
        zero &= byte == 0;
    }
    zero
}

// Reports whether a and b have the same length and the same bytes.
pub fn same_bytes(a: &[u8], b: &[u8]) -> bool
    ensures { result ≡ same_bytes a.now b.now }
{
    a == b
}
