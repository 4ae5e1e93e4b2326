// One little-endian number in a slice of bytes.
ghost use Rattle.std.specs.Prelude.{◌≡◌, ◌+◌, ◌*◌, ◌^◌, ◌≤◌, ◌<◌, length, get_or};
ghost use Rattle.std.proofs.lemmas.List.Edits.{sets};
ghost use Rattle.little_endian.specs.Bytes.{bytes_of, number_at};

// Returns the byte at the offset `at + i`, or 0 if that is past the end.
fn byte_at(s: &[u8], at: usize, i: usize) -> u64
    ensures byte { result ≡ get_or s.now (at + i) 0 }
    ensures bound { result < 256 }
{
    if at < s.len() && i < s.len() - at {
        s[at + i] as u64
    } else {
        0
    }
}

// Returns the number stored in the `width` bytes from the offset `at` on. A byte past
// the end counts as 0, and `width` is at most eight.
pub(crate) fn number_at(s: &[u8], at: usize, width: usize) -> u64
    requires { width ≤ 8 }
    ensures number { result ≡ number_at width s.now at }
    ensures bound { result < 2 ^ (8 * width) }
{
    let mut value = 0u64;
    for i in (0..width).rev() {
        value = value * 256 + byte_at(s, at, i);
    }
    value
}

// Returns the number stored in the eight bytes from the offset `at` on. A byte past the end counts as 0.
pub fn word_at(s: &[u8], at: usize) -> u64
    ensures { result ≡ number_at 8 s.now at }
{
    number_at(s, at, 8)
}

// Stores the lowest `width` bytes of `value` from the offset `at` on.
pub(crate) fn put_number(out: &mut [u8], at: usize, width: usize, value: u64)
    requires { at + width ≤ length out.old }
    ensures { out.new ≡ sets out.old at (bytes_of width value) }
{
    let mut rest = value;
    for i in 0..width {
        out[at + i] = (rest % 256) as u8;
        rest /= 256;
    }
}
