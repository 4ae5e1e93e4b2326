// Reads the text of a decimal. `parse` works out the only decimal that can have these bytes as its text, and compares
// the bytes with the text of that decimal. So it accepts exactly what `text_of` writes for a well-formed decimal.
ghost use Rattle.std.specs.Prelude.{◌≡◌, ◌+◌, ◌≤◌, ◌<◌, length};
ghost use Rattle.std.specs.Str.{bytes_eq};
ghost use Rattle.decimal.specs.Texts.{value_at, decimal_in, is_well_formed, text_of, parse_of};

use crate::Decimal;
use crate::texts::text_of;

// Returns the number that the k bytes from the offset `at` on show, if they are digits. The ASCII code of a digit, modulo 16, is the
// digit. For other bytes the result has no meaning, and `matches` then refuses them.
fn value_at(s: &[u8], at: usize, k: usize) -> u64
    requires { (at + k ≤ length s.now) × (k ≤ 9) }
    ensures { result ≡ value_at s.now at k }
{
    let mut value = 0u64;
    for &b in &s[at..at + k] {
        value = value * 10 + u64::from(b) % 16;
    }
    value
}

// Returns the decimal that the bytes show, if they are the text of one.
fn decimal_in(s: &[u8]) -> Decimal
    requires { (11 ≤ length s.now) × (length s.now ≤ 18) }
    ensures { result ≡ decimal_in s.now }
{
    let n = s.len();
    let negative = s[0] == b'-';
    let sign = usize::from(negative);
    Decimal {
        negative,
        whole: value_at(s, sign, n - 10 - sign),
        billionths: value_at(s, n - 9, 9),
    }
}

// Reports whether the bytes are the text of d.
fn matches(s: &[u8], d: Decimal) -> bool
    ensures { result ≡ bytes_eq s.now (text_of d) }
{
    let text = text_of(d);
    s == &text.bytes[..text.length]
}

// Reports whether d is well formed: at most seven digits before the point, nine after it, no minus sign on a zero.
fn is_well_formed(d: Decimal) -> bool
    ensures { result ≡ is_well_formed d }
{
    (d.whole < 10_000_000)
        & (d.billionths < 1_000_000_000)
        & (!d.negative | (0 < d.whole) | (0 < d.billionths))
}

// Returns the well-formed decimal whose text the bytes are, or `None` if there is none. Well formed means: a whole part below
// 10^7, billionths below 10^9, and no minus sign on a zero.
pub fn parse(s: &[u8]) -> Option<Decimal>
    ensures { result ≡ parse_of s.now }
{
    let n = s.len();
    if (n < 11) | (18 < n) {
        return None;
    }
    let d = decimal_in(s);
    if is_well_formed(d) & matches(s, d) {
        Some(d)
    } else {
        None
    }
}
