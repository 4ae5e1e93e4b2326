// The size of an f64 in billionths, rounded to the nearest whole number, from the bit pattern of the f64.
ghost use Rattle.std.specs.Prelude.{◌≡◌, ◌+◌, ◌*◌, ◌^◌, ◌≤◌, ◌<◌};
ghost use Rattle.std.specs.Float.Ieee.Nearest.{closest};
ghost use Rattle.float64.specs.Internals.{units_of_bits};

// Returns the size in billionths, rounded to the nearest whole number, ties to even, of the f64 with the pattern b. The pattern has no sign
// bit and is below that of 10^7. If the exponent field is 0, the significand has no leading 1, and the scale is that of the field 1.
pub(crate) fn count_of(b: u64) -> u64
    requires { b < 0x4163_12D0_0000_0000 }
    ensures { result ≡ closest (units_of_bits b * 10 ^ 9) (2 ^ 1074) }
{
    let field = b / 0x0010_0000_0000_0000;
    let digits = b % 0x0010_0000_0000_0000;
    if field == 0 {
        scaled(digits, 1074)
    } else {
        scaled(0x0010_0000_0000_0000 + digits, 1075 - field)
    }
}

// Returns m / 2^s in billionths, rounded. The product of m and 10^9 has up to 83 binary digits: `low` is the last 27
// of them, and `high` is the rest. If s is 87 or more, the quotient is below 1/16 and rounds to 0.
fn scaled(m: u64, s: u64) -> u64
    requires { (m < 2 ^ 53) × (29 ≤ s) }
    ensures { result ≡ closest (m * 10 ^ 9) (2 ^ s) }
{
    let lower = m % 0x0800_0000 * 1_000_000_000;
    let high = m / 0x0800_0000 * 1_000_000_000 + lower / 0x0800_0000;
    let low = lower % 0x0800_0000;
    if s < 87 {
        rounded(high, low, s - 28)
    } else {
        0
    }
}

// Returns (high * 2^27 + low) / 2^(28 + k), rounded to the nearest whole number, ties to even. This is high + low / 2^27, divided by 2 *
// 2^k, and low / 2^27 is below 1. `quotient` and `rest` are those of `high`. The quotient is rounded up if the rest is above 2^k, or if
// it is 2^k and `low` is not 0 or the quotient is odd.
fn rounded(high: u64, low: u64, k: u64) -> u64
    requires { (high < 2 ^ 57) × (low < 2 ^ 27) × (k < 59) }
    ensures { result ≡ closest (high * 2 ^ 27 + low) (2 ^ (28 + k)) }
{
    let half = 1u64 << k;
    let quotient = high / (2 * half);
    let rest = high % (2 * half);
    if (half < rest) | ((rest == half) & ((0 < low) | (quotient % 2 == 1))) {
        quotient + 1
    } else {
        quotient
    }
}
