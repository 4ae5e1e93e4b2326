// The exact test of an estimated root, in whole numbers.
ghost use Rattle.std.specs.Prelude.{◌≡◌, ◌^◌, ◌<◌, ◌≤◌, true, Some};
ghost use Rattle.float64.specs.Notation.{bits};
ghost use Rattle.float64.specs.Root.{root_of, root_of_units};
ghost use Rattle.float64.specs.Internals.{infinity_bits, units_of_bits, Inside};

use crate::bit_patterns::LEADING_DIGIT;
use crate::estimate::HIGH_END;
use crate::operand::normal_operand;

// Powers of two.
const TWO_26: u64 = 0x0400_0000;

const TWO_30: u64 = 0x4000_0000;

const TWO_53: u64 = 0x0020_0000_0000_0000;

const TWO_54: u64 = 0x0040_0000_0000_0000;

const TWO_63: u64 = 0x8000_0000_0000_0000;

// Returns 0 only if c is the bit pattern of the root of the normal f64 with the bit pattern b. `digits` is c minus what the exponent of the
// root contributes to the root's bit pattern. For the root it is the significand s, a number below 2^53 with
// s^2 - s < a * 2^52 <= s^2 + s. So `over`, which is a * 2^52 - (s^2 - s), is at least 1 and at most 2 * s. It is computed from two
// parts of s, with s = h * 2^26 + l, so that each product is of two numbers below 2^32. Differences are computed modulo 2^64. For
// the root, `upper` and `middle` are below 2^30; if they are, the shifts lose no digit and `over` is right. The result is the sum of
// five numbers, one for each of these conditions, in this order: `digits` is below 2^53, `upper` and `middle` are below 2^30,
// `over` is at least 1 and at most 2 * s. Each of the five is 0 if its condition holds. There is no branch, so LLVM can compile the
// tests of several roots to packed instructions.
pub(crate) fn mismatch_of(b: u64, c: u64) -> u64
    requires { (2 ^ 52 ≤ b) × (b < infinity_bits) }
    ensures exact { result ≡ 0 → bits c ≡ root_of_units (units_of_bits b) }
    ensures small { result < 2 ^ 40 }
{
    let operand = normal_operand(b);
    let digits = std::num::wrapping_sub_u64(c, (operand.k + 484) * LEADING_DIGIT);
    let s = digits % TWO_53;
    let h = s / TWO_26;
    let l = s % TWO_26;
    let upper = std::num::wrapping_sub_u64(operand.a + 4, h * h);
    let middle = std::num::wrapping_sub_u64(upper << 26, 2 * (h * l));
    let sum = std::num::wrapping_add_u64(middle << 26, s);
    let over = std::num::wrapping_sub_u64(sum, l * l + TWO_54);
    let over_less_one = std::num::wrapping_sub_u64(over, 1);
    let under = std::num::wrapping_sub_u64(2 * s, over);
    (digits / TWO_53 + upper / TWO_30 + middle / TWO_30) + (over_less_one / TWO_63 + under / TWO_63)
}

// Returns true only if `root` is the square root of x.
pub(crate) fn is_root(x: f64, root: f64) -> bool
    requires { Inside x }
    ensures { result ≡ true → Some root ≡ root_of x }
{
    if root < HIGH_END {
        return mismatch_of(f64::to_bits(x), f64::to_bits(root)) == 0;
    }
    false
}
