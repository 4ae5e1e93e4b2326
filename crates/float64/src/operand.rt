// Finds the whole number whose root is computed, from the bit pattern of a positive f64.
ghost use Rattle.std.specs.Prelude.{ℕ, ◌^◌, ◌<◌, ◌≤◌};
ghost use Rattle.float64.specs.Internals.{infinity_bits, units_of_bits, Normalised, Scaled};

use crate::bit_patterns::LEADING_DIGIT;

// The operand of the whole-number square root is a * 2^54. The last of the 53 digits of the rounded root counts 2^(k + 484) units
// of 2^-1074.
#[derive(Clone, Copy)]
pub(crate) struct Operand {
    pub(crate) a: u64,
    pub(crate) k: u64,
}

// Returns the operand for the positive finite f64 with the bit pattern b, counted in units of 2^-1074, the least f64 above
// zero. A pattern with the exponent field 0 is subnormal: its digits are already the number of units.
pub(crate) fn operand_of(b: u64) -> Operand
    requires { (0 < b) × (b < infinity_bits) }
    ensures scaled { Scaled (units_of_bits b) result.a result.k }
    ensures small { result.k ≤ 1049 }
{
    if b / LEADING_DIGIT == 0 {
        let length = 64 - u64::leading_zeros(b) as u64;
        scaled(b << (53 - length), length)
    } else {
        normal_operand(b)
    }
}

// Returns the operand for the normal f64 with the bit pattern b. There is no branch, so LLVM can compile it for several numbers to
// packed instructions.
pub(crate) fn normal_operand(b: u64) -> Operand
    requires { (2 ^ 52 ≤ b) × (b < infinity_bits) }
    ensures scaled { Scaled (units_of_bits b) result.a result.k }
    ensures small { result.k ≤ 1049 }
{
    let digits = LEADING_DIGIT + b % LEADING_DIGIT;
    scaled(digits, b / LEADING_DIGIT + 52)
}

// Returns the operand for a number, given its first 53 binary digits, filled up with zeros if it has fewer, and its length in
// binary digits. If the length is even,
// `a` gets one digit more, so that the power of two that is left out is a power of four.
fn scaled(digits: u64, length: u64) -> Operand
    requires { (digits < 2 ^ 53) × (length ≤ 2098) }
    ensures scaled { (n : ℕ) → Normalised n digits length → Scaled n result.a result.k }
    ensures small { result.k ≤ 1049 }
{
    Operand {
        a: digits << (1 - length % 2),
        k: (length + 1) / 2,
    }
}
