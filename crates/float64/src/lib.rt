// The operations on f64 that the later layers share: the square root (01, Root), four square roots side by side, the magnitude,
// the test for finite numbers, and the conversions between an f64 and its 64 bits. Each public function accepts any f64 or any 64 bits.
#![tactic(auto)]

ghost use Rattle.std.specs.Prelude.{◌≡◌, ◌<◌};
ghost use Rattle.float64.specs.Root.{root_of, root_of_units};
ghost use Rattle.float64.specs.Internals.{infinity_bits, units_of_bits};

mod bit_patterns;
mod digits;
mod estimate;
mod exact_test;
mod operand;
mod side_by_side;
mod value;

use bit_patterns::LEADING_DIGIT;
use digits::floor_root;
use estimate::{HIGH_END, LOW_END, estimated_root};
use exact_test::is_root;
use operand::operand_of;
pub use side_by_side::{Four, four_roots};
pub use value::{from_bits, is_finite, magnitude, to_bits};

// A vector of three components. It represents a position in km, a velocity in km/s, a direction, or a cross product of
// positions in km^2.
#[derive(Clone, Copy)]
pub struct Vector {
    pub x: f64,
    pub y: f64,
    pub z: f64,
}

// Returns the f64 nearest to the square root of x. The root of a zero is that same zero, with its sign. The result is `None` for a number
// below zero, an infinity and a NaN. The root is estimated in f64, and the estimate is tested exactly. If it is not the root, or
// if x is too small or too large for an estimate, the root is computed digit by digit.
pub fn square_root(x: f64) -> Option<f64>
    ensures { result ≡ root_of x }
{
    if (LOW_END < x) & (x < HIGH_END) {
        let root = estimated_root(x);
        if is_root(x, root) {
            return Some(root);
        }
    }
    root_by_digits(x)
}

// Returns what `square_root` returns, computed in whole numbers.
fn root_by_digits(x: f64) -> Option<f64>
    ensures { result ≡ root_of x }
{
    if x == 0.0 {
        return Some(x);
    }
    if (0.0 < x) & is_finite(x) {
        Some(positive_root(f64::to_bits(x)))
    } else {
        None
    }
}

// Returns the square root of the positive finite f64 with the bit pattern b. The 54 binary digits of the root are rounded to
// 53, and the last of these counts 2^(k + 484) units of 2^-1074. The exponent field is set to k + 484, and the leading digit
// adds one to it.
fn positive_root(b: u64) -> f64
    requires { (0 < b) × (b < infinity_bits) }
    ensures { result ≡ root_of_units (units_of_bits b) }
{
    let operand = operand_of(b);
    let root = floor_root(operand.a);
    f64::from_bits((operand.k + 484) * LEADING_DIGIT + (root + 1) / 2)
}
