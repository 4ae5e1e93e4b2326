// The square root, with the operand and the root passed as their 64 bits, and four square roots side by side, passed as doubles. Both are
// for programs in other languages and for comparisons with the program in reference/.
#![tactic(auto)]

ghost use Rattle.std.specs.Prelude.{◌≡◌};
ghost use Rattle.float64.specs.FourRoots.{four_roots_of};
ghost use Rattle.c_root.specs.RootBits.{root_bits_of};
ghost use Rattle.c_root.specs.FourNumbers.{four_of, all_found, numbers_after};

use float64::Four;

// Returns the bits of the root of the f64 with the bits b, or all ones if the root is refused.
#[tactic(auto, unfolding(crate::specs::RootBits::root_bits_of, crate::specs::RootBits::answer_bits))]
pub fn lambert_root_bits(b: u64) -> u64
    ensures { result ≡ root_bits_of b }
{
    match float64::square_root(float64::from_bits(b)) {
        Some(r) => float64::to_bits(r),
        None => 0xFFFF_FFFF_FFFF_FFFF,
    }
}

// Replaces four numbers by their square roots and returns true. If at least one of them has no root, it changes nothing and returns
// false. In C, the argument is a pointer to four doubles. The contract speaks of numbers, and all NaN patterns are one number: it does
// not say that the bits of a NaN stay the same.
pub fn lambert_four_roots(numbers: &mut [f64; 4]) -> bool
    ensures result { result ≡ all_found (four_roots_of (four_of numbers.old)) }
    ensures buffer { numbers.new ≡ numbers_after (four_roots_of (four_of numbers.old)) numbers.old }
{
    let x = Four {
        a: numbers[0],
        b: numbers[1],
        c: numbers[2],
        d: numbers[3],
    };
    match float64::four_roots(x) {
        Some(r) => {
            *numbers = [r.a, r.b, r.c, r.d];
            true
        }
        None => false,
    }
}
