// The C interface to the square roots: each function calls the one of `c_root` with its name, and promises the same.
// They stand apart because no crate can use a static library.
#![tactic(auto)]

ghost use Rattle.std.specs.Prelude.{◌≡◌};
ghost use Rattle.float64.specs.FourRoots.{four_roots_of};
ghost use Rattle.c_root.specs.RootBits.{root_bits_of};
ghost use Rattle.c_root.specs.FourNumbers.{four_of, all_found, numbers_after};

// Returns the bits of the root of the f64 with the bits b, or all ones if the root is refused.
#[unsafe(no_mangle)]
pub extern "C" fn lambert_root_bits(b: u64) -> u64
    ensures { result ≡ root_bits_of b }
{
    c_root::lambert_root_bits(b)
}

// Replaces four numbers by their square roots and returns true. If at least one of them has no root, it changes nothing and returns
// false. In C, the argument is a pointer to four doubles.
#[unsafe(no_mangle)]
pub extern "C" fn lambert_four_roots(numbers: &mut [f64; 4]) -> bool
    ensures result { result ≡ all_found (four_roots_of (four_of numbers.old)) }
    ensures buffer { numbers.new ≡ numbers_after (four_roots_of (four_of numbers.old)) numbers.old }
{
    c_root::lambert_four_roots(numbers)
}
