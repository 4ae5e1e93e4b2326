// An estimate of a square root, computed in f64 without a division of floats, a table or a branch. Nothing is promised about how
// near it is to the root: the exact test in exact_test.rt decides whether it is the root.
ghost use Rattle.std.specs.Prelude.{◌≡◌};
ghost use Rattle.float64.specs.Internals.{Positive, at_most_high_end};

// 2^-960 and 2^960. Roots are estimated only for numbers strictly between these two ends, where no step of the estimate underflows or
// overflows.
pub(crate) const LOW_END: f64 = 1.0261342003245941e-289;

pub(crate) const HIGH_END: f64 = 9.7453140114e+288;

// Returns the lesser of x and HIGH_END. For a NaN it returns HIGH_END, so the result is never a NaN.
pub(crate) fn at_most_high_end(x: f64) -> f64
    ensures { result ≡ at_most_high_end x }
{
    if x < HIGH_END { x } else { HIGH_END }
}

// Returns x, or HIGH_END if x is not below HIGH_END, with the last 27 of its 53 binary digits set to zero. The square of the result then
// has at most 53 digits, so it is exact if it neither underflows nor overflows.
fn upper_digits(x: f64) -> f64 {
    let b = f64::to_bits(at_most_high_end(x));
    f64::from_bits(b / 0x0800_0000 * 0x0800_0000)
}

// Returns an estimate of r, the root of x. The bit pattern of x, halved and subtracted from a constant, is the bit pattern of h0, which is
// near 0.63 / r. The first Newton step gives h1, which is near 0.5 / r, and the second one gives h2 and root2, which are near
// 0.5 / r and r. The measured relative errors are at most 0.03 for h0, 2^-10 for h1, and 2^-21 for h2 and root2. `upper` has the
// upper digits of root2, and `rest` is what its square lacks of x, without a rounding error. What `upper` lacks of r is
// rest / (r + upper), and h2 * correction is near 1 / (r + upper). Of the constants that were tried, these gave the fewest
// estimates that are not the root.
pub(crate) fn estimated_root(x: f64) -> f64
    requires { Positive x }
{
    let h0 = f64::from_bits(0x5FDB_F6D6_E3E5_1EB6 - f64::to_bits(x) / 2);
    let h1 = 1.1910666503887624 * h0 - (x * h0) * (h0 * h0);
    let root1 = (x + x) * h1;
    let step = 1.5000003171446046 - root1 * h1;
    let root2 = root1 * step;
    let h2 = h1 * step;
    let upper = upper_digits(root2);
    let rest = x - upper * upper;
    let correction = 1.750000000000181 - (0.5 * root2 + upper) * h2;
    upper + (rest * h2) * correction
}
