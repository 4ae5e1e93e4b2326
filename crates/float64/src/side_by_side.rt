// Four square roots side by side.
ghost use Rattle.std.specs.Prelude.{◌≡◌};
ghost use Rattle.float64.specs.FourRoots.{four_roots_of};
ghost use Rattle.float64.specs.Internals.{Positive, RootIfPositive, clamped_of, outside_of};

use crate::estimate::{HIGH_END, LOW_END, at_most_high_end, estimated_root};
use crate::exact_test::mismatch_of;
use crate::square_root;

// Four numbers.
#[derive(Clone, Copy)]
pub struct Four {
    pub a: f64,
    pub b: f64,
    pub c: f64,
    pub d: f64,
}

// Returns x, or the nearer of LOW_END and HIGH_END if x is not strictly between them. For a NaN it returns HIGH_END.
fn clamped(x: f64) -> f64
    ensures clamped { result ≡ clamped_of x }
    ensures positive { Positive result }
{
    let y = at_most_high_end(x);
    if LOW_END < y { y } else { LOW_END }
}

// Returns 0 if x is strictly between LOW_END and HIGH_END, and 1 otherwise.
fn outside(x: f64) -> u64
    ensures { result ≡ outside_of x }
{
    if (LOW_END < x) & (x < HIGH_END) { 0 } else { 1 }
}

// Returns the estimate if x is strictly between the ends and the exact test shows that the estimate is the square root of x. Otherwise
// it returns -1. The caller passes x, clamped, as the operand.
fn if_root(x: f64, operand: f64, estimate: f64) -> f64
    requires { operand ≡ clamped_of x }
    ensures { RootIfPositive result x }
{
    let root = at_most_high_end(estimate);
    let mismatch = mismatch_of(f64::to_bits(operand), f64::to_bits(root));
    if mismatch + outside(x) == 0 {
        root
    } else {
        -1.0
    }
}

// Returns for each of the four numbers its estimated root, or -1 if the number is not strictly between the ends or the estimate is not the
// root. The function has no branch and does each step for all four numbers before the next step, so that LLVM compiles two numbers at a
// time to packed instructions.
fn estimated_roots(x: Four) -> Four
    ensures first { RootIfPositive result.a x.a }
    ensures second { RootIfPositive result.b x.b }
    ensures third { RootIfPositive result.c x.c }
    ensures fourth { RootIfPositive result.d x.d }
{
    let operands = Four {
        a: clamped(x.a),
        b: clamped(x.b),
        c: clamped(x.c),
        d: clamped(x.d),
    };
    let estimates = Four {
        a: estimated_root(operands.a),
        b: estimated_root(operands.b),
        c: estimated_root(operands.c),
        d: estimated_root(operands.d),
    };
    Four {
        a: if_root(x.a, operands.a, estimates.a),
        b: if_root(x.b, operands.b, estimates.b),
        c: if_root(x.c, operands.c, estimates.c),
        d: if_root(x.d, operands.d, estimates.d),
    }
}

// Returns the four roots, each computed by itself, or `None`.
#[tactic(auto, unfolding(crate::specs::FourRoots::four_roots_of))]
fn in_turn(x: Four) -> Option<Four>
    ensures { result ≡ four_roots_of x }
{
    let a = square_root(x.a)?;
    let b = square_root(x.b)?;
    let c = square_root(x.c)?;
    let d = square_root(x.d)?;
    Some(Four { a, b, c, d })
}

// Returns the square roots of four numbers, or `None` if at least one of them has none. If one of the four estimates cannot be
// used, all four roots are computed one after the other.
pub fn four_roots(x: Four) -> Option<Four>
    ensures { result ≡ four_roots_of x }
{
    let roots = estimated_roots(x);
    if (0.0 < roots.a) & (0.0 < roots.b) & (0.0 < roots.c) & (0.0 < roots.d) {
        return Some(roots);
    }
    in_turn(x)
}
