// The conditions of checks 3, 8, 9 and 10 on the numbers of a triangle (01, Numbers of refusal).
ghost use Rattle.std.specs.Prelude.{◌≡◌};
ghost use Rattle.geometry.specs.Conditions.{outside_of, radius_outside, no_plane, short_chord, flat_triangle};

use crate::{LARGEST_LENGTH, Shape, Triangle};
use float64::is_finite;

// Reports whether x is not finite, is below `low`, or is above `high`. Both ends of the range are
// inside.
#[tactic(auto, unfolding(crate::specs::Conditions::outside_of))]
pub fn outside(low: f64, high: f64, x: f64) -> bool
    ensures { result ≡ outside_of low high x }
{
    !is_finite(x) | ((x < low) | (high < x))
}

// Check 3: reports whether a radius is not finite, is below 1, or is above 2^40.
#[tactic(auto, unfolding(crate::specs::Conditions::radius_outside))]
pub fn radius_outside(shape: Shape) -> bool
    ensures { result ≡ radius_outside shape }
{
    outside(1.0, LARGEST_LENGTH, shape.radius1) | outside(1.0, LARGEST_LENGTH, shape.radius2)
}

// Check 8: reports whether the positions define no plane, which means that hh is at most 2^-40 times
// the product of q1 and q2.
#[tactic(auto, unfolding(crate::specs::Conditions::no_plane))]
pub fn no_plane(shape: Shape) -> bool
    ensures { result ≡ no_plane shape }
{
    shape.hh <= (shape.q1 * shape.q2) * 9.094947017729282379150390625e-13
}

// Check 9: reports whether the chord divided by the semiperimeter is below 2^-10.
#[tactic(auto, unfolding(crate::specs::Conditions::short_chord))]
pub fn short_chord(triangle: Triangle) -> bool
    ensures { result ≡ short_chord triangle }
{
    triangle.chord / triangle.semiperimeter < 0.0009765625
}

// Check 10: reports whether 1 - rho * rho is at most 0. The root of that number is sigma.
#[tactic(auto, unfolding(crate::specs::Conditions::flat_triangle))]
pub fn flat_triangle(triangle: Triangle) -> bool
    ensures { result ≡ flat_triangle triangle }
{
    1.0 - triangle.rho * triangle.rho <= 0.0
}
