// Computes the triangle of two positions, its plane and the wanted time (01, Triangle), and the
// conditions of the entrance checks on them. Every function accepts any f64, including NaNs and
// infinities.
#![tactic(auto)]

ghost use Rattle.std.specs.Prelude.{◌≡◌, cond};
ghost use Rattle.vectors.specs.Vectors.{opposite};
ghost use Rattle.geometry.specs.Triangles.{semiperimeter_of, at_least_zero, lambda_of, kappa_of, triangle_of, shape_of, frame_of};
ghost use Rattle.geometry.specs.Triangles.{wanted_of};

mod conditions;

pub use conditions::{flat_triangle, no_plane, outside, radius_outside, short_chord};
use float64::Vector;
pub use vectors::{cross, divided_by, norm_squared, or_nan, root_or_nan};
use vectors::{difference, opposite};

// The largest radius, and the largest magnitude of a component of a position: 2^40.
pub const LARGEST_LENGTH: f64 = 1099511627776.0;

// The five numbers that the time and velocity steps receive: L, s, c, ρ and σ.
#[derive(Clone, Copy)]
pub struct Triangle {
    pub lambda: f64,
    pub semiperimeter: f64,
    pub chord: f64,
    pub rho: f64,
    pub sigma: f64,
}

// What the entrance checks and later steps need from two positions. `q1` and `q2` are the squares of
// the distances from the origin, and `radius1` and `radius2` are the distances. `h` is the cross
// product of the positions, and `hh` is the square of its length. `triangle` is the triangle of the
// positions and the way between them.
#[derive(Clone, Copy)]
pub struct Shape {
    pub q1: f64,
    pub q2: f64,
    pub radius1: f64,
    pub radius2: f64,
    pub h: Vector,
    pub hh: f64,
    pub triangle: Triangle,
}

// Unit vectors. `normal` is the normal of the plane, negated for the long way. `unit1` and `unit2`
// point from the origin to the two positions.
#[derive(Clone, Copy)]
pub struct Frame {
    pub normal: Vector,
    pub unit1: Vector,
    pub unit2: Vector,
}

// Returns half of the sum of the triangle's sides.
#[tactic(auto, unfolding(crate::specs::Triangles::semiperimeter_of))]
fn semiperimeter(radius1: f64, radius2: f64, chord: f64) -> f64
    ensures { result ≡ semiperimeter_of radius1 radius2 chord }
{
    ((radius1 + radius2) + chord) / 2.0
}

// Returns x, or 0 if x is below 0. `lambda` needs this because rounding can make the chord longer
// than the semiperimeter.
#[tactic(auto, unfolding(crate::specs::Triangles::at_least_zero))]
fn at_least_zero(x: f64) -> f64
    ensures { result ≡ at_least_zero x }
{
    if x < 0.0 { 0.0 } else { x }
}

// Returns L, negated for the long way.
#[tactic(auto, unfolding(crate::specs::Triangles::lambda_of))]
fn lambda(chord: f64, semiperimeter: f64, long_way: bool) -> f64
    ensures { result ≡ lambda_of chord semiperimeter long_way }
{
    let root = root_or_nan(at_least_zero(1.0 - chord / semiperimeter));
    if long_way { -root } else { root }
}

// Returns κ: the chord divided by the semiperimeter, or 1 if that quotient is above 1 (02, A5). In exact
// arithmetic κ is 1 - L^2. Rounding can make the chord longer than the semiperimeter.
#[tactic(auto, unfolding(crate::specs::Triangles::kappa_of))]
pub fn kappa(chord: f64, semiperimeter: f64) -> f64
    ensures { result ≡ kappa_of chord semiperimeter }
{
    let quotient = chord / semiperimeter;
    if 1.0 < quotient { 1.0 } else { quotient }
}

// Returns the triangle of two radii and the chord between their ends.
#[tactic(auto, unfolding(crate::specs::Triangles::triangle_of))]
pub fn triangle_of(radius1: f64, radius2: f64, chord: f64, long_way: bool) -> Triangle
    ensures { result ≡ triangle_of radius1 radius2 chord long_way }
{
    let half = semiperimeter(radius1, radius2, chord);
    let rho = (radius1 - radius2) / chord;
    Triangle {
        lambda: lambda(chord, half, long_way),
        semiperimeter: half,
        chord,
        rho,
        sigma: root_or_nan(1.0 - rho * rho),
    }
}

// Returns the shape of two positions and the way between them.
#[tactic(auto, unfolding(crate::specs::Triangles::shape_of))]
pub fn shape_of(position1: Vector, position2: Vector, long_way: bool) -> Shape
    ensures { result ≡ shape_of position1 position2 long_way }
{
    let q1 = norm_squared(position1);
    let q2 = norm_squared(position2);
    let radius1 = root_or_nan(q1);
    let radius2 = root_or_nan(q2);
    let h = cross(position1, position2);
    let hh = norm_squared(h);
    let chord = root_or_nan(norm_squared(difference(position2, position1)));
    let triangle = triangle_of(radius1, radius2, chord, long_way);
    Shape {
        q1,
        q2,
        radius1,
        radius2,
        h,
        hh,
        triangle,
    }
}

// Returns the unit vectors of two positions, given their shape. If the positions define no plane, the
// normal is meaningless.
#[tactic(auto, unfolding(crate::specs::Triangles::frame_of))]
pub fn frame_of(position1: Vector, position2: Vector, shape: Shape, long_way: bool) -> Frame
    ensures { result ≡ frame_of position1 position2 shape long_way }
{
    let normal = divided_by(shape.h, root_or_nan(shape.hh));
    Frame {
        normal: turned(normal, long_way),
        unit1: divided_by(position1, shape.radius1),
        unit2: divided_by(position2, shape.radius2),
    }
}

// Returns v, negated for the long way.
fn turned(v: Vector, long_way: bool) -> Vector
    ensures { result ≡ cond long_way (opposite v) v }
{
    if long_way { opposite(v) } else { v }
}

// Returns the wanted time: the question's time in the unit that mu and the semiperimeter define.
#[tactic(auto, unfolding(crate::specs::Triangles::wanted_of))]
pub fn wanted_time(mu: f64, semiperimeter: f64, time: f64) -> f64
    ensures { result ≡ wanted_of mu semiperimeter time }
{
    root_or_nan((2.0 * mu) / ((semiperimeter * semiperimeter) * semiperimeter)) * time
}
