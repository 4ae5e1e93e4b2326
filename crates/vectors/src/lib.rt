// Vectors, computed component by component in 01's order of operations (01, Triangle), and a square
// root that returns a NaN instead of a refusal.
#![tactic(auto)]

ghost use Rattle.std.specs.Prelude.{◌≡◌};
ghost use Rattle.vectors.specs.Vectors.{norm_squared, difference, cross, divided_by, opposite, or_nan, root_or_nan};

use float64::{Vector, square_root};

// Returns the square of a vector's length.
#[tactic(auto, unfolding(crate::specs::Vectors::norm_squared))]
pub fn norm_squared(v: Vector) -> f64
    ensures { result ≡ norm_squared v }
{
    (v.x * v.x + v.y * v.y) + v.z * v.z
}

// Returns a - b, the vector from b to a.
#[tactic(auto, unfolding(crate::specs::Vectors::difference))]
pub fn difference(a: Vector, b: Vector) -> Vector
    ensures { result ≡ difference a b }
{
    Vector {
        x: a.x - b.x,
        y: a.y - b.y,
        z: a.z - b.z,
    }
}

// Returns the cross product a × b.
#[tactic(auto, unfolding(crate::specs::Vectors::cross))]
pub fn cross(a: Vector, b: Vector) -> Vector
    ensures { result ≡ cross a b }
{
    Vector {
        x: a.y * b.z - a.z * b.y,
        y: a.z * b.x - a.x * b.z,
        z: a.x * b.y - a.y * b.x,
    }
}

// Divides a vector by a number.
#[tactic(auto, unfolding(crate::specs::Vectors::divided_by))]
pub fn divided_by(v: Vector, d: f64) -> Vector
    ensures { result ≡ divided_by v d }
{
    Vector {
        x: v.x / d,
        y: v.y / d,
        z: v.z / d,
    }
}

// Returns the vector with every component negated.
#[tactic(auto, unfolding(crate::specs::Vectors::opposite))]
pub fn opposite(v: Vector) -> Vector
    ensures { result ≡ opposite v }
{
    Vector {
        x: -v.x,
        y: -v.y,
        z: -v.z,
    }
}

// Returns the value of a root, or a NaN if the root is refused. With this, any two positions have
// a shape (see `geometry::shape_of`).
pub fn or_nan(root: Option<f64>) -> f64
    ensures { result ≡ or_nan root }
{
    root.unwrap_or(0.0 / 0.0)
}

// Returns the root of x, or a NaN if the root is refused.
#[tactic(auto, unfolding(crate::specs::Vectors::root_or_nan))]
pub fn root_or_nan(x: f64) -> f64
    ensures { result ≡ root_or_nan x }
{
    or_nan(square_root(x))
}
