// The terminal velocities at a place of a triangle (01, Velocities), and the choice of the
// bracket's end where they are taken. Every function accepts any numbers.
#![tactic(auto)]

ghost use Rattle.std.specs.Prelude.{◌≡◌};
ghost use Rattle.velocity.specs.Velocities.{gamma_of, y_or_nan, speeds_of, velocity_of, velocities_of};

mod chosen;

pub use chosen::{are_finite, upper_chosen};
use float64::Vector;
use geometry::{Frame, Triangle};

// The radial and transverse speeds at departure (1) and at arrival (2).
#[derive(Clone, Copy)]
pub(crate) struct Speeds {
    pub(crate) radial1: f64,
    pub(crate) radial2: f64,
    pub(crate) transverse1: f64,
    pub(crate) transverse2: f64,
}

// The velocities at departure (v1) and at arrival (v2), in km/s.
#[derive(Clone, Copy)]
pub struct Velocities {
    pub v1: Vector,
    pub v2: Vector,
}

// Returns the terminal velocities, at departure and at arrival, for place k of a triangle.
#[tactic(auto, unfolding(crate::specs::Velocities::velocities_of))]
pub fn velocities_at(
    mu: f64,
    triangle: Triangle,
    radius1: f64,
    radius2: f64,
    frame: Frame,
    k: i64,
) -> Velocities
    ensures { result ≡ velocities_of mu triangle radius1 radius2 frame k }
{
    let x = flight_time::x_at(k);
    let y = y_or_nan(triangle.lambda, x);
    let speeds = speeds_at(
        gamma(mu, triangle.semiperimeter),
        triangle,
        radius1,
        radius2,
        x,
        y,
    );
    let normal = frame.normal;
    let unit1 = frame.unit1;
    let unit2 = frame.unit2;
    let v1 = velocity_along(speeds.radial1, speeds.transverse1, normal, unit1);
    let v2 = velocity_along(speeds.radial2, speeds.transverse2, normal, unit2);
    Velocities { v1, v2 }
}

#[tactic(auto, unfolding(crate::specs::Velocities::gamma_of))]
fn gamma(mu: f64, semiperimeter: f64) -> f64
    ensures { result ≡ gamma_of mu semiperimeter }
{
    geometry::root_or_nan((mu * semiperimeter) / 2.0)
}

#[tactic(auto, unfolding(crate::specs::Velocities::y_or_nan))]
fn y_or_nan(l: f64, x: f64) -> f64
    ensures { result ≡ y_or_nan l x }
{
    geometry::or_nan(hypergeometric::y_at(l, flight_time::u_at(x)))
}

#[tactic(auto, unfolding(crate::specs::Velocities::speeds_of))]
fn speeds_at(gamma: f64, t: Triangle, radius1: f64, radius2: f64, x: f64, y: f64) -> Speeds
    ensures { result ≡ speeds_of gamma t radius1 radius2 x y }
{
    let a = t.lambda * y - x;
    let b = t.lambda * y + x;
    let across = (gamma * t.sigma) * (y + t.lambda * x);
    Speeds {
        radial1: (gamma * (a - t.rho * b)) / radius1,
        radial2: -((gamma * (a + t.rho * b)) / radius2),
        transverse1: across / radius1,
        transverse2: across / radius2,
    }
}

// Returns the velocity with the given radial speed along the unit vector and the given transverse
// speed across it, in the plane of the given normal.
#[tactic(auto, unfolding(crate::specs::Velocities::velocity_of))]
fn velocity_along(radial: f64, transverse: f64, normal: Vector, unit: Vector) -> Vector
    ensures { result ≡ velocity_of radial transverse normal unit }
{
    let across = geometry::cross(normal, unit);
    Vector {
        x: radial * unit.x + transverse * across.x,
        y: radial * unit.y + transverse * across.y,
        z: radial * unit.z + transverse * across.z,
    }
}
