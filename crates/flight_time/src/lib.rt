// The time at one place of a triangle (01, Time at one place): the non-dimensional time of flight
// at x = k / 2^32, or void if the steps give no time.
#![tactic(auto)]

ghost use Rattle.std.specs.Prelude.{◌≡◌};
ghost use Rattle.flight_time.specs.Steps.{outside_range, x_of, u_of, direct_of};
ghost use Rattle.flight_time.specs.Time.{steps_of, time_of, place_bits};

mod revolutions;

use geometry::Triangle;
use hypergeometric::Reason;
use revolutions::with_revolutions;

// The result at one place: a time, which is a finite number, or void. A void place carries the
// reason why it has no time. This is an enum of its own and not a `Result`, because 01 asks for the
// two cases by these names (Where to use each form).
#[derive(Clone, Copy)]
pub enum Place {
    Timed(f64),
    Void(Reason),
}

impl Place {
    // π as an f64, with the bits 400921FB54442D18.
    pub const PI: f64 = 3.141592653589793;

    // The difference in k that makes a difference of 1 in x: 2^32.
    pub const UNIT: f64 = 4294967296.0;

    // The difference in k between neighbouring stations: 2^20.
    pub const STATION_SPACING: i64 = 1048576;

    // The ends of the range of k. The last constant is the upper end with whole revolutions.
    pub const LOWEST: i64 = -4293918720;

    pub const HIGHEST: i64 = 17179869184;

    pub const HIGHEST_REVOLVING: i64 = 4293918720;

    pub const MOST_REVOLUTIONS: u16 = 16;
}

// Returns the time at the place k of a triangle, with the given number of whole revolutions (M in
// 01).
#[tactic(auto, unfolding(crate::specs::Time::time_of))]
pub fn time_at(triangle: Triangle, k: i64, revolutions: u16) -> Place
    ensures { result ≡ time_of triangle k revolutions }
{
    match steps(triangle.lambda, k, revolutions) {
        Ok(time) => Place::Timed(time),
        Err(reason) => Place::Void(reason),
    }
}

// Goes through the steps for the lambda L. Returns the time, or the reason that the first void step gives.
#[tactic(auto, unfolding(crate::specs::Time::steps_of))]
fn steps(l: f64, k: i64, revolutions: u16) -> Result<f64, Reason>
    ensures { result ≡ steps_of l k revolutions }
{
    if is_outside(l, k, revolutions) {
        return Err(Reason::OutsideRange);
    }
    let x = x_at(k);
    let u = u_at(x);
    let angles = hypergeometric::half_angles(l, x, u)?;
    let g = hypergeometric::g_at(angles)?;
    let time = with_revolutions(direct(l, angles.eta, g), u, revolutions)?;
    if float64::is_finite(time) {
        Ok(time)
    } else {
        Err(Reason::NotFinite)
    }
}

// Returns the bits of a place's time. For a void place it returns the bits of a NaN: those of the
// first quiet NaN plus the number of the reason. `time_at` never returns a NaN as a time.
#[tactic(auto, unfolding(crate::specs::Time::place_bits), using(hypergeometric::proofs::ReasonNumbers::number_most))]
pub fn place_bits(place: Place) -> u64
    ensures { result ≡ place_bits place }
{
    match place {
        Place::Timed(time) => float64::to_bits(time),
        Place::Void(reason) => 0x7FF8_0000_0000_0000 + u64::from(u16::from(reason)),
    }
}

// Step 1: reports whether the place is void because L, k or the number of revolutions is outside
// its range.
#[tactic(auto, unfolding(crate::specs::Steps::outside_range))]
fn is_outside(l: f64, k: i64, revolutions: u16) -> bool
    ensures { result ≡ outside_range l k revolutions }
{
    !(float64::magnitude(l) < 1.0)
        | ((revolutions > Place::MOST_REVOLUTIONS)
            | ((k < Place::LOWEST)
                | ((k > Place::HIGHEST) | ((revolutions >= 1) & (k > Place::HIGHEST_REVOLVING)))))
}

// Returns x = k / 2^32. The code first rounds k to the nearest f64.
#[tactic(auto, unfolding(crate::specs::Steps::x_of))]
pub fn x_at(k: i64) -> f64
    ensures { result ≡ x_of k }
{
    std::num::nearest_i64_to_f64(k) / Place::UNIT
}

// Returns u = 1 - x^2.
#[tactic(auto, unfolding(crate::specs::Steps::u_of))]
pub fn u_at(x: f64) -> f64
    ensures { result ≡ u_of x }
{
    1.0 - x * x
}

// Step 6: returns the time without whole revolutions.
#[tactic(auto, unfolding(crate::specs::Steps::direct_of))]
fn direct(l: f64, eta: f64, g: f64) -> f64
    ensures { result ≡ direct_of l eta g }
{
    (((eta * eta) * eta) * ((4.0 * g) / 3.0) + (4.0 * l) * eta) / 2.0
}
