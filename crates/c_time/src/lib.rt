// The time at a place, and the result of a sweep: the number of its crossings, how it ended, and the
// first void station with its reason. Every f64 is passed and returned as its 64 bits. This is for
// programs in other languages and for comparisons with the independent program.
#![tactic(auto)]

ghost use Rattle.std.specs.Prelude.{◌≡◌, ◌-◌, ◌^◌, ◌<◌};
ghost use Rattle.c_time.specs.SweepNumber.{station_number, walk_number, sweep_number_of};
ghost use Rattle.c_time.specs.TimeBits.{with_lambda, time_bits_of};

use geometry::Triangle;
use little_endian::signed32_bits;
use stations::Search;
use sweep::{VoidStation, Walk};

// Returns a triangle whose lambda has the bits b. The chord divided by the semiperimeter is
// 1 - lambda^2. Rho and sigma are arbitrary, because the time does not depend on them.
#[tactic(auto, unfolding(crate::specs::TimeBits::with_lambda))]
pub fn with_lambda(b: u64) -> Triangle
    ensures { result ≡ with_lambda b }
{
    let lambda = float64::from_bits(b);
    Triangle {
        lambda,
        semiperimeter: 1.0,
        chord: 1.0 - lambda * lambda,
        rho: 0.0,
        sigma: 1.0,
    }
}

// Returns the bits of the time at the place k with the given number of whole revolutions, for the
// lambda with the bits b. If the place is void, the result is 0x7FF8_0000_0000_0000 plus the number
// of the reason.
#[tactic(auto, unfolding(crate::specs::TimeBits::time_bits_of))]
pub fn lambert_time_bits(b: u64, k: i64, revolutions: u16) -> u64
    ensures { result ≡ time_bits_of b k revolutions }
{
    flight_time::place_bits(flight_time::time_at(with_lambda(b), k, revolutions))
}

// Returns the number that names a void station. Its value leaves room for `walk_number`.
fn station_number(station: VoidStation) -> u64
    ensures number { result ≡ station_number station }
    ensures room { result < 2 ^ 64 - 32 }
{
    let reason = station.reason;
    0x100 * u64::from(u16::from(reason)) + 0x1_0000_0000 * signed32_bits(station.j) as u64
}

// Returns the number that says how the walk ended. Its value leaves room for a count of at most
// eight.
fn walk_number(walk: Walk) -> u64
    ensures number { result ≡ walk_number walk }
    ensures room { result < 2 ^ 64 - 8 }
{
    match walk {
        Walk::AllTimed => 0,
        Walk::SomeVoid(station) => 16 + station_number(station),
        Walk::NinthFound => 32,
    }
}

// Returns the result of the sweep for the lambda with the bits b, the given number of whole
// revolutions and the wanted time with the bits w:
// - bits 0 to 3: how many crossings the sweep lists, at most eight;
// - bit 4: set if there is no ninth crossing and some station is void;
// - bit 5: set if there is a ninth crossing;
// - bits 8 to 10: if bit 4 is set, the number of the reason why the first void station is void;
// - bits 32 to 63: if bit 4 is set, the j of this station in two's complement.
// All other bits are 0.
pub fn lambert_sweep_number(b: u64, revolutions: u16, w: u64) -> u64
    ensures { result ≡ sweep_number_of b revolutions w }
{
    let search = Search {
        triangle: with_lambda(b),
        revolutions,
        wanted: float64::from_bits(w),
    };
    let found = sweep::find_crossings(search);
    let walk = found.walk;
    walk_number(walk) + found.count as u64
}
