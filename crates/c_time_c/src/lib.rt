// The C interface to the time at a place and to the sweep: each function calls the one of `c_time` with its name, and promises the same.
// Every f64 is passed and returned as its 64 bits. They stand apart because no crate can use a static library.
#![tactic(auto)]

ghost use Rattle.std.specs.Prelude.{◌≡◌};
ghost use Rattle.c_time.specs.SweepNumber.{sweep_number_of};
ghost use Rattle.c_time.specs.TimeBits.{time_bits_of};

// Returns the bits of the time at the place k, or those of a NaN that stands for the reason why the place is void.
#[unsafe(no_mangle)]
pub extern "C" fn lambert_time_bits(b: u64, k: i64, revolutions: u16) -> u64
    ensures { result ≡ time_bits_of b k revolutions }
{
    c_time::lambert_time_bits(b, k, revolutions)
}

// Returns the result of the sweep as one number: how many crossings it lists, how it ended, and the first void station.
#[unsafe(no_mangle)]
pub extern "C" fn lambert_sweep_number(b: u64, revolutions: u16, w: u64) -> u64
    ensures { result ≡ sweep_number_of b revolutions w }
{
    c_time::lambert_sweep_number(b, revolutions, w)
}
