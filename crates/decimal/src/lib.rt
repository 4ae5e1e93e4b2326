// An f64 as a decimal number with nine decimals, and the text of such a number (02, A10). A decimal is a sign, a
// whole part and billionths. `round` rounds to nearest, ties to even, judged against the exact value of the f64.
// `text_of` writes the text of a decimal, and `parse` reads it back.
#![tactic(auto)]

ghost use Rattle.std.specs.Prelude.{◌≡◌};
ghost use Rattle.decimal.specs.Decimals.{round_of};

mod counts;
mod parsing;
mod texts;

use counts::count_of;
pub use parsing::parse;
pub use texts::{Text, text_of};

// A number with nine decimals: its sign, its whole part, and the billionths after the point.
#[derive(Clone, Copy, Debug, PartialEq, Eq)]
pub struct Decimal {
    pub negative: bool,
    pub whole: u64,
    pub billionths: u64,
}

// Rounds x to nine decimals: to the nearest, ties to even. It returns `None` for an infinity, a NaN, and a size of 10^7 or
// more. A number that rounds to zero has no minus sign.
pub fn round(x: f64) -> Option<Decimal>
    ensures { result ≡ round_of x }
{
    let b = float64::to_bits(x);
    let size = b % 0x8000_0000_0000_0000;
    // This is the pattern of 10^7. The patterns of greater numbers, of infinity and of the NaNs are above it.
    if size < 0x4163_12D0_0000_0000 {
        let count = count_of(size);
        Some(Decimal {
            negative: (0x8000_0000_0000_0000 <= b) & (0 < count),
            whole: count / 1_000_000_000,
            billionths: count % 1_000_000_000,
        })
    } else {
        None
    }
}
