// The text of a decimal: a minus sign or nothing, the whole part without needless leading zeros, a point and nine
// digits.
ghost use Rattle.std.specs.Prelude.{◌≡◌, ◌++◌, ◌+◌, ◌-◌, ◌/◌, ◌%◌, ◌^◌, ◌<◌, ◌≤◌, length, get_or, replicate};
ghost use Rattle.decimal.specs.Texts.{digit_count, text_of};

use crate::Decimal;
use std::array;

// A text of at most 18 bytes: its bytes with zeros after them, and its length. The project uses no heap, so the bytes are in an array.
#[derive(Clone, Copy)]
pub struct Text {
    pub bytes: [u8; 18],
    pub length: usize,
}

// Returns the number of digits that a whole part is written with: the least that is enough, but at most seven.
fn digit_count(n: u64) -> usize
    ensures { (result ≡ digit_count n) × (1 ≤ result) × (result ≤ 7) }
{
    for count in 1..7 {
        if n < 10u64.pow(count as u32) {
            return count;
        }
    }
    7
}

// Returns the decimal digit of n that counts 10^k, in ASCII.
fn digit(n: u64, k: usize) -> u8
    requires { k < 9 }
    ensures { result ≡ 48 + n / 10 ^ k % 10 }
{
    (48 + n / 10u64.pow(k as u32) % 10) as u8
}

// Returns the length of the text of d, which is 11 to 18.
fn text_length(d: Decimal) -> usize
    ensures { (result ≡ length (text_of d)) × (result ≤ 18) }
{
    usize::from(d.negative) + digit_count(d.whole) + 10
}

// Returns the byte i of the text of d, or 0 if the text is shorter.
fn text_byte(d: Decimal, i: usize) -> u8
    ensures { result ≡ get_or (text_of d) i 0 }
{
    let start = usize::from(d.negative);
    let point = start + digit_count(d.whole);
    if i < start {
        return b'-';
    }
    if i < point {
        return digit(d.whole, point - 1 - i);
    }
    if i == point {
        return b'.';
    }
    if i < point + 10 {
        digit(d.billionths, point + 9 - i)
    } else {
        0
    }
}

// Returns the text of d. If the whole part has more than seven digits, only the last seven are written. If the billionths have more than
// nine, only the last nine are written. A minus sign is written even on a zero. None of this happens for a well-formed decimal.
pub fn text_of(d: Decimal) -> Text
    ensures { (result.bytes ≡ text_of d ++ replicate (18 - length (text_of d)) 0) × (result.length ≡ length (text_of d)) }
{
    Text {
        bytes: array::from_fn(|i| text_byte(d, i)),
        length: text_length(d),
    }
}
