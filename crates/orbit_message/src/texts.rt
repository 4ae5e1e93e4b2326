// Tests the eight texts of a message.
ghost use Rattle.std.specs.Prelude.{◌≡◌, ◌≤◌};
ghost use Rattle.orbit_message.specs.Texts.{every, is_printable, is_legal, texts_in, are_texts};
ghost use Rattle.orbit_message.specs.Matches.{values_between, Inside};

use crate::matching::{Match, find_values};

// The template of eight lines, one for each text.
const EIGHT_LINES: [u8; 16] = *b"\0\n\0\n\0\n\0\n\0\n\0\n\0\n\0\n";

// The first and the last byte of printable ASCII. The first is the blank.
const BLANK: u8 = 0x20;

const LAST_PRINTABLE: u8 = 0x7E;

// Reports whether every byte is printable ASCII.
fn is_printable(s: &[u8]) -> bool
    ensures { result ≡ every is_printable s.now }
{
    s.iter().all(|&b| (BLANK <= b) & (b <= LAST_PRINTABLE))
}

// Reports whether the bytes are a legal text.
fn is_legal(s: &[u8]) -> bool
    ensures { result ≡ is_legal s.now }
{
    let n = s.len();
    if (n < 1) | (60 < n) {
        return false;
    }
    is_printable(s) & (s[0] != BLANK) & (s[n - 1] != BLANK)
}

// Reports whether the first eight values of a match are legal texts.
pub(crate) fn are_legal(s: &[u8], found: Match) -> bool
    requires { Inside s.now found × (8 ≤ found.count) }
    ensures { result ≡ every is_legal (values_between s.now found.spans 8) }
{
    (0..8).all(|k| is_legal(found.value(s, k)))
}

// Reports whether the bytes are eight legal texts, each on a line of its own.
pub(crate) fn are_texts(s: &[u8]) -> bool
    ensures { result ≡ are_texts (texts_in s.now) }
{
    let template = EIGHT_LINES;
    match find_values(&template, s) {
        Some(found) => are_legal(s, found),
        None => false,
    }
}
