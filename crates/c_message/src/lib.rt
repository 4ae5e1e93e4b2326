// The C interface to the orbit messages, for callers in other languages. A slice is a pointer and a length. The memory of an answer, of
// texts and of a buffer must not overlap. Every f64 is passed as its 64 bits.
#![tactic(auto)]

ghost use Rattle.std.specs.Prelude.{◌≡◌};
ghost use Rattle.orbit_message.specs.Writing.{write_of};
ghost use Rattle.c_message.specs.Numbers.{write_number, vector_of_bits, state_words, stored_of, read_into};

use float64::{Vector, from_bits};
use little_endian::put_numbers;
use orbit_message::State;

// The numbers that a state is written as: three for each of its six decimals.
const NUMBERS: usize = 3 * 6;

// The widths of these numbers: eight bytes each.
const WIDTHS: [usize; NUMBERS] = [8; NUMBERS];

// Writes a message as `write` does, with the position r1 given by the bits of its components. Returns the length of the message, or the
// number of the refusal: 1, 5, 6, 7 or 8 for B1, B5, B6, B7 or B8. Every message has at least 248 and at most 762 bytes, so the two cannot
// be confused.
#[unsafe(no_mangle)]
pub extern "C" fn lambert_opm_write(
    answer: &[u8],
    entry: usize,
    x: u64,
    y: u64,
    z: u64,
    texts: &[u8],
    out: &mut [u8],
) -> usize
    ensures result { result ≡ write_number
        (write_of answer.now entry (vector_of_bits x y z) texts.now out.old).result }
    ensures buffer { out.new
        ≡ (write_of answer.now entry (vector_of_bits x y z) texts.now out.old).buffer }
{
    let r1 = Vector {
        x: from_bits(x),
        y: from_bits(y),
        z: from_bits(z),
    };
    match orbit_message::write(answer, entry, r1, texts, out) {
        Ok(length) => length,
        Err(refusal) => usize::from(u8::from(refusal)),
    }
}

// Returns the sign, the whole part and the billionths of each number of a state.
fn numbers_of(s: State) -> [u64; NUMBERS]
    ensures { result ≡ state_words s }
{
    let x = s.position.x;
    let y = s.position.y;
    let z = s.position.z;
    let u = s.velocity.x;
    let v = s.velocity.y;
    let w = s.velocity.z;
    [
        u64::from(x.negative),
        x.whole,
        x.billionths,
        u64::from(y.negative),
        y.whole,
        y.billionths,
        u64::from(z.negative),
        z.whole,
        z.billionths,
        u64::from(u.negative),
        u.whole,
        u.billionths,
        u64::from(v.negative),
        v.whole,
        v.billionths,
        u64::from(w.negative),
        w.whole,
        w.billionths,
    ]
}

// Reads a message as `read` does. If the bytes are one, writes eighteen little-endian numbers of eight bytes to the start of the buffer and
// returns 0: for each of X, Y, Z, X_DOT, Y_DOT and Z_DOT the sign (1 if negative), the whole part and the billionths. Otherwise it leaves
// the buffer unchanged, and returns 10 (B10) if the bytes are not a message, or 8 if they are and the buffer has fewer than 144 bytes.
#[unsafe(no_mangle)]
pub extern "C" fn lambert_opm_read(message: &[u8], out: &mut [u8]) -> u8
    ensures result { result ≡ (read_into message.now out.old).result }
    ensures buffer { out.new ≡ (read_into message.now out.old).buffer }
{
    match orbit_message::read(message) {
        Ok(state) => store(out, state),
        Err(refusal) => u8::from(refusal),
    }
}

// Writes the numbers of a state to the buffer and returns 0, or returns 8 if the buffer is too short.
fn store(out: &mut [u8], state: State) -> u8
    ensures result { result ≡ (stored_of state out.old).result }
    ensures buffer { out.new ≡ (stored_of state out.old).buffer }
{
    if put_numbers(out, WIDTHS, numbers_of(state)) {
        0
    } else {
        8
    }
}
