// Reads frames of 18 bytes, each with a place: the bits of lambda, k and the whole revolutions. Writes a line for each: the bits of its
// time, or `void` and the number of the reason. The expected output is that of the independent program for the same frames. If a read or
// write fails, the program stops with the error.
#![tactic(auto)]

ghost use Rattle.std.specs.Prelude.{◌≡◌};
ghost use Rattle.little_endian.specs.Bytes.{number_at};

use flight_time::Place;
use std::io;

// The size of a frame: lambda and k in eight bytes each, and the revolutions in two.
const FRAME_SIZE: usize = 18;

fn k_bits(frame: &[u8]) -> u64
    ensures { result ≡ number_at 8 frame.now 8 }
{
    little_endian::word_at(frame, 8)
}

fn place_of(frame: &[u8]) -> Place {
    let triangle = c_time::with_lambda(little_endian::word_at(frame, 0));
    let k = little_endian::signed_of(k_bits(frame));
    flight_time::time_at(triangle, k, little_endian::u16_at(frame, 16))
}

// Writes the line of one frame.
fn answer(rt: &impl Print, frame: &[u8; FRAME_SIZE]) -> io::Result<()> {
    match place_of(frame) {
        Place::Timed(time) => {
            let time = float64::to_bits(time);
            println!(rt; "{time:016x}")?;
        }
        Place::Void(reason) => {
            let number = u16::from(reason);
            println!(rt; "void {number}")?;
        }
    }
    Ok(())
}

// The prover requires a bound on the loop. The input has none, so the bound is a count that no input reaches.
fn main(rt: HostRuntime) -> io::Result<()> {
    let mut input = rt.stdin();
    for _ in 0..u64::MAX {
        let Some(frame) = standard_input::next_frame(&mut input)? else {
            break;
        };
        answer(&rt, &frame)?;
    }
    Ok(())
}
