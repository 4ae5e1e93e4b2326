// Reads frames of 24 bytes, each with a search: the bits of lambda, the bits of the wanted time and the whole revolutions. Writes a line
// for each: the count of the crossings, how the walk ended, and the ends and halvings of each bracket. How the walk ended is `timed`,
// `ninth`, or `void` with the j of the first void station, as the eight hexadecimal digits of its two's complement, and the number of the
// reason. The expected output is that of the independent program for the same frames. If a read or write fails, the program stops with the
// error.
#![tactic(auto)]

ghost use Rattle.std.specs.Prelude.{◌≡◌};
ghost use Rattle.little_endian.specs.Bytes.{number_at};

use stations::Search;
use std::io;
use sweep::{Bracket, Crossings, VoidStation, Walk};

// The size of a frame: three numbers of eight bytes.
const FRAME_SIZE: usize = 24;

fn wanted_bits(frame: &[u8]) -> u64
    ensures { result ≡ number_at 8 frame.now 8 }
{
    little_endian::word_at(frame, 8)
}

fn crossings_of(frame: &[u8]) -> Crossings {
    let search = Search {
        triangle: c_time::with_lambda(little_endian::word_at(frame, 0)),
        revolutions: little_endian::u16_at(frame, 16),
        wanted: float64::from_bits(wanted_bits(frame)),
    };
    sweep::find_crossings(search)
}

fn print_void(rt: &impl Print, station: VoidStation) -> io::Result<()> {
    let reason = station.reason;
    let j = little_endian::signed32_bits(station.j);
    let number = u16::from(reason);
    print!(rt; " void {j:08x} {number}")
}

fn print_walk(rt: &impl Print, walk: Walk) -> io::Result<()> {
    match walk {
        Walk::AllTimed => print!(rt; " timed"),
        Walk::SomeVoid(station) => print_void(rt, station),
        Walk::NinthFound => print!(rt; " ninth"),
    }
}

fn print_bracket(rt: &impl Print, bracket: Bracket) -> io::Result<()> {
    let lower = little_endian::signed_bits(bracket.lower);
    let upper = little_endian::signed_bits(bracket.upper);
    let halvings = bracket.halvings;
    print!(rt; " {lower:016x} {upper:016x} {halvings}")
}

// Writes the first `count` brackets of the list, at most eight.
fn print_list(rt: &impl Print, list: [Bracket; 8], count: usize) -> io::Result<()> {
    for bracket in &list[..count.min(8)] {
        print_bracket(rt, *bracket)?;
    }
    Ok(())
}

// Writes the line of one frame.
fn answer(rt: &impl Print, frame: &[u8; FRAME_SIZE]) -> io::Result<()> {
    let found = crossings_of(frame);
    let walk = found.walk;
    let list = found.list;
    let count = found.count;
    print!(rt; "{count}")?;
    print_walk(rt, walk)?;
    print_list(rt, list, count)?;
    println!(rt; "")
}

// The prover requires a bound on the loop. The input has none, so the bound is a count that no input reaches.
fn main(rt: HostRuntime) -> io::Result<()> {
    let mut input = rt.stdin();
    for _ in 0..u64::MAX {
        let Some(frame) = standard_input::next_frame(&mut input)? else {
            break;
        };
        answer(&rt, &frame)?;
    }
    Ok(())
}
