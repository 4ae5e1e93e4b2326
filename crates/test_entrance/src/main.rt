// Reads frames of 124 bytes, each with a question, and writes a line for each: the number of its refusal, or 0 and the 22 words of the
// problem. The expected output is that of the independent program for the same frames. If a read or write fails, the program stops with
// the error.
#![tactic(auto)]

ghost use Rattle.std.specs.Prelude.{◌≤◌};

use entrance::{Fault, Problem};
use float64::Vector;
use geometry::{Frame, Triangle};
use std::io;

// The size of a frame: two bytes for the question's size, two for the answer buffer's size, and 120 for the question.
const FRAME_SIZE: usize = 124;

fn print_word(rt: &impl Print, word: u64) -> io::Result<()> {
    print!(rt; " {word:016x}")
}

fn print_float(rt: &impl Print, x: f64) -> io::Result<()> {
    print_word(rt, float64::to_bits(x))
}

// `test_velocity` prints a vector in another form. A crate for these lines would be longer than they are.
fn print_vector(rt: &impl Print, v: Vector) -> io::Result<()> {
    print_float(rt, v.x)?;
    print_float(rt, v.y)?;
    print_float(rt, v.z)
}

fn print_triangle(rt: &impl Print, t: Triangle) -> io::Result<()> {
    print_float(rt, t.lambda)?;
    print_float(rt, t.semiperimeter)?;
    print_float(rt, t.chord)?;
    print_float(rt, t.rho)?;
    print_float(rt, t.sigma)
}

fn print_directions(rt: &impl Print, f: Frame) -> io::Result<()> {
    let normal = f.normal;
    let unit1 = f.unit1;
    let unit2 = f.unit2;
    print_vector(rt, normal)?;
    print_vector(rt, unit1)?;
    print_vector(rt, unit2)
}

fn print_problem(rt: &impl Print, p: Problem) -> io::Result<()> {
    let triangle = p.triangle;
    let frame = p.frame;
    print_word(rt, u64::from(p.job))?;
    print_word(rt, u64::from(p.revision))?;
    print_word(rt, u64::from(p.revolutions))?;
    print_word(rt, u64::from(p.long_way))?;
    print_float(rt, p.mu)?;
    print_triangle(rt, triangle)?;
    print_float(rt, p.radius1)?;
    print_float(rt, p.radius2)?;
    print_directions(rt, frame)?;
    print_float(rt, p.wanted)
}

// Writes the line.
fn print_judged(rt: &impl Print, judged: Result<Problem, Fault>) -> io::Result<()> {
    match judged {
        Err(fault) => { println!(rt; "{}", u16::from(fault)) }
        Ok(problem) => {
            print!(rt; "0")?;
            print_problem(rt, problem)?;
            println!(rt; "")
        }
    }
}

// Returns where a question of the given size ends in its frame. A size above 120 counts as 120.
fn question_end(size: usize) -> usize
    ensures least { 4 ≤ result }
    ensures most { result ≤ 124 }
{
    4 + size.min(FRAME_SIZE - 4)
}

fn judge_frame(frame: &[u8; FRAME_SIZE]) -> Result<Problem, Fault> {
    let end = question_end(usize::from(u16::from_le_bytes([frame[0], frame[1]])));
    let room = usize::from(u16::from_le_bytes([frame[2], frame[3]]));
    let bytes = &frame[..];
    entrance::judge(&bytes[4..end], room)
}

// Writes the line of one frame.
fn answer(rt: &impl Print, frame: &[u8; FRAME_SIZE]) -> io::Result<()> {
    print_judged(rt, judge_frame(frame))
}

// The prover requires a bound on the loop. The input has none, so the bound is a count that no input reaches.
fn main(rt: HostRuntime) -> io::Result<()> {
    let mut input = rt.stdin();
    for _ in 0..u64::MAX {
        let Some(frame) = standard_input::next_frame(&mut input)? else {
            break;
        };
        answer(&rt, &frame)?;
    }
    Ok(())
}
