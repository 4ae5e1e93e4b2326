// Reads frames of 144 bytes, each with 17 floats (mu, the triangle, the two radii and the unit vectors) and the place k. Writes a line
// for each: the bits of v1 and v2. The expected output is that of the independent program for the same frames. If a read or write fails,
// the program stops with the error.
#![tactic(auto)]

ghost use Rattle.std.specs.Prelude.{◌≤◌};

use float64::Vector;
use geometry::{Frame, Triangle};
use std::io;
use velocity::Velocities;

// The size of a frame: 17 floats and the place k, in eight bytes each.
const FRAME_SIZE: usize = 144;

fn number(frame: &[u8], at: usize) -> f64 {
    float64::from_bits(little_endian::word_at(frame, at))
}

fn vector(frame: &[u8], at: usize) -> Vector
    requires { at ≤ 112 }
{
    Vector {
        x: number(frame, at),
        y: number(frame, at + 8),
        z: number(frame, at + 16),
    }
}

fn triangle_of(frame: &[u8]) -> Triangle {
    Triangle {
        lambda: number(frame, 8),
        semiperimeter: number(frame, 16),
        chord: number(frame, 24),
        rho: number(frame, 32),
        sigma: number(frame, 40),
    }
}

fn frame_of(frame: &[u8]) -> Frame {
    let normal = vector(frame, 64);
    let unit1 = vector(frame, 88);
    let unit2 = vector(frame, 112);
    Frame {
        normal,
        unit1,
        unit2,
    }
}

fn velocities_of(frame: &[u8]) -> Velocities {
    let triangle = triangle_of(frame);
    let directions = frame_of(frame);
    let mu = number(frame, 0);
    let radius1 = number(frame, 48);
    let radius2 = number(frame, 56);
    let k = little_endian::signed_of(little_endian::word_at(frame, 136));
    velocity::velocities_at(mu, triangle, radius1, radius2, directions, k)
}

fn print_number(rt: &impl Print, x: f64) -> io::Result<()> {
    let x = float64::to_bits(x);
    print!(rt; "{x:016x}")
}

fn print_vector(rt: &impl Print, v: Vector) -> io::Result<()> {
    print_number(rt, v.x)?;
    print!(rt; " ")?;
    print_number(rt, v.y)?;
    print!(rt; " ")?;
    print_number(rt, v.z)
}

// Writes the line of one frame.
fn answer(rt: &impl Print, frame: &[u8; FRAME_SIZE]) -> io::Result<()> {
    let w = velocities_of(frame);
    let v1 = w.v1;
    let v2 = w.v2;
    print_vector(rt, v1)?;
    print!(rt; " ")?;
    print_vector(rt, v2)?;
    println!(rt; "")
}

// The prover requires a bound on the loop. The input has none, so the bound is a count that no input reaches.
fn main(rt: HostRuntime) -> io::Result<()> {
    let mut input = rt.stdin();
    for _ in 0..u64::MAX {
        let Some(frame) = standard_input::next_frame(&mut input)? else {
            break;
        };
        answer(&rt, &frame)?;
    }
    Ok(())
}
