// Reads operands, each a line of 16 hexadecimal digits, and writes the bits of each square root in the same form. The expected output is
// that of the independent program for the same operands. If a read or write fails, the program stops with the error.
#![tactic(auto)]

ghost use Rattle.std.specs.Prelude.{◌<◌};

use std::io;

// The size of a line: 16 digits and the line's end.
const LINE_SIZE: usize = 17;

// Returns the value of a hexadecimal digit, in upper or lower case.
fn digit(c: u8) -> u64
    ensures { result < 16 }
{
    u64::from((c % 16 + 9 * (c / 64)) % 16)
}

fn operand(line: &[u8; LINE_SIZE]) -> u64 {
    let mut value = 0u64;
    for c in &line[..16] {
        value = value % 0x1000_0000_0000_0000 * 16 + digit(*c);
    }
    value
}

// Writes the root of the operand in one line.
fn answer(rt: &impl Print, line: &[u8; LINE_SIZE]) -> io::Result<()> {
    let root = c_root::lambert_root_bits(operand(line));
    println!(rt; "{root:016x}")
}

// The prover requires a bound on the loop. The input has none, so the bound is a count that no input reaches.
fn main(rt: HostRuntime) -> io::Result<()> {
    let mut input = rt.stdin();
    for _ in 0..u64::MAX {
        let Some(line) = standard_input::next_frame(&mut input)? else {
            break;
        };
        answer(&rt, &line)?;
    }
    Ok(())
}
