// Reads an input so that the caller can tell the end of the input from a failed read.
#![tactic(auto)]

ghost use Rattle.std.specs.Prelude.{◌≡◌, IfOk, IfSome, false};
ghost use Rattle.std.specs.Io.{ReadsAtMost};
ghost use Rattle.std.specs.Io.KnownBytes.{ReadConsumes};
ghost use Rattle.standard_input.specs.Reading.{Taken, FrameTaken};

use std::io;
use std::io::{ErrorKind, Read};

// Reads once, and again if a signal interrupted the read before a byte arrived. The prover requires a bound on the loop, so the bound is
// a count that no run of signals reaches.
fn read_some<R: Read>(input: &mut R, part: &mut [u8]) -> io::Result<usize>
    ensures within { ReadsAtMost result part.new }
    ensures bytes { ReadConsumes (R.remaining input.old) (R.remaining input.new) result part.new }
{
    for _ in 0..u64::MAX {
        let answer = input.read(part);
        if !is_interrupted(&answer) {
            return answer;
        }
    }
    input.read(part)
}

fn is_interrupted(answer: &io::Result<usize>) -> bool
    ensures { IfOk answer.now (λ n. result ≡ false) }
{
    match answer {
        Ok(_) => false,
        Err(error) => error.kind() == ErrorKind::Interrupted,
    }
}

// Reads until the buffer is full, the input ends or a read fails. Returns how many bytes were read to the start of the buffer. A count
// below the size of the buffer means that the input has ended.
pub fn fill<R: Read>(input: &mut R, buffer: &mut [u8]) -> io::Result<usize>
    ensures within { ReadsAtMost result buffer.new }
    ensures bytes { Taken (R.remaining input.old) (R.remaining input.new) buffer.new result }
{
    // Each read decides where the next begins, so no range counts the rounds of this loop.
    let mut done: usize = 0;
    while done < buffer.len() {
        let more = read_some(input, &mut buffer[done..])?;
        if more == 0 {
            return Ok(done);
        }
        done += more;
    }
    Ok(done)
}

// Reads the next frame of N bytes. Returns None at the end of the input, and also if this end cuts the frame short.
// The loop over the frames stays in each program: a closure whose parameter is an array of a const size is outside of the prover.
pub fn next_frame<const N: usize, R: Read>(input: &mut R) -> io::Result<Option<[u8; N]>>
    ensures { IfSome (R.remaining input.old) (λ xs. FrameTaken N xs (R.remaining input.new) result) }
{
    let mut frame = [0u8; N];
    if fill(input, &mut frame)? < N {
        return Ok(None);
    }
    Ok(Some(frame))
}
