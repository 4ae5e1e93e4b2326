// Reads questions from standard input in slots of 82 bytes and writes the record of each to standard output. The library `slot_records`
// decides what to write for a slot and whether another may follow; this program only moves bytes. If a read or write fails, `lambert`
// prints a message to standard error and stops.
#![tactic(auto)]

ghost use Rattle.std.specs.Prelude.{IfSome};
ghost use Rattle.slot_records.specs.Inputs.{slot_record};
ghost use Rattle.lambert.specs.Following.{Follows, Grows, SlotAnswered, InputAnswered};

use records::{ANSWER_ROOM, QUESTION_ROOM};
use std::io::{Read, Write};
use std::{fmt, io};

// Why the program stops before the end of its input: a read or a write failed.
#[derive(Clone, Copy)]
enum Failure {
    Read(io::Error),
    Write(io::Error),
}

impl fmt::Display for Failure {
    fn fmt<W: fmt::Write>(&self, f: &mut fmt::Formatter<W>) -> fmt::Result {
        match self {
            Failure::Read(error) => write!(f, "standard input cannot be read: {error}"),
            Failure::Write(error) => write!(f, "standard output cannot be written: {error}"),
        }
    }
}

fn main(rt: HostRuntime) {
    let mut input = rt.stdin();
    let mut output = rt.stdout();
    if let Err(failure) = answer_all(&mut input, &mut output) {
        let _ = eprintln!(rt; "lambert: {failure}");
    }
}

// Answers every slot of the input and returns whether another may follow. The prover requires a bound on the loop. The input has none, so
// the bound is a count that no input reaches.
fn answer_all<R: Read, W: Write>(input: &mut R, output: &mut W) -> Result<bool, Failure>
    ensures { IfSome (R.remaining input.old)
        (λ xs. InputAnswered xs (W.contents output.old) (W.contents output.new) result) }
{
    for _ in 0..u64::MAX {
        if !answer_one(input, output)? {
            return Ok(false);
        }
    }
    Ok(true)
}

// Reads one slot, answers it, and returns whether another may follow.
fn answer_one<R: Read, W: Write>(input: &mut R, output: &mut W) -> Result<bool, Failure>
    ensures { IfSome (R.remaining input.old) (λ xs. SlotAnswered xs
        (R.remaining input.new) (W.contents output.old) (W.contents output.new) result) }
{
    let mut slot = [0u8; QUESTION_ROOM];
    let n = standard_input::fill(input, &mut slot).map_err(Failure::Read)?;
    answer(output, &slot[..n])
}

// Writes the output for a slot, of which the bytes `came` were read, and returns whether another slot may follow.
fn answer<W: Write>(output: &mut W, came: &[u8]) -> Result<bool, Failure>
    ensures follows { Follows came.now result }
    ensures output { Grows (W.contents output.old) (W.contents output.new) (slot_record came.now) result }
{
    let mut out = [0u8; ANSWER_ROOM];
    let reply = slot_records::answer_slot(came, &mut out);
    let size = reply.size;
    output.write_all(&out[..size]).map_err(Failure::Write)?;
    Ok(reply.another)
}
