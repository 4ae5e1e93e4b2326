// Reads records from standard input, one after another by their lengths, reads each into its struct and writes it from the struct to
// standard output: a question, an answer with its entries, or a refusal of either size. It leaves out a record of any other kind. The
// program stops at the end of the input, at a record that this end cuts short, and at a length above that of the longest answer. If a read
// or write fails, it stops with the error.
#![tactic(auto)]

ghost use Rattle.std.specs.Prelude.{◌≤◌};
ghost use Rattle.records.specs.Layout.{LENGTH, answer_room};

use records::{
    ANSWER_KIND, ANSWER_ROOM, ENTRY_SIZE, HEAD_SIZE, LENGTH_SIZE, QUESTION_KIND, QUESTION_SIZE,
    REFUSAL_KIND, VOID_REFUSAL_SIZE,
};
use std::io;
use std::io::Read;

// The prover requires a bound on the loop. The input has none, so the bound is a count that no input reaches.
fn main(rt: HostRuntime) -> io::Result<()> {
    let mut input = rt.stdin();
    let mut bytes = [0u8; ANSWER_ROOM];
    for _ in 0..u64::MAX {
        if !copy_record(&rt, &mut input, &mut bytes)? {
            break;
        }
    }
    Ok(())
}

// Reads a record into the buffer, first its length and then the rest, and writes it out. Returns whether another record may follow.
fn copy_record(
    rt: &impl Print,
    input: &mut impl Read,
    bytes: &mut [u8; ANSWER_ROOM],
) -> io::Result<bool> {
    let came = standard_input::fill(input, &mut bytes[..LENGTH_SIZE])?;
    if came < LENGTH_SIZE {
        return Ok(false);
    }
    let size = records::size_of(bytes);
    if size > ANSWER_ROOM {
        return Ok(false);
    }
    copy_rest(rt, input, bytes, size)
}

// Does the same for a record whose length is in the buffer already.
fn copy_rest(
    rt: &impl Print,
    input: &mut impl Read,
    bytes: &mut [u8; ANSWER_ROOM],
    size: usize,
) -> io::Result<bool>
    requires above { LENGTH.width ≤ size }
    requires below { size ≤ answer_room }
{
    let came = standard_input::fill(input, &mut bytes[LENGTH_SIZE..size])?;
    if came < size - LENGTH_SIZE {
        return Ok(false);
    }
    write_record(rt, &bytes[..size])?;
    Ok(true)
}

fn write_record(rt: &impl Print, bytes: &[u8]) -> io::Result<()> {
    match records::kind_of(bytes) {
        QUESTION_KIND => write_question(rt, bytes),
        ANSWER_KIND => write_answer(rt, bytes),
        REFUSAL_KIND => write_refusal(rt, bytes),
        _ => Ok(()),
    }
}

fn write_question(rt: &impl Print, bytes: &[u8]) -> io::Result<()> {
    let mut out = [0u8; QUESTION_SIZE];
    records::write_question(&mut out, records::read_question(bytes));
    rt.write_all(&out)
}

// Writes the head, and each entry that the head counts and the record contains.
fn write_answer(rt: &impl Print, bytes: &[u8]) -> io::Result<()> {
    let head = records::read_head(bytes);
    let mut out = [0u8; HEAD_SIZE];
    records::write_head(&mut out, head);
    rt.write_all(&out)?;
    for i in 0..head.number {
        if bytes.len() < records::answer_size(i + 1) {
            break;
        }
        write_entry(rt, &bytes[records::answer_size(i)..])?;
    }
    Ok(())
}

fn write_entry(rt: &impl Print, bytes: &[u8]) -> io::Result<()> {
    let mut out = [0u8; ENTRY_SIZE];
    records::write_entry(&mut out, records::read_entry(bytes));
    rt.write_all(&out)
}

fn write_refusal(rt: &impl Print, bytes: &[u8]) -> io::Result<()> {
    let refusal = records::read_refusal(bytes);
    let mut out = [0u8; VOID_REFUSAL_SIZE];
    records::write_refusal(&mut out, refusal);
    rt.write_all(&out[..records::refusal_size(refusal.number)])
}
