// Reads the pieces of a link from standard input, each a u16 size followed by that many bytes, and writes the record of each finished
// question to standard output. A question length that is not in force gets number 1, and nothing is read after it. A question that the
// end of the input cuts short gets number 1 too. If a read or write fails, `link` prints a message to standard error and stops.
#![tactic(auto)]

ghost use Rattle.std.specs.Prelude.{◌≡◌, ◌≤◌, length, OnOk};
ghost use Rattle.records.specs.Layout.{question_room};
ghost use Rattle.link_reader.specs.Reading.{size_given};
ghost use Rattle.link.specs.Pieces.{reader_after};

use link_reader::{Reader, Refusal, Step};
use little_endian::u16_at;
use records::{ANSWER_ROOM, QUESTION_ROOM};
use std::io;
use std::io::{Read, Write};

// The size of the longest piece.
const LONGEST: usize = 65535;

// Reading stopped before the end of the input: a read or a write failed, a length is not in force, or the reader needs a reset. What is
// to be said of it is on standard error already.
#[derive(Clone, Copy, Debug, PartialEq, Eq)]
struct Stopped;

fn main(rt: HostRuntime) {
    let mut input = rt.stdin();
    let mut output = rt.stdout();
    let mut reader = Reader::new();
    if read_pieces(&rt, &mut input, &mut output, &mut reader) == Ok(false) {
        answer_kept(&rt, &mut output, reader);
    }
}

// Reads and feeds every piece, and returns whether another may follow. The prover requires a bound on the loop. The input has none, so
// the bound is a count that no input reaches.
fn read_pieces(
    rt: &impl Eprint,
    input: &mut impl Read,
    output: &mut impl Write,
    reader: &mut Reader,
) -> Result<bool, Stopped> {
    let mut bytes = [0u8; LONGEST];
    for _ in 0..u64::MAX {
        if !read_piece(rt, input, output, reader, &mut bytes)? {
            return Ok(false);
        }
    }
    Ok(true)
}

// Reads and feeds the next piece, and returns whether another may follow. The handles are passed one by one: a struct of
// the three would need a type parameter for each.
fn read_piece(
    rt: &impl Eprint,
    input: &mut impl Read,
    output: &mut impl Write,
    reader: &mut Reader,
    bytes: &mut [u8; LONGEST],
) -> Result<bool, Stopped> {
    match read_size(rt, input) {
        Ok(Some(size)) => read_bytes(rt, input, output, reader, bytes, usize::from(size)),
        Ok(None) => Ok(false),
        Err(error) => Err(cannot_read(rt, error)),
    }
}

// Reads the size of the next piece, or None at the end of the input. A message says so if the input ends within the size.
fn read_size(rt: &impl Eprint, input: &mut impl Read) -> io::Result<Option<u16>> {
    let mut head = [0u8; 2];
    let n = standard_input::fill(input, &mut head)?;
    if n == head.len() {
        return Ok(Some(u16_at(&head, 0)));
    }
    if 0 < n {
        say_cut(rt);
    }
    Ok(None)
}

// Reads the bytes of a piece, feeds them to the reader, and returns whether another piece may follow. If the end of the input cuts the
// piece short, the bytes before it are fed, and a message says so.
fn read_bytes(
    rt: &impl Eprint,
    input: &mut impl Read,
    output: &mut impl Write,
    reader: &mut Reader,
    bytes: &mut [u8],
    size: usize,
) -> Result<bool, Stopped>
    requires { size ≤ length bytes.old }
{
    match standard_input::fill(input, &mut bytes[..size]) {
        Ok(n) => {
            let fed = feed(rt, output, reader, &bytes[..n]);
            if n < size {
                say_cut(rt);
            }
            fed?;
            Ok(n == size)
        }
        Err(error) => Err(cannot_read(rt, error)),
    }
}

fn say_cut(rt: &impl Eprint) {
    let _ = eprintln!(rt; "link: the input ends within a piece");
}

fn cannot_read(rt: &impl Eprint, error: io::Error) -> Stopped {
    let _ = eprintln!(rt; "link: standard input cannot be read: {error}");
    Stopped
}

// Passes in a piece, and passes in again the bytes that a call did not take. Each call takes at least one byte while some are left and no
// reset is needed, so one call more than the piece has bytes is enough. Unless reading stops, the reader is then the one after the whole
// piece. The program `test_link` has a loop like this one, but it writes what each call gives.
fn feed(
    rt: &impl Eprint,
    output: &mut impl Write,
    reader: &mut Reader,
    piece: &[u8],
) -> Result<(), Stopped>
    ensures { OnOk result (reader.new ≡ reader_after reader.old piece.now) }
{
    let mut rest = piece;
    for _ in 0..=piece.len() {
        let step = reader.read(rest);
        *reader = step.next;
        rest = &rest[step.taken..];
        if !answer_step(rt, output, step) {
            return Err(Stopped);
        }
        if rest.is_empty() {
            return Ok(());
        }
    }
    Ok(())
}

// Writes the record for the result of a call, if it needs one, and returns whether to go on.
fn answer_step(rt: &impl Eprint, output: &mut impl Write, step: Step) -> bool
    requires { size_given step.came ≤ question_room }
{
    let question = step.question;
    let came = step.came;
    match came {
        Ok(Some(size)) => answer_first(rt, output, &question, size),
        Ok(None) => true,
        Err(Refusal::BadLength) => {
            let _ = eprintln!(rt;
                "link: a length that no question has: nothing after it is read until a reset"
            );
            answer(rt, output, b"");
            false
        }
        Err(Refusal::NeedsReset) => false,
    }
}

// Writes the record of a question that the end of the input cut short, from its kept bytes.
fn answer_kept(rt: &impl Eprint, output: &mut impl Write, reader: Reader) {
    let bytes = reader.bytes;
    let count = reader.count;
    if 0 < count && count <= QUESTION_ROOM {
        answer_first(rt, output, &bytes, count);
    }
}

// Writes the record of the question in the first n bytes, and returns whether it could be written.
fn answer_first(rt: &impl Eprint, output: &mut impl Write, bytes: &[u8], n: usize) -> bool
    requires { n ≤ length bytes.now }
{
    answer(rt, output, &bytes[..n])
}

// Writes the record of a question, and returns whether it could be written.
fn answer(rt: &impl Eprint, output: &mut impl Write, question: &[u8]) -> bool {
    let mut out = [0u8; ANSWER_ROOM];
    let n = slot_records::record_of(question, &mut out);
    match output.write_all(&out[..n]) {
        Ok(()) => true,
        Err(error) => {
            let _ = eprintln!(rt; "link: standard output cannot be written: {error}");
            false
        }
    }
}
