// Feeds a reader with pieces that the independent program made, and writes the result of each call. Standard input holds commands, each
// of which begins with a u16. A number up to 4,096 is the size of a piece, whose bytes follow. FFFF is the end of a stream: the program
// writes the state and resets the reader.
// For each call the program writes a letter and the number of bytes taken: Q is a question, and its bytes follow; N is nothing yet; R is
// a refused length; B means that the reader needs a reset. For the state it writes K, the number of bytes kept, these bytes, and ! if the
// reader needs a reset.
// If a read or write fails, the program stops with the error.
#![tactic(auto)]

ghost use Rattle.std.specs.Prelude.{◌≡◌, ◌≤◌, length};
ghost use Rattle.records.specs.Layout.{question_room};
ghost use Rattle.link_reader.specs.Reading.{size_given};

use link_reader::{Reader, Refusal, Step};
use little_endian::word_at;
use records::QUESTION_ROOM;
use std::io;
use std::io::Read;

// The size of the longest piece.
const LONGEST: usize = 4096;

fn main(rt: HostRuntime) -> io::Result<()> {
    let mut input = rt.stdin();
    let mut bytes = [0u8; LONGEST];
    let mut reader = Reader::new();
    for _ in 0..u64::MAX {
        let Some(command) = standard_input::next_frame(&mut input)? else {
            break;
        };
        reader = run_command(
            &rt,
            &mut input,
            reader,
            &mut bytes,
            u16::from_le_bytes(command),
        )?;
    }
    Ok(())
}

// Runs a command, whose first two bytes hold the number n, and returns the reader after it.
fn run_command(
    rt: &impl Print,
    input: &mut impl Read,
    reader: Reader,
    bytes: &mut [u8],
    n: u16,
) -> io::Result<Reader> {
    if n == 0xFFFF {
        print_state(rt, reader)?;
        return Ok(reader.reset());
    }
    read_and_feed(rt, input, reader, bytes, usize::from(n))
}

fn read_and_feed(
    rt: &impl Print,
    input: &mut impl Read,
    reader: Reader,
    bytes: &mut [u8],
    n: usize,
) -> io::Result<Reader> {
    let size = n.min(bytes.len());
    standard_input::fill(input, &mut bytes[..size])?;
    feed(rt, reader, &bytes[..size])
}

// Passes in a piece, and passes in again the bytes that a call did not take, until none are left or a reset is needed. Each call takes at
// least one byte while some are left, so one call more than the piece has bytes is enough. The program `link` has a loop like this one, but
// it writes records and stops at a failure.
fn feed(rt: &impl Print, reader: Reader, piece: &[u8]) -> io::Result<Reader> {
    let mut now = reader;
    let mut rest = piece;
    for _ in 0..=piece.len() {
        let step = now.read(rest);
        rest = &rest[step.taken..];
        now = step.next;
        let more = print_step(rt, step)?;
        if !more || rest.is_empty() {
            break;
        }
    }
    Ok(now)
}

// Writes the result of a call, and returns whether to pass in the rest of the piece.
fn print_step(rt: &impl Print, step: Step) -> io::Result<bool>
    requires { size_given step.came ≤ question_room }
{
    let question = step.question;
    let taken = step.taken;
    let came = step.came;
    match came {
        Ok(Some(size)) => {
            print_taken(rt, "Q", taken)?;
            print!(rt; "=")?;
            print_first(rt, &question, size)?;
            Ok(true)
        }
        Ok(None) => print_taken(rt, "N", taken),
        Err(Refusal::BadLength) => print_taken(rt, "R", taken),
        Err(Refusal::NeedsReset) => {
            print_taken(rt, "B", taken)?;
            Ok(false)
        }
    }
}

fn print_taken(rt: &impl Print, letter: &str, taken: usize) -> io::Result<bool> {
    print!(rt; "{letter}{taken}")?;
    Ok(true)
}

fn print_state(rt: &impl Print, reader: Reader) -> io::Result<()> {
    let bytes = reader.bytes;
    let count = reader.count.min(QUESTION_ROOM);
    print_taken(rt, " K", reader.count)?;
    print!(rt; "=")?;
    print_first(rt, &bytes, count)?;
    if reader.refused {
        print!(rt; "!")?;
    }
    println!(rt; "")
}

// Writes the first n bytes as hexadecimal numbers of eight bytes each. Missing bytes of the last number count as zeros.
fn print_first(rt: &impl Print, s: &[u8], n: usize) -> io::Result<()>
    requires { n ≤ length s.now }
{
    print_words(rt, &s[..n])
}

fn print_words(rt: &impl Print, s: &[u8]) -> io::Result<()> {
    for part in s.chunks(8) {
        let word = word_at(part, 0);
        print!(rt; "{word:016x}")?;
    }
    Ok(())
}
