// Reads records from standard input, one after another, posts each on a board that starts as all zeros, and writes the
// board to standard output. If a record is refused, `post` prints the reason to standard error and goes on. If a read
// fails, or a length is above that of the longest record, `post` prints a message to standard error and stops without
// writing a board. If a write fails, it prints a message to standard error too.
#![tactic(auto)]

ghost use Rattle.std.specs.Prelude.{◌≡◌, ◌≤◌, take, IfSome};
ghost use Rattle.records.specs.Layout.{LENGTH};
ghost use Rattle.record_stream.specs.Streams.{longest_rest, start_of};
ghost use Rattle.post.specs.Posting.{AfterRest, AfterHead, AfterNext, Postings};
ghost use Rattle.post.specs.Posting.{RestRead, HeadRead, RecordRead, InputRead, BoardWritten};

use board::{BOARD_SIZE, PostError};
use record_stream::{REASON_ROOM, Start};
use records::{ANSWER_ROOM, LENGTH_SIZE};
use std::io;
use std::io::{Read, Write};

// Why no board is written: a read or a write failed, or the length of the record at the given byte offset is above that
// of the longest record. The rest of the input is not read.
#[derive(Clone, Copy)]
enum Failure {
    Read(io::Error),
    Write(io::Error),
    Length(u64),
}

// Records come from standard input, the board goes to standard output, and messages go to standard error.
fn main(rt: HostRuntime) {
    let mut input = rt.stdin();
    let mut output = rt.stdout();
    let errors = rt.stderr();
    if let Err(failure) = post_input(&errors, &mut input, &mut output) {
        tell_failure(&errors, failure);
    }
}

// Posts the records of the input on a board that starts as all zeros, writes the board, and reports whether the input was
// read to its end.
fn post_input<R: Read, W: Write>(
    errors: &impl Print,
    input: &mut R,
    output: &mut W,
) -> Result<bool, Failure>
    ensures { IfSome (R.remaining input.old)
        (λ xs. BoardWritten xs (W.contents output.old) (W.contents output.new) result) }
{
    let mut board = [0u8; BOARD_SIZE];
    if !post_all(errors, input, &mut board)? {
        return Ok(false);
    }
    output.write_all(&board).map_err(Failure::Write)?;
    Ok(true)
}

// Posts every record and reports whether the input was read to its end. The prover requires a bound on the loop. The
// input has none, so the bound is a count that no input reaches.
fn post_all<R: Read>(errors: &impl Print, input: &mut R, board: &mut [u8]) -> Result<bool, Failure>
    ensures postings { Postings board.old board.new }
    ensures input { IfSome (R.remaining input.old) (λ xs. InputRead xs board.old board.new result) }
{
    let mut bytes = [0u8; ANSWER_ROOM];
    let mut place: u64 = 0;
    for _ in 0..u64::MAX {
        match post_next(errors, input, board, &mut bytes, place)? {
            Some(next) => place = next,
            None => return Ok(true),
        }
    }
    Ok(false)
}

// Posts the record at byte offset `place` of the input, and returns the offset of the next one, or None at the end of the
// input. Reads the record into `bytes`: first its length field, then the rest. What is lent is passed one by one,
// because the contract speaks of the input and of the board before and after.
fn post_next<R: Read>(
    errors: &impl Print,
    input: &mut R,
    board: &mut [u8],
    bytes: &mut [u8; ANSWER_ROOM],
    place: u64,
) -> Result<Option<u64>, Failure>
    ensures board { AfterNext place board.old bytes.new board.new result }
    ensures input { IfSome (R.remaining input.old)
        (λ xs. RecordRead xs (R.remaining input.new) board.old board.new result) }
{
    let n = standard_input::fill(input, &mut bytes[..LENGTH_SIZE]).map_err(Failure::Read)?;
    post_after(errors, input, board, bytes, n, place)
}

// Posts the record whose first n bytes are in the buffer. These are as many as a length field has, or fewer at the end
// of the input. Posts nothing if n is 0 or if the length is above that of the longest record.
fn post_after<R: Read>(
    errors: &impl Print,
    input: &mut R,
    board: &mut [u8],
    bytes: &mut [u8; ANSWER_ROOM],
    n: usize,
    place: u64,
) -> Result<Option<u64>, Failure>
    requires head { n ≤ LENGTH.width }
    ensures kept { take n bytes.new ≡ take n bytes.old }
    ensures board { AfterHead n place board.old bytes.new board.new result }
    ensures input { IfSome (R.remaining input.old) (λ xs. let head = take n bytes.old in
        HeadRead (start_of head) head xs (R.remaining input.new) board.old board.new result) }
{
    match record_stream::start_of(&bytes[..n]) {
        Start::End => Ok(None),
        Start::Record(rest) => post_rest(errors, input, board, bytes, n, rest, place),
        Start::NoRecord => Err(Failure::Length(place)),
    }
}

// Reads the rest of a record, of which n bytes are in the buffer, and posts it. If the input ends within the record,
// the record is malformed.
fn post_rest<R: Read>(
    errors: &impl Print,
    input: &mut R,
    board: &mut [u8],
    bytes: &mut [u8; ANSWER_ROOM],
    n: usize,
    rest: usize,
    place: u64,
) -> Result<Option<u64>, Failure>
    requires head { n ≤ LENGTH.width }
    requires rest { rest ≤ longest_rest }
    ensures kept { take n bytes.new ≡ take n bytes.old }
    ensures board { AfterRest n rest place board.old bytes.new board.new result }
    ensures input { IfSome (R.remaining input.old) (λ xs.
        RestRead (take n bytes.old) xs rest (R.remaining input.new) board.old board.new result) }
{
    let end = n + rest;
    let more = standard_input::fill(input, &mut bytes[n..end]).map_err(Failure::Read)?;
    let size = n + more;
    tell(errors, board::post(board, &bytes[..size]), place);
    Ok(Some(place.wrapping_add(size as u64)))
}

fn tell_failure(errors: &impl Print, failure: Failure) {
    match failure {
        Failure::Read(error) => {
            let _ = println!(errors; "post: standard input cannot be read: {error}");
        }
        Failure::Write(error) => {
            let _ = println!(errors; "post: standard output cannot be written: {error}");
        }
        Failure::Length(place) => tell_length(errors, place),
    }
}

fn tell(errors: &impl Print, posted: Result<(), PostError>, place: u64) {
    if let Err(error) = posted {
        tell_refusal(errors, u8::from(error), place);
    }
}

fn tell_refusal(errors: &impl Print, number: u8, place: u64) {
    let mut words = [0u8; REASON_ROOM];
    let size = record_stream::reason_of(number, &mut words);
    say(errors, place, &words[..size]);
}

fn tell_length(errors: &impl Print, place: u64) {
    let mut words = [0u8; REASON_ROOM];
    let size = record_stream::length_reason(&mut words);
    say(errors, place, &words[..size]);
}

// Prints that the record at byte offset `place` was refused, and why.
fn say(errors: &impl Print, place: u64, why: &[u8]) {
    let _ = print!(errors; "post: the record at byte {place} is refused, ");
    let _ = errors.write_all(why);
    let _ = println!(errors; "");
}
