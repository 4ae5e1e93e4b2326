// Posts records made by the independent program and writes the result of each. The program reads commands from standard
// input. Each command begins with a u16:
// - n up to 1,024: a record of n bytes follows, which is posted on the lent part of a buffer.
// - FFFE: an index (u32) and a byte follow; the byte is stored at that index of the buffer.
// - FFFD: a number n (u32) follows; from now on the first n bytes of the buffer are lent as the board.
// - FFFF: the list of commands ends. The hash of the board is written, and the next list starts with a board of zeros.
// If a read or write fails, the program stops with the error.
#![tactic(auto)]

use board::{BOARD_SIZE, PostError, SLOTS};
use little_endian::u32_at;
use std::io;
use std::io::Read;

// The size of the buffer: a board and one more slot.
const ROOM: usize = BOARD_SIZE + BOARD_SIZE / SLOTS;

// The prime of FNV-1a, 2^40 + 435.
const PRIME: u64 = 0x100_0000_01b3;

// What to do next: continue with the given number of bytes lent as the board, start again with a board of zeros, or
// stop. These are three outcomes of equal standing, so no Option and no Result says them more plainly.
#[derive(Clone, Copy)]
enum Next {
    Lend(usize),
    Clear,
    Stop,
}

fn main(rt: HostRuntime) -> io::Result<()> {
    let mut input = rt.stdin();
    for _ in 0..u64::MAX {
        if !run_list(&rt, &mut input)? {
            break;
        }
    }
    Ok(())
}

// Runs one list of commands, which starts with a board of zeros. Reports whether another list may follow.
fn run_list(rt: &impl Print, input: &mut impl Read) -> io::Result<bool> {
    let mut room = [0u8; ROOM];
    let mut size: usize = BOARD_SIZE;
    for _ in 0..u64::MAX {
        match run_command(rt, input, &mut room, size)? {
            Next::Lend(n) => {
                size = n;
            }
            Next::Clear => {
                return Ok(true);
            }
            Next::Stop => {
                return Ok(false);
            }
        }
    }
    Ok(false)
}

fn run_command(
    rt: &impl Print,
    input: &mut impl Read,
    room: &mut [u8],
    size: usize,
) -> io::Result<Next> {
    let Some(command) = standard_input::next_frame(input)? else {
        return Ok(Next::Stop);
    };
    let n = u16::from_le_bytes(command);
    if n == 0xFFFF {
        print_hash(rt, room, size)?;
        return Ok(Next::Clear);
    }
    if n == 0xFFFE {
        put_byte(input, room)?;
        return Ok(Next::Lend(size));
    }
    if n == 0xFFFD {
        let lent = lent_size(input)?;
        return Ok(Next::Lend(lent));
    }
    post_record(rt, input, room, size, usize::from(n))?;
    Ok(Next::Lend(size))
}

// Reads the number of bytes to lend. A number above the size of the buffer counts as that size.
fn lent_size(input: &mut impl Read) -> io::Result<usize> {
    let mut bytes = [0u8; 4];
    standard_input::fill(input, &mut bytes)?;
    let n = u32_at(&bytes, 0) as usize;
    Ok(n.min(ROOM))
}

fn put_byte(input: &mut impl Read, room: &mut [u8]) -> io::Result<()> {
    let mut bytes = [0u8; 5];
    standard_input::fill(input, &mut bytes)?;
    let at = u32_at(&bytes, 0) as usize;
    if at < room.len() {
        room[at] = bytes[4];
    }
    Ok(())
}

fn post_record(
    rt: &impl Print,
    input: &mut impl Read,
    room: &mut [u8],
    size: usize,
    n: usize,
) -> io::Result<()> {
    let mut bytes = [0u8; 1024];
    read_and_post(rt, input, room, size, &mut bytes, n)
}

fn read_and_post(
    rt: &impl Print,
    input: &mut impl Read,
    room: &mut [u8],
    size: usize,
    bytes: &mut [u8],
    n: usize,
) -> io::Result<()> {
    let cut = n.min(bytes.len());
    standard_input::fill(input, &mut bytes[..cut])?;
    let lent = size.min(room.len());
    print_posted(rt, board::post(&mut room[..lent], &bytes[..cut]))
}

fn print_posted(rt: &impl Print, posted: Result<(), PostError>) -> io::Result<()> {
    match posted {
        Ok(()) => print!(rt; "T"),
        Err(error) => print!(rt; "{}", u8::from(error)),
    }
}

// Prints the FNV-1a hash of the lent bytes.
fn print_hash(rt: &impl Print, room: &[u8], size: usize) -> io::Result<()> {
    let lent = size.min(room.len());
    let hash = hash_of(&room[..lent]);
    println!(rt; " {hash:016x}")
}

fn hash_of(s: &[u8]) -> u64 {
    let mut hash: u64 = 0xcbf2_9ce4_8422_2325;
    for byte in s {
        hash = (hash ^ u64::from(*byte)).wrapping_mul(PRIME);
    }
    hash
}
