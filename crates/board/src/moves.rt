// Puts a record into a board. If its job has a slot, that slot is changed. Otherwise the slots of later jobs are moved
// up, and the record gets a new slot.
ghost use Rattle.std.specs.Prelude.{◌≡◌, true, ◌+◌, ◌≤◌, length};
ghost use Rattle.records.specs.Layout.{answer_room};
ghost use Rattle.slots.specs.Slots.{slot_of, content_of};
ghost use Rattle.board.specs.Board.{SLOTS, is_board, joined, placed_on};
ghost use Rattle.board.specs.Internals.{slots_below, route_of, changed, moved_up};

use crate::checks::{filled_slots, slots_from};
use crate::{BOARD_SIZE, PostError, SLOTS};
use records::{ANSWER_ROOM, job_of, revision_of};

// How a record is put into a board.
// - `Joins(from)`: its job has a slot, which starts at byte offset `from`.
// - `Enters(from, end)`: it gets a new slot at byte offset `from`, and the slots from there up to byte offset `end` are
//   moved up by one slot.
// - `NoneFree`: its job has no slot, and no slot is free.
#[derive(Clone, Copy)]
enum Route {
    Joins(usize),
    Enters(usize, usize),
    NoneFree,
}

// Puts a record into a board, or refuses it with B3 if no slot is free for a new job. The caller has checked that the
// record is well formed and that its job is not 0.
pub(crate) fn place(board: &mut [u8; BOARD_SIZE], message: &[u8]) -> Result<(), PostError>
    requires { is_board board.old ≡ true }
    ensures result { result ≡ (placed_on board.old message.now).posted }
    ensures board { board.new ≡ (placed_on board.old message.now).board }
{
    match route_of(board, job_of(message)) {
        Route::Joins(from) => {
            let to = from + ANSWER_ROOM;
            join(&mut board[from..to], message);
            Ok(())
        }
        Route::Enters(from, end) => {
            let to = from + ANSWER_ROOM;
            move_up(board, from, end);
            slots::fill(&mut board[from..to], message);
            Ok(())
        }
        Route::NoneFree => Err(PostError::NoSlotFree),
    }
}

fn route_of(board: &[u8; BOARD_SIZE], job: u32) -> Route
    ensures { result ≡ route_of board.now job }
{
    let filled = filled_slots(board);
    let i = slots_below(board, filled, job);
    let from = i * ANSWER_ROOM;
    if (i < filled) & (job_of(slots_from(board, i)) == job) {
        return Route::Joins(from);
    }
    if filled == SLOTS {
        return Route::NoneFree;
    }
    Route::Enters(from, filled * ANSWER_ROOM)
}

// Returns how many of the first n slots come before the first one whose job is not below the given job. `filled_slots` is
// the same loop with another test. One function that takes the test as a closure would need a contract on what the
// closure computes, which is longer than this loop.
fn slots_below(board: &[u8; BOARD_SIZE], n: usize, job: u32) -> usize
    requires { n ≤ SLOTS }
    ensures most { result ≤ n }
    ensures result { result ≡ slots_below n job board.now }
{
    for i in 0..n {
        if job <= job_of(slots_from(board, i)) {
            return i;
        }
    }
    n
}

// The effect of a record on the slot of its job: none, the record replaces the content, or a conflict replaces it.
#[derive(Clone, Copy)]
enum Change {
    Nothing,
    Replaced,
    Conflict,
}

fn change_of(slot: &[u8], message: &[u8]) -> Change
    requires { slot.now ≡ slot_of (content_of slot.now) }
    ensures { changed result (content_of slot.now) message.now
        ≡ joined (content_of slot.now) message.now }
{
    let held = revision_of(slot);
    let new = revision_of(message);
    if held < new {
        return Change::Replaced;
    }
    if new < held {
        return Change::Nothing;
    }
    let size = slots::content_size(slot);
    if slots::same_bytes(&slot[..size], message) {
        return Change::Nothing;
    }
    Change::Conflict
}

// Puts a record into the slot of its job, as `joined` defines: a newer record replaces the content, an older or equal
// one changes nothing, and a different one of the same revision makes a conflict.
fn join(slot: &mut [u8], message: &[u8])
    requires { slot.old ≡ slot_of (content_of slot.old) }
    ensures { slot.new ≡ slot_of (joined (content_of slot.old) message.now) }
{
    match change_of(slot, message) {
        Change::Nothing => {}
        Change::Replaced => {
            slots::fill(slot, message);
        }
        Change::Conflict => {
            slots::fill_conflict(slot, job_of(message), revision_of(message));
        }
    }
}

// Moves the bytes `from..end` of the board up by one slot, from the last byte to the first. The library's method `copy_within` calls the C
// function `memmove`. This loop does not, so the static library of the board needs no C library.
fn move_up(board: &mut [u8; BOARD_SIZE], from: usize, end: usize)
    requires { (from ≤ end) × (end + answer_room ≤ length board.old) }
    ensures { board.new ≡ moved_up from end board.old }
{
    for i in (from..end).rev() {
        board[i + ANSWER_ROOM] = board[i];
    }
}
