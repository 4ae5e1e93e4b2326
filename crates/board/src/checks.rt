// Decides whether bytes are a board.
ghost use Rattle.std.specs.Prelude.{◌≡◌, ◌*◌, ◌≤◌, drop};
ghost use Rattle.records.specs.Layout.{answer_room};
ghost use Rattle.board.specs.Board.{SLOTS, is_board};
ghost use Rattle.board.specs.Internals.{slots_before_free, filled_rising};

use crate::{BOARD_SIZE, SLOTS};
use records::{ANSWER_ROOM, job_of, length_of};

pub(crate) fn is_board(board: &[u8; BOARD_SIZE]) -> bool
    ensures { result ≡ is_board board.now }
{
    let filled = filled_slots(board);
    are_filled(board, filled) && slots::is_zero(slots_from(board, filled))
}

// Returns how many slots come before the first one whose length field is 0. On a board these are the filled slots.
pub(crate) fn filled_slots(board: &[u8; BOARD_SIZE]) -> usize
    ensures most { result ≤ SLOTS }
    ensures result { result ≡ slots_before_free SLOTS board.now }
{
    for n in 0..SLOTS {
        if length_of(slots_from(board, n)) == 0 {
            return n;
        }
    }
    SLOTS
}

// Returns the bytes of all slots from the one with index i on.
pub(crate) fn slots_from(board: &[u8; BOARD_SIZE], i: usize) -> &[u8]
    requires { i ≤ SLOTS }
    ensures { result.now ≡ drop (i * answer_room) board.now }
{
    &board[i * ANSWER_ROOM..]
}

// Reports whether the first n slots are filled and have rising job numbers above 0.
fn are_filled(board: &[u8; BOARD_SIZE], n: usize) -> bool
    requires { n ≤ SLOTS }
    ensures { result ≡ filled_rising n 0 board.now }
{
    let mut above: u32 = 0;
    for i in 0..n {
        let slot = &slots_from(board, i)[..ANSWER_ROOM];
        let job = job_of(slot);
        if !slots::is_filled(slot) || job <= above {
            return false;
        }
        above = job;
    }
    true
}
