// A board of outcomes in a lent buffer: one slot for each job, by rising job number (02, A1).
#![tactic(auto)]

ghost use Rattle.std.specs.Prelude.{◌≡◌};
ghost use Rattle.board.specs.Board.{error_number, post_of};

mod checks;
mod moves;

use checks::is_board;
use moves::place;
use records::job_of;

// The number of slots of a board.
pub const SLOTS: usize = 64;

// The size of a board in bytes.
pub const BOARD_SIZE: usize = SLOTS * records::ANSWER_ROOM;

// Why a board refuses a record. The refusals have the numbers 0 to 3 of B0 to B3, in this order.
// - `NotABoard` (B0): the bytes of the board are not a board.
// - `Malformed` (B1): the record is malformed.
// - `JobZero` (B2): its job is 0.
// - `NoSlotFree` (B3): no slot is free for a new job.
#[derive(Clone, Copy, Debug, PartialEq, Eq)]
pub enum PostError {
    NotABoard,
    Malformed,
    JobZero,
    NoSlotFree,
}

impl From<PostError> for u8 {
    ghost from_gives = { λ error number. number ≡ error_number error };

    fn from(error: PostError) -> u8 {
        match error {
            PostError::NotABoard => 0,
            PostError::Malformed => 1,
            PostError::JobZero => 2,
            PostError::NoSlotFree => 3,
        }
    }
}

// Posts a record on a board. The result is `Ok` if the record is taken, also if it changes nothing because the board
// already holds it, a newer one, or a conflict at its revision. The refusals are tested in the order of `PostError`. A
// refusal changes nothing.
pub fn post(board: &mut [u8], message: &[u8]) -> Result<(), PostError>
    ensures result { result ≡ (post_of board.old message.now).posted }
    ensures board { board.new ≡ (post_of board.old message.now).board }
{
    let Some(board) = board.as_mut_array::<BOARD_SIZE>() else {
        return Err(PostError::NotABoard);
    };
    if !is_board(board) {
        return Err(PostError::NotABoard);
    }
    if !outcomes::is_outcome(message) {
        return Err(PostError::Malformed);
    }
    if job_of(message) == 0 {
        return Err(PostError::JobZero);
    }
    place(board, message)
}
