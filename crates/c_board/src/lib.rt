// The C interface to the board, for callers in other languages. A slice is a pointer and a length. The memory of a
// board and that of a record must not overlap.
#![tactic(auto)]

ghost use Rattle.std.specs.Prelude.{◌≡◌};
ghost use Rattle.board.specs.Board.{posted_number, post_of};

use board::post;

// Posts a record as `post` does. C has no `Result`, so the function returns the number of the refusal, 0 to 3, or 255 if the record was
// taken.
#[unsafe(no_mangle)]
pub extern "C" fn lambert_post(board: &mut [u8], message: &[u8]) -> u8
    ensures result { result ≡ posted_number (post_of board.old message.now).posted }
    ensures board { board.new ≡ (post_of board.old message.now).board }
{
    match post(board, message) {
        Ok(()) => 255,
        Err(error) => u8::from(error),
    }
}
