// Decides the result of a call from the kept bytes and the piece, if no reset is needed.
ghost use Rattle.std.specs.Prelude.{◌≡◌, ◌++◌, get_or};
ghost use Rattle.records.specs.Layout.{LENGTH, value_of};
ghost use Rattle.link_reader.specs.Reading.{is_question_length, judged};

use crate::{Came, Refusal};
use records::{LENGTH_SIZE, QUESTION_LENGTH};

// Decides the result for the kept bytes followed by the piece.
#[tactic(auto, using(crate::proofs::Verdicts::judged_steps))]
pub(crate) fn judge(kept: &[u8], piece: &[u8]) -> Came
    ensures { result ≡ judged (kept.now ++ piece.now) }
{
    let held = kept.len() + piece.len();
    if held < LENGTH_SIZE {
        return Ok(None);
    }
    let length = held_length(kept, piece);
    if !is_question_length(length) {
        return Err(Refusal::BadLength);
    }
    // As in Rust, no usize is made from a u32 by From.
    let size = length as usize + LENGTH_SIZE;
    if held < size {
        Ok(None)
    } else {
        Ok(Some(size))
    }
}

#[tactic(auto, using(crate::proofs::Lengths::is_question_length_lem))]
fn is_question_length(length: u32) -> bool
    ensures { result ≡ is_question_length length }
{
    length == QUESTION_LENGTH
}

// Returns the length at the start of the kept bytes followed by the piece.
#[tactic(auto, unfolding(little_endian::specs::Bytes::number_at))]
fn held_length(kept: &[u8], piece: &[u8]) -> u32
    ensures { result ≡ value_of LENGTH (kept.now ++ piece.now) }
{
    u32::from_le_bytes([
        byte_of(kept, piece, 0),
        byte_of(kept, piece, 1),
        byte_of(kept, piece, 2),
        byte_of(kept, piece, 3),
    ])
}

// Returns byte i of the kept bytes followed by the piece, or 0 past the end.
fn byte_of(kept: &[u8], piece: &[u8], i: usize) -> u8
    ensures { result ≡ get_or (kept.now ++ piece.now) i 0 }
{
    if i < kept.len() {
        return kept[i];
    }
    piece.get(i - kept.len()).copied().unwrap_or(0)
}
