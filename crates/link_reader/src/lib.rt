// Reads questions that arrive over a link in pieces of any size (02, A2). Each call takes a piece and returns the next state, how many
// bytes it took, and its result. The caller passes in again the bytes that the call did not take.
#![tactic(auto)]

ghost use Rattle.std.specs.Prelude.{◌≡◌, ◌+◌, ◌≤◌, ◌++◌, length, Some, None, Ok};
ghost use Rattle.little_endian.specs.Bytes.{written};
ghost use Rattle.records.specs.Layout.{question_room};
ghost use Rattle.link_reader.specs.Reading.{kept_of, as_new, came_of, read_of, step_by, refusal_of, refusal_for};

mod judging;

use judging::judge;
use records::QUESTION_ROOM;

// The state of a reader: the bytes received of an unfinished question, their count, and whether a length was refused since the last
// reset. The bytes stand in a fixed buffer with a count beside it, because there is no heap. `refused` is a flag beside them, and not an
// enum without bytes, because `read` promises to leave a refused reader as it was, whatever bytes its fields hold.
#[derive(Clone, Copy)]
pub struct Reader {
    pub bytes: [u8; QUESTION_ROOM],
    pub count: usize,
    pub refused: bool,
}

// Why a call is refused: a length is not in force, or the reader needs a reset. The definition `refusal_of` gives their numbers.
#[derive(Clone, Copy, Debug, PartialEq, Eq)]
pub enum Refusal {
    BadLength,
    NeedsReset,
}

// The result of a call: the size of a finished question, `None` if no question is finished yet, or a refusal.
pub type Came = Result<Option<usize>, Refusal>;

// What a call returns: the next state, how many bytes of the piece it took, its result, and a buffer. The buffer begins with the bytes of
// a finished question; it is all zeros if no question is finished. It stands beside the result, because `read` promises its bytes for
// every result.
#[derive(Clone, Copy)]
pub struct Step {
    pub next: Reader,
    pub taken: usize,
    pub came: Came,
    pub question: [u8; QUESTION_ROOM],
}

impl Reader {
    // Returns a reader in its initial state, which keeps no bytes.
    pub fn new() -> Self
        ensures { result ≡ as_new }
    {
        Self {
            bytes: [0; QUESTION_ROOM],
            count: 0,
            refused: false,
        }
    }

    // Returns a reader in its initial state, whatever this one kept or refused.
    pub fn reset(self) -> Self
        ensures { result ≡ as_new }
    {
        Self::new()
    }

    // Reads a piece of any number of bytes. The contract `step` gives the whole step, and `refusal` says which refusal it has, if any.
    #[tactic(auto, using(crate::proofs::Refusals::refusal_is), unfolding(crate::specs::Reading::read_of, crate::specs::Reading::step_by))]
    pub fn read(self, piece: &[u8]) -> Step
        ensures step { result ≡ read_of self piece.now }
        ensures refusal { refusal_of result.came ≡ refusal_for self piece.now }
    {
        match self.came_of(piece) {
            Ok(Some(size)) => self.finished(piece, size),
            Ok(None) => self.unfinished(piece),
            Err(Refusal::BadLength) => Step {
                next: Reader {
                    bytes: [0; QUESTION_ROOM],
                    count: 0,
                    refused: true,
                },
                taken: piece.len(),
                came: Err(Refusal::BadLength),
                question: [0; QUESTION_ROOM],
            },
            Err(Refusal::NeedsReset) => Step {
                next: self,
                taken: 0,
                came: Err(Refusal::NeedsReset),
                question: [0; QUESTION_ROOM],
            },
        }
    }

    // Decides the result for a piece.
    #[tactic(auto, unfolding(crate::specs::Reading::came_of))]
    fn came_of(&self, piece: &[u8]) -> Came
        ensures { result ≡ came_of self.now piece.now }
    {
        if self.refused {
            return Err(Refusal::NeedsReset);
        }
        judge(self.kept(), piece)
    }

    // Returns the bytes that the reader keeps.
    fn kept(&self) -> &[u8]
        ensures { result.now ≡ kept_of self.now }
    {
        let n = self.count.min(QUESTION_ROOM);
        &self.bytes[..n]
    }

    // Returns the step for a piece that finishes a question of the given size. The step takes the piece up to the question's last byte,
    // and the next state is the initial one.
    #[tactic(auto, using(crate::proofs::Writing::question_written), unfolding(crate::specs::Reading::step_by))]
    fn finished(&self, piece: &[u8], size: usize) -> Step
        requires fits { size ≤ question_room }
        requires arrived { size ≤ length (kept_of self.now) + length piece.now }
        ensures { result ≡ step_by (Ok (Some size)) self.now piece.now }
    {
        let taken = size.saturating_sub(self.kept().len());
        Step {
            next: Self::new(),
            taken,
            came: Ok(Some(size)),
            question: self.bytes_with(&piece[..taken]),
        }
    }

    // Returns the step for a piece that finishes no question. The step takes the whole piece and keeps it.
    #[tactic(auto, unfolding(crate::specs::Reading::step_by))]
    fn unfinished(&self, piece: &[u8]) -> Step
        requires { length (kept_of self.now) + length piece.now ≤ question_room }
        ensures { result ≡ step_by (Ok None) self.now piece.now }
    {
        Step {
            next: Reader {
                bytes: self.bytes_with(piece),
                count: self.kept().len() + piece.len(),
                refused: false,
            },
            taken: piece.len(),
            came: Ok(None),
            question: [0; QUESTION_ROOM],
        }
    }

    // Returns the buffer with the given bytes written after the kept ones.
    #[tactic(auto, using(crate::proofs::Writing::put_after))]
    fn bytes_with(&self, more: &[u8]) -> [u8; QUESTION_ROOM]
        requires { length (kept_of self.now) + length more.now ≤ question_room }
        ensures { result ≡ written self.now.bytes (kept_of self.now ++ more.now) }
    {
        let at = self.kept().len();
        let mut bytes = self.bytes;
        bytes[at..at + more.len()].copy_from_slice(more);
        bytes
    }
}
