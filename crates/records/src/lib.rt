// Reading and writing the records of 01 and 02, and the conflict of a board's slot (02, A1). Reading accepts any bytes, and
// a byte past the end counts as 0. Writing starts at the first byte of the buffer. If the buffer is too short, a
// write changes nothing and returns false.
//
// Each record has a function that writes it, and its own table of widths. One function over a trait is no shorter: each of these has
// little more than a call of `put_numbers`, and the trait would need members for the table, the numbers and the bytes of the contract.
#![tactic(auto)]

ghost use Rattle.std.specs.Prelude.{◌≡◌};
ghost use Rattle.records.specs.Constants.{layout_constants};

mod answer_entries;
mod conflicts;
mod fields;
mod floats;
mod heads;
mod questions;
mod refusals;

pub use answer_entries::{read_entry, write_entry};
pub use conflicts::write_conflict;
pub use fields::{chosen_at, job_of, kind_of, length_of, number_of, revision_of, size_of};
use float64::Vector;
pub use heads::{answer_head, answer_size, read_head, write_head};
pub use questions::{read_question, write_question};
pub use refusals::{read_refusal, refusal_size, refusal_with, write_refusal};

// The kinds of records. A conflict occurs only in the slots of a board. A kind stays a number, and the field `kind` a u16: it is
// two bytes of the record, reading takes any bytes, and the contracts of the crates above allow every number in them.
pub const QUESTION_KIND: u16 = 1;

pub const ANSWER_KIND: u16 = 2;

pub const REFUSAL_KIND: u16 = 3;

pub const CONFLICT_KIND: u16 = 4;

// The size of the length field, with which a record begins. The length counts the bytes after this field.
pub const LENGTH_SIZE: usize = 4;

// The size of a question, its length, and the size of the longest question.
pub const QUESTION_SIZE: usize = 82;

pub const QUESTION_LENGTH: u32 = (QUESTION_SIZE - LENGTH_SIZE) as u32;

pub const QUESTION_ROOM: usize = QUESTION_SIZE;

// The sizes of an answer's head, of a refusal with number 12 and of an entry, the greatest
// number of entries, and the sizes of the longest answer and of a conflict. Every other
// refusal has the size of a head.
pub const HEAD_SIZE: usize = 16;

pub const VOID_REFUSAL_SIZE: usize = 22;

pub const ENTRY_SIZE: usize = 64;

pub const MOST_ENTRIES: usize = 8;

pub const ANSWER_ROOM: usize = HEAD_SIZE + ENTRY_SIZE * MOST_ENTRIES;

pub const CONFLICT_SIZE: usize = 14;

// The first and the last refusal number in force.
pub const FIRST_NUMBER: u16 = 1;

pub const LAST_NUMBER: u16 = 14;

// The number of the refusal "no crossing, at least one station void".
pub const VOID_NUMBER: u16 = 12;

// A question (kind 1). `way` is 0 for the short way and 1 for the long way. The positions
// r1 and r2 are in km, `mu` in km^3/s^2 and `time` in s.
#[derive(Clone, Copy)]
pub struct Question {
    pub length: u32,
    pub kind: u16,
    pub job: u32,
    pub revision: u32,
    pub revolutions: u16,
    pub way: u8,
    pub spare: u8,
    pub r1: Vector,
    pub r2: Vector,
    pub mu: f64,
    pub time: f64,
}

// The head of a refusal (kind 3) or of an answer (kind 2). `number` is the number of the
// refusal, or the number of entries of the answer.
#[derive(Clone, Copy)]
pub struct Head {
    pub length: u32,
    pub kind: u16,
    pub job: u32,
    pub revision: u32,
    pub number: u16,
}

// A refusal (kind 3). `station` is j of the first void station and `reason` says why it is void. Only a refusal with
// number 12 has both on the wire. For any other number reading gives 0 for both, and writing leaves both out.
#[derive(Clone, Copy)]
pub struct Refusal {
    pub job: u32,
    pub revision: u32,
    pub number: u16,
    pub station: i32,
    pub reason: u16,
}

// An entry of an answer: the lower end of the bracket, the number of halvings, the chosen end (0 is the lower end, 1
// the upper end), and the velocities there in km/s.
#[derive(Clone, Copy)]
pub struct Entry {
    pub lower: i64,
    pub halvings: u32,
    pub chosen: u32,
    pub v1: Vector,
    pub v2: Vector,
}

// The values of the public constants.
#[derive(Clone, Copy)]
struct Constants {
    question_kind: u16,
    answer_kind: u16,
    refusal_kind: u16,
    conflict_kind: u16,
    length_size: usize,
    question_size: usize,
    question_length: u32,
    question_room: usize,
    head_size: usize,
    void_refusal_size: usize,
    entry_size: usize,
    most_entries: usize,
    answer_room: usize,
    conflict_size: usize,
    first_number: u16,
    void_number: u16,
    last_number: u16,
}

// Returns the public constants. No code calls this function. It exists for its contract, which says that the
// constants are those of the layout.
fn public_constants() -> Constants
    ensures { result ≡ layout_constants }
{
    Constants {
        question_kind: QUESTION_KIND,
        answer_kind: ANSWER_KIND,
        refusal_kind: REFUSAL_KIND,
        conflict_kind: CONFLICT_KIND,
        length_size: LENGTH_SIZE,
        question_size: QUESTION_SIZE,
        question_length: QUESTION_LENGTH,
        question_room: QUESTION_ROOM,
        head_size: HEAD_SIZE,
        void_refusal_size: VOID_REFUSAL_SIZE,
        entry_size: ENTRY_SIZE,
        most_entries: MOST_ENTRIES,
        answer_room: ANSWER_ROOM,
        conflict_size: CONFLICT_SIZE,
        first_number: FIRST_NUMBER,
        void_number: VOID_NUMBER,
        last_number: LAST_NUMBER,
    }
}
