// The orbit parameter message of CCSDS 502.0-B in the form of 02, A10: `write` makes one from an entry of an answer, and `read` returns the
// numbers of one. In this crate a message is an orbit message.
#![tactic(auto)]

mod filling;
mod matching;
mod messages;
mod reader;
mod refusals;
mod states;
mod texts;
mod writer;

pub use reader::read;
pub use refusals::Refusal;
pub use states::{DecimalVector, State};
pub use writer::write;
