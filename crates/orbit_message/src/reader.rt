// Reads a message.
ghost use Rattle.std.specs.Prelude.{◌≡◌};
ghost use Rattle.orbit_message.specs.Reading.{read_of};

use crate::matching::find_values;
use crate::messages::TEMPLATE;
use crate::refusals::Refusal;
use crate::states::{State, vector_at};
use crate::texts::are_legal;

// Returns the six numbers of a message, or the refusal `NotAMessage` if the bytes are not exactly of the form that `write` writes: the
// fifteen lines, with eight legal texts and the texts of six well-formed decimals.
pub fn read(s: &[u8]) -> Result<State, Refusal>
    ensures { result ≡ read_of s.now }
{
    let template = TEMPLATE;
    let found = find_values(&template, s).ok_or(Refusal::NotAMessage)?;
    if !are_legal(s, found) {
        return Err(Refusal::NotAMessage);
    }
    let position = vector_at(s, found, 8).ok_or(Refusal::NotAMessage)?;
    let velocity = vector_at(s, found, 11).ok_or(Refusal::NotAMessage)?;
    Ok(State { position, velocity })
}
