// The template of a message, and the message of eight texts and a state.
ghost use Rattle.std.specs.Prelude.{true, ◌≡◌, List, [], ◌∷◌, ◌++◌, map, ℕ, ◌+◌, ◌≤◌, ◌<◌, length};
ghost use Rattle.decimal.specs.Texts.{text_of};
ghost use Rattle.orbit_message.specs.Templates.{filled};
ghost use Rattle.orbit_message.specs.Texts.{texts_in, are_texts};
ghost use Rattle.orbit_message.specs.Messages.{template, message_of};
ghost use Rattle.orbit_message.specs.Fillings.{filled_bytes};
ghost use Rattle.orbit_message.specs.States.{vector_numbers, state_numbers, lines_of, Lined};

use crate::filling::{Filling, fill};
use crate::matching::find_values;
use crate::states::{DecimalVector, State};
use decimal::Decimal;

// The template of a message: the fifteen keys in their order, with a 0 for each value.
pub(crate) const TEMPLATE: [u8; 188] = *b"CCSDS_OPM_VERS = 2.0\n\
    CREATION_DATE = \0\n\
    ORIGINATOR = \0\n\
    OBJECT_NAME = \0\n\
    OBJECT_ID = \0\n\
    CENTER_NAME = \0\n\
    REF_FRAME = \0\n\
    TIME_SYSTEM = \0\n\
    EPOCH = \0\n\
    X = \0\n\
    Y = \0\n\
    Z = \0\n\
    X_DOT = \0\n\
    Y_DOT = \0\n\
    Z_DOT = \0\n";

// The template of fourteen lines, one for each value of a message.
const FOURTEEN_LINES: [u8; 28] = *b"\0\n\0\n\0\n\0\n\0\n\0\n\0\n\0\n\0\n\0\n\0\n\0\n\0\n\0\n";

impl Filling {
    // Appends the text of a decimal and an LF.
    fn append_number(&mut self, d: Decimal)
        requires { (self.old.length ≤ 1000) × (self.old.count < 14) }
        ensures { (filled_bytes self.new ≡ filled_bytes self.old ++ (text_of d ++ (10 ∷ [])))
            × (self.new.length ≤ self.old.length + 19) × (self.new.count ≡ self.old.count + 1) }
    {
        let text = decimal::text_of(d);
        self.append(&text.bytes[..text.length]);
        self.push(b'\n');
    }

    // Appends a line for each component.
    fn append_vector(&mut self, v: DecimalVector)
        requires { (self.old.length ≤ 900) × (self.old.count < 12) }
        ensures { (filled_bytes self.new ≡ filled_bytes self.old ++ lines_of (map text_of (vector_numbers v)))
            × (self.new.length ≤ self.old.length + 57) × (self.new.count ≡ self.old.count + 3) }
    {
        self.append_number(v.x);
        self.append_number(v.y);
        self.append_number(v.z);
    }
}

// Returns the fourteen values of a message, a line for each: the lines of the texts, and a line for each number.
fn value_lines(texts: &[u8], state: State) -> Filling
    requires { length texts.now ≤ 800 }
    ensures { (filled_bytes result ≡ texts.now ++ lines_of (map text_of (state_numbers state)))
        × (result.length ≤ length texts.now + 114) }
{
    let mut lines = Filling::new();
    lines.append(texts);
    lines.append_vector(state.position);
    lines.append_vector(state.velocity);
    lines
}

// Returns the message whose fourteen values are the lines of s.
fn fill_message(s: &[u8]) -> Filling
    requires { (vs : List (List ℕ)) × Lined s.now vs }
    ensures bytes { (vs : List (List ℕ)) → Lined s.now vs → filled_bytes result ≡ filled template vs }
    ensures size { result.length ≤ 1100 }
{
    let lines = FOURTEEN_LINES;
    let template = TEMPLATE;
    match find_values(&lines, s) {
        Some(values) => fill(&template, s, values),
        // `s` is fourteen lines, so it follows their template.
        None => unreachable!(),
    }
}

// Returns the message of eight legal texts and a state.
pub(crate) fn message_of(texts: &[u8], state: State) -> Filling
    requires { are_texts (texts_in texts.now) ≡ true }
    ensures bytes { filled_bytes result ≡ message_of (texts_in texts.now) (state_numbers state) }
    ensures size { result.length ≤ 1100 }
{
    let values = value_lines(texts, state);
    let bytes = values.bytes;
    let size = values.length;
    fill_message(&bytes[..size])
}
