// Why a message is not written or not read (02, A10). Each variant has the number of its case B1 to B10.
ghost use Rattle.std.specs.Prelude.{◌≡◌};
ghost use Rattle.orbit_message.specs.Refusals.{refusal_number};

// Why a message is not written or not read.
#[derive(Clone, Copy, Debug, PartialEq, Eq)]
pub enum Refusal {
    // The record passed as the answer is malformed or a refusal.
    NotAnAnswer = 1,
    // The texts are not eight legal texts.
    IllegalTexts = 5,
    // The answer has no such entry.
    NoSuchEntry = 6,
    // A number of the state is not finite or has a size of 10^7 or more.
    OutOfRange = 7,
    // The buffer is shorter than the message.
    SmallBuffer = 8,
    // The bytes are not a message.
    NotAMessage = 10,
}

impl From<Refusal> for u8 {
    ghost from_gives = { λ r n. n ≡ refusal_number r };

    fn from(r: Refusal) -> u8 {
        r as u8
    }
}
