// Why a place is void (02, A4).
ghost use Rattle.std.specs.Prelude.{◌≡◌};
ghost use Rattle.hypergeometric.specs.Reasons.{reason_number};

// The reason why a place has no time. If several apply, the first one met in the steps counts.
#[derive(Clone, Copy, Debug, PartialEq, Eq)]
pub enum Reason {
    // L, k or the number of whole revolutions is outside its range (step 1).
    OutsideRange,
    // The operand of a square root is refused.
    RefusedRoot,
    // A divisor is zero.
    ZeroDivisor,
    // The result is not finite.
    NotFinite,
}

impl From<Reason> for u16 {
    ghost from_gives = { λ reason n. n ≡ reason_number reason };

    // Returns the number of a reason.
    #[tactic(auto, unfolding(crate::specs::Reasons::reason_number))]
    fn from(reason: Reason) -> u16 {
        match reason {
            Reason::OutsideRange => 1,
            Reason::RefusedRoot => 2,
            Reason::ZeroDivisor => 3,
            Reason::NotFinite => 4,
        }
    }
}
