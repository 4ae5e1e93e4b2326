// Recognizes outcomes: decides whether bytes are a well-formed answer or refusal, or malformed (02, A1 and A4).
#![tactic(auto)]

ghost use Rattle.std.specs.Prelude.{◌≡◌};
ghost use Rattle.outcomes.specs.Outcomes.{is_sized, is_refusal, all_name_an_end, is_answer, is_outcome};

use records::{
    ANSWER_KIND, FIRST_NUMBER, LAST_NUMBER, MOST_ENTRIES, REFUSAL_KIND, answer_size, chosen_at,
    kind_of, number_of, refusal_size, size_of,
};

// Reports whether the bytes are a well-formed outcome: an answer or a refusal that is not malformed.
pub fn is_outcome(s: &[u8]) -> bool
    ensures { result ≡ is_outcome s.now }
{
    is_refusal(s) | is_answer(s)
}

fn is_refusal(s: &[u8]) -> bool
    ensures { result ≡ is_refusal s.now }
{
    let number = number_of(s);
    let in_force = (FIRST_NUMBER <= number) & (number <= LAST_NUMBER);
    (kind_of(s) == REFUSAL_KIND) & is_sized(s, refusal_size(number)) & in_force
}

fn is_answer(s: &[u8]) -> bool
    ensures { result ≡ is_answer s.now }
{
    let n = number_of(s);
    if n < 1 || MOST_ENTRIES < n as usize {
        return false;
    }
    (kind_of(s) == ANSWER_KIND) & is_sized(s, answer_size(n)) & name_ends(s, n)
}

// Reports whether there are exactly n bytes and the length field at their start gives the same size.
pub fn is_sized(s: &[u8], n: usize) -> bool
    ensures { result ≡ is_sized s.now n }
{
    (s.len() == n) & (size_of(s) == n)
}

// Reports whether the chosen end of each of the first n entries is 0 (the lower end) or 1 (the upper end).
fn name_ends(s: &[u8], n: u16) -> bool
    ensures { result ≡ all_name_an_end n s.now }
{
    (0..n).all(|i| chosen_at(s, i) <= 1)
}
