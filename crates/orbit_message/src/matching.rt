// Finds the values in bytes that follow a template. A template is bytes in which each 0 stands for a value. An LF follows
// each 0, so a value ends at the next LF.
ghost use Rattle.std.specs.Prelude.{◌≡◌, List, ◌∷◌, ℕ, ◌≤◌, ◌<◌, length, drop, None, MatchOption};
ghost use Rattle.orbit_message.specs.Templates.{placeholders_in, after_line, values_in};
ghost use Rattle.orbit_message.specs.Matches.{matched_value, progress, Inside, Advance, IsMatch};

// The offsets at which a value starts and ends.
#[derive(Clone, Copy)]
pub(crate) struct Span {
    pub start: usize,
    pub end: usize,
}

// How far bytes follow a template: the offset reached, and the first `count` spans, which are the values found.
#[derive(Clone, Copy)]
pub(crate) struct Match {
    pub at: usize,
    pub count: usize,
    pub spans: [Span; 14],
}

impl Match {
    // Returns the bytes of the value k.
    pub(crate) fn value<'a>(&self, s: &'a [u8], k: usize) -> &'a [u8]
        requires { Inside s.now self.now × (k < self.now.count) × (k < 14) }
        ensures { result.now ≡ matched_value s.now self.now k }
    {
        let span = self.spans[k];
        &s[span.start..span.end]
    }
}

// Returns the offset of the first LF from `from` on, or the length if there is none.
fn line_end(s: &[u8], from: usize) -> usize
    requires { from ≤ length s.now }
    ensures { (from ≤ result) × (result ≤ length s.now) × (drop result s.now ≡ after_line (drop from s.now)) }
{
    match s[from..].iter().position(|&b| b == b'\n') {
        Some(k) => from + k,
        None => s.len(),
    }
}

// Returns the match after one more byte of the template, or `None` if the bytes do not follow it.
fn advance(s: &[u8], byte: u8, old: Match) -> Option<Match>
    requires { (old.at ≤ length s.now) × (byte ≡ 0 → old.count < 14) }
    ensures { MatchOption result ((t : List ℕ) → progress (byte ∷ t) s.now old ≡ None) (Advance s.now byte old) }
{
    if byte == 0 {
        let end = line_end(s, old.at);
        let mut spans = old.spans;
        spans[old.count] = Span { start: old.at, end };
        return Some(Match {
            at: end,
            count: old.count + 1,
            spans,
        });
    }
    if old.at < s.len() && s[old.at] == byte {
        Some(Match {
            at: old.at + 1,
            ..old
        })
    } else {
        None
    }
}

// Finds the values in bytes that follow a template of at most fourteen placeholders. Returns `None` if the bytes do not follow it.
pub(crate) fn find_values(template: &[u8], s: &[u8]) -> Option<Match>
    requires { placeholders_in template.now ≤ 14 }
    ensures { MatchOption result (values_in template.now s.now ≡ None) (IsMatch template.now s.now) }
{
    let mut done = Match {
        at: 0,
        count: 0,
        spans: [Span { start: 0, end: 0 }; 14],
    };
    for &byte in template {
        done = advance(s, byte, done)?;
    }
    if done.at == s.len() { Some(done) } else { None }
}
