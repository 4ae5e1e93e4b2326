// Fills a template with values.
ghost use Rattle.std.specs.Prelude.{◌≡◌, [], ◌∷◌, ◌++◌, ◌+◌, ◌*◌, ◌≤◌, ◌<◌, length};
ghost use Rattle.orbit_message.specs.Templates.{filled, placeholders_in};
ghost use Rattle.orbit_message.specs.Matches.{matched_values};
ghost use Rattle.orbit_message.specs.Fillings.{Fits, filled_bytes, FillStep};

use crate::matching::Match;

// The first `length` of the bytes are written so far. `count` is how often `append` was called; in `fill` that is the number of values
// written. 1100 bytes are enough: the template of a message has 188 bytes, and each of its fourteen values at most 60. The project uses no
// heap, so the bytes are in an array.
#[derive(Clone, Copy)]
pub(crate) struct Filling {
    pub bytes: [u8; 1100],
    pub length: usize,
    pub count: usize,
}

impl Filling {
    // Returns a filling with no bytes.
    pub(crate) fn new() -> Filling
        ensures { (filled_bytes result ≡ []) × (result.length ≡ 0) × (result.count ≡ 0) }
    {
        Filling {
            bytes: [0; 1100],
            length: 0,
            count: 0,
        }
    }

    // Appends the bytes of s, and adds 1 to `count`.
    pub(crate) fn append(&mut self, s: &[u8])
        requires { (self.old.length + length s.now ≤ 1100) × (self.old.count < 14) }
        ensures { (filled_bytes self.new ≡ filled_bytes self.old ++ s.now)
            × (self.new.length ≡ self.old.length + length s.now) × (self.new.count ≡ self.old.count + 1) }
    {
        let end = self.length + s.len();
        self.bytes[self.length..end].copy_from_slice(s);
        self.length = end;
        self.count += 1;
    }

    // Appends one byte.
    pub(crate) fn push(&mut self, byte: u8)
        requires { self.old.length < 1100 }
        ensures { (filled_bytes self.new ≡ filled_bytes self.old ++ (byte ∷ []))
            × (self.new.length ≡ self.old.length + 1) × (self.new.count ≡ self.old.count) }
    {
        self.bytes[self.length] = byte;
        self.length += 1;
    }

    // Appends what stands for one byte of the template: the next value for a 0, and the byte itself otherwise.
    fn fill_step(&mut self, byte: u8, s: &[u8], values: Match)
        requires { Fits s.now values × (self.old.count + placeholders_in (byte ∷ []) ≤ values.count)
            × (self.old.length + 1 + 60 * placeholders_in (byte ∷ []) ≤ 1100) }
        ensures { FillStep s.now values byte self.old self.new }
    {
        if byte == 0 {
            self.append(values.value(s, self.count));
        } else {
            self.push(byte);
        }
    }
}

// Fills the template with the values of a match, each of at most 60 bytes.
pub(crate) fn fill(template: &[u8], s: &[u8], values: Match) -> Filling
    requires { Fits s.now values × (values.count ≡ placeholders_in template.now)
        × (length template.now + 60 * placeholders_in template.now ≤ 1100) }
    ensures { (filled_bytes result ≡ filled template.now (matched_values s.now values)) × (result.length ≤ 1100) }
{
    let mut done = Filling::new();
    for &byte in template {
        done.fill_step(byte, s, values);
    }
    done
}
