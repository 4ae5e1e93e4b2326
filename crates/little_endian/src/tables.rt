// Numbers stored one after another from the start of a buffer. A table gives their widths
// in bytes, and a number of width 0 takes no bytes.
ghost use Rattle.std.specs.Prelude.{◌≡◌, ◌≤◌, leb, length};
ghost use Rattle.std.proofs.lemmas.List.Edits.{sets};
ghost use Rattle.little_endian.specs.Bytes.{has_room, written};
ghost use Rattle.little_endian.specs.Tables.{total, packed};

use crate::bytes::put_number;

// Stores the lowest bytes of each number, as many as its width, and returns true. If they do not all fit in the
// buffer, `put_numbers` changes nothing and returns false.
pub fn put_numbers<const N: usize>(out: &mut [u8], widths: [usize; N], values: [u64; N]) -> bool
    ensures room { result ≡ has_room out.old (packed widths.entry values.entry) }
    ensures bytes { out.new ≡ written out.old (packed widths.entry values.entry) }
{
    if fits(&widths, out.len()) {
        store(out, &widths, &values);
        return true;
    }
    false
}

// Reports whether numbers of these widths take at most `room` bytes.
fn fits(widths: &[usize], room: usize) -> bool
    ensures { result ≡ leb (total widths.now) room }
{
    let mut left = room;
    for &width in widths {
        if left < width {
            return false;
        }
        left -= width;
    }
    true
}

// Stores the lowest bytes of each number, as many as its width. The buffer has room for them.
fn store(out: &mut [u8], widths: &[usize], values: &[u64])
    requires { total widths.now ≤ length out.old }
    ensures { out.new ≡ sets out.old 0 (packed widths.now values.now) }
{
    let mut at = 0;
    for (&width, &value) in widths.iter().zip(values) {
        put_number(out, at, width, value);
        at += width;
    }
}
