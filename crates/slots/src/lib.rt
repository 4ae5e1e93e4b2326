// One slot of a board: tests what it holds, and fills it (02, A1).
#![tactic(auto)]

ghost use Rattle.std.specs.Prelude.{◌≡◌, min, length};
ghost use Rattle.records.specs.Layout.{size_of};
ghost use Rattle.records.specs.Records.{conflict_bytes};
ghost use Rattle.slots.specs.Slots.{padded, is_conflict, is_held, is_filled};

mod bytes;

pub use bytes::{is_zero, same_bytes};
use records::{CONFLICT_KIND, CONFLICT_SIZE, kind_of, size_of, write_conflict};

// Reports whether a slot holds a well-formed outcome or a conflict, with only zeros after it.
pub fn is_filled(slot: &[u8]) -> bool
    ensures { result ≡ is_filled slot.now }
{
    let size = content_size(slot);
    is_held(&slot[..size]) && is_zero(&slot[size..])
}

// Returns the size of a slot's content, as its length field gives it, but at most the size of the slot.
pub fn content_size(slot: &[u8]) -> usize
    ensures { result ≡ min (size_of slot.now) (length slot.now) }
{
    size_of(slot).min(slot.len())
}

fn is_held(s: &[u8]) -> bool
    ensures { result ≡ is_held s.now }
{
    outcomes::is_outcome(s) | is_conflict(s)
}

fn is_conflict(s: &[u8]) -> bool
    ensures { result ≡ is_conflict s.now }
{
    (kind_of(s) == CONFLICT_KIND) & outcomes::is_sized(s, CONFLICT_SIZE)
}

// Fills a slot with the given bytes and with zeros after them. Bytes beyond the end of the slot are left out. The library's methods
// `copy_from_slice` and `fill` call the C functions `memmove` and `memset`. This loop calls neither, so the static library of the board
// needs no C library.
pub fn fill(slot: &mut [u8], bytes: &[u8])
    ensures { slot.new ≡ padded (length slot.old) bytes.now }
{
    for i in 0..slot.len() {
        slot[i] = bytes.get(i).copied().unwrap_or(0);
    }
}

// Fills a slot, as `fill` does, with the conflict of the given job at the given revision.
pub fn fill_conflict(slot: &mut [u8], job: u32, revision: u32)
    ensures { slot.new ≡ padded (length slot.old) (conflict_bytes job revision) }
{
    let mut conflict = [0u8; CONFLICT_SIZE];
    write_conflict(&mut conflict, job, revision);
    fill(slot, &conflict);
}
