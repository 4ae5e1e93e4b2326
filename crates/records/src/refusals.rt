// A refusal (kind 3). With number 12 it also names the first void station and the reason.
ghost use Rattle.std.specs.Prelude.{◌≡◌};
ghost use Rattle.little_endian.specs.Bytes.{has_room, written};
ghost use Rattle.records.specs.Layout.{refusal_size};
ghost use Rattle.records.specs.Records.{refusal_of, refusal_with, refusal_numbers, refusal_bytes, refusal_head_of};

use crate::heads::write_head;
use crate::{HEAD_SIZE, Head, LENGTH_SIZE, REFUSAL_KIND, Refusal, VOID_NUMBER, VOID_REFUSAL_SIZE};
use little_endian::{put_numbers, signed32_bits, signed32_of, u16_at, u32_at};

// The widths of the fields of a refusal with number 12. Any other refusal is a head alone.
const VOID_WIDTHS: [usize; 7] = [4, 2, 4, 4, 2, 4, 2];

// Returns the size of a refusal with the given number.
pub fn refusal_size(number: u16) -> usize
    ensures { result ≡ refusal_size number }
{
    if number == VOID_NUMBER {
        VOID_REFUSAL_SIZE
    } else {
        HEAD_SIZE
    }
}

// Returns the refusal with 0 as station and reason.
pub fn refusal_with(job: u32, revision: u32, number: u16) -> Refusal
    ensures { result ≡ refusal_with job revision number }
{
    Refusal {
        job,
        revision,
        number,
        station: 0,
        reason: 0,
    }
}

// Returns the refusal at the start of the bytes. A byte past the end counts as 0. The crate `outcomes` tests whether the bytes are a
// well-formed refusal; this function does not.
pub fn read_refusal(s: &[u8]) -> Refusal
    ensures { result ≡ refusal_of s.now }
{
    let job = u32_at(s, 6);
    let revision = u32_at(s, 10);
    let number = u16_at(s, 14);
    if number == VOID_NUMBER {
        let station = signed32_of(u32_at(s, 16));
        let reason = u16_at(s, 20);
        return Refusal {
            job,
            revision,
            number,
            station,
            reason,
        };
    }
    refusal_with(job, revision, number)
}

// Writes a refusal to the start of the buffer and returns true. If there is no room, it changes nothing and returns false.
pub fn write_refusal(out: &mut [u8], r: Refusal) -> bool
    ensures room { result ≡ has_room out.old (refusal_bytes r) }
    ensures bytes { out.new ≡ written out.old (refusal_bytes r) }
{
    if r.number == VOID_NUMBER {
        put_numbers(out, VOID_WIDTHS, numbers_of(r))
    } else {
        write_head(out, head_of(r))
    }
}

// Returns the head with which the bytes of a refusal begin.
fn head_of(r: Refusal) -> Head
    ensures { result ≡ refusal_head_of r }
{
    Head {
        length: (refusal_size(r.number) - LENGTH_SIZE) as u32,
        kind: REFUSAL_KIND,
        job: r.job,
        revision: r.revision,
        number: r.number,
    }
}

// Returns the values of the fields of a refusal with number 12, in the order of the table.
fn numbers_of(r: Refusal) -> [u64; 7]
    ensures { result ≡ refusal_numbers r }
{
    let head = head_of(r);
    [
        head.length as u64,
        head.kind as u64,
        head.job as u64,
        head.revision as u64,
        head.number as u64,
        signed32_bits(r.station) as u64,
        r.reason as u64,
    ]
}
