// A conflict (kind 4) means that two records for one job and revision differ. Conflicts occur only in the slots of a board.
ghost use Rattle.std.specs.Prelude.{◌≡◌};
ghost use Rattle.little_endian.specs.Bytes.{has_room, written};
ghost use Rattle.records.specs.Records.{conflict_numbers, conflict_bytes};

use crate::{CONFLICT_KIND, CONFLICT_SIZE, LENGTH_SIZE};
use little_endian::put_numbers;

const WIDTHS: [usize; 4] = [4, 2, 4, 4];

// Writes the conflict of a job at a revision and returns true. If there is no room, it changes nothing and returns false.
pub fn write_conflict(out: &mut [u8], job: u32, revision: u32) -> bool
    ensures room { result ≡ has_room out.old (conflict_bytes job revision) }
    ensures bytes { out.new ≡ written out.old (conflict_bytes job revision) }
{
    put_numbers(out, WIDTHS, numbers_of(job, revision))
}

// Returns the values of the fields in the order of the table.
fn numbers_of(job: u32, revision: u32) -> [u64; 4]
    ensures { result ≡ conflict_numbers job revision }
{
    [
        (CONFLICT_SIZE - LENGTH_SIZE) as u64,
        CONFLICT_KIND as u64,
        job as u64,
        revision as u64,
    ]
}
