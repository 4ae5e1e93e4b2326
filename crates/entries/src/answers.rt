// The bytes of an answer.
ghost use Rattle.std.specs.Prelude.{◌≡◌, take};
ghost use Rattle.little_endian.specs.Bytes.{written};
ghost use Rattle.records.specs.Records.{answer_bytes};

use crate::cut_count;
use records::{Entry, MOST_ENTRIES};

// Writes the head of an answer and after it the first `count` entries, or all entries if `count` is
// larger than the list. If the buffer has no room for that, it stays unchanged.
pub fn write_answer(
    job: u32,
    revision: u32,
    entries: [Entry; MOST_ENTRIES],
    count: usize,
    out: &mut [u8],
)
    ensures { out.new ≡ written out.old (answer_bytes job revision (take count entries)) }
{
    let few = cut_count(count);
    if out.len() < records::answer_size(few) {
        return;
    }
    records::write_head(out, records::answer_head(job, revision, few));
    for i in 0..few {
        let at = records::answer_size(i);
        records::write_entry(&mut out[at..], entries[i as usize]);
    }
}
