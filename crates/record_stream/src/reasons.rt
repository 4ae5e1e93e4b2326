// Says in words why a record is refused.
ghost use Rattle.std.specs.Prelude.{◌≡◌, ◌≤◌, length, take};
ghost use Rattle.slots.specs.Slots.{padded};
ghost use Rattle.record_stream.specs.Reasons.{reason_of, length_reason, reason_room};

// The size of the longest reason in bytes.
pub const REASON_ROOM: usize = 93;

// Writes the reason for a refusal, B0 to B3 given by its number, to the start of a buffer, with zeros after it, and
// returns the size of the text. Any other number has an empty text. The refusal is a number here and no `PostError`,
// because the contract covers every number.
pub fn reason_of(number: u8, out: &mut [u8; REASON_ROOM]) -> usize
    ensures size { result ≡ length (reason_of number) }
    ensures buffer { out.new ≡ padded reason_room (reason_of number) }
    ensures within { (result ≤ length out.new) × (result ≡ length (take result out.new)) }
    ensures words { take result out.new ≡ reason_of number }
{
    match number {
        0 => put(b"B0: the board is not one", out),
        1 => put(b"B1: it is malformed", out),
        2 => put(b"B2: its job is 0", out),
        3 => put(b"B3: no slot is free for a new job", out),
        _ => put(b"", out),
    }
}

// Writes the reason for refusing a length above that of the longest record, in the same way.
pub fn length_reason(out: &mut [u8; REASON_ROOM]) -> usize
    ensures size { result ≡ length length_reason }
    ensures buffer { out.new ≡ padded reason_room length_reason }
    ensures within { (result ≤ length out.new) × (result ≡ length (take result out.new)) }
    ensures words { take result out.new ≡ length_reason }
{
    put(
        b"B1: no record has its length, so nothing tells where the next starts, and no board is written",
        out,
    )
}

fn put(words: &[u8], out: &mut [u8; REASON_ROOM]) -> usize
    requires { length words.now ≤ reason_room }
    ensures size { result ≡ length words.now }
    ensures buffer { out.new ≡ padded reason_room words.now }
    ensures within { (result ≤ length out.new) × (result ≡ length (take result out.new)) }
    ensures words { take result out.new ≡ words.now }
{
    slots::fill(out, words);
    words.len()
}
