// An f64 stored in 8 bytes, and a vector of three f64s.
ghost use Rattle.std.specs.Prelude.{◌≡◌, ◌+◌, ◌<◌};
ghost use Rattle.float64.specs.Notation.{bits};
ghost use Rattle.little_endian.specs.Bytes.{number_at};
ghost use Rattle.records.specs.Layout.{field};
ghost use Rattle.records.specs.Records.{vector_of};

use float64::{Vector, from_bits};
use little_endian::word_at;

// Returns the f64 stored from the offset `at` on.
pub(crate) fn float_at(s: &[u8], at: usize) -> f64
    ensures { result ≡ bits (number_at 8 s.now at) }
{
    from_bits(word_at(s, at))
}

// Returns the vector stored from the offset `at` on.
pub(crate) fn vector_at(s: &[u8], at: usize) -> Vector
    requires { at < 1024 }
    ensures { result ≡ vector_of (field at 8) (field (at + 8) 8) (field (at + 16) 8) s.now }
{
    Vector {
        x: float_at(s, at),
        y: float_at(s, at + 8),
        z: float_at(s, at + 16),
    }
}
