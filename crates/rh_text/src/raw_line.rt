//! A text cut into raw lines.

ghost use Rattle.std.specs.Prelude.{◌≡◌, ◌∷◌, ◌<◌, length};
ghost use Rattle.rh_text.specs.RawLine.{lines_of};

use crate::parts::cut;

/// The first raw line of a text that has a byte, whether it has a line end, and the bytes after it.
pub fn first_line(bytes: &[u8]) -> (&[u8], bool, &[u8])
    requires { 0 < length bytes.now }
    ensures lines { lines_of bytes.now
        ≡ record { bytes = result.0.now; ended = result.1 } ∷ lines_of result.2.now }
    ensures shorter { length result.2.now < length bytes.now }
{
    match cut(bytes, b'\n') {
        Some((line, rest)) => (line, true, rest),
        None => (bytes, false, b""),
    }
}
