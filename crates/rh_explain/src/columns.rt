//! The columns of a line's parts.

ghost use Rattle.std.specs.Prelude.{◌≤◌, length};
ghost use Rattle.rh_explain.specs.Explain.{IsPartAt};

use rh_text::cut;

/// The columns of the part of this number, from 0, and those of the line's end where there is none.
pub fn columns_of(line: &[u8], index: usize) -> (usize, usize)
    ensures within { (result.0 ≤ result.1) × (result.1 ≤ length line.now) }
    ensures part { IsPartAt line.now index result.0 result.1 }
{
    match cut(line, b' ') {
        Some((part, after)) => {
            if index == 0 {
                return (0, part.len());
            }
            let (begins, ends) = columns_of(after, index - 1);
            let start = part.len() + 1;
            (start + begins, start + ends)
        }
        None => {
            if index == 0 {
                return (0, line.len());
            }
            (line.len(), line.len())
        }
    }
}
