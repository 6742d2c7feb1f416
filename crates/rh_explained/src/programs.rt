//! Where a program of the small Scheme fails.

ghost use Rattle.std.specs.Prelude.{◌≡◌, ◌≤◌, ◌-◌, min, length};
ghost use Rattle.rh_explained.specs.Line.{line_at};
ghost use Rattle.rh_explained.specs.Spot.{IsInLine};

use crate::lines::nth_line;
use crate::spot::Spot;
use crate::told::Told;

/// The spot of the form that begins at a line and a column of a program, both from 1, as far as it
/// stands on that line.
pub fn form_spot<'a>(text: &'a [u8], number: u32, column: u32, told: Told) -> Spot<'a>
    ensures line { IsInLine number (line_at number text.now).bytes result }
    ensures begins { result.begins ≡ min (column - 1) (length result.line.now) }
{
    let (line, _) = nth_line(text, number);
    let begins = before_form(line, column);
    Spot {
        number,
        line,
        begins,
        ends: begins + form_length(&line[begins..]),
        told,
    }
}

/// How many bytes of a line stand before a column, from 1: all where it has fewer.
fn before_form(line: &[u8], column: u32) -> usize
    ensures { result ≡ min (column - 1) (length line.now) }
{
    let before = column.saturating_sub(1) as usize;
    if before < line.len() {
        before
    } else {
        line.len()
    }
}

/// How many of these bytes the form has with which they begin. Where it doesn't end among them,
/// all that stand before a comment are its own.
fn form_length(bytes: &[u8]) -> usize
    ensures { result ≤ length bytes.now }
{
    let mut depth = 0u32;
    let mut is_atom = false;
    let mut is_string = false;
    let mut is_after_escape = false;
    for (index, byte) in bytes.iter().enumerate() {
        let is_plain = is_after_escape;
        is_after_escape = *byte == b'\\' && !is_plain;
        match *byte {
            _ if is_plain => {}
            b'"' if is_string && depth == 0 => return index + 1,
            b'"' | b'(' | b'\'' | b'`' | b',' if is_atom && !is_string => return index,
            b'"' => is_string = !is_string,
            _ if is_string => {}
            b'(' => depth = depth.saturating_add(1),
            b')' if depth > 1 => depth -= 1,
            b')' if depth == 1 || index == 0 => return index + 1,
            b')' | b';' => return index,
            b' ' | b'\t' | b'\r' if depth == 0 => return index,
            // What stands before a form is no atom.
            b'\'' | b'`' | b',' | b'@' | b'#' => {}
            _ => is_atom = depth == 0,
        }
    }
    bytes.len()
}
