//! Lines of a text, and their parts, by number.

ghost use Rattle.std.specs.Prelude.{◌≡◌, ◌≤◌, length};
ghost use Rattle.rh_explained.specs.Line.{line_at};

use rh_explain::columns_of;
use rh_text::{first_line, read_number};

/// The line of this number, from 1, without its line end, and whether it has one. Where the text
/// has no such line it is empty, and has none.
pub fn nth_line(text: &[u8], number: u32) -> (&[u8], bool)
    ensures { line_at number text.now ≡ record { bytes = result.0.now; ended = result.1 } }
{
    let ahead = number.saturating_sub(1);
    let mut rest = text;
    for _ in 0..ahead {
        if rest.is_empty() {
            return (b"", false);
        }
        let (_, _, after) = first_line(rest);
        rest = after;
    }
    if rest.is_empty() {
        return (b"", false);
    }
    let (line, ended, _) = first_line(rest);
    (line, ended)
}

/// How many line ends a text has, up to 4,294,967,295.
pub fn count_lines(text: &[u8]) -> u32 {
    let mut lines = 0;
    for byte in text {
        if *byte == b'\n' {
            lines = u32::saturating_add(lines, 1);
        }
    }
    lines
}

/// The columns of the part of this number, from 0, and those of the line's end where there is none.
pub fn columns(line: &[u8], index: usize) -> (usize, usize)
    ensures { (result.0 ≤ result.1) × (result.1 ≤ length line.now) }
{
    columns_of(line, index)
}

/// The part of this number, from 0; it is empty where there is none.
pub fn part_at(line: &[u8], index: usize) -> &[u8] {
    let (begins, ends) = columns_of(line, index);
    &line[begins..ends]
}

/// The number that a part says, and 0 where it says none.
pub fn number_at(line: &[u8], index: usize) -> u32 {
    match read_number(part_at(line, index)) {
        Some(number) => number,
        None => 0,
    }
}

/// How many parts a line has, up to so many.
pub fn count_parts(line: &[u8], most: usize) -> usize {
    let mut count = 0;
    let mut rest = Some(line);
    for index in 0..most {
        let Some((_, after)) = rh_text::next_part(rest) else {
            return index;
        };
        rest = after;
        count = index + 1;
    }
    count
}
