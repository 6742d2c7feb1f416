//! The place of a fault, and the block that shows it.

ghost use Rattle.std.specs.Prelude.{◌≡◌, ◌≤◌, length};
ghost use Rattle.rh_explained.specs.Spot.{IsInLine};

use crate::lines::columns;
use crate::told::Told;
use rh_explain::{Part, write_rows};
use std::io::{self, Write};

/// A line of a text, and the columns at which it fails.
#[derive(Clone, Copy)]
pub struct Spot<'a> {
    /// The line's number, from 1.
    pub number: u32,
    /// The line without its line end; it is empty where the text has no such line.
    pub line: &'a [u8],
    /// The column at which the faulty part begins, in bytes from 0.
    pub begins: usize,
    /// The column after its last byte. It is `begins` where something is missing.
    pub ends: usize,
    /// What is wrong there.
    pub told: Told,
}

/// The spot at a part of a line, by its number from 0, or at the line's end where there is none.
pub fn at_part<'a>(number: u32, line: &'a [u8], index: usize, told: Told) -> Spot<'a>
    ensures { IsInLine number line.now result }
{
    let (begins, ends) = columns(line, index);
    Spot {
        number,
        line,
        begins,
        ends,
        told,
    }
}

/// The spot of a whole line.
pub fn at_line<'a>(number: u32, line: &'a [u8], told: Told) -> Spot<'a>
    ensures { IsInLine number line.now result }
{
    Spot {
        number,
        line,
        begins: 0,
        ends: line.len(),
        told,
    }
}

/// The spot of a part that was found in a line, of which these are its columns.
pub fn at_found<'a>(number: u32, line: &'a [u8], part: Part, told: Told) -> Spot<'a>
    requires { (part.begins ≤ part.ends) × (part.ends ≤ length line.now) }
    ensures line { IsInLine number line.now result }
    ensures part { (result.begins ≡ part.begins) × (result.ends ≡ part.ends)
        × (result.told ≡ told) }
{
    Spot {
        number,
        line,
        begins: part.begins,
        ends: part.ends,
        told,
    }
}

/// Writes the block of a spot: its line, with its number, carets under its columns, and a sentence
/// that says what is wrong there, each as a line.
///
/// # Errors
///
/// An error of the writer, or `Other` where it took not all.
pub fn write_spot<W: Write>(out: &mut W, spot: &Spot<'_>) -> io::Result<()>
    requires { (spot.now.begins ≤ spot.now.ends) × (spot.now.ends ≤ length spot.now.line.now) }
{
    match write_rows(out, spot.number, spot.line, spot.begins, spot.ends) {
        Ok(()) => {
            let told = spot.told;
            writeln!(out, "{told}")
        }
        Err(_) => Err(io::Error::from(io::ErrorKind::Other)),
    }
}
