//! The message with a line and carets under its faulty part.

ghost use Rattle.std.specs.Prelude.{◌≡◌, ◌+◌, ◌≤◌, ◌<◌, ◌⊎◌, ◌++◌, length, take, replicate};
ghost use Rattle.rh_explain.specs.Block.{cut_mark, hex_digit, shown, shown_byte, shown_from};

use crate::part::Part;
use rh_text::{IoLog, LineText, Write, send};
use std::io;

/// The most columns that a line's text takes, without the marks where it is cut.
const MOST_COLUMNS: usize = 74;

/// So many bytes before the part are shown of a line that is cut.
const MOST_BEFORE: usize = 18;

/// A digit of base 16, from 0 to 15.
fn hex_digit(value: u8) -> u8
    requires { value < 16 }
    ensures { result ≡ hex_digit value }
{
    if value < 10 {
        b'0' + value
    } else {
        b'a' + (value - 10)
    }
}

/// How many columns a byte takes as it is shown.
fn width(byte: u8) -> usize
    ensures value { result ≡ length (shown_byte byte) }
    ensures few { (1 ≤ result) × (result ≤ 4) }
{
    if (b' '..=b'~').contains(&byte) { 1 } else { 4 }
}

/// Puts a byte at the end as it is shown: itself where it is printable, and else `\xNN`.
fn put_shown_byte(text: &mut LineText, byte: u8)
    requires { length text.old + 4 ≤ 256 }
    ensures { text.new ≡ text.old ++ shown_byte byte }
{
    if (b' '..=b'~').contains(&byte) {
        text.put(&[byte]);
        return;
    }
    text.put(&[b'\\', b'x', hex_digit(byte / 16), hex_digit(byte % 16)]);
}

/// Puts bytes at the end as they are shown.
fn put_shown(text: &mut LineText, bytes: &[u8])
    requires { length text.old + length (shown bytes.now) + 3 ≤ 256 }
    ensures value { text.new ≡ text.old ++ shown bytes.now }
    ensures len { length text.new ≡ length text.old + length (shown bytes.now) }
{
    for byte in bytes {
        put_shown_byte(text, *byte);
    }
}

/// Puts the mark of a cut at the end, where the line is cut.
fn put_cut(text: &mut LineText, is_cut: bool)
    requires { length text.old + 2 ≤ 256 }
    ensures value { text.new ≡ text.old ++ cut_mark is_cut }
    ensures len { length text.new ≤ length text.old + 2 }
{
    if is_cut {
        text.put(b"..");
    }
}

/// Puts a byte at the end so many times.
fn put_times(text: &mut LineText, byte: u8, times: usize)
    requires { length text.old + times ≤ 256 }
    ensures value { text.new ≡ text.old ++ replicate times byte }
    ensures len { length text.new ≡ length text.old + times }
{
    for _ in 0..times {
        text.put(&[byte]);
    }
}

/// So many, or one.
fn at_least_one(count: usize) -> usize
    ensures { (1 ≤ result) × (result ≤ count + 1) }
{
    if count > 0 { count } else { 1 }
}

/// How many of the first bytes of a text are shown in at most 74 columns: all, or at least 18.
fn fitting(bytes: &[u8]) -> usize
    ensures within { result ≤ length bytes.now }
    ensures fits { length (shown (take result bytes.now)) ≤ MOST_COLUMNS }
    ensures many { (result ≡ length bytes.now) ⊎ (MOST_BEFORE ≤ result) }
{
    let mut columns = 0;
    for (i, byte) in bytes.iter().enumerate() {
        let next = columns + width(*byte);
        if next > MOST_COLUMNS {
            return i;
        }
        columns = next;
    }
    bytes.len()
}

/// From which byte and to which a line is shown: whole where it fits, and else from a few bytes
/// before a column on.
fn window(line: &[u8], begins: usize) -> (usize, usize)
    requires { begins ≤ length line.now }
    ensures within { (result.0 ≤ begins) × (begins ≤ result.1) × (result.1 ≤ length line.now) }
    ensures fits { length (shown_from line.now result.0 result.1) ≤ MOST_COLUMNS }
{
    let whole = fitting(line);
    if whole == line.len() {
        return (0, whole);
    }
    let from = if begins > MOST_BEFORE {
        begins - MOST_BEFORE
    } else {
        0
    };
    (from, from + fitting(&line[from..]))
}

/// The text becomes the line of this number, from one byte to another, and under it carets: they
/// stand under what shows the part, or there is one where something is missing.
fn put_rows(
    text: &mut LineText,
    number: u32,
    line: &[u8],
    begins: usize,
    ends: usize,
    from: usize,
    to: usize,
)
    requires order { (from ≤ begins) × (begins ≤ ends) × (ends ≤ to) × (to ≤ length line.now) }
    requires fits { length (shown_from line.now from to) ≤ MOST_COLUMNS }
{
    text.clear();
    text.put_integer(number);
    text.put(b" | ");
    put_cut(text, from > 0);
    put_shown(text, &line[from..begins]);
    let mark = text.as_bytes().len();
    put_shown(text, &line[begins..ends]);
    let marked = text.as_bytes().len() - mark;
    put_shown(text, &line[ends..to]);
    put_cut(text, to < line.len());
    text.put(b"\n");
    put_times(text, b' ', mark);
    put_times(text, b'^', at_least_one(marked));
    text.put(b"\n");
}

/// Writes the line of this number, given without its line end, and under it carets under the bytes
/// from one column to another, or one where something is missing. A byte that isn't printable is
/// shown as `\xNN`. A long line is cut round these columns, with `..` where it is cut.
///
/// # Errors
///
/// `Write` where a write failed.
pub fn write_rows<W: io::Write>(
    out: &mut W,
    number: u32,
    line: &[u8],
    begins: usize,
    ends: usize,
) -> Result<(), Write>
    requires { (begins ≤ ends) × (ends ≤ length line.now) }
{
    let (from, to) = window(line, begins);
    let mut text = LineText::new();
    let shown = if ends < to { ends } else { to };
    put_rows(&mut text, number, line, begins, shown, from, to);
    send(out, &mut IoLog::new(), text.as_bytes())
}

/// Writes the line of this number, given without its line end, carets under its faulty part, and
/// the sentence that says what is wrong, each as a line. The line is shown as `write_rows` shows it.
///
/// # Errors
///
/// `Write` where a write failed.
pub fn write_block<W: io::Write>(
    out: &mut W,
    number: u32,
    line: &[u8],
    part: &Part,
) -> Result<(), Write>
    requires { (part.now.begins ≤ part.now.ends) × (part.now.ends ≤ length line.now) }
{
    write_rows(out, number, line, part.begins, part.ends)?;
    let why = part.why;
    match writeln!(out, "{why}") {
        Ok(()) => Ok(()),
        Err(_) => Err(Write),
    }
}
