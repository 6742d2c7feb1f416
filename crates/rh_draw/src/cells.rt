//! The words of an object: its outline, its header, and its fields.

use crate::page::{CELL_HEIGHT, CELL_WIDTH, Strip};
use crate::sketch::Object;
use rh_layout::{OutOfMemory, Value};
use std::alloc::Allocator;

/// Of a number that is too long for a cell the first digits, which stand before two dots.
fn head_of(number: i64) -> Option<i64> {
    if -999_999_999 <= number && number <= 9_999_999_999 {
        return None;
    }
    let mut head = number;
    for _ in 0..20 {
        if -9_999 <= head && head <= 99_999 {
            break;
        }
        head /= 10;
    }
    Some(head)
}

/// The class of a value's text: a longer one is smaller.
pub fn class_of(value: Value) -> &'static str {
    let Value::Int(n) = value else {
        return "value";
    };
    if head_of(n).is_some() {
        return "cut";
    }
    if n < -99_999 || n > 999_999 {
        return "long";
    }
    "value"
}

/// The class of a store's number: a longer one is smaller.
fn class_of_number(number: u64) -> &'static str {
    if number > 9_999_999_999 {
        return "number longest";
    }
    if number > 999_999 {
        return "number long";
    }
    "number"
}

/// Puts a whole number at the end. One that is too long is cut, and its title has it whole.
fn put_number<B: Allocator>(svg: &mut String<B>, number: i64) -> Result<(), OutOfMemory> {
    match head_of(number) {
        Some(head) => write!(svg, "<title>{number}</title>{head}..")?,
        None => write!(svg, "{number}")?,
    }
    Ok(())
}

/// Puts `nil`, a whole number, or `@` and an address at the end.
pub fn put_value<B: Allocator>(svg: &mut String<B>, value: Value) -> Result<(), OutOfMemory> {
    match value {
        Value::Nil => svg.push_str("nil")?,
        Value::Int(n) => put_number(svg, n)?,
        Value::Ref(a) => write!(svg, "@{a}")?,
    }
    Ok(())
}

/// Puts a field's cell of this class, without a text.
pub fn put_cell<B: Allocator>(
    svg: &mut String<B>,
    strip: Strip,
    word: u64,
    class: &str,
) -> Result<(), OutOfMemory> {
    let (x, y) = (strip.left(word) + 3, strip.upper(word) + 3);
    write!(
        svg,
        "<rect class='{class}' x='{x}' y='{y}' width='47' height='34' rx='3'/>\n"
    )?;
    Ok(())
}

/// Puts the number and the value of a field into its cell.
pub fn put_pair<B: Allocator>(
    svg: &mut String<B>,
    strip: Strip,
    word: u64,
    pair: (u64, Value),
) -> Result<(), OutOfMemory> {
    let (x, y) = (strip.left(word) + 26, strip.upper(word));
    let class = class_of(pair.1);
    let value_y = y + 20;
    write!(svg, "<text class='{class}' x='{x}' y='{value_y}'>")?;
    put_value(svg, pair.1)?;
    let (number, number_y) = (pair.0, y + 34);
    let class = class_of_number(number);
    write!(
        svg,
        "</text><text class='{class}' x='{x}' y='{number_y}'>#{number}</text>\n"
    )?;
    Ok(())
}

/// Puts two lines of text into a word's cell: a small one, and an address.
pub fn put_address<B: Allocator>(
    svg: &mut String<B>,
    strip: Strip,
    word: u64,
    label: &str,
    address: u32,
) -> Result<(), OutOfMemory> {
    let (x, y) = (strip.left(word) + 26, strip.upper(word));
    let (label_y, address_y) = (y + 15, y + 31);
    write!(
        svg,
        "<text class='small' x='{x}' y='{label_y}'>{label}</text>\
         <text class='word' x='{x}' y='{address_y}'>@{address}</text>\n"
    )?;
    Ok(())
}

/// Puts what a header says: the object's address, whether it is raw, and how many fields it has.
fn put_header<B: Allocator>(
    svg: &mut String<B>,
    strip: Strip,
    object: Object,
) -> Result<(), OutOfMemory> {
    let word = u64::from(object.address);
    let (x, y) = (strip.left(word) + 26, strip.upper(word));
    let (address_y, kind_y) = (y + 18, y + 33);
    let (address, fields) = (object.address, object.fields);
    let (before, after) = match (object.raw, fields) {
        (true, _) => ("raw, ", ""),
        (false, 1) => ("", " field"),
        (false, _) => ("", " fields"),
    };
    write!(
        svg,
        "<text class='word address' x='{x}' y='{address_y}'>@{address}</text>\
         <text class='small' x='{x}' y='{kind_y}'>{before}{fields}{after}</text>\n"
    )?;
    Ok(())
}

/// Puts an object's outline, a box in each of its rows, with round corners where it is raw.
fn put_outline<B: Allocator>(
    svg: &mut String<B>,
    strip: Strip,
    object: Object,
) -> Result<(), OutOfMemory> {
    let round = if object.raw { 12 } else { 0 };
    let end = u64::from(object.end());
    let mut word = u64::from(object.address);
    for _ in 0..object.fields.saturating_add(2) {
        if word >= end {
            break;
        }
        let words = strip.rest_of_row(word).min(end - word);
        let (x, y, width) = (strip.left(word), strip.upper(word), words * CELL_WIDTH);
        write!(
            svg,
            "<rect class='object' x='{x}' y='{y}' width='{width}' height='{CELL_HEIGHT}' \
             rx='{round}'/>\n"
        )?;
        word += words;
    }
    Ok(())
}

/// Puts an object's box: its outline and its header.
pub fn put_box<B: Allocator>(
    svg: &mut String<B>,
    strip: Strip,
    object: Object,
) -> Result<(), OutOfMemory> {
    let start = if object.raw {
        "<g class='box raw'>\n"
    } else {
        "<g class='box'>\n"
    };
    svg.push_str(start)?;
    put_outline(svg, strip, object)?;
    svg.push_str("</g>\n")?;
    put_header(svg, strip, object)
}
