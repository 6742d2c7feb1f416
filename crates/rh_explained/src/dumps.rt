//! Where a dump fails.

ghost use Rattle.rh_explained.specs.Line.{line_at};
ghost use Rattle.rh_explained.specs.Spot.{IsInLine};

use crate::due::Due;
use crate::lines::{count_parts, nth_line, number_at, part_at};
use crate::spot::{Spot, at_found, at_line, at_part};
use crate::told::Told;
use rh_dump::limits::{LAST_OBJECT, MAX_OBJECTS, MAX_ROOTS};
use rh_dump::{DumpFault, DumpKind};
use rh_explain::{Why, fault_part, is_marked};
use rh_layout::limits::{MAX_FIELDS, MAX_OWNERS, MAX_SLOTS};
use rh_layout::{RootId, is_whole};
use rh_text::{
    first_line, has_dot, is_formed, is_text, next_part, read_integer, read_number, read_root,
};

/// What stands in a dump before one of its lines.
#[derive(Clone, Copy)]
struct Before {
    /// The line that is due.
    due: Due,
    /// Whether objects may be raw, as in version 2.
    has_raw: bool,
    /// How many roots there are, once that was said.
    roots: u32,
    /// How many objects were met.
    met: u32,
    /// How many objects there are, once that was said.
    count: u32,
    /// The number of the object whose line is due.
    object: u32,
    /// The root of the line before, where that is a root's.
    last: Option<RootId>,
}

/// The spot of a dump's fault that reading told.
pub fn dump_spot<'a>(text: &'a [u8], fault: DumpFault) -> Spot<'a>
    ensures { IsInLine fault.line (line_at fault.line text.now).bytes result }
{
    let number = fault.line;
    let (line, _) = nth_line(text, number);
    let before = before_line(text, number);
    match fault.kind {
        DumpKind::Long => at_line(number, line, Told::LongDump),
        DumpKind::Trailing => at_line(number, line, Told::AfterEnd),
        DumpKind::End => end_spot(number, line, before.due),
        DumpKind::Header => header_spot(number, line),
        DumpKind::Form => form_spot(number, line, &before),
        DumpKind::Number | DumpKind::Order | DumpKind::Count => {
            part_spot(number, line, &before, fault.kind)
        }
    }
}

/// The most of two numbers.
fn most(a: u32, b: u32) -> u32 {
    if a < b { b } else { a }
}

/// How many objects were met at the end of a line, of those before it and those that its parts after
/// the first refer to, up to the part of this number.
fn met_after(line: &[u8], met: u32, until: usize) -> u32 {
    let mut now = met;
    let mut rest = Some(line);
    for index in 0..until {
        let Some((part, after)) = next_part(rest) else {
            return now;
        };
        if let Some(object) = object_of(part) {
            if index > 0 {
                now = most(now, object.saturating_add(1));
            }
        }
        rest = after;
    }
    now
}

/// The number of the object that a part names.
fn object_of(part: &[u8]) -> Option<u32> {
    match part {
        [b'@', digits @ ..] => read_number(digits),
        _ => None,
    }
}

/// What stands in a dump before the line of this number.
fn before_line(text: &[u8], number: u32) -> Before {
    let (first, _) = nth_line(text, 1);
    let mut before = Before {
        due: Due::Header,
        has_raw: is_text(part_at(first, 1), b"2"),
        roots: 0,
        met: 0,
        count: 0,
        object: 0,
        last: None,
    };
    let mut rest = text;
    let mut roots = 0;
    for _ in 1..number {
        if rest.is_empty() {
            return before;
        }
        let (line, _, after) = first_line(rest);
        rest = after;
        (before, roots) = after_line(&before, roots, line);
    }
    before
}

/// What stands in a dump after a line without a fault, and how many root lines are left then.
fn after_line(before: &Before, roots: u32, line: &[u8]) -> (Before, u32) {
    let met = met_after(line, before.met, line.len());
    let mut after = Before { met, ..*before };
    let mut left = roots;
    match before.due {
        Due::Header => after.due = Due::Roots,
        Due::Roots => {
            left = number_at(line, 1);
            after.roots = left;
            after.due = if left == 0 { Due::Objects } else { Due::Root };
        }
        Due::Root => {
            left = roots.saturating_sub(1);
            after.last = read_root(part_at(line, 0));
            after.due = if left == 0 { Due::Objects } else { Due::Root };
        }
        Due::Objects => {
            after.count = number_at(line, 1);
            after.due = if after.count == 0 {
                Due::End
            } else {
                Due::Object
            };
        }
        Due::Object => {
            after.object = before.object.saturating_add(1);
            after.due = if after.object < before.count {
                Due::Object
            } else {
                Due::End
            };
        }
        Due::End => {}
    }
    (after, left)
}

/// The spot of a text that ends too early.
fn end_spot<'a>(number: u32, line: &'a [u8], due: Due) -> Spot<'a>
    ensures { IsInLine number line.now result }
{
    let told = match due {
        _ if !line.is_empty() => Told::Line(Why::Unended),
        Due::End => Told::NoDumpEnd,
        due => Told::Missing(due),
    };
    Spot {
        number,
        line,
        begins: line.len(),
        ends: line.len(),
        told,
    }
}

/// The spot of a first line that isn't a dump's.
fn header_spot<'a>(number: u32, line: &'a [u8]) -> Spot<'a>
    ensures { IsInLine number line.now result }
{
    if !is_formed(line) {
        if let Some(part) = fault_part(1, line, true) {
            return at_found(number, line, part, Told::Line(part.why));
        }
    }
    let word = part_at(line, 0);
    if is_text(word, b"heap") {
        return at_part(number, line, 0, Told::Trace);
    }
    if is_text(word, b"history") {
        return at_part(number, line, 0, Told::Line(Why::History));
    }
    at_line(number, line, Told::DumpHeader)
}

/// The spot of a line whose form is wrong.
fn form_spot<'a>(number: u32, line: &'a [u8], before: &Before) -> Spot<'a>
    ensures { IsInLine number line.now result }
{
    if !is_formed(line) {
        return bytes_spot(number, line);
    }
    match before.due {
        Due::Root => root_form_spot(number, line, before.roots),
        Due::Objects => at_line(number, line, Told::ObjectsDue(before.roots)),
        Due::Object => object_form_spot(number, line, before),
        Due::End => at_line(number, line, Told::EndDue(before.count)),
        due => at_line(number, line, Told::Form(due)),
    }
}

/// The spot of a line that has a byte or a space where none may stand. It may be longer than a line
/// of a trace.
fn bytes_spot<'a>(number: u32, line: &'a [u8]) -> Spot<'a>
    ensures { IsInLine number line.now result }
{
    for (index, byte) in line.iter().enumerate() {
        let is_text = (b' '..=b'~').contains(byte);
        if !is_text {
            return Spot {
                number,
                line,
                begins: index,
                ends: index + 1,
                told: Told::Line(why_ill(line, index, *byte)),
            };
        }
    }
    spaces_spot(number, line)
}

/// Why a byte can't stand in a line.
fn why_ill(line: &[u8], index: usize, byte: u8) -> Why {
    match byte {
        b'\t' => Why::Tab,
        b'\r' if line.len() <= index.saturating_add(1) => Why::CarriageReturn,
        _ if index == 0 && is_marked(line) => Why::ByteOrderMark,
        _ => Why::Byte(byte),
    }
}

/// The spot of a line of text in which a space stands where none may, or that is empty.
fn spaces_spot<'a>(number: u32, line: &'a [u8]) -> Spot<'a>
    ensures { IsInLine number line.now result }
{
    let mut is_part_empty = true;
    for (index, byte) in line.iter().enumerate() {
        let is_space = *byte == b' ';
        if is_space && is_part_empty {
            let why = if index == 0 {
                Why::SpaceAtStart
            } else {
                Why::SecondSpace
            };
            return Spot {
                number,
                line,
                begins: index,
                ends: index + 1,
                told: Told::Line(why),
            };
        }
        is_part_empty = is_space;
    }
    let why = if line.is_empty() {
        Why::Blank
    } else {
        Why::SpaceAtEnd
    };
    let begins = line.len().saturating_sub(1);
    Spot {
        number,
        line,
        begins,
        ends: line.len(),
        told: Told::Line(why),
    }
}

/// The spot of a line whose form is wrong where a root's is due, of which there are so many.
fn root_form_spot<'a>(number: u32, line: &'a [u8], roots: u32) -> Spot<'a>
    ensures { IsInLine number line.now result }
{
    if count_parts(line, 3) == 2 && is_text(part_at(line, 1), b"nil") {
        return at_part(number, line, 1, Told::NilRoot);
    }
    at_line(number, line, Told::RootDue(roots))
}

/// Whether an object's line says that it is raw.
fn is_raw(line: &[u8], has_raw: bool) -> bool {
    has_raw && is_text(part_at(line, 1), b"raw")
}

/// The spot of a line whose form is wrong where an object's is due.
fn object_form_spot<'a>(number: u32, line: &'a [u8], before: &Before) -> Spot<'a>
    ensures { IsInLine number line.now result }
{
    let head = if is_raw(line, before.has_raw) { 3 } else { 2 };
    let has_at = matches!(part_at(line, 0), [b'@', ..]);
    if !has_at {
        return at_line(number, line, Told::ObjectDue(before.object, before.count));
    }
    if count_parts(line, head) < head {
        return at_line(number, line, Told::Form(Due::Object));
    }
    let fields = number_at(line, head - 1);
    let due = head + fields as usize;
    at_part(number, line, due, Told::Values(fields))
}

/// The spot of a line in which a part fails by its number, its order or its count.
fn part_spot<'a>(number: u32, line: &'a [u8], before: &Before, kind: DumpKind) -> Spot<'a>
    ensures { IsInLine number line.now result }
{
    match before.due {
        Due::Roots => at_part(number, line, 1, Told::NumberUpTo(MAX_ROOTS)),
        Due::Objects => {
            let told = match kind {
                DumpKind::Count => Told::FewObjects(before.met),
                _ => Told::NumberUpTo(MAX_OBJECTS),
            };
            at_part(number, line, 1, told)
        }
        Due::Root => root_spot(number, line, before, kind),
        _ => object_spot(number, line, before),
    }
}

/// The root of a dump that a part says.
fn root_of(part: &[u8]) -> Option<RootId> {
    let root = read_root(part)?;
    if root.owner < MAX_OWNERS && root.slot < MAX_SLOTS {
        Some(root)
    } else {
        None
    }
}

/// Whether a root comes after the last one.
fn is_later(last: Option<RootId>, root: RootId) -> bool {
    match last {
        None => true,
        Some(last) => {
            last.owner < root.owner || (last.owner == root.owner && last.slot < root.slot)
        }
    }
}

/// The spot of a root's line in which a part fails.
fn root_spot<'a>(number: u32, line: &'a [u8], before: &Before, kind: DumpKind) -> Spot<'a>
    ensures { IsInLine number line.now result }
{
    let part = part_at(line, 0);
    let Some(root) = root_of(part) else {
        if has_dot(part) {
            return at_part(number, line, 0, Told::Root);
        }
        return at_line(number, line, Told::RootDue(before.roots));
    };
    if !is_later(before.last, root) {
        return at_part(number, line, 0, Told::RootOrder);
    }
    let told = match kind {
        DumpKind::Number => Told::RootValue,
        _ => Told::Order(before.met),
    };
    at_part(number, line, 1, told)
}

/// The spot of an object's line in which a part fails.
fn object_spot<'a>(number: u32, line: &'a [u8], before: &Before) -> Spot<'a>
    ensures { IsInLine number line.now result }
{
    let object = object_of(part_at(line, 0)).unwrap_or(u32::MAX);
    if object > LAST_OBJECT {
        return at_part(number, line, 0, Told::ObjectNumber);
    }
    if object != before.object {
        return at_part(number, line, 0, Told::ObjectOrder(before.object));
    }
    if object >= before.met {
        return at_part(number, line, 0, Told::Unmet);
    }
    let raw = is_raw(line, before.has_raw);
    let head = if raw { 3 } else { 2 };
    let fields = read_number(part_at(line, head - 1)).unwrap_or(u32::MAX);
    if fields > MAX_FIELDS {
        let told = if !before.has_raw && is_raw(line, true) {
            Told::RawInVersion1
        } else {
            Told::NumberUpTo(MAX_FIELDS)
        };
        return at_part(number, line, head - 1, told);
    }
    values_spot(number, line, before, raw)
}

/// What is wrong with a value of an object where so many were met, if anything is.
fn value_told(part: &[u8], raw: bool, count: u32, met: u32) -> Option<Told> {
    if is_text(part, b"nil") {
        return None;
    }
    if !matches!(part, [b'@', ..]) {
        return match read_integer(part) {
            Some(whole) if is_whole(whole) => None,
            _ => Some(if raw { Told::RawValue } else { Told::Value }),
        };
    }
    if raw {
        return Some(Told::RawValue);
    }
    match object_of(part) {
        Some(object) if object <= LAST_OBJECT => {
            if met < object {
                Some(Told::Order(met))
            } else if object < count {
                None
            } else {
                Some(Told::NoObject(count))
            }
        }
        _ => Some(Told::Value),
    }
}

/// The spot of an object's line in which a value fails.
fn values_spot<'a>(number: u32, line: &'a [u8], before: &Before, raw: bool) -> Spot<'a>
    ensures { IsInLine number line.now result }
{
    let head = if raw { 3 } else { 2 };
    let mut met = before.met;
    let mut rest = Some(line);
    for index in 0..=line.len() {
        let Some((part, after)) = next_part(rest) else {
            return at_line(number, line, Told::Form(Due::Object));
        };
        rest = after;
        if index >= head {
            if let Some(told) = value_told(part, raw, before.count, met) {
                return at_part(number, line, index, told);
            }
            met = met_of(part, met);
        }
    }
    at_line(number, line, Told::Form(Due::Object))
}

/// How many objects were met after a value.
fn met_of(part: &[u8], met: u32) -> u32 {
    match object_of(part) {
        Some(object) => most(met, object.saturating_add(1)),
        None => met,
    }
}
