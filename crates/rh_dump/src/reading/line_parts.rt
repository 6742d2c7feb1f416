//! The parts of a dump's line, read by what is due.

ghost use Rattle.std.specs.Prelude.{◌≡◌, ◌<◌, length, IfOk, OnOk};
ghost use Rattle.std.specs.Option.{option_map};
ghost use Rattle.rh_text.specs.Parts.{parts_of, parts_left};
ghost use Rattle.rh_text.specs.Steps.{Shows};
ghost use Rattle.rh_dump.specs.Meeting.{IsBelow};
ghost use Rattle.rh_dump.specs.texts.Part.{kind_and_rest, object_head};
ghost use Rattle.rh_dump.specs.texts.Putting.{start_of};
ghost use Rattle.rh_dump.specs.texts.Reading.{formed_parts, part_after, roots_of_parts, objects_of_parts, root_of_parts, own_number};

use crate::limits::{LAST_OBJECT, MAX_OBJECTS, MAX_ROOTS};
use crate::reading::due::Version;
use crate::reading::fault::DumpKind;
use crate::reading::parts::{after_at, number_or_fault, root_or_fault, value_or_fault};
use rh_layout::{MAX_FIELDS, RootId, Shape, Value};
use rh_text::{is_formed, is_text, next_part, two_parts};

/// The parts of a line that is well formed.
#[tactic(auto, unfolding(crate::specs::texts::Reading::formed_parts))]
pub fn formed_parts(line: &[u8]) -> Result<Option<&[u8]>, DumpKind>
    ensures { Shows (λ x. parts_left x) result (formed_parts line.now) }
{
    if is_formed(line) {
        Ok(Some(line))
    } else {
        Err(DumpKind::Form)
    }
}

/// The part after this keyword, where these two are all.
#[tactic(auto, unfolding(crate::specs::texts::Reading::part_after))]
fn part_after<'a>(keyword: &[u8], rest: Option<&'a [u8]>) -> Result<&'a [u8], DumpKind>
    ensures { Shows (λ x. x.now) result (part_after keyword.now (parts_left rest.entry)) }
{
    let (first, second) = two_parts(rest).ok_or(DumpKind::Form)?;
    if is_text(first, keyword) {
        Ok(second)
    } else {
        Err(DumpKind::Form)
    }
}

/// `roots R`.
#[tactic(auto, unfolding(crate::specs::texts::Reading::roots_of_parts))]
pub fn roots_of_parts(rest: Option<&[u8]>) -> Result<u32, DumpKind>
    ensures { result ≡ roots_of_parts (parts_left rest.entry) }
{
    let count = part_after(b"roots", rest)?;
    number_or_fault(MAX_ROOTS, count)
}

/// `objects N`, where so many objects were met.
#[tactic(auto, unfolding(crate::specs::texts::Reading::objects_of_parts))]
pub fn objects_of_parts(met: u32, rest: Option<&[u8]>) -> Result<u32, DumpKind>
    ensures { result ≡ objects_of_parts met (parts_left rest.entry) }
{
    let part = part_after(b"objects", rest)?;
    let count = number_or_fault(MAX_OBJECTS, part)?;
    if count < met {
        Err(DumpKind::Count)
    } else {
        Ok(count)
    }
}

/// A root that isn't nil; how many objects there are isn't known yet.
#[tactic(auto, unfolding(crate::specs::texts::Reading::root_of_parts))]
pub fn root_of_parts(
    last: Option<RootId>,
    met: u32,
    rest: Option<&[u8]>,
) -> Result<(RootId, Value), DumpKind>
    ensures value { result ≡ root_of_parts last met (parts_left rest.entry) }
    ensures below { IfOk result (λ root. IsBelow MAX_OBJECTS root.1) }
{
    let (root, value) = two_parts(rest).ok_or(DumpKind::Form)?;
    if is_text(value, b"nil") {
        return Err(DumpKind::Form);
    }
    let root = root_or_fault(last, root)?;
    let value = value_or_fault(MAX_OBJECTS, met, value)?;
    Ok((root, value))
}

/// Whether the first part is `raw`, in a version that has raw objects, and the parts after it.
fn kind_and_rest(version: Version, rest: Option<&[u8]>) -> (bool, Option<&[u8]>)
    ensures { (result.0, parts_left result.1) ≡ kind_and_rest version (parts_left rest.entry) }
{
    match version {
        Version::One => (false, rest),
        Version::Two => match next_part(rest) {
            Some((part, others)) => {
                if is_text(part, b"raw") {
                    (true, others)
                } else {
                    (false, rest)
                }
            }
            None => (false, rest),
        },
    }
}

/// The start of an object's line: what stands after the `@` of the first part, whether `raw` stands
/// after it, the next part, and the parts after that.
#[tactic(auto, unfolding(crate::specs::texts::Part::object_head))]
fn object_head(version: Version, rest: Option<&[u8]>) -> Option<(&[u8], bool, &[u8], Option<&[u8]>)>
    ensures { option_map (λ x. (x.0.now, x.1, x.2.now, parts_left x.3)) result
        ≡ object_head version (parts_left rest.entry) }
{
    let (first, rest) = next_part(rest)?;
    let own = after_at(first)?;
    let (raw, rest) = kind_and_rest(version, rest);
    let (fields, rest) = next_part(rest)?;
    Some((own, raw, fields, rest))
}

/// An object's own number, which is the next and was met.
#[tactic(auto, unfolding(crate::specs::texts::Reading::own_number))]
fn own_number(number: u32, met: u32, digits: &[u8]) -> Result<u32, DumpKind>
    ensures value { result ≡ own_number number met digits.now }
    ensures met { OnOk result (number < met) }
{
    let own = number_or_fault(LAST_OBJECT, digits)?;
    if own != number {
        return Err(DumpKind::Order);
    }
    if number < met {
        Ok(own)
    } else {
        Err(DumpKind::Count)
    }
}

/// How many parts a line has.
fn count_parts(line: &[u8]) -> usize
    ensures { result ≡ length (parts_of line.now) }
{
    let mut count = 1usize;
    for byte in line {
        if *byte == b' ' {
            count += 1;
        }
    }
    count
}

/// How many parts are left of a line.
fn count_left(rest: Option<&[u8]>) -> usize
    ensures { result ≡ length (parts_left rest.entry) }
{
    match rest {
        None => 0,
        Some(line) => count_parts(line),
    }
}

/// The shape of an object, by its line, and the parts of its fields' values, which are as many as
/// its fields.
#[tactic(auto, unfolding(crate::specs::texts::Putting::start_of))]
pub fn start_of(
    version: Version,
    number: u32,
    met: u32,
    line: &[u8],
) -> Result<(Shape, Option<&[u8]>), DumpKind>
    ensures value { Shows (λ x. (x.0, parts_left x.1)) result
        (start_of version number met line.now) }
    ensures met { OnOk result (number < met) }
    ensures count { IfOk result (λ x. length (parts_left x.1) ≡ x.0.fields) }
{
    let parts = formed_parts(line)?;
    let (own, raw, fields, values) = object_head(version, parts).ok_or(DumpKind::Form)?;
    own_number(number, met, own)?;
    let fields = number_or_fault(MAX_FIELDS, fields)?;
    if count_left(values) == fields as usize {
        Ok((Shape { fields, raw }, values))
    } else {
        Err(DumpKind::Form)
    }
}
