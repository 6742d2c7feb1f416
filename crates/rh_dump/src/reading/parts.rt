//! What a part of a dump's line says: a number, a root or a value.

ghost use Rattle.std.specs.Prelude.{◌≡◌, ℕ, IfOk};
ghost use Rattle.std.specs.Option.{option_map};
ghost use Rattle.rh_dump.specs.Meeting.{IsBelow};
ghost use Rattle.rh_dump.specs.texts.Part.{number_up_to, whole_of, small_root_of, after_at};
ghost use Rattle.rh_dump.specs.texts.Reading.{number_or_fault, reference_or_fault, whole_or_fault, value_or_fault, plain_or_fault, field_or_fault, is_root_before, is_root_after, root_or_fault};

use crate::limits::LAST_OBJECT;
use crate::reading::fault::DumpKind;
use rh_layout::limits::{MAX_OWNERS, MAX_SLOTS};
use rh_layout::{RootId, Value, is_whole};
use rh_text::{is_text, read_integer, read_number, read_root};

/// The number up to a limit of which the part is the decimal.
#[tactic(auto, unfolding(crate::specs::texts::Part::number_up_to))]
fn number_up_to(limit: u32, part: &[u8]) -> Option<u32>
    ensures { result ≡ number_up_to limit part.now }
{
    let number = read_number(part)?;
    if number <= limit { Some(number) } else { None }
}

/// The number up to a limit that a part says.
pub fn number_or_fault(limit: u32, part: &[u8]) -> Result<u32, DumpKind>
    ensures { result ≡ number_or_fault limit part.now }
{
    number_up_to(limit, part).ok_or(DumpKind::Number)
}

/// The whole number that has a word and of which the part is the decimal.
#[tactic(auto, unfolding(crate::specs::texts::Part::whole_of))]
fn whole_of(part: &[u8]) -> Option<i64>
    ensures { result ≡ whole_of part.now }
{
    let number = read_integer(part)?;
    if is_whole(number) { Some(number) } else { None }
}

/// What stands after the `@` with which the part begins.
pub fn after_at(part: &[u8]) -> Option<&[u8]>
    ensures { option_map (λ x. x.now) result ≡ after_at part.now }
{
    match part {
        [] => None,
        [first, rest @ ..] => { if *first == b'@' { Some(rest) } else { None } }
    }
}

/// A reference to one of so many objects, where so many were met.
#[tactic(auto, unfolding(crate::specs::texts::Reading::reference_or_fault))]
fn reference_or_fault(count: u32, met: u32, digits: &[u8]) -> Result<Value, DumpKind>
    ensures value { result ≡ reference_or_fault count met digits.now }
    ensures below { IfOk result (λ v. IsBelow count v) }
{
    let number = number_or_fault(LAST_OBJECT, digits)?;
    if met < number {
        return Err(DumpKind::Order);
    }
    if number < count {
        Ok(Value::Ref(number))
    } else {
        Err(DumpKind::Count)
    }
}

/// A whole number.
#[tactic(auto, unfolding(crate::specs::texts::Reading::whole_or_fault))]
fn whole_or_fault(part: &[u8]) -> Result<Value, DumpKind>
    ensures value { result ≡ whole_or_fault part.now }
    ensures below { IfOk result (λ v. (count : ℕ) → IsBelow count v) }
{
    let number = whole_of(part).ok_or(DumpKind::Number)?;
    Ok(Value::Int(number))
}

/// `nil`, a reference to one of so many objects, where so many were met, or a whole number.
#[tactic(auto, unfolding(crate::specs::texts::Reading::value_or_fault))]
pub fn value_or_fault(count: u32, met: u32, part: &[u8]) -> Result<Value, DumpKind>
    ensures value { result ≡ value_or_fault count met part.now }
    ensures below { IfOk result (λ v. IsBelow count v) }
{
    if is_text(part, b"nil") {
        return Ok(Value::Nil);
    }
    match after_at(part) {
        Some(digits) => reference_or_fault(count, met, digits),
        None => whole_or_fault(part),
    }
}

/// `nil` or a whole number.
#[tactic(auto, unfolding(crate::specs::texts::Reading::plain_or_fault))]
fn plain_or_fault(part: &[u8]) -> Result<Value, DumpKind>
    ensures value { result ≡ plain_or_fault part.now }
    ensures below { IfOk result (λ v. (count : ℕ) → IsBelow count v) }
{
    if is_text(part, b"nil") {
        return Ok(Value::Nil);
    }
    whole_or_fault(part)
}

/// What a field of an object holds, which may be raw, where so many objects are and so many were
/// met.
pub fn field_or_fault(raw: bool, count: u32, met: u32, part: &[u8]) -> Result<Value, DumpKind>
    ensures value { result ≡ field_or_fault raw count met part.now }
    ensures below { IfOk result (λ v. IsBelow count v) }
{
    if raw {
        plain_or_fault(part)
    } else {
        value_or_fault(count, met, part)
    }
}

/// The root that a part says, where its owner is below 16 and its slot below 256.
#[tactic(auto, unfolding(crate::specs::texts::Part::small_root_of))]
fn small_root_of(part: &[u8]) -> Option<RootId>
    ensures { result ≡ small_root_of part.now }
{
    let root = read_root(part)?;
    if root.owner < MAX_OWNERS && root.slot < MAX_SLOTS {
        Some(root)
    } else {
        None
    }
}

/// One root comes before another: by owner, then by slot.
fn is_root_before(a: RootId, b: RootId) -> bool
    ensures { result ≡ is_root_before a b }
{
    a.owner < b.owner || (a.owner == b.owner && a.slot < b.slot)
}

/// The root comes after the last one, where there is one.
fn is_root_after(last: Option<RootId>, root: RootId) -> bool
    ensures { result ≡ is_root_after last root }
{
    match last {
        None => true,
        Some(last) => is_root_before(last, root),
    }
}

/// The root that a part says, which comes after the last one.
#[tactic(auto, unfolding(crate::specs::texts::Reading::root_or_fault))]
pub fn root_or_fault(last: Option<RootId>, part: &[u8]) -> Result<RootId, DumpKind>
    ensures { result ≡ root_or_fault last part.now }
{
    let root = small_root_of(part).ok_or(DumpKind::Number)?;
    if is_root_after(last, root) {
        Ok(root)
    } else {
        Err(DumpKind::Order)
    }
}
