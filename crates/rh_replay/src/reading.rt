//! A raw line of a history's text, read by its limits, its form and its parts.

ghost use Rattle.std.specs.Prelude.{◌≡◌, ◌≤◌, List, ℕ, ◌∷◌, ◌++◌, length, None};
ghost use Rattle.rh_text.specs.Parts.{parts_left, parts_of};
ghost use Rattle.rh_text.specs.Steps.{with_fault};
ghost use Rattle.rh_replay.specs.declared.fault.HistoryKind.TheVariants as history_kinds;
ghost use Rattle.rh_replay.specs.Reading.{before_equals, after_equals, command_before, call_of_parts, end_of_parts, line_of_parts, line_or_kind, size_up_to, sizes_of, header_of_parts, header_of_line, fault_at, kind_after_end, line_or_fault, header_or_fault};

use crate::answers::answer_of;
use crate::call::Call;
use crate::fault::{HistoryFault, HistoryKind};
use rh_layout::limits::{MAX_LINE_BYTES, MAX_LINES};
use rh_layout::{Command, MAX_OWNERS, MAX_SLOTS};
use rh_syntax::{Kind, checked_parts, owned_command};
use rh_text::{cut, is_text, next_part, one_part, read_number, three_parts};

/// What stands in a line before its last bytes, so many of them, and before the space before these:
/// `None` where they are all of the line.
fn before_last(line: &[u8], count: usize) -> Option<&[u8]>
    requires { count ≤ length line.now }
    ensures none { count ≡ length line.now → result ≡ None }
    ensures some { (left rest : List ℕ) → line.now ≡ left ++ 32 ∷ rest → length rest ≡ count
        → parts_left result ≡ parts_of left }
{
    let start = line.len() - count;
    if start == 0 {
        None
    } else {
        Some(&line[..start - 1])
    }
}

/// What stands before the first part that is `=`; all of the line where no part is.
fn before_equals(line: &[u8]) -> Option<&[u8]>
    ensures { parts_left result ≡ before_equals (parts_of line.now) }
{
    let mut rest = line;
    while let Some((part, after)) = cut(rest, b' ') {
        if is_text(part, b"=") {
            return before_last(line, rest.len());
        }
        rest = after;
    }
    if is_text(rest, b"=") {
        return before_last(line, rest.len());
    }
    Some(line)
}

/// What stands after the first part that is `=`, if any.
#[tactic(auto, using(crate::proofs::Equals::after_found, crate::proofs::Equals::after_next, crate::proofs::Equals::after_none,))]
fn after_equals(line: &[u8]) -> Option<&[u8]>
    ensures { parts_left result ≡ after_equals (parts_of line.now) }
{
    let mut rest = line;
    while let Some((part, after)) = cut(rest, b' ') {
        if is_text(part, b"=") {
            return Some(after);
        }
        rest = after;
    }
    None
}

/// The command of the parts before `=`; where there is none, `=` stands where the keyword should.
#[tactic(auto, unfolding(crate::specs::Reading::command_before))]
fn command_before(rest: Option<&[u8]>) -> Result<(u32, Command), Kind>
    ensures { result ≡ command_before (parts_left rest.entry) }
{
    match rest {
        None => Err(Kind::Word),
        Some(_) => owned_command(rest),
    }
}

/// What is wrong is a fault that a trace's line has too.
fn of_line<T>(read: Result<T, Kind>) -> Result<T, HistoryKind>
    ensures { result ≡ with_fault history_kinds.Line read }
{
    match read {
        Ok(x) => Ok(x),
        Err(kind) => Err(HistoryKind::Line(kind)),
    }
}

/// `COMMAND LINE = ANSWER`.
#[tactic(auto, unfolding(crate::specs::Reading::call_of_parts))]
fn call_of_parts(line: &[u8]) -> Result<Call, HistoryKind>
    ensures { result ≡ call_of_parts (parts_of line.now) }
{
    let (owner, command) = of_line(command_before(before_equals(line)))?;
    let answer = answer_of(after_equals(line)).ok_or(HistoryKind::Answer)?;
    Ok(Call {
        owner,
        command,
        answer,
    })
}

/// `end N`, from what stands after `end` in the line of this number: nothing, where N is the number
/// of the calls before it.
#[tactic(auto, unfolding(crate::specs::Reading::end_of_parts))]
fn end_of_parts(number: u32, rest: Option<&[u8]>) -> Result<Option<Call>, HistoryKind>
    ensures { result ≡ end_of_parts number (parts_left rest.entry) }
{
    let part = one_part(rest).ok_or(HistoryKind::Line(Kind::Form))?;
    let count = read_number(part).ok_or(HistoryKind::Line(Kind::Number))?;
    if u64::from(count) + 2 == u64::from(number) {
        Ok(None)
    } else {
        Err(HistoryKind::Count)
    }
}

/// A line after the first, by its parts: a call, or nothing where it is the last line.
#[tactic(auto, unfolding(crate::specs::Reading::line_of_parts))]
fn line_of_parts(number: u32, rest: Option<&[u8]>) -> Result<Option<Call>, HistoryKind>
    ensures { result ≡ line_of_parts number (parts_left rest.entry) }
{
    let Some(line) = rest else {
        return Err(HistoryKind::Line(Kind::Form));
    };
    let (word, args) = next_part(rest).ok_or(HistoryKind::Line(Kind::Form))?;
    if is_text(word, b"end") {
        return end_of_parts(number, args);
    }
    Ok(Some(call_of_parts(line)?))
}

/// A line after the first, by its limits, its form and its parts.
#[tactic(auto, unfolding(crate::specs::Reading::line_or_kind))]
fn line_or_kind(number: u32, bytes: &[u8], ended: bool) -> Result<Option<Call>, HistoryKind>
    ensures { result ≡ line_or_kind number (record { bytes = bytes.now; ended = ended }) }
{
    match checked_parts(number, bytes, ended) {
        Ok(rest) => line_of_parts(number, rest),
        Err(kind) => Err(HistoryKind::Line(kind)),
    }
}

/// The number from 1 to `most` that a part says.
#[tactic(auto, unfolding(crate::specs::Reading::size_up_to))]
fn size_up_to(most: u32, part: &[u8]) -> Option<u32>
    ensures { result ≡ size_up_to most part.now }
{
    let number = read_number(part)?;
    if 1 <= number && number <= most {
        Some(number)
    } else {
        None
    }
}

/// `OWNERS SLOTS`.
#[tactic(auto, unfolding(crate::specs::Reading::sizes_of))]
fn sizes_of(owners: &[u8], slots: &[u8]) -> Result<(u32, u32), Kind>
    ensures { result ≡ sizes_of owners.now slots.now }
{
    let owners = size_up_to(MAX_OWNERS, owners).ok_or(Kind::Number)?;
    let slots = size_up_to(MAX_SLOTS, slots).ok_or(Kind::Number)?;
    Ok((owners, slots))
}

/// `history OWNERS SLOTS`.
#[tactic(auto, unfolding(crate::specs::Reading::header_of_parts))]
fn header_of_parts(rest: Option<&[u8]>) -> Result<(u32, u32), Kind>
    ensures { result ≡ header_of_parts (parts_left rest.entry) }
{
    let (word, owners, slots) = three_parts(rest).ok_or(Kind::Header)?;
    if !is_text(word, b"history") {
        return Err(Kind::Header);
    }
    sizes_of(owners, slots)
}

/// The first line, by its limits, its form and its parts.
#[tactic(auto, unfolding(crate::specs::Reading::header_of_line))]
fn header_of_line(bytes: &[u8], ended: bool) -> Result<(u32, u32), Kind>
    ensures { result ≡ header_of_line (record { bytes = bytes.now; ended = ended }) }
{
    let rest = checked_parts(1, bytes, ended)?;
    header_of_parts(rest)
}

/// What is wrong with a line after the last one.
#[tactic(auto, unfolding(crate::specs::Reading::kind_after_end))]
fn kind_after_end(number: u32, bytes: &[u8], ended: bool) -> HistoryKind
    ensures { result ≡ kind_after_end number (record { bytes = bytes.now; ended = ended }) }
{
    if number > MAX_LINES {
        return HistoryKind::Line(Kind::Long);
    }
    if bytes.len() > MAX_LINE_BYTES {
        return HistoryKind::Line(Kind::Long);
    }
    if !ended {
        return HistoryKind::Line(Kind::Cut);
    }
    HistoryKind::Trailing
}

/// A fault is named with its line.
fn with_line<T>(number: u32, read: Result<T, HistoryKind>) -> Result<T, HistoryFault>
    ensures { result ≡ with_fault (fault_at number) read }
{
    match read {
        Ok(x) => Ok(x),
        Err(kind) => Err(HistoryFault { line: number, kind }),
    }
}

/// The line of this number, its fault named with the line.
pub fn line_or_fault(number: u32, bytes: &[u8], ended: bool) -> Result<Option<Call>, HistoryFault>
    ensures { result ≡ line_or_fault number (record { bytes = bytes.now; ended = ended }) }
{
    with_line(number, line_or_kind(number, bytes, ended))
}

/// The first line, its fault named with the line.
pub fn header_or_fault(bytes: &[u8], ended: bool) -> Result<(u32, u32), HistoryFault>
    ensures { result ≡ header_or_fault (record { bytes = bytes.now; ended = ended }) }
{
    with_line(1, of_line(header_of_line(bytes, ended)))
}

/// The fault of a line after the last one.
pub fn fault_after_end(number: u32, bytes: &[u8], ended: bool) -> HistoryFault
    ensures { result
        ≡ fault_at number (kind_after_end number (record { bytes = bytes.now; ended = ended })) }
{
    HistoryFault {
        line: number,
        kind: kind_after_end(number, bytes, ended),
    }
}
