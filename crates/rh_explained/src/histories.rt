//! Where a history fails.

ghost use Rattle.std.specs.Prelude.{◌≤◌, ◌+◌, length};
ghost use Rattle.rh_explained.specs.Line.{line_at};
ghost use Rattle.rh_explained.specs.Spot.{IsInLine};

use crate::lines::{count_parts, nth_line, number_at, part_at};
use crate::spot::{Spot, at_found, at_line, at_part};
use crate::told::Told;
use rh_explain::{Part, Why, fault_part, no_command_part};
use rh_layout::MAX_OWNERS;
use rh_replay::{HistoryFault, HistoryKind};
use rh_syntax::Kind;
use rh_text::{is_formed, is_text, next_part};

/// The spot of a history's fault that reading told.
pub fn history_spot<'a>(text: &'a [u8], fault: HistoryFault) -> Spot<'a>
    ensures { IsInLine fault.line (line_at fault.line text.now).bytes result }
{
    let number = fault.line;
    let (line, ended) = nth_line(text, number);
    let calls = number.saturating_sub(2);
    match fault.kind {
        HistoryKind::Trailing => at_line(number, line, Told::AfterEnd),
        HistoryKind::End => at_line(number, line, Told::NoEnd(calls)),
        HistoryKind::Count => at_part(number, line, 1, Told::Count(calls)),
        HistoryKind::Answer => answer_spot(number, line),
        HistoryKind::Line(Kind::Empty) => at_line(number, line, Told::NoHistory),
        HistoryKind::Line(kind) => line_spot(number, line, ended, kind),
    }
}

/// The spot of a fault that a line of a trace has too.
fn line_spot<'a>(number: u32, line: &'a [u8], ended: bool, kind: Kind) -> Spot<'a>
    ensures { IsInLine number line.now result }
{
    let is_by_bytes = matches!(kind, Kind::Long | Kind::Cut) || !is_formed(line);
    if is_by_bytes {
        return match fault_part(number, line, ended) {
            Some(part) => at_found(number, line, part, Told::Line(part.why)),
            None => at_line(number, line, Told::NoCall),
        };
    }
    if number == 1 {
        return header_spot(number, line, kind);
    }
    if is_text(part_at(line, 0), b"end") {
        return end_spot(number, line);
    }
    command_spot(number, line)
}

/// The spot of a first line whose parts are well formed.
fn header_spot<'a>(number: u32, line: &'a [u8], kind: Kind) -> Spot<'a>
    ensures { IsInLine number line.now result }
{
    if let Kind::Number = kind {
        let owners = number_at(line, 1);
        if 1 <= owners && owners <= MAX_OWNERS {
            return at_part(number, line, 2, Told::Slots);
        }
        return at_part(number, line, 1, Told::Owners);
    }
    let word = part_at(line, 0);
    if is_text(word, b"history") {
        return at_part(number, line, 3, Told::HistoryHeader);
    }
    if is_text(word, b"heap") {
        return at_part(number, line, 0, Told::Trace);
    }
    if is_text(word, b"rheap") {
        return at_part(number, line, 0, Told::Line(Why::Dump));
    }
    at_part(number, line, 0, Told::HistoryHeader)
}

/// The spot of a line `end` without one number.
fn end_spot<'a>(number: u32, line: &'a [u8]) -> Spot<'a>
    ensures { IsInLine number line.now result }
{
    let index = if count_parts(line, 3) == 3 { 2 } else { 1 };
    at_part(number, line, index, Told::EndForm(number.saturating_sub(2)))
}

/// The number of the first part that is `=`, from 0; it is the number of parts where none is.
fn equals_index(line: &[u8]) -> usize
    ensures { result ≤ length line.now + 1 }
{
    let mut rest = Some(line);
    for index in 0..=line.len() {
        let Some((part, after)) = next_part(rest) else {
            return index;
        };
        if is_text(part, b"=") {
            return index;
        }
        rest = after;
    }
    line.len() + 1
}

/// What is wrong with a part of a command before `=`, as it is told of a history after so many calls.
fn told_of(why: Why, calls: u32) -> Told {
    match why {
        Why::Missing(expected, row) => Told::CommandShort(expected, row),
        Why::Surplus => Told::CommandLong,
        Why::Unknown => Told::UnknownCall(calls),
        Why::UnknownOwned => Told::NoCall,
        why => Told::Line(why),
    }
}

/// What stands before a column, and before the space before that.
fn before(line: &[u8], column: usize) -> &[u8]
    ensures { length result.now ≤ length line.now }
{
    if column > line.len() || column == 0 {
        return line;
    }
    &line[..column - 1]
}

/// The faulty part of a command, in a line of which it is the beginning.
fn command_part(command: &[u8]) -> (Part, bool)
    ensures { (result.0.begins ≤ result.0.ends) × (result.0.ends ≤ length command.now) }
{
    match fault_part(2, command, true) {
        Some(part) => (part, true),
        None => (no_command_part(command), false),
    }
}

/// The spot of a call whose command fails.
fn command_spot<'a>(number: u32, line: &'a [u8]) -> Spot<'a>
    ensures { IsInLine number line.now result }
{
    let equals = equals_index(line);
    if equals == 0 {
        return at_part(number, line, 0, Told::NoCommand);
    }
    let (begins, _) = rh_explain::columns_of(line, equals);
    let is_there = begins < line.len();
    let command = if is_there { before(line, begins) } else { line };
    let (part, is_faulty) = command_part(command);
    let told = if is_faulty {
        told_of(part.why, number.saturating_sub(2))
    } else {
        Told::NoCall
    };
    at_found(number, line, part, told)
}

/// The spot of a call without an answer that a history may have.
fn answer_spot<'a>(number: u32, line: &'a [u8]) -> Spot<'a>
    ensures { IsInLine number line.now result }
{
    let equals = equals_index(line);
    let (begins, ends) = rh_explain::columns_of(line, equals);
    if begins >= line.len() {
        return at_part(number, line, equals, Told::NoAnswer);
    }
    let start = if ends < line.len() { ends + 1 } else { ends };
    let told = if is_refused_by_limit(&line[start..]) {
        Told::LimitRefused
    } else {
        Told::NotAnswer
    };
    Spot {
        number,
        line,
        begins: start,
        ends: line.len(),
        told,
    }
}

/// Whether an answer is a refusal by a limit.
fn is_refused_by_limit(answer: &[u8]) -> bool {
    if !is_text(part_at(answer, 0), b"refused") {
        return false;
    }
    let name = part_at(answer, 1);
    is_text(name, b"SpaceFull") || is_text(name, b"LogFull") || is_text(name, b"NumbersSpent")
}
