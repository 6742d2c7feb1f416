//! A history read from its text.

ghost use Rattle.std.specs.Prelude.{◌≡◌, IfOk, OnOk, Ok, Err, IfErr, []};
ghost use Rattle.rh_text.specs.RawLine.{lines_of};
ghost use Rattle.rh_replay.specs.History.{HistoryState};
ghost use Rattle.rh_replay.specs.Reading.{Gives, end_from, calls_from, history_of};
ghost use Rattle.rh_replay.specs.Spelling.{IsReadable, spelling};

use crate::call::Call;
use crate::fault::{HistoryError, HistoryFault, HistoryKind};
use crate::history::History;
use crate::reading::{fault_after_end, header_or_fault, line_or_fault};
use rh_syntax::Kind;
use rh_text::first_line;
use std::alloc::Allocator;

/// Nothing follows the last line; the line after it has this number.
#[tactic(auto, unfolding(crate::specs::Reading::end_from))]
fn end_of_text(number: u32, rest: &[u8]) -> Result<(), HistoryFault>
    ensures end { OnOk result (end_from number (lines_of rest.now) ≡ Ok []) }
    ensures fault { IfErr result (λ f. end_from number (lines_of rest.now) ≡ Err f) }
{
    if rest.is_empty() {
        return Ok(());
    }
    let (line, ended, _after) = first_line(rest);
    Err(fault_after_end(number, line, ended))
}

/// The calls of the lines after the first, whose numbers begin at 2.
fn later_calls<A: Allocator + Copy>(alloc: A, bytes: &[u8]) -> Result<Vec<Call, A>, HistoryError>
    ensures { Gives (λ v. v.items) result (calls_from 2 (lines_of bytes.now)) }
{
    let mut calls = Vec::new(alloc);
    let mut number = 2;
    let mut rest = bytes;
    while !rest.is_empty() {
        let (line, ended, after) = first_line(rest);
        match line_or_fault(number, line, ended)? {
            Some(call) => calls.push(call)?,
            None => {
                end_of_text(number + 1, after)?;
                return Ok(calls);
            }
        }
        number += 1;
        rest = after;
    }
    let fault = HistoryFault {
        line: number,
        kind: HistoryKind::End,
    };
    Err(HistoryError::Fault(fault))
}

/// The history that a text spells, or its first fault.
#[tactic(auto, unfolding(crate::specs::Reading::history_or_fault))]
fn history_in<A: Allocator + Copy>(alloc: A, bytes: &[u8]) -> Result<History<A>, HistoryError>
    ensures { Gives (λ h. h.contents) result (history_of bytes.now) }
{
    if bytes.is_empty() {
        let fault = HistoryFault {
            line: 1,
            kind: HistoryKind::Line(Kind::Empty),
        };
        return Err(HistoryError::Fault(fault));
    }
    let (line, ended, rest) = first_line(bytes);
    let (owners, slots) = header_or_fault(line, ended)?;
    let calls = later_calls(alloc, rest)?;
    Ok(History::of_calls(owners, slots, calls))
}

/// Reads a history from its text, whose bytes it takes whole: `history OWNERS SLOTS`, a line
/// `COMMAND LINE = ANSWER` for each call, and `end N` with the number of calls.
///
/// # Errors
///
/// `Fault` where the text is no history: it names the first faulty line and what is wrong with it.
/// `OutOfMemory` where the allocator refused memory for the calls.
pub fn read_history<A: Allocator + Copy>(alloc: A, bytes: &[u8]) -> Result<History<A>, HistoryError>
    // What is found is spelled so.
    ensures found { IfOk result (λ h. IsReadable h.contents × (bytes.now ≡ spelling h.contents)) }
    // What is spelled so is read, unless memory runs out.
    ensures only { (h : HistoryState) → IsReadable h → bytes.now ≡ spelling h
        → Gives (λ x. x.contents) result (Ok h) }
    // Which fault it is.
    ensures exact { Gives (λ h. h.contents) result (history_of bytes.now) }
{
    history_in(alloc, bytes)
}
