//! The report of `replay --echo` on a history, and the line of its first wrong call.

ghost use Rattle.std.specs.Prelude.{◌≡◌, ◌-◌, [], ◌∷◌, ◌++◌, IfOk, OnOk, slice_get};
ghost use Rattle.rh_syntax.specs.CommandAnswers.{answer_text};
ghost use Rattle.rh_trace_views.specs.Lines.{call_echo, call_echo_if, report_echo};

use crate::buffer::{put, put_part};
use rh_layout::{OutOfMemory, Refusal, Reply};
use rh_replay::{Call, History, Verdict, report};
use rh_syntax::{put_answer_text, put_command_text};
use rh_text::LineText;
use std::alloc::Allocator;

/// Puts an answer, and a line end.
fn put_answer<A: Allocator>(
    text: &mut Vec<u8, A>,
    answer: Result<Reply, Refusal>,
) -> Result<(), OutOfMemory>
    ensures { OnOk result (text.new.items
        ≡ text.old.items ++ (answer_text answer ++ 10 ∷ [])) }
{
    let mut part = LineText::new();
    put_answer_text(&mut part, answer);
    put(text, part.as_bytes())?;
    put(text, b"\n")?;
    Ok(())
}

/// Puts the line of a call: its number in the history's text, its command, and its answer, with
/// tabs between.
fn put_call<A: Allocator>(text: &mut Vec<u8, A>, line: u64, call: &Call) -> Result<(), OutOfMemory>
    ensures { OnOk result (text.new.items ≡ text.old.items ++ call_echo line call.now) }
{
    let mut part = LineText::new();
    put_command_text(&mut part, call.owner, &call.command);
    put_part(text, b"", line)?;
    put(text, b"\t")?;
    put(text, part.as_bytes())?;
    put(text, b"\t")?;
    put_answer(text, call.answer)?;
    Ok(())
}

/// Puts the line of the call that is counted so, if there is one.
fn put_call_if<A: Allocator>(
    text: &mut Vec<u8, A>,
    at: u32,
    calls: &[Call],
) -> Result<(), OutOfMemory>
    ensures { OnOk result (text.new.items
        ≡ text.old.items ++ call_echo_if at (slice_get calls.now (at - 1))) }
{
    match calls.get((at as usize).saturating_sub(1)) {
        Some(call) => {
            put_call(text, u64::from(at) + 1, call)?;
            Ok(())
        }
        None => Ok(()),
    }
}

/// The report on a history that has this verdict, and of a wrong one the line of the call: its
/// number in the history's text, its command, and the answer that the history says, with tabs
/// between.
///
/// # Errors
///
/// `OutOfMemory` where memory for it was refused.
pub fn report_echo<A: Allocator + Copy, B: Allocator>(
    alloc: A,
    history: &History<B>,
    verdict: &Verdict,
) -> Result<Vec<u8, A>, OutOfMemory>
    ensures { IfOk result (λ text. text.items
        ≡ report_echo history.now.contents verdict.now) }
{
    let mut text = Vec::new(alloc);
    match report(history, verdict, &mut text) {
        Ok(()) => {}
        // A write to memory fails where memory is refused.
        Err(_) => return Err(OutOfMemory),
    }
    match *verdict {
        Verdict::Legal(_) => Ok(text),
        Verdict::Wrong { at, .. } => {
            put_call_if(&mut text, at, history.calls())?;
            Ok(text)
        }
    }
}
