//! Makes the text of an answer under `--echo` and `--json`, for `told.rt` to write.

ghost use Rattle.std.specs.Prelude.{◌≡◌, ◌++◌, OnOk};
ghost use Rattle.rh_core.specs.Heap.{HeapState};
ghost use Rattle.rh_core.specs.Stat.{stat_of};
ghost use Rattle.rh_dump.specs.texts.Line.{dump_text};
ghost use Rattle.rh_engine.specs.Trays.{Trays as TraysOf};
ghost use Rattle.rh_engine.specs.WatchAnswers.{gone_text};
ghost use Rattle.rh_trace.specs.Answering.{answered_of};
ghost use Rattle.rh_trace.specs.Answers as answers;
ghost use Rattle.rh_trace.specs.Answers.{answer_line, trays_text, with_line_end};
ghost use Rattle.rh_heap_dump.specs.HeapDump.{dump_of};
ghost use Rattle.rh_trace_views.specs.Cycles.{entries_of};
ghost use Rattle.rh_trace_views.specs.Views.{told_text};

use crate::buffer::put;
use crate::json::{put_json_stat, put_json_trays};
use rh_core::{Given, Heap};
use rh_cycles::EntryCounts;
use rh_dump::write_dump;
use rh_engine::{
    DealRefusal, GiveRefusal, TrayDeal, Trays, gone_line, put_abandon, put_begin, put_deal,
    put_flip, put_give, put_idle, put_join, put_recall, put_resize, put_shade, put_stat,
    put_tickets, put_tray, put_unwatch, put_watch,
};
use rh_layout::{OutOfMemory, Refusal, Reply};
use rh_syntax::put_answer_text;
use rh_text::LineText;
use rh_trace::{Answer, graph};
use std::alloc::Allocator;

/// Puts a line, with its line end.
pub(crate) fn put_line<A: Allocator>(
    told: &mut Vec<u8, A>,
    line: &LineText,
) -> Result<(), OutOfMemory>
    ensures { OnOk result (told.new.items ≡ told.old.items ++ with_line_end line.now) }
{
    put(told, line.as_bytes())?;
    put(told, b"\n")?;
    Ok(())
}

/// Puts the dump of what the heap's roots reach.
fn put_dump<A: Allocator + Copy>(
    alloc: A,
    heap: &Heap<A>,
    told: &mut Vec<u8, A>,
) -> Result<(), OutOfMemory>
    ensures { OnOk result (told.new.items
        ≡ told.old.items ++ dump_text (dump_of heap.now)) }
{
    let graph = graph(alloc, heap)?;
    match write_dump(&graph, told) {
        Ok(()) => Ok(()),
        // A write to memory fails where memory is refused.
        Err(_) => Err(OutOfMemory),
    }
}

/// Puts a line for each tray.
fn put_tray_lines<A: Allocator + Copy>(
    trays: &Trays<A>,
    told: &mut Vec<u8, A>,
) -> Result<(), OutOfMemory>
    ensures { OnOk result (told.new.items ≡ told.old.items ++ trays_text trays.now) }
{
    let mut line = LineText::new();
    for i in 0..trays.len() {
        if let Some(tray) = trays.tray(i) {
            put_tray(&mut line, tray.0, tray.1);
            put_line(told, &line)?;
        }
    }
    Ok(())
}

/// Puts what is told of the trays.
fn put_trays<A: Allocator + Copy>(
    alloc: A,
    trays: &Trays<A>,
    structured: bool,
    told: &mut Vec<u8, A>,
) -> Result<(), OutOfMemory>
    ensures { OnOk result (told.new.items
        ≡ told.old.items ++ told_text structured (answers.Listing trays.now)) }
{
    if structured {
        put_json_trays(alloc, told, trays)?;
        Ok(())
    } else {
        put_tray_lines(trays, told)?;
        Ok(())
    }
}

/// Puts what is told of the heap's numbers.
fn put_numbers<A: Allocator + Copy>(
    heap: &Heap<A>,
    structured: bool,
    told: &mut Vec<u8, A>,
) -> Result<(), OutOfMemory>
    ensures { OnOk result (told.new.items
        ≡ told.old.items ++ told_text structured (answers.Numbers (stat_of heap.now))) }
{
    let stat = heap.stat();
    if structured {
        put_json_stat(told, &stat)?;
        return Ok(());
    }
    let mut line = LineText::new();
    put_stat(&mut line, &stat);
    put_line(told, &line)?;
    Ok(())
}

/// Puts the line of tickets whose objects are gone.
fn put_gone_line<A: Allocator + Copy>(
    alloc: A,
    tickets: &[u32],
    told: &mut Vec<u8, A>,
) -> Result<(), OutOfMemory>
    ensures { OnOk result (told.new.items
        ≡ told.old.items ++ with_line_end (gone_text tickets.now)) }
{
    let line = gone_line(alloc, tickets)?;
    put(told, &line)
}

/// The entries of a deal that was answered so.
fn dealt_entries(answer: Result<TrayDeal, DealRefusal>) -> EntryCounts
    ensures { result ≡ entries_of (answers.Deal answer) }
{
    match answer {
        Ok(dealt) => EntryCounts::dealt(dealt.passed),
        Err(_) => EntryCounts::NONE,
    }
}

/// The entries of a give that was answered so.
fn given_entries(answer: Result<Given, GiveRefusal>) -> EntryCounts
    ensures { result ≡ entries_of (answers.Give answer) }
{
    match answer {
        Ok(given) => EntryCounts::given(given),
        Err(_) => EntryCounts::NONE,
    }
}

/// The entries of what was answered so.
pub(crate) fn entries_of<A: Allocator>(answer: &Answer<A>) -> EntryCounts
    ensures { (heap : HeapState) (trays : TraysOf)
        → result ≡ entries_of (answered_of heap trays answer.now) }
{
    match answer {
        Answer::Deal(answer) => dealt_entries(*answer),
        Answer::Give(answer) => given_entries(*answer),
        _ => EntryCounts::NONE,
    }
}

/// Puts the line of the answer to a command, which is made in `line`.
#[inline(always)]
pub(crate) fn put_answer<A: Allocator>(
    told: &mut Vec<u8, A>,
    line: &mut LineText,
    answer: Result<Reply, Refusal>,
) -> Result<(), OutOfMemory>
    ensures { OnOk result (told.new.items ≡ told.old.items ++ answer_line answer) }
{
    put_answer_text(line, answer);
    put_line(told, line)?;
    Ok(())
}

/// Puts what is told of what was answered by this heap and these trays. A line is made in `line`.
///
/// # Errors
///
/// `OutOfMemory` where memory for it was refused.
pub(crate) fn put_told<A: Allocator + Copy>(
    alloc: A,
    heap: &Heap<A>,
    trays: &Trays<A>,
    answer: &Answer<A>,
    structured: bool,
    line: &mut LineText,
    told: &mut Vec<u8, A>,
) -> Result<(), OutOfMemory>
    ensures { OnOk result (told.new.items ≡ told.old.items
        ++ told_text structured (answered_of heap.now trays.now answer.now)) }
{
    match answer {
        Answer::Command(answer) => return put_answer(told, line, *answer),
        Answer::Begin(answer) => put_begin(line, *answer),
        Answer::Shade(answer) => put_shade(line, *answer),
        Answer::Deal(answer) => put_deal(line, *answer),
        Answer::Give(answer) => put_give(line, *answer),
        Answer::Join(answer) => put_join(line, *answer),
        Answer::Flip(answer) => put_flip(line, *answer),
        Answer::Recall(answer) => put_recall(line, *answer),
        Answer::Abandon(answer) => put_abandon(line, *answer),
        Answer::Idle(answer) => put_idle(line, *answer),
        Answer::Resize(answer) => put_resize(line, *answer),
        Answer::Tickets(answer) => put_tickets(line, *answer),
        Answer::Watch(answer) => put_watch(line, *answer),
        Answer::Unwatch(watched) => put_unwatch(line, *watched),
        Answer::Gone(tickets) => return put_gone_line(alloc, tickets, told),
        Answer::Trays => return put_trays(alloc, trays, structured, told),
        Answer::Stat => return put_numbers(heap, structured, told),
        Answer::Dump => return put_dump(alloc, heap, told),
    }
    put_line(told, line)?;
    Ok(())
}
