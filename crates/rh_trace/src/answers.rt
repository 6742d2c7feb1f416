//! The listener that writes each answer, and the line at the end: what `rheap run` prints.

ghost use Rattle.std.specs.Prelude.{◌≡◌, ◌≤◌, ◌++◌, ◌∷◌, [], false, length, IsErrOf};
ghost use Rattle.rh_text.specs.IoLog.{AreSpent, AreSpentSince, CountsDown, MadeSince};
ghost use Rattle.rh_core.specs.Stat.{stat_of};
ghost use Rattle.rh_dump.specs.texts.Line.{dump_text};
ghost use Rattle.rh_engine.specs.CycleAnswers.{stat_text};
ghost use Rattle.rh_engine.specs.WatchAnswers.{gone_text};
ghost use Rattle.rh_trace.specs.Answering.{answered_of};
ghost use Rattle.rh_trace.specs.Answers.{answer_line, answered_text, is_answer, total_line, trays_text, with_line_end};
ghost use Rattle.rh_heap_dump.specs.HeapDump.{dump_of};
ghost use Rattle.rh_trace.specs.Run.{Writes};

use crate::answer::Answer;
use crate::listener::Listener;
use crate::player::Player;
use crate::stop::Stop;
use crate::summary::Summary;
use rh_core::Heap;
use rh_dump::write_dump_logged;
use rh_engine::{
    Trays, gone_line, put_abandon, put_begin, put_deal, put_flip, put_give, put_idle, put_join,
    put_recall, put_resize, put_shade, put_stat, put_tickets, put_tray, put_unwatch, put_watch,
};
use rh_heap_dump::graph;
use rh_layout::limits::MAX_CALLS;
use rh_layout::{Refusal, Reply};
use rh_syntax::{Header, Request, send_answer};
use rh_text::{IoLog, LineText, Write, send};
use std::alloc::Allocator;
use std::io;

/// Writes the dump of what the heap's roots reach.
fn write_heap_dump<A: Allocator + Copy, W: io::Write>(
    alloc: A,
    heap: &Heap<A>,
    writer: &mut W,
    writes: &mut IoLog,
) -> Result<(), Stop>
    requires { writes.old.failed ≡ false }
    ensures written { Writes (dump_text (dump_of heap.now)) result (W.contents writer.old)
        (W.contents writer.new) }
    ensures failed { IsErrOf result Stop.Write → AreSpent writes.new }
    ensures none_failed { ¬ IsErrOf result Stop.Write → writes.new.failed ≡ false }
    ensures spent { IsErrOf result Stop.Write → AreSpentSince writes.old writes.new }
    ensures counted { MadeSince 0 writes.old writes.new }
{
    let graph = graph(alloc, heap)?;
    write_dump_logged(&graph, writer, writes)?;
    Ok(())
}

/// Ends a line, and writes it in one write.
#[inline(always)]
fn write_line<W: io::Write>(
    text: &mut LineText,
    writer: &mut W,
    writes: &mut IoLog,
) -> Result<(), Stop>
    requires room { length text.old ≤ 255 }
    requires none_failed { writes.old.failed ≡ false }
    ensures written { Writes (with_line_end text.old) result (W.contents writer.old)
        (W.contents writer.new) }
    ensures failed { IsErrOf result Stop.Write → AreSpent writes.new }
    ensures none_failed { ¬ IsErrOf result Stop.Write → writes.new.failed ≡ false }
    ensures counted { CountsDown MAX_CALLS writes.old writes.new }
{
    text.put(b"\n");
    send(writer, writes, text.as_bytes())?;
    Ok(())
}

/// Writes a line for each tray.
fn write_trays<A: Allocator + Copy, W: io::Write>(
    trays: &Trays<A>,
    text: &mut LineText,
    writer: &mut W,
    writes: &mut IoLog,
) -> Result<(), Stop>
    requires { writes.old.failed ≡ false }
    ensures written { Writes (trays_text trays.now) result (W.contents writer.old)
        (W.contents writer.new) }
    ensures failed { IsErrOf result Stop.Write → AreSpent writes.new }
    ensures none_failed { ¬ IsErrOf result Stop.Write → writes.new.failed ≡ false }
    ensures spent { IsErrOf result Stop.Write → AreSpentSince writes.old writes.new }
    ensures counted { MadeSince 0 writes.old writes.new }
{
    for i in 0..trays.len() {
        if let Some(tray) = trays.tray(i) {
            put_tray(text, tray.0, tray.1);
            write_line(text, writer, writes)?;
        }
    }
    Ok(())
}

/// Writes the line of tickets whose objects are gone, in one write.
fn write_gone<A: Allocator + Copy, W: io::Write>(
    alloc: A,
    tickets: &[u32],
    writer: &mut W,
    writes: &mut IoLog,
) -> Result<(), Stop>
    requires { writes.old.failed ≡ false }
    ensures written { Writes (with_line_end (gone_text tickets.now)) result
        (W.contents writer.old) (W.contents writer.new) }
    ensures failed { IsErrOf result Stop.Write → AreSpent writes.new }
    ensures none_failed { ¬ IsErrOf result Stop.Write → writes.new.failed ≡ false }
    ensures spent { IsErrOf result Stop.Write → AreSpentSince writes.old writes.new }
    ensures counted { MadeSince 0 writes.old writes.new }
{
    let line = gone_line(alloc, tickets)?;
    send(writer, writes, &line)?;
    Ok(())
}

/// Writes the line of an answer in one write.
#[inline(always)]
fn write_answer<W: io::Write>(
    answer: Result<Reply, Refusal>,
    text: &mut LineText,
    writer: &mut W,
    writes: &mut IoLog,
) -> Result<(), Stop>
    requires { writes.old.failed ≡ false }
    ensures written { Writes (answer_line answer) result (W.contents writer.old)
        (W.contents writer.new) }
    ensures failed { IsErrOf result Stop.Write → AreSpent writes.new }
    ensures none_failed { ¬ IsErrOf result Stop.Write → writes.new.failed ≡ false }
    ensures memory { ¬ IsErrOf result Stop.OutOfMemory }
    ensures counted { CountsDown MAX_CALLS writes.old writes.new }
{
    send_answer(answer, text, writer, writes)?;
    Ok(())
}

/// The text becomes that of a heap's numbers.
fn put_numbers<A: Allocator + Copy>(heap: &Heap<A>, text: &mut LineText)
    ensures value { text.new ≡ stat_text (stat_of heap.now) }
    ensures len { length text.new ≤ 245 }
{
    put_stat(text, &heap.stat());
}

/// Writes what was answered by this heap and these trays: one line in each write that the writer
/// takes whole. The text is used for that line.
///
/// # Errors
///
/// `Write` where a write failed, or 33,554,432 writes of one line, or of a part of a dump's, didn't
/// come to its end. `OutOfMemory` where the allocator refused memory, for a dump or the line of a
/// `gone`. A prefix of the answer may be written then, and not all.
#[inline(always)]
pub(crate) fn write_answered<A: Allocator + Copy, W: io::Write>(
    alloc: A,
    heap: &Heap<A>,
    trays: &Trays<A>,
    answer: &Answer<A>,
    text: &mut LineText,
    writer: &mut W,
    writes: &mut IoLog,
) -> Result<(), Stop>
    requires { writes.old.failed ≡ false }
    ensures written { Writes (answered_text (answered_of heap.now trays.now answer.now)) result
        (W.contents writer.old) (W.contents writer.new) }
    ensures memory { IsErrOf result Stop.OutOfMemory
        → is_answer (answered_of heap.now trays.now answer.now) ≡ false }
    ensures failed { IsErrOf result Stop.Write → AreSpent writes.new }
    ensures none_failed { ¬ IsErrOf result Stop.Write → writes.new.failed ≡ false }
    ensures spent { IsErrOf result Stop.Write → AreSpentSince writes.old writes.new }
    ensures counted { MadeSince 0 writes.old writes.new }
{
    match answer {
        Answer::Command(answer) => return write_answer(*answer, text, writer, writes),
        Answer::Begin(answer) => put_begin(text, *answer),
        Answer::Shade(answer) => put_shade(text, *answer),
        Answer::Deal(answer) => put_deal(text, *answer),
        Answer::Give(answer) => put_give(text, *answer),
        Answer::Join(answer) => put_join(text, *answer),
        Answer::Flip(answer) => put_flip(text, *answer),
        Answer::Recall(answer) => put_recall(text, *answer),
        Answer::Abandon(answer) => put_abandon(text, *answer),
        Answer::Idle(answer) => put_idle(text, *answer),
        Answer::Resize(answer) => put_resize(text, *answer),
        Answer::Tickets(answer) => put_tickets(text, *answer),
        Answer::Watch(answer) => put_watch(text, *answer),
        Answer::Unwatch(watched) => put_unwatch(text, *watched),
        Answer::Gone(tickets) => return write_gone(alloc, tickets, writer, writes),
        Answer::Trays => return write_trays(trays, text, writer, writes),
        Answer::Stat => put_numbers(heap, text),
        Answer::Dump => return write_heap_dump(alloc, heap, writer, writes),
    }
    write_line(text, writer, writes)
}

/// Writes the answer to each line, and then the total line.
#[derive(Drop)]
pub struct Answers<A: Allocator> {
    alloc: A,
    /// The text of a line.
    text: LineText,
}

impl<A: Allocator + Copy> Answers<A> {
    /// The line of a `gone` and the graph of a dump take their memory from `alloc`.
    pub fn new(alloc: A) -> Self {
        Answers {
            alloc,
            text: LineText::new(),
        }
    }
}

impl<A: Allocator + Copy, P: Player<A>, W: io::Write> Listener<A, P, W> for Answers<A> {
    ghost Writer = { Unit {0} };

    ghost State = { Unit {0} };

    ghost state = { λ answers. tt };

    ghost contents = { λ out w. W.contents out };

    ghost lead = { tt };

    ghost NeedsMemory = { ⊥ };

    ghost HasRoom = { λ answers n. Unit {0} };

    ghost opening = { λ w. [] };

    ghost begun = { λ s header player. s };

    ghost next = { λ s one. s };

    ghost show = { λ s one w. answered_text one.answered };

    ghost closing = { λ s summary w. total_line summary };

    fn begin(
        &mut self,
        _header: Header,
        _lines: usize,
        _player: &P,
        _out: &mut W,
        _writes: &mut IoLog,
    ) -> Result<(), Stop> {
        Ok(())
    }

    #[inline(always)]
    fn command(
        &mut self,
        _player: &P,
        _line: u64,
        _request: &Request,
        answer: Result<Reply, Refusal>,
        out: &mut W,
        writes: &mut IoLog,
    ) -> Result<(), Stop> {
        write_answer(answer, &mut self.text, out, writes)
    }

    #[inline(always)]
    fn line(
        &mut self,
        player: &P,
        _line: u64,
        _request: &Request,
        answer: &Answer<A>,
        out: &mut W,
        writes: &mut IoLog,
    ) -> Result<(), Stop> {
        let text = &mut self.text;
        write_answered(
            self.alloc,
            player.heap(),
            player.trays(),
            answer,
            text,
            out,
            writes,
        )
    }

    fn end(&mut self, summary: &Summary, out: &mut W, writes: &mut IoLog) -> Result<(), Write> {
        put_total(&mut self.text, summary);
        send(out, writes, self.text.as_bytes())
    }
}

/// The text becomes the line that ends the answers.
pub fn put_total(text: &mut LineText, summary: &Summary)
    ensures { text.new ≡ total_line summary.now }
{
    text.clear();
    text.put_part(b"total commands ", summary.commands);
    text.put_part(b" refused ", summary.refused);
    text.put_part(b" flips ", summary.flips);
    text.put_part(b" rootwords ", summary.root_words);
    text.put(b"\n");
}
