//! The listener for `--cycles`: it writes a line for each cycle that ended.

ghost use Rattle.std.specs.Prelude.{◌≡◌, [], Option, None, Some, IsErrOf, false};
ghost use Rattle.rh_cycles.specs.Cycles.{told_cycles};
ghost use Rattle.rh_cycles.specs.Line.{cycles_header};
ghost use Rattle.rh_text.specs.IoLog.{AreSpent, AreSpentSince, MadeSince};
ghost use Rattle.rh_trace.specs.Lines.{Shows};
ghost use Rattle.rh_trace_views.specs.Cycles.{cycle_lines, entries_of};
ghost use Rattle.rh_trace_views.specs.Listening.{cycle_shown, reader_after};

use crate::answering::entries_of;
use crate::cycle_reading::CycleReading;
use rh_cycles::{Cycle, EntryCounts, HEADER, put_cycle};
use rh_layout::{Refusal, Reply};
use rh_syntax::{Header, Request};
use rh_text::{IoLog, Write, send};
use rh_trace::{Answer, Listener, Player, Stop, Summary};
use std::alloc::Allocator;
use std::io;

/// Writes the names of the columns, and a line for each cycle as it ends. `R` reads the cycles.
#[derive(Drop)]
pub struct CycleLines<R, A: Allocator> {
    /// None before the first line.
    reader: Option<R>,
    /// The line of a cycle.
    text: Vec<u8, A>,
}

impl<R, A: Allocator + Copy> CycleLines<R, A> {
    /// No line was played yet. The line of a cycle is put together in memory of `alloc`.
    pub fn new(alloc: A) -> Self
        ensures { result.reader ≡ None }
    {
        CycleLines {
            reader: None,
            text: Vec::new(alloc),
        }
    }
}

/// Writes the line of a cycle, if one ended.
#[inline(always)]
fn send_cycle<A: Allocator + Copy, C: io::Write>(
    text: &mut Vec<u8, A>,
    ended: Option<Cycle>,
    cycles: &mut C,
    writes: &mut IoLog,
) -> Result<(), Stop>
    requires none_failed { writes.old.failed ≡ false }
    ensures shown { Shows (cycle_lines (told_cycles ended)) result
        (C.contents cycles.old) (C.contents cycles.new) }
    ensures failed { IsErrOf result Stop.Write → AreSpent writes.new }
    ensures none_failed { ¬ IsErrOf result Stop.Write → writes.new.failed ≡ false }
    ensures spent { IsErrOf result Stop.Write → AreSpentSince writes.old writes.new }
    ensures counted { MadeSince 0 writes.old writes.new }
{
    match ended {
        Some(cycle) => {
            text.clear();
            put_cycle(text, &cycle)?;
            send(cycles, writes, text)?;
            Ok(())
        }
        None => Ok(()),
    }
}

impl<A: Allocator + Copy, P: Player<A>, R: CycleReading<P> + Drop, C: io::Write> Listener<A, P, C>
    for CycleLines<R, A> {
    ghost Writer = { Unit {0} };

    ghost State = { Option R };

    ghost state = { λ it. it.reader };

    ghost contents = { λ out w. C.contents out };

    ghost lead = { tt };

    ghost NeedsMemory = { Unit {0} };

    ghost HasRoom = { λ it n. Unit {0} };

    ghost opening = { λ w. cycles_header };

    ghost begun = { λ s header player. Some (R.first player) };

    ghost next = { λ s one. reader_after R.read s one };

    ghost show = { λ s one w. cycle_shown R.read s one };

    ghost closing = { λ s summary w. [] };

    fn begin(
        &mut self,
        _header: Header,
        _lines: usize,
        player: &P,
        out: &mut C,
        writes: &mut IoLog,
    ) -> Result<(), Stop> {
        self.reader = Some(R::first(player));
        send(out, writes, HEADER)?;
        Ok(())
    }

    #[inline(always)]
    fn command(
        &mut self,
        player: &P,
        line: u64,
        _request: &Request,
        _answer: Result<Reply, Refusal>,
        out: &mut C,
        writes: &mut IoLog,
    ) -> Result<(), Stop> {
        match &mut self.reader {
            Some(reader) => {
                let ended = reader.read(player, line, EntryCounts::NONE);
                send_cycle(&mut self.text, ended, out, writes)
            }
            None => Ok(()),
        }
    }

    fn line(
        &mut self,
        player: &P,
        line: u64,
        _request: &Request,
        answer: &Answer<A>,
        out: &mut C,
        writes: &mut IoLog,
    ) -> Result<(), Stop> {
        match &mut self.reader {
            Some(reader) => {
                let ended = reader.read(player, line, entries_of(answer));
                send_cycle(&mut self.text, ended, out, writes)
            }
            None => Ok(()),
        }
    }

    fn end(&mut self, _summary: &Summary, _out: &mut C, _writes: &mut IoLog) -> Result<(), Write> {
        Ok(())
    }
}
