//! The heap of a session, and the cycles that ended on it.

ghost use Rattle.std.specs.Prelude.{◌≡◌, ◌+◌, ◌<◌, ◌≤◌, ◌^◌, false, IsErrOf, OnOk};
ghost use Rattle.rh_text.specs.IoLog.{AreSpent, AreSpentSince, MadeSince};
ghost use Rattle.rh_shell.specs.Session.{answered_step, new_playing, read_after, WritesSome};
ghost use Rattle.rh_trace.specs.Answers.{answered_text};
ghost use Rattle.rh_trace.specs.Run.{request_step, summary_with};

use rh_core::Heap;
use rh_cycles::{Cycle, CycleReader, EntryCounts, put_cycle};
use rh_layout::OutOfMemory;
use rh_text::{IoLog, LineText};
use rh_trace::{Engine, Request, Stop, Summary, play_request};
use std::alloc::Allocator;
use std::io;
use std::marker::Model;

/// The heap of a session, once its line was taken, and the cycles that ended on it.
#[derive(Drop)]
pub(crate) struct Playing<A: Allocator + Copy> {
    /// The heap and the trays.
    pub engine: Engine<A>,
    /// Reads the heap's numbers after each line that was taken.
    pub reader: CycleReader,
    /// The lines of the cycles that ended.
    pub told: Vec<u8, A>,
}

impl<A: Allocator + Copy> Model for Playing<A> {
    ghost use Rattle.rh_shell.specs.Session.{PlayingState};

    ghost Value = { PlayingState };

    ghost view = { λ p. record { engine = p.engine; reader = p.reader; told = p.told.items } };
}

impl<A: Allocator + Copy> Playing<A> {
    /// A heap before the first line after its own.
    pub fn new(alloc: A, heap: Heap<A>) -> Self
        ensures { result ≡ new_playing heap }
    {
        let reader = CycleReader::new(&heap.stat());
        Playing {
            engine: Engine::new(alloc, heap),
            reader,
            told: Vec::new(alloc),
        }
    }

    /// Reads the heap's numbers after the line of this number, and keeps the line of the cycle that
    /// ended at it.
    fn read(&mut self, number: u32) -> Result<(), OutOfMemory>
        ensures { OnOk result (self.new ≡ read_after self.old number) }
    {
        let stat = self.engine.heap().stat();
        match self.reader.read(number.into(), &stat, EntryCounts::NONE) {
            None => Ok(()),
            Some(cycle) => {
                let cycle = Cycle {
                    entries: None,
                    ..cycle
                };
                put_cycle(&mut self.told, &cycle)
            }
        }
    }

    /// Answers a request, the line of this number, counts it, and reads the heap's numbers after it.
    pub fn answer<W: io::Write>(
        &mut self,
        alloc: A,
        request: &Request,
        number: u32,
        summary: &mut Summary,
        writer: &mut W,
        writes: &mut IoLog,
    ) -> Result<(), Stop>
        requires none_failed { writes.old.failed ≡ false }
        requires few_commands { summary.old.commands < 2 ^ 63 }
        requires few_refused { summary.old.refused < 2 ^ 63 }
        requires few_flips { summary.old.flips < 2 ^ 63 }
        requires few_root_words { summary.old.root_words < 2 ^ 127 }
        ensures state { OnOk result (self.new ≡ answered_step self.old number request.now) }
        ensures summary { OnOk result (summary.new
            ≡ summary_with summary.old (request_step self.old.engine request.now).1) }
        ensures few_roots { summary.new.root_words ≤ summary.old.root_words + 2 ^ 32 }
        ensures written { WritesSome (answered_text (request_step self.old.engine request.now).1)
            result (W.contents writer.old) (W.contents writer.new) }
        ensures none_failed { ¬ IsErrOf result Stop.Write → writes.new.failed ≡ false }
        ensures failed { IsErrOf result Stop.Write → AreSpent writes.new }
        ensures spent { IsErrOf result Stop.Write → AreSpentSince writes.old writes.new }
        ensures made { MadeSince 0 writes.old writes.new }
    {
        let mut text = LineText::new();
        let played = play_request(
            alloc,
            &mut self.engine,
            request,
            &mut text,
            summary,
            writer,
            writes,
        );
        if let Err(stop) = played {
            return Err(stop);
        }
        match self.read(number) {
            Ok(()) => Ok(()),
            Err(OutOfMemory) => Err(Stop::OutOfMemory),
        }
    }
}
