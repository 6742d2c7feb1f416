//! A heap whose cycles are written as they end.

ghost use Rattle.std.specs.Prelude.{None};
ghost use Rattle.rh_cycles.specs.Heaps.{after_step};
ghost use Rattle.rh_lisp_run.specs.Cycling.{Writing, ended_lines, written_by};

use crate::cycle_writer::CycleWriter;
use rh_core::CommandHeap;
use rh_cycles::Cycles;
use rh_layout::{Command, Refusal, Reply};
use rh_pace::CollectingHeap;
use std::alloc::Allocator;
use std::io;

/// A heap that writes a line for each of its cycles as it ends.
#[derive(Drop)]
pub(crate) struct Cycling<H, A: Allocator, W: io::Write> {
    pub(crate) heap: H,
    pub(crate) cycles: Cycles,
    pub(crate) lines: CycleWriter<A, W>,
}

impl<H: CollectingHeap, A: Allocator + Copy, W: io::Write> CommandHeap for Cycling<H, A, W> {
    /// Beside what the heap is given: how a line is written.
    ghost Given = { H.Given × Writing };

    ghost usual = { (H.usual, record { cut = None; after = None }) };

    ghost step = { λ insists given c owner command.
        let done = H.step insists given.0 c.heap owner command in
        let told = after_step c.cycles (H.paced done.0) in (
          record c {
            heap = done.0;
            cycles = told.0;
            lines = written_by given.1 c.lines (ended_lines told.1);
          },
          done.1,
        ) };

    fn answer(&mut self, owner: u32, command: &Command, insists: bool) -> Result<Reply, Refusal> {
        let answer = self.heap.answer(owner, command, insists);
        let ended = self.cycles.after(self.heap.paced());
        self.lines.tell(ended);
        answer
    }
}
