//! The player for traces of commands alone, over any heap that collects by itself.

ghost use Rattle.std.specs.Prelude.{◌≡◌, false, []};
ghost use Rattle.rh_paced_trace.specs.Commanded.{CommandSteps, total_at};

use rh_core::{CommandHeap, Heap};
use rh_layout::{Command, OutOfMemory, Refusal, Reply};
use rh_pace::{CollectingHeap, PacedHeap};
use rh_syntax::Request;
use rh_trace::{Answer, Player, Summary, Trays};
use std::marker::Model;

/// A heap that collects by itself, and plays lines of commands alone. It has no trays.
///
/// Contracts see the heap.
#[derive(Drop)]
pub struct Commanded<H: CollectingHeap> {
    heap: H,
    trays: Trays<H::Memory>,
}

impl<H: CollectingHeap> Model for Commanded<H> {
    ghost Value = { H };

    ghost view = { λ s. s.heap };

    ghost invariant = { λ s. s.trays ≡ [] };
}

impl<H: CollectingHeap> Commanded<H> {
    /// The lines are played on this heap. No memory is taken from `alloc`.
    pub fn new(alloc: H::Memory, heap: H) -> Self
        ensures { result ≡ heap }
    {
        Commanded {
            heap,
            trays: Trays::new(alloc),
        }
    }
}

/// It is itself a heap that collects by itself, so that its cycles can be read.
impl<H: CollectingHeap> CommandHeap for Commanded<H> {
    ghost Given = { H.Given };

    ghost usual = { H.usual };

    ghost step = { H.step };

    fn answer(&mut self, owner: u32, command: &Command, insists: bool) -> Result<Reply, Refusal> {
        self.heap.answer(owner, command, insists)
    }
}

impl<H: CollectingHeap> CollectingHeap for Commanded<H> {
    type Memory = H::Memory;

    ghost paced = { H.paced };

    fn paced(&self) -> &PacedHeap<H::Memory> {
        self.heap.paced()
    }
}

impl<H: CollectingHeap> Player<H::Memory> for Commanded<H> {
    // Any request may be handed to it, but only a command is ever answered.
    ghost Plays = { λ request. Unit {0} };

    ghost Steps = { CommandSteps (H.step false) };

    ghost heap = { λ s. (H.paced s).heap };

    ghost trays = { λ s. [] };

    ghost total = { λ s counted. total_at (H.paced s) counted };

    #[inline(always)]
    fn command(&mut self, owner: u32, command: &Command) -> Result<Reply, Refusal> {
        self.heap.answer(owner, command, false)
    }

    fn other(
        &mut self,
        _alloc: H::Memory,
        _request: &Request,
    ) -> Result<Answer<H::Memory>, OutOfMemory> {
        // No line of a run comes here: each way refuses a trace in which some line is no command.
        Err(OutOfMemory)
    }

    fn heap(&self) -> &Heap<H::Memory> {
        self.heap.paced().heap()
    }

    fn trays(&self) -> &Trays<H::Memory> {
        &self.trays
    }

    fn total(&self, counted: Summary) -> Summary {
        let stat = self.heap.paced().stat();
        Summary {
            flips: stat.flips,
            root_words: stat.root_words,
            ..counted
        }
    }
}
