//! How the listener for `--cycles` reads the cycles of what lines are played on.

ghost use Rattle.std.specs.Prelude.{◌≡◌, ℕ, Option};
ghost use Rattle.rh_core.specs.Stat.{stat_of};
ghost use Rattle.rh_cycles.specs.declared.cycle.Cycle.{Cycle as CycleOf};
ghost use Rattle.rh_cycles.specs.declared.cycle.EntryCounts.{EntryCounts as EntryCountsOf};
ghost use Rattle.rh_cycles.specs.Cycles.{new_reader, read_step};
ghost use Rattle.rh_cycles.specs.Heaps.{after_step};
ghost use Rattle.rh_trace_views.specs.Cycles.{first_read, reading_after};

use rh_cycles::{Cycle, CycleReader, Cycles, EntryCounts};
use rh_engine::Engine;
use rh_pace::CollectingHeap;
use std::alloc::Allocator;

/// What reads the cycles of a player: an engine of traces, or a heap that collects by itself.
pub trait CycleReading<P> {
    /// The reader of a new player, once it read line 1, which made the heap.
    ghost first: { P → Self };

    /// The reader once it read the player after a line, with the entries of its deal or give, and
    /// the cycle that ended at the line.
    ghost read: { P → Self → ℕ → EntryCountsOf → Self × Option CycleOf };

    /// Reads a new player, after line 1, which made the heap.
    fn first(player: &P) -> Self
        ensures { result ≡ first player.now };

    /// Reads the player after a line, with the entries of its deal or give, and tells the cycle that
    /// ended at the line, if one did.
    fn read(&mut self, player: &P, line: u64, entries: EntryCounts) -> Option<Cycle>
        ensures state { self.new ≡ (read player.now self.old line entries).0 }
        ensures told { result ≡ (read player.now self.old line entries).1 };
}

impl<A: Allocator + Copy> CycleReading<Engine<A>> for CycleReader {
    ghost first = { λ s. new_reader (stat_of s.heap) };

    ghost read = { λ s reader line entries. read_step reader (reading_after s line entries) };

    fn first(player: &Engine<A>) -> CycleReader {
        CycleReader::new(&player.heap().stat())
    }

    fn read(&mut self, player: &Engine<A>, line: u64, entries: EntryCounts) -> Option<Cycle> {
        CycleReader::read(self, line, &player.heap().stat(), entries)
    }
}

impl<P: CollectingHeap> CycleReading<P> for Cycles {
    ghost first = { λ s. first_read (P.paced s) };

    ghost read = { λ s reader line entries. after_step reader (P.paced s) };

    fn first(player: &P) -> Cycles {
        let heap = player.paced();
        let mut cycles = Cycles::new(heap);
        // So a call is a line.
        let _ = cycles.after(heap);
        cycles
    }

    fn read(&mut self, player: &P, _line: u64, _entries: EntryCounts) -> Option<Cycle> {
        self.after(player.paced())
    }
}
