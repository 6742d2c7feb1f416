//! The cycles of a heap that collects by itself.

ghost use Rattle.std.specs.Prelude.{◌≡◌};
ghost use Rattle.rh_cycles.specs.Heaps.{after_step, before_flip as before_flip_of, cycles_kept, ends_with_flip as ends_with_flip_of, kept_in, new_cycles, read_call, used_at_flip as used_at_flip_of};

use crate::cycle::{Cycle, EntryCounts, sum};
use crate::kept::CyclesKept;
use crate::reader::CycleReader;
use rh_core::Stat;
use rh_pace::PacedHeap;
use std::alloc::Allocator;
use std::marker::Model;

/// Tells the cycles of a heap that collects by itself: one that is asked after each call tells each
/// cycle that ended at it.
///
/// Of a `GrowingHeap` it is asked with the heap that it grows: `cycles.after(heap.paced())`.
///
/// - A call counts as a line does in a trace, from 1.
/// - Of the entries of deals and gives nothing is known: a count of each class would be a cost in
///   the loop that holds them. So `entries` is `None`.
/// - A list of commands is one call: of a cycle that begins in it, `used` is what is used after the
///   list.
/// - A call that does an increment after its flip, or flips twice, tells none: so does `insist` of
///   an allocation for which it collected. A list of commands tells none that began in it and ended
///   at a later one of them. Each is counted, so the number of the next one shows it.
#[derive(Drop)]
pub struct Cycles {
    calls: u64,
    reader: CycleReader,
}

impl Model for Cycles {
    ghost use Rattle.rh_cycles.specs.Heaps.{CyclesState};

    ghost Value = { CyclesState };

    ghost view = { λ c. record { calls = c.calls; reader = c.reader } };
}

impl Cycles {
    /// For a heap as it stands. A cycle that is on isn't told, since its begin wasn't seen. It
    /// counts once it ended.
    pub fn new<A: Allocator + Copy>(heap: &PacedHeap<A>) -> Cycles
        ensures { result ≡ new_cycles heap.now }
    {
        Cycles {
            calls: 0,
            reader: CycleReader::new(&heap.stat()),
        }
    }

    /// The same as it was when it kept these numbers.
    pub fn of_kept(kept: CyclesKept) -> Cycles
        ensures { result ≡ cycles_kept kept }
    {
        Cycles {
            calls: kept.calls,
            reader: CycleReader::of(kept.ended, kept.last, kept.running),
        }
    }

    /// What it keeps from one call to the next.
    pub fn kept(&self) -> CyclesKept
        ensures { result ≡ kept_in self.now }
    {
        CyclesKept {
            calls: self.calls,
            ended: self.reader.ended(),
            last: self.reader.last(),
            running: self.reader.running(),
        }
    }

    /// Reads the heap after a call. Answers the cycle that ended at it, if one did whose begin was
    /// seen, if the call did that one flip and no increment after it.
    pub fn after<A: Allocator + Copy>(&mut self, heap: &PacedHeap<A>) -> Option<Cycle>
        ensures state { self.new ≡ (after_step self.old heap.now).0 }
        ensures told { result ≡ (after_step self.old heap.now).1 }
    {
        self.calls = sum(self.calls, 1);
        let told = self.read(heap);
        match told {
            Some(cycle) => Some(Cycle {
                entries: None,
                ..cycle
            }),
            None => None,
        }
    }

    /// Reads the heap after the call that was counted last.
    fn read<A: Allocator + Copy>(&mut self, heap: &PacedHeap<A>) -> Option<Cycle>
        ensures reader { self.new.reader
            ≡ (read_call self.old.calls self.old.reader heap.now).0 }
        ensures calls { self.new.calls ≡ self.old.calls }
        ensures told { result ≡ (read_call self.old.calls self.old.reader heap.now).1 }
    {
        let (stat, last) = (heap.stat(), self.reader.last());
        if last.flips == stat.flips {
            return self.reader.read(self.calls, &stat, EntryCounts::NONE);
        }
        if !ends_with_flip(&last, heap) {
            self.reader.skip(self.calls, &stat);
            return None;
        }
        let before = before_flip(&last, heap);
        let _ = self.reader.read(self.calls, &before, EntryCounts::NONE);
        self.reader.read(self.calls, &stat, EntryCounts::NONE)
    }
}

/// Whether a call did one flip, and this was the last that it did, in a cycle that was on before the
/// call or that the last increment began too.
fn ends_with_flip<A: Allocator + Copy>(last: &Stat, heap: &PacedHeap<A>) -> bool
    ensures { result ≡ ends_with_flip_of last.now heap.now }
{
    let (flips, did) = (heap.stat().flips, heap.last_did());
    did.flipped.is_some() && (last.cycle || did.began) && flips > 0 && last.flips == flips - 1
}

/// The heap's numbers just before the flip with which a call ended.
fn before_flip<A: Allocator + Copy>(last: &Stat, heap: &PacedHeap<A>) -> Stat
    ensures { result ≡ before_flip_of last.now heap.now }
{
    Stat {
        used: used_at_flip(last, heap),
        cycle: true,
        epoch: last.epoch,
        placed: heap.last_did().objects.into(),
        flips: last.flips,
        ..heap.stat()
    }
}

/// The words that were used just before it: those before the call, and those that were allocated at
/// the call in a cycle that was on.
fn used_at_flip<A: Allocator + Copy>(last: &Stat, heap: &PacedHeap<A>) -> u64
    ensures { result ≡ used_at_flip_of last.now heap.now }
{
    if !last.cycle {
        return last.used;
    }
    let granted = heap.heap().stat().granted.saturating_sub(last.granted);
    sum(last.used, granted / u64::from(heap.heap().config().ratio))
}
