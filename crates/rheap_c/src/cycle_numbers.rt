//! The cycles of a heap as they cross to C, and the reader that a program keeps of them.

ghost use Rattle.std.specs.Prelude.{◌≡◌};
ghost use Rattle.rheap_c.specs.Cycles.{cycle_numbers, cycle_read, is_flipped, kept_of, reader_of, running_kept, stat_told};

use crate::numbers::{RheapStats, bit, stats_crossing};
use rh_core::Stat;
use rh_cycles::{Cycle, CycleEnd, Cycles, CyclesKept, EntryCounts, Running};
use rh_pace::PacedHeap;
use std::alloc::Global;

/// What a program keeps of a heap's cycles from one reading to the next. All of it is 0 before the
/// first.
#[repr(C)]
#[derive(Clone, Copy)]
pub struct RheapCycleReader {
    /// The readings that were made after the first.
    pub reads: u64,
    /// The cycles that ended since then.
    pub ended: u64,
    /// The heap's numbers at the last reading.
    pub last: RheapStats,
    /// Of the cycle that is on: the epoch at its begin.
    pub epoch: u64,
    /// The reading at which it began.
    pub began: u64,
    /// The words that were used then.
    pub used: u64,
    /// The number of the last store before it.
    pub number: u64,
    /// The most units that were spent in it from one reading to the next.
    pub most: u64,
    /// 1 where a cycle is on whose begin was read, and else 0.
    pub running: u8,
    /// 1 from the first reading on.
    pub begun: u8,
}

/// The numbers of a cycle that ended: `Cycle` in the library. All of it is 0 where none did.
#[repr(C)]
#[derive(Clone, Copy)]
pub struct RheapEndedCycle {
    /// Which one it is of those that ended since the first reading, counted from 1.
    pub number: u64,
    /// The epoch at its begin.
    pub epoch: u64,
    /// The reading at which it began.
    pub began: u64,
    /// The reading at which it ended.
    pub ended: u64,
    /// The words that were used when it began.
    pub used: u64,
    /// The words that are used once it ended.
    pub live: u64,
    /// The words that its flip freed.
    pub freed: u64,
    /// The objects that its flip kept.
    pub objects: u64,
    /// The units that words allocated in it granted.
    pub granted: u64,
    /// The units that stores paid in it or a collection added.
    pub idle: u64,
    /// The units that were spent in it.
    pub spent: u64,
    /// The most units that were spent in it from one reading to the next.
    pub most: u64,
    /// The stores in it.
    pub logged: u64,
    /// The words of the space once it ended.
    pub words: u64,
    /// 1 where it ended with a flip, and else 0.
    pub flipped: u8,
    /// 1 where a cycle ended, and else 0.
    pub is: u8,
}

/// No cycle.
pub(crate) const NO_CYCLE: RheapEndedCycle = RheapEndedCycle {
    number: 0,
    epoch: 0,
    began: 0,
    ended: 0,
    used: 0,
    live: 0,
    freed: 0,
    objects: 0,
    granted: 0,
    idle: 0,
    spent: 0,
    most: 0,
    logged: 0,
    words: 0,
    flipped: 0,
    is: 0,
};

/// Reads a heap once more, and answers the cycle that ended, if one is told.
pub(crate) fn read(heap: &PacedHeap<Global>, reader: &mut RheapCycleReader) -> RheapEndedCycle
    ensures reader { reader.new ≡ (cycle_read reader.old heap.now).0 }
    ensures told { result ≡ (cycle_read reader.old heap.now).1 }
{
    if reader.begun == 0 {
        *reader = crossing(&Cycles::new(heap).kept());
        return NO_CYCLE;
    }
    let mut cycles = Cycles::of_kept(kept(reader));
    let told = cycles.after(heap);
    *reader = crossing(&cycles.kept());
    ended(told)
}

/// What a reader keeps, as the library has it.
fn kept(reader: &RheapCycleReader) -> CyclesKept
    ensures { result ≡ kept_of reader.now }
{
    CyclesKept {
        calls: reader.reads,
        ended: reader.ended,
        last: stat(&reader.last),
        running: if reader.running != 0 {
            Some(running(reader))
        } else {
            None
        },
    }
}

/// The numbers of a heap, as they came back.
fn stat(stats: &RheapStats) -> Stat
    ensures { result ≡ stat_told stats.now }
{
    Stat {
        used: stats.used,
        free: stats.free,
        cycle: stats.cycle != 0,
        epoch: stats.epoch,
        number: stats.number,
        log: stats.log,
        granted: stats.granted,
        idle: stats.idle,
        spent: stats.spent,
        placed: stats.placed,
        missing: stats.missing,
        flips: stats.flips,
        root_words: stats.root_words.into(),
    }
}

/// What a reader keeps of the cycle that is on.
fn running(reader: &RheapCycleReader) -> Running
    ensures { result ≡ running_kept reader.now }
{
    Running {
        epoch: reader.epoch,
        began: reader.began,
        used: reader.used,
        number: reader.number,
        most: reader.most,
        entries: EntryCounts::NONE,
    }
}

/// A reader that keeps this.
fn crossing(kept: &CyclesKept) -> RheapCycleReader
    ensures { result ≡ reader_of kept.now }
{
    let none = RheapCycleReader {
        reads: kept.calls,
        ended: kept.ended,
        last: stats_crossing(&kept.last),
        epoch: 0,
        began: 0,
        used: 0,
        number: 0,
        most: 0,
        running: 0,
        begun: 1,
    };
    match kept.running {
        Some(running) => RheapCycleReader {
            epoch: running.epoch,
            began: running.began,
            used: running.used,
            number: running.number,
            most: running.most,
            running: 1,
            ..none
        },
        None => none,
    }
}

/// The numbers of a cycle, as they cross.
fn ended(told: Option<Cycle>) -> RheapEndedCycle
    ensures { result ≡ cycle_numbers told }
{
    match told {
        Some(cycle) => RheapEndedCycle {
            number: cycle.number,
            epoch: cycle.epoch,
            began: cycle.began,
            ended: cycle.ended,
            used: cycle.used,
            live: cycle.live,
            freed: cycle.freed,
            objects: cycle.objects,
            granted: cycle.granted,
            idle: cycle.idle,
            spent: cycle.spent,
            most: cycle.most,
            logged: cycle.logged,
            words: cycle.words,
            flipped: bit(is_flip(cycle.end)),
            is: 1,
        },
        None => NO_CYCLE,
    }
}

/// Whether a cycle ended with a flip.
fn is_flip(end: CycleEnd) -> bool
    ensures { result ≡ is_flipped end }
{
    match end {
        CycleEnd::Flipped => true,
        CycleEnd::Abandoned => false,
    }
}
