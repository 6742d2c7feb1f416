//! The reader of a heap's cycles.

ghost use Rattle.std.specs.Prelude.{◌≡◌, ℕ};
ghost use Rattle.rh_cycles.specs.Cycles.{begun as begun_of, cycle_of, cycle_told, ended_after as ended_after_of, going as going_of, goes_on as goes_on_of, new_reader, no_counts, read_step, running_after as running_after_of, skip_step};

use crate::cycle::{Cycle, CycleEnd, EntryCounts, sum};
use crate::running::Running;
use rh_core::Stat;
use std::marker::Model;

/// Reads a heap's numbers after each line of a trace, or after each call, and tells each cycle that
/// ended.
///
/// It tells by `Stat` alone whether a cycle began, went on or ended. So each line stands for one
/// step of the heap at most: a command, or one call of a cycle. `Cycles` reads a heap that collects
/// by itself, whose calls do more.
#[derive(Drop)]
pub struct CycleReader {
    ended: u64,
    last: Stat,
    running: Option<Running>,
}

impl Model for CycleReader {
    ghost use Rattle.rh_cycles.specs.Cycles.{ReaderState};

    ghost Value = { ReaderState };

    ghost view = { λ r. record { ended = r.ended; last = r.last; running = r.running } };
}

impl CycleReader {
    /// A reader of a heap whose numbers are these now. A cycle that is on isn't told, since its
    /// begin wasn't read. It counts once it ended.
    pub fn new(stat: &Stat) -> CycleReader
        ensures { result ≡ new_reader stat.now }
    {
        CycleReader {
            ended: 0,
            last: *stat,
            running: None,
        }
    }

    /// A reader that read so many cycles end, these numbers last, and this of the cycle that is on.
    pub(crate) fn of(ended: u64, last: Stat, running: Option<Running>) -> CycleReader
        ensures { result ≡ record { ended = ended; last = last; running = running } }
    {
        CycleReader {
            ended,
            last,
            running,
        }
    }

    /// Reads the heap's numbers after a line, or a call, and the entries of its deal or give:
    /// `EntryCounts::NONE` of any other. Answers the cycle that ended at it, if one did whose begin
    /// was read.
    pub fn read(&mut self, line: u64, stat: &Stat, entries: EntryCounts) -> Option<Cycle>
        ensures state { self.new
            ≡ (read_step self.old
            (record { line = line; stat = stat.now; entries = entries })).0 }
        ensures told { result
            ≡ (read_step self.old
            (record { line = line; stat = stat.now; entries = entries })).1 }
    {
        let told = self.told(line, stat, entries);
        self.ended = self.ended_after(stat);
        self.running = self.running_after(line, stat, entries);
        self.last = *stat;
        told
    }

    /// The cycle that ended at a line, if one did whose begin was read.
    fn told(&self, line: u64, stat: &Stat, entries: EntryCounts) -> Option<Cycle>
        ensures { result ≡ cycle_told self.now
            (record { line = line; stat = stat.now; entries = entries }) }
    {
        if stat.cycle {
            return None;
        }
        match self.running {
            Some(running) => {
                let whole = going(&self.last, stat, entries, running);
                Some(self.cycle(line, stat, whole))
            }
            None => None,
        }
    }

    /// The numbers of the cycle that ended at a line.
    fn cycle(&self, line: u64, stat: &Stat, running: Running) -> Cycle
        ensures { result ≡ cycle_of self.now
            (record { line = line; stat = stat.now; entries = no_counts }) running }
    {
        let end = if self.last.flips < stat.flips {
            CycleEnd::Flipped
        } else {
            CycleEnd::Abandoned
        };
        Cycle {
            number: sum(self.ended, 1),
            end,
            epoch: running.epoch,
            began: running.began,
            ended: line,
            used: running.used,
            live: stat.used,
            freed: self.last.used.saturating_sub(stat.used),
            objects: self.last.placed,
            granted: stat.granted,
            idle: stat.idle,
            spent: stat.spent,
            most: running.most,
            logged: stat.number.saturating_sub(running.number),
            entries: Some(running.entries),
            words: sum(stat.used, stat.free),
        }
    }

    /// How many cycles ended once a line was read.
    fn ended_after(&self, stat: &Stat) -> u64
        ensures { result ≡ ended_after_of self.now stat.now }
    {
        if self.last.cycle && !(stat.cycle && goes_on(&self.last, stat)) {
            return sum(self.ended, 1);
        }
        self.ended
    }

    /// What is kept of the cycle that is on once a line was read.
    fn running_after(&self, line: u64, stat: &Stat, entries: EntryCounts) -> Option<Running>
        ensures { result ≡ running_after_of self.now
            (record { line = line; stat = stat.now; entries = entries }) }
    {
        if !stat.cycle {
            return None;
        }
        if !goes_on(&self.last, stat) {
            return Some(begun(line, stat, entries));
        }
        match self.running {
            Some(running) => Some(going(&self.last, stat, entries, running)),
            None => None,
        }
    }

    /// The numbers that the reader read last.
    pub fn last(&self) -> Stat
        ensures { result ≡ self.now.last }
    {
        self.last
    }

    /// How many cycles ended.
    pub(crate) fn ended(&self) -> u64
        ensures { result ≡ self.now.ended }
    {
        self.ended
    }

    /// What it keeps of the cycle that is on.
    pub(crate) fn running(&self) -> Option<Running>
        ensures { result ≡ self.now.running }
    {
        self.running
    }

    /// Goes on at these numbers. The cycles that flips ended since the last reading are counted, and
    /// not told. One that is on now began at this line, or at this call.
    pub fn skip(&mut self, line: u64, stat: &Stat)
        ensures { self.new ≡ skip_step self.old line stat.now }
    {
        self.ended = sum(self.ended, stat.flips.saturating_sub(self.last.flips));
        self.running = if stat.cycle {
            Some(begun(line, stat, EntryCounts::NONE))
        } else {
            None
        };
        self.last = *stat;
    }
}

/// Whether the cycle that was on is on still: no flip was done.
fn goes_on(last: &Stat, now: &Stat) -> bool
    ensures { result ≡ goes_on_of last.now now.now }
{
    last.cycle && last.flips == now.flips
}

/// What is kept of a cycle that began at a line.
fn begun(line: u64, stat: &Stat, entries: EntryCounts) -> Running
    ensures { result
        ≡ begun_of (record { line = line; stat = stat.now; entries = entries }) }
{
    Running {
        epoch: stat.epoch,
        began: line,
        used: stat.used,
        number: stat.number,
        most: stat.spent,
        entries,
    }
}

/// What is kept of a cycle once one more line of it was read, with the numbers before the line.
fn going(last: &Stat, stat: &Stat, entries: EntryCounts, running: Running) -> Running
    ensures { (line : ℕ) → result ≡ going_of last.now
        (record { line = line; stat = stat.now; entries = entries }) running }
{
    let spent = stat.spent.saturating_sub(last.spent);
    Running {
        most: running.most.max(spent),
        entries: running.entries.added(entries),
        ..running
    }
}
