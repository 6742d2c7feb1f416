//! The numbers of a cycle.

ghost use Rattle.std.specs.Prelude.{◌≡◌};
ghost use Rattle.rh_cycles.specs.Cycles.{added_counts, capped, dealt_counts, given_counts, no_counts};

use rh_core::Given;

/// How a cycle ended.
#[derive(Clone, Copy, Debug, PartialEq, Eq)]
pub enum CycleEnd {
    /// Its flip moved the roots.
    Flipped,
    /// It was abandoned: no root moved, and nothing was freed.
    Abandoned,
}

/// How many entries deals and gives found to be of each class. A number that would be 2^64 or more
/// stays at 2^64 - 1.
#[derive(Clone, Copy, Debug, PartialEq, Eq)]
pub struct EntryCounts {
    /// The entries given that were taken in, and are held from then on.
    pub joined: u64,
    /// The entries given that were held already.
    pub repeated: u64,
    /// The entries given whose fields were stored to since.
    pub stale: u64,
    /// The entries of the log that deals passed over, since their objects weren't placed.
    pub passed: u64,
}

impl EntryCounts {
    /// No entries.
    pub const NONE: EntryCounts = EntryCounts {
        joined: 0,
        repeated: 0,
        stale: 0,
        passed: 0,
    };

    /// Those of a deal that passed over so many entries of the log.
    pub fn dealt(passed: u32) -> EntryCounts
        ensures { result ≡ dealt_counts passed }
    {
        EntryCounts {
            passed: passed.into(),
            ..EntryCounts::NONE
        }
    }

    /// Those of a give.
    pub fn given(given: Given) -> EntryCounts
        ensures { result ≡ given_counts given }
    {
        EntryCounts {
            joined: given.joined.into(),
            repeated: given.repeated.into(),
            stale: given.stale.into(),
            passed: 0,
        }
    }

    /// Both together.
    pub fn added(self, other: EntryCounts) -> EntryCounts
        ensures { result ≡ added_counts self other }
    {
        EntryCounts {
            joined: sum(self.joined, other.joined),
            repeated: sum(self.repeated, other.repeated),
            stale: sum(self.stale, other.stale),
            passed: sum(self.passed, other.passed),
        }
    }
}

/// The numbers of a cycle that ended. Words are words of 16 bytes of one space.
#[derive(Clone, Copy, Debug, PartialEq, Eq)]
pub struct Cycle {
    /// Which one it is of those that ended since the reader was made, counted from 1.
    pub number: u64,
    /// How it ended.
    pub end: CycleEnd,
    /// The epoch at its begin.
    pub epoch: u64,
    /// The line, or the call, at which it began.
    pub began: u64,
    /// The line, or the call, at which it ended.
    pub ended: u64,
    /// The words that were used when it began.
    pub used: u64,
    /// The words that are used once it ended. After a flip they are those of the objects that it
    /// kept.
    pub live: u64,
    /// The words that its flip freed: those that were used just before it, less those after it. An
    /// abandoned cycle frees none.
    pub freed: u64,
    /// The objects that were placed when it ended: a flip keeps these.
    pub objects: u64,
    /// The units that words allocated in it granted.
    pub granted: u64,
    /// The idle words that were added in it, a unit each. Of a heap that collects by itself also
    /// what stores paid, and what `collect` added.
    pub idle: u64,
    /// The units that it spent.
    pub spent: u64,
    /// The most units that one line, or one call, of it spent.
    pub most: u64,
    /// The stores in it, each of which was an entry of the log. Of a heap that collects by itself
    /// also those that its last call made after the flip, as `insist` of a store may.
    pub logged: u64,
    /// The entries of its deals and gives, by class. `None` where they aren't known.
    pub entries: Option<EntryCounts>,
    /// The words of the space once it ended.
    pub words: u64,
}

/// The sum, and 2^64 - 1 where it is more.
pub(crate) fn sum(m: u64, n: u64) -> u64
    ensures { result ≡ capped m n }
{
    m.saturating_add(n)
}
