//! The numbers of a heap as they cross to C.

ghost use Rattle.std.specs.Prelude.{◌≡◌};
ghost use Rattle.rheap_c.specs.Numbers.{bit_of, did_of, no_stats, pace_of, stats_of_stat};

use rh_core::Stat;
use rh_pace::{Did, Pace};

/// The numbers of a heap as it stands.
#[repr(C)]
#[derive(Clone, Copy)]
pub struct RheapStats {
    /// The words of the space that objects have.
    pub used: u64,
    /// The words of the space that none has.
    pub free: u64,
    /// The epoch, from 1.
    pub epoch: u64,
    /// The number of the last accepted store, and 0 before the first.
    pub number: u64,
    /// The entries of the log.
    pub log: u64,
    /// The units of work that words allocated in the last cycle granted.
    pub granted: u64,
    /// The units that stores paid in it or a collection added, as idle words.
    pub idle: u64,
    /// The units that were spent in it.
    pub spent: u64,
    /// The objects that are placed.
    pub placed: u64,
    /// The fields of placed objects whose current pair isn't held.
    pub missing: u64,
    /// The flips that were done.
    pub flips: u64,
    /// The words of roots that they wrote, or 2^64 - 1 where there were more.
    pub root_words: u64,
    /// 1 where a cycle is on, and else 0.
    pub cycle: u8,
}

/// What an increment or a collection did.
#[repr(C)]
#[derive(Clone, Copy)]
pub struct RheapDid {
    /// How many entries of the log and fields of placed objects it looked at.
    pub held: u64,
    /// How many objects it placed since roots refer to them.
    pub shaded: u32,
    /// How many roots the flip wrote, where it ended the cycle, and else 0.
    pub roots: u32,
    /// How many words of objects the flip kept, where it ended the cycle, and else 0.
    pub live_words: u32,
    /// 1 where it began a cycle, and else 0.
    pub began: u8,
    /// 1 where it ended a cycle with a flip, and else 0.
    pub flipped: u8,
}

/// The pace of a heap.
#[repr(C)]
#[derive(Clone, Copy)]
pub struct RheapPacing {
    /// A cycle begins where fewer words than these are free.
    pub mark: u32,
    /// The units of collector work that a store pays in a cycle.
    pub store_units: u32,
    /// The entries that the log keeps.
    pub log_limit: u32,
}

/// The room for an object: what a refusal with status 8 has, in words.
#[repr(C)]
#[derive(Clone, Copy)]
pub struct RheapWords {
    /// The words that the object needs: its fields and 2.
    pub need: u64,
    /// The words that are free.
    pub free: u64,
}

/// The numbers of a heap that isn't there.
pub(crate) fn stats_of_none() -> RheapStats
    ensures { result ≡ no_stats }
{
    RheapStats {
        used: 0,
        free: 0,
        epoch: 0,
        number: 0,
        log: 0,
        granted: 0,
        idle: 0,
        spent: 0,
        placed: 0,
        missing: 0,
        flips: 0,
        root_words: 0,
        cycle: 0,
    }
}

/// The numbers of a heap as they cross.
pub(crate) fn stats_crossing(stat: &Stat) -> RheapStats
    ensures { result ≡ stats_of_stat stat.now }
{
    RheapStats {
        used: stat.used,
        free: stat.free,
        epoch: stat.epoch,
        number: stat.number,
        log: stat.log,
        granted: stat.granted,
        idle: stat.idle,
        spent: stat.spent,
        placed: stat.placed,
        missing: stat.missing,
        flips: stat.flips,
        root_words: stat.root_words.min(u128::from(u64::MAX)) as u64,
        cycle: bit(stat.cycle),
    }
}

/// What was done, as it crosses.
pub(crate) fn did_crossing(did: &Did) -> RheapDid
    ensures { result ≡ did_of did.now }
{
    let unflipped = RheapDid {
        held: did.held,
        shaded: did.shaded,
        roots: 0,
        live_words: 0,
        began: bit(did.began),
        flipped: 0,
    };
    match did.flipped {
        Some(flipped) => RheapDid {
            roots: flipped.roots,
            live_words: flipped.live_words,
            flipped: 1,
            ..unflipped
        },
        None => unflipped,
    }
}

/// A pace as it crosses.
pub(crate) fn pace_crossing(pace: Pace) -> RheapPacing
    ensures { result ≡ pace_of pace }
{
    RheapPacing {
        mark: pace.mark,
        store_units: pace.store_units,
        log_limit: pace.log_limit,
    }
}

/// 1 for yes, 0 for no.
pub(crate) fn bit(yes: bool) -> u8
    ensures { result ≡ bit_of yes }
{
    if yes { 1 } else { 0 }
}
