//! The numbers of a heap of fixed sizes.

ghost use Rattle.std.specs.Prelude.{◌≡◌};
ghost use Rattle.rheap_c.specs.Numbers.{IsRead, did_in, no_did, no_pace, no_room, no_stats, pace_in, room_in, stats_of};

use crate::fixed_part::FixedPart;
use crate::growth::AMPLE;
use crate::numbers::{
    RheapDid, RheapPacing, RheapStats, RheapWords, did_crossing, pace_crossing, stats_crossing,
    stats_of_none,
};
use crate::status::{DONE, NOT_OPEN};
use rh_pace::Did;
use std::alloc::Global;

/// `rheap_stat`, on a heap of fixed sizes.
#[inline(always)]
pub(crate) fn stat(heap: &mut FixedPart, alloc: Global, stats: &mut RheapStats) -> u8
    ensures { IsRead stats_of no_stats heap.old.state heap.new.state result stats.new }
{
    match heap.take(alloc) {
        None => {
            *stats = stats_of_none();
            NOT_OPEN
        }
        Some(inner) => {
            *stats = stats_crossing(&inner.stat());
            heap.give(inner);
            DONE
        }
    }
}

/// `rheap_last_did`, on a heap of fixed sizes.
#[inline(always)]
pub(crate) fn last_did(heap: &mut FixedPart, alloc: Global, did: &mut RheapDid) -> u8
    ensures { IsRead did_in no_did heap.old.state heap.new.state result did.new }
{
    match heap.take(alloc) {
        None => {
            *did = did_crossing(&Did::NOTHING);
            NOT_OPEN
        }
        Some(inner) => {
            *did = did_crossing(&inner.last_did());
            heap.give(inner);
            DONE
        }
    }
}

/// `rheap_pace`, on a heap of fixed sizes.
#[inline(always)]
pub(crate) fn pace(heap: &mut FixedPart, alloc: Global, pacing: &mut RheapPacing) -> u8
    ensures { IsRead pace_in no_pace heap.old.state heap.new.state result pacing.new }
{
    match heap.take(alloc) {
        None => {
            *pacing = RheapPacing {
                mark: 0,
                store_units: 0,
                log_limit: 0,
            };
            NOT_OPEN
        }
        Some(inner) => {
            *pacing = pace_crossing(inner.pace());
            heap.give(inner);
            DONE
        }
    }
}

/// `rheap_room`, on a heap of fixed sizes.
#[inline(always)]
pub(crate) fn room(heap: &mut FixedPart, alloc: Global, fields: u32, room: &mut RheapWords) -> u8
    ensures { IsRead (room_in fields) no_room heap.old.state heap.new.state result room.new }
{
    match heap.take(alloc) {
        None => {
            *room = RheapWords { need: 0, free: 0 };
            NOT_OPEN
        }
        Some(inner) => {
            *room = RheapWords {
                need: u64::from(fields) + 2,
                free: u64::from(inner.heap().free_words()),
            };
            heap.give(inner);
            DONE
        }
    }
}

/// `rheap_short`, on a heap of fixed sizes: it has what it was opened with.
#[inline(always)]
pub(crate) fn short(heap: &mut FixedPart, is: &mut u8) -> u8
    ensures { IsRead (λ s. 0) 0 heap.old.state heap.new.state result is.new }
{
    *is = AMPLE;
    if heap.is_empty() { NOT_OPEN } else { DONE }
}
