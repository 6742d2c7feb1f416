//! The numbers of a heap that grows.

ghost use Rattle.std.specs.Prelude.{◌≡◌};
ghost use Rattle.rheap_c.specs.Grown.{OnPaced};
ghost use Rattle.rheap_c.specs.GrownOpened.{IsShortTold};
ghost use Rattle.rheap_c.specs.Numbers.{IsRead, did_in, no_did, no_pace, no_room, no_stats, pace_in, room_in, stats_of};

use crate::growing_part::GrowingPart;
use crate::growth::{AMPLE, short_told};
use crate::numbers::{
    RheapDid, RheapPacing, RheapStats, RheapWords, did_crossing, pace_crossing, stats_crossing,
    stats_of_none,
};
use crate::status::{DONE, NOT_OPEN};
use rh_pace::{Did, PacedHeap};
use std::alloc::Global;

/// `rheap_stat`, on a heap that grows.
#[inline(never)]
pub(crate) fn stat(heap: &mut GrowingPart, alloc: Global, stats: &mut RheapStats) -> u8
    ensures { OnPaced (λ old new. IsRead stats_of no_stats old new result stats.new) heap.old.state
        heap.new.state }
{
    match heap.take(alloc) {
        None => {
            *stats = stats_of_none();
            NOT_OPEN
        }
        Some(inner) => {
            *stats = stats_crossing(&inner.paced().stat());
            heap.give(inner);
            DONE
        }
    }
}

/// `rheap_last_did`, on a heap that grows.
#[inline(never)]
pub(crate) fn last_did(heap: &mut GrowingPart, alloc: Global, did: &mut RheapDid) -> u8
    ensures { OnPaced (λ old new. IsRead did_in no_did old new result did.new) heap.old.state
        heap.new.state }
{
    match heap.take(alloc) {
        None => {
            *did = did_crossing(&Did::NOTHING);
            NOT_OPEN
        }
        Some(inner) => {
            *did = did_crossing(&inner.paced().last_did());
            heap.give(inner);
            DONE
        }
    }
}

/// `rheap_pace`, on a heap that grows.
#[inline(never)]
pub(crate) fn pace(heap: &mut GrowingPart, alloc: Global, pacing: &mut RheapPacing) -> u8
    ensures { OnPaced (λ old new. IsRead pace_in no_pace old new result pacing.new) heap.old.state
        heap.new.state }
{
    match heap.take(alloc) {
        None => {
            *pacing = RheapPacing {
                mark: 0,
                store_units: 0,
                log_limit: 0,
            };
            NOT_OPEN
        }
        Some(inner) => {
            *pacing = pace_crossing(inner.paced().pace());
            heap.give(inner);
            DONE
        }
    }
}

/// `rheap_room`, on a heap that grows.
#[inline(never)]
pub(crate) fn room(heap: &mut GrowingPart, alloc: Global, fields: u32, room: &mut RheapWords) -> u8
    ensures { OnPaced (λ old new. IsRead (room_in fields) no_room old new result room.new)
        heap.old.state heap.new.state }
{
    match heap.take(alloc) {
        None => {
            *room = RheapWords { need: 0, free: 0 };
            NOT_OPEN
        }
        Some(inner) => {
            *room = room_of(inner.paced(), fields);
            heap.give(inner);
            DONE
        }
    }
}

/// `rheap_short`, on a heap that grows.
#[inline(never)]
pub(crate) fn short(heap: &mut GrowingPart, alloc: Global, is: &mut u8) -> u8
    ensures { IsShortTold heap.old.state heap.new.state result is.new }
{
    match heap.take(alloc) {
        None => {
            *is = AMPLE;
            NOT_OPEN
        }
        Some(inner) => {
            *is = short_told(inner.short());
            heap.give(inner);
            DONE
        }
    }
}

/// The words that an object of so many fields needs, and those that are free.
fn room_of(heap: &PacedHeap<Global>, fields: u32) -> RheapWords
    ensures { result ≡ room_in fields heap.now }
{
    RheapWords {
        need: u64::from(fields) + 2,
        free: u64::from(heap.heap().free_words()),
    }
}
