//! The numbers of a heap: `rheap_stat`, `rheap_last_did`, `rheap_pace`, `rheap_room`, `rheap_short`.

ghost use Rattle.rheap_c.specs.Numbers.{IsRead, did_in, no_did, no_pace, no_room, no_stats, pace_in, room_in, stats_of};
ghost use Rattle.rheap_c.specs.Grown.{CallsOnPaced};
ghost use Rattle.rheap_c.specs.Handle.{Calls};
ghost use Rattle.rheap_c.specs.GrownOpened.{IsShortTold};

use crate::handle::Rheap;
use crate::numbers::{RheapDid, RheapPacing, RheapStats, RheapWords};
use crate::{fixed, growing};
use std::alloc::Global;

/// The numbers of the heap, as `PacedHeap::stat`; all 0 where none is open.
#[unsafe(no_mangle)]
pub extern "C" fn rheap_stat(heap: &mut Rheap, alloc: Global, stats: &mut RheapStats) -> u8
    ensures { CallsOnPaced (λ old new. IsRead stats_of no_stats old new result stats.new) heap.old
        heap.new }
{
    if heap.fixed.is_empty() {
        return growing::numbers::stat(&mut heap.growing, alloc, stats);
    }
    fixed::numbers::stat(&mut heap.fixed, alloc, stats)
}

/// What the last increment or collection did, as `PacedHeap::last_did`; all 0 where none is open.
#[unsafe(no_mangle)]
pub extern "C" fn rheap_last_did(heap: &mut Rheap, alloc: Global, did: &mut RheapDid) -> u8
    ensures { CallsOnPaced (λ old new. IsRead did_in no_did old new result did.new) heap.old
        heap.new }
{
    if heap.fixed.is_empty() {
        return growing::numbers::last_did(&mut heap.growing, alloc, did);
    }
    fixed::numbers::last_did(&mut heap.fixed, alloc, did)
}

/// The pace that the heap was made with, as `PacedHeap::pace`; all 0 where none is open.
#[unsafe(no_mangle)]
pub extern "C" fn rheap_pace(heap: &mut Rheap, alloc: Global, pacing: &mut RheapPacing) -> u8
    ensures { CallsOnPaced (λ old new. IsRead pace_in no_pace old new result pacing.new) heap.old
        heap.new }
{
    if heap.fixed.is_empty() {
        return growing::numbers::pace(&mut heap.growing, alloc, pacing);
    }
    fixed::numbers::pace(&mut heap.fixed, alloc, pacing)
}

/// The room for an object of so many fields, as the heap stands; all 0 where none is open. After a
/// call that found no room for such an object these are the numbers of its refusal.
#[unsafe(no_mangle)]
pub extern "C" fn rheap_room(
    heap: &mut Rheap,
    alloc: Global,
    fields: u32,
    room: &mut RheapWords,
) -> u8
    ensures { CallsOnPaced (λ old new. IsRead (room_in fields) no_room old new result room.new)
        heap.old heap.new }
{
    if heap.fixed.is_empty() {
        return growing::numbers::room(&mut heap.growing, alloc, fields, room);
    }
    fixed::numbers::room(&mut heap.fixed, alloc, fields, room)
}

/// Whether the heap has too few words since its last flip, so that a call may find no room: `is` is
/// 0 where it has enough, 1 where it may have no more, and 2 where memory for more was refused, as
/// `GrowingHeap::short`. A heap of fixed sizes has what it was opened with, so it is 0.
#[unsafe(no_mangle)]
pub extern "C" fn rheap_short(heap: &mut Rheap, alloc: Global, is: &mut u8) -> u8
    ensures { Calls (λ old new. IsRead (λ s. 0) 0 old new result is.new)
        (λ old new. IsShortTold old new result is.new) heap.old heap.new }
{
    if heap.fixed.is_empty() {
        return growing::numbers::short(&mut heap.growing, alloc, is);
    }
    fixed::numbers::short(&mut heap.fixed, is)
}
