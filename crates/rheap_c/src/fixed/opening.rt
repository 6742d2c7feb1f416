//! Opening a heap, and closing it: `rheap_open`, `rheap_open_sized`, `rheap_close`.

ghost use Rattle.std.specs.Prelude.{◌≡◌, ◌+◌, IfErr, IfOk, None};
ghost use Rattle.rh_pace.specs.Pace.{CanKeepUp};
ghost use Rattle.rheap_c.specs.Opened.{IsClosed, IsFillingPace, IsNew, IsOpened, IsPaceFor, MakesNone, Opens, OpensAt, config_at};

use crate::fixed_part::FixedPart;
use crate::open_fault::{OpenFault, fault_status};
use crate::status::{DONE, IS_OPEN, NO_PACE, NOT_OPEN};
use rh_pace::{Pace, PacedHeap};
use std::alloc::Global;

/// `rheap_open`, on a heap of fixed sizes.
#[inline(always)]
pub(crate) fn open(
    heap: &mut FixedPart,
    alloc: Global,
    words: u32,
    live: u32,
    biggest: u32,
    ratio: u32,
    owners: u32,
    slots: u32,
) -> u8
    ensures { IsOpened
        (Opens (IsPaceFor words live biggest ratio) (CanKeepUp words live biggest ratio)
        (λ pace. config_at pace words ratio owners slots))
        heap.old.state heap.new.state result }
{
    if !heap.is_empty() {
        return IS_OPEN;
    }
    match Pace::of(words, live, biggest, ratio) {
        Ok(pace) => open_at(heap, alloc, pace, words, ratio, owners, slots),
        Err(_) => NO_PACE,
    }
}

/// `rheap_open_sized`, on a heap of fixed sizes.
#[inline(always)]
pub(crate) fn open_sized(
    heap: &mut FixedPart,
    alloc: Global,
    words: u32,
    biggest: u32,
    ratio: u32,
    owners: u32,
    slots: u32,
) -> u8
    ensures { IsOpened
        (Opens (IsFillingPace words biggest ratio) (CanKeepUp words (biggest + 1) biggest ratio)
        (λ pace. config_at pace words ratio owners slots))
        heap.old.state heap.new.state result }
{
    if !heap.is_empty() {
        return IS_OPEN;
    }
    match Pace::filling(words, biggest, ratio) {
        Ok(pace) => open_at(heap, alloc, pace, words, ratio, owners, slots),
        Err(_) => NO_PACE,
    }
}

/// `rheap_close`, on a heap of fixed sizes.
#[inline(always)]
pub(crate) fn close(heap: &mut FixedPart, alloc: Global) -> u8
    ensures { IsClosed heap.old.state heap.new.state result }
{
    match heap.take(alloc) {
        None => NOT_OPEN,
        Some(inner) => {
            drop(inner);
            DONE
        }
    }
}

/// Puts a new heap at a pace into a handle that holds none.
fn open_at(
    heap: &mut FixedPart,
    alloc: Global,
    pace: Pace,
    words: u32,
    ratio: u32,
    owners: u32,
    slots: u32,
) -> u8
    requires { heap.old.state ≡ None }
    ensures { OpensAt (config_at pace words ratio owners slots) pace heap.new.state result }
{
    match make(alloc, pace, words, ratio, owners, slots) {
        Ok(made) => {
            heap.give(made);
            DONE
        }
        Err(why) => fault_status(why),
    }
}

/// Makes a new heap at a pace, in a box.
fn make(
    alloc: Global,
    pace: Pace,
    words: u32,
    ratio: u32,
    owners: u32,
    slots: u32,
) -> Result<Box<PacedHeap<Global>>, OpenFault>
    ensures made { IfOk result (λ heap.
        IsNew (config_at pace words ratio owners slots) pace heap.value) }
    ensures fault { IfErr result (λ why. MakesNone (config_at pace words ratio owners slots) why) }
{
    let config = pace.config(words, ratio, owners, slots);
    if config.fault().is_some() {
        return Err(OpenFault::BadSizes);
    }
    let Ok(heap) = PacedHeap::new(alloc, config, pace) else {
        return Err(OpenFault::NoMemory);
    };
    match Box::new(alloc, heap) {
        Ok(boxed) => Ok(boxed),
        Err(_) => Err(OpenFault::NoMemory),
    }
}
