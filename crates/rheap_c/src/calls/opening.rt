//! Opening a heap, and closing it: `rheap_open`, `rheap_open_sized`, `rheap_open_growing`,
//! `rheap_open_growth`, `rheap_close`.

ghost use Rattle.std.specs.Prelude.{◌+◌};
ghost use Rattle.rh_pace.specs.Pace.{CanKeepUp};
ghost use Rattle.rheap_c.specs.Opened.{IsClosed, IsFillingPace, IsOpened, IsPaceFor, Opens, config_at};
ghost use Rattle.rheap_c.specs.GrownOpened.{IsGrowingClosed, IsGrowingOpened, growth_of, growth_with};
ghost use Rattle.rheap_c.specs.Handle.{Calls, OpensFixed, OpensGrowing};

use crate::growth::RheapGrowth;
use crate::handle::Rheap;
use crate::status::IS_OPEN;
use crate::{fixed, growing};
use std::alloc::Global;

/// Opens a heap at the pace `Pace::of(words, live, biggest, ratio)`, for so many owners with so
/// many slots each, where none is open.
#[unsafe(no_mangle)]
pub extern "C" fn rheap_open(
    heap: &mut Rheap,
    alloc: Global,
    words: u32,
    live: u32,
    biggest: u32,
    ratio: u32,
    owners: u32,
    slots: u32,
) -> u8
    ensures { OpensFixed (λ old new. IsOpened (Opens (IsPaceFor words live biggest ratio) (CanKeepUp
        words live biggest ratio) (λ pace. config_at pace words ratio owners slots)) old new result)
        heap.old heap.new result }
{
    if !heap.growing.is_empty() {
        return IS_OPEN;
    }
    fixed::opening::open(
        &mut heap.fixed,
        alloc,
        words,
        live,
        biggest,
        ratio,
        owners,
        slots,
    )
}

/// Opens a heap at the pace `Pace::filling(words, biggest, ratio)`, for so many owners with so many
/// slots each, where none is open.
#[unsafe(no_mangle)]
pub extern "C" fn rheap_open_sized(
    heap: &mut Rheap,
    alloc: Global,
    words: u32,
    biggest: u32,
    ratio: u32,
    owners: u32,
    slots: u32,
) -> u8
    ensures { OpensFixed (λ old new. IsOpened (Opens (IsFillingPace words biggest ratio) (CanKeepUp
        words (biggest + 1) biggest ratio) (λ pace. config_at pace words ratio owners slots)) old
        new result) heap.old heap.new result }
{
    if !heap.growing.is_empty() {
        return IS_OPEN;
    }
    fixed::opening::open_sized(&mut heap.fixed, alloc, words, biggest, ratio, owners, slots)
}

/// Closes the heap that is open, and frees its memory.
#[unsafe(no_mangle)]
pub extern "C" fn rheap_close(heap: &mut Rheap, alloc: Global) -> u8
    ensures { Calls (λ old new. IsClosed old new result)
        (λ old new. IsGrowingClosed old new result) heap.old heap.new }
{
    if heap.fixed.is_empty() {
        return growing::opening::close(&mut heap.growing, alloc);
    }
    fixed::opening::close(&mut heap.fixed, alloc)
}

/// Opens a heap that grows to at most so many words, as `GrowingHeap::of` with `Growth::up_to`, but
/// for objects of at most so many words, at this ratio, for so many owners with so many slots each.
/// It begins with 40,000 words, or with the most where that is less, and has after each flip twice
/// the words that the flip left, or more where fewer wouldn't be in time.
#[unsafe(no_mangle)]
pub extern "C" fn rheap_open_growing(
    heap: &mut Rheap,
    alloc: Global,
    at_most: u32,
    biggest: u32,
    ratio: u32,
    owners: u32,
    slots: u32,
) -> u8
    ensures { OpensGrowing (λ old new.
        IsGrowingOpened (growth_with at_most biggest ratio owners slots) old new result)
        heap.old heap.new result }
{
    if !heap.fixed.is_empty() {
        return IS_OPEN;
    }
    let growth = growing::opening::growth_with(at_most, biggest, ratio, owners, slots);
    growing::opening::open(&mut heap.growing, alloc, growth)
}

/// Opens a heap that grows, as `GrowingHeap::of` with this `Growth`: it begins with `at_least`
/// words, never has fewer, nor more than `at_most`, and has after each flip `factor` percent of the
/// words that the flip left, or more where fewer wouldn't be in time.
#[unsafe(no_mangle)]
pub extern "C" fn rheap_open_growth(heap: &mut Rheap, alloc: Global, growth: &RheapGrowth) -> u8
    ensures { OpensGrowing (λ old new. IsGrowingOpened (growth_of growth.now) old new result)
        heap.old heap.new result }
{
    if !heap.fixed.is_empty() {
        return IS_OPEN;
    }
    growing::opening::open(&mut heap.growing, alloc, growth.growth())
}
