//! Giving a heap of fixed sizes other words: `rheap_resize`, `rheap_resize_sized`.

ghost use Rattle.std.specs.Prelude.{◌≡◌, ◌+◌, ◌≤◌};
ghost use Rattle.rh_pace.specs.Pace.{CanKeepUp};
ghost use Rattle.rheap_c.specs.Opened.{IsFillingPace, IsPaceFor};
ghost use Rattle.rheap_c.specs.Resized.{ResizesAt, ResizesBy, ResizesFor, ResizesSized, resize_status_of};

use crate::fixed_part::FixedPart;
use crate::status::{BAD_SIZES, DONE, IN_USE, NO_MEMORY, NO_PACE, NOT_OPEN};
use rh_core::ResizeError;
use rh_layout::limits::MAX_LOG_ENTRIES;
use rh_pace::{Pace, PacedHeap};
use std::alloc::Global;

/// `rheap_resize`, on a heap of fixed sizes.
#[inline(never)]
pub(crate) fn resize(heap: &mut FixedPart, alloc: Global, words: u32, live: u32, biggest: u32) -> u8
    ensures { ResizesFor words live biggest heap.old.state heap.new.state result }
{
    match heap.take(alloc) {
        None => NOT_OPEN,
        Some(mut inner) => {
            let status = resized(&mut inner, words, live, biggest);
            heap.give(inner);
            status
        }
    }
}

/// `rheap_resize_sized`, on a heap of fixed sizes.
#[inline(never)]
pub(crate) fn resize_sized(heap: &mut FixedPart, alloc: Global, words: u32, biggest: u32) -> u8
    ensures { ResizesSized words biggest heap.old.state heap.new.state result }
{
    match heap.take(alloc) {
        None => NOT_OPEN,
        Some(mut inner) => {
            let status = resized_filling(&mut inner, words, biggest);
            heap.give(inner);
            status
        }
    }
}

/// Gives a heap so many words, at the pace that keeps up with so many live ones.
fn resized(heap: &mut PacedHeap<Global>, words: u32, live: u32, biggest: u32) -> u8
    ensures { let ratio = heap.old.heap.mutators.config.ratio in
        ResizesBy (IsPaceFor words live biggest ratio) (CanKeepUp words live biggest ratio)
        words heap.old heap.new result }
{
    match Pace::of(words, live, biggest, heap.heap().config().ratio) {
        Ok(pace) => resized_at(heap, words, pace),
        Err(_) => NO_PACE,
    }
}

/// Gives a heap so many words, at the pace that keeps up with all that it leaves.
fn resized_filling(heap: &mut PacedHeap<Global>, words: u32, biggest: u32) -> u8
    ensures { let ratio = heap.old.heap.mutators.config.ratio in
        ResizesBy (IsFillingPace words biggest ratio) (CanKeepUp words (biggest + 1) biggest ratio)
        words heap.old heap.new result }
{
    match Pace::filling(words, biggest, heap.heap().config().ratio) {
        Ok(pace) => resized_at(heap, words, pace),
        Err(_) => NO_PACE,
    }
}

/// Gives a heap so many words, with the mark and the log of a pace.
fn resized_at(heap: &mut PacedHeap<Global>, words: u32, pace: Pace) -> u8
    requires { (1 ≤ pace.log_limit) × (pace.log_limit ≤ MAX_LOG_ENTRIES) }
    ensures { ResizesAt words pace heap.old heap.new result }
{
    // Only for the proof: what a heap at a pace keeps.
    let _ = heap.pace();
    resize_status(heap.resize(words, pace))
}

/// The status after a heap was resized, or wasn't.
fn resize_status(told: Result<(), ResizeError>) -> u8
    ensures { result ≡ resize_status_of told }
{
    match told {
        Ok(()) => DONE,
        Err(ResizeError::BadSpace | ResizeError::BadLog) => BAD_SIZES,
        Err(ResizeError::Used(_) | ResizeError::Entries(_)) => IN_USE,
        Err(ResizeError::OutOfMemory) => NO_MEMORY,
    }
}
