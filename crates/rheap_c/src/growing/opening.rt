//! Opening a heap that grows, and closing it.

ghost use Rattle.std.specs.Prelude.{◌≡◌, IfErr, IfOk};
ghost use Rattle.rheap_c.specs.GrownOpened.{IsGrowingClosed, IsGrowingOpened, IsNewGrowing, MakesNoGrowing, growth_with as growth_with_these, status_of_growing_error};

use crate::growing_part::GrowingPart;
use crate::status::{BAD_GROWTH, BAD_SIZES, DONE, IS_OPEN, NO_MEMORY, NO_PACE, NOT_OPEN};
use rh_core::HeapError;
use rh_growing::{DEFAULT_AT_LEAST, DEFAULT_FACTOR, GrowingError, GrowingHeap, Growth};
use std::alloc::Global;

/// Opens a heap that grows so, where none is open.
#[inline(never)]
pub(crate) fn open(heap: &mut GrowingPart, alloc: Global, growth: Growth) -> u8
    ensures { IsGrowingOpened growth heap.old.state heap.new.state result }
{
    if !heap.is_empty() {
        return IS_OPEN;
    }
    match make(alloc, growth) {
        Ok(made) => {
            heap.give(made);
            DONE
        }
        Err(why) => error_status(why),
    }
}

/// The growth to at most so many words, as `Growth::up_to`, but with these sizes.
pub(crate) fn growth_with(at_most: u32, biggest: u32, ratio: u32, owners: u32, slots: u32) -> Growth
    ensures { result ≡ growth_with_these at_most biggest ratio owners slots }
{
    Growth {
        at_least: DEFAULT_AT_LEAST.min(at_most),
        at_most,
        factor: DEFAULT_FACTOR,
        biggest,
        ratio,
        owners,
        slots,
    }
}

/// `rheap_close`, on a heap that grows.
#[inline(never)]
pub(crate) fn close(heap: &mut GrowingPart, alloc: Global) -> u8
    ensures { IsGrowingClosed heap.old.state heap.new.state result }
{
    match heap.take(alloc) {
        None => NOT_OPEN,
        Some(inner) => {
            drop(inner);
            DONE
        }
    }
}

/// The status where no heap was opened.
fn error_status(why: GrowingError) -> u8
    ensures { result ≡ status_of_growing_error why }
{
    match why {
        GrowingError::BadFactor | GrowingError::BadLimits => BAD_GROWTH,
        GrowingError::Pace(_) => NO_PACE,
        GrowingError::Heap(HeapError::Config(_)) => BAD_SIZES,
        GrowingError::Heap(HeapError::OutOfMemory) => NO_MEMORY,
    }
}

/// Makes a new heap that grows so, in a box.
fn make(alloc: Global, growth: Growth) -> Result<Box<GrowingHeap<Global>>, GrowingError>
    ensures made { IfOk result (λ heap. IsNewGrowing growth heap.value) }
    ensures fault { IfErr result (λ why. MakesNoGrowing growth why) }
{
    let heap = match GrowingHeap::of(alloc, growth) {
        Ok(heap) => heap,
        Err(why) => return Err(why),
    };
    match Box::new(alloc, heap) {
        Ok(boxed) => Ok(boxed),
        Err(_) => Err(GrowingError::Heap(HeapError::OutOfMemory)),
    }
}
