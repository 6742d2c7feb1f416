//! What a heap that grows looks like, and memory that it gives back.

ghost use Rattle.rheap_c.specs.Cycles.{ReadsCycle};
ghost use Rattle.rheap_c.specs.Grown.{OnPaced};
ghost use Rattle.rheap_c.specs.Views.{IsDump, IsPicture, IsReleased};

use crate::cycle_numbers::{NO_CYCLE, RheapCycleReader, RheapEndedCycle, read};
use crate::growing_part::GrowingPart;
use crate::status::{DONE, NOT_OPEN};
use crate::views::{release_status, tell_dump, tell_picture};
use std::alloc::Global;

/// `rheap_dump_into`, on a heap that grows.
#[inline(never)]
pub(crate) fn dump(heap: &mut GrowingPart, alloc: Global, text: &mut [u8], needs: &mut usize) -> u8
    ensures { OnPaced (λ old new. IsDump old new text.old text.new needs.new result) heap.old.state
        heap.new.state }
{
    match heap.take(alloc) {
        None => {
            *needs = 0;
            NOT_OPEN
        }
        Some(inner) => {
            let status = tell_dump(inner.paced().heap(), alloc, text, needs);
            heap.give(inner);
            status
        }
    }
}

/// `rheap_draw_into`, on a heap that grows.
#[inline(never)]
pub(crate) fn draw(heap: &mut GrowingPart, alloc: Global, text: &mut [u8], needs: &mut usize) -> u8
    ensures { OnPaced (λ old new. IsPicture old new text.old text.new needs.new result) heap.old.state
        heap.new.state }
{
    match heap.take(alloc) {
        None => {
            *needs = 0;
            NOT_OPEN
        }
        Some(inner) => {
            let status = tell_picture(inner.paced().heap(), alloc, text, needs);
            heap.give(inner);
            status
        }
    }
}

/// `rheap_cycle`, on a heap that grows.
#[inline(never)]
pub(crate) fn cycle(
    heap: &mut GrowingPart,
    alloc: Global,
    reader: &mut RheapCycleReader,
    cycle: &mut RheapEndedCycle,
) -> u8
    ensures { OnPaced (λ old new. ReadsCycle old new reader.old reader.new cycle.new result)
        heap.old.state heap.new.state }
{
    match heap.take(alloc) {
        None => {
            *cycle = NO_CYCLE;
            NOT_OPEN
        }
        Some(inner) => {
            *cycle = read(inner.paced(), reader);
            heap.give(inner);
            DONE
        }
    }
}

/// `rheap_release`, on a heap that grows.
#[inline(never)]
pub(crate) fn release(heap: &mut GrowingPart, alloc: Global) -> u8
    ensures { OnPaced (λ old new. IsReleased old new result) heap.old.state
        heap.new.state }
{
    match heap.take(alloc) {
        None => NOT_OPEN,
        Some(mut inner) => {
            let status = release_status(inner.release());
            heap.give(inner);
            status
        }
    }
}
