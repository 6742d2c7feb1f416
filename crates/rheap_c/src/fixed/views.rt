//! What a heap of fixed sizes looks like, and memory that it gives back.

ghost use Rattle.rheap_c.specs.Cycles.{ReadsCycle};
ghost use Rattle.rheap_c.specs.Views.{IsDump, IsPicture, IsReleased};

use crate::cycle_numbers::{NO_CYCLE, RheapCycleReader, RheapEndedCycle, read};
use crate::fixed_part::FixedPart;
use crate::status::{DONE, NOT_OPEN};
use crate::views::{release_status, tell_dump, tell_picture};
use std::alloc::Global;

/// `rheap_dump_into`, on a heap of fixed sizes.
#[inline(always)]
pub(crate) fn dump(heap: &mut FixedPart, alloc: Global, text: &mut [u8], needs: &mut usize) -> u8
    ensures { IsDump heap.old.state heap.new.state text.old text.new needs.new result }
{
    match heap.take(alloc) {
        None => {
            *needs = 0;
            NOT_OPEN
        }
        Some(inner) => {
            let status = tell_dump(inner.heap(), alloc, text, needs);
            heap.give(inner);
            status
        }
    }
}

/// `rheap_draw_into`, on a heap of fixed sizes.
#[inline(always)]
pub(crate) fn draw(heap: &mut FixedPart, alloc: Global, text: &mut [u8], needs: &mut usize) -> u8
    ensures { IsPicture heap.old.state heap.new.state text.old text.new needs.new result }
{
    match heap.take(alloc) {
        None => {
            *needs = 0;
            NOT_OPEN
        }
        Some(inner) => {
            let status = tell_picture(inner.heap(), alloc, text, needs);
            heap.give(inner);
            status
        }
    }
}

/// `rheap_cycle`, on a heap of fixed sizes.
#[inline(always)]
pub(crate) fn cycle(
    heap: &mut FixedPart,
    alloc: Global,
    reader: &mut RheapCycleReader,
    cycle: &mut RheapEndedCycle,
) -> u8
    ensures { ReadsCycle heap.old.state heap.new.state reader.old reader.new cycle.new result }
{
    match heap.take(alloc) {
        None => {
            *cycle = NO_CYCLE;
            NOT_OPEN
        }
        Some(inner) => {
            *cycle = read(&inner, reader);
            heap.give(inner);
            DONE
        }
    }
}

/// `rheap_release`, on a heap of fixed sizes.
#[inline(always)]
pub(crate) fn release(heap: &mut FixedPart, alloc: Global) -> u8
    ensures { IsReleased heap.old.state heap.new.state result }
{
    match heap.take(alloc) {
        None => NOT_OPEN,
        Some(mut inner) => {
            let status = release_status(inner.release());
            heap.give(inner);
            status
        }
    }
}
