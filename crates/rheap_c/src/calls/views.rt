//! What a heap looks like: `rheap_dump_into`, `rheap_draw_into`, `rheap_cycle`; and memory that is
//! given back: `rheap_release`.

ghost use Rattle.rheap_c.specs.Cycles.{ReadsCycle};
ghost use Rattle.rheap_c.specs.Grown.{CallsOnPaced};
ghost use Rattle.rheap_c.specs.Views.{IsDump, IsPicture, IsReleased};

use crate::cycle_numbers::{RheapCycleReader, RheapEndedCycle};
use crate::handle::Rheap;
use crate::{fixed, growing};
use std::alloc::Global;

/// What the roots reach, as the text of a dump at the start of `text`, whole or not at all; `needs`
/// tells its bytes, and 0 where no heap is open or memory was refused.
#[unsafe(no_mangle)]
pub extern "C" fn rheap_dump_into(
    heap: &mut Rheap,
    alloc: Global,
    text: &mut [u8],
    needs: &mut usize,
) -> u8
    ensures { CallsOnPaced (λ old new. IsDump old new text.old text.new needs.new result) heap.old
        heap.new }
{
    if heap.fixed.is_empty() {
        return growing::views::dump(&mut heap.growing, alloc, text, needs);
    }
    fixed::views::dump(&mut heap.fixed, alloc, text, needs)
}

/// A picture of the heap in SVG at the start of `text`, whole or not at all; `needs` tells its bytes,
/// and 0 where no heap is open or memory was refused.
#[unsafe(no_mangle)]
pub extern "C" fn rheap_draw_into(
    heap: &mut Rheap,
    alloc: Global,
    text: &mut [u8],
    needs: &mut usize,
) -> u8
    ensures { CallsOnPaced (λ old new. IsPicture old new text.old text.new needs.new result) heap.old
        heap.new }
{
    if heap.fixed.is_empty() {
        return growing::views::draw(&mut heap.growing, alloc, text, needs);
    }
    fixed::views::draw(&mut heap.fixed, alloc, text, needs)
}

/// Reads the heap once more, as `Cycles::after`, and tells the cycle that ended, if one is told. The
/// first reading of a reader, all of which is 0 then, begins, as `Cycles::new`, and tells none.
#[unsafe(no_mangle)]
pub extern "C" fn rheap_cycle(
    heap: &mut Rheap,
    alloc: Global,
    reader: &mut RheapCycleReader,
    cycle: &mut RheapEndedCycle,
) -> u8
    ensures { CallsOnPaced (λ old new. ReadsCycle old new reader.old reader.new cycle.new result)
        heap.old heap.new }
{
    if heap.fixed.is_empty() {
        return growing::views::cycle(&mut heap.growing, alloc, reader, cycle);
    }
    fixed::views::cycle(&mut heap.fixed, alloc, reader, cycle)
}

/// Gives memory of one space back, as `PacedHeap::release`.
#[unsafe(no_mangle)]
pub extern "C" fn rheap_release(heap: &mut Rheap, alloc: Global) -> u8
    ensures { CallsOnPaced (λ old new. IsReleased old new result) heap.old heap.new }
{
    if heap.fixed.is_empty() {
        return growing::views::release(&mut heap.growing, alloc);
    }
    fixed::views::release(&mut heap.fixed, alloc)
}
