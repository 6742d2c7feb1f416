//! Giving a heap of fixed sizes other words: `rheap_resize`, `rheap_resize_sized`.

ghost use Rattle.rheap_c.specs.Handle.{Calls};
ghost use Rattle.rheap_c.specs.Resized.{IsNotResized, ResizesFor, ResizesSized};

use crate::handle::Rheap;
use crate::{fixed, growing};
use std::alloc::Global;

/// Gives both spaces of the heap so many words, as `PacedHeap::resize` at the pace
/// `Pace::of(words, live, biggest, ratio)`, with the ratio of the heap. A heap that grows chooses its
/// own words, and is left as it is.
#[unsafe(no_mangle)]
pub extern "C" fn rheap_resize(
    heap: &mut Rheap,
    alloc: Global,
    words: u32,
    live: u32,
    biggest: u32,
) -> u8
    ensures { Calls (λ old new. ResizesFor words live biggest old new result)
        (λ old new. IsNotResized old new result) heap.old heap.new }
{
    if heap.fixed.is_empty() {
        return growing::resizing::resize(&mut heap.growing);
    }
    fixed::resizing::resize(&mut heap.fixed, alloc, words, live, biggest)
}

/// Gives both spaces of the heap so many words, as `PacedHeap::resize` at the pace
/// `Pace::filling(words, biggest, ratio)`, with the ratio of the heap. A heap that grows chooses its
/// own words, and is left as it is.
#[unsafe(no_mangle)]
pub extern "C" fn rheap_resize_sized(
    heap: &mut Rheap,
    alloc: Global,
    words: u32,
    biggest: u32,
) -> u8
    ensures { Calls (λ old new. ResizesSized words biggest old new result)
        (λ old new. IsNotResized old new result) heap.old heap.new }
{
    if heap.fixed.is_empty() {
        return growing::resizing::resize(&mut heap.growing);
    }
    fixed::resizing::resize_sized(&mut heap.fixed, alloc, words, biggest)
}
