//! A heap as a text in the caller's buffer, and memory that is given back.

ghost use Rattle.std.specs.Prelude.{◌≡◌, IfSome};
ghost use Rattle.rh_dump.specs.texts.Line.{dump_text};
ghost use Rattle.rh_heap_dump.specs.HeapDump.{dump_of};
ghost use Rattle.rh_draw.specs.Picture.{IsWhole};
ghost use Rattle.rheap_c.specs.Views.{IsPictureTold, IsToldOrRefused, IsToldWhole, release_status_of};

use crate::status::{CYCLE_ON, DONE, NO_MEMORY, TOO_LONG};
use rh_core::{Heap, ReleaseError};
use rh_draw::draw;
use rh_dump::write_dump;
use rh_heap_dump::graph;
use std::alloc::Global;

/// The title of a picture.
const TITLE: &str = "A heap";

/// Tells the dump of a heap.
pub(crate) fn tell_dump(
    heap: &Heap<Global>,
    alloc: Global,
    buffer: &mut [u8],
    length: &mut usize,
) -> u8
    ensures { IsToldOrRefused (dump_text (dump_of heap.now)) buffer.old buffer.new length.new
        result }
{
    match dump(heap, alloc) {
        Some(text) => tell(&text, buffer, length),
        None => {
            *length = 0;
            NO_MEMORY
        }
    }
}

/// Tells a picture of a heap.
pub(crate) fn tell_picture(
    heap: &Heap<Global>,
    alloc: Global,
    buffer: &mut [u8],
    length: &mut usize,
) -> u8
    ensures { IsPictureTold buffer.old buffer.new length.new result }
{
    match picture(heap, alloc) {
        Some(text) => tell(&text, buffer, length),
        None => {
            *length = 0;
            NO_MEMORY
        }
    }
}

/// The status after memory was given back, or wasn't.
pub(crate) fn release_status(released: Result<(), ReleaseError>) -> u8
    ensures { result ≡ release_status_of released }
{
    match released {
        Ok(()) => DONE,
        Err(ReleaseError::CycleOn) => CYCLE_ON,
        Err(ReleaseError::OutOfMemory) => NO_MEMORY,
    }
}

/// The text of the dump of a heap, unless memory is refused.
fn dump(heap: &Heap<Global>, alloc: Global) -> Option<Vec<u8>>
    ensures { IfSome result (λ text. text.items ≡ dump_text (dump_of heap.now)) }
{
    let graph = graph(alloc, heap).ok()?;
    let mut text = Vec::new(alloc);
    match write_dump(&graph, &mut text) {
        Ok(()) => Some(text),
        Err(_) => None,
    }
}

/// The text of a picture of a heap, unless memory is refused.
fn picture(heap: &Heap<Global>, alloc: Global) -> Option<Vec<u8>>
    ensures { IfSome result (λ text. IsWhole text.items) }
{
    let mut text = Vec::new(alloc);
    match draw(alloc, heap, TITLE, &mut text) {
        Ok(()) => Some(text),
        Err(_) => None,
    }
}

/// Puts a text at the start of the buffer, where there is room for all of it, and counts its bytes.
fn tell(text: &[u8], buffer: &mut [u8], length: &mut usize) -> u8
    ensures { IsToldWhole text.now buffer.old buffer.new length.new result }
{
    let count = text.len();
    *length = count;
    if buffer.len() < count {
        return TOO_LONG;
    }
    buffer[..count].copy_from_slice(text);
    DONE
}
