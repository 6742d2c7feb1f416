//! From-space, and the mark where the used words of a space end.

use crate::arrows::put_reference;
use crate::cells::{put_box, put_cell, put_pair};
use crate::page::{CELL_HEIGHT, ROW_LEFT, ROW_RIGHT, Strip};
use crate::sketch::Object;
use rh_core::Heap;
use rh_layout::{OutOfMemory, Value};
use std::alloc::Allocator;

/// The word of an object's field.
pub fn word_of(object: Object, field: u32) -> u64 {
    u64::from(object.address) + 2 + u64::from(field)
}

/// Puts the mark where the used words of a space end, and the free ones of that row.
pub fn put_end<B: Allocator>(
    svg: &mut String<B>,
    strip: Strip,
    used: u32,
) -> Result<(), OutOfMemory> {
    let words = u64::from(used);
    let (x, y) = (strip.end_left(words), strip.end_upper(words));
    let (above, below, width) = (y - 6, y + 46, ROW_RIGHT - x);
    write!(
        svg,
        "<rect class='free' x='{x}' y='{y}' width='{width}' height='{CELL_HEIGHT}'/>\
         <path class='end' d='M{x} {above}V{below}'/>\n"
    )?;
    Ok(())
}

/// Puts the caption of from-space.
pub fn put_caption<B: Allocator>(
    svg: &mut String<B>,
    strip: Strip,
    used: u32,
    words: u32,
) -> Result<(), OutOfMemory> {
    let y = u64::from(strip.top) + 14;
    write!(
        svg,
        "<text class='caption' x='{ROW_LEFT}' y='{y}'>From-space: {used} of {words} words used\
         </text><text class='note' x='782' y='{y}'>#: number of a field's last store</text>\n"
    )?;
    Ok(())
}

/// Puts an object of from-space.
fn put_object<A: Allocator + Copy, B: Allocator>(
    svg: &mut String<B>,
    strip: Strip,
    heap: &Heap<A>,
    object: Object,
) -> Result<(), OutOfMemory> {
    put_box(svg, strip, object)?;
    for field in 0..object.fields {
        if let Some(pair) = heap.field(object.address, field) {
            let word = word_of(object, field);
            put_cell(svg, strip, word, "cell")?;
            put_pair(svg, strip, word, pair)?;
        }
    }
    Ok(())
}

/// Puts the objects of from-space.
pub fn put_objects<A: Allocator + Copy, B: Allocator>(
    svg: &mut String<B>,
    strip: Strip,
    heap: &Heap<A>,
    objects: &[Object],
) -> Result<(), OutOfMemory> {
    for object in objects {
        put_object(svg, strip, heap, *object)?;
    }
    Ok(())
}

/// Puts an arrow for each reference in a field of these objects.
pub fn put_references<A: Allocator + Copy, B: Allocator>(
    svg: &mut String<B>,
    strip: Strip,
    heap: &Heap<A>,
    objects: &[Object],
) -> Result<(), OutOfMemory> {
    for object in objects {
        for field in 0..object.fields {
            if let Some((_, Value::Ref(to))) = heap.field(object.address, field) {
                let word = word_of(*object, field);
                put_reference(svg, strip, word, to.into(), field.into())?;
            }
        }
    }
    Ok(())
}
