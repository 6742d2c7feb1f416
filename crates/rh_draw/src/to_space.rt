//! To-space: the replicas, what each field of them holds, and how far the scan has come.

use crate::arrows::{put_placed, put_reference};
use crate::cells::{put_address, put_box, put_cell, put_pair};
use crate::page::{Page, Strip};
use crate::sketch::Object;
use crate::spaces::word_of;
use rh_core::{Heap, Kind};
use rh_layout::{OutOfMemory, Value};
use rh_space::{NOT_HELD, Space};
use std::alloc::Allocator;

/// The pair that is held of a replica's field; `None` where none is.
fn held<A: Allocator + Copy>(
    space: &Space<A>,
    replica: Object,
    field: u32,
) -> Option<(u64, Value)> {
    if !space.is_object(replica.address) {
        return None;
    }
    if field >= space.fields(replica.address) {
        return None;
    }
    let pair = space.field(replica.address, field);
    if pair.0 == NOT_HELD {
        return None;
    }
    Some(pair)
}

/// Puts a replica's field: filled where its current pair is held, hatched where an older one is,
/// and empty where none is.
fn put_field<A: Allocator + Copy, B: Allocator>(
    svg: &mut String<B>,
    strip: Strip,
    heap: &Heap<A>,
    replica: Object,
    field: u32,
) -> Result<(), OutOfMemory> {
    let word = word_of(replica, field);
    let Some(pair) = held(heap.replica(), replica, field) else {
        return put_cell(svg, strip, word, "missing");
    };
    let is_current = match heap.field(replica.origin, field) {
        Some((number, _)) => number == pair.0,
        None => false,
    };
    let class = if is_current { "held" } else { "old" };
    put_cell(svg, strip, word, class)?;
    put_pair(svg, strip, word, pair)
}

/// Puts the replicas.
pub fn put_replicas<A: Allocator + Copy, B: Allocator>(
    svg: &mut String<B>,
    strip: Strip,
    heap: &Heap<A>,
    replicas: &[Object],
) -> Result<(), OutOfMemory> {
    for replica in replicas {
        put_box(svg, strip, *replica)?;
        for field in 0..replica.fields {
            put_field(svg, strip, heap, *replica, field)?;
        }
    }
    Ok(())
}

/// Puts an arrow for each reference that is held.
pub fn put_held_references<A: Allocator + Copy, B: Allocator>(
    svg: &mut String<B>,
    strip: Strip,
    heap: &Heap<A>,
    replicas: &[Object],
) -> Result<(), OutOfMemory> {
    for replica in replicas {
        for field in 0..replica.fields {
            if let Some((_, Value::Ref(to))) = held(heap.replica(), *replica, field) {
                let word = word_of(*replica, field);
                put_reference(svg, strip, word, to.into(), field.into())?;
            }
        }
    }
    Ok(())
}

/// Puts a dashed arrow from each placed object to its replica.
pub fn put_placements<B: Allocator>(
    svg: &mut String<B>,
    page: Page,
    replicas: &[Object],
) -> Result<(), OutOfMemory> {
    for replica in replicas {
        put_placed(svg, page, replica.origin.into(), replica.address.into())?;
    }
    Ok(())
}

/// Puts which object each replica is of: its address in the replica's second word, and the
/// replica's in the object's.
pub fn put_origins<B: Allocator>(
    svg: &mut String<B>,
    page: Page,
    replicas: &[Object],
) -> Result<(), OutOfMemory> {
    for replica in replicas {
        let (object, to) = (u64::from(replica.origin), u64::from(replica.address));
        put_address(svg, page.from, object + 1, "replica at", replica.address)?;
        put_address(svg, page.to, to + 1, "replica of", replica.origin)?;
    }
    Ok(())
}

/// The word of the field that is dealt next; `None` where all are dealt.
fn scan_word<A: Allocator + Copy>(heap: &Heap<A>, replicas: &[Object]) -> Option<u64> {
    let mut fields: u64 = 0;
    for replica in replicas {
        fields = fields.saturating_add(replica.fields.into());
    }
    let mut dealt = fields.saturating_sub(heap.undealt(Kind::Copies));
    for replica in replicas {
        if dealt < u64::from(replica.fields) {
            return Some(u64::from(replica.address) + 2 + dealt);
        }
        dealt -= u64::from(replica.fields);
    }
    None
}

/// Puts the caption of to-space, at its left: dashed arrows end above it.
pub fn put_to_caption<B: Allocator>(
    svg: &mut String<B>,
    strip: Strip,
    used: u32,
    words: u32,
) -> Result<(), OutOfMemory> {
    let y = strip.upper(0) + 11;
    let (used_y, words_y) = (y + 18, y + 35);
    write!(
        svg,
        "<text class='caption' x='16' y='{y}'>To-space</text>\
         <text x='16' y='{used_y}'>{used} of {words}</text>\
         <text x='16' y='{words_y}'>words used</text>\n"
    )?;
    Ok(())
}

/// Puts the mark where the scan stands.
pub fn put_scan<A: Allocator + Copy, B: Allocator>(
    svg: &mut String<B>,
    strip: Strip,
    heap: &Heap<A>,
    replicas: &[Object],
) -> Result<(), OutOfMemory> {
    let used = u64::from(heap.replica().used());
    let (x, upper) = match scan_word(heap, replicas) {
        Some(word) => (strip.left(word) + 26, strip.upper(word)),
        None => (strip.end_left(used), strip.end_upper(used)),
    };
    let (y, label) = (upper + 46, upper + 67);
    write!(
        svg,
        "<path class='scan' d='M{x} {y}l6 9h-12z'/>\
         <text class='small' x='{x}' y='{label}'>scan</text>\n"
    )?;
    Ok(())
}
