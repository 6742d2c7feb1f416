//! The entries of a heap's log, found again in the fields that were stored.
//!
//! In a cycle each store is an entry, so entries have the last numbers, one after the other. The
//! field of an entry is the one that has its number. Once a later store has taken the field, none
//! has.

use crate::sketch::Object;
use rh_core::{Heap, Kind};
use rh_layout::{OutOfMemory, Value};
use std::alloc::Allocator;

/// A field and what it holds.
#[derive(Clone, Copy)]
pub struct Filled {
    /// The address of the object.
    pub object: u32,
    /// The field, counted from 0.
    pub field: u32,
    /// What it holds.
    pub value: Value,
}

/// An entry of the log.
#[derive(Clone, Copy)]
pub struct Entry {
    /// The number of its store.
    pub number: u64,
    /// Whether a deal or a hold has looked at it.
    pub is_past: bool,
    /// The field with its number; `None` where a later store has taken it.
    pub current: Option<Filled>,
}

/// Reads the entries, before their fields are found.
fn read_numbers<A: Allocator + Copy, B: Allocator>(
    entries: &mut Vec<Entry, B>,
    heap: &Heap<A>,
) -> Result<(), OutOfMemory> {
    let stat = heap.stat();
    let before = stat.number.saturating_sub(stat.log);
    let past = stat.log.saturating_sub(heap.undealt(Kind::Entries));
    for i in 0..stat.log {
        entries.push(Entry {
            number: before.saturating_add(i).saturating_add(1),
            is_past: i < past,
            current: None,
        })?;
    }
    Ok(())
}

/// Gives the entry with the field's number its field, where there is one.
fn find<A: Allocator + Copy>(entries: &mut [Entry], heap: &Heap<A>, object: u32, field: u32) {
    if entries.is_empty() {
        return;
    }
    let first = entries[0].number;
    let Some((number, value)) = heap.field(object, field) else {
        return;
    };
    if number < first {
        return;
    }
    if let Some(entry) = entries.get_mut((number - first) as usize) {
        entry.current = Some(Filled {
            object,
            field,
            value,
        });
    }
}

/// Reads the entries of the heap's log, in order of their numbers, with these objects' fields.
pub fn read_entries<A: Allocator + Copy, B: Allocator>(
    entries: &mut Vec<Entry, B>,
    heap: &Heap<A>,
    objects: &[Object],
) -> Result<(), OutOfMemory> {
    read_numbers(entries, heap)?;
    for object in objects {
        for field in 0..object.fields {
            find(entries, heap, object.address, field);
        }
    }
    Ok(())
}
