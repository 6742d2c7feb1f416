//! Trees of a heap that collects by itself, made and counted without recursion on the heap's side:
//! each level of a tree has a slot.

use crate::mutators::{OWNER, root};
use rh_layout::{Operand, Refusal, Reply};
use rh_pace::{CollectingHeap, Pace, PacedHeap};
use std::alloc::Global;

/// The slots of the owner: one for each level of a tree, and those of whole trees above.
const SLOTS: u32 = 64;

/// The units of collector work for each allocated word.
const RATIO: u32 = 32;

/// A heap of so many words, whose objects have at most `biggest` words; nothing where no pace keeps
/// up or memory was refused.
pub fn heap_of(alloc: Global, words: u32, biggest: u32) -> Option<PacedHeap> {
    let pace = Pace::filling(words, biggest, RATIO).ok()?;
    PacedHeap::new(alloc, pace.config(words, RATIO, 2, SLOTS), pace).ok()
}

/// A new node of so many fields in a slot.
pub fn make(heap: &mut impl CollectingHeap, slot: u32, fields: u32) -> Result<(), Refusal> {
    heap.alloc(OWNER, root(slot), fields)?;
    Ok(())
}

/// A field of the node in a slot takes what another slot holds.
pub fn link(
    heap: &mut impl CollectingHeap,
    slot: u32,
    field: u32,
    from: u32,
) -> Result<(), Refusal> {
    heap.store(OWNER, root(slot), field, Operand::Root(root(from)))?;
    Ok(())
}

/// A whole tree of this depth in a slot, its children made first, with so many fields a node; the
/// slots above it are used.
pub fn grow_up(
    heap: &mut impl CollectingHeap,
    slot: u32,
    depth: u32,
    fields: u32,
) -> Result<(), Refusal> {
    if depth == 0 {
        return make(heap, slot, fields);
    }
    let (left, right) = (slot.wrapping_add(1), slot.wrapping_add(2));
    grow_up(heap, left, depth - 1, fields)?;
    grow_up(heap, right, depth - 1, fields)?;
    make(heap, slot, fields)?;
    link(heap, slot, 0, left)?;
    link(heap, slot, 1, right)
}

/// Grows the node in a slot to a tree of this depth, its children made after it; the slots above it
/// are used.
pub fn grow_down(
    heap: &mut impl CollectingHeap,
    slot: u32,
    depth: u32,
    fields: u32,
) -> Result<(), Refusal> {
    let child = slot.wrapping_add(1);
    if depth == 0 {
        return Ok(());
    }
    make(heap, child, fields)?;
    link(heap, slot, 0, child)?;
    grow_down(heap, child, depth - 1, fields)?;
    make(heap, child, fields)?;
    link(heap, slot, 1, child)?;
    grow_down(heap, child, depth - 1, fields)
}

/// Whether a field of the node in a slot names a node, which the next slot holds then.
fn goes_down(heap: &mut impl CollectingHeap, slot: u32, field: u32) -> Result<bool, Refusal> {
    let reply = heap.load(OWNER, root(slot.wrapping_add(1)), root(slot), field)?;
    Ok(matches!(reply, Reply::Object(_)))
}

/// The nodes of the tree in a slot, which is at most so deep; the slots above it are used.
pub fn count(heap: &mut impl CollectingHeap, slot: u32, depth: u32) -> Result<u32, Refusal> {
    if depth == 0 {
        return Ok(1);
    }
    let mut nodes = 1u32;
    if goes_down(heap, slot, 0)? {
        nodes = nodes.wrapping_add(count(heap, slot.wrapping_add(1), depth - 1)?);
    }
    if goes_down(heap, slot, 1)? {
        nodes = nodes.wrapping_add(count(heap, slot.wrapping_add(1), depth - 1)?);
    }
    Ok(nodes)
}

/// Prints how many cycles ended, and the words that the heap has; nothing where that failed.
pub fn tell(rt: &impl Print, heap: &impl CollectingHeap) -> Option<()> {
    let (cycles, words) = (
        heap.paced().stat().flips,
        heap.paced().heap().config().words,
    );
    println!(rt; "cycles {cycles} words {words}").ok()
}
