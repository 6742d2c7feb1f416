//! GCBench (Ellis, Kovac and Boehm): trees of several depths, made from the root down and from the
//! leaves up, beside a tree and an array that live long: what `bench/trees` times.
//!
//! An object has at most 4,095 fields, so the array of 500,000 numbers is a tree, of leaves of 128.

use crate::mutators::{OWNER, root};
use crate::tree::{count, grow_down, grow_up, heap_of, link, make, tell};
use rh_growing::GrowingHeap;
use rh_layout::Operand;
use rh_pace::CollectingHeap;

/// The fields of a node: two trees and two numbers.
const FIELDS: u32 = 4;

/// The fields of a leaf of the array, and the leaves of a node.
const LEAF: u32 = 128;

const LEAVES: u32 = 64;

/// The slots of the tree and the array that live long, and the first one of the others.
const LONG: u32 = 0;

const ARRAY: u32 = 1;

const FIRST: u32 = 2;

/// How deep trees are: the one that stretches the heap, the ones that live long, and the others,
/// from the least to below `above`.
#[derive(Clone, Copy)]
pub struct Depths {
    stretch: u32,
    long: u32,
    array: u32,
    least: u32,
    above: u32,
}

impl Depths {
    /// Those of the bench.
    pub const WHOLE: Depths = Depths {
        stretch: 18,
        long: 16,
        array: 6,
        least: 4,
        above: 17,
    };

    /// Small ones.
    pub const LITTLE: Depths = Depths {
        stretch: 7,
        long: 6,
        array: 1,
        least: 2,
        above: 7,
    };
}

/// The nodes of a tree of this depth.
fn nodes_of(depth: u32) -> u32 {
    (2u32 << depth.min(30)).saturating_sub(1)
}

/// The numbers of a leaf of the array, each with its place; nothing where a call was refused.
fn fill_leaf(heap: &mut impl CollectingHeap, slot: u32) -> Option<()> {
    for place in 0..LEAF {
        heap.store(OWNER, root(slot), place, Operand::Int(place.into()))
            .ok()?;
    }
    Some(())
}

/// The leaves of a node of the array; nothing where a call was refused.
fn fill_node(heap: &mut impl CollectingHeap, slot: u32) -> Option<()> {
    let leaf = slot.wrapping_add(1);
    for field in 0..LEAVES {
        make(heap, leaf, LEAF).ok()?;
        fill_leaf(heap, leaf)?;
        link(heap, slot, field, leaf).ok()?;
    }
    Some(())
}

/// An array in a slot: nodes with leaves at the ends of a tree of this depth; nothing where a call
/// was refused.
fn array_of(heap: &mut impl CollectingHeap, slot: u32, depth: u32) -> Option<()> {
    make(heap, slot, LEAVES).ok()?;
    if depth == 0 {
        return fill_node(heap, slot);
    }
    let half = slot.wrapping_add(1);
    array_of(heap, half, depth - 1)?;
    link(heap, slot, 0, half).ok()?;
    array_of(heap, half, depth - 1)?;
    link(heap, slot, 1, half).ok()
}

/// Makes trees of a depth from the root down and from the leaves up, as many as have twice the
/// nodes of the greatest tree; nothing where a call was refused.
fn construct(heap: &mut impl CollectingHeap, depth: u32, stretch: u32) -> Option<u32> {
    let nodes = 2 * u64::from(nodes_of(stretch));
    let trees = u32::try_from(nodes / u64::from(nodes_of(depth)).max(1)).ok()?;
    for _ in 0..trees {
        make(heap, FIRST, FIELDS).ok()?;
        grow_down(heap, FIRST, depth, FIELDS).ok()?;
        heap.drop(OWNER, root(FIRST)).ok()?;
    }
    for _ in 0..trees {
        grow_up(heap, FIRST, depth, FIELDS).ok()?;
        heap.drop(OWNER, root(FIRST)).ok()?;
    }
    Some(trees)
}

/// Makes the trees of all depths, and counts the one that lives long; nothing where a call was
/// refused.
fn play(rt: &impl Print, heap: &mut impl CollectingHeap, depths: Depths) -> Option<()> {
    grow_up(heap, FIRST, depths.stretch, FIELDS).ok()?;
    heap.drop(OWNER, root(FIRST)).ok()?;
    make(heap, LONG, FIELDS).ok()?;
    grow_down(heap, LONG, depths.long, FIELDS).ok()?;
    array_of(heap, ARRAY, depths.array)?;
    for depth in depths.least..depths.above {
        if depth % 2 == 0 {
            let trees = construct(heap, depth, depths.stretch)?;
            println!(rt; "{trees} trees of depth {depth}, twice").ok()?;
        }
    }
    let nodes = count(heap, LONG, depths.long).ok()?;
    println!(rt; "long lived tree: {nodes} nodes").ok()?;
    tell(rt, heap)
}

/// Runs the bench in a heap of so many words; nothing where a call was refused.
pub fn run(rt: &(impl Print + AllocGlobal), depths: Depths, words: u32) -> Option<()> {
    let mut heap = heap_of(rt.alloc(), words, LEAF + 2)?;
    play(rt, &mut heap, depths)
}

/// Runs the bench in a heap that grows to at most so many words; nothing where a call was refused.
pub fn run_growing(rt: &(impl Print + AllocGlobal), depths: Depths, at_most: u32) -> Option<()> {
    let mut heap = GrowingHeap::new(rt.alloc(), at_most).ok()?;
    play(rt, &mut heap, depths)
}
