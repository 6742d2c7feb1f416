//! The Benchmarks Game's binary-trees: trees of all depths are made and counted beside one that
//! lives long: what `bench/trees` times.

use crate::mutators::{OWNER, root};
use crate::tree::{count, grow_up, heap_of, tell};
use rh_growing::GrowingHeap;
use rh_pace::CollectingHeap;

/// The least depth.
const LEAST: u32 = 4;

/// The slot of the tree that lives long, and the first one of the others.
const LONG: u32 = 0;

const FIRST: u32 = 1;

/// Makes and counts so many trees of a depth. Answers their nodes; nothing where a call was
/// refused.
fn counted(heap: &mut impl CollectingHeap, trees: u32, depth: u32) -> Option<u32> {
    let mut nodes = 0u32;
    for _ in 0..trees {
        grow_up(heap, FIRST, depth, 2).ok()?;
        nodes = nodes.wrapping_add(count(heap, FIRST, depth).ok()?);
    }
    Some(nodes)
}

/// Makes and counts trees of at most this depth, 6 to 20; another depth is taken as the nearest of
/// these. Nothing where a call was refused.
fn play(rt: &impl Print, heap: &mut impl CollectingHeap, most: u32) -> Option<()> {
    let most = most.clamp(LEAST + 2, 20);
    let stretched = counted(heap, 1, most + 1)?;
    println!(rt; "stretch tree of depth {}\t check: {stretched}", most + 1).ok()?;
    grow_up(heap, LONG, most, 2).ok()?;
    heap.drop(OWNER, root(FIRST)).ok()?;
    for depth in LEAST..most + 1 {
        if depth % 2 == 0 {
            let trees = 1u32 << (most - depth + LEAST);
            let nodes = counted(heap, trees, depth)?;
            println!(rt; "{trees}\t trees of depth {depth}\t check: {nodes}").ok()?;
        }
    }
    let nodes = count(heap, LONG, most).ok()?;
    println!(rt; "long lived tree of depth {most}\t check: {nodes}").ok()?;
    tell(rt, heap)
}

/// Runs the bench in a heap of so many words; nothing where a call was refused.
pub fn run(rt: &(impl Print + AllocGlobal), most: u32, words: u32) -> Option<()> {
    let mut heap = heap_of(rt.alloc(), words, 4)?;
    play(rt, &mut heap, most)
}

/// Runs the bench in a heap that grows to at most so many words; nothing where a call was refused.
pub fn run_growing(rt: &(impl Print + AllocGlobal), most: u32, at_most: u32) -> Option<()> {
    let mut heap = GrowingHeap::new(rt.alloc(), at_most).ok()?;
    play(rt, &mut heap, most)
}
