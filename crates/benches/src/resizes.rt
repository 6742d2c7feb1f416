//! Resizes heaps that are full, and tells how long that took: what `bench/growth` times.

use crate::latency::now;
use rh_core::{Config, DealError, Heap};
use rh_layout::limits::MAX_NUMBER;
use rh_layout::{Operand, RootId};
use std::alloc::Global;
use std::rt::Clock;

/// The root of the list, and one by which it is made.
const LIST: RootId = RootId { owner: 0, slot: 0 };

const NEXT: RootId = RootId { owner: 0, slot: 1 };

/// The fields of a cell, its words, and more units of work than a cycle takes.
const FIELDS: u32 = 2;

const WORDS: u32 = 4;

const UNITS: u64 = 1 << 40;

/// The words of the heaps.
const SIZES: [u32; 6] = [131_072, 262_144, 524_288, 1_048_576, 2_097_152, 4_194_304];

/// The entries that the log keeps.
const LOG_LIMIT: u32 = 1;

/// How long calls of one heap took, in nanoseconds.
struct Took {
    same: u64,
    twice: u64,
    release: u64,
}

/// A heap of so many words, a multiple of 4, with a list that has all of them but one; nothing where
/// a call was refused.
fn full(alloc: Global, words: u32) -> Option<Heap> {
    let config = Config {
        words,
        ratio: 64,
        owners: 1,
        slots: 2,
        log_limit: LOG_LIMIT,
        last_number: MAX_NUMBER,
        last_epoch: MAX_NUMBER,
    };
    let mut heap = Heap::new(alloc, config).ok()?;
    join(&mut heap, FIELDS - 1)?;
    for _ in 1..words / WORDS {
        join(&mut heap, FIELDS)?;
    }
    Some(heap)
}

/// A cell of so many fields joins in front of the list; nothing where a call was refused.
fn join(heap: &mut Heap, fields: u32) -> Option<()> {
    heap.alloc(0, NEXT, fields).ok()?;
    heap.store(0, NEXT, 0, Operand::Root(LIST)).ok()?;
    heap.copy(0, LIST, NEXT).ok()?;
    Some(())
}

/// Collects at once; nothing where a call was refused.
fn collect(heap: &mut Heap) -> Option<()> {
    heap.begin().ok()?;
    heap.idle(UNITS).ok()?;
    heap.shade(LIST).ok()?;
    for _ in 0..heap.used() {
        match heap.hold_next() {
            Ok(_) => {}
            Err(DealError::NothingToDeal) => break,
            Err(_) => return None,
        }
    }
    heap.flip().ok()?;
    Some(())
}

/// The nanoseconds of a resize to so many words; nothing where it was refused or the clock failed.
fn resize(rt: &impl Clock, heap: &mut Heap, words: u32) -> Option<u64> {
    let began = now(rt)?;
    heap.resize(words, LOG_LIMIT).ok()?;
    Some(now(rt)?.saturating_sub(began))
}

/// The nanoseconds of a release; nothing where it was refused or the clock failed.
fn release(rt: &impl Clock, heap: &mut Heap) -> Option<u64> {
    let began = now(rt)?;
    heap.release().ok()?;
    Some(now(rt)?.saturating_sub(began))
}

/// Resizes a full heap of so many words to as many, and to twice as many. Then it collects, and
/// gives back the words that the list had before. Nothing where a call was refused or the clock
/// failed.
fn measure(rt: &(impl Clock + AllocGlobal), words: u32) -> Option<Took> {
    let mut heap = full(rt.alloc(), words)?;
    let same = resize(rt, &mut heap, words)?;
    let twice = resize(rt, &mut heap, words.checked_mul(2)?)?;
    collect(&mut heap)?;
    let release = release(rt, &mut heap)?;
    Some(Took {
        same,
        twice,
        release,
    })
}

/// Measures heaps of at most so many words, one after the other, and prints what took how long where
/// that is asked; nothing where it failed.
pub fn run(rt: &(impl Print + Clock + AllocGlobal), at_most: u32, is_timed: bool) -> Option<()> {
    for words in SIZES {
        if words > at_most {
            return Some(());
        }
        let Took {
            same,
            twice,
            release,
        } = measure(rt, words)?;
        if is_timed {
            println!(rt; "words {words} same {same} twice {twice} release {release}").ok()?;
        } else {
            println!(rt; "words {words}").ok()?;
        }
    }
    Some(())
}
