//! Does one call of a heap that collects by itself many times: what `bench/rattle_calls` counts the
//! instructions of.

use rh_layout::{Operand, Reply, RootId};
use rh_pace::{Pace, PacedHeap};
use std::alloc::Global;

/// The owner of the roots, and how many slots it has.
const OWNER: u32 = 1;

const SLOTS: u32 = 8;

/// The words of the heap: so many that no cycle begins.
const WORDS: u32 = 4_194_304;

/// The units of collector work for each allocated word, and the words of the greatest object.
const RATIO: u32 = 32;

const BIGGEST: u32 = 8;

/// An object of four fields, one that its first field refers to, and a root that takes values.
const OBJECT: RootId = RootId {
    owner: OWNER,
    slot: 0,
};

const OTHER: RootId = RootId {
    owner: OWNER,
    slot: 1,
};

const FREE: RootId = RootId {
    owner: OWNER,
    slot: 2,
};

/// A heap with these objects; nothing where a call was refused.
fn new_heap(alloc: Global) -> Option<PacedHeap> {
    let pace = Pace::filling(WORDS, BIGGEST, RATIO).ok()?;
    let mut heap = PacedHeap::new(alloc, pace.config(WORDS, RATIO, 2, SLOTS), pace).ok()?;
    heap.alloc(OWNER, OBJECT, 4).ok()?;
    heap.alloc(OWNER, OTHER, 2).ok()?;
    heap.store(OWNER, OBJECT, 0, Operand::Root(OTHER)).ok()?;
    heap.store(OWNER, OBJECT, 1, Operand::Int(7)).ok()?;
    Some(heap)
}

/// What a reply tells: a number, or how many fields an object has.
fn told(reply: Reply) -> i64 {
    match reply {
        Reply::Int(number) => number,
        Reply::Object(fields) | Reply::Raw(fields) => i64::from(fields),
        Reply::Done | Reply::Nil | Reply::Same(_) => 0,
    }
}

/// Loads a field so often; the sum of what that told, or nothing where it was refused.
fn load(heap: &mut PacedHeap, field: u32, times: u32) -> Option<i64> {
    let mut sum = 0i64;
    for _ in 0..times {
        sum = sum.wrapping_add(told(heap.load(OWNER, FREE, OBJECT, field).ok()?));
    }
    Some(sum)
}

/// Stores this so often; nothing where that was refused.
fn store(heap: &mut PacedHeap, operand: Operand, times: u32) -> Option<()> {
    for _ in 0..times {
        heap.store(OWNER, OBJECT, 2, operand).ok()?;
    }
    Some(())
}

/// Makes an object with these values so often; nothing where that was refused.
fn make(heap: &mut PacedHeap, values: &[Operand], times: u32) -> Option<()> {
    let fields = u32::try_from(values.len()).ok()?;
    for _ in 0..times {
        heap.make(OWNER, FREE, fields, values).ok()?;
    }
    Some(())
}

/// Does the call of this name so often, and prints the sum of what it told; nothing where it was
/// refused, or there is none.
pub fn run(rt: &(impl Print + AllocGlobal), name: &str, times: u32) -> Option<()> {
    let mut sum = 0i64;
    let mut heap = new_heap(rt.alloc())?;
    let pair = [Operand::Int(7), Operand::Root(OTHER)];
    match name {
        "alloc" => {
            for _ in 0..times {
                heap.alloc(OWNER, FREE, 4).ok()?;
            }
        }
        "copy" => {
            for _ in 0..times {
                heap.copy(OWNER, FREE, OBJECT).ok()?;
            }
        }
        "drop" => {
            for _ in 0..times {
                heap.drop(OWNER, FREE).ok()?;
            }
        }
        "load_root" => sum = load(&mut heap, 0, times)?,
        "load_int" => sum = load(&mut heap, 1, times)?,
        "load_nil" => sum = load(&mut heap, 3, times)?,
        "store_root" => store(&mut heap, Operand::Root(OTHER), times)?,
        "store_int" => store(&mut heap, Operand::Int(7), times)?,
        "store_nil" => store(&mut heap, Operand::Nil, times)?,
        "make_pair" => make(&mut heap, &pair, times)?,
        _ => return None,
    }
    println!(rt; "{name}: {sum}").ok()
}
