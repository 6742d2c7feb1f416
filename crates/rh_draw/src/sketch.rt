//! What of a heap is drawn, read once.

use crate::entries::{Entry, read_entries};
use crate::limits::{MOST_ENTRIES, MOST_OBJECTS, MOST_ROOTS, MOST_WORDS};
use rh_core::Heap;
use rh_layout::{OutOfMemory, RootId, Value};
use rh_space::Space;
use std::alloc::Allocator;

/// An object of a space.
#[derive(Clone, Copy)]
pub struct Object {
    /// The word of its header, counted from 0.
    pub address: u32,
    /// How many fields it has.
    pub fields: u32,
    /// Whether it is raw.
    pub raw: bool,
    /// Of a replica the address of its original, and else 0.
    pub origin: u32,
}

impl Object {
    /// The word after its last one.
    pub fn end(&self) -> u32 {
        self.address.saturating_add(self.fields).saturating_add(2)
    }
}

/// What a heap has more of than is drawn one by one.
#[derive(Clone, Copy)]
pub struct Excess {
    /// How many it has.
    pub count: u64,
    /// How many are drawn at most.
    pub most: u64,
    /// What they are.
    pub name: &'static str,
}

/// What of a heap is drawn.
#[derive(Drop)]
pub struct Sketch<B: Allocator> {
    /// The objects of from-space, in order of their addresses.
    pub objects: Vec<Object, B>,
    /// The replicas, in the same order.
    pub replicas: Vec<Object, B>,
    /// The roots that aren't nil, in order of owner, then slot, with what they hold.
    pub roots: Vec<(RootId, Value), B>,
    /// The entries of the log.
    pub entries: Vec<Entry, B>,
}

impl<B: Allocator + Copy> Sketch<B> {
    /// A sketch of nothing.
    pub fn new(alloc: B) -> Sketch<B> {
        Sketch {
            objects: Vec::new(alloc),
            replicas: Vec::new(alloc),
            roots: Vec::new(alloc),
            entries: Vec::new(alloc),
        }
    }

    /// Reads what is drawn of the heap into a sketch of nothing. What the heap has more of than is
    /// drawn one by one is answered: the first of words, entries, objects and roots.
    pub fn read<A: Allocator + Copy>(
        &mut self,
        heap: &Heap<A>,
    ) -> Result<Option<Excess>, OutOfMemory> {
        if let Some(excess) = excess_of(heap) {
            return Ok(Some(excess));
        }
        read_objects(&mut self.objects, heap)?;
        read_roots(&mut self.roots, heap)?;
        if let Some(excess) = excess_in(&self.objects, &self.roots) {
            return Ok(Some(excess));
        }
        read_replicas(&mut self.replicas, heap.replica())?;
        read_entries(&mut self.entries, heap, &self.objects)?;
        Ok(None)
    }
}

/// What there is more of than is drawn, if there is.
fn over(count: u64, most: u64, name: &'static str) -> Option<Excess> {
    if count <= most {
        return None;
    }
    Some(Excess { count, most, name })
}

/// What a heap has more of than is drawn, of its words and the entries of its log.
fn excess_of<A: Allocator + Copy>(heap: &Heap<A>) -> Option<Excess> {
    if let Some(excess) = over(heap.used().into(), MOST_WORDS.into(), "words in use") {
        return Some(excess);
    }
    over(heap.stat().log, MOST_ENTRIES, "entries of the log")
}

/// What there is more of than is drawn, of objects and roots.
fn excess_in(objects: &[Object], roots: &[(RootId, Value)]) -> Option<Excess> {
    if let Some(excess) = over(objects.len() as u64, MOST_OBJECTS as u64, "objects") {
        return Some(excess);
    }
    over(
        roots.len() as u64,
        MOST_ROOTS as u64,
        "roots that aren't nil",
    )
}

/// Reads the objects of from-space, of at most as many words as are drawn.
fn read_objects<A: Allocator + Copy, B: Allocator>(
    objects: &mut Vec<Object, B>,
    heap: &Heap<A>,
) -> Result<(), OutOfMemory> {
    let mut address = 0;
    for _ in 0..MOST_WORDS {
        let Some(fields) = heap.fields(address) else {
            break;
        };
        let object = Object {
            address,
            fields,
            raw: heap.raw(address) == Some(true),
            origin: 0,
        };
        objects.push(object)?;
        address = object.end();
    }
    Ok(())
}

/// The replica at an address of to-space; `None` where there is none.
fn replica_at<A: Allocator + Copy>(space: &Space<A>, address: u32) -> Option<Object> {
    if !space.is_object(address) {
        return None;
    }
    Some(Object {
        address,
        fields: space.fields(address),
        raw: space.raw(address),
        origin: space.origin(address),
    })
}

/// Reads the objects of to-space, at most as many as are drawn.
fn read_replicas<A: Allocator + Copy, B: Allocator>(
    replicas: &mut Vec<Object, B>,
    space: &Space<A>,
) -> Result<(), OutOfMemory> {
    let mut address = 0;
    for _ in 0..MOST_OBJECTS {
        let Some(replica) = replica_at(space, address) else {
            break;
        };
        replicas.push(replica)?;
        address = replica.end();
    }
    Ok(())
}

/// Reads the roots that aren't nil.
fn read_roots<A: Allocator + Copy, B: Allocator>(
    roots: &mut Vec<(RootId, Value), B>,
    heap: &Heap<A>,
) -> Result<(), OutOfMemory> {
    let sizes = heap.config();
    for owner in 0..sizes.owners {
        for slot in 0..sizes.slots {
            let id = RootId { owner, slot };
            match heap.root(id) {
                None | Some(Value::Nil) => {}
                Some(value) => roots.push((id, value))?,
            }
        }
    }
    Ok(())
}
