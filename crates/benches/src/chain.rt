//! A heap whose objects form a chain, and its cycles.

use rh_core::{Config, DealError, Heap, Kind};
use rh_layout::limits::{MAX_NUMBER, MAX_PIECE_ITEMS};
use rh_layout::{Command, MAX_FIELDS, Operand, Reply, RootId};
use rh_partial::PartialReplica;
use std::alloc::Global;

/// How many owners there are, and how many slots each has.
const OWNERS: u32 = 16;

const SLOTS: u32 = 256;

/// The fields of each object of the chain, and its words.
const FIELDS: u32 = 248;

const WORDS: u32 = 250;

/// The root by which the chain is reached in a cycle, and two by which it is made.
const FIRST: RootId = RootId { owner: 0, slot: 0 };

const LAST: RootId = RootId { owner: 0, slot: 1 };

const NEXT: RootId = RootId { owner: 0, slot: 2 };

/// The objects that are made in a cycle, for the units of work that they grant: enough for a
/// million words that live.
const GRANTS: u32 = 14;

/// More pieces than a heap has.
const MANY: u32 = 1_000_000;

/// A heap with a chain of objects of so many words, rounded down to whole objects, to whose first
/// one all roots refer; nothing where a call was refused.
pub fn filled(alloc: Global, words: u32) -> Option<Heap> {
    let config = Config {
        words: words.saturating_add(GRANTS * (MAX_FIELDS + 2)),
        ratio: 64,
        owners: OWNERS,
        slots: SLOTS,
        log_limit: 1,
        last_number: MAX_NUMBER,
        last_epoch: MAX_NUMBER,
    };
    let mut heap = Heap::new(alloc, config).ok()?;
    fill(&mut heap, words)?;
    Some(heap)
}

/// Makes the chain, of so many words, and lets all roots refer to its first object; nothing where a
/// call was refused.
fn fill(heap: &mut Heap, words: u32) -> Option<()> {
    make(heap, FIRST, FIELDS)?;
    copy(heap, LAST, FIRST)?;
    for _ in 1..words / WORDS {
        append(heap)?;
    }
    for owner in 0..OWNERS {
        for slot in 0..SLOTS {
            copy(heap, RootId { owner, slot }, FIRST)?;
        }
    }
    Some(())
}

/// Takes so many tickets, one on each object of the chain in turn, again and again; nothing where a
/// call was refused.
pub fn watch(heap: &mut Heap, tickets: u32) -> Option<()> {
    heap.watch_room(tickets).ok()?;
    for _ in 0..tickets {
        heap.watch(0, LAST).ok()?;
        let next = heap.load(0, LAST, LAST, 0).ok()?;
        if !matches!(next, Reply::Object(_)) {
            copy(heap, LAST, FIRST)?;
        }
    }
    copy(heap, LAST, FIRST)
}

/// A new object, to which the last one refers, is the last one from now on.
fn append(heap: &mut Heap) -> Option<()> {
    make(heap, NEXT, FIELDS)?;
    let store = Command::Store {
        obj: LAST,
        field: 0,
        operand: Operand::Root(NEXT),
    };
    heap.command(0, &store).ok()?;
    copy(heap, LAST, NEXT)
}

/// A root names a new object of so many fields.
fn make(heap: &mut Heap, dst: RootId, fields: u32) -> Option<()> {
    heap.command(0, &Command::Alloc { dst, fields }).ok()?;
    Some(())
}

/// A root holds what another does.
fn copy(heap: &mut Heap, dst: RootId, src: RootId) -> Option<()> {
    heap.command(dst.owner, &Command::Copy { dst, src }).ok()?;
    Some(())
}

/// Begins a cycle, and places and holds all that the roots reach; nothing where a call was refused.
/// Each root is shaded last: so the flip finds the roots in the processor's cache, however many
/// words were copied before.
pub fn closed(alloc: Global, heap: &mut Heap) -> Option<()> {
    let epoch = heap.begin().ok()?;
    for _ in 0..GRANTS {
        make(heap, NEXT, MAX_FIELDS)?;
    }
    copy(heap, NEXT, FIRST)?;
    heap.shade(FIRST).ok()?;
    hold_all(alloc, heap, epoch)?;
    for owner in 0..OWNERS {
        for slot in 0..SLOTS {
            heap.shade(RootId { owner, slot }).ok()?;
        }
    }
    Some(())
}

/// Deals copies and gives them until none are left.
fn hold_all(alloc: Global, heap: &mut Heap, epoch: u64) -> Option<()> {
    for _ in 0..MANY {
        match heap.deal(Kind::Copies, MAX_PIECE_ITEMS as u32) {
            Ok(dealt) => {
                let replica = PartialReplica::empty(alloc, epoch).take(&dealt.piece).ok()?;
                heap.give(&replica).ok()?;
            }
            Err(DealError::NothingToDeal) => return Some(()),
            Err(_) => return None,
        }
    }
    None
}
