//! Heaps that grow beside a plain heap: where memory is refused, where no more may be had, and
//! back.

use crate::expectations::expect_equal;
use refusing::{RefusingAllocator, refused_in_turn};
use rh_growing::{GrowingHeap, Growth, Short};
use rh_layout::{Command, Operand, Refusal, RootId};
use rh_model::{CommandError, Plain};
use std::alloc::Allocator;
use std::process::Abort;
use std::rt::HostRuntime;

/// From 60 words on, for objects of 4 words.
const GROWTH: Growth = Growth {
    at_least: 60,
    at_most: 2_000,
    factor: 200,
    biggest: 4,
    ratio: 32,
    owners: 2,
    slots: 4,
};

/// The head of a list.
const HEAD: RootId = RootId { owner: 1, slot: 0 };

const NEW: RootId = RootId { owner: 1, slot: 1 };

const NEW_CELL: Command = Command::Alloc {
    dst: NEW,
    fields: 2,
};

/// What puts the new cell before the list.
const PUT: &[Command] = &[
    Command::Store {
        obj: NEW,
        field: 0,
        operand: Operand::Root(HEAD),
    },
    Command::Copy {
        dst: HEAD,
        src: NEW,
    },
];

const DROP_LIST: Command = Command::Drop { root: HEAD };

const DROP_CELL: Command = Command::Drop { root: NEW };

/// Whether the heap has fewer words than it should for what is used: memory for them was refused.
fn lacks_words<A: Allocator + Copy>(heap: &GrowingHeap<A>) -> bool {
    let words = heap.paced().heap().config().words;
    words < heap.growth().wanted(heap.paced().heap().used())
}

/// What a run of a list met.
#[derive(Clone, Copy)]
struct Met {
    /// Whether the heap lacked words after a flip.
    refused: bool,
    /// Whether an answer wasn't the plain heap's.
    differs: bool,
}

/// Makes a list of so many cells, beside a plain heap.
fn make_list<A: Allocator + Copy, B: Allocator + Copy>(
    heap: &mut GrowingHeap<A>,
    plain: &mut Plain<B>,
    cells: u32,
) -> Met {
    let mut met = Met {
        refused: false,
        differs: false,
    };
    for _ in 0..cells {
        let epoch = heap.paced().heap().epoch();
        let mut same = is_played(heap, plain, &NEW_CELL);
        for command in PUT {
            same = is_played(heap, plain, command) && same;
        }
        met.differs = met.differs || !same;
        if epoch < heap.paced().heap().epoch() && lacks_words(heap) {
            met.refused = true;
        }
    }
    met
}

/// Plays a command, on the plain heap where there was room for it. Whether the answer is
/// right: the plain heap's, or that there is no room in a heap to which memory was refused.
fn is_played<A: Allocator + Copy, B: Allocator + Copy>(
    heap: &mut GrowingHeap<A>,
    plain: &mut Plain<B>,
    command: &Command,
) -> bool {
    let answer = heap.command(1, command);
    if matches!(answer, Err(Refusal::SpaceFull { .. } | Refusal::LogFull)) {
        return heap.short() == Some(Short::Memory);
    }
    answer.map_err(CommandError::Refused) == plain.command(1, command)
}

/// Makes a list in a heap with this memory, beside a plain heap. Whether memory was refused, or the
/// run isn't as it has to be.
fn is_refused<A: Allocator + Copy>(alloc: A, memory: &RefusingAllocator<A>) -> bool {
    let Ok(mut heap) = GrowingHeap::of(memory, GROWTH) else {
        return true;
    };
    let Ok(mut plain) = Plain::new(alloc, 2, 4) else {
        return false;
    };
    let met = make_list(&mut heap, &mut plain, 200);
    let grown = heap.paced().heap().config().words > 4 * GROWTH.at_least;
    if met.differs || !grown || heap.short().is_some() {
        return !memory.has_refused();
    }
    met.refused
}

/// Each growth is refused in turn: the heap goes on as it is, each answer is the plain heap's or
/// says that there is no room, and the heap has grown by the end.
#[test]
fn each_growth_is_refused_in_turn(rt: HostRuntime) {
    let refused = refused_in_turn(rt.alloc(), |memory: &RefusingAllocator<_>| {
        is_refused(rt.alloc(), memory)
    });
    assert!(rt; refused.is_ok_and(|n| n > 9), "{refused:?}");
}

/// Makes a list until a cell has no room, of whose first cell a ticket is told.
fn fill(rt: &impl Abort, heap: &mut GrowingHeap) {
    assert!(rt; heap.watch_room(1).is_ok());
    let mut answer = heap.command(1, &NEW_CELL);
    expect_equal(rt, heap.watch(1, NEW), Ok(0));
    for _ in 0..1_000u32 {
        if answer.is_err() {
            break;
        }
        for command in PUT {
            assert!(rt; heap.command(1, command).is_ok());
        }
        answer = heap.command(1, &NEW_CELL);
    }
    assert!(rt; matches!(answer, Err(Refusal::SpaceFull { need: 4, .. })));
}

/// Drops the list, and collects.
fn drop_list(rt: &impl Abort, heap: &mut GrowingHeap) {
    for command in [DROP_LIST, DROP_CELL] {
        assert!(rt; heap.command(1, &command).is_ok());
    }
    assert!(rt; heap.insist(1, &NEW_CELL).is_ok());
    assert!(rt; heap.collect().is_ok());
}

/// Fills all that the heap may have, and drops it.
fn fill_and_drop(rt: &impl Abort, heap: &mut GrowingHeap) {
    fill(rt, heap);
    expect_equal(rt, heap.short(), Some(Short::AtMost));
    expect_equal(rt, heap.paced().heap().config().words, 2_000);
    assert!(rt; heap.insist(1, &NEW_CELL).is_err());
    expect_equal(rt, heap.next_gone(), None);
    drop_list(rt, heap);
    expect_equal(rt, heap.next_gone(), Some(0));
    expect_equal(rt, heap.short(), None);
    assert!(rt; heap.paced().heap().config().words < 200);
}

/// A list grows until no more words may be had: then the heap says so, before a command is refused.
/// Once the list is dropped there is room again, and the space is smaller. A ticket for its first
/// cell is told then, and not before.
#[test]
fn a_list_fills_all_that_may_be_had(rt: HostRuntime) {
    let mut heap = GrowingHeap::of(rt.alloc(), GROWTH).expect(&rt, "memory is ample");
    fill_and_drop(&rt, &mut heap);
}
