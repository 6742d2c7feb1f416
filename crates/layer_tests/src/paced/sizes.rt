//! Heaps that are made of their sizes, the errors of a runtime, and what is read of a field without
//! a root for it.

use crate::expectations::{Row, expect_equal, expect_texts, is_refused};
use refusing::refused_in_turn;
use rh_heap::{
    ConfigFault, EpochsSpent, Error, GrowingError, HeapError, Operand, OutOfMemory, PaceError,
    PacedHeap, Refusal, ReleaseError, Reply, ResizeError, RoomError, RootId, Sizes, SizesError,
    Value, WatchError,
};
use std::alloc::Allocator;
use std::process::Abort;

const A: RootId = RootId { owner: 1, slot: 0 };

const B: RootId = RootId { owner: 1, slot: 1 };

const SHARED: RootId = RootId { owner: 0, slot: 0 };

/// The words, the biggest object's words, the ratio, the owners and the slots, and why no heap is
/// made of them, or how many words may live in it.
type SizesRow = ([u32; 5], Result<u32, SizesError>);

const MADE: &[SizesRow] = &[
    ([1_000, 10, 8, 2, 2], Ok(434)),
    ([4_096, 10, 32, 16, 256], Ok(3_360)),
    ([55, 10, 32, 1, 1], Ok(11)),
    (
        [54, 10, 32, 1, 1],
        Err(SizesError::Pace(PaceError::TooSmall { need: 55 })),
    ),
    (
        [54, 10, 3, 0, 1],
        Err(SizesError::Pace(PaceError::RatioTooLow)),
    ),
    (
        [5, 0, 64, 1, 1],
        Err(SizesError::Heap(HeapError::Config(ConfigFault::BadSpace))),
    ),
    (
        [16_777_217, 10, 65, 1, 1],
        Err(SizesError::Heap(HeapError::Config(ConfigFault::BadSpace))),
    ),
    (
        [1_000, 10, 65, 0, 1],
        Err(SizesError::Heap(HeapError::Config(ConfigFault::BadRatio))),
    ),
    (
        [1_000, 10, 8, 17, 1],
        Err(SizesError::Heap(HeapError::Config(ConfigFault::BadRoots))),
    ),
    (
        [1_000, 10, 8, 1, 257],
        Err(SizesError::Heap(HeapError::Config(ConfigFault::BadRoots))),
    ),
];

/// Sizes of two owners with two slots each.
const SMALL: Sizes = Sizes {
    words: 100,
    biggest: 10,
    ratio: 8,
    owners: 2,
    slots: 2,
};

#[test]
fn heaps_of_sizes(rt: HostRuntime) {
    for (row, &([words, biggest, ratio, owners, slots], told)) in MADE.iter().enumerate() {
        let rt = Row { rt: &rt, row };
        let sizes = Sizes {
            words,
            biggest,
            ratio,
            owners,
            slots,
        };
        let why = PacedHeap::sized(rt.alloc(), sizes).err();
        expect_equal(&rt, why, told.err());
        if let Ok(live) = told {
            expect_equal(&rt, sizes.live(), Ok(live));
        }
    }
}

#[test]
fn refused_memory(rt: HostRuntime) {
    let refused = refused_in_turn(rt.alloc(), |memory| {
        is_refused(PacedHeap::sized(memory, SMALL))
    });
    // The roots, two spaces and the log.
    expect_equal(&rt, refused, Ok(4));
}

/// What is stored to fields of an object in turn.
const STORED: &[(u32, Operand)] = &[
    (0, Operand::Int(-3)),
    (1, Operand::Root(A)),
    (2, Operand::Root(SHARED)),
];

/// An owner, a root and a field that are peeked at, and what is answered.
const PEEKS: &[((u32, RootId, u32), Result<Reply, Refusal>)] = &[
    ((1, A, 0), Ok(Reply::Int(-3))),
    ((1, A, 1), Ok(Reply::Object(4))),
    ((1, A, 2), Ok(Reply::Raw(3))),
    ((1, A, 3), Ok(Reply::Nil)),
    ((0, SHARED, 2), Ok(Reply::Nil)),
    ((1, A, 4), Err(Refusal::NoField)),
    ((1, B, 0), Err(Refusal::NotObject)),
    ((0, A, 4), Err(Refusal::NotYours)),
    ((0, RootId { owner: 1, slot: 2 }, 4), Err(Refusal::NoRoot)),
    ((2, SHARED, 0), Err(Refusal::NoRoot)),
];

/// Makes an object of four fields and a raw one of three, and stores to the first.
fn make_both<M: Allocator + Copy>(rt: &impl Abort, heap: &mut PacedHeap<M>) {
    expect_equal(rt, heap.alloc(1, A, 4), Ok(Reply::Object(4)));
    expect_equal(rt, heap.alloc_raw(1, SHARED, 3), Ok(Reply::Raw(3)));
    for (row, &(field, operand)) in STORED.iter().enumerate() {
        let rt = &Row { rt, row };
        expect_equal(rt, heap.store(1, A, field, operand), Ok(Reply::Done));
    }
}

/// Peeks at each field. That changes nothing.
fn expect_peeks<M: Allocator + Copy>(rt: &impl Abort, heap: &PacedHeap<M>) {
    let before = heap.stat();
    for (row, &((owner, src, field), answer)) in PEEKS.iter().enumerate() {
        let rt = &Row { rt, row };
        expect_equal(rt, heap.peek(owner, src, field), answer);
    }
    expect_equal(rt, (heap.stat(), heap.root(B)), (before, Some(Value::Nil)));
}

#[test]
fn fields_without_a_root(rt: HostRuntime) {
    let made = PacedHeap::sized(rt.alloc(), SMALL).ok();
    let mut heap = made.expect(&rt, "a heap");
    make_both(&rt, &mut heap);
    expect_peeks(&rt, &heap);
}

#[test]
fn errors_of_a_runtime(rt: HostRuntime) {
    let small = SizesError::Pace(PaceError::TooSmall { need: 55 });
    let bad = SizesError::Heap(HeapError::Config(ConfigFault::BadRoots));
    expect_texts(
        &rt,
        &[
            (small, "no pace: TooSmall need 55"),
            (bad, "no heap: BadRoots"),
        ],
    );
    expect_texts(
        &rt,
        &[
            (Error::from(small), "no pace: TooSmall need 55"),
            (Error::from(bad), "no heap: BadRoots"),
            (
                Error::from(HeapError::OutOfMemory),
                "no heap: out of memory",
            ),
            (Error::from(GrowingError::BadFactor), "no heap: BadFactor"),
            (Error::from(GrowingError::BadLimits), "no heap: BadLimits"),
            (Error::from(PaceError::RatioTooLow), "no pace: RatioTooLow"),
            (Error::from(Refusal::NoField), "refused: NoField"),
            (Error::from(EpochsSpent), "nothing collected: EpochsSpent"),
            (Error::from(ResizeError::Used(9)), "not resized: Used 9"),
            (Error::from(ReleaseError::CycleOn), "not released: CycleOn"),
            (
                Error::from(RoomError::Fewer { now: 2 }),
                "no tickets: Fewer 2",
            ),
            (Error::from(WatchError::Full), "not watched: Full"),
            (Error::from(OutOfMemory), "out of memory"),
        ],
    );
}
