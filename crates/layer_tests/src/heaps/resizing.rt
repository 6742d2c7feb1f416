//! Heaps that are resized, and give memory back.

use crate::commands::{Asked, SIZES, expect_answers};
use crate::expectations::{Row, expect_equal, expect_refusals, expect_texts};
use refusing::refused_in_turn;
use rh_core::{Config, Heap, ReleaseError, ResizeError};
use rh_layout::{Command, Operand, Refusal, Reply, RootId};
use std::alloc::Allocator;
use std::process::Abort;

/// The sizes of a heap of 16 words, with a log of two entries.
const SMALL: Config = Config {
    words: 16,
    log_limit: 2,
    ..SIZES
};

/// Sizes that a heap of 9 used words is given in turn, and what is answered.
const NINE_USED: &[((u32, u32), Result<(), ResizeError>)] = &[
    ((7, 2), Err(ResizeError::BadSpace)),
    ((16_777_217, 0), Err(ResizeError::BadSpace)),
    ((8, 0), Err(ResizeError::Used(9))),
    ((9, 0), Err(ResizeError::BadLog)),
    ((9, 1_048_577), Err(ResizeError::BadLog)),
    ((9, 2), Ok(())),
];

/// The same in a cycle, of one of 11 used words, whose log has two entries.
const TWO_LOGGED: &[((u32, u32), Result<(), ResizeError>)] = &[
    ((10, 1), Err(ResizeError::Used(11))),
    ((40, 1), Err(ResizeError::Entries(2))),
    ((40, 2), Ok(())),
];

/// The root of an object of two fields.
const OBJECT: RootId = RootId { owner: 1, slot: 0 };

/// The object of two fields is made.
const FIRST_OBJECT: Asked = (
    Command::Alloc {
        dst: OBJECT,
        fields: 2,
    },
    Ok(Reply::Object(2)),
);

/// Objects of two fields and of three are made.
const TWO_OBJECTS: &[Asked] = &[
    FIRST_OBJECT,
    (
        Command::Alloc {
            dst: RootId { owner: 1, slot: 1 },
            fields: 3,
        },
        Ok(Reply::Object(3)),
    ),
];

/// A third object, without fields.
const THIRD_OBJECT: Command = Command::Alloc {
    dst: RootId { owner: 0, slot: 0 },
    fields: 0,
};

/// A store of nil to the first field of the first object.
const STORE: Command = Command::Store {
    obj: OBJECT,
    field: 0,
    operand: Operand::Nil,
};

/// That store twice.
const TWO_STORES: &[Asked] = &[(STORE, Ok(Reply::Done)), (STORE, Ok(Reply::Done))];

/// Resizes a heap in turn, as a table has it.
fn resize_each<A: Allocator + Copy>(
    rt: &impl Abort,
    heap: &mut Heap<A>,
    table: &[((u32, u32), Result<(), ResizeError>)],
) {
    for (row, &((words, log_limit), answer)) in table.iter().enumerate() {
        let rt = &Row { rt, row };
        expect_equal(rt, heap.resize(words, log_limit), answer);
    }
}

/// A heap is resized to what is used, and past it, before a cycle and in one.
#[test]
fn a_heap_is_resized(rt: HostRuntime) {
    let mut heap = Heap::new(rt.alloc(), SMALL).expect(&rt, "a heap");
    resize_outside_a_cycle(&rt, &mut heap);
    assert!(rt; heap.begin().is_ok());
    expect_answers(&rt, &mut heap, TWO_STORES);
    resize_each(&rt, &mut heap, TWO_LOGGED);
    release_after_abandoning(&rt, &mut heap);
}

/// Before a cycle a third object is refused at the size that two objects use. It fits once the heap
/// is resized past that.
fn resize_outside_a_cycle<A: Allocator + Copy>(rt: &impl Abort, heap: &mut Heap<A>) {
    expect_answers(rt, heap, TWO_OBJECTS);
    resize_each(rt, heap, NINE_USED);
    let full = Err(Refusal::SpaceFull { need: 2, free: 0 });
    expect_answers(rt, heap, &[(THIRD_OBJECT, full)]);
    expect_equal(rt, heap.resize(11, 2), Ok(()));
    expect_answers(rt, heap, &[(THIRD_OBJECT, Ok(Reply::Object(0)))]);
}

/// A resized heap gives memory back once its cycle is abandoned.
fn release_after_abandoning<A: Allocator + Copy>(rt: &impl Abort, heap: &mut Heap<A>) {
    let stat = heap.stat();
    expect_equal(rt, (stat.used, stat.free, stat.log), (11, 29, 2));
    expect_equal(rt, heap.release(), Err(ReleaseError::CycleOn));
    assert!(rt; heap.abandon().is_ok());
    expect_equal(rt, heap.release(), Ok(()));
}

/// Makes a heap and grows it. Answers whether memory was refused.
fn is_refused_a_growth<A: Allocator + Copy>(rt: &impl Abort, memory: A) -> bool {
    let mut made = Heap::new(memory, SMALL);
    match &mut made {
        Ok(heap) => is_refused_to_grow(rt, heap),
        Err(_) => true,
    }
}

/// Grows a heap, and checks that a growth that is refused changes nothing and that a smaller size
/// isn't refused then. Answers whether memory was refused.
fn is_refused_to_grow<A: Allocator + Copy>(rt: &impl Abort, heap: &mut Heap<A>) -> bool {
    expect_answers(rt, heap, &[FIRST_OBJECT]);
    let before = heap.stat();
    if let Err(why) = heap.resize(64, 8) {
        expect_equal(rt, why, ResizeError::OutOfMemory);
        expect_equal(rt, heap.stat(), before);
        expect_equal(rt, heap.config(), SMALL);
        expect_equal(rt, heap.resize(8, 1), Ok(()));
        return true;
    }
    heap.release().is_err()
}

/// Of a heap that is made, grown and released each allocation is refused once.
#[test]
fn each_growth_is_refused_in_turn(rt: HostRuntime) {
    let refused = refused_in_turn(rt.alloc(), |memory| is_refused_a_growth(&rt, memory));
    expect_refusals(&rt, refused, 8);
}

/// Why a heap isn't resized.
const RESIZES: &[(ResizeError, &str)] = &[
    (ResizeError::BadSpace, "BadSpace"),
    (ResizeError::Used(9), "Used 9"),
    (ResizeError::BadLog, "BadLog"),
    (ResizeError::Entries(2), "Entries 2"),
    (ResizeError::OutOfMemory, "out of memory"),
];

/// Why no memory is given back.
const RELEASES: &[(ReleaseError, &str)] = &[
    (ReleaseError::CycleOn, "CycleOn"),
    (ReleaseError::OutOfMemory, "out of memory"),
];

#[test]
fn texts_of_refused_resizes(rt: HostRuntime) {
    expect_texts(&rt, RESIZES);
    expect_texts(&rt, RELEASES);
}
