//! Objects that are made with their values, where no trace reaches.

use crate::commands::{SIZES, expect_answers, load};
use crate::expectations::{Row, expect_equal};
use rh_core::Heap;
use rh_layout::{MAX_INT, Operand, Refusal, Reply, RootId, Shape};
use std::alloc::Allocator;
use std::process::Abort;

const LIST: RootId = RootId { owner: 1, slot: 0 };

const OTHER: RootId = RootId { owner: 1, slot: 1 };

const ANOTHERS: RootId = RootId { owner: 2, slot: 0 };

/// An object's fields, its values, and why the owner 1 may not have it. `LIST` holds an object.
type Refused = (u32, &'static [Operand], Refusal);

const REFUSED: &[Refused] = &[
    (4096, &[], Refusal::FieldsRange),
    (1, &[Operand::Nil, Operand::Nil], Refusal::NoField),
    (2, &[Operand::Int(MAX_INT + 1)], Refusal::IntRange),
    (2, &[Operand::Root(ANOTHERS)], Refusal::NoRoot),
    // The first in order counts, and what is asked before the limits.
    (
        1,
        &[Operand::Int(MAX_INT + 1), Operand::Nil],
        Refusal::IntRange,
    ),
    (60, &[Operand::Root(ANOTHERS)], Refusal::NoRoot),
    (60, &[], Refusal::SpaceFull { need: 62, free: 56 }),
];

/// Checks that each is refused, and changes nothing.
fn expect_refused<A: Allocator + Copy>(rt: &impl Abort, heap: &mut Heap<A>) {
    for (row, &(fields, values, refusal)) in REFUSED.iter().enumerate() {
        let rt = &Row { rt, row };
        let before = heap.stat();
        expect_equal(rt, heap.make(1, OTHER, fields, values), Err(refusal));
        let shape = Shape { fields, raw: false };
        expect_equal(rt, heap.make_given(1, OTHER, shape, values), None);
        expect_equal(rt, heap.stat(), before);
    }
}

/// Puts a number before the list, which its own root names.
fn push<A: Allocator + Copy>(rt: &impl Abort, heap: &mut Heap<A>, number: i64) {
    let pair = [Operand::Int(number), Operand::Root(LIST)];
    expect_equal(rt, heap.make(1, LIST, 2, &pair), Ok(Reply::Object(2)));
}

#[test]
fn a_value_may_be_what_the_root_held(rt: HostRuntime) {
    let mut heap = Heap::new(rt.alloc(), SIZES).expect(&rt, "a heap");
    push(&rt, &mut heap, 5);
    push(&rt, &mut heap, 6);
    let fields = [
        (load(OTHER, LIST, 0), Ok(Reply::Int(6))),
        (load(OTHER, LIST, 1), Ok(Reply::Object(2))),
        (load(LIST, OTHER, 0), Ok(Reply::Int(5))),
        (load(OTHER, OTHER, 1), Ok(Reply::Nil)),
    ];
    expect_answers(&rt, &mut heap, &fields);
    expect_equal(&rt, heap.stat().number, 4);
}

#[test]
fn a_refused_object_changes_nothing(rt: HostRuntime) {
    let mut heap = Heap::new(rt.alloc(), SIZES).expect(&rt, "a heap");
    push(&rt, &mut heap, 5);
    push(&rt, &mut heap, 6);
    expect_refused(&rt, &mut heap);
    let raw = [Operand::Int(1), Operand::Root(LIST)];
    let answer = heap.make_raw(1, OTHER, 2, &raw);
    expect_equal(&rt, answer, Err(Refusal::RawField));
    expect_equal(
        &rt,
        heap.make_raw(1, OTHER, 2, &[Operand::Int(1)]),
        Ok(Reply::Raw(2)),
    );
}
