//! Objects that are made with their values, straight, of values as they lie, and insisted on.

use crate::expectations::expect_equal;
use crate::paced::calls::{SIZES, small_heap};
use rh_layout::{Operand, Reply, RootId, Shape};
use rh_pace::PacedHeap;
use std::alloc::Allocator;
use std::process::Abort;

const A: RootId = RootId { owner: 1, slot: 0 };

const B: RootId = RootId { owner: 1, slot: 1 };

const PAIR: Shape = Shape {
    fields: 2,
    raw: false,
};

const LONG: Shape = Shape {
    fields: 8,
    raw: true,
};

/// No cycle is on, and one would begin once fewer than 20 of the 28 words are free that are left. A
/// refused object isn't made either.
fn expect_straight<M: Allocator + Copy>(rt: &impl Abort, heap: &mut PacedHeap<M>) {
    let pair = [Operand::Int(5), Operand::Nil];
    let made = heap.make_straight(1, A, PAIR, &pair);
    expect_equal(rt, made, Some(Reply::Object(2)));
    expect_equal(rt, heap.make_straight(1, B, LONG, &[]), None);
    let refused = [Operand::Int(5), Operand::Root(B), Operand::Nil];
    expect_equal(rt, heap.make_straight(1, B, PAIR, &refused), None);
}

/// So it is of values that are read where they lie.
fn expect_given<M: Allocator + Copy>(rt: &impl Abort, heap: &mut PacedHeap<M>) {
    let pair = [Operand::Int(7), Operand::Root(A)];
    let made = heap.make_given(1, B, PAIR, &pair);
    expect_equal(rt, made, Some(Reply::Object(2)));
    expect_equal(rt, heap.peek(1, B, 0), Ok(Reply::Int(7)));
    expect_equal(rt, heap.peek(1, B, 1), Ok(Reply::Object(2)));
    expect_equal(rt, heap.make_given(1, B, LONG, &[Operand::Nil]), None);
    expect_equal(
        rt,
        heap.make_given(1, B, PAIR, &[Operand::Int(1 << 62)]),
        None,
    );
}

/// Objects of 8 words, of which one is kept at a time, find room in 32 words.
fn expect_insisted<M: Allocator + Copy>(rt: &impl Abort, heap: &mut PacedHeap<M>) {
    for _ in 0..8 {
        let made = heap.insist_make(1, B, 6, &[Operand::Root(A)]);
        expect_equal(rt, made, Ok(Reply::Object(6)));
    }
    expect_equal(rt, heap.peek(1, B, 0), Ok(Reply::Object(2)));
    let made = heap.insist_make_raw(1, B, 1, &[Operand::Int(6)]);
    expect_equal(rt, made, Ok(Reply::Raw(1)));
}

#[test]
fn an_object_with_its_values_finds_room(rt: HostRuntime) {
    let mut heap = small_heap(&rt, rt.alloc(), SIZES);
    expect_straight(&rt, &mut heap);
    expect_given(&rt, &mut heap);
    expect_insisted(&rt, &mut heap);
}
