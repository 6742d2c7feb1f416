//! Raw objects in the heap, where no trace reaches.

use crate::commands::{SIZES, item, piece, replica_of, root, store};
use crate::expectations::{Row, expect_equal};
use rh_core::{GiveError, Given, Heap, Shaded};
use rh_layout::{Item, Operand, Reply, RootId, Value};
use std::alloc::Allocator;
use std::process::Abort;

/// The root of the raw object, which is the first object.
const RAW: RootId = RootId { owner: 1, slot: 0 };

const ONE_STALE: Given = Given {
    joined: 0,
    repeated: 0,
    stale: 1,
    placed: 0,
};

/// An entry of the field has its number, and another value.
fn forged(field: u32) -> Result<Given, GiveError> {
    Err(GiveError::Forged { object: 0, field })
}

/// Gives a replica of this entry.
fn give<A: Allocator + Copy>(
    rt: &impl Abort,
    memory: A,
    heap: &mut Heap<A>,
    entry: Item,
) -> Result<Given, GiveError> {
    heap.give(&replica_of(rt, memory, &piece(rt, 1, &[entry])))
}

/// A cycle in which the raw object, which was stored to, is placed, and one that isn't raw is made.
fn place_raw<A: Allocator + Copy>(rt: &impl Abort, heap: &mut Heap<A>) {
    expect_equal(rt, heap.alloc_raw(1, RAW, 2), Ok(Reply::Raw(2)));
    let five = store(RAW, 0, Operand::Int(5));
    expect_equal(rt, heap.command(1, &five), Ok(Reply::Done));
    expect_equal(rt, heap.begin(), Ok(1));
    expect_equal(rt, heap.alloc(1, root(1, 1), 6), Ok(Reply::Object(6)));
    expect_raw(rt, heap);
    expect_equal(rt, heap.shade(RAW), Ok(Shaded::Placed));
}

/// Checks which addresses have a raw object, another one or none.
fn expect_raw<A: Allocator + Copy>(rt: &impl Abort, heap: &Heap<A>) {
    expect_equal(rt, (heap.raw(0), heap.raw(4)), (Some(true), Some(false)));
    expect_equal(rt, (heap.raw(1), heap.raw(12)), (None, None));
}

#[test]
fn no_give_puts_a_reference_into_a_raw_object(rt: HostRuntime) {
    let memory = rt.alloc();
    let mut heap = Heap::new(memory, SIZES).expect(&rt, "a heap");
    place_raw(&rt, &mut heap);
    let invented = [
        (item(0, 0, 1, Value::Ref(4)), forged(0)),
        (item(0, 1, 0, Value::Ref(4)), forged(1)),
        (item(0, 0, 0, Value::Ref(4)), Ok(ONE_STALE)),
    ];
    for (row, &(made_up, answer)) in invented.iter().enumerate() {
        let rt = Row { rt: &rt, row };
        expect_equal(&rt, give(&rt, memory, &mut heap, made_up), answer);
        expect_equal(&rt, heap.field(0, 0), Some((1, Value::Int(5))));
        expect_equal(&rt, heap.field(0, 1), Some((0, Value::Nil)));
    }
}
