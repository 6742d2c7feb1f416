//! Whole numbers that are stored to the fields of one object, and read from them.

use crate::expectations::{Row, expect_equal};
use crate::paced::calls::{SIZES, small_heap};
use rh_core::Config;
use rh_layout::{MAX_INT, Operand, Refusal, Reply, RootId};
use rh_pace::PacedHeap;
use std::alloc::Allocator;
use std::process::Abort;

const A: RootId = RootId { owner: 1, slot: 0 };

const B: RootId = RootId { owner: 1, slot: 1 };

const C: RootId = RootId { owner: 0, slot: 0 };

/// Numbers from a field on, and why they are refused in an object of three fields. No such number
/// is stored, whatever stands before it.
const REFUSED: &[(RootId, u32, &[i64], Refusal)] = &[
    (A, 2, &[1, 2], Refusal::NoField),
    (A, 3, &[1], Refusal::NoField),
    (A, u32::MAX, &[1, 2], Refusal::NoField),
    (A, 0, &[1, MAX_INT + 1, 2], Refusal::IntRange),
    // The first in order counts.
    (A, 2, &[MAX_INT + 1, 2], Refusal::IntRange),
    (A, 2, &[1, MAX_INT + 1], Refusal::NoField),
    (B, 0, &[1], Refusal::NotObject),
    (RootId { owner: 2, slot: 0 }, 0, &[1], Refusal::NoRoot),
];

/// The first three fields of the object that A names.
fn expect_numbers<M: Allocator + Copy>(rt: &impl Abort, heap: &PacedHeap<M>, numbers: [i64; 3]) {
    let mut read = [0; 3];
    expect_equal(rt, heap.load_all(1, A, 0, &mut read), Ok(3));
    expect_equal(rt, read, numbers);
}

#[test]
fn numbers_are_stored_for_all_fields_or_for_none(rt: HostRuntime) {
    let mut heap = small_heap(&rt, rt.alloc(), SIZES);
    expect_equal(&rt, heap.alloc(1, A, 3), Ok(Reply::Object(3)));
    expect_equal(&rt, heap.store_all(1, A, 0, &[5, -6, 7]), Ok(()));
    expect_equal(&rt, heap.peek(1, A, 1), Ok(Reply::Int(-6)));
    expect_equal(&rt, heap.store_all(1, A, 2, &[8]), Ok(()));
    expect_equal(&rt, heap.store_all(9, B, 4096, &[]), Ok(()));
    for (row, (object, from, numbers, refusal)) in REFUSED.iter().enumerate() {
        let rt = &Row { rt: &rt, row };
        expect_equal(
            rt,
            heap.store_all(1, *object, *from, numbers),
            Err(*refusal),
        );
        expect_numbers(rt, &heap, [5, -6, 8]);
        expect_equal(rt, heap.stat().number, 4);
    }
}

/// An object and the field from which two numbers are read, what is answered, and what was read by
/// then.
type Loaded = (RootId, u32, Result<u32, Refusal>, [i64; 2]);

/// What is refused reads nothing.
const LOADED: &[Loaded] = &[
    (A, 1, Ok(2), [-6, 7]),
    (A, 2, Err(Refusal::NoField), [-6, 7]),
    (B, 0, Err(Refusal::NotObject), [-6, 7]),
];

/// Reads two numbers in turn.
fn load_each<M: Allocator + Copy>(
    rt: &impl Abort,
    heap: &PacedHeap<M>,
    read: &mut [i64; 2],
    rows: &[Loaded],
) {
    for (row, &(object, from, answer, numbers)) in rows.iter().enumerate() {
        let rt = &Row { rt, row };
        expect_equal(rt, heap.load_all(1, object, from, read), answer);
        expect_equal(rt, *read, numbers);
    }
}

#[test]
fn numbers_are_read_up_to_the_first_other_value(rt: HostRuntime) {
    let mut heap = small_heap(&rt, rt.alloc(), SIZES);
    expect_equal(&rt, heap.alloc(1, A, 3), Ok(Reply::Object(3)));
    expect_equal(&rt, heap.store_all(1, A, 0, &[5, -6, 7]), Ok(()));
    let mut read = [1; 2];
    load_each(&rt, &heap, &mut read, LOADED);
    expect_equal(&rt, heap.load_all(9, B, 0, &mut []), Ok(0));
    expect_equal(&rt, heap.store(1, A, 1, Operand::Nil), Ok(Reply::Done));
    load_each(&rt, &heap, &mut read, &[(A, 0, Ok(1), [5, 7])]);
}

/// The sizes of a heap that has five numbers.
const FEW: Config = Config {
    last_number: 5,
    ..SIZES
};

/// From which field on numbers are stored to the object that B names, in turn, and what is answered.
type Stored<'a> = (u32, &'a [i64], Result<(), Refusal>);

/// As many as there are numbers are stored, and no more.
const LAST_NUMBERS: &[Stored] = &[
    (0, &[1, 2, 3, 4, 5, 6], Err(Refusal::NumbersSpent)),
    (0, &[1, 2, 3, 4, 5], Ok(())),
    (5, &[6], Err(Refusal::NumbersSpent)),
];

/// In a cycle whose log keeps four stores. Of six, both limits would be passed.
const LAST_ENTRIES: &[Stored] = &[
    (0, &[1, 2, 3, 4, 5], Err(Refusal::LogFull)),
    (0, &[1, 2, 3, 4, 5, 6], Err(Refusal::LogFull)),
    (0, &[1, 2, 3, 4], Ok(())),
];

/// Stores numbers in turn. A refused store takes no number.
fn store_each<M: Allocator + Copy>(rt: &impl Abort, heap: &mut PacedHeap<M>, rows: &[Stored]) {
    for (row, &(from, numbers, answer)) in rows.iter().enumerate() {
        let rt = &Row { rt, row };
        let before = heap.stat().number;
        expect_equal(rt, heap.store_all(1, B, from, numbers), answer);
        if answer.is_err() {
            expect_equal(rt, heap.stat().number, before);
        }
    }
}

/// Spends all numbers of a new heap.
fn stop_at_the_last_number<M: Allocator + Copy>(rt: &impl Abort, heap: &mut PacedHeap<M>) {
    expect_equal(rt, heap.alloc(1, B, 6), Ok(Reply::Object(6)));
    store_each(rt, heap, LAST_NUMBERS);
    expect_equal(rt, heap.stat().number, 5);
}

/// Fills the log of a new heap, in which the third object begins a cycle.
fn stop_at_the_last_entry<M: Allocator + Copy>(rt: &impl Abort, heap: &mut PacedHeap<M>) {
    for (row, &(dst, fields)) in [(A, 2), (B, 6), (C, 0)].iter().enumerate() {
        let rt = &Row { rt, row };
        expect_equal(rt, heap.alloc(1, dst, fields), Ok(Reply::Object(fields)));
    }
    expect_equal(rt, heap.heap().is_in_cycle(), true);
    store_each(rt, heap, LAST_ENTRIES);
    expect_equal(rt, heap.stat().number, 4);
    let mut read = [0; 4];
    expect_equal(rt, heap.load_all(1, B, 0, &mut read), Ok(4));
    expect_equal(rt, read, [1, 2, 3, 4]);
}

#[test]
fn numbers_stop_at_the_limits(rt: HostRuntime) {
    stop_at_the_last_number(&rt, &mut small_heap(&rt, rt.alloc(), FEW));
    stop_at_the_last_entry(&rt, &mut small_heap(&rt, rt.alloc(), FEW));
}

/// A text of nine bytes.
const TEXT: [u8; 9] = [1, 2, 3, 4, 5, 6, 255, 8, 9];

/// What the three fields hold once the text was put from the second on: nine bytes take two fields,
/// of which the second has two.
const FIELDS: &[(u32, Reply)] = &[
    (0, Reply::Nil),
    (1, Reply::Int(0xff_0605_0403_0201)),
    (2, Reply::Int(0x0908)),
];

/// Puts the text into a new object of three fields.
fn put_text<M: Allocator + Copy>(rt: &impl Abort, heap: &mut PacedHeap<M>) {
    expect_equal(rt, heap.alloc(1, A, 3), Ok(Reply::Object(3)));
    expect_equal(rt, heap.put_text(1, A, 1, &TEXT), Ok(()));
    for (row, &(field, reply)) in FIELDS.iter().enumerate() {
        let rt = &Row { rt, row };
        expect_equal(rt, heap.peek(1, A, field), Ok(reply));
    }
}

/// A byte more than two fields take is refused, and changes nothing.
fn refuse_text<M: Allocator + Copy>(rt: &impl Abort, heap: &mut PacedHeap<M>) {
    let long = heap.put_text(1, A, 1, &[0; 15]);
    expect_equal(rt, long, Err(Refusal::NoField));
    expect_equal(rt, heap.text(1, A, 1, &mut [0; 15]), Err(Refusal::NoField));
}

/// Of a number its lowest 56 bits are read, up to the first field that holds none.
fn store_and_read_number<M: Allocator + Copy>(
    rt: &impl Abort,
    heap: &mut PacedHeap<M>,
    read: &mut [u8; 9],
) {
    expect_equal(rt, heap.store_all(1, A, 1, &[-2]), Ok(()));
    expect_equal(rt, heap.store(1, A, 2, Operand::Nil), Ok(Reply::Done));
    expect_equal(rt, heap.text(1, A, 1, read), Ok(7));
    expect_equal(rt, *read, [254, 255, 255, 255, 255, 255, 255, 8, 9]);
    expect_equal(rt, heap.text(1, A, 0, read), Ok(0));
}

#[test]
fn texts_are_read_as_they_were_put(rt: HostRuntime) {
    let mut heap = small_heap(&rt, rt.alloc(), SIZES);
    put_text(&rt, &mut heap);
    let mut read = [7; 9];
    expect_equal(&rt, heap.text(1, A, 1, &mut read), Ok(9));
    expect_equal(&rt, read, TEXT);
    refuse_text(&rt, &mut heap);
    store_and_read_number(&rt, &mut heap, &mut read);
}
