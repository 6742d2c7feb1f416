//! Pictures of heaps that look random, most of them in the middle of a cycle.

use crate::commands::{alloc, drop_root, load, replica_of, root, store};
use crate::expectations::{Row, expect_equal};
use crate::heaps::drawing::{expect_shown, held_in, picture};
use crate::numbers::Numbers;
use rh_core::{Config, Heap, Kind};
use rh_layout::{Command, Operand, RootId};
use std::process::Abort;

/// Sizes so small that all of a heap is drawn one by one.
const MIXED: Config = Config {
    words: 96,
    ratio: 8,
    owners: 3,
    slots: 2,
    log_limit: 8,
    last_number: 100,
    last_epoch: 9,
};

/// A root that the owner may use.
fn next_root(numbers: &mut Numbers, owner: u32) -> RootId {
    let is_shared = numbers.below(4) == 0;
    root(if is_shared { 0 } else { owner }, numbers.below(2))
}

/// What an owner stores: most often what a root holds, and now and then a long number.
fn next_operand(numbers: &mut Numbers, owner: u32) -> Operand {
    match numbers.below(8) {
        0 => Operand::Nil,
        1 => Operand::Int(i64::MIN >> (2 + numbers.below(62))),
        2 => Operand::Int(i64::MAX >> (2 + numbers.below(62))),
        _ => Operand::Root(next_root(numbers, owner)),
    }
}

/// The fields of a new object, at most 4, and rather more than fewer.
fn next_fields(numbers: &mut Numbers) -> u32 {
    4 - numbers.below(5).min(numbers.below(5))
}

/// An owner's command, which may be refused.
fn next_command(numbers: &mut Numbers, owner: u32) -> Command {
    let first = next_root(numbers, owner);
    let second = next_root(numbers, owner);
    let field = numbers.below(3);
    match numbers.below(13) {
        0..=2 => alloc(first, next_fields(numbers)),
        3 => Command::Raw {
            dst: first,
            fields: next_fields(numbers),
        },
        4..=9 => store(first, field, next_operand(numbers, owner)),
        10 => load(first, second, field),
        11 => Command::Copy {
            dst: first,
            src: second,
        },
        _ => drop_root(first),
    }
}

/// Does an owner's command, or shades a root of the owner's.
fn change(heap: &mut Heap, numbers: &mut Numbers) {
    let owner = 1 + numbers.below(2);
    if numbers.below(4) == 0 {
        let _ = heap.shade(next_root(numbers, owner));
    } else {
        let _ = heap.command(owner, &next_command(numbers, owner));
    }
}

/// Deals a few copies or entries, and gives half of the pieces.
fn deal<R: AllocGlobal + Abort>(rt: &R, heap: &mut Heap, numbers: &mut Numbers) {
    let is_given = numbers.below(2) == 0;
    let kind = if numbers.below(2) == 0 {
        Kind::Copies
    } else {
        Kind::Entries
    };
    if let Ok(dealt) = heap.deal(kind, 1 + numbers.below(3))
        && is_given
    {
        let _ = heap.give(&replica_of(rt, rt.alloc(), &dealt.piece));
    }
}

/// Makes all undealt again, shades each root, and holds what may be held. Then it flips, where that
/// is accepted.
fn end_cycle(heap: &mut Heap) {
    let _ = heap.recall();
    for owner in 0..3 {
        for slot in 0..2 {
            let _ = heap.shade(root(owner, slot));
        }
    }
    heap.hold_all();
    let _ = heap.flip();
}

/// Begins a cycle, or does something of the one that is on, which may be refused.
fn collect<R: AllocGlobal + Abort>(rt: &R, heap: &mut Heap, numbers: &mut Numbers) {
    if !heap.is_in_cycle() {
        let _ = heap.begin();
        let _ = heap.idle(numbers.below(60).into());
        return;
    }
    match numbers.below(16) {
        0 => end_cycle(heap),
        1 | 2 => {
            let _ = heap.idle(numbers.below(60).into());
        }
        3..=8 => deal(rt, heap, numbers),
        _ => {
            let _ = heap.hold_next();
        }
    }
}

/// How many pictures were drawn, and of what.
#[derive(Drop)]
struct Drawn {
    /// How many.
    all: u64,
    /// Those in a cycle with an object that is placed, a field that isn't held and an entry.
    full: u64,
    /// Those with a field that was stored to since it was held.
    hatched: u64,
    /// The flips of the heaps that were drawn.
    flips: u64,
}

/// One more, if so.
fn count_if(number: &mut u64, is_so: bool) {
    *number = number.saturating_add(is_so.into());
}

/// Ends the test unless the heap's picture shows what its readers tell, and counts the picture.
fn expect_drawn<R: AllocGlobal + Abort>(rt: &R, heap: &Heap, drawn: &mut Drawn) {
    expect_shown(rt, heap);
    let stat = heap.stat();
    let missing = held_in(heap).missing;
    count_if(&mut drawn.all, true);
    let is_full = stat.placed > 0 && missing > 0 && stat.log > 0;
    count_if(&mut drawn.full, stat.cycle && is_full);
    count_if(&mut drawn.hatched, stat.missing > missing as u64);
}

/// Does 12 steps to a heap outside a cycle, and 60 of which some one in four is the collector's.
/// After every sixth of these its picture is expected.
fn expect_life<R: AllocGlobal + Abort>(
    rt: &R,
    heap: &mut Heap,
    numbers: &mut Numbers,
    drawn: &mut Drawn,
) {
    for _ in 0..12 {
        change(heap, numbers);
    }
    for row in 0..60 {
        let rt = Row { rt, row };
        if numbers.below(4) == 0 {
            collect(&rt, heap, numbers);
        } else {
            change(heap, numbers);
        }
        if row % 6 == 5 {
            expect_drawn(&rt, heap, drawn);
        }
    }
    drawn.flips = drawn.flips.saturating_add(heap.stat().flips);
}

/// Makes a heap and numbers from a seed, and draws the heap as it lives. At its end it is drawn
/// twice to the same bytes.
fn expect_pictures<R: AllocGlobal + Abort>(rt: &R, seed: u64, drawn: &mut Drawn) {
    let mut heap = Heap::new(rt.alloc(), MIXED).expect(rt, "a heap");
    let mut numbers = Numbers { state: seed };
    expect_life(rt, &mut heap, &mut numbers, drawn);
    assert!(rt; picture(rt, &heap) == picture(rt, &heap));
}

/// Ends the test unless each of these is as many as are wanted beside it, or more.
fn expect_each(rt: &impl Abort, counts: &[(u64, u64)]) {
    for (row, &(count, wanted)) in counts.iter().enumerate() {
        let rt = &Row { rt, row };
        assert!(rt; count >= wanted, "{count}, wanted {wanted} or more");
    }
}

#[test]
fn pictures_of_heaps_that_look_random_show_what_they_tell(rt: HostRuntime) {
    let mut drawn = Drawn {
        all: 0,
        full: 0,
        hatched: 0,
        flips: 0,
    };
    for row in 0..40 {
        expect_pictures(&Row { rt: &rt, row }, row as u64, &mut drawn);
    }
    expect_equal(&rt, drawn.all, 400);
    expect_each(
        &rt,
        &[(drawn.full, 200), (drawn.hatched, 30), (drawn.flips, 20)],
    );
}
