//! Pictures of heaps: that they are well-formed, and show what the heap's readers tell.

use crate::commands::{SIZES, expect_accepted, root, store};
use crate::expectations::{Row, expect_equal, expect_refusals};
use refusing::refused_in_turn;
use rh_core::{Config, Heap, Kind, Shaded};
use rh_draw::{DrawError, draw};
use rh_layout::{Command, Operand, RootId, Value};
use rh_space::NOT_HELD;
use std::process::Abort;

const FIRST: RootId = RootId { owner: 1, slot: 0 };

const RAW: RootId = RootId { owner: 1, slot: 1 };

/// How often the text has the part.
fn count(text: &str, part: &str) -> usize {
    text.split(part).skip(1).count()
}

/// Ends the test unless what stands between two tags is spelled as it has to be.
fn expect_spelled(rt: &impl Abort, tag: &str, after: &str) {
    assert!(rt; !after.contains('>') && count(tag, "'") % 2 == 0);
    for letter in after.split('&').skip(1) {
        assert!(rt; letter.starts_with("lt;") || letter.starts_with("amp;"));
    }
}

/// Follows a tag: it opens an element, or closes the one that was opened last, by the same name.
fn follow<'a>(rt: &impl Abort, open: &mut Vec<&'a str>, tag: &'a str) {
    let name = tag.split(' ').next().expect(rt, "a name");
    if let Some(closed) = name.strip_prefix('/') {
        expect_equal(rt, open.pop(), Some(closed));
    } else if !tag.ends_with('/') {
        open.push(name).expect(rt, "memory is ample");
    }
}

/// Ends the test unless the text is one element, each tag is closed by one of its name, no quote is
/// open, and nothing is there that has to be spelled otherwise.
fn expect_well_formed<R: AllocGlobal + Abort>(rt: &R, text: &str) {
    let mut open = Vec::new(rt.alloc());
    for piece in text.split('<').skip(1) {
        let (tag, after) = piece.split_once('>').expect(rt, "the end of a tag");
        expect_spelled(rt, tag, after);
        follow(rt, &mut open, tag);
        assert!(rt; !open.is_empty() || after == "\n");
    }
    expect_equal(rt, open.len(), 0);
}

/// The bytes of a heap's picture.
pub fn picture<R: AllocGlobal + Abort>(rt: &R, heap: &Heap) -> Vec<u8> {
    let mut text = Vec::new(rt.alloc());
    expect_equal(rt, draw(rt.alloc(), heap, "a < b & c", &mut text), Ok(()));
    text
}

/// The fields of from-space that hold a reference.
fn references(heap: &Heap) -> usize {
    let mut found: usize = 0;
    for a in 0..heap.used() {
        for f in 0..heap.fields(a).unwrap_or(0) {
            if let Some((_, Value::Ref(_))) = heap.field(a, f) {
                found = found.saturating_add(1);
            }
        }
    }
    found
}

/// The roots that aren't nil, and those of them that hold a reference.
fn roots_of(heap: &Heap) -> (usize, usize) {
    let (mut all, mut found): (usize, usize) = (0, 0);
    let sizes = heap.config();
    for owner in 0..sizes.owners {
        for slot in 0..sizes.slots {
            let value = heap.root(root(owner, slot)).unwrap_or(Value::Nil);
            all = all.saturating_add((value != Value::Nil).into());
            found = found.saturating_add(value.is_reference().into());
        }
    }
    (all, found)
}

/// What to-space has.
#[derive(Clone, Copy)]
pub struct Held {
    /// The fields of which a pair is held.
    pub pairs: usize,
    /// Those of which none is.
    pub missing: usize,
    /// Those of which a reference is held.
    pub references: usize,
}

pub fn held_in(heap: &Heap) -> Held {
    let mut held = Held {
        pairs: 0,
        missing: 0,
        references: 0,
    };
    let space = heap.replica();
    for a in 0..space.used() {
        if !space.is_object(a) {
            continue;
        }
        for f in 0..space.fields(a) {
            let (number, value) = space.field(a, f);
            if number == NOT_HELD {
                held.missing = held.missing.saturating_add(1);
            } else {
                held.pairs = held.pairs.saturating_add(1);
            }
            if value.is_reference() {
                held.references = held.references.saturating_add(1);
            }
        }
    }
    held
}

/// The objects of from-space.
fn objects_in(heap: &Heap) -> usize {
    let mut found: usize = 0;
    for a in 0..heap.used() {
        if heap.fields(a).is_some() {
            found = found.saturating_add(1);
        }
    }
    found
}

/// The boxes, arrows, filled, empty and hatched fields, roots and entries that the heap's readers
/// tell, and how often a picture has each.
fn shown_of(heap: &Heap) -> [(&str, usize); 12] {
    let stat = heap.stat();
    let held = held_in(heap);
    let objects = objects_in(heap);
    let (roots, root_arrows) = roots_of(heap);
    let old = (stat.missing as usize).saturating_sub(held.missing);
    let past = stat.log.saturating_sub(heap.undealt(Kind::Entries));
    [
        (
            "<g class='box",
            objects.saturating_add(stat.placed as usize),
        ),
        (
            "class='cell'",
            (heap.used() as usize).saturating_sub(objects.saturating_mul(2)),
        ),
        (
            "class='reference'",
            references(heap).saturating_add(held.references),
        ),
        ("class='root-box'", roots),
        ("class='root'", root_arrows),
        ("class='placed'", stat.placed as usize),
        ("class='missing'", held.missing),
        ("class='old'", old),
        ("class='held'", held.pairs.saturating_sub(old)),
        ("class='entry", stat.log as usize),
        ("class='entry past'", past as usize),
        ("class='scan'", usize::from(stat.cycle)),
    ]
}

/// Ends the test unless the text has each of these as often.
fn expect_counted(rt: &impl Abort, text: &str, wanted: &[(&str, usize)]) {
    for (row, &(part, times)) in wanted.iter().enumerate() {
        let rt = Row { rt, row };
        expect_equal(&rt, (part, count(text, part)), (part, times));
    }
}

/// Ends the test unless the heap's picture is well-formed, and has each of these as often.
fn expect_parts<R: AllocGlobal + Abort>(rt: &R, heap: &Heap, wanted: &[(&str, usize)]) {
    let bytes = picture(rt, heap);
    let text = str::from_utf8(&bytes).ok().expect(rt, "text");
    expect_well_formed(rt, text);
    expect_counted(rt, text, wanted);
}

/// Ends the test unless the heap's picture is well-formed, and shows what the heap's readers tell.
/// What its legend has isn't counted.
pub fn expect_shown<R: AllocGlobal + Abort>(rt: &R, heap: &Heap) {
    let bytes = picture(rt, heap);
    let text = str::from_utf8(&bytes).ok().expect(rt, "text");
    expect_well_formed(rt, text);
    let shown = text.split("<g class='legend'").next().expect(rt, "a part");
    expect_counted(rt, shown, &shown_of(heap));
}

/// An object and a raw one, of two fields each, and three stores.
const TWO_OBJECTS: &[Command] = &[
    Command::Alloc {
        dst: FIRST,
        fields: 2,
    },
    Command::Raw {
        dst: RAW,
        fields: 2,
    },
    Command::Store {
        obj: FIRST,
        field: 0,
        operand: Operand::Root(FIRST),
    },
    Command::Store {
        obj: FIRST,
        field: 1,
        operand: Operand::Root(RAW),
    },
    Command::Store {
        obj: RAW,
        field: 0,
        operand: Operand::Int(-2_305_843_009_213_693_952),
    },
];

/// A heap with these objects, after these stores.
fn with_two_objects<R: AllocGlobal + Abort>(rt: &R) -> Heap {
    let mut heap = Heap::new(rt.alloc(), SIZES).expect(rt, "a heap");
    expect_accepted(rt, &mut heap, TWO_OBJECTS);
    heap
}

/// Begins a cycle in which one field is held as it stands, and another is stored to since.
fn begin_and_hold_two(rt: &impl Abort, heap: &mut Heap) {
    expect_equal(rt, heap.begin(), Ok(1));
    assert!(rt; heap.idle(1000).is_ok());
    expect_equal(rt, heap.shade(FIRST), Ok(Shaded::Placed));
    for _ in 0..2 {
        expect_equal(rt, heap.hold_next(), Ok(Kind::Copies));
    }
    assert!(rt; heap.command(1, &store(FIRST, 0, Operand::Int(5))).is_ok());
}

/// A heap with two objects, in that cycle.
fn in_a_cycle<R: AllocGlobal + Abort>(rt: &R) -> Heap {
    let mut heap = with_two_objects(rt);
    begin_and_hold_two(rt, &mut heap);
    heap
}

/// Holds all that is undealt.
fn hold_all(rt: &impl Abort, heap: &mut Heap) {
    for _ in 0..9 {
        if heap.hold_next().is_err() {
            break;
        }
    }
    expect_equal(rt, heap.missing(), 0);
}

#[test]
fn a_picture_outside_a_cycle(rt: HostRuntime) {
    let new = Heap::new(rt.alloc(), SIZES).expect(&rt, "a heap");
    expect_shown(&rt, &new);
    expect_shown(&rt, &with_two_objects(&rt));
}

/// Stores once more, holds all and ends the cycle. The picture is checked after the store and after
/// the holding.
fn expect_shown_to_the_flip<R: AllocGlobal + Abort>(rt: &R, heap: &mut Heap) {
    assert!(rt; heap.deal(Kind::Entries, 1).is_ok());
    assert!(rt; heap.command(1, &store(FIRST, 0, Operand::Nil)).is_ok());
    expect_shown(rt, heap);
    hold_all(rt, heap);
    expect_shown(rt, heap);
    assert!(rt; heap.flip().is_ok());
}

#[test]
fn a_picture_shows_what_the_heap_tells(rt: HostRuntime) {
    let mut heap = in_a_cycle(&rt);
    expect_equal(&rt, (heap.missing(), held_in(&heap).missing), (3, 2));
    expect_shown(&rt, &heap);
    expect_shown_to_the_flip(&rt, &mut heap);
    expect_shown(&rt, &heap);
}

/// What the picture of 300 objects has, and that of one more.
const ALL_DRAWN: &[(&str, usize)] = &[("<g class='box", 300), ("Only bars", 0)];

const BARS_ALONE: &[(&str, usize)] = &[
    ("<g class='box", 0),
    ("Only bars: 301 objects, and at most 300 are drawn.", 1),
];

#[test]
fn a_heap_over_the_limit_has_bars_alone(rt: HostRuntime) {
    let sizes = Config {
        words: 2_048,
        ..SIZES
    };
    let mut heap = Heap::new(rt.alloc(), sizes).expect(&rt, "a heap");
    for _ in 0..300 {
        assert!(rt; heap.alloc(1, FIRST, 0).is_ok());
    }
    expect_parts(&rt, &heap, ALL_DRAWN);
    assert!(rt; heap.alloc(1, FIRST, 0).is_ok());
    expect_parts(&rt, &heap, BARS_ALONE);
}

#[test]
fn a_long_number_is_cut(rt: HostRuntime) {
    let cut = "<title>-2305843009213693952</title>-2305..</text>";
    expect_parts(&rt, &in_a_cycle(&rt), &[(cut, 1)]);
}

#[test]
fn equal_heaps_have_equal_pictures(rt: HostRuntime) {
    let one = picture(&rt, &in_a_cycle(&rt));
    let other = picture(&rt, &in_a_cycle(&rt));
    assert!(rt; one == other);
}

/// Draws a heap, whose whole picture this is, to where there is room for some bytes alone.
fn expect_failing_writes<R: AllocGlobal + Abort>(rt: &R, heap: &Heap, whole: &[u8]) {
    for taken in [0, 1, 1_000] {
        let mut room = [0; 1_000];
        let mut writer = &mut room[..taken];
        let drawn = draw(rt.alloc(), heap, "a < b & c", &mut writer);
        expect_equal(rt, drawn, Err(DrawError::Write));
        assert!(rt; whole.starts_with(&room[..taken]));
    }
}

#[test]
fn each_failing_write_is_told(rt: HostRuntime) {
    let heap = in_a_cycle(&rt);
    let whole = picture(&rt, &heap);
    expect_failing_writes(&rt, &heap, &whole);
}

#[test]
fn refused_memory_writes_nothing(rt: HostRuntime) {
    let heap = in_a_cycle(&rt);
    let refused = refused_in_turn(rt.alloc(), |memory| {
        let mut text = Vec::new(rt.alloc());
        let drawn = draw(memory, &heap, "a picture", &mut text);
        expect_equal(&rt, drawn.is_err(), text.is_empty());
        drawn == Err(DrawError::OutOfMemory)
    });
    expect_refusals(&rt, refused, 5);
}
