//! The joint: what is placed and held in a cycle.

ghost use Rattle.std.specs.Prelude.{IsTrue};
ghost use Rattle.rh_space.specs.Space.{HasWord};
ghost use Rattle.rh_place.specs.Mirrors.{IsHoldable, Mirrors};

use crate::commands::item;
use crate::expectations::{Row, expect_equal};
use rh_layout::limits::MAX_NUMBER;
use rh_layout::{Item, Place, Value, value_of, word_of};
use rh_place::laws::from_space_goes_on;
use rh_place::{Joint, Placing};
use rh_space::{NOT_HELD, Space};
use std::marker::Model;
use std::process::Abort;

/// A space, and the joint to which it is the from-space.
#[derive(Drop)]
struct Spaces {
    space: Space,
    joint: Joint,
}

impl Model for Spaces {
    ghost use Rattle.rh_space.specs.Space.{SpaceState};
    ghost use Rattle.rh_place.specs.Joint.{JointState};
    ghost use Rattle.rh_place.specs.Mirrors.{Agrees, Mirrors};

    ghost Value = { SpaceState × JointState };

    ghost view = { λ s. (s.space, s.joint) };

    ghost invariant = { λ s. Mirrors s.space s.joint × Agrees s.space s.joint };
}

impl Spaces {
    /// Two spaces of 32 words, and objects of so many fields each.
    fn of<R: AllocGlobal + Abort>(rt: &R, objects: [u32; 3]) -> Spaces {
        let space = Space::new(rt.alloc(), 32).expect(rt, "a space");
        let joint = Joint::new(rt.alloc(), 32).expect(rt, "a joint");
        let mut spaces = Spaces { space, joint };
        for fields in objects {
            spaces.make(rt, fields);
        }
        spaces
    }

    /// Makes an object of so many fields.
    fn make(&mut self, rt: &impl Abort, fields: u32) {
        assert!(rt; fields <= 4095);
        from_space_goes_on();
        let made = self.space.bump(fields, false);
        assert!(rt; made.is_ok());
    }

    /// Stores to a field that has to be there, with a number above the one before it, and tells the
    /// joint.
    fn store(&mut self, rt: &impl Abort, item: Item) {
        let (a, f) = (item.object, item.field);
        assert!(rt; self.space.is_object(a));
        assert!(rt; f < self.space.fields(a));
        let (before, _) = self.space.field(a, f);
        assert!(rt; before < item.number);
        let word = word_of(item.value).expect(rt, "a word");
        assert!(rt; value_of(word).is_some());
        from_space_goes_on();
        self.space.write(a, f, word, item.number);
        self.joint.stored(&self.space, a, f, before);
    }

    /// Places an object that has to be there.
    fn place(&mut self, rt: &impl Abort, a: u32) -> Placing {
        assert!(rt; self.space.is_object(a));
        self.joint.place(&mut self.space, a)
    }

    /// Holds the current pair of a field that has to be there, of a placed object; its reference is
    /// to one, too.
    fn hold(&mut self, rt: &impl Abort, a: u32, f: u32) {
        assert!(rt; self.space.is_object(a));
        assert!(rt; f < self.space.fields(a));
        let (number, value) = self.space.field(a, f);
        assert!(rt; number <= MAX_NUMBER);
        assert!(rt; has_word(value));
        let to = self
            .joint
            .forward(&self.space, a)
            .expect(rt, "a placed object");
        assert!(rt; self.joint.to_space().is_object(to));
        assert!(rt; is_holdable(&self.space, &self.joint, value));
        self.joint.accept(
            &self.space,
            Item {
                object: a,
                field: f,
                number,
                value,
            },
        );
    }

    /// What stands where the origin of an object does, which has to be there: its link, where it is
    /// placed.
    fn link(&self, rt: &impl Abort, a: u32) -> u32 {
        assert!(rt; self.space.is_object(a));
        self.space.origin(a)
    }

    /// Makes all places undealt again.
    fn redeal(&mut self) {
        self.joint.redeal();
    }

    /// Forgets what was placed, and answers how many objects were.
    fn forget(&mut self) -> u32 {
        self.joint.forget(&mut self.space)
    }

    /// Exchanges the spaces, where nothing is missing.
    fn exchange(&mut self, rt: &impl Abort) {
        assert!(rt; self.joint.missing() == 0);
        self.joint.exchange(&mut self.space);
    }

    /// The pair of a field that has to be there.
    fn pair(&self, rt: &impl Abort, a: u32, f: u32) -> (u64, Value) {
        assert!(rt; self.space.is_object(a));
        assert!(rt; f < self.space.fields(a));
        self.space.field(a, f)
    }

    /// The next place.
    fn next(&mut self) -> Option<Place> {
        self.joint.next(&self.space)
    }

    /// Checks how many objects are placed, and how many places are missing and weren't dealt.
    fn expect_counts(&self, rt: &impl Abort, counts: (u32, u64, u64)) {
        let joint = &self.joint;
        expect_equal(
            rt,
            (joint.placed(), joint.missing(), joint.undealt()),
            counts,
        );
    }

    /// Checks the pair that stands in a field of to-space that has to be there.
    fn expect_replica(&self, rt: &impl Abort, a: u32, f: u32, pair: (u64, Value)) {
        let replica = self.joint.to_space();
        assert!(rt; replica.is_object(a));
        assert!(rt; f < replica.fields(a));
        expect_equal(rt, replica.field(a, f), pair);
    }

    /// Plays a step.
    fn play_step(&mut self, rt: &impl Abort, step: Step) {
        match step {
            Step::Make(fields) => self.make(rt, fields),
            Step::Store(a, f, number, value) => self.store(rt, item(a, f, number, value)),
            Step::Place(a, answer) => expect_equal(rt, self.place(rt, a), answer),
            Step::Next(answer) => {
                let next = self.next().map(|place| (place.object, place.field));
                expect_equal(rt, next, answer);
            }
            Step::Link(a, to) => expect_equal(rt, self.link(rt, a), to),
            Step::Redeal => self.redeal(),
            Step::Forget(answer) => expect_equal(rt, self.forget(), answer),
            Step::Hold(a, f) => self.hold(rt, a, f),
            Step::Forward(a, to) => expect_equal(rt, self.joint.forward(&self.space, a), to),
            Step::Held(a, f, pair) => {
                expect_equal(rt, self.joint.held(&self.space, a, f), pair);
            }
            Step::Counts(placed, missing, undealt) => {
                self.expect_counts(rt, (placed, missing, undealt));
            }
            Step::Used(from, to) => {
                let used = (self.space.used(), self.joint.to_space().used());
                expect_equal(rt, used, (from, to));
            }
            Step::Replica(a, f, pair) => self.expect_replica(rt, a, f, pair),
            Step::Exchange => self.exchange(rt),
            Step::Current(a, f, pair) => expect_equal(rt, self.pair(rt, a, f), pair),
        }
    }
}

/// Whether the value has a word.
fn has_word(value: Value) -> bool
    ensures { IsTrue result → HasWord value }
{
    match word_of(value) {
        Ok(_) => true,
        Err(_) => false,
    }
}

/// Whether the value's reference is to a placed object, if it is one.
fn is_holdable(space: &Space, joint: &Joint, value: Value) -> bool
    requires { Mirrors space.now joint.now }
    ensures { IsTrue result → IsHoldable joint.now.placed value }
{
    match value {
        Value::Ref(b) => joint.forward(space, b).is_some(),
        _ => true,
    }
}

/// What is done to a joint or asked of it, with the answer.
#[derive(Clone, Copy)]
enum Step {
    /// The number of fields.
    Make(u32),
    /// The object, the field, the number and the value.
    Store(u32, u32, u64, Value),
    Place(u32, Placing),
    /// The object and the field that are dealt next.
    Next(Option<(u32, u32)>),
    /// The object and its link.
    Link(u32, u32),
    Redeal,
    /// How many objects were placed.
    Forget(u32),
    Hold(u32, u32),
    Forward(u32, Option<u32>),
    Held(u32, u32, Option<(u64, Value)>),
    /// The objects that are placed, the places that are missing, and those that weren't dealt.
    Counts(u32, u64, u64),
    /// The words of from-space and of to-space.
    Used(u32, u32),
    /// What stands in a field of to-space.
    Replica(u32, u32, (u64, Value)),
    Exchange,
    /// What stands in a field of from-space.
    Current(u32, u32, (u64, Value)),
}

/// An object that wasn't placed is placed.
const NEW: Placing = Placing::Placed;

/// Of objects at 0, 4 and 6 the last and the first are placed.
const PLACED_ONCE: &[Step] = &[
    Step::Forward(0, None),
    Step::Place(6, NEW),
    Step::Place(0, NEW),
    Step::Place(6, Placing::Already),
    Step::Counts(2, 3, 3),
    Step::Used(9, 7),
    Step::Forward(6, Some(0)),
    Step::Forward(0, Some(3)),
    Step::Forward(4, None),
    Step::Forward(1, None),
    Step::Forward(99, None),
    Step::Held(0, 0, None),
    Step::Held(0, 1, None),
    Step::Held(0, 2, None),
    Step::Held(4, 0, None),
];

/// Two objects of two fields, at 0 and 4: each refers to both.
const REFERRING: &[Step] = &[
    Step::Store(0, 0, 1, Value::Ref(0)),
    Step::Store(0, 1, 2, Value::Ref(4)),
    Step::Store(4, 0, 3, Value::Ref(4)),
    Step::Store(4, 1, 4, Value::Ref(0)),
];

/// Both are placed in the order in which they were made.
const IN_ORDER: &[Step] = &[
    Step::Place(0, NEW),
    Step::Place(4, NEW),
    Step::Forward(0, Some(0)),
    Step::Forward(4, Some(4)),
];

/// Both are placed in the other order.
const IN_REVERSE: &[Step] = &[
    Step::Place(4, NEW),
    Step::Place(0, NEW),
    Step::Forward(0, Some(4)),
    Step::Forward(4, Some(0)),
];

/// All that both have is held, and the spaces are exchanged. Nothing is placed then, and there is
/// room for both again.
const EXCHANGED: &[Step] = &[
    Step::Hold(0, 0),
    Step::Hold(0, 1),
    Step::Hold(4, 0),
    Step::Hold(4, 1),
    Step::Counts(2, 0, 4),
    Step::Held(0, 1, Some((2, Value::Ref(4)))),
    Step::Held(4, 1, Some((4, Value::Ref(0)))),
    Step::Exchange,
    Step::Counts(0, 0, 0),
    Step::Used(8, 0),
    Step::Forward(0, None),
    Step::Forward(4, None),
    Step::Place(4, NEW),
    Step::Forward(4, Some(0)),
    Step::Counts(1, 2, 2),
];

/// What they have then, where they were placed in the order in which they were made.
const AFTER_IN_ORDER: &[Step] = &[
    Step::Current(0, 0, (1, Value::Ref(0))),
    Step::Current(0, 1, (2, Value::Ref(4))),
    Step::Current(4, 0, (3, Value::Ref(4))),
    Step::Current(4, 1, (4, Value::Ref(0))),
];

/// What they have then, where they were placed in the other order.
const AFTER_IN_REVERSE: &[Step] = &[
    Step::Current(4, 0, (1, Value::Ref(4))),
    Step::Current(4, 1, (2, Value::Ref(0))),
    Step::Current(0, 0, (3, Value::Ref(0))),
    Step::Current(0, 1, (4, Value::Ref(4))),
];

/// An object without fields, at 8, is placed before two others, at 0 and 5.
const FIELDLESS_FIRST: &[Step] = &[
    Step::Next(None),
    Step::Place(8, NEW),
    Step::Place(0, NEW),
    Step::Place(5, NEW),
];

/// It is placed between the two.
const FIELDLESS_BETWEEN: &[Step] = &[
    Step::Next(None),
    Step::Place(0, NEW),
    Step::Place(8, NEW),
    Step::Place(5, NEW),
];

/// It is placed after the two.
const FIELDLESS_LAST: &[Step] = &[
    Step::Next(None),
    Step::Place(0, NEW),
    Step::Place(5, NEW),
    Step::Place(8, NEW),
];

/// What is dealt in each of these orders.
const SCANNED: &[Step] = &[
    Step::Next(Some((0, 0))),
    Step::Next(Some((0, 1))),
    Step::Next(Some((0, 2))),
    Step::Next(Some((5, 0))),
    Step::Next(None),
    Step::Counts(3, 4, 0),
];

/// Objects at 3 and 5, the first without fields, that are placed once all of another was dealt.
const PLACED_BETWEEN: &[Step] = &[
    Step::Place(0, NEW),
    Step::Next(Some((0, 0))),
    Step::Counts(1, 1, 0),
    Step::Next(None),
    Step::Place(3, NEW),
    Step::Next(None),
    Step::Counts(2, 1, 0),
    Step::Place(5, NEW),
    Step::Next(Some((5, 0))),
    Step::Counts(3, 3, 1),
    Step::Next(Some((5, 1))),
    Step::Counts(3, 3, 0),
    Step::Next(None),
    Step::Counts(3, 3, 0),
];

/// Five objects without fields, at 3 to 11, are placed between two with fields, at 13 and 0. The
/// first is linked to the replica of the other, past them.
const LINKED: &[Step] = &[
    Step::Make(0),
    Step::Make(0),
    Step::Make(0),
    Step::Make(2),
    Step::Place(13, NEW),
    Step::Place(3, NEW),
    Step::Place(5, NEW),
    Step::Place(7, NEW),
    Step::Place(9, NEW),
    Step::Place(11, NEW),
    Step::Next(Some((13, 0))),
    Step::Link(13, 0),
    Step::Place(0, NEW),
    Step::Link(13, 14),
    Step::Next(Some((13, 1))),
    Step::Next(Some((0, 0))),
    Step::Next(None),
    Step::Redeal,
    Step::Counts(7, 3, 3),
    Step::Next(Some((13, 0))),
    Step::Next(Some((13, 1))),
    Step::Next(Some((0, 0))),
    Step::Next(None),
    // What is forgotten has no link, and the scan begins anew.
    Step::Forget(7),
    Step::Link(13, 0),
    Step::Forward(13, None),
    Step::Counts(0, 0, 0),
    Step::Place(3, NEW),
    Step::Place(0, NEW),
    Step::Next(Some((0, 0))),
    Step::Next(None),
];

/// Stores to a field before its object is placed, before it is held, and after that.
const STORED_TO: &[Step] = &[
    // Nobody misses a field of an object that isn't placed.
    Step::Store(0, 0, 1, Value::Int(-7)),
    Step::Counts(0, 0, 0),
    Step::Place(0, NEW),
    // A store to a field that isn't held leaves it missing, once.
    Step::Store(0, 0, 2, Value::Int(8)),
    Step::Counts(1, 2, 2),
    Step::Hold(0, 0),
    Step::Hold(0, 1),
    Step::Counts(1, 0, 2),
    Step::Held(0, 0, Some((2, Value::Int(8)))),
    // A pair that is held already changes nothing.
    Step::Hold(0, 0),
    Step::Counts(1, 0, 2),
    // After a store, what is held is older. A second store counts no second time.
    Step::Store(0, 0, 3, Value::Ref(0)),
    Step::Store(0, 0, 4, Value::Ref(0)),
    Step::Counts(1, 1, 2),
    Step::Held(0, 0, Some((2, Value::Int(8)))),
    Step::Hold(0, 0),
    Step::Counts(1, 0, 2),
    Step::Held(0, 0, Some((4, Value::Ref(0)))),
    Step::Exchange,
    Step::Current(0, 0, (4, Value::Ref(0))),
    Step::Current(0, 1, (0, Value::Nil)),
];

/// A full space is placed whole. What isn't held yet has no number.
const FULL: &[Step] = &[
    Step::Place(30, NEW),
    Step::Place(6, NEW),
    Step::Place(0, NEW),
    Step::Used(32, 32),
    Step::Forward(0, Some(26)),
    Step::Replica(26, 3, (NOT_HELD, Value::Nil)),
];

/// The fields of three objects, and what is played on them.
const PLAYS: &[([u32; 3], &[&[Step]])] = &[
    ([2, 0, 1], &[PLACED_ONCE]),
    ([2, 2, 0], &[REFERRING, IN_ORDER, EXCHANGED, AFTER_IN_ORDER]),
    (
        [2, 2, 0],
        &[REFERRING, IN_REVERSE, EXCHANGED, AFTER_IN_REVERSE],
    ),
    ([3, 1, 0], &[FIELDLESS_FIRST, SCANNED]),
    ([3, 1, 0], &[FIELDLESS_BETWEEN, SCANNED]),
    ([3, 1, 0], &[FIELDLESS_LAST, SCANNED]),
    ([1, 0, 2], &[PLACED_BETWEEN]),
    ([1, 0, 0], &[LINKED]),
    ([2, 0, 0], &[STORED_TO]),
    ([4, 22, 0], &[FULL]),
];

/// Plays steps on new spaces.
fn play<R: AllocGlobal + Abort>(rt: &R, objects: [u32; 3], parts: &[&[Step]]) {
    let mut spaces = Spaces::of(rt, objects);
    for (row, &steps) in parts.iter().enumerate() {
        let rt = &Row { rt, row };
        for (row, &step) in steps.iter().enumerate() {
            spaces.play_step(&Row { rt, row }, step);
        }
    }
}

#[test]
fn plays(rt: HostRuntime) {
    for (row, &(objects, parts)) in PLAYS.iter().enumerate() {
        play(&Row { rt: &rt, row }, objects, parts);
    }
}
