//! Replicators on their rings, all on one thread.

ghost use Rattle.std.specs.Prelude.{◌≡◌};

use crate::expectations::{Row, expect_equal, expect_texts};
use refusing::{RefusingAllocator, refused_in_turn};
use rh_layout::Value;
use rh_partial::{Item, Piece};
use rh_replicator::{Gate, Link, NotStarted, Replicator, RunEnd, Settled, Stepped, new_link};
use std::alloc::{Allocator, Global};
use std::process::Abort;
use std::sync::atomic::AtomicBool;

/// New rings to the replicator of this number and back, and that replicator.
fn rings_of<R: AllocGlobal + Abort>(rt: &R, number: u32) -> (Link, Replicator) {
    let Ok((link, ends)) = new_link(rt.alloc(), number) else {
        panic!(rt; "memory is ample")
    };
    (link, Replicator::new(rt.alloc(), ends))
}

/// A piece of this epoch with so many items, each of a place of its own, with this number.
fn piece_of(epoch: u64, items: u32, number: u64) -> Piece {
    let mut piece = Piece::new(epoch);
    for field in 0..items {
        let item = Item {
            object: 0,
            field,
            number,
            value: Value::Nil,
        };
        let _ = piece.push(item);
    }
    piece
}

/// Pushes a piece, unless the ring has no place. Answers whether it had.
fn push<A: Allocator + Copy>(link: &mut Link<A>, piece: Piece) -> bool
    ensures pieces { link.new.ring.pieces_ring ≡ link.old.ring.pieces_ring }
    ensures replicas { link.new.ring.replicas_ring ≡ link.old.ring.replicas_ring }
{
    let place = link.has_place();
    if place {
        link.push(piece);
    }
    place
}

/// Pieces that are pushed in turn: the epoch of each, how many items it has, and their number.
type Pushed = (u64, u32, u64);

/// Pushes pieces in turn, and ends the test unless each has a place.
fn push_each<A: Allocator + Copy>(rt: &impl Abort, link: &mut Link<A>, pieces: &[Pushed])
    ensures pieces { link.new.ring.pieces_ring ≡ link.old.ring.pieces_ring }
    ensures replicas { link.new.ring.replicas_ring ≡ link.old.ring.replicas_ring }
{
    for (row, &(epoch, items, number)) in pieces.iter().enumerate() {
        let rt = &Row { rt, row };
        assert!(rt; push(link, piece_of(epoch, items, number)));
    }
}

/// Steps a replicator in turn, and ends the test unless each step comes to what it says.
fn step_each<A: Allocator + Copy>(
    rt: &impl Abort,
    replicator: &mut Replicator<A>,
    steps: &[Stepped],
)
    ensures pieces { replicator.new.pieces_ring ≡ replicator.old.pieces_ring }
    ensures replicas { replicator.new.replicas_ring ≡ replicator.old.replicas_ring }
{
    for (row, &stepped) in steps.iter().enumerate() {
        expect_equal(&Row { rt, row }, replicator.step(), stepped);
    }
}

/// The epoch of the replica that waits, how many entries it has, and the number of its first.
fn waiting<A: Allocator + Copy>(link: &Link<A>) -> Option<(u64, usize, u64)> {
    let replica = link.waiting()?;
    if replica.is_empty() {
        return Some((replica.epoch(), 0, 0));
    }
    Some((replica.epoch(), replica.len(), replica.entry(0).number))
}

/// Pops a replica of epoch 7, and ends the test unless it has one entry, of this number.
fn expect_popped(rt: &impl Abort, link: &mut Link, number: u64) {
    assert!(rt; link.pop());
    expect_equal(rt, waiting(link), Some((7, 1, number)));
}

/// Five pieces of one place.
const OF_ONE_PLACE: &[Pushed] = &[(7, 1, 1), (7, 1, 2), (7, 1, 3), (7, 1, 4), (7, 1, 5)];

/// Sends a piece of this number both ways through rings where a replica waits.
fn go_round(rt: &impl Abort, link: &mut Link, replicator: &mut Replicator, number: u64) {
    link.forget();
    push_each(rt, link, &[(7, 1, number)]);
    step_each(rt, replicator, &[Stepped::Folded(1)]);
    expect_popped(rt, link, number);
}

#[test]
fn pieces_of_one_place_are_folded_together(rt: HostRuntime) {
    let (mut link, mut replicator) = rings_of(&rt, 0);
    push_each(&rt, &mut link, OF_ONE_PLACE);
    let steps = [Stepped::Folded(4), Stepped::Folded(1), Stepped::Idle];
    step_each(&rt, &mut replicator, &steps);
    expect_popped(&rt, &mut link, 4);
    // One waits, so no other is popped.
    assert!(rt; !link.pop());
    link.forget();
    expect_equal(&rt, waiting(&link), None);
    expect_popped(&rt, &mut link, 5);
    // Each pop looks anew, however many went before.
    for turn in 0..70_000u32 {
        let row = turn as usize;
        let rt = Row { rt: &rt, row };
        go_round(&rt, &mut link, &mut replicator, turn.into());
    }
}

/// Pieces of two epochs, of which the second's first two have as many items as a fold may have.
const OF_TWO_EPOCHS: &[Pushed] = &[(1, 1, 1), (1, 2, 1), (2, 40, 1), (2, 24, 1), (2, 1, 1)];

#[test]
fn another_epoch_and_too_many_items_end_a_fold(rt: HostRuntime) {
    let (mut link, mut replicator) = rings_of(&rt, 0);
    push_each(&rt, &mut link, OF_TWO_EPOCHS);
    let steps = [
        Stepped::Folded(2),
        Stepped::Folded(2),
        Stepped::Folded(1),
        Stepped::Idle,
    ];
    step_each(&rt, &mut replicator, &steps);
}

/// A piece of each of eight epochs.
const OF_EIGHT_EPOCHS: &[Pushed] = &[
    (1, 1, 1),
    (2, 1, 1),
    (3, 1, 1),
    (4, 1, 1),
    (5, 1, 1),
    (6, 1, 1),
    (7, 1, 1),
    (8, 1, 1),
];

#[test]
fn a_ring_has_eight_places_each_way(rt: HostRuntime) {
    let (mut link, mut replicator) = rings_of(&rt, 0);
    push_each(&rt, &mut link, OF_EIGHT_EPOCHS);
    assert!(rt; !push(&mut link, piece_of(9, 1, 1)));
    step_each(&rt, &mut replicator, &[Stepped::Folded(1); 8]);
    // With no piece there, and then with one.
    step_each(&rt, &mut replicator, &[Stepped::RingFull]);
    push_each(&rt, &mut link, &[(9, 1, 1)]);
    step_each(&rt, &mut replicator, &[Stepped::RingFull]);
    assert!(rt; link.pop());
    step_each(&rt, &mut replicator, &[Stepped::Folded(1)]);
}

#[test]
fn new_rings_are_settled_with_nothing(rt: HostRuntime) {
    let Ok((mut link, ends)) = new_link(rt.alloc(), u32::MAX) else {
        panic!(rt; "memory is ample")
    };
    expect_equal(&rt, ends.replicator(), u32::MAX);
    let done = ends.finish().expect(&rt, "the heap's ends are there");
    expect_equal(&rt, done.replicator(), u32::MAX);
    let settled = Settled {
        received: 0,
        left: 0,
    };
    expect_equal(&rt, link.settle(done), settled);
}

/// A piece of each of four epochs.
const OF_FOUR_EPOCHS: &[Pushed] = &[(1, 1, 1), (2, 1, 2), (3, 1, 3), (4, 1, 4)];

/// Ends a replicator on these rings, which has the number that is due, and settles what went
/// through them.
fn expect_settled(rt: &impl Abort, link: &mut Link, replicator: Replicator, due: (u32, Settled))
    requires pieces { replicator.pieces_ring ≡ link.old.ring.pieces_ring }
    requires replicas { replicator.replicas_ring ≡ link.old.ring.replicas_ring }
{
    let done = replicator.finish();
    let done = done.expect(rt, "the heap's ends are there");
    expect_equal(rt, done.replicator(), due.0);
    expect_equal(rt, link.settle(done), due.1);
}

#[test]
fn what_is_left_in_the_rings_is_settled_too(rt: HostRuntime) {
    let Ok((mut link, ends)) = new_link(rt.alloc(), 5) else {
        panic!(rt; "memory is ample")
    };
    let mut replicator = Replicator::new(rt.alloc(), ends);
    push_each(&rt, &mut link, OF_FOUR_EPOCHS);
    step_each(&rt, &mut replicator, &[Stepped::Folded(1); 3]);
    assert!(rt; link.pop());
    let settled = Settled {
        received: 1,
        left: 2,
    };
    expect_settled(&rt, &mut link, replicator, (5, settled));
    expect_equal(&rt, waiting(&link), Some((1, 1, 1)));
}

#[test]
fn no_end_is_finished_without_a_heap(rt: HostRuntime) {
    let (link, replicator) = rings_of(&rt, 0);
    drop(link);
    assert!(rt; replicator.finish().is_none());
}

/// Whether a step that folds as many items as it may met want of memory. The step after such a one
/// folds the pieces that were there.
fn is_refused_a_step<A: Allocator + Copy>(
    link: &mut Link<A>,
    replicator: &mut Replicator<A>,
) -> bool {
    push(link, piece_of(1, 63, 1));
    push(link, piece_of(1, 1, 2));
    let stepped = replicator.step();
    if stepped != Stepped::OutOfMemory {
        return stepped != Stepped::Folded(2);
    }
    let folded = replicator.step() == Stepped::Folded(2) && link.pop();
    folded && waiting(link) == Some((1, 63, 2))
}

/// The same of a new replicator, on rings from memory that is ample.
fn step_is_refused<A: Allocator + Copy>(ample: A, memory: A) -> bool {
    let Ok((mut link, ends)) = new_link(ample, 0) else {
        return false;
    };
    let mut replicator = Replicator::new(memory, ends);
    is_refused_a_step(&mut link, &mut replicator)
}

#[test]
fn refused_memory_is_told(rt: HostRuntime) {
    let links = refused_in_turn(rt.alloc(), |memory| new_link(memory, 0).is_err());
    expect_equal(&rt, links, Ok(4));
    let ample = RefusingAllocator::new(rt.alloc(), 0);
    let steps = refused_in_turn(rt.alloc(), |memory| step_is_refused(&ample, memory));
    expect_equal(&rt, steps, Ok(1));
    let left = NotStarted { work: 0u32 };
    expect_texts(&rt, &[(left, "memory or a thread was refused")]);
}

/// A gate that always passes, and counts.
#[derive(Clone, Copy, Debug, PartialEq, Eq)]
struct Counting {
    asked: u32,
    idle: u32,
    folded: u32,
}

impl Gate for Counting {
    ghost passes = { λ before answer after. Unit {0} };

    ghost tells = { λ before stepped after. Unit {0} };

    fn pass(&mut self) -> bool {
        self.asked = self.asked.saturating_add(1);
        true
    }

    fn did(&mut self, stepped: &Stepped) {
        match stepped {
            Stepped::Idle => self.idle = self.idle.saturating_add(1),
            Stepped::Folded(_) => self.folded = self.folded.saturating_add(1),
            Stepped::RingFull | Stepped::OutOfMemory => {}
        }
    }
}

const NONE_ASKED: Counting = Counting {
    asked: 0,
    idle: 0,
    folded: 0,
};

/// Runs a replicator with a gate that has counted so much. Answers how the run ended, and what the
/// gate has counted then.
fn run_of(
    replicator: &mut Replicator,
    counted: Counting,
    is_stopped: bool,
    turns: u32,
) -> (RunEnd, Counting) {
    let mut gate = counted;
    let end = replicator.run(&mut gate, &AtomicBool::new(is_stopped), turns);
    (end, gate)
}

#[test]
fn a_run_looks_whether_it_is_stopped_first(rt: HostRuntime) {
    let (_link, mut replicator) = rings_of(&rt, 0);
    let ran = run_of(&mut replicator, NONE_ASKED, true, 3);
    expect_equal(&rt, ran, (RunEnd::Stopped, NONE_ASKED));
}

/// What a gate has counted once all of many turns found nothing to fold.
const IDLE: Counting = Counting {
    asked: 1_000_003,
    idle: 1_000_003,
    folded: 0,
};

/// And after two more, of which the first folded a piece.
const FOLDED: Counting = Counting {
    asked: 1_000_005,
    idle: 1_000_004,
    folded: 1,
};

#[test]
fn a_run_spends_its_turns(rt: HostRuntime) {
    let (mut link, mut replicator) = rings_of(&rt, 0);
    let ran = run_of(&mut replicator, NONE_ASKED, false, 1_000_003);
    expect_equal(&rt, ran, (RunEnd::TurnsSpent, IDLE));
    assert!(rt; push(&mut link, piece_of(1, 1, 1)));
    let ran = run_of(&mut replicator, IDLE, false, 2);
    expect_equal(&rt, ran, (RunEnd::TurnsSpent, FOLDED));
}
