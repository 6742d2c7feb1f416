//! Replicators in threads of their own, beside calls under the lock in this one.

ghost use Rattle.std.specs.List.{AllByRecursion};
ghost use Rattle.rh_shared.specs.Start.{IsFresh};

use crate::calls::{ALLOC_NONE, ALLOC_TWO, Answer, NO_FIELDS, NOT_SAME, NOTHING, SAME, TWO_FIELDS};
use crate::closing::{Told, closed};
use crate::expectations::{Row, expect_equal, play_again};
use crate::gates::{LOOKS, Signs, Watched, is_seen};
use crate::starts::{GATE, SMALL};
use rh_layout::Command;
use rh_replicator::{Replicator, ReplicatorEnds, RunEnd, Stepped, crew};
use rh_shared::{Did, Mutator, SharedHeap, Start};
use std::alloc::Allocator;
use std::process::Abort;
use std::sync::Wait;
use std::sync::atomic::{AtomicBool, Ordering};
use std::thread::Threads;

/// Calls after which each of the two replicators has a piece in its ring, and their answers.
const PUSHED: &[(Command, Answer)] = &[
    (ALLOC_TWO, TWO_FIELDS),
    (ALLOC_NONE, NO_FIELDS),
    (SAME, NOT_SAME),
];

/// A replicator with the last of the ends, which are new.
fn last_of<A: Allocator + Copy>(
    alloc: A,
    ends: &mut Vec<ReplicatorEnds<A>, A>,
) -> Option<Replicator<A>>
    requires { AllByRecursion IsFresh ends.old.items }
    ensures { AllByRecursion IsFresh ends.new.items }
{
    match ends.pop() {
        Some(last) => Some(Replicator::new(alloc, last)),
        None => None,
    }
}

/// Waits until the second replicator has folded, makes a call, lets the first one pass, and waits
/// until it has folded too.
fn call_between<R: Wait>(
    rt: &R,
    shared: &SharedHeap,
    one: &mut Mutator,
    signs: (&Signs, &Signs),
    missed: &AtomicBool,
) {
    is_seen(&signs.1.folded, missed);
    let _ = one.call(rt, shared, SAME);
    signs.0.may_pass.store(true, Ordering::SeqCst);
    is_seen(&signs.0.folded, missed);
}

/// Checks that the last replicator was stopped, and had nothing left to fold.
fn expect_idle(rt: &impl Abort, ended: &mut Vec<(Replicator, RunEnd)>) {
    let (mut second, end) = ended.pop().expect(rt, "the second");
    expect_equal(rt, (end, second.step()), (RunEnd::Stopped, Stepped::Idle));
}

/// Checks that there is one replicator, which was stopped.
fn expect_stopped(rt: &impl Abort, ended: &mut Vec<(Replicator, RunEnd)>) {
    let (_first, end) = ended.pop().expect(rt, "the first");
    expect_equal(rt, (end, ended.len()), (RunEnd::Stopped, 0));
}

/// Both replicators, each behind its gate.
fn behind_gates<'f, R: AllocGlobal + Abort>(
    rt: &R,
    (first, second): (Replicator, Replicator),
    signs: (&'f Signs, &'f Signs),
    missed: &'f AtomicBool,
) -> Vec<(Replicator, Watched<'f>)> {
    let one = Watched {
        own: signs.0,
        other: signs.1,
        missed,
    };
    let other = Watched {
        own: signs.1,
        other: signs.0,
        missed,
    };
    let mut both = Vec::new(rt.alloc());
    both.push((first, one)).expect(rt, "memory is ample");
    both.push((second, other)).expect(rt, "memory is ample");
    both
}

/// Plays the replicators behind gates, beside a call that gives what the second one folded before
/// the first one may. Each steps only once both gates were asked: so none of this happens where one
/// thread plays both, nor where they are played before the work or after it.
fn play<R: Threads + Wait + Sync + AllocGlobal + Abort>(
    rt: &R,
    shared: &SharedHeap,
    one: &mut Mutator,
    both: (Replicator, Replicator),
) {
    let signs = (Signs::new(false), Signs::new(true));
    let missed = AtomicBool::new(false);
    let replicators = behind_gates(rt, both, (&signs.0, &signs.1), &missed);
    let stop = AtomicBool::new(false);
    let ended = crew(rt, rt.alloc(), replicators, &stop, LOOKS, || {
        call_between(rt, shared, one, (&signs.0, &signs.1), &missed);
    });
    assert!(rt; !missed.load(Ordering::SeqCst));
    let mut ended = ended.ok().expect(rt, "they start");
    expect_idle(rt, &mut ended);
    expect_stopped(rt, &mut ended);
}

/// Plays the two replicators that have these ends beside a call of this owner.
fn play_both<R: Threads + Wait + Sync + AllocGlobal + Abort>(
    rt: &R,
    shared: &SharedHeap,
    one: &mut Mutator,
    mut ends: Vec<ReplicatorEnds>,
)
    requires { AllByRecursion IsFresh ends.items }
{
    let second = last_of(rt.alloc(), &mut ends).expect(rt, "the second");
    let first = last_of(rt.alloc(), &mut ends).expect(rt, "the first");
    play(rt, shared, one, (first, second));
}

/// Makes the calls after which each replicator has a piece, and plays both beside one more.
fn call_beside<R: Threads + Wait + Sync + AllocGlobal + Abort>(
    rt: &R,
    shared: &SharedHeap,
    one: &mut Mutator,
    ends: Vec<ReplicatorEnds>,
)
    requires { AllByRecursion IsFresh ends.items }
{
    for (row, &(command, answer)) in PUSHED.iter().enumerate() {
        let rt = &Row { rt, row };
        expect_equal(rt, one.call(rt, shared, command), answer);
    }
    play_both(rt, shared, one, ends);
}

/// What an increment does that gives a replica and ends the cycle.
const GIVEN: Did = Did {
    given: 1,
    flipped: true,
    ..NOTHING
};

/// What the heap has counted, once it is closed: all calls are there.
const CLOSED: Told = (None, GIVEN, ((6, 2, false, 1), (16, 12, 2, 0), Some(4)), 0);

/// Two replicators fold beside the calls of the last owner, and each piece is given under the lock.
fn meet<R: Threads + Wait + Sync + AllocGlobal + Abort>(
    rt: &R,
    shared: &SharedHeap,
    mutators: &mut Vec<Mutator>,
    ends: Vec<ReplicatorEnds>,
)
    requires { AllByRecursion IsFresh ends.items }
{
    let mut one = mutators.pop().expect(rt, "owner 1");
    call_beside(rt, shared, &mut one, ends);
    // The fourth call gave what the second one had folded; an increment gives what the first has.
    expect_equal(rt, shared.increment(rt), GIVEN);
    let _ = mutators.push(one);
}

/// Plays replicators beside calls on a new heap.
fn meet_anew<R: Threads + Wait + Sync + AllocGlobal + Abort>(rt: &R) {
    let start = Start::new(rt.alloc(), SMALL, GATE)
        .ok()
        .expect(rt, "it starts");
    let Ok((shared, mut mutators, ends)) = SharedHeap::new(rt.alloc(), start) else {
        panic!(rt; "memory is ample")
    };
    meet(rt, &shared, &mut mutators, ends);
    expect_equal(rt, closed(rt, shared, mutators), CLOSED);
}

#[test]
fn replicators_fold_beside_calls(rt: HostRuntime) {
    let played = play_again(|| meet_anew(&rt));
    expect_equal(&rt, played, 200);
}
