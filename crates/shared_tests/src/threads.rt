//! Mutators in threads of their own.

use crate::calls::NOTHING;
use crate::closing::{HALF, LARGE, Told, closed, heap_of, shared_of};
use crate::expectations::{Row, expect_equal, play_again};
use rh_layout::{Command, Operand, Reply, RootId};
use rh_shared::{CloseError, Mutator, SharedHeap};
use std::process::Abort;
use std::sync::Wait;
use std::thread::{self, Threads};

/// The five calls of an owner: it makes an object with its own number in it, shares it, and reads
/// its own object and the one that is shared then.
pub fn calls_of_owner(owner: u32) -> [Command; 5] {
    let own = RootId { owner, slot: 0 };
    let other = RootId { owner, slot: 1 };
    let shared = RootId { owner: 0, slot: 0 };
    [
        Command::Alloc {
            dst: own,
            fields: 1,
        },
        Command::Store {
            obj: own,
            field: 0,
            operand: Operand::Int(owner.into()),
        },
        Command::Copy {
            dst: shared,
            src: own,
        },
        Command::Load {
            dst: other,
            src: own,
            field: 0,
        },
        Command::Load {
            dst: other,
            src: shared,
            field: 0,
        },
    ]
}

/// Plays the five calls of the mutator's owner, the fourth on another heap, where that is asked
/// for. Gives the mutator back.
fn played<R: Wait>(
    rt: &R,
    shared: &SharedHeap,
    fourth: &SharedHeap,
    mut mutator: Mutator,
) -> Mutator {
    let mut number: u32 = 0;
    for command in calls_of_owner(mutator.owner()) {
        number = number.saturating_add(1);
        let heap = heap_of(number == 4, shared, fourth);
        let _ = mutator.call(rt, heap, command);
    }
    mutator
}

/// Whether an owner read its own number from its object, and that of either owner from the shared
/// one.
fn has_read(mutator: &Mutator) -> bool {
    let [_, _, _, own, shared] = mutator.calls() else {
        return false;
    };
    own.answer == Ok(Reply::Int(mutator.owner().into()))
        && matches!(shared.answer, Ok(Reply::Int(1 | 2)))
}

/// Two threads play owners 1 and 2 on one heap, and the second one's fourth call on a heap of its
/// own. The mutators are put back, the second one first, or are left without it where that is asked
/// for. Answers whether both read what they were to.
fn join_two<R: Threads + Wait + Sync + Abort>(
    rt: &R,
    shared: &SharedHeap,
    fourth: &SharedHeap,
    mutators: &mut Vec<Mutator>,
    leaves: bool,
) -> (bool, bool) {
    let two = mutators.pop().expect(rt, "owner 2");
    let one = mutators.pop().expect(rt, "owner 1");
    let (one, two) = thread::join(
        rt,
        || played(rt, shared, shared, one),
        || played(rt, shared, fourth, two),
    );
    let read = (has_read(&one), has_read(&two));
    // In any order of the list.
    if !leaves {
        let _ = mutators.push(two);
    }
    let _ = mutators.push(one);
    read
}

/// Two threads play owners 1 and 2 on one heap, and the second one's fourth call on another, where
/// that is asked for; and the heap is closed, without the second one where that is. Answers whether
/// both read what they were to, and what closing told.
fn play_two<R: Threads + Wait + Sync + AllocGlobal + Abort>(
    rt: &R,
    elsewhere: bool,
    leaves: bool,
) -> (bool, bool, Told) {
    let (shared, mut mutators) = shared_of(rt, LARGE, HALF);
    let (other, _others) = shared_of(rt, LARGE, HALF);
    let fourth = heap_of(elsewhere, &shared, &other);
    let (one, two) = join_two(rt, &shared, fourth, &mut mutators, leaves);
    (one, two, closed(rt, shared, mutators))
}

/// Whether the second owner's fourth call goes elsewhere, whether the heap is closed without that
/// owner, and what comes of it.
const PLAYED: &[(bool, bool, (bool, bool, Told))] = &[
    (
        false,
        false,
        (
            true,
            true,
            (None, NOTHING, ((6, 1, false, 0), (0, 0, 0, 0), Some(10)), 0),
        ),
    ),
    (
        false,
        true,
        (
            true,
            true,
            (
                Some(CloseError::SharesMissing),
                NOTHING,
                ((6, 1, false, 0), (0, 0, 0, 0), Some(10)),
                2,
            ),
        ),
    ),
    (
        true,
        false,
        (
            true,
            false,
            (
                Some(CloseError::HistoryDiffers { owner: 2, at: 4 }),
                NOTHING,
                ((6, 1, false, 0), (0, 0, 0, 0), Some(9)),
                3,
            ),
        ),
    ),
];

#[test]
fn two_threads_call_one_heap(rt: HostRuntime) {
    let mut played: u32 = 0;
    for (row, &(elsewhere, leaves, told)) in PLAYED.iter().enumerate() {
        let rt = Row { rt: &rt, row };
        let again = play_again(|| {
            expect_equal(&rt, play_two(&rt, elsewhere, leaves), told);
        });
        played = played.saturating_add(again);
    }
    expect_equal(&rt, played, 600);
}
