//! A heap whose replicators step in no order, on one thread; and what went through its rings.

use crate::beside::{Beside, beside_of};
use crate::calls::{A, B};
use crate::expectations::expect_equal;
use crate::starts::GATE;
use rh_layout::{Command, Operand};
use rh_replicator::{Settled, Stepped};
use rh_shared::SharedConfig;
use std::process::Abort;

/// Pieces of two items, and a cycle begins where fewer than 40 of the 64 words are free.
const SLOW: SharedConfig = SharedConfig {
    most: 2,
    mark: 40,
    history: 20_000,
    ..GATE
};

/// Commands that are made again and again.
const ROUND: &[Command] = &[
    Command::Alloc { dst: A, fields: 3 },
    Command::Store {
        obj: A,
        field: 0,
        operand: Operand::Int(7),
    },
    Command::Alloc { dst: B, fields: 1 },
    Command::Store {
        obj: A,
        field: 1,
        operand: Operand::Root(B),
    },
    Command::Load {
        dst: B,
        src: A,
        field: 0,
    },
];

/// Makes a call, and answers how many replicas its increment took in or refused for good.
fn taken_by(beside: &mut Beside, command: Command) -> u64 {
    if beside.call(command).is_err() {
        return 0;
    }
    let did = beside.kept().last_did();
    u64::from(did.given).saturating_add(did.dropped.into())
}

/// How many replicas a step handed back.
fn handed_back(stepped: Stepped) -> u64 {
    u64::from(matches!(stepped, Stepped::Folded(_)))
}

/// How many replicas the first replicator handed back, the second did, and the heap took in or
/// refused for good; and a number in no order, by which they step.
#[derive(Drop)]
struct Counts {
    first: u64,
    second: u64,
    taken: u64,
    state: u64,
}

/// Makes a call, and then steps of either replicator, or of both or none.
fn call_and_step(beside: &mut Beside, counts: &mut Counts, command: Command) {
    let taken = taken_by(beside, command);
    counts.taken = counts.taken.saturating_add(taken);
    let state = counts.state.wrapping_mul(6_364_136_223_846_793_005);
    counts.state = state.wrapping_add(1);
    if counts.state >> 62 == 0 {
        let handed = handed_back(beside.step_first());
        counts.first = counts.first.saturating_add(handed);
    }
    if (counts.state >> 60) % 4 == 0 {
        let handed = handed_back(beside.step_second());
        counts.second = counts.second.saturating_add(handed);
    }
}

/// Calls, and steps that come in no order.
fn play(beside: &mut Beside) -> Counts {
    let mut counts = Counts {
        first: 0,
        second: 0,
        taken: 0,
        state: 1,
    };
    for _ in 0..2000u32 {
        for command in ROUND {
            call_and_step(beside, &mut counts, *command);
        }
    }
    counts
}

/// Ends the test unless each replica that was handed back was received, or is left in its ring, and
/// each that was received was given or dropped, but for those that wait.
fn expect_settled(rt: &impl Abort, (one, two): (Settled, Settled), counts: &Counts) {
    let (first, second) = (counts.first, counts.second);
    expect_equal(rt, one.received.saturating_add(one.left), first);
    expect_equal(rt, two.received.saturating_add(two.left), second);
    let received = one.received.saturating_add(two.received);
    assert!(rt; received >= counts.taken, "{received}");
    let waiting = received.saturating_sub(counts.taken);
    assert!(rt; first >= 100 && second >= 100 && waiting <= 2, "{waiting}");
}

#[test]
fn what_was_handed_back_is_settled(rt: HostRuntime) {
    let mut beside = beside_of(&rt, SLOW);
    let counts = play(&mut beside);
    let flips = beside.kept().heap().stat().flips;
    assert!(rt; flips >= 100, "{flips}");
    let settled = beside.settle().expect(&rt, "both finish");
    expect_settled(&rt, settled, &counts);
}
