//! A heap without a lock and its replicators, step by step, all on one thread.

use crate::beside::{Beside, beside_of};
use crate::calls::{
    A, ALLOC_NONE, ALLOC_ONE, ALLOC_TWO, Answer, B, BEGAN, DONE, FLIPPED, NO_FIELDS, NOT_SAME,
    NOTHING, Numbers, ONE_FIELD, SAME, TWO_FIELDS, numbers_of,
};
use crate::expectations::{Row, expect_equal};
use crate::starts::{EAGER, GATE};
use rh_layout::{Command, Operand, Refusal, RootId};
use rh_replicator::{Settled, Stepped};
use rh_shared::{CallError, Did, SharedConfig};
use std::process::Abort;

/// What is done to a heap and its replicators, and what comes of it.
#[derive(Clone, Copy)]
enum Step {
    /// A call of owner 1, its answer, and what the last increment did then.
    Call(Command, Answer, Did),
    /// An increment without a call, and what it did.
    Increment(Did),
    /// A step of the first replicator, and one of the second.
    First(Stepped),
    Second(Stepped),
    /// Both replicators are lost.
    Lose,
    /// What the heap has.
    Has(Numbers),
}

/// A piece is dealt, and goes to a ring.
const DEALT: Did = Did {
    dealt: 1,
    ..NOTHING
};

/// The same, once both roots were shaded.
const DEALT_FIRST: Did = Did { shaded: 2, ..DEALT };

const GIVEN: Did = Did {
    given: 1,
    ..NOTHING
};

const RECALLED: Did = Did {
    recalled: true,
    ..NOTHING
};

/// An object that all owners see.
const ALLOC_SHARED: Command = Command::Alloc {
    dst: RootId { owner: 0, slot: 0 },
    fields: 0,
};

/// Without replicators, calls drive a cycle, and the next one begins.
const CYCLE: &[Step] = &[
    Step::Call(ALLOC_ONE, ONE_FIELD, BEGAN),
    Step::Call(
        ALLOC_NONE,
        NO_FIELDS,
        Did {
            shaded: 2,
            ..FLIPPED
        },
    ),
    Step::Call(SAME, NOT_SAME, BEGAN),
    Step::Has(((5, 2, true, 1), (0, 0, 2, 0), Some(3))),
];

/// Idle words end a cycle in one call.
const ONE_CALL: &[Step] = &[
    Step::Call(
        ALLOC_ONE,
        ONE_FIELD,
        Did {
            began: true,
            shaded: 1,
            ..FLIPPED
        },
    ),
    Step::Has(((3, 2, false, 1), (0, 6, 1, 0), Some(1))),
];

/// With few idle words, increments go on without calls.
const NO_CALLS: &[Step] = &[
    Step::Call(ALLOC_ONE, ONE_FIELD, Did { shaded: 1, ..BEGAN }),
    Step::Increment(NOTHING),
    Step::Increment(FLIPPED),
    Step::Has(((3, 2, false, 1), (0, 6, 1, 0), Some(1))),
];

/// A full history takes no call.
const FULL: &[Step] = &[
    Step::Call(ALLOC_ONE, ONE_FIELD, BEGAN),
    Step::Call(ALLOC_NONE, Err(CallError::TraceFull), BEGAN),
    Step::Has(((3, 1, true, 0), (0, 0, 0, 0), Some(1))),
];

/// Refused calls are noted, but for limits.
const REFUSED: &[Step] = &[
    Step::Call(
        Command::Alloc { dst: A, fields: 63 },
        Err(CallError::Heap(Refusal::SpaceFull { need: 65, free: 64 })),
        NOTHING,
    ),
    Step::Call(
        Command::Load {
            dst: A,
            src: B,
            field: 0,
        },
        Err(CallError::Heap(Refusal::NotObject)),
        NOTHING,
    ),
    Step::Has(((0, 1, false, 0), (0, 0, 0, 0), Some(1))),
];

/// A piece goes to a ring that nobody reads any more.
const LOST: &[Step] = &[
    Step::Lose,
    Step::Call(ALLOC_ONE, ONE_FIELD, BEGAN),
    Step::Call(ALLOC_NONE, NO_FIELDS, DEALT_FIRST),
];

/// Two increments later all is undealt again, and the next folds in place and flips. The next cycle
/// is folded in place from its beginning.
const MISSED: &[Step] = &[
    Step::Call(SAME, NOT_SAME, NOTHING),
    Step::Call(SAME, NOT_SAME, RECALLED),
    Step::Call(SAME, NOT_SAME, FLIPPED),
    Step::Has(((5, 3, false, 1), (16, 10, 2, 0), Some(5))),
    Step::Call(SAME, NOT_SAME, BEGAN),
    Step::Call(
        ALLOC_SHARED,
        NO_FIELDS,
        Did {
            shaded: 3,
            ..FLIPPED
        },
    ),
    Step::Has(((7, 4, false, 2), (16, 12, 5, 0), Some(7))),
];

/// Without patience it is waited for.
const AWAITED: &[Step] = &[Step::Increment(NOTHING); 20];

const STILL_MISSING: &[Step] = &[Step::Has(((5, 1, true, 0), (16, 7, 0, 1), Some(2)))];

const STORE_FIVE: Command = Command::Store {
    obj: A,
    field: 0,
    operand: Operand::Int(5),
};

/// A ring of eight places is filled, and once it is drained has a place again.
const FILLED: &[Step] = &[
    Step::Call(
        ALLOC_ONE,
        ONE_FIELD,
        Did {
            began: true,
            shaded: 1,
            ..DEALT
        },
    ),
    Step::Call(STORE_FIVE, DONE, DEALT),
    Step::Call(STORE_FIVE, DONE, DEALT),
    Step::Call(STORE_FIVE, DONE, DEALT),
    Step::Call(STORE_FIVE, DONE, DEALT),
    Step::Call(STORE_FIVE, DONE, DEALT),
    Step::Call(STORE_FIVE, DONE, DEALT),
    Step::Call(STORE_FIVE, DONE, DEALT),
    Step::Call(STORE_FIVE, DONE, NOTHING),
    Step::First(Stepped::Folded(4)),
    Step::Call(Command::Drop { root: B }, DONE, Did { given: 1, ..DEALT }),
    Step::Has(((3, 1, true, 0), (0, 13, 0, 1), Some(10))),
];

/// Three calls, after which each of two replicators has as many pieces as there are copies.
const PUSHED: &[Step] = &[
    Step::Call(ALLOC_TWO, TWO_FIELDS, BEGAN),
    Step::Call(ALLOC_NONE, NO_FIELDS, DEALT_FIRST),
    Step::Call(SAME, NOT_SAME, DEALT),
];

/// Both fold what they have.
const FOLDED: &[Step] = &[
    Step::First(Stepped::Folded(1)),
    Step::Second(Stepped::Folded(1)),
];

/// What they folded is left in their rings.
const LEFT: &[Step] = &[Step::Has(((6, 1, true, 0), (16, 8, 0, 2), Some(3)))];

/// Drained rings end the cycle.
const DRAINED: &[Step] = &[
    Step::Call(
        SAME,
        NOT_SAME,
        Did {
            given: 2,
            flipped: true,
            ..NOTHING
        },
    ),
    Step::Has(((6, 2, false, 1), (16, 12, 2, 0), Some(4))),
];

/// Two copies of each piece are one.
const COPIED: &[Step] = &[
    Step::First(Stepped::Folded(2)),
    Step::Second(Stepped::Folded(2)),
    Step::Call(
        ALLOC_SHARED,
        NO_FIELDS,
        Did {
            shaded: 1,
            given: 2,
            flipped: true,
            ..NOTHING
        },
    ),
    Step::Has(((8, 2, false, 1), (32, 17, 3, 0), Some(4))),
];

/// Pieces of one place are folded together.
const TOGETHER: &[Step] = &[
    Step::Call(ALLOC_ONE, ONE_FIELD, BEGAN),
    Step::Call(ALLOC_NONE, NO_FIELDS, DEALT_FIRST),
    Step::Call(
        Command::Store {
            obj: A,
            field: 0,
            operand: Operand::Int(1),
        },
        DONE,
        DEALT,
    ),
    Step::Call(
        Command::Store {
            obj: A,
            field: 0,
            operand: Operand::Int(2),
        },
        DONE,
        DEALT,
    ),
    Step::Call(
        Command::Store {
            obj: A,
            field: 0,
            operand: Operand::Int(3),
        },
        DONE,
        DEALT,
    ),
    Step::First(Stepped::Folded(4)),
    Step::Call(
        SAME,
        NOT_SAME,
        Did {
            flipped: true,
            ..GIVEN
        },
    ),
    Step::Has(((5, 2, false, 1), (16, 12, 2, 0), Some(6))),
];

/// Patience with the first replicator comes to its end, and what it hands back then is dropped.
const LATE: &[Step] = &[
    Step::Second(Stepped::Folded(1)),
    Step::Call(SAME, NOT_SAME, GIVEN),
    Step::Call(SAME, NOT_SAME, NOTHING),
    Step::Call(SAME, NOT_SAME, RECALLED),
    Step::Call(SAME, NOT_SAME, FLIPPED),
    Step::Has(((6, 3, false, 1), (16, 13, 2, 0), Some(7))),
    Step::First(Stepped::Folded(1)),
    Step::Call(
        SAME,
        NOT_SAME,
        Did {
            dropped: 1,
            ..BEGAN
        },
    ),
];

const RECEIVED: Settled = Settled {
    received: 1,
    left: 0,
};

const LEFT_OVER: Settled = Settled {
    received: 0,
    left: 1,
};

/// What a heap goes by, the parts of a play on it, and what settling tells where there are two
/// replicators then.
type Play = (
    SharedConfig,
    &'static [&'static [Step]],
    Option<(Settled, Settled)>,
);

const PLAYS: &[Play] = &[
    (EAGER, &[CYCLE], None),
    (SharedConfig { idle: 16, ..EAGER }, &[ONE_CALL], None),
    (SharedConfig { idle: 4, ..EAGER }, &[NO_CALLS], None),
    (
        SharedConfig {
            history: 1,
            ..EAGER
        },
        &[FULL],
        None,
    ),
    (SharedConfig { mark: 0, ..EAGER }, &[REFUSED], None),
    (
        SharedConfig {
            patience: 2,
            ..GATE
        },
        &[LOST, MISSED],
        None,
    ),
    (GATE, &[LOST, AWAITED, STILL_MISSING], None),
    (
        SharedConfig {
            replicators: 1,
            idle: 16,
            ..GATE
        },
        &[FILLED],
        None,
    ),
    (GATE, &[PUSHED, FOLDED, LEFT], Some((LEFT_OVER, LEFT_OVER))),
    (GATE, &[PUSHED, FOLDED, DRAINED], Some((RECEIVED, RECEIVED))),
    (
        SharedConfig {
            most: 2,
            copies: 2,
            ..GATE
        },
        &[PUSHED, COPIED],
        Some((RECEIVED, RECEIVED)),
    ),
    (
        SharedConfig {
            replicators: 1,
            ..GATE
        },
        &[TOGETHER],
        None,
    ),
    (
        SharedConfig {
            patience: 2,
            ..GATE
        },
        &[PUSHED, LATE],
        Some((RECEIVED, RECEIVED)),
    ),
];

/// Makes a call, and ends the test unless it has this answer and the last increment did this.
fn play_call(rt: &impl Abort, beside: &mut Beside, command: Command, answer: Answer, did: Did) {
    expect_equal(rt, beside.call(command), answer);
    expect_equal(rt, beside.kept().last_did(), did);
}

/// Increments, and ends the test unless that does this, and is the last that was done.
fn play_increment(rt: &impl Abort, beside: &mut Beside, did: Did) {
    expect_equal(rt, beside.increment(), did);
    expect_equal(rt, beside.kept().last_did(), did);
}

/// Plays a step, and ends the test unless it comes to what it says.
fn play_step<R: AllocGlobal + Abort>(rt: &R, beside: &mut Beside, step: Step) {
    match step {
        Step::Call(command, answer, did) => play_call(rt, beside, command, answer, did),
        Step::Increment(did) => play_increment(rt, beside, did),
        Step::First(stepped) => expect_equal(rt, beside.step_first(), stepped),
        Step::Second(stepped) => expect_equal(rt, beside.step_second(), stepped),
        Step::Lose => beside.lose(),
        Step::Has(numbers) => expect_equal(rt, numbers_of(rt, beside.kept()), numbers),
    }
}

/// Plays a part of a play. Answers how many steps it had.
fn play_part<R: AllocGlobal + Abort>(rt: &R, beside: &mut Beside, steps: &[Step]) -> u32 {
    let mut played: u32 = 0;
    for (row, &step) in steps.iter().enumerate() {
        play_step(&Row { rt, row }, beside, step);
        played = played.saturating_add(1);
    }
    played
}

/// Plays a play on a new heap, and settles. Answers how many steps it had.
fn play_all<R: AllocGlobal + Abort>(rt: &R, &(shared, parts, settled): &Play) -> u32 {
    let mut beside = beside_of(rt, shared);
    expect_equal(rt, beside.kept().last_did(), NOTHING);
    let mut played: u32 = 0;
    for (row, &steps) in parts.iter().enumerate() {
        let more = play_part(&Row { rt, row }, &mut beside, steps);
        played = played.saturating_add(more);
    }
    expect_equal(rt, beside.settle(), settled);
    played
}

#[test]
fn each_step_comes_to_what_it_says(rt: HostRuntime) {
    let mut played: u32 = 0;
    for (row, play) in PLAYS.iter().enumerate() {
        let rt = Row { rt: &rt, row };
        played = played.saturating_add(play_all(&rt, play));
    }
    expect_equal(&rt, played, 101);
}
