//! Mutators that call, and the closing of a shared heap, on one thread.

use crate::calls::{
    A, ALLOC_NONE, ALLOC_ONE, Answer, BEGAN, DONE, DROP, FLIPPED, NO_FIELDS, NOT_SAME, NOTHING,
    Numbers, ONE_FIELD, SAME, numbers_of,
};
use crate::expectations::{Row, expect_equal};
use crate::starts::{EAGER, SMALL};
use rh_core::Config;
use rh_layout::{Command, Operand, Refusal, Reply, RootId};
use rh_shared::{
    CallError, CloseError, Did, Kept, Mutator, NotClosed, SharedConfig, SharedHeap, Start, close,
};
use std::process::Abort;
use std::sync::Wait;

/// Three owners with two slots each, and ample space.
pub const LARGE: Config = Config {
    words: 1024,
    owners: 3,
    log_limit: 64,
    ..SMALL
};

/// Half of the space is left when a cycle begins.
pub const HALF: SharedConfig = SharedConfig {
    mark: 512,
    history: 16,
    ..EAGER
};

/// A shared heap and its mutators, of these configurations.
pub fn shared_of<R: AllocGlobal + Abort>(
    rt: &R,
    config: Config,
    shared: SharedConfig,
) -> (SharedHeap, Vec<Mutator>) {
    let start = Start::new(rt.alloc(), config, shared)
        .ok()
        .expect(rt, "it starts");
    let (shared, mutators, _ends) = SharedHeap::new(rt.alloc(), start)
        .ok()
        .expect(rt, "memory is ample");
    (shared, mutators)
}

/// Why a heap isn't closed, if so; what its last increment did, and its numbers; and how many
/// mutators come back.
pub type Told = (Option<CloseError>, Did, Numbers, usize);

/// What is told of a heap that was closed, or wasn't.
fn told_of<R: AllocGlobal>(rt: &R, closed: &Result<Kept, NotClosed>) -> Told {
    match closed {
        Ok(kept) => (None, kept.last_did(), numbers_of(rt, kept), 0),
        Err(left) => (
            Some(left.why),
            left.kept.last_did(),
            numbers_of(rt, &left.kept),
            left.mutators.len(),
        ),
    }
}

/// Closes a heap.
pub fn closed<R: AllocGlobal>(rt: &R, shared: SharedHeap, mutators: Vec<Mutator>) -> Told {
    let closed = close(shared, mutators);
    told_of(rt, &closed)
}

/// A call: whether a mutator of the other heap makes it, the place of the mutator, whether it is
/// made on the other heap, the command and the answer.
type Asked = (bool, usize, bool, Command, Answer);

/// Calls on a heap and on another one beside it, and the closing of the first.
struct Case {
    config: Config,
    /// That of the other heap.
    other: Config,
    shared: SharedConfig,
    calls: &'static [Asked],
    /// What increments do after the calls.
    increments: &'static [Did],
    /// Whether the last mutator is left out, and then the other heap's last one is put in.
    leaves: bool,
    joins: bool,
    told: Told,
}

/// The object of owner 2 that holds a number, and that all owners see.
const OWN: RootId = RootId { owner: 2, slot: 0 };

const OTHER: RootId = RootId { owner: 2, slot: 1 };

const SHARED: RootId = RootId { owner: 0, slot: 0 };

const ALLOC_OWN: Command = Command::Alloc {
    dst: OWN,
    fields: 1,
};

const STORE_TWO: Command = Command::Store {
    obj: OWN,
    field: 0,
    operand: Operand::Int(2),
};

const SHARE: Command = Command::Copy {
    dst: SHARED,
    src: OWN,
};

const STORE_NINE: Command = Command::Store {
    obj: SHARED,
    field: 0,
    operand: Operand::Int(9),
};

const LOAD_OWN: Command = Command::Load {
    dst: OTHER,
    src: OWN,
    field: 0,
};

const LOAD_SHARED: Command = Command::Load {
    dst: OTHER,
    src: SHARED,
    field: 0,
};

const TWO: Answer = Ok(Reply::Int(2));

const NINE: Answer = Ok(Reply::Int(9));

/// The mutators of owner 2 make the same calls, each on the heap that isn't its own. The fourth
/// call reads another number on the other heap.
const EXCHANGED: &[Asked] = &[
    (true, 2, false, ALLOC_OWN, ONE_FIELD),
    (true, 2, false, STORE_TWO, DONE),
    (true, 2, false, SHARE, ONE_FIELD),
    (true, 2, false, LOAD_OWN, TWO),
    (true, 2, false, LOAD_SHARED, TWO),
    (false, 2, true, ALLOC_OWN, ONE_FIELD),
    (false, 2, true, STORE_TWO, DONE),
    (false, 2, true, SHARE, ONE_FIELD),
    (true, 1, true, STORE_NINE, DONE),
    (false, 2, true, LOAD_OWN, NINE),
    (false, 2, true, LOAD_SHARED, NINE),
];

/// A cycle in three calls, and the next one begins.
const CYCLE: &[Asked] = &[
    (false, 1, false, ALLOC_ONE, ONE_FIELD),
    (false, 1, false, ALLOC_NONE, NO_FIELDS),
    (false, 1, false, SAME, NOT_SAME),
];

/// A cycle begins and ends, since no root refers to anything.
const BEGAN_AND_FLIPPED: Did = Did {
    flipped: true,
    ..BEGAN
};

/// A call that a limit refuses, which is no part of a share and brings no increment, and one that
/// is, and does.
const LIMITED: &[Asked] = &[
    (
        false,
        1,
        false,
        Command::Alloc { dst: A, fields: 63 },
        Err(CallError::Heap(Refusal::SpaceFull { need: 65, free: 64 })),
    ),
    (false, 1, false, DROP, DONE),
];

/// Calls on another heap fill a share, which takes no call of its own heap then.
const FILLED: &[Asked] = &[
    (false, 1, true, DROP, DONE),
    (false, 1, true, DROP, DONE),
    (false, 1, false, DROP, Err(CallError::TraceFull)),
];

/// An owner calls that the heap hasn't.
const STRANGE: &[Asked] = &[(true, 3, false, DROP, Err(CallError::Heap(Refusal::NoRoot)))];

/// Nobody calls, and the heap is closed with its own mutators.
const QUIET: Case = Case {
    config: SMALL,
    other: SMALL,
    shared: EAGER,
    calls: &[],
    increments: &[],
    leaves: false,
    joins: false,
    told: (None, NOTHING, ((0, 1, false, 0), (0, 0, 0, 0), Some(0)), 0),
};

const MISSING: Option<CloseError> = Some(CloseError::SharesMissing);

const CASES: &[Case] = &[
    QUIET,
    // What the lock held is handed back.
    Case {
        calls: CYCLE,
        told: (None, BEGAN, ((5, 2, true, 1), (0, 0, 2, 0), Some(3)), 0),
        ..QUIET
    },
    // Increments come under the lock.
    Case {
        shared: SharedConfig { idle: 4, ..EAGER },
        calls: &[(false, 1, false, ALLOC_ONE, ONE_FIELD)],
        increments: &[NOTHING, FLIPPED],
        told: (None, FLIPPED, ((3, 2, false, 1), (0, 6, 1, 0), Some(1)), 0),
        ..QUIET
    },
    // With all words free, each increment begins a cycle: that of the call that isn't refused, and
    // one without a call.
    Case {
        shared: SharedConfig { mark: 65, ..EAGER },
        calls: LIMITED,
        increments: &[BEGAN_AND_FLIPPED],
        told: (
            None,
            BEGAN_AND_FLIPPED,
            ((0, 3, false, 2), (0, 0, 0, 0), Some(1)),
            0,
        ),
        ..QUIET
    },
    // With as many words free as the mark, none does.
    Case {
        increments: &[NOTHING, NOTHING],
        ..QUIET
    },
    Case {
        shared: SharedConfig {
            history: 2,
            ..EAGER
        },
        calls: FILLED,
        told: (
            Some(CloseError::HistoryDiffers { owner: 1, at: 1 }),
            NOTHING,
            ((0, 1, false, 0), (0, 0, 0, 0), Some(0)),
            2,
        ),
        ..QUIET
    },
    // An owner stands twice.
    Case {
        joins: true,
        told: (
            MISSING,
            NOTHING,
            ((0, 1, false, 0), (0, 0, 0, 0), Some(0)),
            3,
        ),
        ..QUIET
    },
    // An owner of another heap is none of this one.
    Case {
        other: Config { owners: 3, ..SMALL },
        leaves: true,
        joins: true,
        told: (
            MISSING,
            NOTHING,
            ((0, 1, false, 0), (0, 0, 0, 0), Some(0)),
            2,
        ),
        ..QUIET
    },
    // A mutator of another heap, whose share is empty, stands for the one that called.
    Case {
        calls: &[(false, 1, false, DROP, DONE)],
        leaves: true,
        joins: true,
        told: (
            Some(CloseError::HistoryDiffers { owner: 1, at: 1 }),
            NOTHING,
            ((0, 1, false, 0), (0, 0, 0, 0), Some(1)),
            2,
        ),
        ..QUIET
    },
    Case {
        config: LARGE,
        other: Config { owners: 4, ..LARGE },
        shared: HALF,
        calls: STRANGE,
        told: (
            Some(CloseError::HistoryDiffers { owner: 3, at: 1 }),
            NOTHING,
            ((0, 1, false, 0), (0, 0, 0, 0), Some(1)),
            3,
        ),
        ..QUIET
    },
    Case {
        config: LARGE,
        other: LARGE,
        shared: HALF,
        calls: EXCHANGED,
        told: (
            Some(CloseError::HistoryDiffers { owner: 2, at: 4 }),
            NOTHING,
            ((3, 1, false, 0), (0, 0, 0, 0), Some(5)),
            3,
        ),
        ..QUIET
    },
];

/// Makes a call by the mutator of this place, if there is one.
fn call_by<R: Wait>(
    rt: &R,
    mutators: &mut Vec<Mutator>,
    place: usize,
    heap: &SharedHeap,
    command: Command,
) -> Option<Answer> {
    Some(mutators.get_mut(place)?.call(rt, heap, command))
}

/// The other heap where that is asked, and else the one.
pub fn heap_of<'h>(elsewhere: bool, one: &'h SharedHeap, other: &'h SharedHeap) -> &'h SharedHeap {
    if elsewhere { other } else { one }
}

/// Makes a call on a heap, by one of the other heap's mutators where that is asked.
fn call_on<R: Wait>(
    rt: &R,
    &(theirs, place, _, command, _): &Asked,
    heap: &SharedHeap,
    mutators: &mut Vec<Mutator>,
    others: &mut Vec<Mutator>,
) -> Option<Answer> {
    if theirs {
        call_by(rt, others, place, heap, command)
    } else {
        call_by(rt, mutators, place, heap, command)
    }
}

/// Makes the calls of a case on a heap and on the other one, by the mutators of either.
fn call_each<R: Wait + Abort>(
    rt: &R,
    calls: &[Asked],
    heaps: (&SharedHeap, &SharedHeap),
    mutators: &mut Vec<Mutator>,
    others: &mut Vec<Mutator>,
) {
    for (row, asked) in calls.iter().enumerate() {
        let heap = heap_of(asked.2, heaps.0, heaps.1);
        let told = call_on(rt, asked, heap, mutators, others);
        expect_equal(&Row { rt, row }, told, Some(asked.4));
    }
}

/// Increments a heap in turn.
fn increment_each<R: Wait + Abort>(rt: &R, shared: &SharedHeap, increments: &[Did]) {
    for (row, &did) in increments.iter().enumerate() {
        expect_equal(&Row { rt, row }, shared.increment(rt), did);
    }
}

/// Leaves the last mutator out, and puts the other heap's last one in, as a case asks for it.
fn exchange_last(case: &Case, mutators: &mut Vec<Mutator>, others: &mut Vec<Mutator>) {
    if case.leaves {
        let _ = mutators.pop();
    }
    if case.joins
        && let Some(stranger) = others.pop()
    {
        let _ = mutators.push(stranger);
    }
}

/// Plays a case on new heaps.
fn play<R: AllocGlobal + Wait + Abort>(rt: &R, case: &Case) -> Told {
    let (shared, mut mutators) = shared_of(rt, case.config, case.shared);
    let (other, mut others) = shared_of(rt, case.other, case.shared);
    call_each(
        rt,
        case.calls,
        (&shared, &other),
        &mut mutators,
        &mut others,
    );
    increment_each(rt, &shared, case.increments);
    exchange_last(case, &mut mutators, &mut others);
    closed(rt, shared, mutators)
}

#[test]
fn heaps_are_closed(rt: HostRuntime) {
    let mut played: u32 = 0;
    for (row, case) in CASES.iter().enumerate() {
        let rt = Row { rt: &rt, row };
        expect_equal(&rt, play(&rt, case), case.told);
        played = played.saturating_add(1);
    }
    expect_equal(&rt, played, 11);
}
