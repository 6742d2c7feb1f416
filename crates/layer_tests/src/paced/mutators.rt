//! Programs in exactly the space that the rule of pacing gives them.

use crate::expectations::{Row, expect_equal};
use rh_layout::{Command, Operand, RootId};
use rh_model::{CommandError, Plain};
use rh_pace::{Pace, PaceError, PacedHeap};
use std::alloc::Allocator;
use std::process::Abort;

/// What a program does again and again, with at most so many live words where a cycle begins, and
/// no object above so many words.
#[derive(Clone, Copy)]
struct Program<'a> {
    live: u32,
    biggest: u32,
    /// Once, at first.
    first: &'a [Command],
    /// So many times after that.
    grows: (u32, &'a [Command]),
    /// Where no cycle is on.
    outside: &'a [Command],
    /// Where one is.
    inside: &'a [Command],
}

const A: RootId = RootId { owner: 1, slot: 0 };

const B: RootId = RootId { owner: 1, slot: 1 };

const C: RootId = RootId { owner: 1, slot: 2 };

/// The first cell of a queue, which A names, is the last one too, which B names.
const FIRST_CELL: &[Command] = &[
    Command::Alloc { dst: A, fields: 2 },
    Command::Copy { dst: B, src: A },
];

const NEW_CELL: Command = Command::Alloc { dst: C, fields: 2 };

const NUMBER: Command = Command::Store {
    obj: C,
    field: 0,
    operand: Operand::Int(7),
};

const BEHIND: Command = Command::Store {
    obj: B,
    field: 1,
    operand: Operand::Root(C),
};

const IS_LAST: Command = Command::Copy { dst: B, src: C };

const DROP_NEW: Command = Command::Drop { root: C };

const LEAVE: Command = Command::Load {
    dst: A,
    src: A,
    field: 1,
};

/// A cell joins a queue.
const JOIN: &[Command] = &[NEW_CELL, BEHIND, IS_LAST, DROP_NEW];

/// One joins, and the first one leaves.
const QUEUE: &[Command] = &[NEW_CELL, BEHIND, IS_LAST, DROP_NEW, LEAVE];

/// The same of cells that hold a number.
const NUMBERED_QUEUE: &[Command] = &[NEW_CELL, NUMBER, BEHIND, IS_LAST, LEAVE, DROP_NEW];

const DROP_LIST: Command = Command::Drop { root: A };

const PUSH_NEW: Command = Command::Alloc { dst: B, fields: 2 };

const PUSH_BEFORE: Command = Command::Store {
    obj: B,
    field: 1,
    operand: Operand::Root(A),
};

const IS_FIRST: Command = Command::Copy { dst: A, src: B };

/// A list grows to four cells, and the one before is dropped.
const LIST: &[Command] = &[
    DROP_LIST,
    PUSH_NEW,
    PUSH_BEFORE,
    IS_FIRST,
    PUSH_NEW,
    PUSH_BEFORE,
    IS_FIRST,
    PUSH_NEW,
    PUSH_BEFORE,
    IS_FIRST,
    PUSH_NEW,
    PUSH_BEFORE,
    IS_FIRST,
];

/// Objects of 62 words, and the last field of every other one refers to the one before it.
const BIG_OBJECTS: &[Command] = &[
    Command::Alloc { dst: A, fields: 60 },
    Command::Store {
        obj: A,
        field: 59,
        operand: Operand::Root(B),
    },
    Command::Alloc { dst: B, fields: 60 },
    Command::Store {
        obj: B,
        field: 0,
        operand: Operand::Int(3),
    },
];

/// A table of eight fields, and another object.
const TABLE: &[Command] = &[
    Command::Alloc { dst: A, fields: 8 },
    Command::Alloc { dst: B, fields: 1 },
];

const OTHER: &[Command] = &[Command::Alloc { dst: B, fields: 1 }];

const STORES: &[Command] = &[
    Command::Store {
        obj: A,
        field: 3,
        operand: Operand::Root(B),
    },
    Command::Store {
        obj: A,
        field: 0,
        operand: Operand::Int(5),
    },
];

/// Each allocation is followed by a store.
const IN_TURN: &[Command] = &[
    Command::Alloc { dst: A, fields: 1 },
    Command::Store {
        obj: A,
        field: 0,
        operand: Operand::Root(B),
    },
    Command::Alloc { dst: B, fields: 1 },
    Command::Store {
        obj: B,
        field: 0,
        operand: Operand::Int(1),
    },
];

const NONE: (u32, &[Command]) = (0, &[]);

const PROGRAMS: &[Program] = &[
    // A queue of four cells.
    Program {
        live: 20,
        biggest: 4,
        first: FIRST_CELL,
        grows: (3, JOIN),
        outside: NUMBERED_QUEUE,
        inside: NUMBERED_QUEUE,
    },
    // One of 249 cells: at ratio 8, of 2,218 words 1,000 live, 45 in 100.
    Program {
        live: 1_000,
        biggest: 4,
        first: FIRST_CELL,
        grows: (248, JOIN),
        outside: QUEUE,
        inside: QUEUE,
    },
    Program {
        live: 16,
        biggest: 4,
        first: &[],
        grows: NONE,
        outside: LIST,
        inside: LIST,
    },
    // Three live.
    Program {
        live: 186,
        biggest: 62,
        first: &[],
        grows: NONE,
        outside: BIG_OBJECTS,
        inside: BIG_OBJECTS,
    },
    // While a cycle is on nothing but stores comes.
    Program {
        live: 16,
        biggest: 10,
        first: TABLE,
        grows: NONE,
        outside: OTHER,
        inside: STORES,
    },
    Program {
        live: 9,
        biggest: 3,
        first: &[],
        grows: NONE,
        outside: IN_TURN,
        inside: IN_TURN,
    },
];

/// Plays commands of owner 1, none of which is refused: each answer is the plain heap's.
fn play<M: Allocator + Copy>(
    rt: &impl Abort,
    paced: &mut PacedHeap<M>,
    plain: &mut Plain<M>,
    commands: &[Command],
) {
    for (row, command) in commands.iter().enumerate() {
        let rt = &Row { rt, row };
        let answer = paced.command(1, command);
        assert!(rt; answer.is_ok(), "{answer:?}");
        let due = plain.command(1, command);
        expect_equal(rt, answer.map_err(CommandError::Refused), due);
    }
}

/// The least words at which a pace keeps up with the program.
fn least_words(program: &Program, ratio: u32) -> u32 {
    match Pace::of(0, program.live, program.biggest, ratio) {
        Err(PaceError::TooSmall { need }) => u32::try_from(need).unwrap_or(0),
        _ => 0,
    }
}

/// Plays what a program does at first.
fn play_first<M: Allocator + Copy>(
    rt: &impl Abort,
    paced: &mut PacedHeap<M>,
    plain: &mut Plain<M>,
    program: &Program,
) {
    play(rt, paced, plain, program.first);
    for _ in 0..program.grows.0 {
        play(rt, paced, plain, program.grows.1);
    }
}

/// Plays what a program does again and again, until fifty cycles and more have ended.
fn play_on<M: Allocator + Copy>(
    rt: &impl Abort,
    paced: &mut PacedHeap<M>,
    plain: &mut Plain<M>,
    program: &Program,
) {
    for _ in 0..100_000u32 {
        if paced.stat().flips > 50 {
            return;
        }
        let commands = if paced.heap().is_in_cycle() {
            program.inside
        } else {
            program.outside
        };
        play(rt, paced, plain, commands);
    }
    assert!(rt; false, "fewer than fifty cycles");
}

/// Runs a program on a paced heap, over fifty cycles and more, and beside it on a plain one.
fn run_beside<R: AllocGlobal + Abort>(rt: &R, paced: &mut PacedHeap, program: &Program) {
    let mut plain = Plain::new(rt.alloc(), 2, 4).ok().expect(rt, "a plain heap");
    play_first(rt, paced, &mut plain, program);
    play_on(rt, paced, &mut plain, program);
}

/// Runs a program at a ratio and exactly the words that the rule asks for.
fn run<R: AllocGlobal + Abort>(rt: &R, program: &Program, ratio: u32) {
    let words = least_words(program, ratio);
    let pace = Pace::of(words, program.live, program.biggest, ratio).expect(rt, "a pace");
    let made = PacedHeap::new(rt.alloc(), pace.config(words, ratio, 2, 4), pace);
    run_beside(rt, &mut made.ok().expect(rt, "a heap"), program);
}

#[test]
fn programs_in_the_least_space(rt: HostRuntime) {
    let mut runs: u32 = 0;
    for (row, program) in PROGRAMS.iter().enumerate() {
        let rt = Row { rt: &rt, row };
        for (row, &ratio) in [4, 8, 32].iter().enumerate() {
            run(&Row { rt: &rt, row }, program, ratio);
            runs = runs.saturating_add(1);
        }
    }
    expect_equal(&rt, runs, 18);
}
