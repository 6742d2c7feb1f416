//! Runs of one code on each kind of heap.

use crate::codes::{count, digits, list, tak};
use rh_code::{Code, CodeFault, Index, Instruction, Number, Operation, Position, Register, When};
use rh_core::{CommandHeap, Config, Heap};
use rh_growing::{GrowingHeap, Growth, Short};
use rh_layout::Refusal;
use rh_machine::{Ending, RegisterMachine, run};
use rh_pace::{PacedHeap, Sizes};
use std::alloc::Allocator;
use std::process::Abort;
use std::rt::HostRuntime;

/// More steps than a run here needs.
const STEPS: u64 = 1_000_000;

/// About twice what lives in a run here.
const SIZES: Sizes = Sizes {
    words: 2_048,
    biggest: 7,
    ratio: 32,
    owners: 2,
    slots: 8,
};

const GROWTH: Growth = Growth {
    at_least: 256,
    at_most: 4_096,
    factor: 200,
    biggest: 7,
    ratio: 32,
    owners: 2,
    slots: 8,
};

/// A heap that never collects by itself.
const CONFIG: Config = Config {
    words: 80_000,
    ratio: 1,
    owners: 2,
    slots: 8,
    log_limit: 1,
    last_number: 1_000_000_000,
    last_epoch: 1,
};

/// What a run came to.
#[derive(Clone, Copy, Debug, PartialEq, Eq)]
struct Came {
    ending: Ending,
    /// The line at which it ended: that of its first instruction is 1.
    line: u32,
    /// What it put out first.
    output: Option<i64>,
    /// The steps that were left.
    steps: u64,
}

/// Code of these instructions, one in a line.
fn code_of<A: Allocator + Copy>(alloc: A, table: &[Instruction]) -> Option<Code<A>> {
    let mut instructions = Vec::new(alloc);
    let mut positions = Vec::new(alloc);
    put_lines(&mut instructions, &mut positions, table)?;
    Code::new(instructions, positions).ok()
}

/// Puts these instructions after others, one in a line. Nothing where memory was refused.
fn put_lines<A: Allocator>(
    instructions: &mut Vec<Instruction, A>,
    positions: &mut Vec<Position, A>,
    table: &[Instruction],
) -> Option<()> {
    for (line, instruction) in (1..1_000u32).zip(table) {
        instructions.push(*instruction).ok()?;
        positions.push(Position { line, column: 1 }).ok()?;
    }
    Some(())
}

/// Runs the code on a heap.
fn run_on<H: CommandHeap, A: Allocator + Copy>(
    alloc: A,
    heap: &mut H,
    table: &[Instruction],
    steps: u64,
) -> Option<Came> {
    let code = code_of(alloc, table)?;
    let mut machine = RegisterMachine::new(alloc, code, 2, steps).ok()?;
    let ending = run(heap, &mut machine);
    let line = match machine.position() {
        Some(position) => position.line,
        None => 0,
    };
    Some(Came {
        ending,
        line,
        output: machine.output().first().copied(),
        steps: machine.steps(),
    })
}

/// A list without end is refused a cell: the third instruction asks for it.
fn is_exhausted_at_the_cell(came: Option<Came>) -> bool {
    match came {
        Some(came) => {
            came.line == 3
                && matches!(
                    came.ending,
                    Ending::Refused(Refusal::SpaceFull { need: 4, .. })
                )
        }
        None => false,
    }
}

/// Runs the code on a heap, and expects this of the run: where nothing is due, that a list without
/// end is refused a cell.
fn expect_run<R: AllocGlobal + Abort, H: CommandHeap>(
    rt: &R,
    heap: &mut H,
    table: &[Instruction],
    due: Option<Came>,
) {
    let came = run_on(rt.alloc(), heap, table, STEPS);
    let is_due = match due {
        Some(_) => came == due,
        None => is_exhausted_at_the_cell(came),
    };
    assert!(rt; is_due, "{came:?}");
}

/// The same on a paced heap. Answers how often it collected.
fn expect_on_paced<R: AllocGlobal + Abort>(
    rt: &R,
    table: &[Instruction],
    due: Option<Came>,
) -> u64 {
    let mut heap = PacedHeap::sized(rt.alloc(), SIZES).expect(rt, "memory is ample");
    expect_run(rt, &mut heap, table, due);
    heap.stat().flips
}

/// The same on a heap that grows. Answers how often it collected, and why it was short of room.
fn expect_on_growing<R: AllocGlobal + Abort>(
    rt: &R,
    table: &[Instruction],
    due: Option<Came>,
) -> (u64, Option<Short>) {
    let mut heap = GrowingHeap::of(rt.alloc(), GROWTH).expect(rt, "memory is ample");
    expect_run(rt, &mut heap, table, due);
    (heap.paced().stat().flips, heap.short())
}

/// The same on a heap that never collects.
fn expect_on_heap<R: AllocGlobal + Abort>(rt: &R, table: &[Instruction], due: Option<Came>) {
    let mut heap = Heap::new(rt.alloc(), CONFIG).expect(rt, "memory is ample");
    expect_run(rt, &mut heap, table, due);
}

#[test]
fn tak_comes_to_the_same_on_each_heap(rt: HostRuntime) {
    let came = Some(Came {
        ending: Ending::Halted,
        line: 18,
        output: Some(9),
        steps: STEPS - 69_528,
    });
    assert!(rt; expect_on_paced(&rt, tak(), came) > 10);
    assert!(rt; expect_on_growing(&rt, tak(), came).0 > 10);
    expect_on_heap(&rt, tak(), came);
}

#[test]
fn a_loop_counts_on_each_heap(rt: HostRuntime) {
    let came = Some(Came {
        ending: Ending::Halted,
        line: 14,
        output: Some(20_000),
        steps: STEPS - 160_009,
    });
    assert!(rt; expect_on_paced(&rt, count(), came) > 10);
    assert!(rt; expect_on_growing(&rt, count(), came).0 > 10);
    expect_on_heap(&rt, count(), came);
}

#[test]
fn instructions_name_their_numbers(rt: HostRuntime) {
    let came = Some(Came {
        ending: Ending::Halted,
        line: 18,
        output: Some(1_416),
        steps: STEPS - 28,
    });
    assert!(rt; expect_on_paced(&rt, digits(), came) == 0);
}

#[test]
fn an_exhausted_heap_is_told_with_its_place(rt: HostRuntime) {
    assert!(rt; expect_on_paced(&rt, list(), None) > 0);
    assert!(rt; expect_on_growing(&rt, list(), None).1 == Some(Short::AtMost));
    expect_on_heap(&rt, list(), None);
}

/// Code of a few instructions, how it ends, and at which line.
fn ends<'a>() -> &'a [(&'a [Instruction], Ending, u32)] {
    ENDS
}

const ENDS: &[(&[Instruction], Ending, u32)] = &[
    (&[Instruction::Halt], Ending::Halted, 1),
    (&[Instruction::Fail { why: 5 }], Ending::Failed(5), 1),
    (
        &[Instruction::Jump {
            when: When::Always,
            to: 0,
        }],
        Ending::StepsSpent,
        1,
    ),
    (
        &[Instruction::Compute {
            operation: Operation::Quotient,
            dst: Number::N0,
            a: Number::N1,
            b: Number::N2,
        }],
        Ending::NoNumber,
        1,
    ),
    (
        &[
            Instruction::Put { number: Number::N0 },
            Instruction::Jump {
                when: When::Unset,
                to: 0,
            },
        ],
        Ending::OutputFull,
        1,
    ),
    (&[], Ending::NoInstruction, 0),
    (
        &[
            Instruction::Number {
                dst: Number::N0,
                value: 2,
            },
            Instruction::JumpBy { number: Number::N0 },
        ],
        Ending::NoInstruction,
        2,
    ),
    (
        &[
            Instruction::Number {
                dst: Number::N0,
                value: -1,
            },
            Instruction::JumpBy { number: Number::N0 },
        ],
        Ending::NoInstruction,
        2,
    ),
];

/// Runs the code on a heap for ten steps, and expects that it ends so, at this line.
fn expect_end<R: AllocGlobal + Abort>(
    rt: &R,
    heap: &mut PacedHeap,
    table: &[Instruction],
    due: (Ending, u32),
) {
    let came = run_on(rt.alloc(), heap, table, 10).map(|came| (came.ending, came.line));
    assert!(rt; came == Some(due), "{came:?}");
}

/// The same on a new heap of these sizes.
fn expect_ends<R: AllocGlobal + Abort>(
    rt: &R,
    sizes: Sizes,
    rows: &[(&[Instruction], Ending, u32)],
) {
    let mut heap = PacedHeap::sized(rt.alloc(), sizes).expect(rt, "memory is ample");
    for &(table, ending, line) in rows {
        expect_end(rt, &mut heap, table, (ending, line));
    }
}

#[test]
fn machines_end_as_their_code_says(rt: HostRuntime) {
    expect_ends(&rt, SIZES, ends());
}

/// Makes an object that the last register but one names.
const MAKE: &[Instruction] = &[
    Instruction::Alloc {
        dst: Register::A,
        fields: Index::At(1),
    },
    Instruction::Halt,
];

#[test]
fn a_heap_without_the_registers_refuses_them(rt: HostRuntime) {
    for (owners, slots, ending, line) in [
        (1, 8, Ending::Refused(Refusal::NoRoot), 1),
        (2, 6, Ending::Refused(Refusal::NoRoot), 1),
        (2, 8, Ending::Halted, 2),
    ] {
        let sizes = Sizes {
            owners,
            slots,
            ..SIZES
        };
        expect_ends(&rt, sizes, &[(MAKE, ending, line)]);
    }
}

/// What is wrong with these instructions at so many positions.
fn fault_of<A: Allocator + Copy>(alloc: A, table: &[Instruction], lines: u32) -> Option<CodeFault> {
    let mut instructions = Vec::new(alloc);
    for instruction in table {
        instructions.push(*instruction).ok()?;
    }
    let mut positions = Vec::new(alloc);
    for line in 0..lines {
        positions.push(Position { line, column: 1 }).ok()?;
    }
    Code::new(instructions, positions).err()
}

#[test]
fn code_names_its_first_fault(rt: HostRuntime) {
    let jump = Instruction::Jump {
        when: When::Set,
        to: 2,
    };
    let fault = fault_of(rt.alloc(), &[Instruction::Halt, jump], 2);
    assert!(rt; fault == Some(CodeFault::Instruction(1)), "{fault:?}");
    let fault = fault_of(rt.alloc(), &[Instruction::Halt], 0);
    assert!(rt; fault == Some(CodeFault::Positions), "{fault:?}");
}
