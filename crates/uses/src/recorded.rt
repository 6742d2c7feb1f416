//! What was done is kept: each call is noted in a history, which a checker that knows no moving
//! heap then judges, and the graph that the roots reach is written as a dump.

use crate::problem::Problem;
use rh_dump::write_dump;
use rh_heap::{Command, Operand, PacedHeap, RootId, Sizes};
use rh_replay::{Recorder, Verdict, check};
use rh_trace::graph;
use std::alloc::Allocator;
use std::io;

/// A pair has 4 words: a header, a forward word and two fields.
const SIZES: Sizes = Sizes {
    words: 256,
    biggest: 4,
    ratio: 32,
    owners: 2,
    slots: 2,
};

const FIRST: RootId = RootId { owner: 1, slot: 0 };

const SECOND: RootId = RootId { owner: 1, slot: 1 };

/// Makes pairs, the new one always referring to the one before, each call noted, and writes the
/// dump of what the roots reach. Answers how many calls the checker found right, and how many
/// objects the dump has.
pub fn run<A: Allocator + Copy, W: io::Write>(
    alloc: A,
    writer: &mut W,
) -> Result<(u32, u64), Problem> {
    let mut heap = PacedHeap::sized(alloc, SIZES)?;
    run_in(alloc, &mut heap, writer)
}

/// Makes the pairs in this heap, each call noted in a new recorder, writes the dump and lets the
/// calls be judged.
fn run_in<A: Allocator + Copy, W: io::Write>(
    alloc: A,
    heap: &mut PacedHeap<A>,
    writer: &mut W,
) -> Result<(u32, u64), Problem> {
    let mut recorder = Recorder::new(alloc, SIZES.owners, SIZES.slots, 64)?;
    run_noted(alloc, heap, &mut recorder, writer)
}

/// Makes the pairs in this heap, each call noted in this recorder, writes the dump and lets the
/// calls be judged.
fn run_noted<A: Allocator + Copy, W: io::Write>(
    alloc: A,
    heap: &mut PacedHeap<A>,
    recorder: &mut Recorder<A>,
    writer: &mut W,
) -> Result<(u32, u64), Problem> {
    note_all(heap, recorder)?;
    let objects = dump(alloc, heap, writer)?;
    let calls = judge(alloc, recorder)?;
    Ok((calls, objects))
}

/// Makes the pairs, and notes each call.
fn note_all<A: Allocator + Copy>(
    heap: &mut PacedHeap<A>,
    recorder: &mut Recorder<A>,
) -> Result<(), Problem> {
    let pair = Command::Alloc {
        dst: SECOND,
        fields: 2,
    };
    let link = Command::Store {
        obj: SECOND,
        field: 0,
        operand: Operand::Root(FIRST),
    };
    let keep = Command::Copy {
        dst: FIRST,
        src: SECOND,
    };
    for _ in 0..4 {
        for command in [&pair, &link, &keep] {
            noted(heap, recorder, command)?;
        }
    }
    Ok(())
}

/// Writes the dump of what the roots reach. Answers how many objects it has.
fn dump<A: Allocator + Copy, W: io::Write>(
    alloc: A,
    heap: &PacedHeap<A>,
    writer: &mut W,
) -> Result<u64, Problem> {
    let graph = graph(alloc, heap.heap())?;
    write_dump(&graph, writer)?;
    Ok(graph.objects())
}

/// Lets the checker judge the calls. Answers how many it found right.
fn judge<A: Allocator + Copy>(alloc: A, recorder: &Recorder<A>) -> Result<u32, Problem> {
    match check(alloc, recorder.history())? {
        Verdict::Legal(calls) => Ok(calls),
        Verdict::Wrong { .. } => Err(Problem::Answer),
    }
}

/// Does a command of owner 1, and notes it with its answer unless a limit refused it.
fn noted<A: Allocator + Copy>(
    heap: &mut PacedHeap<A>,
    recorder: &mut Recorder<A>,
    command: &Command,
) -> Result<(), Problem> {
    let answer = heap.command(1, command);
    match answer {
        Err(refusal) if refusal.is_limit() => Ok(()),
        _ => Ok(recorder.note(1, command, answer)?),
    }
}
