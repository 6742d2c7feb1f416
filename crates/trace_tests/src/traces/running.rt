//! Runs of traces.

use crate::expectations::{Row, ample, expect_bytes, expect_equal, expect_prefix, expect_refusals};
use crate::parts::{Part, text_of};
use crate::texts::{
    DUMPS, DUMPS_ANSWERS, FOUR_CYCLES, FOUR_CYCLES_ANSWERS, LARGE_TRAYS, LARGE_TRAYS_ANSWERS,
    LONG_ANSWER, LONG_HEADER, LONG_LINE, RAW_OBJECT, RAW_OBJECT_ANSWERS, RESIZED, RESIZED_ANSWERS,
    TOO_MANY, TOO_MANY_ANSWERS, TWO_EPOCHS, TWO_EPOCHS_ANSWERS, WATCHED, WATCHED_ANSWERS,
};
use refusing::refused_in_turn;
use rh_trace::{RunFault, Summary, run_trace};
use samples::devices::{SlowReader, SlowWriter};
use samples::texts::{
    JOINED, JOINED_ANSWERS, WHOLE_CYCLE, WHOLE_CYCLE_ANSWERS, WITHOUT_FIELDS,
    WITHOUT_FIELDS_ANSWERS, without_last_line,
};
use std::alloc::Allocator;
use std::cell::Cell;
use std::process::Abort;

/// Ends the test unless answers end with the line of this summary.
fn expect_total(rt: &(impl AllocGlobal + Abort), summary: Summary, answers: &[u8]) {
    let Summary {
        commands,
        refused,
        flips,
        root_words,
    } = summary;
    let total = format!(in rt.alloc();
        "\ntotal commands {commands} refused {refused} flips {flips} rootwords {root_words}\n"
    );
    assert!(rt; answers.ends_with(ample(rt, total).as_bytes()));
}

/// Runs a trace, which is read a byte a time and whose answers are taken so many bytes a time, and
/// expects these answers, and the summary that their last line tells. Answers in how many writes
/// they came.
fn expect_run(
    rt: &(impl AllocGlobal + Abort),
    (input, answers): (&[u8], &[u8]),
    most: usize,
) -> u32 {
    let mut reader = SlowReader::new(input, 0);
    let mut writer = SlowWriter::new(rt, most, 0);
    let outcome = run_trace(rt.alloc(), &mut reader, &mut writer);
    expect_bytes(rt, &writer.text, answers);
    expect_total(rt, outcome.expect(rt, "a run"), answers);
    writer.writes
}

/// Runs a trace of these parts, and expects answers of those. Answers in how many writes they came,
/// of so many bytes at most.
fn expect_long_run(
    rt: &(impl AllocGlobal + Abort),
    input: &[Part],
    answers: &[Part],
    most: usize,
) -> u32 {
    let input = text_of(rt, input);
    let answers = text_of(rt, answers);
    expect_run(rt, (&input, &answers), most)
}

/// Traces, each with its answers, and how many lines these are.
const RUNS: &[(&[u8], &[u8], u32)] = &[
    (WITHOUT_FIELDS, WITHOUT_FIELDS_ANSWERS, 3),
    (WHOLE_CYCLE, WHOLE_CYCLE_ANSWERS, 11),
    (JOINED, JOINED_ANSWERS, 22),
    (TWO_EPOCHS, TWO_EPOCHS_ANSWERS, 23),
    (FOUR_CYCLES, FOUR_CYCLES_ANSWERS, 85),
    (TOO_MANY, TOO_MANY_ANSWERS, 9),
    (WATCHED, WATCHED_ANSWERS, 14),
];

#[test]
fn answers_each_in_one_write(rt: HostRuntime) {
    for (row, &(input, answers, lines)) in RUNS.iter().enumerate() {
        let rt = Row { rt: &rt, row };
        let run = (input, answers);
        expect_equal(&rt, expect_run(&rt, run, 1000), lines);
        expect_run(&rt, run, 1);
    }
    // A dump may come in any number of writes.
    let dumps = [(DUMPS, DUMPS_ANSWERS), (RAW_OBJECT, RAW_OBJECT_ANSWERS)];
    for (row, &run) in dumps.iter().enumerate() {
        let rt = Row { rt: &rt, row };
        expect_run(&rt, run, 1000);
        expect_run(&rt, run, 1);
    }
}

/// A hundred cycles of a heap without objects, and their answers.
const CYCLES: &[Part] = &[
    Part::Once(b"heap 16 8 4 2 2\n"),
    Part::Times(100, b"begin\nflip\n"),
];

const CYCLES_ANSWERS: &[Part] = &[
    Part::Numbered(100, "cycle ", "\nflipped roots 0 live 0\n"),
    Part::Once(b"total commands 0 refused 0 flips 100 rootwords 0\n"),
];

#[test]
fn a_hundred_cycles(rt: HostRuntime) {
    let writes = expect_long_run(&rt, CYCLES, CYCLES_ANSWERS, 1000);
    expect_equal(&rt, writes, 201);
}

/// As many tickets as there may be for one object, one more, and a cycle in which it goes; and the
/// answers.
const TICKETS: &[Part] = &[
    Part::Once(b"heap 16 8 4 2 2\n1 alloc 1.0 0\ntickets 65536\n"),
    Part::Times(65_536, b"1 watch 1.0\n"),
    Part::Once(b"1 watch 1.0\n1 drop 1.0\nbegin\nflip\ngone\ngone\n"),
];

const TICKETS_ANSWERS: &[Part] = &[
    Part::Once(b"object 0\ntickets 65536\nticket 0\n"),
    Part::Numbered(65_535, "ticket ", "\n"),
    Part::Once(b"refused Full\ndone\ncycle 1\nflipped roots 0 live 0\ngone 0"),
    Part::Numbered(65_535, " ", ""),
    Part::Once(b"\ngone none\ntotal commands 2 refused 0 flips 1 rootwords 0\n"),
];

#[test]
fn many_tickets_are_told_in_one_write(rt: HostRuntime) {
    let writes = expect_long_run(&rt, TICKETS, TICKETS_ANSWERS, 1_000_000);
    expect_equal(&rt, writes, 65_545);
}

/// An object is placed, with credit for one item. The trace has 64 trays then, t1 to t64, and goes
/// on about more of them.
const MANY_TRAYS: &[Part] = &[
    Part::Once(b"heap 64 1 8 2 2\n1 alloc 1.0 1\nbegin\n1 alloc 1.1 7\n1 drop 1.1\nshade 1.0\n"),
    Part::Numbered(64, "deal copies 0 t", "\n"),
    Part::Once(
        b"deal copies 0 t65\ndeal entries 1 t65\ndeal entries 1 t64\njoin t65 t1\njoin t65 t66\n\
            join t1 t64\ndeal copies 1 t64\ngive t65\ntrays\n",
    ),
];

const MANY_TRAYS_ANSWERS: &[Part] = &[
    Part::Once(b"object 1\ncycle 1\nobject 7\ndone\nplaced\n"),
    Part::Times(64, b"dealt 0 passed 0\n"),
    Part::Once(
        b"refused TooManyTrays\nrefused TooManyTrays\nrefused NothingToDeal\n\
            refused TooManyTrays\nrefused NoTray\njoined 0\ndealt 1 passed 0\nrefused NoTray\n",
    ),
    Part::Numbered(63, "tray t", " epoch 1 entries 0\n"),
    Part::Once(b"tray t64 epoch 1 entries 1\ntotal commands 3 refused 0 flips 0 rootwords 0\n"),
];

#[test]
fn a_trace_has_64_trays(rt: HostRuntime) {
    expect_long_run(&rt, MANY_TRAYS, MANY_TRAYS_ANSWERS, 1000);
}

/// How many writes a run made before memory was refused, if it was: then what is written is a
/// prefix of the answers before their total line.
fn writes_of(
    rt: &impl Abort,
    outcome: Result<Summary, RunFault>,
    writer: &SlowWriter,
    answers: &[u8],
) -> Option<u32> {
    if outcome.is_ok() {
        expect_bytes(rt, &writer.text, answers);
        return None;
    }
    expect_equal(rt, outcome, Err(RunFault::OutOfMemory));
    expect_prefix(rt, without_last_line(answers), &writer.text);
    Some(writer.writes)
}

/// Runs a trace. Answers how many writes were made before memory was refused, if it was.
fn writes_before_refusal<A: Allocator + Copy>(
    rt: &(impl AllocGlobal + Abort),
    memory: A,
    input: &[u8],
    answers: &[u8],
) -> Option<u32> {
    let mut reader = SlowReader::new(input, 0);
    let mut writer = SlowWriter::new(rt, 1000, 0);
    let outcome = run_trace(memory, &mut reader, &mut writer);
    writes_of(rt, outcome, &writer, answers)
}

/// Notes before how many writes memory was refused, if it was. Answers whether it was.
fn note_writes(seen: &Cell<u32>, writes: Option<u32>) -> bool {
    let Some(writes) = writes else {
        return false;
    };
    seen.set(seen.get() | 1_u32.wrapping_shl(writes));
    true
}

/// Runs a trace, each of its allocations refused in turn, and expects so many refusals or more.
/// Answers a bit for each number of writes that were made before one of them: the lowest bit for
/// none, the next for one, and so on.
fn writes_before_refusals(
    rt: &(impl AllocGlobal + Abort),
    (input, answers): (&[u8], &[u8]),
    least: u64,
) -> u32 {
    let seen = Cell::new(0_u32);
    let refused = refused_in_turn(rt.alloc(), |memory| {
        note_writes(&seen, writes_before_refusal(rt, memory, input, answers))
    });
    expect_refusals(rt, refused, least);
    seen.get()
}

/// Forty-eight commands, and their answers.
const COMMANDS: &[Part] = &[Part::Once(LONG_HEADER), Part::Times(48, LONG_LINE)];

const COMMANDS_ANSWERS: &[Part] = &[
    Part::Times(48, LONG_ANSWER),
    Part::Once(b"total commands 48 refused 0 flips 0 rootwords 0\n"),
];

#[test]
fn refused_memory(rt: HostRuntime) {
    // Commands want no memory.
    let text = text_of(&rt, COMMANDS);
    let answers = text_of(&rt, COMMANDS_ANSWERS);
    let seen = writes_before_refusals(&rt, (&text, &answers), 12);
    expect_equal(&rt, seen, 0b1);
    // A dump wants some: one comes after the first answer, and one after sixteen.
    let seen = writes_before_refusals(&rt, (DUMPS, DUMPS_ANSWERS), 8);
    expect_equal(&rt, seen & 0b11, 0b11);
    let seen = writes_before_refusals(&rt, (RAW_OBJECT, RAW_OBJECT_ANSWERS), 8);
    expect_equal(&rt, (seen >> 16) & 1, 1);
}

/// Traces that use trays, one whose spaces get other sizes, and one that watches objects, with their
/// answers, how many refusals there are at least, and the numbers of writes before them: none, or
/// those before a join, before a deal for which the tray has no room, before a space that was never
/// so large, before room for tickets, or before a line that tells them.
const TRAYS: &[(&[u8], &[u8], u64, u32)] = &[
    (JOINED, JOINED_ANSWERS, 20, 0b1_1110_1010_0001),
    (TWO_EPOCHS, TWO_EPOCHS_ANSWERS, 18, 0b1111_0000_0010_0001),
    (
        LARGE_TRAYS,
        LARGE_TRAYS_ANSWERS,
        25,
        0b11_1100_1011_1101_1100_0001,
    ),
    (RESIZED, RESIZED_ANSWERS, 8, 0b1001),
    (WATCHED, WATCHED_ANSWERS, 8, 0b1_1000_0011),
];

#[test]
fn refused_memory_of_trays(rt: HostRuntime) {
    for (row, &(input, answers, least, writes)) in TRAYS.iter().enumerate() {
        let rt = Row { rt: &rt, row };
        let seen = writes_before_refusals(&rt, (input, answers), least);
        expect_equal(&rt, seen, writes);
    }
}
