//! Reading and printing traces.

use crate::expectations::{Row, expect_bytes, expect_equal, expect_prefix};
use crate::texts::{DUMPS, FOUR_CYCLES, LARGE_TRAYS, RAW_OBJECT, TOO_MANY, TWO_EPOCHS, WATCHED};
use rh_trace::{Line, Request, Trace, Write, parse, print};
use samples::devices::SlowWriter;
use samples::texts::{JOINED, WHOLE_CYCLE, WITHOUT_FIELDS};
use std::process::Abort;

/// A first line, and one line of each keyword.
const KEYWORDS: &[u8] =
    b"heap 16 8 4 2 2\n1 alloc 1.0 2\n1 raw 1.1 3\n1 load 1.1 1.0 0\n1 store 1.0 0 5\n1 copy 1.1 0.0\n\
        1 same 1.0 1.1\n1 drop 1.0\nbegin\nshade 1.0\ndeal copies 4294967295 t\n\
        deal entries 0 a_2z9\ngive abcdefghijklmnop\njoin t a_2z9\nflip\nrecall\nabandon\n\
        idle 4294967295\nresize 4294967295\ntickets 4294967295\n1 watch 1.0\n\
        unwatch 4294967295\ngone\ntrays\nstat\ndump\n";

/// Stores of each kind of operand, and lines of the greatest numbers.
const OPERANDS: &[u8] =
    b"heap 4294967295 0 1 2 3\n1 store 1.0 1 nil\n1 store 1.0 1 0\n1 store 1.0 1 -1\n\
        1 store 1.0 1 9223372036854775807\n1 store 1.0 1 -9223372036854775808\n\
        1 store 1.0 1 15.255\n\
        4294967295 store 4294967295.4294967295 4294967295 4294967295.4294967295\n\
        4294967295 store 4294967295.4294967295 4294967295 -9223372036854775808\n\
        4294967295 load 4294967295.0 0.4294967295 4294967295\n0 drop 15.255\n";

/// A trace with a line that asks for more fields than an object may have.
const BOUNDARY: &[u8] =
    b"heap 16 8 4 2 2\n1 alloc 1.0 2\n1 alloc 1.1 1\n1 alloc 0.0 4096\n1 alloc 0.0 8\n\
        1 alloc 0.0 7\n1 alloc 0.1 0\n";

/// What shows the first line of a text, and so many lines after it, a variant for each keyword and
/// each kind of operand: how each begins. The second text's last lines are only printed.
const SHOWN: &[(&[u8], &str, &[&str])] = &[
    (
        KEYWORDS,
        "Header { words: 16, ratio: 8, log: 4, owners: 2, slots: 2 }",
        &[
            "Alloc { owner: 1, dst: RootId { owner: 1, slot: 0 }, fields: 2 }",
            "Raw { owner: 1, dst: RootId { owner: 1, slot: 1 }, fields: 3 }",
            "Load { owner: 1, dst: RootId { owner: 1, slot: 1 }, src: RootId { owner: 1, slot: 0 }, field: 0 }",
            "Store { owner: 1, obj: RootId { owner: 1, slot: 0 }, field: 0, operand: Int(5) }",
            "Copy { owner: 1, dst: RootId { owner: 1, slot: 1 }, src: RootId { owner: 0, slot: 0 } }",
            "Same { owner: 1, a: RootId { owner: 1, slot: 0 }, b: RootId { owner: 1, slot: 1 } }",
            "Drop { owner: 1, root: RootId { owner: 1, slot: 0 } }",
            "Begin",
            "Shade { root: RootId { owner: 1, slot: 0 } }",
            "Deal { kind: Copies, most: 4294967295, tray: TrayName { bytes: [116, 0,",
            "Deal { kind: Entries, most: 0, tray: TrayName { bytes: [97, 95, 50, 122, 57, 0,",
            "Give { tray: TrayName { bytes: [97, 98, 99, 100, 101, 102, 103, 104, 105, 106, 107, 108, 109, 110, 111, 112], len: 16 } }",
            "Join { into: TrayName { bytes: [116, 0,",
            "Flip",
            "Recall",
            "Abandon",
            "Idle { words: 4294967295 }",
            "Resize { words: 4294967295 }",
            "Tickets { tickets: 4294967295 }",
            "Watch { owner: 1, root: RootId { owner: 1, slot: 0 } }",
            "Unwatch { ticket: 4294967295 }",
            "Gone",
            "Trays",
            "Stat",
            "Dump",
        ],
    ),
    (
        OPERANDS,
        "Header { words: 4294967295, ratio: 0, log: 1, owners: 2, slots: 3 }",
        &[
            "Store { owner: 1, obj: RootId { owner: 1, slot: 0 }, field: 1, operand: Nil }",
            "Store { owner: 1, obj: RootId { owner: 1, slot: 0 }, field: 1, operand: Int(0) }",
            "Store { owner: 1, obj: RootId { owner: 1, slot: 0 }, field: 1, operand: Int(-1) }",
            "Store { owner: 1, obj: RootId { owner: 1, slot: 0 }, field: 1, operand: Int(9223372036854775807) }",
            "Store { owner: 1, obj: RootId { owner: 1, slot: 0 }, field: 1, operand: Int(-9223372036854775808) }",
            "Store { owner: 1, obj: RootId { owner: 1, slot: 0 }, field: 1, operand: Root(RootId { owner: 15, slot: 255 }) }",
        ],
    ),
];

/// Expects the line `i` of a trace to be shown so.
fn expect_line(rt: &(impl AllocGlobal + Abort), trace: &Trace, i: usize, text: &str) {
    assert!(rt; i < trace.len());
    let line = trace.line(i);
    let shown = format!(in rt.alloc(); "{line:?}").expect(rt, "memory is ample");
    expect_prefix(rt, shown.as_bytes(), text.as_bytes());
}

/// Expects the first line of a trace to be shown so.
fn expect_header(rt: &(impl AllocGlobal + Abort), trace: &Trace, text: &str) {
    let header = trace.header();
    let shown = format!(in rt.alloc(); "{header:?}").expect(rt, "memory is ample");
    expect_equal(rt, shown.as_str(), text);
}

/// Expects lines of a trace to be shown so, from the first on. Answers how many.
fn expect_lines(rt: &(impl AllocGlobal + Abort), trace: &Trace, texts: &[&str]) -> u32 {
    let mut lines: u32 = 0;
    for (i, text) in texts.iter().enumerate() {
        expect_line(rt, trace, i, text);
        lines = lines.saturating_add(1);
    }
    lines
}

/// Expects a trace to be shown so. Answers how many lines come after its first.
fn expect_shown(
    rt: &(impl AllocGlobal + Abort),
    &(text, first, others): &(&[u8], &str, &[&str]),
) -> u32 {
    let trace = parse(rt.alloc(), text).expect(rt, "a trace");
    expect_header(rt, &trace, first);
    expect_lines(rt, &trace, others)
}

#[test]
fn reads_each_keyword(rt: HostRuntime) {
    let mut lines: u32 = 0;
    for (row, shown) in SHOWN.iter().enumerate() {
        let rt = Row { rt: &rt, row };
        lines = lines.saturating_add(expect_shown(&rt, shown));
    }
    expect_equal(&rt, lines, 31);
    assert!(rt; size_of::<Line>() <= 40 && size_of::<Request>() <= 40);
}

/// Traces that are parsed and printed.
const PRINTED: &[&[u8]] = &[
    KEYWORDS,
    OPERANDS,
    BOUNDARY,
    WITHOUT_FIELDS,
    DUMPS,
    RAW_OBJECT,
    WHOLE_CYCLE,
    JOINED,
    TOO_MANY,
    LARGE_TRAYS,
    TWO_EPOCHS,
    FOUR_CYCLES,
    WATCHED,
];

/// Expects this text where a trace is printed.
fn expect_printed(rt: &(impl AllocGlobal + Abort), trace: &Trace, text: &[u8]) {
    let mut printed = Vec::new(rt.alloc());
    expect_equal(rt, print(trace, &mut printed), Ok(()));
    expect_bytes(rt, &printed, text);
}

/// Expects the first nine bytes of a text where the fourth write of three bytes fails.
fn expect_cut(rt: &(impl AllocGlobal + Abort), trace: &Trace, text: &[u8]) {
    let mut writer = SlowWriter::new(rt, 3, 4);
    expect_equal(rt, print(trace, &mut writer), Err(Write));
    expect_bytes(rt, &writer.text, text.split_at(9.min(text.len())).0);
}

/// Expects a trace to be printed as it was read, and to be cut where a write fails.
fn expect_printed_again(rt: &(impl AllocGlobal + Abort), text: &[u8]) {
    let trace = parse(rt.alloc(), text).expect(rt, "a trace");
    expect_printed(rt, &trace, text);
    expect_cut(rt, &trace, text);
}

#[test]
fn prints_what_was_parsed(rt: HostRuntime) {
    for (row, &text) in PRINTED.iter().enumerate() {
        expect_printed_again(&Row { rt: &rt, row }, text);
    }
}
