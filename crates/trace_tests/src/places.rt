//! Where the fault of a line is, and what is wrong there.

use crate::expectations::{Row, expect_equal, expect_text};
use rh_explain::{Part, fault_part, no_command_part};
use std::process::Abort;

/// A faulty line: its number, its text, where its part begins and ends, and what is wrong there.
type Faulty = (u32, &'static [u8], usize, usize, &'static str);

/// A line for each fault, in the order of the format.
const FAULTY: &[Faulty] = &[
    (1_048_577, b"flip", 0, 4, "a text has at most 1048576 lines"),
    (
        2,
        b"1\talloc 1.0 2",
        1,
        2,
        "a tab: parts are set apart by one space",
    ),
    (
        2,
        b"1 drop 1.0\r",
        10,
        11,
        "the line ends with a carriage return: a line feed alone ends each line",
    ),
    (2, b"", 0, 0, "a blank line: each line has a keyword"),
    (
        2,
        b"\x80",
        0,
        1,
        "the byte 128 isn't printable ASCII: the bytes of a line are 32 to 126",
    ),
    (
        2,
        b"a\rb",
        1,
        2,
        "the byte 13 isn't printable ASCII: the bytes of a line are 32 to 126",
    ),
    (
        2,
        b" flip",
        0,
        1,
        "a space at the start: a line begins with its first part",
    ),
    (
        2,
        b"1  drop 1.0",
        2,
        3,
        "a second space: one stands between two parts",
    ),
    (
        2,
        b"flip ",
        4,
        5,
        "a space at the end: a line ends with its last part",
    ),
    (
        1,
        b"history 2 2",
        0,
        7,
        "this is a history: rheap replay reads it",
    ),
    (1, b"rheap 2", 0, 5, "this is a dump: rheap dump reads it"),
    (
        1,
        b"help 16 8 4 2 2",
        0,
        4,
        "the first line is heap WORDS RATIO LOG OWNERS SLOTS",
    ),
    (
        1,
        b"heap 16 8 4 2",
        13,
        13,
        "a number is missing: the first line is heap WORDS RATIO LOG OWNERS SLOTS",
    ),
    (
        1,
        b"heap 16 8 4 2 2 7",
        16,
        17,
        "a part too many: the first line is heap WORDS RATIO LOG OWNERS SLOTS",
    ),
    (
        1,
        b"heap 16 x 4 2 2",
        8,
        9,
        "a number is due here: digits without a leading zero, 0 to 4294967295",
    ),
    (
        2,
        b"1",
        1,
        1,
        "a command is missing after the owner, as in 1 drop 1.0",
    ),
    (
        2,
        b"1 aloc 1.0 2",
        2,
        6,
        "no such command; did you mean alloc?",
    ),
    (2, b"recal", 0, 5, "no such command; did you mean recall?"),
    (
        2,
        b"frobnicate",
        0,
        10,
        "no such command: an owner and a command, or a line of a cycle; see rheap run --help",
    ),
    (
        2,
        b"1x frobnicate 7",
        3,
        13,
        "no such command: alloc, raw, load, store, copy, same, drop and watch have an owner before them",
    ),
    (
        2,
        b"drop 1.0",
        0,
        4,
        "an owner is missing before drop, as in 1 drop ..",
    ),
    (
        2,
        b"1 begin",
        2,
        7,
        "no owner stands before begin: the line begins with it",
    ),
    (
        2,
        b"1 alloc 1.0",
        11,
        11,
        "FIELDS is missing: OWNER alloc ROOT FIELDS",
    ),
    (
        2,
        b"1 load 1.0",
        10,
        10,
        "SRC is missing: OWNER load DST SRC FIELD",
    ),
    (2, b"give", 4, 4, "TRAY is missing: give TRAY"),
    (
        2,
        b"deal",
        4,
        4,
        "copies or entries is missing: deal copies MOST TRAY, or deal entries MOST TRAY",
    ),
    (
        2,
        b"1 store 1.0 0",
        13,
        13,
        "OPERAND is missing: OWNER store OBJ FIELD OPERAND",
    ),
    (
        2,
        b"deal x 1",
        8,
        8,
        "TRAY is missing: deal copies MOST TRAY, or deal entries MOST TRAY",
    ),
    (
        2,
        b"flip now",
        5,
        8,
        "a part too many: the line ends before it",
    ),
    (2, b"deal x y T", 5, 6, "copies or entries is due here"),
    (
        2,
        b"deal copies y T",
        12,
        13,
        "a number is due here: digits without a leading zero, 0 to 4294967295",
    ),
    (
        2,
        b"deal copies 1 T",
        14,
        15,
        "a tray is due here: a letter a to z, then at most 15 of a to z, 0 to 9 and _",
    ),
    (
        2,
        b"01 drop 1.0",
        0,
        2,
        "a number is due here: digits without a leading zero, 0 to 4294967295",
    ),
    (
        2,
        b"idle 4294967296",
        5,
        15,
        "a number out of its range: 0 to 4294967295",
    ),
    (
        2,
        b"1 drop 10",
        7,
        9,
        "a root is due here: OWNER.SLOT as 1.0, two numbers from 0 to 4294967295",
    ),
    (
        2,
        b"1 store 1.0 0 1.x",
        14,
        17,
        "a part with a dot is a root, OWNER.SLOT as 1.0; there are no fractions",
    ),
    (
        2,
        b"1 store 1.0 0 x",
        14,
        15,
        "nil, a root as 1.0, or -2^63 to 2^63 - 1 is due here; no + and no leading zero",
    ),
    (
        1,
        b"\xef\xbb\xbfheap 16 8 4 2 2",
        0,
        1,
        "a byte order mark: the file begins with its first line",
    ),
    (
        2,
        b"\xef\xbbflip",
        0,
        1,
        "the byte 239 isn't printable ASCII: the bytes of a line are 32 to 126",
    ),
    (
        2,
        b"heap 16 8 4 2 2",
        0,
        4,
        "heap stands in the first line alone",
    ),
    (
        2,
        b"# flip",
        0,
        1,
        "there are no comments: each line is read",
    ),
    (2, b"FLIP", 0, 4, "no such command; did you mean flip?"),
    (
        2,
        b"1 ALLOC 1.0 2",
        2,
        7,
        "no such command; did you mean alloc?",
    ),
    (
        2,
        b"set 1.0",
        0,
        3,
        "no such command: an owner and a command, or a line of a cycle; see rheap run --help",
    ),
    (
        2,
        b"move",
        0,
        4,
        "no such command: an owner and a command, or a line of a cycle; see rheap run --help",
    ),
    (2, b"abandn", 0, 6, "no such command; did you mean abandon?"),
    (
        2,
        b"unwach 1",
        0,
        6,
        "no such command; did you mean unwatch?",
    ),
    (2, b"resize", 6, 6, "WORDS is missing: resize WORDS"),
    (2, b"unwatch", 7, 7, "T is missing: unwatch T"),
    (2, b"tickets", 7, 7, "N is missing: tickets N"),
    (2, b"shade", 5, 5, "ROOT is missing: shade ROOT"),
    (2, b"join a", 6, 6, "TRAY is missing: join TRAY TRAY"),
    (2, b"1 same 1.0", 10, 10, "B is missing: OWNER same A B"),
    (
        2,
        b"1 raw 1.0",
        9,
        9,
        "FIELDS is missing: OWNER raw ROOT FIELDS",
    ),
    (2, b"1 watch", 7, 7, "ROOT is missing: OWNER watch ROOT"),
];

/// Expects a part to begin and end so, and this sentence on what is wrong there.
fn expect_part(
    rt: &(impl AllocGlobal + Abort),
    part: &Part,
    columns: (usize, usize),
    sentence: &str,
) {
    expect_equal(rt, (part.begins, part.ends), columns);
    expect_text(rt, part.why, sentence);
}

#[test]
fn each_fault_has_its_place(rt: HostRuntime) {
    for (row, &(number, line, begins, ends, sentence)) in FAULTY.iter().enumerate() {
        let rt = Row { rt: &rt, row };
        let part = fault_part(number, line, true).expect(&rt, "a fault");
        expect_part(&rt, &part, (begins, ends), sentence);
    }
}

/// Lines that are read: their numbers and texts.
const READ: &[(u32, &[u8])] = &[
    (1, b"heap 16 8 4 2 2"),
    (2, b"1 alloc 1.0 2"),
    (2, b"1 store 1.0 0 -5"),
    (2, b"1 watch 1.0"),
    (2, b"deal entries 0 a_2z9"),
    (1_048_576, b"flip"),
];

#[test]
fn what_is_read_has_no_faulty_part(rt: HostRuntime) {
    for (row, &(number, line)) in READ.iter().enumerate() {
        let rt = Row { rt: &rt, row };
        assert!(rt; fault_part(number, line, true).is_none());
        let cut = fault_part(number, line, false).expect(&rt, "a fault");
        let sentence = "the line has no line end: a line feed ends each line";
        expect_part(&rt, &cut, (line.len(), line.len()), sentence);
    }
}

#[test]
fn a_line_that_is_no_command_fails_at_its_keyword(rt: HostRuntime) {
    let begin = no_command_part(b"begin");
    expect_equal(&rt, (begin.begins, begin.ends), (0, 5));
    let watch = no_command_part(b"1 watch 1.0");
    let sentence = "only commands stand in this run: alloc, raw, load, store, copy, same and drop";
    expect_part(&rt, &watch, (2, 7), sentence);
}
