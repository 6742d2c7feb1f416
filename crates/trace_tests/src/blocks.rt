//! Blocks of text that show the faulty part of a line.

use crate::expectations::{Row, ample, expect_bytes, expect_equal, expect_prefix};
use rh_explain::{fault_part, write_block};
use samples::texts::repeated;
use std::process::Abort;

/// A line's number and text, and the block that shows its fault.
const BLOCKS: &[(u32, &[u8], &[u8])] = &[
    (
        3,
        b"1 aloc 1.0 2",
        b"3 | 1 aloc 1.0 2\n      ^^^^\nno such command; did you mean alloc?\n",
    ),
    (
        12,
        b"1\talloc 1.0 2",
        b"12 | 1\\x09alloc 1.0 2\n      ^^^^\na tab: parts are set apart by one space\n",
    ),
    (
        2,
        b"",
        b"2 | \n    ^\na blank line: each line has a keyword\n",
    ),
    (
        7,
        b"1 load 1.0",
        b"7 | 1 load 1.0\n              ^\nSRC is missing: OWNER load DST SRC FIELD\n",
    ),
    (
        2,
        b"1 store 1.0 0 12345678901234567890123456789012345678901234567890123456789012345678901234567890",
        b"2 | 1 store 1.0 0 123456789012345678901234567890123456789012345678901234567890..\n                  ^^^^^^^^^^^^^^^^^^^^^^^^^^^^^^^^^^^^^^^^^^^^^^^^^^^^^^^^^^^^\nnil, a root as 1.0, or -2^63 to 2^63 - 1 is due here; no + and no leading zero\n",
    ),
];

/// The block of a line's fault.
fn block_of(rt: &(impl AllocGlobal + Abort), number: u32, line: &[u8]) -> Vec<u8> {
    let part = fault_part(number, line, true).expect(rt, "a fault");
    let mut block = Vec::new(rt.alloc());
    expect_equal(rt, write_block(&mut block, number, line, &part), Ok(()));
    block
}

#[test]
fn a_block_shows_the_part(rt: HostRuntime) {
    for (row, &(number, line, block)) in BLOCKS.iter().enumerate() {
        let rt = Row { rt: &rt, row };
        expect_bytes(&rt, &block_of(&rt, number, line), block);
    }
}

#[test]
fn a_long_line_is_cut_on_both_sides(rt: HostRuntime) {
    let line = ample(&rt, repeated(&rt, b"", b"x", 300));
    let part = fault_part(2, &line, true).expect(&rt, "a fault");
    expect_equal(&rt, (part.begins, part.ends), (256, 300));
    expect_prefix(&rt, &block_of(&rt, 2, &line), b"2 | ..xxxxxxxxxxxxxxxxxx");
}
