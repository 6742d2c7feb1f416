//! The cycles of programs of the small Scheme, as they are written.

use crate::expectations::{Row, ample, expect_bytes, expect_equal, expect_prefix};
use crate::texts::{count_of, ended_lines};
use refusing::RefusingAllocator;
use rh_cli::{HeapWords, KeptReader, Limits, drive_lisp_with_cycles};
use rh_cycle_events::lines_or_events;
use samples::devices::{Broken, SlowWriter, Unflushed};
use samples::texts::COLUMNS;
use std::alloc::Allocator;
use std::io::Write;
use std::process::Abort;

/// A heap that grows as far as a heap can.
const AMPLE: HeapWords = HeapWords::UpTo(16_777_216);

/// Heaps in which the program below collects: one that keeps its size, and one that grows.
const SMALL: &[HeapWords] = &[HeapWords::Just(3_200), HeapWords::UpTo(8_618)];

/// What makes 2,000 pairs, none of which it keeps.
const MAKES: &[u8] =
    b"(define (make n) (if (= n 0) 'done (begin (cons n n) (make (- n 1)))))\n(display (make 2000))";

/// Runs a program with its cycles, and answers the status. No test needs what
/// `drive_lisp_with_cycles` promises beside it.
fn status_with_cycles<A, C>(
    memory: A,
    limits: Limits,
    text: &[u8],
    cycles: C,
    out: &mut Vec<u8>,
    err: &mut Vec<u8>,
) -> u8
where
    A: Allocator + Copy,
    C: Write + Drop,
{
    let mut reader = KeptReader::passing(memory, text);
    let (_, ended) = drive_lisp_with_cycles(memory, "p", limits, &mut reader, out, cycles, err);
    ended
}

/// Runs a program with its cycles, and expects this status, what is printed and what is told.
fn expect_run<R, A, C>(
    rt: &R,
    memory: A,
    heap: HeapWords,
    text: &[u8],
    cycles: C,
    (status, printed, told): (u8, &[u8], &[u8]),
)
where
    R: AllocGlobal + Abort,
    A: Allocator + Copy,
    C: Write + Drop,
{
    let limits = Limits {
        heap,
        steps: 10_000_000,
    };
    let mut out = Vec::new(rt.alloc());
    let mut err = Vec::new(rt.alloc());
    let ended = status_with_cycles(memory, limits, text, cycles, &mut out, &mut err);
    expect_equal(rt, ended, status);
    expect_bytes(rt, &out, printed);
    expect_bytes(rt, &err, told);
}

#[test]
fn a_program_that_needs_no_cycle_has_the_columns_alone(rt: HostRuntime) {
    let mut cycles: Vec<u8> = Vec::new(rt.alloc());
    let due: (u8, &[u8], &[u8]) = (0, b"1", b"");
    expect_run(&rt, rt.alloc(), AMPLE, b"(display 1)", &mut cycles, due);
    expect_bytes(&rt, &cycles, COLUMNS);
}

#[test]
fn a_text_that_is_no_program_has_no_columns(rt: HostRuntime) {
    let mut cycles: Vec<u8> = Vec::new(rt.alloc());
    let due: (u8, &[u8], &[u8]) = (1, b"", b"p:1:1: unexpected )\n");
    expect_run(&rt, rt.alloc(), AMPLE, b")", &mut cycles, due);
    expect_equal(&rt, cycles.len(), 0);
}

/// Expects that the lines after the first are numbered from 1 on.
fn expect_numbered<R: AllocGlobal + Abort>(rt: &R, cycles: &[u8]) {
    let lines = cycles.split(|byte| *byte == b'\n');
    for (number, line) in lines.enumerate().skip(1) {
        let begun = ample(rt, format!(in rt.alloc(); "{number}\t"));
        assert!(rt;
            line.is_empty() || line.starts_with(begun.as_bytes()),
            "line {number}"
        );
    }
}

/// Expects the columns, and at least three lines of as many parts, with their numbers.
fn expect_lines<R: AllocGlobal + Abort>(rt: &R, cycles: &[u8]) {
    expect_prefix(rt, cycles, COLUMNS);
    let lines = ended_lines(cycles);
    // 2,000 pairs of 4 words each take 3,200 words twice.
    assert!(rt; 3 < lines, "{lines} lines");
    expect_equal(rt, count_of(cycles, b'\t'), lines.saturating_mul(18));
    expect_numbered(rt, cycles);
}

#[test]
fn each_cycle_of_a_program_has_a_line_of_all_columns(rt: HostRuntime) {
    for (row, &heap) in SMALL.iter().enumerate() {
        let test = Row { rt: &rt, row };
        let mut cycles: Vec<u8> = Vec::new(rt.alloc());
        let due: (u8, &[u8], &[u8]) = (0, b"done", b"");
        expect_run(&test, rt.alloc(), heap, MAKES, &mut cycles, due);
        expect_lines(&test, &cycles);
    }
}

#[test]
fn a_line_of_a_cycle_that_is_lost_is_a_failed_write(rt: HostRuntime) {
    let due: (u8, &[u8], &[u8]) = (1, b"", b"rheap: write failed\n");
    let small = HeapWords::Just(3_200);
    expect_run(&rt, rt.alloc(), small, MAKES, Broken, due);
    expect_run(&rt, rt.alloc(), small, MAKES, Unflushed, due);
    let events = lines_or_events(Broken, true);
    expect_run(&rt, rt.alloc(), small, MAKES, events, due);
    let mut full = SlowWriter::new(&rt, 1_000, 3);
    expect_run(&rt, rt.alloc(), small, MAKES, &mut full, due);
    expect_prefix(&rt, &full.text, COLUMNS);
}

/// What is due where the nth allocation is refused: the status, what is printed and what is told.
fn due_where_refused(nth: u64) -> (u8, &'static [u8], &'static [u8]) {
    if nth == 0 {
        (0, b"done", b"")
    } else {
        (3, b"", b"rheap: out of memory\n")
    }
}

/// Runs the program while its nth allocation is refused. Answers how many were asked for, and
/// whether the columns alone were written.
fn asked_where_refused<R: AllocGlobal + Abort>(rt: &R, nth: u64) -> (u64, bool) {
    let memory = RefusingAllocator::new(rt.alloc(), nth);
    let mut cycles: Vec<u8> = Vec::new(rt.alloc());
    let due = due_where_refused(nth);
    expect_run(rt, &memory, HeapWords::Just(3_200), MAKES, &mut cycles, due);
    (memory.asked(), cycles.as_slice() == COLUMNS)
}

#[test]
fn a_line_of_a_cycle_may_lack_memory(rt: HostRuntime) {
    // The last allocations are those of the first line and of what the program printed.
    let (all, _) = asked_where_refused(&rt, 0);
    let mut without_line = 0u64;
    for earlier in 0..12u64 {
        if asked_where_refused(&rt, all.saturating_sub(earlier)).1 {
            without_line = without_line.saturating_add(1);
        }
    }
    assert!(rt;
        0 < without_line && without_line < 12,
        "{without_line} refusals"
    );
}
