//! Growing runs: beside the same lines on a heap that never collects, where no more words may be
//! had, and where memory is refused.

use crate::expectations::{ample, expect_bytes, expect_equal, expect_refusals};
use crate::program::driving::{RUN, driven, drives_to, expect_ended};
use crate::texts::ended_lines;
use refusing::{RefusingAllocator, refused_in_turn};
use rh_cli::{Ask, PLAIN, Subcommand};
use samples::texts::{add_numbered, repeated, without_last_line};
use std::alloc::Allocator;
use std::process::Abort;
use std::sync::Wait;
use std::thread::Threads;

/// A run on a heap that grows to at most so many words.
fn growing(at_most: u32) -> Ask<'static> {
    Ask {
        subcommand: Subcommand::RunGrowing { at_most },
        file: "-",
        explain: false,
        out: None,
        views: PLAIN,
    }
}

/// The lines of a cell before and after its number, which put it before a list; and their answers.
const CELL: (&str, &str) = (
    "1 alloc 1.1 2\n1 store 1.1 0 ",
    "\n1 store 1.1 1 1.0\n1 copy 1.0 1.1\n",
);

const CELL_ANSWERS: &[u8] = b"object 2\ndone\ndone\nobject 2\n";

/// The lines that read the first cell of the list, and go on to the next.
const NEXT: &[u8] = b"1 load 1.2 1.0 0\n1 load 1.0 1.0 1\n";

/// What a run of these lines answers, and that nothing else is told.
fn answers_of<R: AllocGlobal + Abort + Threads + Wait + Sync>(
    rt: &R,
    ask: &Ask<'_>,
    first: &[u8],
    lines: &[u8],
) -> Vec<u8> {
    let text = ample(rt, repeated(rt, first, lines, 1));
    let (status, out, err) = driven(rt, rt.alloc(), ask, &text);
    expect_equal(rt, (status, err.len()), (0, 0));
    out
}

/// A list of 8,000 words that begins in 64: each answer is that of a heap that has room for all,
/// and never collects.
#[test]
fn a_list_that_outgrows_its_first_words(rt: HostRuntime) {
    let mut lines = Vec::new(rt.alloc());
    ample(&rt, add_numbered(&rt, &mut lines, 2_000, CELL));
    let lines = ample(&rt, repeated(&rt, &lines, NEXT, 2_000));
    let grown = answers_of(&rt, &growing(100_000), b"heap 64 16 8 2 3\n", &lines);
    let plain = answers_of(&rt, &RUN, b"heap 8000 16 8 2 3\n", &lines);
    assert!(rt; plain.ends_with(b"total commands 12000 refused 0 flips 0 rootwords 0\n"));
    expect_bytes(&rt, without_last_line(&grown), without_last_line(&plain));
    assert!(rt; !grown.ends_with(b" flips 0 rootwords 0\n"));
}

/// A list in at most 100 words: its 26th cell is the first that has no room.
#[test]
fn a_list_above_the_most_words(rt: HostRuntime) {
    let mut lines = Vec::new(rt.alloc());
    ample(&rt, add_numbered(&rt, &mut lines, 26, CELL));
    let grown = answers_of(&rt, &growing(100), b"heap 20 64 8 2 3\n", &lines);
    let mut due = ample(&rt, repeated(&rt, b"", CELL_ANSWERS, 25));
    ample(
        &rt,
        due.extend_from_slice(b"refused SpaceFull need 4 free 0\n"),
    );
    assert!(rt; grown.starts_with(&due));
}

/// Whether each line says that an object was made, or that it has no room, and how many say that.
fn without_room(text: &[u8]) -> Option<usize> {
    let mut refused: usize = 0;
    for line in without_last_line(text).split(|byte| *byte == b'\n') {
        if line.starts_with(b"refused SpaceFull need 4 free ") {
            refused = refused.saturating_add(1);
        } else if line != b"object 2".as_slice() && !line.is_empty() {
            return None;
        }
    }
    Some(refused)
}

/// Runs lines that make 60 objects, from 16 words on, and expects an answer to each: that it was
/// made, or that it has no room, which comes only where memory was refused; or that memory was
/// refused before there was a heap. Answers whether it was refused.
fn is_refused<R: AllocGlobal + Abort + Threads + Wait + Sync, A: Allocator + Copy + Send + Sync>(
    rt: &R,
    memory: &RefusingAllocator<A>,
    text: &[u8],
) -> bool {
    let (status, out, err) = driven(rt, memory, &growing(1_000), text);
    if status == 3 {
        expect_ended(rt, (status, &out, &err), 3, b"", b"rheap: out of memory\n");
    } else {
        expect_equal(rt, (status, err.len()), (0, 0));
        expect_made(rt, &out, memory.has_refused());
    }
    status == 3 || memory.has_refused()
}

/// Expects 60 answers before the total line, each that an object was made, or that it has no room
/// where memory was refused.
fn expect_made(rt: &impl Abort, answers: &[u8], is_refused: bool) {
    expect_equal(rt, ended_lines(answers), 61);
    let refused = without_room(answers);
    assert!(rt; refused.is_some());
    assert!(rt; is_refused || refused == Some(0));
}

#[test]
fn each_growth_is_refused_in_turn(rt: HostRuntime) {
    let mut text = ample(&rt, repeated(&rt, b"heap 16 16 8 1 64\n", b"", 0));
    ample(
        &rt,
        add_numbered(&rt, &mut text, 60, ("0 alloc 0.", " 2\n")),
    );
    let refused = refused_in_turn(rt.alloc(), |memory| is_refused(&rt, memory, &text));
    expect_refusals(&rt, refused, 8);
}

/// What a growing run answers where it has no room to grow: as a paced run.
#[test]
fn a_heap_that_may_not_grow(rt: HostRuntime) {
    drives_to(
        &rt,
        &growing(29),
        b"heap 29 8 8 2 2\n1 alloc 1.0 2\n1 load 1.1 1.0 2\n1 drop 1.0\n",
        0,
        b"object 2\nrefused NoField\ndone\ntotal commands 3 refused 1 flips 0 rootwords 0\n",
        b"",
    );
}
