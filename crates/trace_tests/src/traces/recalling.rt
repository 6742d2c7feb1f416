//! Cycles that are recalled or abandoned at each moment, and then brought to their end.

use crate::expectations::{Row, ample};
use rh_trace::run_trace;
use std::process::Abort;

/// The first lines of a trace: two objects, of which the first refers to the second.
const FIRST: &[u8] =
    b"heap 64 8 8 2 2\n1 alloc 1.0 2\n1 alloc 1.1 1\n1 store 1.0 0 5\n1 store 1.0 1 1.1\n";

/// A cycle, line by line: with copies, entries, stale parts, stores, and an object that is dropped.
const CYCLE: &[&[u8]] = &[
    b"begin\n",
    b"1 alloc 0.0 3\n",
    b"shade 1.0\n",
    b"deal copies 1 a\n",
    b"1 store 1.0 0 6\n",
    b"give a\n",
    b"1 store 1.1 0 1.0\n",
    b"deal entries 9 b\n",
    b"deal copies 9 c\n",
    b"give c\n",
    b"give b\n",
    b"1 drop 0.0\n",
    b"deal copies 9 d\n",
    b"give d\n",
    b"flip\n",
];

/// What ends a cycle wherever it stands, with trays of its own.
const FINISH: &[u8] =
    b"idle 1000\nshade 0.0\nshade 1.0\nshade 1.1\ndeal entries 9 w\ngive w\ndeal copies 9 x\n\
        give x\ndeal copies 9 y\ngive y\nflip\ndump\n";

/// What comes within the cycle, and what after it.
const ENDS: &[(&[u8], &[u8])] = &[(b"recall\n", b""), (b"abandon\n", b"begin\n")];

/// What is answered last, whatever came between: one flip was done, and the graph is the same.
const LAST: &[u8] = b"\nrheap 2\nroots 2\n1.0 @0\n1.1 @1\nobjects 2\n@0 2 6 @1\n@1 1 @0\nend\n\
        total commands 8 refused 0 flips 1 rootwords 2\n";

/// The trace with a line before the one at this position of its cycle, and with an end.
fn interrupted(rt: &(impl AllocGlobal + Abort), moment: usize, line: &[u8], end: &[u8]) -> Vec<u8> {
    let mut text = Vec::new(rt.alloc());
    ample(rt, text.extend_from_slice(FIRST));
    for (position, part) in CYCLE.iter().enumerate() {
        if position == moment {
            ample(rt, text.extend_from_slice(line));
        }
        ample(rt, text.extend_from_slice(part));
    }
    ample(rt, text.extend_from_slice(end));
    ample(rt, text.extend_from_slice(FINISH));
    text
}

/// Runs a trace, and expects its last answers.
fn expect_last(rt: &(impl AllocGlobal + Abort), text: &[u8]) {
    let mut written = Vec::new(rt.alloc());
    let outcome = run_trace(rt.alloc(), &mut { text }, &mut written);
    assert!(rt; outcome.is_ok(), "{outcome:?}");
    let written = written.as_slice();
    assert!(rt;
        written.ends_with(LAST),
        "{} doesn't end with {}",
        written.escape_ascii(),
        LAST.escape_ascii()
    );
}

#[test]
fn a_cycle_is_recalled_or_abandoned_at_each_moment(rt: HostRuntime) {
    for moment in 1..CYCLE.len() {
        let rt = Row {
            rt: &rt,
            row: moment,
        };
        for (row, &(line, end)) in ENDS.iter().enumerate() {
            let rt = Row { rt: &rt, row };
            let text = interrupted(&rt, moment, line, end);
            expect_last(&rt, &text);
        }
    }
}
