//! Histories of the greatest sizes.

use crate::expectations::{ample, expect_equal};
use rh_layout::{Command, Reply, RootId};
use rh_replay::{
    History, HistoryError, HistoryKind, Recorder, TraceFull, Verdict, check, read_history,
};
use rh_trace::Kind;
use samples::texts::repeated;
use std::process::Abort;

const A: RootId = RootId { owner: 1, slot: 0 };

/// The most calls that a history may have.
const MOST_CALLS: u32 = 1_048_576;

/// Expects a history to be legal, with so many calls.
fn expect_legal(rt: &(impl AllocGlobal + Abort), history: &History, calls: u32) {
    let verdict = check(rt.alloc(), history).ok();
    expect_equal(rt, verdict, Some(Verdict::Legal(calls)));
}

/// Notes as many calls as there may be. One more is refused.
fn note_all(rt: &impl Abort, recorder: &mut Recorder) {
    let drop = Command::Drop { root: A };
    for _ in 0..MOST_CALLS {
        expect_equal(rt, recorder.note(1, &drop, Ok(Reply::Done)), Ok(()));
    }
    let full = recorder.note(1, &drop, Ok(Reply::Done));
    expect_equal(rt, full, Err(TraceFull));
}

#[test]
fn the_greatest_history(rt: HostRuntime) {
    let recorder = Recorder::new(rt.alloc(), 2, 2, MOST_CALLS).ok();
    let mut recorder = recorder.expect(&rt, "a recorder");
    note_all(&rt, &mut recorder);
    expect_legal(&rt, recorder.history(), MOST_CALLS);
}

/// How many calls a history of this text has, or the fault of the text and its line.
fn read(rt: &impl AllocGlobal, text: &[u8]) -> Option<Result<usize, (u32, HistoryKind)>> {
    match &read_history(rt.alloc(), text) {
        Ok(history) => Some(Ok(history.calls().len())),
        Err(HistoryError::Fault(fault)) => Some(Err((fault.line, fault.kind))),
        Err(HistoryError::OutOfMemory) => None,
    }
}

#[test]
fn the_longest_history(rt: HostRuntime) {
    let drops = repeated(&rt, b"history 1 1\n", b"0 drop 0.0 = done\n", 1_048_574);
    let mut text = ample(&rt, drops);
    let unended = Err((1_048_576, HistoryKind::End));
    expect_equal(&rt, read(&rt, &text), Some(unended));
    ample(&rt, text.extend_from_slice(b"end 1048574\n"));
    let history = read_history(rt.alloc(), &text).ok();
    expect_legal(&rt, &history.expect(&rt, "a history"), 1_048_574);
}

#[test]
fn a_history_of_too_many_lines(rt: HostRuntime) {
    let drops = repeated(&rt, b"history 1 1\n", b"0 drop 0.0 = done\n", 1_048_575);
    let mut text = ample(&rt, drops);
    let unended = Err((1_048_577, HistoryKind::End));
    expect_equal(&rt, read(&rt, &text), Some(unended));
    ample(&rt, text.extend_from_slice(b"end 1048575\n"));
    let long = Err((1_048_577, HistoryKind::Line(Kind::Long)));
    expect_equal(&rt, read(&rt, &text), Some(long));
}
