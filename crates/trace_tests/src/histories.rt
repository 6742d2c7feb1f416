//! Histories: recorded, checked, reported, written and read.

use crate::expectations::{Row, expect_bytes, expect_equal};
use crate::texts::{RAW_HISTORY, RAW_HISTORY_REPORT};
use rh_layout::{Command, Refusal, Reply, RootId};
use rh_replay::{
    History, Recorder, RecorderError, TraceFull, Verdict, check, read_history, report,
    write_history,
};
use rh_trace::{Kind, Write, command_of, write_answer, write_command};
use samples::devices::SlowWriter;
use samples::texts::{RIGHT, RIGHT_REPORT, WRONG, WRONG_REPORT};
use std::process::Abort;

/// A history that tells a raw object as one that isn't, and the report on it.
const OBJECT_FOR_RAW: &[u8] = b"history 2 2\n1 raw 1.0 2 = object 2\nend 1\n";

const OBJECT_FOR_RAW_REPORT: &[u8] = b"owner 1 calls 1\nwrong 1 expected raw 2\n";

/// A history in which a raw object takes a reference, and the report on it.
const NOT_REFUSED: &[u8] = b"history 2 2\n1 raw 1.0 1 = raw 1\n1 store 1.0 0 1.0 = done\nend 2\n";

const NOT_REFUSED_REPORT: &[u8] = b"owner 1 calls 2\nwrong 2 expected refused RawField\n";

const A: RootId = RootId { owner: 1, slot: 0 };

const ALLOC: Command = Command::Alloc { dst: A, fields: 1 };

/// Histories, each with its verdict and the report on it.
const HISTORIES: &[(&[u8], Verdict, &[u8])] = &[
    (RIGHT, Verdict::Legal(3), RIGHT_REPORT),
    (
        WRONG,
        Verdict::Wrong {
            at: 2,
            expected: Err(Refusal::NoRoot),
        },
        WRONG_REPORT,
    ),
    (RAW_HISTORY, Verdict::Legal(5), RAW_HISTORY_REPORT),
    (
        OBJECT_FOR_RAW,
        Verdict::Wrong {
            at: 1,
            expected: Ok(Reply::Raw(2)),
        },
        OBJECT_FOR_RAW_REPORT,
    ),
    (
        NOT_REFUSED,
        Verdict::Wrong {
            at: 2,
            expected: Err(Refusal::RawField),
        },
        NOT_REFUSED_REPORT,
    ),
];

/// The history that a text is read as.
fn history_of<R: AllocGlobal + Abort>(rt: &R, text: &[u8]) -> History {
    read_history(rt.alloc(), text).ok().expect(rt, "a history")
}

/// Expects this verdict on a history.
fn expect_verdict(rt: &(impl AllocGlobal + Abort), history: &History, verdict: Verdict) {
    let found = check(rt.alloc(), history).ok();
    expect_equal(rt, found, Some(verdict));
}

/// Expects the report on a history with this verdict.
fn expect_report(
    rt: &(impl AllocGlobal + Abort),
    history: &History,
    verdict: &Verdict,
    told: &[u8],
) {
    let mut writer = SlowWriter::new(rt, 1, 0);
    expect_equal(rt, report(history, verdict, &mut writer), Ok(()));
    expect_bytes(rt, &writer.text, told);
}

/// Expects the text of a history.
fn expect_history(rt: &(impl AllocGlobal + Abort), history: &History, text: &[u8]) {
    let mut writer = SlowWriter::new(rt, 1000, 0);
    expect_equal(rt, write_history(history, &mut writer), Ok(()));
    expect_bytes(rt, &writer.text, text);
}

#[test]
fn replays_a_history(rt: HostRuntime) {
    for (row, &(text, verdict, told)) in HISTORIES.iter().enumerate() {
        let rt = Row { rt: &rt, row };
        let history = history_of(&rt, text);
        expect_verdict(&rt, &history, verdict);
        expect_report(&rt, &history, &verdict, told);
        expect_history(&rt, &history, text);
    }
}

/// Owners, slots and a limit with which no recorder is made, each with why.
const NO_RECORDERS: &[(u32, u32, u32, RecorderError)] = &[
    (0, 2, 0, RecorderError::BadRoots),
    (17, 2, 1, RecorderError::BadRoots),
    (2, 257, 1, RecorderError::BadRoots),
    (2, 2, 0, RecorderError::BadHistory),
    (2, 2, 1_048_577, RecorderError::BadHistory),
];

/// Notes one call in a recorder of one call, and another one, which is refused.
fn note_two(rt: &(impl AllocGlobal + Abort), recorder: &mut Recorder) {
    let full = recorder.note(1, &ALLOC, Ok(Reply::Object(1)));
    expect_equal(rt, full, Ok(()));
    let full = recorder.note(1, &ALLOC, Err(Refusal::NoRoot));
    expect_equal(rt, full, Err(TraceFull));
    expect_equal(rt, recorder.history().calls().len(), 1);
    expect_verdict(rt, recorder.history(), Verdict::Legal(1));
}

#[test]
fn a_recorder_takes_as_many_calls_as_its_limit(rt: HostRuntime) {
    let recorder = Recorder::new(rt.alloc(), 2, 2, 1).ok();
    note_two(&rt, &mut recorder.expect(&rt, "a recorder"));
    for (row, &(owners, slots, limit, error)) in NO_RECORDERS.iter().enumerate() {
        let rt = Row { rt: &rt, row };
        let made = Recorder::new(rt.alloc(), owners, slots, limit);
        expect_equal(&rt, made.err(), Some(error));
    }
    assert!(rt; Recorder::new(rt.alloc(), 16, 256, 1_048_576).is_ok());
}

#[test]
fn single_lines_have_no_line_end(rt: HostRuntime) {
    expect_equal(&rt, command_of(b"1 alloc 1.0 1"), Ok((1, ALLOC)));
    expect_equal(&rt, command_of(b"1 alloc 1.0 1\n"), Err(Kind::Form));
    expect_equal(&rt, command_of(b"begin"), Err(Kind::Word));
    let mut writer = SlowWriter::new(&rt, 1000, 0);
    expect_equal(&rt, write_command(1, &ALLOC, &mut writer), Ok(()));
    expect_equal(
        &rt,
        write_answer(&Ok(Reply::Same(true)), &mut writer),
        Ok(()),
    );
    expect_bytes(&rt, &writer.text, b"1 alloc 1.0 1same yes");
    let mut writer = SlowWriter::new(&rt, 1000, 1);
    expect_equal(
        &rt,
        write_answer(&Err(Refusal::LogFull), &mut writer),
        Err(Write),
    );
}
