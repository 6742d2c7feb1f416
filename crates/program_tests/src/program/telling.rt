//! What is told of a command line, a file or a run that fails.

use crate::expectations::{Row, expect_bytes, expect_equal};
use crate::texts::{
    CROSSED_FAULT, EVENTS_FAULT, FORMS_FAULT, GROW_FAULT, IDLE_FAULT, LINE_FAULT, MARK_FAULT,
    OBJECT_FAULT, REPLICATORS_FAULT, SESSION_FAULT, STEPS_FAULT, VIEWS_FAULT, WORDS_FAULT,
};
use rh_cli::{CommandLineFault, LineFault, tell};
use std::process::Abort;

/// Expects each of these faults to have this status, and to be told so.
fn expect_faults_told<R: AllocGlobal + Abort>(rt: &R, faults: &[(LineFault, u8, &[u8])]) {
    for (row, (fault, status, text)) in faults.iter().enumerate() {
        let rt = Row { rt, row };
        let mut err = Vec::new(rt.alloc());
        expect_equal(&rt, tell(fault, &mut err), *status);
        expect_bytes(&rt, &err, text);
    }
}

#[test]
fn faults_before_a_run_are_told(rt: HostRuntime) {
    let table: [(LineFault, u8, &[u8]); 20] = [
        (LineFault::Open, 1, b"rheap: open failed\n"),
        (
            LineFault::NoText,
            2,
            b"rheap: the command line is no text\n",
        ),
        (
            LineFault::CommandLine(CommandLineFault::Incomplete),
            2,
            b"rheap: no command and file\n",
        ),
        (
            LineFault::CommandLine(CommandLineFault::Mark),
            2,
            MARK_FAULT,
        ),
        (
            LineFault::CommandLine(CommandLineFault::Grow),
            2,
            GROW_FAULT,
        ),
        (
            LineFault::CommandLine(CommandLineFault::Replicators),
            2,
            REPLICATORS_FAULT,
        ),
        (
            LineFault::CommandLine(CommandLineFault::Idle),
            2,
            IDLE_FAULT,
        ),
        (
            LineFault::CommandLine(CommandLineFault::Line),
            2,
            LINE_FAULT,
        ),
        (
            LineFault::CommandLine(CommandLineFault::Shell),
            2,
            b"rheap: completions needs a shell: bash, zsh or fish\n",
        ),
        (
            LineFault::CommandLine(CommandLineFault::Views),
            2,
            VIEWS_FAULT,
        ),
        (
            LineFault::CommandLine(CommandLineFault::Crossed),
            2,
            CROSSED_FAULT,
        ),
        (
            LineFault::CommandLine(CommandLineFault::Events),
            2,
            EVENTS_FAULT,
        ),
        (
            LineFault::CommandLine(CommandLineFault::Forms),
            2,
            FORMS_FAULT,
        ),
        (
            LineFault::CommandLine(CommandLineFault::Object),
            2,
            OBJECT_FAULT,
        ),
        (
            LineFault::CommandLine(CommandLineFault::SessionCycles),
            2,
            SESSION_FAULT,
        ),
        (
            LineFault::SameFile,
            1,
            b"rheap: OUT is FILE, another OUT, or where standard output or error goes\n",
        ),
        (
            LineFault::CommandLine(CommandLineFault::Words),
            2,
            WORDS_FAULT,
        ),
        (
            LineFault::CommandLine(CommandLineFault::Steps),
            2,
            STEPS_FAULT,
        ),
        (LineFault::NoLine, 1, b"rheap: draw: NoLine\n"),
        (LineFault::HistoryDiffers, 4, b"rheap: history differs\n"),
    ];
    expect_faults_told(&rt, &table);
}
