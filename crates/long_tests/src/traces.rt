//! The greatest trace, and reads and writes of traces that run out.

use crate::expectations::{Row, ample, expect_bytes, expect_equal};
use rh_text::IoLog;
use rh_trace::{
    Answers, Fixed, Kind, ParseError, RunFault, Summary, TraceFault, fixed_fault, parse, print,
    run, run_trace,
};
use samples::devices::{InterruptedReader, SlowWriter};
use samples::texts::{WITHOUT_FIELDS, WITHOUT_FIELDS_ANSWERS, repeated};
use std::process::Abort;

/// The greatest trace.
fn greatest(rt: &(impl AllocGlobal + Abort)) -> Vec<u8> {
    let text = repeated(rt, b"heap 8 1 1 2 16\n", b"1 copy 1.0 1.15\n", 1_048_575);
    ample(rt, text)
}

/// Expects the greatest trace to be read, and printed as it was.
fn expect_greatest(rt: &(impl AllocGlobal + Abort), text: &[u8]) {
    expect_equal(rt, text.len(), 16_777_216);
    let trace = parse(rt.alloc(), text).ok().expect(rt, "a trace");
    expect_equal(rt, trace.len(), 1_048_575);
    let mut printed = Vec::new(rt.alloc());
    expect_equal(rt, print(&trace, &mut printed), Ok(()));
    assert!(rt; printed.as_slice() == text);
}

#[test]
fn the_greatest_trace_is_read(rt: HostRuntime) {
    let mut text = greatest(&rt);
    expect_greatest(&rt, &text);
    ample(&rt, text.extend_from_slice(b"\n"));
    let long = TraceFault {
        line: 1_048_577,
        kind: Kind::Long,
    };
    let found = parse(rt.alloc(), &text).err();
    assert!(rt; matches!(found, Some(ParseError::Fault(found)) if found == long));
}

/// What the answers of the greatest trace add up to.
const SUMMARY: Summary = Summary {
    commands: 1_048_575,
    refused: 0,
    flips: 0,
    root_words: 0,
};

/// The answers of the greatest trace.
fn answers_of_greatest(rt: &(impl AllocGlobal + Abort)) -> Vec<u8> {
    let mut answers = ample(rt, repeated(rt, b"", b"nil\n", 1_048_575));
    let total = b"total commands 1048575 refused 0 flips 0 rootwords 0\n".as_slice();
    ample(rt, answers.extend_from_slice(total));
    answers
}

/// Ends the test unless a run of a trace has this outcome and writes these answers.
fn expect_outcome(
    rt: &(impl AllocGlobal + Abort),
    text: &[u8],
    outcome: Result<Summary, RunFault>,
    answers: &[u8],
) {
    let mut written = Vec::new(rt.alloc());
    let ended = run_trace(rt.alloc(), &mut { text }, &mut written);
    expect_equal(rt, ended, outcome);
    assert!(rt; written.as_slice() == answers);
}

#[test]
fn the_greatest_trace_is_run(rt: HostRuntime) {
    let mut text = greatest(&rt);
    let answers = answers_of_greatest(&rt);
    expect_outcome(&rt, &text, Ok(SUMMARY), &answers);
    ample(&rt, text.extend_from_slice(b"\n"));
    expect_outcome(&rt, &text, Err(RunFault::Long), b"");
}

#[test]
fn interrupted_writes_are_made_again(rt: HostRuntime) {
    // How many of two writes each are interrupted, and what that comes to.
    let table = [
        (1, None, WITHOUT_FIELDS_ANSWERS, 6),
        (2, Some(RunFault::Write), b"".as_slice(), 33_554_432),
    ];
    for (row, &(interrupted, fault, answers, writes)) in table.iter().enumerate() {
        let rt = Row { rt: &rt, row };
        let mut reader = WITHOUT_FIELDS;
        let mut writer = SlowWriter::new(&rt, 1000, 0);
        writer.interrupted = interrupted;
        let outcome = run_trace(rt.alloc(), &mut reader, &mut writer);
        expect_equal(&rt, outcome.err(), fault);
        expect_bytes(&rt, &writer.text, answers);
        expect_equal(&rt, writer.writes, writes);
    }
}

#[test]
fn reads_that_run_out_are_no_failed_read(rt: HostRuntime) {
    let mut reader = InterruptedReader {
        reads: 0,
        ends_at: 0,
    };
    let mut writer = SlowWriter::new(&rt, 1000, 0);
    let (mut reads, mut writes) = (IoLog::new(), IoLog::new());
    let outcome = run(
        rt.alloc(),
        &mut reader,
        &mut reads,
        &Fixed,
        &mut Answers::new(rt.alloc()),
        &mut writer,
        &mut writes,
    );
    let failed = match outcome {
        Ok(_) => None,
        Err(failed) => Some(fixed_fault(failed)),
    };
    expect_equal(&rt, failed, Some(RunFault::Read));
    expect_equal(&rt, (reads.has_failed(), reads.left()), (false, 0));
    expect_equal(&rt, writer.writes, 0);
}
