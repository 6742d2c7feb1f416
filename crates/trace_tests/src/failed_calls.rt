//! The logs of reads and writes, which tell whether one failed.

use crate::expectations::{Row, expect_equal};
use rh_text::{IoLog, send};
use rh_trace::{Answers, Fixed, RunFault, Trace, Write, fixed_fault, parse, print_logged, run};
use samples::devices::{SlowReader, SlowWriter};
use samples::texts::WITHOUT_FIELDS;
use std::process::Abort;

#[test]
fn runs_tell_which_call_failed(rt: HostRuntime) {
    // The read and the write that fail, how the run ends, and whether each log tells a failed call.
    let table = [
        (0, 0, None, (false, false)),
        (3, 0, Some(RunFault::Read), (true, false)),
        (0, 2, Some(RunFault::Write), (false, true)),
    ];
    for (row, &(read, write, fault, told)) in table.iter().enumerate() {
        let rt = Row { rt: &rt, row };
        let mut reader = SlowReader::new(WITHOUT_FIELDS, read);
        let mut writer = SlowWriter::new(&rt, 1000, write);
        let (mut reads, mut writes) = (IoLog::new(), IoLog::new());
        let outcome = run(
            rt.alloc(),
            &mut reader,
            &mut reads,
            &Fixed,
            &mut Answers::new(rt.alloc()),
            &mut writer,
            &mut writes,
        );
        let failed = match outcome {
            Ok(_) => None,
            Err(failed) => Some(fixed_fault(failed)),
        };
        expect_equal(&rt, failed, fault);
        expect_equal(&rt, (reads.has_failed(), writes.has_failed()), told);
    }
}

/// Prints a trace to a writer that takes so many bytes of a write, and fails at its nth. Expects this
/// outcome, and the log to tell a failed write exactly if it is a fault.
fn expect_print(
    rt: &(impl AllocGlobal + Abort),
    trace: &Trace,
    &(most, nth, outcome): &(usize, u32, Result<(), Write>),
) {
    let mut writer = SlowWriter::new(rt, most, nth);
    let mut writes = IoLog::new();
    expect_equal(rt, print_logged(trace, &mut writer, &mut writes), outcome);
    expect_equal(rt, writes.has_failed(), outcome.is_err());
}

#[test]
fn prints_tell_a_failed_write(rt: HostRuntime) {
    let trace = parse(rt.alloc(), WITHOUT_FIELDS).ok();
    let trace = trace.expect(&rt, "a trace");
    let table = [(1000, 0, Ok(())), (1000, 2, Err(Write)), (0, 0, Err(Write))];
    for (row, printed) in table.iter().enumerate() {
        expect_print(&Row { rt: &rt, row }, &trace, printed);
    }
}

#[test]
fn a_text_renews_the_writes(rt: HostRuntime) {
    let mut writer = SlowWriter::new(&rt, 1000, 0);
    let mut writes = IoLog::limited(0);
    expect_equal(&rt, send(&mut writer, &mut writes, WITHOUT_FIELDS), Ok(()));
    expect_equal(&rt, (writes.left(), writer.writes), (33_554_431, 1));
}
