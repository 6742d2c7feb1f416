//! Texts of traces, histories and dumps, of a command and of an answer, written up to a write that
//! fails.

use crate::expectations::{Row, expect_equal, expect_prefix};
use rh_dump::{Graph, read_dump, write_dump};
use rh_layout::{Command, Operand, Refusal, Reply, RootId};
use rh_replay::{History, Verdict, read_history, report, write_history};
use rh_trace::{Trace, Write, parse, print, write_answer, write_command};
use samples::devices::SlowWriter;
use samples::texts::{BESIDE_RAW, RIGHT, RIGHT_REPORT, WHOLE_CYCLE};
use std::process::Abort;

/// A command and an answer, with their texts.
const COMMAND: Command = Command::Store {
    obj: RootId { owner: 1, slot: 0 },
    field: 0,
    operand: Operand::Int(-5),
};

const COMMAND_TEXT: &[u8] = b"1 store 1.0 0 -5";

const ANSWER: Result<Reply, Refusal> = Err(Refusal::IntRange);

const ANSWER_TEXT: &[u8] = b"refused IntRange";

/// What is written as a text.
#[derive(Clone, Copy)]
enum Source<'a> {
    Trace(&'a Trace),
    History(&'a History),
    /// The report on a history that is legal, of three calls.
    Report(&'a History),
    Dump(&'a Graph),
    Command,
    Answer,
}

/// Writes the text of a source.
fn write(source: Source<'_>, writer: &mut SlowWriter) -> Result<(), Write> {
    match source {
        Source::Trace(trace) => print(trace, writer),
        Source::History(history) => write_history(history, writer),
        Source::Report(history) => report(history, &Verdict::Legal(3), writer),
        Source::Dump(graph) => write_dump(graph, writer),
        Source::Command => write_command(1, &COMMAND, writer),
        Source::Answer => write_answer(&ANSWER, writer),
    }
}

/// Ends the test unless a writer that fails at its nth write has the whole text, or it has failed
/// and has a shorter prefix.
fn expect_written(
    rt: &impl Abort,
    text: &[u8],
    writer: &SlowWriter,
    (nth, outcome): (u32, Result<(), Write>),
) {
    expect_prefix(rt, text, &writer.text);
    if writer.writes < nth {
        expect_equal(rt, (outcome, writer.text.len()), (Ok(()), text.len()));
    } else {
        assert!(rt; outcome.is_err() && writer.text.len() < text.len());
    }
}

/// Writes a text, three bytes a time, with a write that fails. Answers how many writes there were.
fn fail_at(rt: &(impl AllocGlobal + Abort), text: &[u8], source: Source<'_>, nth: u32) -> u32 {
    let mut writer = SlowWriter::new(rt, 3, nth);
    let outcome = write(source, &mut writer);
    expect_written(rt, text, &writer, (nth, outcome));
    writer.writes
}

/// Writes a text, each write failing in turn. Answers how many writes there are.
fn fail_each(rt: &(impl AllocGlobal + Abort), text: &[u8], source: Source<'_>) -> u32 {
    for nth in 1..1000u32 {
        let row = nth as usize;
        let writes = fail_at(&Row { rt, row }, text, source, nth);
        if writes < nth {
            return writes;
        }
    }
    0
}

/// Writes a text, each write failing in turn: there is one for three bytes or more.
fn fail_text(rt: &(impl AllocGlobal + Abort), text: &[u8], source: Source<'_>) {
    let writes = fail_each(rt, text, source);
    assert!(rt; writes as usize >= text.len() / 3);
}

/// Writes a trace, each write failing in turn.
fn fail_trace(rt: &(impl AllocGlobal + Abort)) {
    let trace = parse(rt.alloc(), WHOLE_CYCLE).ok().expect(rt, "a trace");
    fail_text(rt, WHOLE_CYCLE, Source::Trace(&trace));
}

/// Writes a history and a report on it, each write failing in turn.
fn fail_history(rt: &(impl AllocGlobal + Abort)) {
    let history = read_history(rt.alloc(), RIGHT).ok();
    let history = history.expect(rt, "a history");
    fail_text(rt, RIGHT, Source::History(&history));
    fail_text(rt, RIGHT_REPORT, Source::Report(&history));
}

/// Writes a dump, each write failing in turn.
fn fail_dump(rt: &(impl AllocGlobal + Abort)) {
    let graph = read_dump(rt.alloc(), &mut { BESIDE_RAW }).ok();
    let graph = graph.expect(rt, "a dump");
    fail_text(rt, BESIDE_RAW, Source::Dump(&graph));
}

#[test]
fn texts_are_written_up_to_a_failed_write(rt: HostRuntime) {
    fail_trace(&rt);
    fail_history(&rt);
    fail_dump(&rt);
    fail_text(&rt, COMMAND_TEXT, Source::Command);
    fail_text(&rt, ANSWER_TEXT, Source::Answer);
}
