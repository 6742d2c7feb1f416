//! What is asked for, seen in other ways: what goes to each of the writers.

use crate::expectations::{Row, expect_bytes, expect_equal, expect_prefix, expect_refusals};
use crate::texts::{STORED, STORED_HISTORY, TWO_FLIPS_ANSWERS};
use refusing::refused_in_turn;
use rh_cli::{
    Ask, KeptReader, Subcommand, Telling, ViewLog, Views, Writers, drive_viewed, reads_for, writers,
};
use rh_cycle_events::lines_or_events;
use rh_text::IoLog;
use samples::devices::Unflushed;
use samples::texts::{
    COLUMNS, RIGHT, TWO_FLIPS, WHOLE_CYCLE, WHOLE_CYCLE_ANSWERS, WITHOUT_FIELDS, WRONG,
    WRONG_REPORT,
};
use std::alloc::Allocator;
use std::io::{self, Write};
use std::process::Abort;
use std::sync::Wait;
use std::thread::Threads;

/// A request that is told so.
fn told(subcommand: Subcommand, telling: Telling) -> Ask<'static> {
    Ask {
        subcommand,
        file: "-",
        explain: false,
        out: None,
        views: Views {
            events: false,
            telling,
            cycles: None,
            history: None,
        },
    }
}

/// What the trace of a store is told as, with each line.
const STORED_ECHO: &[u8] =
    b"2\t1 alloc 1.0 1\tobject 1\n3\t1 store 1.0 0 5\tdone\n4\t1 load 1.1 1.0 0\tint 5\ntotal commands 3 refused 0 flips 0 rootwords 0\n";

/// And as objects of JSON.
const STORED_JSON: &[u8] =
    b"{\"line\":2,\"text\":\"1 alloc 1.0 1\",\"answer\":\"object 1\"}\n{\"line\":3,\"text\":\"1 store 1.0 0 5\",\"answer\":\"done\"}\n{\"line\":4,\"text\":\"1 load 1.1 1.0 0\",\"answer\":\"int 5\"}\n{\"total\":{\"commands\":3,\"refused\":0,\"flips\":0,\"rootwords\":0}}\n";

/// What the first line of a text of cycles is followed by, of `WHOLE_CYCLE`, and of `TWO_FLIPS` on a
/// heap that collects by itself.
const WHOLE_CYCLE_LINE: &[u8] =
    b"1\tflipped\t1\t3\t10\t4\t7\t0\t2\t24\t0\t15\t6\t1\t3\t0\t0\t0\t16\n";

const TWO_FLIPS_LINES: &[u8] =
    b"1\tflipped\t1\t6\t7\t20\t4\t20\t1\t32\t0\t9\t9\t0\t-\t-\t-\t-\t29\n\
        2\tflipped\t2\t11\t12\t20\t4\t20\t1\t32\t0\t9\t9\t0\t-\t-\t-\t-\t29\n";

/// What `TWO_FLIPS` is answered on a heap that may grow, which begins its cycles earlier, and the
/// lines of these.
const GROWN_ANSWERS: &[u8] =
    b"object 2\nobject 2\nobject 2\nobject 2\nobject 2\nobject 2\nobject 2\nobject 2\n\
        object 2\nobject 2\nobject 2\ntotal commands 11 refused 0 flips 3 rootwords 3\n";

const GROWN_LINES: &[u8] = b"1\tflipped\t1\t4\t5\t12\t4\t12\t1\t32\t0\t9\t9\t0\t-\t-\t-\t-\t29\n\
        2\tflipped\t2\t7\t8\t12\t4\t12\t1\t32\t0\t9\t9\t0\t-\t-\t-\t-\t29\n\
        3\tflipped\t3\t10\t11\t12\t4\t12\t1\t32\t0\t9\t9\t0\t-\t-\t-\t-\t29\n";

/// The history of `WHOLE_CYCLE`.
const WHOLE_CYCLE_HISTORY: &[u8] = b"history 2 2\n1 alloc 1.0 2 = object 2\n\
        1 alloc 1.1 1 = object 1\n1 store 1.0 0 1.1 = done\nend 3\n";

/// The history of `TWO_FLIPS`.
const TWO_FLIPS_HISTORY: &[u8] = b"history 2 2\n\
        1 alloc 1.0 2 = object 2\n1 alloc 1.0 2 = object 2\n1 alloc 1.0 2 = object 2\n\
        1 alloc 1.0 2 = object 2\n1 alloc 1.0 2 = object 2\n1 alloc 1.0 2 = object 2\n\
        1 alloc 1.0 2 = object 2\n1 alloc 1.0 2 = object 2\n1 alloc 1.0 2 = object 2\n\
        1 alloc 1.0 2 = object 2\n1 alloc 1.0 2 = object 2\nend 11\n";

/// What a subcommand does with a text: the status, and what goes to standard output, to the history,
/// to the lines of cycles, and to standard error.
type Viewed = (Subcommand, Telling, &'static [u8], u8, [&'static [u8]; 4]);

/// A dump of two objects.
const COUNTED: &[u8] = b"rheap 2\nroots 1\n1.0 @0\nobjects 2\n@0 1 @1\n@1 0\nend\n";

/// What is asked for and viewed, and what comes of it.
const VIEWED: &[Viewed] = &[
    (
        Subcommand::Run,
        Telling::Echo,
        STORED,
        0,
        [STORED_ECHO, STORED_HISTORY, COLUMNS, b""],
    ),
    (
        Subcommand::RunPaced { mark: Some(0) },
        Telling::Json,
        STORED,
        0,
        [STORED_JSON, STORED_HISTORY, COLUMNS, b""],
    ),
    (
        Subcommand::RunGrowing { at_most: 4096 },
        Telling::Echo,
        STORED,
        0,
        [STORED_ECHO, STORED_HISTORY, COLUMNS, b""],
    ),
    (
        Subcommand::Run,
        Telling::Json,
        b"heap 64 8 16 2 2\n1 aloc 1.0 2\n",
        1,
        [
            b"",
            b"",
            b"",
            b"{\"fault\":\"line 2: Word\",\"line\":2,\"kind\":\"Word\"}\n",
        ],
    ),
    (
        Subcommand::Run,
        Telling::Json,
        b"heap 7 8 16 2 2\n",
        1,
        [b"", b"", b"", b"{\"fault\":\"heap: BadSpace\"}\n"],
    ),
    (
        Subcommand::Run,
        Telling::Echo,
        b"heap 7 8 16 2 2\n",
        1,
        [b"", b"", b"", b"rheap: heap: BadSpace\n"],
    ),
    (
        Subcommand::Run,
        Telling::Echo,
        b"",
        1,
        [b"", b"", b"", b"rheap: line 1: Empty\n"],
    ),
    // A fault in the last line: nothing is written of the lines before it.
    (
        Subcommand::RunPaced { mark: None },
        Telling::Json,
        b"heap 64 8 16 2 2\n1 alloc 1.0 2\n1 alloc 1.1 1",
        1,
        [
            b"",
            b"",
            b"",
            b"{\"fault\":\"line 3: Cut\",\"line\":3,\"kind\":\"Cut\"}\n",
        ],
    ),
    (
        Subcommand::RunPaced { mark: None },
        Telling::Json,
        WITHOUT_FIELDS,
        1,
        [b"", b"", b"", b"{\"fault\":\"pace: TooSmall need 17\"}\n"],
    ),
    (
        Subcommand::RunGrowing { at_most: 15 },
        Telling::Json,
        WITHOUT_FIELDS,
        1,
        [b"", b"", b"", b"{\"fault\":\"grow: BadLimits\"}\n"],
    ),
    (
        Subcommand::Replay,
        Telling::Json,
        b"history 2 2\n1 drop 1.0 = dome\nend 1\n",
        1,
        [
            b"",
            b"",
            b"",
            b"{\"fault\":\"line 2: Answer\",\"line\":2,\"kind\":\"Answer\"}\n",
        ],
    ),
    (
        Subcommand::Replay,
        Telling::Json,
        RIGHT,
        0,
        [b"{\"owner\":1,\"calls\":3}\n{\"legal\":3}\n", b"", b"", b""],
    ),
    (
        Subcommand::Replay,
        Telling::Echo,
        RIGHT,
        0,
        [b"owner 1 calls 3\nlegal 3\n", b"", b"", b""],
    ),
    (
        Subcommand::Replay,
        Telling::Echo,
        WRONG,
        4,
        [
            b"owner 1 calls 2\nwrong 2 expected refused NoRoot\n3\t1 drop 2.0\tdone\n",
            b"",
            b"",
            b"",
        ],
    ),
    (
        Subcommand::Replay,
        Telling::Json,
        WRONG,
        4,
        [
            b"{\"owner\":1,\"calls\":2}\n{\"wrong\":2,\"expected\":\"refused NoRoot\"}\n",
            b"",
            b"",
            b"",
        ],
    ),
    (
        Subcommand::Replay,
        Telling::Answers,
        WRONG,
        4,
        [WRONG_REPORT, b"", b"", b""],
    ),
    (
        Subcommand::Dump,
        Telling::Json,
        COUNTED,
        0,
        [b"{\"roots\":1,\"objects\":2}\n", b"", b"", b""],
    ),
    (
        Subcommand::Dump,
        Telling::Echo,
        COUNTED,
        0,
        [b"roots 1 objects 2\n", b"", b"", b""],
    ),
    (
        Subcommand::Dump,
        Telling::Json,
        b"rheap 2\nroots x\n",
        1,
        [
            b"",
            b"",
            b"",
            b"{\"fault\":\"line 2: Number\",\"line\":2,\"kind\":\"Number\"}\n",
        ],
    ),
];

/// What was written to each of the four writers.
#[derive(Drop)]
struct Written {
    out: Vec<u8>,
    history: Vec<u8>,
    cycles: Vec<u8>,
    err: Vec<u8>,
}

/// Does what is asked with these four writers, and answers the status. No test needs what
/// `drive_viewed` promises beside it.
fn status_of_view<R, A>(
    rt: &R,
    memory: A,
    ask: &Ask<'_>,
    text: &[u8],
    out: &mut Writers<Vec<u8>, Vec<u8>, Vec<u8>>,
    err: &mut Vec<u8>,
) -> u8
where
    R: Threads + Wait + Sync,
    A: Allocator + Copy + Send,
{
    let mut reader = KeptReader::passing(memory, text);
    let mut log = ViewLog::new(reads_for(ask.subcommand));
    drive_viewed(rt, memory, ask, &mut reader, &mut log, out, err, false)
}

/// Does what is asked with a text, and answers the status and what was written.
fn viewed<R, A>(rt: &R, memory: A, ask: &Ask<'_>, text: &[u8]) -> (u8, Written)
where
    R: AllocGlobal + Abort + Threads + Wait + Sync,
    A: Allocator + Copy + Send,
{
    let alloc = rt.alloc();
    let mut out = writers(Vec::new(alloc), Vec::new(alloc), Vec::new(alloc));
    let mut err = Vec::new(alloc);
    let status = status_of_view(rt, memory, ask, text, &mut out, &mut err);
    let written = Written {
        out: out.first,
        history: out.second.first,
        cycles: out.second.second,
        err,
    };
    (status, written)
}

/// Does what is asked, and expects this status and what goes to each writer.
fn expect_viewed<R: AllocGlobal + Abort + Threads + Wait + Sync>(
    rt: &R,
    &(subcommand, telling, text, due, texts): &Viewed,
) {
    let ask = told(subcommand, telling);
    let (status, written) = viewed(rt, rt.alloc(), &ask, text);
    expect_equal(rt, status, due);
    expect_bytes(rt, &written.out, texts[0]);
    expect_bytes(rt, &written.history, texts[1]);
    expect_bytes(rt, &written.cycles, texts[2]);
    expect_bytes(rt, &written.err, texts[3]);
}

/// The same of each of these.
fn expect_each_viewed<R: AllocGlobal + Abort + Threads + Wait + Sync>(rt: &R, views: &[Viewed]) {
    for (row, view) in views.iter().enumerate() {
        expect_viewed(&Row { rt, row }, view);
    }
}

#[test]
fn each_view_goes_to_its_writer(rt: HostRuntime) {
    expect_each_viewed(&rt, VIEWED);
}

/// Runs with cycles: of each the texts that go to standard output and to the history, and the lines
/// of its cycles.
const WITH_CYCLES: &[(Subcommand, &[u8], [&[u8]; 3])] = &[
    (
        Subcommand::Run,
        WHOLE_CYCLE,
        [WHOLE_CYCLE_ANSWERS, WHOLE_CYCLE_HISTORY, WHOLE_CYCLE_LINE],
    ),
    (
        Subcommand::RunPaced { mark: None },
        TWO_FLIPS,
        [TWO_FLIPS_ANSWERS, TWO_FLIPS_HISTORY, TWO_FLIPS_LINES],
    ),
    (
        Subcommand::RunGrowing { at_most: 64 },
        TWO_FLIPS,
        [GROWN_ANSWERS, TWO_FLIPS_HISTORY, GROWN_LINES],
    ),
];

/// Expects this text of cycles after the columns.
fn expect_cycles(rt: &impl Abort, cycles: &[u8], due: &[u8]) {
    expect_prefix(rt, cycles, COLUMNS);
    expect_bytes(rt, cycles.strip_prefix(COLUMNS).unwrap_or(b""), due);
}

/// Does what is asked, and expects that it is done, its texts, and that nothing is told.
fn expect_with_cycles<R: AllocGlobal + Abort + Threads + Wait + Sync>(
    rt: &R,
    &(subcommand, text, texts): &(Subcommand, &[u8], [&[u8]; 3]),
) {
    let ask = told(subcommand, Telling::Answers);
    let (status, written) = viewed(rt, rt.alloc(), &ask, text);
    expect_equal(rt, status, 0);
    expect_bytes(rt, &written.out, texts[0]);
    expect_bytes(rt, &written.history, texts[1]);
    expect_cycles(rt, &written.cycles, texts[2]);
    expect_bytes(rt, &written.err, b"");
}

/// The same of each of these.
fn expect_each_with_cycles<R: AllocGlobal + Abort + Threads + Wait + Sync>(
    rt: &R,
    runs: &[(Subcommand, &[u8], [&[u8]; 3])],
) {
    for (row, run) in runs.iter().enumerate() {
        expect_with_cycles(&Row { rt, row }, run);
    }
}

#[test]
fn each_cycle_has_its_line(rt: HostRuntime) {
    expect_each_with_cycles(&rt, WITH_CYCLES);
}

/// Does what is asked with these writers, and answers the status and the log. No test needs what
/// `drive_viewed` promises beside them.
fn logged<R, O, H, C>(
    rt: &R,
    ask: &Ask<'_>,
    text: &[u8],
    out: &mut Writers<O, H, C>,
    err: &mut Vec<u8>,
) -> (u8, ViewLog)
where
    R: AllocGlobal + Threads + Wait + Sync,
    O: Write,
    H: Write,
    C: Write,
{
    let alloc = rt.alloc();
    let mut reader = KeptReader::passing(alloc, text);
    let mut log = ViewLog::new(IoLog::new());
    let status = drive_viewed(rt, alloc, ask, &mut reader, &mut log, out, err, false);
    (status, log)
}

/// Does what is asked with this text, and tells it to these writers, of which a flush fails. That is
/// a failed write. The log says what failed, and that each text was flushed.
fn expect_write_fault<R, O, H, C>(
    rt: &R,
    (subcommand, text, flushes): (Subcommand, &[u8], u64),
    out: &mut Writers<O, H, C>,
)
where
    R: AllocGlobal + Abort + Threads + Wait + Sync,
    O: Write,
    H: Write,
    C: Write,
{
    let mut err = Vec::new(rt.alloc());
    let ask = told(subcommand, Telling::Json);
    let (status, log) = logged(rt, &ask, text, out, &mut err);
    expect_equal(rt, status, 1);
    expect_equal(rt, log.has_flush_failed(), true);
    expect_equal(rt, log.flushes(), flushes);
    expect_bytes(rt, &err, b"{\"fault\":\"write failed\"}\n");
}

/// What is viewed, by its text, and how many texts are flushed.
const FLUSHED: &[(Subcommand, &[u8], u64)] = &[
    (Subcommand::Run, STORED, 3),
    (Subcommand::RunPaced { mark: None }, TWO_FLIPS, 3),
    (Subcommand::RunGrowing { at_most: 64 }, TWO_FLIPS, 3),
    (Subcommand::Replay, RIGHT, 1),
    (Subcommand::Replay, WRONG, 1),
    (Subcommand::Dump, COUNTED, 1),
];

/// Does each of these where the flush of standard output fails, and expects a failed write.
fn expect_flush_faults<R: AllocGlobal + Abort + Threads + Wait + Sync>(
    rt: &R,
    table: &[(Subcommand, &[u8], u64)],
) {
    for (row, &asked) in table.iter().enumerate() {
        let rt = Row { rt, row };
        let mut out = writers(Unflushed, io::sink(), io::sink());
        expect_write_fault(&rt, asked, &mut out);
    }
}

#[test]
fn a_failed_flush_of_each_writer_is_a_failed_write(rt: HostRuntime) {
    let run = (Subcommand::Run, STORED, 3);
    let mut out = writers(io::sink(), Unflushed, io::sink());
    expect_write_fault(&rt, run, &mut out);
    let mut out = writers(io::sink(), io::sink(), Unflushed);
    expect_write_fault(&rt, run, &mut out);
    let events = lines_or_events(Unflushed, true);
    let mut out = writers(io::sink(), io::sink(), events);
    expect_write_fault(&rt, run, &mut out);
    expect_flush_faults(&rt, FLUSHED);
}

/// Whether memory was refused. What is told is then a prefix, and no history is written.
fn is_refused<R, A>(rt: &R, memory: A) -> bool
where
    R: AllocGlobal + Abort + Threads + Wait + Sync,
    A: Allocator + Copy + Send,
{
    let ask = told(Subcommand::Run, Telling::Json);
    let (status, written) = viewed(rt, memory, &ask, STORED);
    if status == 3 {
        expect_refused(rt, &written);
    } else {
        expect_equal(rt, status, 0);
        expect_bytes(rt, &written.out, STORED_JSON);
        expect_bytes(rt, &written.history, STORED_HISTORY);
        expect_bytes(rt, &written.cycles, COLUMNS);
    }
    status == 3
}

/// Expects what is written where memory is refused.
fn expect_refused(rt: &impl Abort, written: &Written) {
    expect_prefix(rt, STORED_JSON, &written.out);
    expect_equal(rt, written.history.len(), 0);
    expect_prefix(rt, COLUMNS, &written.cycles);
    assert!(rt;
        written.err.starts_with(b"rheap: out of memory") || written.err.starts_with(b"{\"fault\"")
    );
}

#[test]
fn each_allocation_of_a_view_is_refused_in_turn(rt: HostRuntime) {
    let refused = refused_in_turn(rt.alloc(), |memory| is_refused(&rt, memory));
    expect_refusals(&rt, refused, 5);
}
