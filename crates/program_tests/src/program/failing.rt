//! Each command of the program over texts that are cut, devices that fail, and memory that is
//! refused, at each place in turn.

use crate::expectations::{Row, ample, expect_bytes, expect_equal, expect_prefix, expect_refusals};
use crate::program::driving::{
    DOT, DRAW, DUMP, PACED, REPLAY, RUN, THREADS, is_refused, status_of,
};
use crate::texts::{STORED, STORED_HISTORY, TWO_FLIPS_ANSWERS, ended_lines};
use refusing::refused_in_turn;
use rh_cli::{Ask, PLAIN, Subcommand};
use samples::devices::{Broken, SlowReader, SlowWriter, Unflushed};
use samples::texts::{
    BESIDE_RAW, JOINED, JOINED_ANSWERS, RIGHT, RIGHT_REPORT, TWO_FLIPS, WHOLE_CYCLE,
    WHOLE_CYCLE_ANSWERS, WITHOUT_FIELDS, WITHOUT_FIELDS_ANSWERS, WRONG, WRONG_REPORT, add_numbered,
    repeated, without_last_line,
};
use std::process::Abort;
use std::sync::Wait;
use std::thread::Threads;

/// A paced run at a mark, a growing run in the words that it begins with, and runs in threads
/// beside no replicators and beside the most, with the most idle words.
const MARKED: Ask<'static> = Ask {
    subcommand: Subcommand::RunPaced { mark: Some(20) },
    file: "-",
    explain: false,
    out: None,
    views: PLAIN,
};

const GROWING: Ask<'static> = Ask {
    subcommand: Subcommand::RunGrowing { at_most: 29 },
    file: "-",
    explain: false,
    out: None,
    views: PLAIN,
};

const ALONE: Ask<'static> = Ask {
    subcommand: Subcommand::Threads {
        replicators: 0,
        idle: 0,
    },
    file: "-",
    explain: false,
    out: None,
    views: PLAIN,
};

const CROWDED: Ask<'static> = Ask {
    subcommand: Subcommand::Threads {
        replicators: 8,
        idle: 65_535,
    },
    file: "-",
    explain: false,
    out: None,
    views: PLAIN,
};

/// Paths to an object of a dump, and to one that it hasn't.
const WHY: Ask<'static> = Ask {
    subcommand: Subcommand::Why { object: 1 },
    file: "-",
    explain: false,
    out: None,
    views: PLAIN,
};

const WHY_NOT: Ask<'static> = Ask {
    subcommand: Subcommand::Why { object: 2 },
    file: "-",
    explain: false,
    out: None,
    views: PLAIN,
};

/// The answers of a paced run of the two flips' trace at that mark, and of that growing run. Cycles
/// begin earlier there, so that there are three.
const EARLIER_ANSWERS: &[u8] =
    b"object 2\nobject 2\nobject 2\nobject 2\nobject 2\nobject 2\nobject 2\nobject 2\n\
        object 2\nobject 2\nobject 2\ntotal commands 11 refused 0 flips 3 rootwords 3\n";

/// The dump of an object that refers to itself, in the version before.
const ITSELF: &[u8] = b"rheap 1\nroots 1\n1.0 @0\nobjects 1\n@0 1 @0\nend\n";

/// The dump of an object beside a raw one, as a text for Graphviz.
const BESIDE_RAW_GRAPH: &[u8] = b"digraph rheap { rankdir=LR\n\
{ rank=source \"0.3\" [shape=box label=\"0.3 @0\"] }\n\"0.3\" -> \"@0\"\n\
{ rank=source \"1.0\" [shape=box label=\"1.0 -7\"] }\n\
\"@0\" [shape=record label=\"@0|<0>@1|<1>nil|<2>@0|<3>5\"]\n\
\"@0\":0 -> \"@1\"\n\"@0\":2 -> \"@0\"\n\
\"@1\" [shape=Mrecord label=\"@1|<0>5|<1>nil\"]\n}\n";

/// What is asked, of which text, the status, and what is written.
const PLAYED: &[(Ask<'static>, &[u8], u8, &[u8])] = &[
    (RUN, WITHOUT_FIELDS, 0, WITHOUT_FIELDS_ANSWERS),
    (RUN, WHOLE_CYCLE, 0, WHOLE_CYCLE_ANSWERS),
    (RUN, JOINED, 0, JOINED_ANSWERS),
    (PACED, TWO_FLIPS, 0, TWO_FLIPS_ANSWERS),
    (MARKED, TWO_FLIPS, 0, EARLIER_ANSWERS),
    (GROWING, TWO_FLIPS, 0, EARLIER_ANSWERS),
    (THREADS, STORED, 0, STORED_HISTORY),
    (ALONE, STORED, 0, STORED_HISTORY),
    (CROWDED, STORED, 0, STORED_HISTORY),
    (REPLAY, RIGHT, 0, RIGHT_REPORT),
    (REPLAY, WRONG, 4, WRONG_REPORT),
    (DUMP, ITSELF, 0, b"roots 1 objects 1\n"),
    (DUMP, BESIDE_RAW, 0, b"roots 2 objects 2\n"),
    (DOT, BESIDE_RAW, 0, BESIDE_RAW_GRAPH),
    (WHY, BESIDE_RAW, 0, b"0.3 @0\n@0 0 @1\n"),
    (WHY_NOT, BESIDE_RAW, 0, b"@2 isn't reached\n"),
];

/// All of these. The table is named here alone, since a proof writes it out wherever it is named.
fn all_played() -> &'static [(Ask<'static>, &'static [u8], u8, &'static [u8])] {
    PLAYED
}

/// Does what is asked with a text that comes a byte a time, where the reads and writes fail that
/// are counted so, at 0 none, and so many bytes of a write are taken. Answers the status, what was
/// written, how often, and what was told.
fn play<R: AllocGlobal + Abort + Threads + Wait + Sync>(
    rt: &R,
    ask: &Ask<'_>,
    text: &[u8],
    (read, write, most): (u32, u32, usize),
) -> (u8, SlowWriter, Vec<u8>) {
    let mut reader = SlowReader::new(text, read);
    let mut out = SlowWriter::new(rt, most, write);
    let mut err = Vec::new(rt.alloc());
    let status = status_of(rt, rt.alloc(), ask, &mut reader, &mut out, &mut err);
    (status, out, err)
}

/// Fails each write in turn, of which so many bytes are taken: one, or more than any write has.
/// Answers how many writes there are.
fn fail_writes<R: AllocGlobal + Abort + Threads + Wait + Sync>(
    rt: &R,
    played: &(Ask<'static>, &[u8], u8, &[u8]),
    most: usize,
) -> u32 {
    for nth in 1..1000u32 {
        let row = nth as usize;
        let rt = &Row { rt, row };
        let (ended, out, err) = play(rt, &played.0, played.1, (0, nth, most));
        let writes = out.writes;
        if writes < nth {
            expect_equal(rt, (ended, err.len()), (played.2, 0));
            expect_bytes(rt, &out.text, played.3);
            return writes;
        }
        expect_failed_write(rt, played.3, (ended, &out, &err), nth);
        if played.0.subcommand == Subcommand::Run && most > 1 {
            expect_lines_before(rt, &out.text, nth);
        }
    }
    0
}

/// Expects that this write is the last, and failed: then not all of the answers are written.
fn expect_failed_write(
    rt: &impl Abort,
    answers: &[u8],
    (ended, out, err): (u8, &SlowWriter, &[u8]),
    nth: u32,
) {
    expect_equal(rt, (ended, out.writes), (1, nth));
    assert!(rt; answers.starts_with(&out.text) && out.text.len() < answers.len());
    expect_bytes(rt, err, b"rheap: write failed\n");
}

/// Expects of a run without a pace the whole lines that come before this one, counted from 1.
fn expect_lines_before(rt: &impl Abort, text: &[u8], line: u32) {
    expect_equal(rt, ended_lines(text).saturating_add(1), line as usize);
    assert!(rt; text.is_empty() || text.ends_with(b"\n"));
}

/// Takes no byte of a write, and expects that it failed.
fn expect_untaken<R: AllocGlobal + Abort + Threads + Wait + Sync>(
    rt: &R,
    played: &(Ask<'static>, &[u8], u8, &[u8]),
) {
    let (status, out, err) = play(rt, &played.0, played.1, (0, 0, 0));
    expect_equal(rt, (status, out.writes, out.text.len()), (1, 1, 0));
    expect_bytes(rt, &err, b"rheap: write failed\n");
}

/// Fails each write of each of these in turn, and takes no byte of the first.
fn fail_each_write<R: AllocGlobal + Abort + Threads + Wait + Sync>(
    rt: &R,
    table: &[(Ask<'static>, &[u8], u8, &[u8])],
) {
    for (row, played) in table.iter().enumerate() {
        let rt = Row { rt, row };
        let writes = fail_writes(&rt, played, 1000);
        assert!(rt; 0 < writes);
        if played.0.subcommand == Subcommand::Run {
            // Its lines each come in one write.
            expect_equal(&rt, writes as usize, ended_lines(played.3));
        }
        expect_equal(&rt, fail_writes(&rt, played, 1) as usize, played.3.len());
        expect_untaken(&rt, played);
    }
}

#[test]
fn each_write_fails_in_turn(rt: HostRuntime) {
    fail_each_write(&rt, all_played());
}

/// Does what is asked where the flush fails, and expects that a write failed.
fn expect_unflushed<R: AllocGlobal + Abort + Threads + Wait + Sync>(
    rt: &R,
    ask: &Ask<'_>,
    text: &[u8],
) {
    let mut reader = text;
    let mut err = Vec::new(rt.alloc());
    let status = status_of(rt, rt.alloc(), ask, &mut reader, &mut Unflushed, &mut err);
    expect_equal(rt, status, 1);
    expect_bytes(rt, &err, b"rheap: write failed\n");
}

/// Does what is asked where nothing can be read or told, and expects the status all the same.
fn expect_untold<R: AllocGlobal + Abort + Threads + Wait + Sync>(rt: &R, ask: &Ask<'_>) {
    let mut out = Vec::new(rt.alloc());
    let status = status_of(rt, rt.alloc(), ask, &mut Broken, &mut out, &mut Broken);
    expect_equal(rt, (status, out.len()), (1, 0));
}

/// Does each of these with devices that fail. Answers how many there are.
fn fail_devices<R: AllocGlobal + Abort + Threads + Wait + Sync>(
    rt: &R,
    table: &[(Ask<'static>, &[u8], u8, &[u8])],
) -> u32 {
    let mut failed: u32 = 0;
    for (row, &(ask, text, ..)) in table.iter().enumerate() {
        let rt = Row { rt, row };
        expect_unflushed(&rt, &ask, text);
        expect_untold(&rt, &ask);
        failed = failed.saturating_add(1);
    }
    failed
}

#[test]
fn devices_that_fail(rt: HostRuntime) {
    expect_equal(&rt, fail_devices(&rt, all_played()), 16);
    expect_unflushed(&rt, &DRAW, WHOLE_CYCLE);
    expect_untold(&rt, &DRAW);
}

/// The first eight reads of a text that comes a byte a time, and the two after its last byte.
fn some_reads(text: &[u8]) -> [u32; 10] {
    let last = u32::try_from(text.len()).unwrap_or(0).saturating_mul(2);
    let (next, end) = (last.saturating_add(1), last.saturating_add(2));
    [1, 2, 3, 4, 5, 6, 7, 8, next, end]
}

/// Fails this read, and expects that this is told, and nothing is written.
fn expect_failed_read<R: AllocGlobal + Abort + Threads + Wait + Sync>(
    rt: &R,
    played: &(Ask<'static>, &[u8], u8, &[u8]),
    nth: u32,
) {
    let (status, out, err) = play(rt, &played.0, played.1, (nth, 0, 1000));
    expect_equal(rt, (status, out.writes), (1, 0));
    expect_bytes(rt, &err, b"rheap: read failed\n");
}

/// Fails some reads of what is played. Answers how many.
fn fail_reads<R: AllocGlobal + Abort + Threads + Wait + Sync>(
    rt: &R,
    played: &(Ask<'static>, &[u8], u8, &[u8]),
) -> u32 {
    let mut failed: u32 = 0;
    for nth in some_reads(played.1) {
        let row = nth as usize;
        expect_failed_read(&Row { rt, row }, played, nth);
        failed = failed.saturating_add(1);
    }
    failed
}

/// Fails some reads of each of these. Answers how many.
fn fail_reads_of_each<R: AllocGlobal + Abort + Threads + Wait + Sync>(
    rt: &R,
    table: &[(Ask<'static>, &[u8], u8, &[u8])],
) -> u32 {
    let mut failed: u32 = 0;
    for (row, played) in table.iter().enumerate() {
        failed = failed.saturating_add(fail_reads(&Row { rt, row }, played));
    }
    failed
}

#[test]
fn first_and_last_reads_fail(rt: HostRuntime) {
    expect_equal(&rt, fail_reads_of_each(&rt, all_played()), 160);
}

/// What is asked, of which text, what is wrong with it where it is cut: before its first byte,
/// within a line, and after a line, where it may be whole; and then the answers to the whole text.
const CUT: &[(Ask<'static>, &[u8], [&str; 3], &[u8])] = &[
    (RUN, WHOLE_CYCLE, ["Empty", "Cut", ""], WHOLE_CYCLE_ANSWERS),
    (PACED, TWO_FLIPS, ["Empty", "Cut", ""], TWO_FLIPS_ANSWERS),
    (GROWING, TWO_FLIPS, ["Empty", "Cut", ""], EARLIER_ANSWERS),
    (THREADS, STORED, ["Empty", "Cut", ""], STORED_HISTORY),
    (REPLAY, RIGHT, ["Empty", "Cut", "End"], b""),
    (DUMP, ITSELF, ["End", "End", "End"], b""),
    (DUMP, BESIDE_RAW, ["End", "End", "End"], b""),
];

/// Does what is asked with a text that was cut, and expects what is wrong with it, if anything, to
/// be told of the line after those that have ended. Answers whether something was wrong.
fn is_cut<R: AllocGlobal + Abort + Threads + Wait + Sync>(
    rt: &R,
    &(ask, whole, kinds, answers): &(Ask<'static>, &[u8], [&str; 3], &[u8]),
    text: &[u8],
) -> bool {
    let kind = match text.last() {
        None => kinds[0],
        Some(b'\n') => kinds[2],
        Some(_) => kinds[1],
    };
    let (status, out, err) = play(rt, &ask, text, (0, 0, 1000));
    if kind.is_empty() {
        let left_out = ended_lines(whole).saturating_sub(ended_lines(text));
        expect_whole(rt, (status, &out, &err), answers, left_out);
    } else {
        let line = ended_lines(text).saturating_add(1);
        expect_cut(rt, (status, &out, &err), line, kind);
    }
    !kind.is_empty()
}

/// Expects a text that was cut to be whole, and to have so many answers less.
fn expect_whole(
    rt: &impl Abort,
    (status, out, err): (u8, &SlowWriter, &[u8]),
    answers: &[u8],
    left_out: usize,
) {
    expect_equal(rt, (status, err.len()), (0, 0));
    expect_fewer(rt, answers, &out.text, left_out);
}

/// Expects a text that was cut to have this fault, and nothing to be written.
fn expect_cut<R: AllocGlobal + Abort>(
    rt: &R,
    (status, out, err): (u8, &SlowWriter, &[u8]),
    line: usize,
    kind: &str,
) {
    expect_equal(rt, (status, out.writes), (1, 0));
    expect_fault(rt, err, line, kind);
}

/// Expects so many answers less, of which the others stay, but for the last line.
fn expect_fewer(rt: &impl Abort, answers: &[u8], text: &[u8], left_out: usize) {
    expect_prefix(rt, answers, without_last_line(text));
    let answered = ended_lines(answers).saturating_sub(left_out);
    expect_equal(rt, ended_lines(text), answered);
}

/// Expects this fault to be told of this line.
fn expect_fault<R: AllocGlobal + Abort>(rt: &R, err: &[u8], line: usize, kind: &str) {
    let told = ample(rt, format!(in rt.alloc(); "rheap: line {line}: {kind}\n"));
    expect_bytes(rt, err, told.as_bytes());
}

/// Cuts each of these texts after each of its bytes.
fn cut_each<R: AllocGlobal + Abort + Threads + Wait + Sync>(
    rt: &R,
    table: &[(Ask<'static>, &[u8], [&str; 3], &[u8])],
) {
    for (row, asked) in table.iter().enumerate() {
        let text = asked.1;
        let mut cut: usize = 0;
        let mut whole: usize = 0;
        for count in 0..text.len() {
            let at = Row { rt, row: count };
            if is_cut(&at, asked, &text[..count]) {
                cut = cut.saturating_add(1);
            } else {
                whole = whole.saturating_add(1);
            }
        }
        let runs = if asked.2[2].is_empty() {
            ended_lines(text).saturating_sub(1)
        } else {
            0
        };
        let rt = Row { rt, row };
        expect_equal(&rt, (whole, cut), (runs, text.len().saturating_sub(runs)));
    }
}

#[test]
fn texts_are_cut_after_each_byte(rt: HostRuntime) {
    cut_each(&rt, CUT);
}

/// Refuses each allocation in turn, and expects so many refusals or more, and this to be told where
/// there is none.
fn refuse<R: AllocGlobal + Abort + Threads + Wait + Sync>(
    rt: &R,
    asked: &(Ask<'static>, &[u8], u8, &[u8]),
    told: &[u8],
    least: u64,
) {
    let refused = refused_in_turn(rt.alloc(), |memory| is_refused(rt, memory, asked, told));
    expect_refusals(rt, refused, least);
}

/// What is asked, of which faulty text, and what is told.
const FAULTY: &[(Ask<'static>, &[u8], &[u8])] = &[
    (
        RUN,
        b"heap 16 8 4 2 2\n1 drop 1.0\n1 grow 1.0\n",
        b"rheap: line 3: Word\n",
    ),
    (
        RUN,
        b"heap 7 8 8 2 2\n1 drop 1.0\n",
        b"rheap: heap: BadSpace\n",
    ),
    (
        PACED,
        b"heap 29 8 8 2 2\n1 drop 1.0\nstat\n",
        b"rheap: line 3: Word\n",
    ),
    (
        PACED,
        b"heap 28 8 8 2 2\n1 alloc 1.0 2\n",
        b"rheap: pace: TooSmall need 29\n",
    ),
    (
        GROWING,
        b"heap 30 8 8 2 2\n1 alloc 1.0 2\n",
        b"rheap: grow: BadLimits\n",
    ),
    (
        THREADS,
        b"heap 64 8 8 2 2\n1 drop 1.0\n2 drop 1.0\n",
        b"rheap: line 3: Root\n",
    ),
    (
        REPLAY,
        b"history 2 2\n1 drop 1.0 = done\n",
        b"rheap: line 3: End\n",
    ),
    (
        DUMP,
        b"rheap 2\nroots 1\n1.0 @0\nobjects 1\n@0 1 @0\n",
        b"rheap: line 6: End\n",
    ),
];

/// Refuses each allocation of each of these. Answers how many there are.
fn refuse_each<R: AllocGlobal + Abort + Threads + Wait + Sync>(
    rt: &R,
    table: &[(Ask<'static>, &[u8], u8, &[u8])],
) -> u32 {
    let mut refused: u32 = 0;
    for (row, played) in table.iter().enumerate() {
        refuse(&Row { rt, row }, played, b"", 3);
        refused = refused.saturating_add(1);
    }
    refused
}

/// The same of faulty texts.
fn refuse_faulty<R: AllocGlobal + Abort + Threads + Wait + Sync>(
    rt: &R,
    table: &[(Ask<'static>, &[u8], &[u8])],
) -> u32 {
    let mut refused: u32 = 0;
    for (row, &(ask, text, told)) in table.iter().enumerate() {
        refuse(&Row { rt, row }, &(ask, text, 1, b""), told, 1);
        refused = refused.saturating_add(1);
    }
    refused
}

#[test]
fn each_allocation_is_refused(rt: HostRuntime) {
    expect_equal(&rt, refuse_each(&rt, all_played()), 16);
    expect_equal(&rt, refuse_faulty(&rt, FAULTY), 8);
}

/// Sizes around those at which vectors grow.
const SIZES: &[u32] = &[1, 2, 3, 4, 8, 9, 64, 65, 1024];

/// A text that begins and ends so, with so many times the same between.
fn lines<R: AllocGlobal + Abort>(
    rt: &R,
    first: &[u8],
    next: &[u8],
    size: u32,
    last: &str,
) -> Vec<u8> {
    let mut text = ample(rt, repeated(rt, first, next, size));
    ample(rt, text.extend_from_slice(last.as_bytes()));
    text
}

/// The answers to so many drops.
fn answers_to_drops<R: AllocGlobal + Abort>(rt: &R, size: u32) -> Vec<u8> {
    let total = format!(in rt.alloc(); "total commands {size} refused 0 flips 0 rootwords 0\n");
    lines(rt, b"", b"done\n", size, &ample(rt, total))
}

/// The history of so many drops.
fn history_of_drops<R: AllocGlobal + Abort>(rt: &R, size: u32) -> Vec<u8> {
    let end = format!(in rt.alloc(); "end {size}\n");
    let next = b"1 drop 1.0 = done\n";
    lines(rt, b"history 2 2\n", next, size, &ample(rt, end))
}

/// Refuses each allocation of runs over a trace of so many drops, with and without a pace.
fn refuse_runs<R: AllocGlobal + Abort + Threads + Wait + Sync>(rt: &R, trace: &[u8], size: u32) {
    let answers = answers_to_drops(rt, size);
    refuse(rt, &(RUN, trace, 0, &answers), b"", 3);
    refuse(rt, &(PACED, trace, 0, &answers), b"", 3);
}

/// Refuses each allocation of a check of a history of so many calls.
fn refuse_check<R: AllocGlobal + Abort + Threads + Wait + Sync>(rt: &R, history: &[u8], size: u32) {
    let legal = format!(in rt.alloc(); "owner 1 calls {size}\nlegal {size}\n");
    let legal = ample(rt, legal);
    refuse(rt, &(REPLAY, history, 0, legal.as_bytes()), b"", 3);
}

/// Refuses each allocation of runs over a trace of so many lines, and of a check of its history.
fn refuse_lines<R: AllocGlobal + Abort + Threads + Wait + Sync>(rt: &R, size: u32) {
    let trace = lines(rt, b"heap 64 8 8 2 2\n", b"1 drop 1.0\n", size, "");
    refuse_runs(rt, &trace, size);
    let history = history_of_drops(rt, size);
    refuse(rt, &(THREADS, &trace, 0, &history), b"", 10);
    refuse_check(rt, &history, size);
}

/// How the dump of an object that refers to so many others begins.
fn begun_dump<R: AllocGlobal + Abort>(rt: &R, size: u32) -> Vec<u8> {
    let objects = size.saturating_add(1);
    let first = format!(in rt.alloc(); "rheap 1\nroots 1\n1.0 @0\nobjects {objects}\n@0 {size}");
    lines(rt, b"", b"", 0, &ample(rt, first))
}

/// Adds the references of the first object, the others, and the end.
fn add_objects<R: AllocGlobal + Abort>(rt: &R, dump: &mut Vec<u8>, size: u32) {
    ample(rt, add_numbered(rt, dump, size, (" @", "")));
    ample(rt, dump.extend_from_slice(b"\n"));
    ample(rt, add_numbered(rt, dump, size, ("@", " 0\n")));
    ample(rt, dump.extend_from_slice(b"end\n"));
}

/// The dump of an object that refers to so many others.
fn wide_dump<R: AllocGlobal + Abort>(rt: &R, size: u32) -> Vec<u8> {
    let mut dump = begun_dump(rt, size);
    add_objects(rt, &mut dump, size);
    dump
}

/// Refuses each allocation of reading the dump of an object that refers to so many others.
fn refuse_dump<R: AllocGlobal + Abort + Threads + Wait + Sync>(rt: &R, size: u32) {
    let dump = wide_dump(rt, size);
    let objects = size.saturating_add(1);
    let counts = ample(rt, format!(in rt.alloc(); "roots 1 objects {objects}\n"));
    refuse(rt, &(DUMP, &dump, 0, counts.as_bytes()), b"", 3);
}

#[test]
fn each_allocation_is_refused_at_sizes(rt: HostRuntime) {
    let mut sizes: u32 = 0;
    for (row, &size) in SIZES.iter().enumerate() {
        let rt = Row { rt: &rt, row };
        refuse_lines(&rt, size);
        refuse_dump(&rt, size);
        sizes = sizes.saturating_add(1);
    }
    expect_equal(&rt, sizes, 9);
}
