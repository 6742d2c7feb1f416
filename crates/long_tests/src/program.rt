//! Reads of the program that run out, and a trace and a dump that are too long.

use crate::expectations::{Row, ample, expect_bytes, expect_equal};
use rh_cli::{Ask, KeptReader, PLAIN, Subcommand, drive, drive_explained};
use samples::devices::InterruptedReader;
use samples::texts::repeated;
use std::io::Read;
use std::process::Abort;
use std::sync::Wait;
use std::thread::Threads;

/// Does as asked with what a reader gives. Answers the status, the bytes that are answered, and what
/// is told. No test needs what `drive` promises beside it.
fn driven<R: AllocGlobal + Threads + Wait + Sync, T: Read>(
    rt: &R,
    subcommand: Subcommand,
    reader: &mut T,
) -> (u8, usize, Vec<u8>) {
    let ask = Ask {
        subcommand,
        file: "-",
        explain: false,
        out: None,
        views: PLAIN,
    };
    let mut out = Vec::new(rt.alloc());
    let mut err = Vec::new(rt.alloc());
    let status = drive(rt, rt.alloc(), &ask, reader, &mut out, &mut err);
    (status, out.len(), err)
}

/// Does as asked where the read of this number, counted from 1, comes to the end, and each other is
/// interrupted. Expects status 1, so many reads, no answer, and what is told.
fn expect_reads<R: AllocGlobal + Abort + Threads + Wait + Sync>(
    rt: &R,
    subcommand: Subcommand,
    ends_at: u32,
    reads: u32,
    told: &[u8],
) {
    let mut reader = InterruptedReader { reads: 0, ends_at };
    let (status, answered, err) = driven(rt, subcommand, &mut reader);
    expect_equal(rt, (status, reader.reads, answered), (1, reads, 0));
    expect_bytes(rt, &err, told);
}

const THREADS: Subcommand = Subcommand::Threads {
    replicators: 2,
    idle: 0,
};

const PACED: Subcommand = Subcommand::RunPaced { mark: None };

const DRAW: Subcommand = Subcommand::Draw { line: None };

#[test]
fn reads_of_traces_and_histories_end(rt: HostRuntime) {
    let asked = [Subcommand::Run, PACED, THREADS, DRAW, Subcommand::Replay];
    for (row, &subcommand) in asked.iter().enumerate() {
        let rt = Row { rt: &rt, row };
        let empty = b"rheap: line 1: Empty\n";
        expect_reads(&rt, subcommand, 33_554_432, 33_554_432, empty);
        let failed = b"rheap: read failed\n";
        expect_reads(&rt, subcommand, 33_554_433, 33_554_432, failed);
    }
}

/// Expects that a trace is told as too long, and nothing is answered.
fn expect_too_long<R: AllocGlobal + Abort + Threads + Wait + Sync>(
    rt: &R,
    subcommand: Subcommand,
    mut text: &[u8],
) {
    let (status, answered, err) = driven(rt, subcommand, &mut text);
    expect_equal(rt, (status, answered), (1, 0));
    expect_bytes(rt, &err, b"rheap: too long\n");
}

#[test]
fn traces_have_at_most_so_many_bytes(rt: HostRuntime) {
    let text = ample(&rt, repeated(&rt, b"", b"\n", 16_777_217));
    for (row, &subcommand) in [Subcommand::Run, PACED, THREADS, DRAW].iter().enumerate() {
        expect_too_long(&Row { rt: &rt, row }, subcommand, &text);
    }
}

/// So many reads take their time, so that only the one too many is tried, and not the last.
#[test]
fn reads_of_dumps_end(rt: HostRuntime) {
    let told = b"rheap: read failed\n";
    expect_reads(&rt, Subcommand::Dump, 536_870_913, 536_870_912, told);
}

/// Adds the line of an object of a dump: it refers to the next, and has 4,094 numbers.
fn add_object(rt: &(impl AllocGlobal + Abort), text: &mut Vec<u8>, n: u32, numbers: &[u8]) {
    let next = n.saturating_add(1);
    let line = ample(rt, format!(in rt.alloc(); "@{n} 4095 @{next}"));
    ample(rt, text.extend_from_slice(line.as_bytes()));
    ample(rt, text.extend_from_slice(numbers));
}

/// A dump that passes its most bytes in the line of its object 3,121.
fn long_dump(rt: &(impl AllocGlobal + Abort)) -> Vec<u8> {
    let numbers = repeated(rt, b"", b" -2305843009213693952", 4_094);
    let mut numbers = ample(rt, numbers);
    ample(rt, numbers.extend_from_slice(b"\n"));
    let mut text = Vec::new(rt.alloc());
    let first = b"rheap 2\nroots 1\n1.0 @0\nobjects 3200\n".as_slice();
    ample(rt, text.extend_from_slice(first));
    for n in 0..3_125u32 {
        add_object(rt, &mut text, n, &numbers);
    }
    text
}

/// The line that passes the most bytes, as it is shown.
const LONG_DUMP: &[u8] = b"rheap: line 3126: Long
3126 | @3121 4095 @3122 -2305843009213693952 -2305843009213693952 -23058430092136..
       ^^^^^^^^^^^^^^^^^^^^^^^^^^^^^^^^^^^^^^^^^^^^^^^^^^^^^^^^^^^^^^^^^^^^^^^^^^
a dump has at most 268435456 bytes
";

/// Reads a dump, and answers the status and what is told. No test needs what `drive_explained`
/// promises beside it.
fn explained<R: AllocGlobal + Threads + Wait + Sync>(rt: &R, dump: &[u8]) -> (u8, Vec<u8>) {
    let ask = Ask {
        subcommand: Subcommand::Dump,
        file: "-",
        explain: true,
        out: None,
        views: PLAIN,
    };
    let mut reader = KeptReader::new(rt.alloc(), dump);
    let mut out = Vec::new(rt.alloc());
    let mut err = Vec::new(rt.alloc());
    let status = drive_explained(rt, rt.alloc(), &ask, &mut reader, &mut out, &mut err);
    (status, err)
}

#[test]
fn a_dump_that_is_too_long_is_shown(rt: HostRuntime) {
    let dump = long_dump(&rt);
    let (status, told) = explained(&rt, &dump);
    expect_equal(&rt, status, 1);
    expect_bytes(&rt, &told, LONG_DUMP);
}
