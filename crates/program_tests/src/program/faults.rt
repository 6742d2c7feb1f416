//! Texts with faults, and what the program tells of them.

use crate::expectations::{Row, ample, expect_equal};
use crate::program::driving::{DUMP, PACED, REPLAY, RUN, THREADS, drives_to};
use rh_cli::{Ask, PLAIN, Subcommand};
use samples::texts::repeated;
use std::process::Abort;
use std::sync::Wait;
use std::thread::Threads;

/// Texts that are no traces, each with its first faulty line and what is told to be wrong with it.
const TRACES: &[(&[u8], u32, &str)] = &[
    (b"", 1, "Empty"),
    (b"\n", 1, "Form"),
    (b"1 drop 1.0\n", 1, "Header"),
    (b"heap 16 8 4 2\n", 1, "Header"),
    (b"heap x 8 4 2\n", 1, "Header"),
    (b"heap 16 8 4 2 2", 1, "Cut"),
    (b"heap  16", 1, "Cut"),
    (b"heap  16\n", 1, "Form"),
    (b"heap  16 8 4 2 2\n", 1, "Form"),
    (b"heap 16 8 4 2 2 \n", 1, "Form"),
    (b"heap\t16 8 4 2 2\n", 1, "Form"),
    (b"heap 16 8 4 2 2\r\n", 1, "Form"),
    (b"heap 16 8 4 2 02\n", 1, "Number"),
    (b"heap 16 8 4 2 4294967296\n", 1, "Number"),
    (b"heap 16 8 4 -2 2\n", 1, "Number"),
    (b"heap 16 8 4 +2 2\n", 1, "Number"),
    (b"pile 16 8 4 2 02\n1 grow\n", 1, "Header"),
];

/// The same of second lines of traces.
const LINES: &[(&[u8], u32, &str)] = &[
    (b"\n", 2, "Form"),
    (b"1\n", 2, "Form"),
    (b"1 grow 1.0\n", 2, "Word"),
    (b"1 begin\n", 2, "Word"),
    (b"1 shade\n", 2, "Word"),
    (b"1 flip\n", 2, "Word"),
    (b"begun\n", 2, "Word"),
    (b"recall 1\n", 2, "Form"),
    (b"idle x\n", 2, "Number"),
    (b"resize x\n", 2, "Number"),
    (b"resize 16 8\n", 2, "Form"),
    (b"1 resize 16\n", 2, "Word"),
    (b"begin 1\n", 2, "Form"),
    (b"flip 1\n", 2, "Form"),
    (b"trays t\n", 2, "Form"),
    (b"stat 1\n", 2, "Form"),
    (b"shade\n", 2, "Form"),
    (b"shade 10\n", 2, "Root"),
    (b"shade nil\n", 2, "Root"),
    (b"shade 1.0 1.1\n", 2, "Form"),
    (b"deal copies 1\n", 2, "Form"),
    (b"deal x 1\n", 2, "Form"),
    (b"deal copies 1 t t\n", 2, "Form"),
    (b"deal x 1 t\n", 2, "Word"),
    (b"deal x -1 T\n", 2, "Word"),
    (b"deal Copies 1 t\n", 2, "Word"),
    (b"deal copies -1 T\n", 2, "Number"),
    (b"deal copies 1 T\n", 2, "Tray"),
    (b"deal entries 4294967296 t\n", 2, "Number"),
    (b"give\n", 2, "Form"),
    (b"give 1\n", 2, "Tray"),
    (b"give abcdefghijklmnopq\n", 2, "Tray"),
    (b"give t t\n", 2, "Form"),
    (b"join a\n", 2, "Form"),
    (b"join a B\n", 2, "Tray"),
    (b"join _a b\n", 2, "Tray"),
    (b"join a b c\n", 2, "Form"),
    (b"alloc 1 1.0 2\n", 2, "Word"),
    (b"1 dump\n", 2, "Word"),
    (b"dump 1\n", 2, "Form"),
    (b"1 alloc 1.0\n", 2, "Form"),
    (b"1 alloc 1.0 2 3\n", 2, "Form"),
    (b"1 alloc 1 x\n", 2, "Root"),
    (b"1x alloc 1 x\n", 2, "Number"),
    (b"1x drop\n", 2, "Form"),
    (b"1 alloc 1.0 x\n", 2, "Number"),
    (b"1 raw 1.0\n", 2, "Form"),
    (b"1 raw 1.0 2 3\n", 2, "Form"),
    (b"1 raw 1 x\n", 2, "Root"),
    (b"1x raw 1 x\n", 2, "Number"),
    (b"1 raw 1.0 x\n", 2, "Number"),
    (b"1 Raw 1.0 2\n", 2, "Word"),
    (b"raw 1.0 2\n", 2, "Word"),
    (b"1 alloc 1.0.0 2\n", 2, "Root"),
    (b"1 alloc 1.00 2\n", 2, "Root"),
    (b"1 load 1.0 1.1\n", 2, "Form"),
    (b"1 load 1.0 1. 0\n", 2, "Root"),
    (b"1 drop 10\n", 2, "Root"),
    (b"1 drop 1.0 1.1\n", 2, "Form"),
    (b"1 drop 1.4294967296\n", 2, "Root"),
    (b"1 drop ~\n", 2, "Root"),
    (b"1 drop \x7f\n", 2, "Form"),
    (b"1 drop \x80\n", 2, "Form"),
    (b"1 drop \xff\n", 2, "Form"),
    (b"1 drop \x1f\n", 2, "Form"),
    (b"1 drop 4294967296.0\n", 2, "Root"),
    (b"1 store 1.0 0\n", 2, "Form"),
    (b"1 store x 0\n", 2, "Form"),
    (b"1 store 1.0 0 5 5\n", 2, "Form"),
    (b"1 store 1.0 0 \n", 2, "Form"),
    (b"1 store 1.0 0 x\n", 2, "Number"),
    (b"1 store 1.0 0 1.x\n", 2, "Root"),
    (b"1 store 1.0 0 -1.0\n", 2, "Root"),
    (b"1 store 1.0 0 1.\n", 2, "Root"),
    (b"1 store 1.0 0 .\n", 2, "Root"),
    (b"1 store 1.0 0 nil.\n", 2, "Root"),
    (b"1 store 1 0 5\n", 2, "Root"),
    (b"1 store 1 x 1.x\n", 2, "Root"),
    (b"1 store 1.0 x 1.x\n", 2, "Number"),
    (b"1x store 1 0 1.x\n", 2, "Number"),
    (b"1 store 1.0 -1 5\n", 2, "Number"),
    (b"1 store 1.0 0 9223372036854775808\n", 2, "Number"),
    (b"1 store 1.0 0 -9223372036854775809\n", 2, "Number"),
    (b"1 store 1.0 0 18446744073709551616\n", 2, "Number"),
    (b"1 store 1.0 0 +5\n", 2, "Number"),
    (b"1 store 1.0 0 05\n", 2, "Number"),
    (b"1 store 1.0 0 -05\n", 2, "Number"),
    (b"1 store 1.0 0 -0\n", 2, "Number"),
    (b"1 store 1.0 0 00\n", 2, "Number"),
    (b"1 store 1.0 0 -\n", 2, "Number"),
    (b"1 store 1.0 0 --1\n", 2, "Number"),
    (b"1 store 1.0 0 Nil\n", 2, "Number"),
    (b"1 stores 1.0 0 5\n", 2, "Word"),
    (b"1 copy 1.0\n", 2, "Form"),
    (b"1 copy 7 1.0 1.1\n", 2, "Form"),
    (b"1 copy 7 1.0\n", 2, "Root"),
    (b"1 copy 1.0 nil\n", 2, "Root"),
    (b"1 same 1.0 7\n", 2, "Root"),
    (b"1 same 1.0\n", 2, "Form"),
    (b"1 same 1.0 1.1", 2, "Cut"),
    // Of two faults the one that stands first in the order of the format.
    (b"x alloc 1.0\n", 2, "Word"),
    (b"dumped 1.0\n", 2, "Word"),
    (b"1 dump 1.0\n", 2, "Word"),
    (b"02 alloc 1.0\n", 2, "Form"),
    (b"02 alloc 1 x\n", 2, "Number"),
    (b"1 store 1 x 1.\n", 2, "Root"),
];

/// Faulty lines of tickets.
const TICKET_LINES: &[(&[u8], u32, &str)] = &[
    (b"tickets x\n", 2, "Number"),
    (b"tickets\n", 2, "Form"),
    (b"1 tickets 2\n", 2, "Word"),
    (b"watch 1.0\n", 2, "Word"),
    (b"1 watch\n", 2, "Form"),
    (b"1 watch 1.0 2\n", 2, "Form"),
    (b"1x watch 10\n", 2, "Number"),
    (b"1 watch 10\n", 2, "Root"),
    (b"unwatch -1\n", 2, "Number"),
    (b"1 unwatch 0\n", 2, "Word"),
    (b"gone 0\n", 2, "Form"),
    (b"1 gone\n", 2, "Word"),
];

/// The same of texts that are no histories.
const HISTORIES: &[(&[u8], u32, &str)] = &[
    (b"", 1, "Empty"),
    (b"history 2 2", 1, "Cut"),
    (b"history  2 2\n", 1, "Form"),
    (b"heap 2 2\n", 1, "Header"),
    (b"history 2 2 2\n", 1, "Header"),
    (b"history 17 2\n", 1, "Number"),
    (b"history 2 0\n", 1, "Number"),
    (b"history 2 2\n1 = done\n", 2, "Form"),
    (b"history 2 2\n= done\n", 2, "Word"),
    (b"history 2 2\nbegin = done\n", 2, "Word"),
    (b"history 2 2\n1 drop = done\n", 2, "Form"),
    (b"history 2 2\n1 drop 10 = done\n", 2, "Root"),
    (b"history 2 2\nend 0 = done\n", 2, "Form"),
    (b"history 2 2\nend 4294967296\n", 2, "Number"),
    (b"history 2 2\nend 0\nx", 3, "Cut"),
    (b"history 2 2\n", 2, "End"),
    (b"history 2 2\n1 drop 1.0 =\n", 2, "Answer"),
    (b"history 2 2\n1 grow 1.0 = x\n", 2, "Word"),
    (b"history 2 2\n1 drop 1.0\n", 2, "Answer"),
    (b"history 2 2\n1 drop 1.0 = done = done\n", 2, "Answer"),
    (b"history 2 2\n1 drop 1.0 = int +5\n", 2, "Answer"),
    (b"history 2 2\n1 drop 1.0 = refused LogFull\n", 2, "Answer"),
    (b"history 2 2\n1 raw 1.0 = raw 1\n", 2, "Form"),
    (b"history 2 2\n1 raw 1.0 1 = raw\n", 2, "Answer"),
    (b"history 2 2\n1 raw 1.0 1 = raw -1\n", 2, "Answer"),
    (b"history 2 2\n1 raw 1.0 1 = raw 4294967296\n", 2, "Answer"),
    (b"history 2 2\n1 raw 1.0 1 = refused Raw\n", 2, "Answer"),
    (b"history 2 2\nend 1\n", 2, "Count"),
    (b"history 2 2\nend 0\n\n", 3, "Trailing"),
    (b"history 2 257\n", 1, "Number"),
    (b"history 2 2\n\n", 2, "Form"),
    (b"history 2 2\nshade 1.0 = done\n", 2, "Word"),
    (b"history 2 2\nend 0\nend 0\n", 3, "Trailing"),
];

/// The same of texts that are no dumps of any version.
const HEADERS: &[(&[u8], u32, &str)] = &[
    (b"", 1, "End"),
    (b"rheap 2", 1, "End"),
    (b"rheap 2\r\n", 1, "Header"),
    (b"rheap 1 \n", 1, "Header"),
    (b"rheap 3\n", 1, "Header"),
    (b"rheap\nroots 0\n", 1, "Header"),
];

/// The same of what follows the first line, in both versions.
const DUMPS: &[(&[u8], u32, &str)] = &[
    (b"", 2, "End"),
    (b"roots 1\n1.0 @1\n", 3, "Order"),
    (b"roots 1\n1.0 @0\nobjects 0\n", 4, "Count"),
    (b"roots 0\nobjects 1\n@0 0\nend\n", 4, "Count"),
    (b"roots 1\n1.0 @0\nobjects 1\n@0 1 @1\n", 5, "Count"),
    (b"roots 0\nobjects 0\n", 4, "End"),
    (b"roots 0\nobjects 0\nend", 4, "End"),
    (b"roots 0\nobjects 0\nend\nmore\n", 5, "Trailing"),
    (b"roots 0\nobjects 0\nend\nmore", 5, "End"),
    (b"roots 4097\n", 2, "Number"),
    (b"roots 1\nobjects 0\n", 3, "Number"),
    (b"roots 0\n1.0 @0\n", 3, "Form"),
    (b"roots 2\n1.0 1\n1.0 +5\n", 4, "Order"),
    (b"roots 2\n1.0 1\n1.0 nil\n", 4, "Form"),
    (b"roots 1\nx nil\n", 3, "Form"),
    (b"roots 1\n1.0 +5\n", 3, "Number"),
    (b"roots 1\n1.0  5\n", 3, "Form"),
    (b"roots 1\n16.0 5\n", 3, "Number"),
    (b"roots 1\n1.0 2305843009213693952\n", 3, "Number"),
    (b"roots 1\n1.0 @16777216\n", 3, "Number"),
];

/// What stands between the first line and the objects: one root that refers to object 0.
const ONE_ROOT: &[u8] = b"roots 1\n1.0 @0\n";

/// The same of lines of objects, after these.
const OBJECTS: &[(&[u8], u32, &str)] = &[
    (b"objects 16777217\n", 4, "Number"),
    (b"objects 1\nend\n", 5, "Form"),
    (b"objects 1\n@0\n", 5, "Form"),
    (b"objects 1\n0 0\n", 5, "Form"),
    (b"objects 1\n@1 4096\n", 5, "Order"),
    (b"objects 1\n@0 4096\n", 5, "Number"),
    (b"objects 1\n@0 2 x\n", 5, "Form"),
    (b"objects 1\n@0 1 x\n", 5, "Number"),
    (b"objects 3\n@0 2 @2 @1\n", 5, "Order"),
    (b"objects 2\n@0 0\n@1 0\n", 6, "Count"),
    (b"objects 1\n@0 0\n@1 0\n", 6, "Form"),
    (b"objects 1\n@0 0 raw\n", 5, "Form"),
    (b"objects 1\n@0 1 raw\n", 5, "Number"),
    (b"objects 1\n@0 Raw 0\n", 5, "Number"),
    (b"objects 1\n@1 raw 0\n", 5, "Order"),
    (b"objects 1\n@x raw 0\n", 5, "Number"),
    (b"objects 2\n@0 0\n@1 raw 0\n", 6, "Count"),
];

/// The same of lines of raw objects, in the version that is written.
const RAW_OBJECTS: &[(&[u8], u32, &str)] = &[
    (b"objects 1\n@0 raw\n", 5, "Form"),
    (b"objects 1\n@x raw\n", 5, "Form"),
    (b"objects 1\nraw 0\n", 5, "Form"),
    (b"objects 1\n@0 raw 2 5\n", 5, "Form"),
    (b"objects 1\n@0 raw 1 5 nil\n", 5, "Form"),
    (b"objects 1\n@0 raw raw 0\n", 5, "Number"),
    (b"objects 1\n@0 raw 4096\n", 5, "Number"),
    (b"objects 1\n@0 raw 1 x\n", 5, "Number"),
    (b"objects 1\n@0 raw 1 @0\n", 5, "Number"),
    (b"objects 1\n@0 raw 1 @1\n", 5, "Number"),
    (b"objects 1\n@0 raw 1 2305843009213693952\n", 5, "Number"),
    (b"objects 1\n@0 raw 1 5\n", 6, "End"),
];

/// The same in the version before, in which no object is raw.
const RAW_BEFORE: &[(&[u8], u32, &str)] = &[
    (b"objects 1\n@0 raw\n", 5, "Number"),
    (b"objects 1\n@1 raw\n", 5, "Order"),
    (b"objects 1\n@0 raw 0\n", 5, "Number"),
    (b"objects 1\n@0 raw 1 5\n", 5, "Number"),
    (b"objects 1\n@0 raw 2 5\n", 5, "Number"),
];

/// Expects a text, after `first`, to be answered with its fault and nothing else.
fn expect_first_fault<R: AllocGlobal + Abort + Threads + Wait + Sync>(
    rt: &R,
    ask: &Ask<'_>,
    first: &[u8],
    &(rest, line, kind): &(&[u8], u32, &str),
) {
    let text = ample(rt, repeated(rt, first, rest, 1));
    let told = ample(rt, format!(in rt.alloc(); "rheap: line {line}: {kind}\n"));
    drives_to(rt, ask, &text, 1, b"", told.as_bytes());
}

/// Expects each of these texts, after `first`, to be answered with its fault and nothing else.
fn expect_faults<R: AllocGlobal + Abort + Threads + Wait + Sync>(
    rt: &R,
    ask: &Ask<'_>,
    first: &[u8],
    faults: &[(&[u8], u32, &str)],
) {
    for (row, fault) in faults.iter().enumerate() {
        expect_first_fault(&Row { rt, row }, ask, first, fault);
    }
}

#[test]
fn first_faults(rt: HostRuntime) {
    expect_faults(&rt, &RUN, b"", TRACES);
    expect_faults(&rt, &RUN, b"heap 16 8 4 2 2\n", LINES);
    expect_faults(&rt, &REPLAY, b"", HISTORIES);
}

#[test]
fn first_faults_of_tickets(rt: HostRuntime) {
    expect_faults(&rt, &RUN, b"heap 16 8 4 2 2\n", TICKET_LINES);
}

/// Expects the faults of dumps that begin with this line, and of its lines of raw objects.
fn expect_faults_of_dumps<R: AllocGlobal + Abort + Threads + Wait + Sync>(
    rt: &R,
    version: &[u8],
    raw: &[(&[u8], u32, &str)],
) {
    expect_faults(rt, &DUMP, version, DUMPS);
    let first = ample(rt, repeated(rt, version, ONE_ROOT, 1));
    expect_faults(rt, &DUMP, &first, OBJECTS);
    expect_faults(rt, &DUMP, &first, raw);
}

#[test]
fn first_faults_of_dumps(rt: HostRuntime) {
    expect_faults(&rt, &DUMP, b"", HEADERS);
    expect_faults_of_dumps(&Row { rt: &rt, row: 0 }, b"rheap 2\n", RAW_OBJECTS);
    expect_faults_of_dumps(&Row { rt: &rt, row: 1 }, b"rheap 1\n", RAW_BEFORE);
}

/// A paced run at a mark.
const MARKED: Ask<'static> = Ask {
    subcommand: Subcommand::RunPaced { mark: Some(9) },
    file: "-",
    explain: false,
    out: None,
    views: PLAIN,
};

/// Runs that grow to at most so many words, which is more than a heap can have.
const GROWING: Ask<'static> = Ask {
    subcommand: Subcommand::RunGrowing { at_most: 1_000 },
    file: "-",
    explain: false,
    out: None,
    views: PLAIN,
};

const BOUNDLESS: Ask<'static> = Ask {
    subcommand: Subcommand::RunGrowing {
        at_most: 16_777_217,
    },
    file: "-",
    explain: false,
    out: None,
    views: PLAIN,
};

/// Runs that can't be made, each with why: by the first line; and where a pace is asked for by the
/// first fault of the text, then the heap's, then that of a growth, and last the pace's, which asks
/// for 29 words, or for 17.
const NOT_RUN: &[(Ask<'static>, &[u8], &[u8])] = &[
    (RUN, b"heap 7 0 0 0 0\n", b"rheap: heap: BadSpace\n"),
    (RUN, b"heap 16 0 4 2 2\n", b"rheap: heap: BadRatio\n"),
    (RUN, b"heap 16 8 4 0 2\n", b"rheap: heap: BadRoots\n"),
    (RUN, b"heap 16 8 4 2 257\n", b"rheap: heap: BadRoots\n"),
    (RUN, b"heap 16 8 0 2 2\n", b"rheap: heap: BadLog\n"),
    (
        PACED,
        b"heap 7 3 8 2 2\n1 alloc 1.0 2\nbegin\nflip\n",
        b"rheap: line 3: Word\n",
    ),
    (MARKED, b"heap 29 8 8 2 2\nstat\n", b"rheap: line 2: Word\n"),
    (
        MARKED,
        b"heap 29 8 8 2 2\n1 watch 1.0\n",
        b"rheap: line 2: Word\n",
    ),
    (
        PACED,
        b"heap 64 8 8 2 2\n1 drop 1.0\ntickets 1\n",
        b"rheap: line 3: Word\n",
    ),
    (PACED, b"heap 64 8 8 2 2\ngone\n", b"rheap: line 2: Word\n"),
    (
        PACED,
        b"heap 64 8 8 2 2\nunwatch 0\n",
        b"rheap: line 2: Word\n",
    ),
    (
        PACED,
        b"heap 29 8 8 2 2\nstat\n1\n",
        b"rheap: line 3: Form\n",
    ),
    (MARKED, b"heap 7 8 8 2 2\n", b"rheap: heap: BadSpace\n"),
    (
        PACED,
        b"heap 29 3 8 2 2\n1 alloc 1.0 2\n",
        b"rheap: pace: RatioTooLow\n",
    ),
    (
        PACED,
        b"heap 28 8 8 2 2\n1 alloc 1.0 2\n",
        b"rheap: pace: TooSmall need 29\n",
    ),
    (
        GROWING,
        b"heap 7 3 0 2 2\n1 alloc 1.0 2\nbegin\nflip\n",
        b"rheap: line 3: Word\n",
    ),
    (GROWING, b"heap 1001 0 8 2 2\n", b"rheap: heap: BadRatio\n"),
    (GROWING, b"heap 64 8 0 2 2\n", b"rheap: heap: BadLog\n"),
    (GROWING, b"heap 1001 3 8 2 2\n", b"rheap: grow: BadLimits\n"),
    (BOUNDLESS, b"heap 64 8 8 2 2\n", b"rheap: grow: BadLimits\n"),
    (
        GROWING,
        b"heap 1000 3 8 2 2\n",
        b"rheap: pace: RatioTooLow\n",
    ),
    (
        GROWING,
        b"heap 16 8 8 2 2\n1 alloc 1.0 4\n",
        b"rheap: pace: TooSmall need 17\n",
    ),
];

/// Expects each of these to be answered with what is told and nothing else. Answers how many there
/// are.
fn expect_not_run<R: AllocGlobal + Abort + Threads + Wait + Sync>(
    rt: &R,
    table: &[(Ask<'static>, &[u8], &[u8])],
) -> u32 {
    let mut tried: u32 = 0;
    for (row, &(ask, text, told)) in table.iter().enumerate() {
        drives_to(&Row { rt, row }, &ask, text, 1, b"", told);
        tried = tried.saturating_add(1);
    }
    tried
}

#[test]
fn runs_that_cannot_be_made(rt: HostRuntime) {
    expect_equal(&rt, expect_not_run(&rt, NOT_RUN), 22);
}

/// What a text begins with, the byte that follows, how often it does, the end, and what is told.
const LONG: &[(&[u8], &[u8], u32, &[u8], &[u8])] = &[
    (b"", b"9", 256, b"", b"rheap: line 1: Cut\n"),
    (b"", b"9", 256, b"\n", b"rheap: line 1: Header\n"),
    (b"", b"9", 257, b"", b"rheap: line 1: Long\n"),
    (b"", b"9", 257, b"\n", b"rheap: line 1: Long\n"),
    (b"", b" ", 257, b"\n", b"rheap: line 1: Long\n"),
];

/// The same of histories.
const LONG_HISTORIES: &[(&[u8], &[u8])] = &[
    (b"history 2 2\n", b"rheap: line 2: Long\n"),
    (b"history 2 2\nend 0\n", b"rheap: line 3: Long\n"),
];

/// Expects a trace with so many of a byte after its beginning, and this end, to be told of so.
fn expect_long<R: AllocGlobal + Abort + Threads + Wait + Sync>(
    rt: &R,
    &(first, byte, bytes, end, told): &(&[u8], &[u8], u32, &[u8], &[u8]),
) {
    let mut text = ample(rt, repeated(rt, first, byte, bytes));
    ample(rt, text.extend_from_slice(end));
    drives_to(rt, &RUN, &text, 1, b"", told);
}

/// Expects a history that goes on with 257 digits to be told of so.
fn expect_long_history<R: AllocGlobal + Abort + Threads + Wait + Sync>(
    rt: &R,
    &(first, told): &(&[u8], &[u8]),
) {
    let text = ample(rt, repeated(rt, first, b"9", 257));
    drives_to(rt, &REPLAY, &text, 1, b"", told);
}

#[test]
fn long_lines(rt: HostRuntime) {
    for (row, trace) in LONG.iter().enumerate() {
        expect_long(&Row { rt: &rt, row }, trace);
    }
    for (row, history) in LONG_HISTORIES.iter().enumerate() {
        expect_long_history(&Row { rt: &rt, row }, history);
    }
}

#[test]
fn files_that_are_too_long(rt: HostRuntime) {
    let text = ample(&rt, vec![in rt.alloc(); b'9'; 16_777_217]);
    for (row, ask) in [RUN, PACED, THREADS, REPLAY].iter().enumerate() {
        let rt = Row { rt: &rt, row };
        drives_to(&rt, ask, &text, 1, b"", b"rheap: too long\n");
    }
}
