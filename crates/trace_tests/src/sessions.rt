//! Sessions: what is typed, and what is answered.

use crate::expectations::{Row, expect_bytes, expect_equal, expect_prefix, expect_refusals};
use crate::hosts::{Counts, Full};
use refusing::refused_in_turn;
use rh_shell::{OutputLog, ShellFault, Summary, run_shell};
use rh_text::IoLog;
use rh_trace::run_trace;
use samples::devices::SlowReader;
use std::alloc::Allocator;
use std::io::Read;
use std::process::Abort;

/// A trace with a cycle.
const CYCLE: &[u8] = b"\
heap 32 8 8 1 2
0 alloc 0.0 1
begin
idle 16
shade 0.0
deal copies 1 t
give t
flip
stat
";

/// The same cycle, and all that a session has of its own.
const OWN: &[u8] = b"\
heap 32 8 8 1 2
0 alloc 0.0 1
begin
idle 16
shade 0.0
deal copies 1 t
give t
flip
cycles
draw heap.svg
stat
";

/// What is answered to that.
const OWN_ANSWERS: &[u8] = b"\
object 1
cycle 1
idle 16
placed
dealt 1 passed 0
given joined 1 repeated 0 stale 0 placed 0
flipped roots 1 live 3
number\tend\tepoch\tbegan\tended\tused\tlive\tfreed\tobjects\tgranted\tidle\tspent\tmost\tlogged\tjoined\trepeated\tstale\tpassed\twords
1\tflipped\t1\t3\t8\t3\t3\t0\t1\t0\t16\t6\t3\t0\t-\t-\t-\t-\t32
drawn
stat used 3 free 29 cycle off epoch 2 number 0 log 0 granted 0 spent 6 placed 0 missing 0 idle 16
total commands 1 refused 0 flips 1 rootwords 1
";

/// Lines that need a heap before there is one, and sizes that make none.
const EARLY: &[u8] = b"stat
cycles
draw heap.svg
heap 4 8 8 1 2
heap 32 8 8 1 2
1 allok 0.0 1
";

const EARLY_ANSWERS: &[u8] = b"\
fault: Header: the first line is heap WORDS RATIO LOG OWNERS SLOTS
fault: Header: the first line is heap WORDS RATIO LOG OWNERS SLOTS
fault: Header: the first line is heap WORDS RATIO LOG OWNERS SLOTS
fault: BadSpace: WORDS is out of its range: 8 to 16777216
fault: Word: no such command; did you mean alloc?
total commands 0 refused 0 flips 0 rootwords 0
";

/// Faults between lines of a trace, and a last line without its line end.
const FAULTS: &[u8] = b"heap 32 8 8 1 2

0 alloc 0.0 1
 stat
0 same 0.0 0.0
stat";

const FAULTS_ANSWERS: &[u8] = b"\
fault: Form: a blank line: each line has a keyword
object 1
fault: Form: a space at the start: a line begins with its first part
same yes
fault: Cut: the line has no line end: a line feed ends each line
total commands 2 refused 0 flips 0 rootwords 0
";

/// Files of pictures, a word that is nearly a command, and one that is none.
const FILES: &[u8] =
    b"heap 32 8 8 1 2\ndraw heap.svg\ndraw \ndraw \xff\ndraw\nhelp me\ncycles 2\n1 allok 0.0 1\nquit\n";

const FILES_ANSWERS: &[u8] = b"\
drawn
fault: Form: a space at the end: a line ends with its last part
fault: Form: the file's name is no text
fault: Word: draw FILE
fault: Word: help stands alone
fault: Word: cycles stands alone
fault: Word: no such command; did you mean alloc?
fault: Word: no such command: help lists them, and the end of input ends the session
total commands 0 refused 0 flips 0 rootwords 0
";

/// Lines with faults of their parts, one of 257 bytes, and sizes that make no heap.
const KINDS: &[u8] = b"\
heap 32 0 8 2 2
heap 32 8 8 17 2
heap 32 8 0 2 2
heap 32 8 8 2 2
xxxxxxxxxxxxxxxxxxxxxxxxxxxxxxxxxxxxxxxxxxxxxxxxxxxxxxxxxxxxxxxxxxxxxxxxxxxxxxxxxxxxxxxxxxxxxxxxx\
xxxxxxxxxxxxxxxxxxxxxxxxxxxxxxxxxxxxxxxxxxxxxxxxxxxxxxxxxxxxxxxxxxxxxxxxxxxxxxxxxxxxxxxxxxxxxxxxx\
xxxxxxxxxxxxxxxxxxxxxxxxxxxxxxxxxxxxxxxxxxxxxxxxxxxxxxxxxxxxxxx
1 drop x
1 alloc 1.0 y
deal copies 1 T
1 drop 5.0
";

const KINDS_ANSWERS: &[u8] = b"\
fault: BadRatio: RATIO is out of its range: 1 to 64
fault: BadRoots: OWNERS is out of its range: 1 to 16
fault: BadLog: LOG is out of its range: 1 to 1048576
fault: Long: a line has at most 256 bytes before its line end
fault: Root: a root is due here: OWNER.SLOT as 1.0, two numbers from 0 to 4294967295
fault: Number: a number is due here: digits without a leading zero, 0 to 4294967295
fault: Tray: a tray is due here: a letter a to z, then at most 15 of a to z, 0 to 9 and _
refused NoRoot
total commands 1 refused 1 flips 0 rootwords 0
";

/// Rows: what is typed, and what is answered. Lines with faults change nothing.
const SESSIONS: &[(&[u8], &[u8])] = &[
    (b"", b"total commands 0 refused 0 flips 0 rootwords 0\n"),
    (OWN, OWN_ANSWERS),
    (EARLY, EARLY_ANSWERS),
    (FAULTS, FAULTS_ANSWERS),
    (FILES, FILES_ANSWERS),
    (KINDS, KINDS_ANSWERS),
];

/// Holds a session. It has no clauses, since no test needs what `run_shell` promises.
fn held<A: Allocator + Copy, R: Read>(
    alloc: A,
    reader: &mut R,
    writer: &mut Full,
    host: &mut Counts,
) -> Result<Summary, ShellFault> {
    let mut reads = IoLog::new();
    run_shell(
        alloc,
        reader,
        &mut reads,
        writer,
        &mut OutputLog::new(),
        host,
    )
}

/// Expects these answers to what is typed, which comes a byte a time.
fn expect_answered(rt: &(impl AllocGlobal + Abort), typed: &[u8], answers: &[u8]) {
    let mut reader = SlowReader::new(typed, 0);
    let mut writer = Full::new(rt, 0);
    let outcome = held(rt.alloc(), &mut reader, &mut writer, &mut Counts::new(true));
    assert!(rt; outcome.is_ok());
    expect_bytes(rt, &writer.text, answers);
}

#[test]
fn each_line_is_answered(rt: HostRuntime) {
    for (row, &(typed, answers)) in SESSIONS.iter().enumerate() {
        expect_answered(&Row { rt: &rt, row }, typed, answers);
    }
}

#[test]
fn a_session_of_a_trace_is_its_run(rt: HostRuntime) {
    let mut run = Full::new(&rt, 0);
    let ran = run_trace(rt.alloc(), &mut { CYCLE }, &mut run).ok();
    assert!(rt; ran.is_some());
    let mut writer = Full::new(&rt, 0);
    let mut host = Counts::new(true);
    let outcome = held(rt.alloc(), &mut { CYCLE }, &mut writer, &mut host);
    assert!(rt; outcome.ok() == ran);
    expect_bytes(&rt, &writer.text, &run.text);
}

/// Expects a host, which takes pictures or not, to be told what comes. The answers are those of a host
/// that takes them exactly if it does.
fn expect_told(rt: &(impl AllocGlobal + Abort), takes: bool) {
    let mut host = Counts::new(takes);
    let mut writer = Full::new(rt, 0);
    let outcome = held(rt.alloc(), &mut { OWN }, &mut writer, &mut host);
    assert!(rt; outcome.is_ok());
    expect_equal(rt, (host.prompts, host.ends, host.pictures), (12, 1, 1));
    expect_equal(rt, writer.text.as_slice() == OWN_ANSWERS, takes);
}

#[test]
fn a_host_is_told_what_comes(rt: HostRuntime) {
    expect_told(&rt, false);
    expect_told(&rt, true);
}

/// What is typed, up to a read that fails in place of its end.
const BROKEN_OFF: &[u8] = b"heap 32 8 8 1 2\n0 alloc 0.0 1\n0 drop 0.0\nsta";

#[test]
fn a_failed_read_leaves_ended_lines_answered(rt: HostRuntime) {
    // Each of its 44 bytes takes two reads, of which the first is interrupted.
    let mut reader = SlowReader::new(BROKEN_OFF, 90);
    let mut reads = IoLog::new();
    let mut writer = Full::new(&rt, 0);
    let mut log = OutputLog::new();
    let outcome = run_shell(
        rt.alloc(),
        &mut reader,
        &mut reads,
        &mut writer,
        &mut log,
        &mut Counts::new(true),
    );
    assert!(rt; outcome == Err(ShellFault::Read));
    expect_bytes(&rt, &writer.text, b"object 1\ndone\n");
    expect_equal(
        &rt,
        (reads.has_failed(), log.has_flush_failed()),
        (true, false),
    );
}

/// Holds a session whose nth call of its writer fails. Answers whether it ended by that: then no call
/// came after.
fn fails_at(rt: &(impl AllocGlobal + Abort), nth: u32) -> bool {
    let mut writer = Full::new(rt, nth);
    let mut host = Counts::new(true);
    let outcome = held(rt.alloc(), &mut { OWN }, &mut writer, &mut host);
    expect_prefix(rt, OWN_ANSWERS, &writer.text);
    if outcome.is_ok() {
        return false;
    }
    assert!(rt; outcome == Err(ShellFault::Write));
    expect_equal(rt, writer.calls, nth);
    true
}

#[test]
fn each_failing_call_ends_a_session(rt: HostRuntime) {
    for nth in 1..100u32 {
        let row = nth as usize;
        if !fails_at(&Row { rt: &rt, row }, nth) {
            assert!(rt; nth > 20);
            return;
        }
    }
    assert!(rt; false, "each of 99 calls fails");
}

/// Whether memory was refused. What is written is a prefix of the answers.
fn is_refused<A: Allocator + Copy>(rt: &(impl AllocGlobal + Abort), memory: A) -> bool {
    let mut writer = Full::new(rt, 0);
    let mut host = Counts::new(true);
    let outcome = held(memory, &mut { OWN }, &mut writer, &mut host);
    expect_prefix(rt, OWN_ANSWERS, &writer.text);
    outcome == Err(ShellFault::OutOfMemory)
}

#[test]
fn each_allocation_is_refused(rt: HostRuntime) {
    let refused = refused_in_turn(rt.alloc(), |memory| is_refused(&rt, memory));
    expect_refusals(&rt, refused, 10);
}
