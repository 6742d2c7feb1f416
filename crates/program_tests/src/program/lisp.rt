//! Programs of the small Scheme, what they print and how they end.

use crate::expectations::{Row, expect_bytes, expect_equal, expect_prefix};
use crate::program::command_line::played;
use crate::program::driving::{drives_to, status_of};
use refusing::RefusingAllocator;
use rh_cli::{Ask, HeapWords, KeptReader, Limits, PLAIN, Subcommand, Terminals, drive_lisp};
use samples::devices::{Broken, SlowReader, SlowWriter, Unflushed};
use std::alloc::Allocator;
use std::io::{Read, Write};
use std::process::Abort;
use std::sync::Wait;
use std::thread::Threads;

/// A heap that grows as far as a heap can, and more steps than a program here does.
const AMPLE: Limits = Limits {
    heap: HeapWords::UpTo(16_777_216),
    steps: 1_000_000,
};

/// The same with a heap of so many words.
const SMALL: Limits = Limits {
    heap: HeapWords::Just(10_000),
    steps: 1_000_000,
};

/// What a program may take, its text, its status, what it prints, and what is told.
const PROGRAMS: &[(Limits, &[u8], u8, &[u8], &[u8])] = &[
    (AMPLE, b"", 0, b"", b""),
    (
        AMPLE,
        b"(display \"a\")\n(write \"a\")\n(newline)",
        0,
        b"a\"a\"\n",
        b"",
    ),
    (SMALL, b"(write (list 1 'b))", 0, b"(1 b)", b""),
    (
        AMPLE,
        b"(display 1)\n\n (display (+ 1 (car 5)))\n(display 2)",
        1,
        b"1",
        b"p:3:16: car: not a pair\n",
    ),
    (
        AMPLE,
        b"(display 1)\n(error \"bad:\" '(1 2))",
        1,
        b"1",
        b"p:2:1: bad: (1 2)\n",
    ),
    (
        SMALL,
        b"(display 1)\n(define (keep l) (keep (cons l l)))\n(keep '())",
        1,
        b"1",
        b"p:2:24: heap exhausted\n",
    ),
    (
        Limits {
            heap: HeapWords::UpTo(16_777_216),
            steps: 100_000,
        },
        b"(display 1)\n(let loop () (loop))",
        1,
        b"1",
        b"p:2:14: steps spent\n",
    ),
    (AMPLE, b"(display 1)\n (if)", 1, b"", b"p:2:2: bad form\n"),
    (
        AMPLE,
        b"(display 1)\n(display",
        1,
        b"",
        b"p:2:9: unfinished\n",
    ),
    (
        Limits {
            heap: HeapWords::Just(1_000),
            steps: 1,
        },
        b"(display 1)",
        1,
        b"",
        b"rheap: pace: TooSmall need 2669\n",
    ),
    (
        Limits {
            heap: HeapWords::Just(16_777_217),
            steps: 1,
        },
        b"(display 1)",
        1,
        b"",
        b"rheap: heap: BadSpace\n",
    ),
    (
        Limits {
            heap: HeapWords::UpTo(8_617),
            steps: 1,
        },
        b"(display 1)",
        1,
        b"",
        b"rheap: pace: TooSmall need 8618\n",
    ),
    (
        Limits {
            heap: HeapWords::UpTo(16_777_217),
            steps: 1,
        },
        b"(display 1)",
        1,
        b"",
        b"rheap: grow: BadLimits\n",
    ),
    // A fault of the text comes before one of the heap.
    (
        Limits {
            heap: HeapWords::Just(1_000),
            steps: 1,
        },
        b"(display 1) )",
        1,
        b"",
        b"p:1:13: unexpected )\n",
    ),
];

/// Runs a program, and answers the status. No test needs what `drive_lisp` promises beside it.
fn status_of_program<A, I, O, E>(
    alloc: A,
    limits: Limits,
    mut reader: KeptReader<I, A>,
    out: &mut O,
    err: &mut E,
) -> u8
where
    A: Allocator + Copy,
    I: Read + Drop,
    O: Write,
    E: Write,
{
    drive_lisp(alloc, "p", limits, &mut reader, out, err)
}

/// Runs a program, and expects this status and what is told.
fn expect_told<R: AllocGlobal + Abort, I: Read, W: Write>(
    rt: &R,
    limits: Limits,
    reader: &mut I,
    out: &mut W,
    (status, told): (u8, &[u8]),
) {
    let mut err = Vec::new(rt.alloc());
    let kept = KeptReader::passing(rt.alloc(), reader);
    let ended = status_of_program(rt.alloc(), limits, kept, out, &mut err);
    expect_equal(rt, ended, status);
    expect_bytes(rt, &err, told);
}

/// Runs a program that a slow reader gives, and expects that this is printed, in one write.
fn expect_printed<R: AllocGlobal + Abort>(
    rt: &R,
    limits: Limits,
    text: &[u8],
    printed: &[u8],
    due: (u8, &[u8]),
) {
    let mut out = SlowWriter::new(rt, 1_000, 0);
    expect_told(rt, limits, &mut SlowReader::new(text, 0), &mut out, due);
    expect_bytes(rt, &out.text, printed);
    expect_equal(rt, out.writes <= 1, true);
}

/// Runs each of these programs, and expects what its row says.
fn expect_programs<R: AllocGlobal + Abort>(rt: &R, programs: &[(Limits, &[u8], u8, &[u8], &[u8])]) {
    for (row, &(limits, text, status, printed, told)) in programs.iter().enumerate() {
        expect_printed(&Row { rt, row }, limits, text, printed, (status, told));
    }
}

#[test]
fn programs_print_and_end_as_their_rows_say(rt: HostRuntime) {
    expect_programs(&rt, PROGRAMS);
}

/// Programs that stop, or are none, and what is told where it is shown.
const EXPLAINED: &[(&[u8], &[u8])] = &[
    (
        b"(display 1)\n(display (+ 1 (car 5))) ; no pair\n",
        b"p:2:15: car: not a pair\n2 | (display (+ 1 (car 5))) ; no pair\n                  ^^^^^^^\na pair is due here: cons makes one, and () is none\n",
    ),
    (
        b"(display \"a)\")\n (if)",
        b"p:2:2: bad form\n2 |  (if)\n     ^^^^\nthe form has another number of parts, or a part may not stand there: rheap lisp --help has it\n",
    ),
    (
        b"(list nosuch\"x\")",
        b"p:1:7: nosuch: unbound variable\n1 | (list nosuch\"x\")\n          ^^^^^^\nthe name has no value yet: (define NAME VALUE) gives it one\n",
    ),
    (
        b"(list nosuch'x)",
        b"p:1:7: nosuch: unbound variable\n1 | (list nosuch'x)\n          ^^^^^^\nthe name has no value yet: (define NAME VALUE) gives it one\n",
    ),
    (
        b"(list 1 \"\\q\"nosuch)",
        b"p:1:9: no such escape\n1 | (list 1 \"\\q\"nosuch)\n            ^^^^\nafter \\ in a string stands n, t, r, a, b, \", \\, |, x41; or a line end\n",
    ),
];

/// Runs a program that stops, or is none, and expects that its form there is shown.
fn expect_shown<R: AllocGlobal + Abort>(rt: &R, text: &[u8], told: &[u8]) {
    let kept = KeptReader::new(rt.alloc(), text);
    let mut out: Vec<u8> = Vec::new(rt.alloc());
    let mut err = Vec::new(rt.alloc());
    let ended = status_of_program(rt.alloc(), AMPLE, kept, &mut out, &mut err);
    expect_equal(rt, ended, 1);
    expect_bytes(rt, &err, told);
}

#[test]
fn the_form_at_which_a_program_stops_is_shown(rt: HostRuntime) {
    for (row, &(text, told)) in EXPLAINED.iter().enumerate() {
        expect_shown(&Row { rt: &rt, row }, text, told);
    }
}

/// What is told where a program has no file.
const ALONE: &[(&[u8], u8, &[u8], &[u8])] = &[
    (b"(display 1)", 0, b"1", b""),
    (
        b"(display 1) (car 5)",
        1,
        b"1",
        b"rheap: the program stopped\n",
    ),
    (b"(display 1) )", 1, b"", b"rheap: program: unexpected )\n"),
];

#[test]
fn a_program_without_a_file_is_told_without_its_place(rt: HostRuntime) {
    let ask = Ask {
        subcommand: Subcommand::Lisp { limits: AMPLE },
        file: "-",
        explain: false,
        out: None,
        views: PLAIN,
    };
    for (row, &(text, status, printed, told)) in ALONE.iter().enumerate() {
        drives_to(&Row { rt: &rt, row }, &ask, text, status, printed, told);
    }
}

/// Runs a text of so many empty lines, which prints nothing.
fn expect_blank<R: AllocGlobal + Abort>(rt: &R, bytes: usize, due: (u8, &[u8])) {
    let mut text = Vec::new(rt.alloc());
    text.resize(bytes, b'\n').expect(rt, "memory is ample");
    let mut out: Vec<u8> = Vec::new(rt.alloc());
    expect_told(rt, AMPLE, &mut text.as_slice(), &mut out, due);
    expect_equal(rt, out.len(), 0);
}

#[test]
fn a_text_of_a_byte_more_is_too_long(rt: HostRuntime) {
    expect_blank(&rt, 1_048_576, (0, b""));
    expect_blank(&rt, 1_048_577, (1, b"rheap: too long\n"));
}

/// What prints something.
const PRINTS: &[u8] = b"(display 123)";

#[test]
fn a_failed_read_of_a_program_is_told(rt: HostRuntime) {
    let mut out: Vec<u8> = Vec::new(rt.alloc());
    let due: (u8, &[u8]) = (1, b"rheap: read failed\n");
    expect_told(&rt, AMPLE, &mut SlowReader::new(PRINTS, 3), &mut out, due);
    expect_equal(&rt, out.len(), 0);
}

#[test]
fn a_failed_write_of_a_program_is_told(rt: HostRuntime) {
    let mut full = SlowWriter::new(&rt, 1, 3);
    let due: (u8, &[u8]) = (1, b"rheap: write failed\n");
    expect_told(&rt, AMPLE, &mut { PRINTS }, &mut full, due);
    expect_bytes(&rt, &full.text, b"12");
    expect_told(&rt, AMPLE, &mut { PRINTS }, &mut Unflushed, due);
}

#[test]
fn a_program_ends_where_nothing_can_be_told(rt: HostRuntime) {
    let kept = KeptReader::new(rt.alloc(), PRINTS);
    let ended = status_of_program(rt.alloc(), AMPLE, kept, &mut Broken, &mut Broken);
    expect_equal(&rt, ended, 1);
}

/// Whether the nth allocation was refused. That is told, and nothing is written; else the program
/// prints what it prints.
fn is_refused<A: Allocator + Copy>(rt: &(impl AllocGlobal + Abort), alloc: A, nth: u64) -> bool {
    let memory = RefusingAllocator::new(alloc, nth);
    let mut out = Vec::new(rt.alloc());
    let mut err = Vec::new(rt.alloc());
    let kept = KeptReader::passing(&memory, STOPS);
    let ended = status_of_program(&memory, SMALL, kept, &mut out, &mut err);
    let is_refused = memory.has_refused();
    expect_stopped(rt, is_refused, ended, &out, &err);
    is_refused
}

/// What prints something, and stops.
const STOPS: &[u8] = b"(display \"ab\") (car 5)";

/// Expects that it ended so, and wrote and told this.
fn expect_stopped(rt: &impl Abort, is_refused: bool, ended: u8, out: &[u8], err: &[u8]) {
    let (status, printed, told): (u8, &[u8], &[u8]) = if is_refused {
        (3, b"", b"rheap: out of memory\n")
    } else {
        (1, b"ab", b"p:1:16: car: not a pair\n")
    };
    expect_equal(rt, ended, status);
    expect_bytes(rt, out, printed);
    expect_bytes(rt, err, told);
}

#[test]
fn allocations_of_a_program_are_refused_further_and_further_on(rt: HostRuntime) {
    let mut nth = 1u64;
    for _ in 0..400u32 {
        if !is_refused(&rt, rt.alloc(), nth) {
            break;
        }
        nth = nth.saturating_add(1 + nth / 16);
    }
    assert!(rt; 600 < nth, "{nth} allocations");
}

/// The words of a session, what is typed, its status, what it prints, and what is told.
const SESSIONS: &[(&[&[u8]], &[u8], u8, &[u8], &[u8])] = &[
    (&[b"rheap", b"lisp"], b"", 0, b"", b""),
    (
        &[b"rheap", b"lisp"],
        b"(define (f x) (* x x))\n(f 12) \"a\"\n(+ 1\n 2)",
        0,
        b"144\n\"a\"\n3\n",
        b"",
    ),
    // A program of standard input is no session: it writes what it displays alone.
    (
        &[b"rheap", b"lisp", b"-"],
        b"(+ 1 2) (display \"a\") (newline)",
        0,
        b"a\n",
        b"",
    ),
    // What a later entry defines or sets anew is what earlier ones call.
    (
        &[b"rheap", b"lisp"],
        b"(define (g) 1) (define (h) (g))\n(h)\n(define (g) 2)\n(h)\n(set! g +)\n(h)\n",
        0,
        b"1\n2\n0\n",
        b"",
    ),
];

/// The same of sessions that go on after an error, or after a text that is no program.
const STOPPED: &[(&[&[u8]], &[u8], u8, &[u8], &[u8])] = &[
    // An error leaves what was set and the session. What fails in an earlier entry is told with its
    // name.
    (
        &[b"rheap", b"lisp"],
        b"(define x 1)\n(begin (set! x 2) (display \"a\") (car 5))\nx\n\
            (define (f x) (* x x))\n(define (g x) (- x 1))\n(f 1152921504606846975)\n",
        0,
        b"a2\n",
        b"-:2:33: car: not a pair\n-:4:15: *: overflow\n",
    ),
    // Where an entry before stops no form is shown, since its text isn't kept.
    (
        &[b"rheap", b"lisp", b"--explain"],
        b"(define (f x)\n (car x))\n(f 5)\n(list 1 (f\n 6) (cdr 7))\n",
        0,
        b"",
        b"-:2:2: car: not a pair\na pair is due here: cons makes one, and () is none\n-:2:2: car: not a pair\na pair is due here: cons makes one, and () is none\n",
    ),
    // A text that is no program changes nothing.
    (
        &[b"rheap", b"lisp"],
        b"(define x 1) (if)\nx\n)\n4\n",
        0,
        b"4\n",
        b"-:1:14: bad form\n-:2:1: x: unbound variable\n-:3:1: unexpected )\n",
    ),
];

/// The same of names and continuations that a session keeps, and of sessions that are cut short.
const NAMED: &[(&[&[u8]], &[u8], u8, &[u8], &[u8])] = &[
    // A name of the language is the session's own from there on. A continuation of an earlier entry
    // goes on behind the one that enters it.
    (
        &[b"rheap", b"lisp"],
        b"(define (m) (car '(1 2)))\n(define (car l) 5)\n(car 4) (m)\n\
            (define k #f)\n(+ 1 (call/cc (lambda (c) (set! k c) 1)))\n(k 10)\n3\n",
        0,
        b"5\n1\n2\n11\n3\n",
        b"",
    ),
    (
        &[b"rheap", b"lisp"],
        b"(display 1",
        0,
        b"",
        b"-:1:11: unfinished\n",
    ),
    (
        &[b"rheap", b"lisp", b"--steps=1000"],
        b"1\n(let loop () (loop))\n2\n",
        0,
        b"1\n2\n",
        b"-:2:14: steps spent\n",
    ),
];

/// The same where the heap has too few words, or is filled.
const FULL: &[(&[&[u8]], &[u8], u8, &[u8], &[u8])] = &[
    (
        &[b"rheap", b"lisp", b"--heap=100"],
        b"1\n",
        1,
        b"",
        b"rheap: pace: TooSmall need 2669\n",
    ),
    // What filled the heap is given back by an entry that lets go of it.
    (
        &[b"rheap", b"lisp", b"--heap=8000"],
        b"(define l '())\n(let loop () (set! l (cons 1 l)) (loop))\n(set! l '())\n(+ 1 2)\n",
        0,
        b"3\n",
        b"-:2:22: heap exhausted\n",
    ),
    // A heap that is full to the last words refuses each entry that writes something, and no entry that
    // lets go of what fills it.
    (
        &[b"rheap", b"lisp", b"--heap=8001"],
        b"(define l '())\n(define (f n) (set! l (cons n l)) (f (+ n 1)))\n(f 0)\n(+ 1 2)\n\
            (+ 1 2)\n(set! l '())\n(+ 1 2)\n",
        0,
        b"3\n",
        b"-:2:35: heap exhausted\n-:4:1: heap exhausted\n-:5:1: heap exhausted\n",
    ),
    // What one entry made isn't kept for the next: two of these lists have no room.
    (
        &[b"rheap", b"lisp", b"--heap=16000"],
        b"(define (count n l) (if (= n 0) l (count (- n 1) (cons n l))))\n\
            (define (kept l) (lambda () l))\n\
            (kept (count 1800 '()))\n(kept (count 1800 '()))\n\
            (define a (count 1800 '()))\n(define b (count 1800 '()))\n",
        0,
        b"#<procedure>\n#<procedure>\n",
        b"-:1:50: heap exhausted\n",
    ),
    // The table of names has each of them once, however many entries ask for a symbol.
    (
        &[b"rheap", b"lisp", b"--heap=12000"],
        b"(define l '(a0 a1 a2 a3 a4 a5 a6 a7 a8 a9 b0 b1 b2 b3 b4 b5 b6 b7 b8 b9 c0 c1 \
            c2 c3 c4 c5 c6 c7 c8 c9 d0 d1 d2 d3 d4 d5 d6 d7 d8 d9 e0 e1 e2 e3 \
            e4 e5 e6 e7 e8 e9 f0 f1 f2 f3 f4 f5 f6 f7 f8 f9))\n\
            (string->symbol \"a1\")\n(string->symbol \"f9\")\n\
            (string->symbol \"a1\")\n(string->symbol \"f9\")\n\
            (string->symbol \"a1\")\n(string->symbol \"f9\")\n\
            (string->symbol \"a1\")\n(string->symbol \"f9\")\n\
            (string->symbol \"a1\")\n(string->symbol \"f9\")\n",
        0,
        b"a1\nf9\na1\nf9\na1\nf9\na1\nf9\na1\nf9\n",
        b"",
    ),
    // The procedures of the language have no room.
    (
        &[b"rheap", b"lisp", b"--heap=3000"],
        b"1\n",
        1,
        b"",
        b"-:1:1: heap exhausted\nrheap: the program stopped\n",
    ),
];

/// Holds a session with this as standard input, which may be a terminal, and expects this status,
/// and what is printed and told.
fn expect_session(
    test: &(impl Abort + Threads + Wait + Sync),
    rt: &HostRuntime,
    input: bool,
    &(args, typed, status, printed, due): &(&[&[u8]], &[u8], u8, &[u8], &[u8]),
) {
    let terminals = Terminals {
        input,
        error: false,
    };
    let (ended, out, told) = played(test, rt, (args, typed), false, terminals);
    expect_equal(test, ended, status);
    expect_bytes(test, &out, printed);
    expect_bytes(test, &told, due);
}

/// Holds each of these sessions, and expects what its row says.
fn expect_sessions(
    test: &(impl Abort + Threads + Wait + Sync),
    rt: &HostRuntime,
    sessions: &[(&[&[u8]], &[u8], u8, &[u8], &[u8])],
) {
    for (row, session) in sessions.iter().enumerate() {
        expect_session(&Row { rt: test, row }, rt, false, session);
    }
}

#[test]
fn sessions_print_and_tell_as_their_rows_say(rt: HostRuntime) {
    expect_sessions(&rt, &rt, SESSIONS);
}

#[test]
fn sessions_go_on_after_what_stops(rt: HostRuntime) {
    expect_sessions(&rt, &rt, STOPPED);
}

#[test]
fn sessions_keep_names_and_continuations(rt: HostRuntime) {
    expect_sessions(&rt, &rt, NAMED);
}

#[test]
fn sessions_whose_heaps_are_full(rt: HostRuntime) {
    expect_sessions(&rt, &rt, FULL);
}

#[test]
fn a_session_at_a_terminal_shows_its_prompts(rt: HostRuntime) {
    let session: (&[&[u8]], &[u8], u8, &[u8], &[u8]) = (
        &[b"rheap", b"lisp"],
        b"(+ 1 2)\n(define x\n 4)\n(car x)\n",
        0,
        b"3\n",
        b"> > > -:4:1: car: not a pair\n> \n",
    );
    expect_session(&rt, &rt, true, &session);
}

/// A session whose errors are told to nobody.
const SESSION: Ask<'static> = Ask {
    subcommand: Subcommand::LispSession { limits: SMALL },
    file: "-",
    explain: false,
    out: None,
    views: PLAIN,
};

/// Entries of which the second one stops.
const ENTRIES: &[u8] = b"(display 1)\n(car 5)\n23\n";

/// Holds a session, and expects that it ends so and tells this.
fn expect_held<T, R, W>(rt: &T, reader: &mut R, out: &mut W, (status, told): (u8, &[u8]))
where
    T: AllocGlobal + Abort + Threads + Wait + Sync,
    R: Read,
    W: Write,
{
    let mut err = Vec::new(rt.alloc());
    let ended = status_of(rt, rt.alloc(), &SESSION, reader, out, &mut err);
    expect_equal(rt, ended, status);
    expect_bytes(rt, &err, told);
}

#[test]
fn a_failed_read_ends_a_session(rt: HostRuntime) {
    let mut out = SlowWriter::new(&rt, 1_000, 0);
    let due: (u8, &[u8]) = (1, b"rheap: read failed\n");
    expect_held(&rt, &mut SlowReader::new(ENTRIES, 40), &mut out, due);
    expect_bytes(&rt, &out.text, b"1");
}

#[test]
fn a_failed_write_ends_a_session(rt: HostRuntime) {
    let mut full = SlowWriter::new(&rt, 1, 3);
    let due: (u8, &[u8]) = (1, b"rheap: write failed\n");
    expect_held(&rt, &mut { ENTRIES }, &mut full, due);
    expect_bytes(&rt, &full.text, b"12");
    expect_held(&rt, &mut { ENTRIES }, &mut Unflushed, due);
}

/// How many allocations a session asks for, of which none is refused.
fn asked_in_session<T>(rt: &T, typed: &[u8]) -> u64
where
    T: AllocGlobal + Abort + Threads + Wait + Sync,
{
    let memory = RefusingAllocator::new(rt.alloc(), 0);
    let mut reader = typed;
    let mut out = Vec::new(rt.alloc());
    let mut err = Vec::new(rt.alloc());
    let ended = status_of(rt, &memory, &SESSION, &mut reader, &mut out, &mut err);
    expect_equal(rt, ended, 0);
    memory.asked()
}

/// Entries, 5 and 10 of them.
const FIVE: &[u8] = b"1\n1\n1\n1\n1\n";

const TEN: &[u8] = b"1\n1\n1\n1\n1\n1\n1\n1\n1\n1\n";

/// The code of entries is kept: what is compiled once isn't compiled for a later entry.
#[test]
fn an_entry_asks_for_no_code_of_those_before_it(rt: HostRuntime) {
    let five = asked_in_session(&rt, FIVE);
    let ten = asked_in_session(&rt, TEN);
    // If each entry compiled the language anew, the first session would do so 6 times, and the other
    // one 11 times.
    assert!(rt;
        ten < five.saturating_add(five / 2),
        "{five} and {ten} allocations"
    );
}

/// Whether the nth allocation of a session was refused. That is told, and a prefix of what it
/// prints is written; else all of it is.
fn is_refused_in_session<T>(rt: &T, (typed, printed): (&[u8], &[u8]), nth: u64) -> bool
where
    T: AllocGlobal + Abort + Threads + Wait + Sync,
{
    let memory = RefusingAllocator::new(rt.alloc(), nth);
    let mut reader = typed;
    let mut out = Vec::new(rt.alloc());
    let mut err = Vec::new(rt.alloc());
    let ended = status_of(rt, &memory, &SESSION, &mut reader, &mut out, &mut err);
    let is_refused = memory.has_refused();
    expect_session_ended(rt, is_refused, ended, &err);
    expect_prefix(rt, printed, &out);
    expect_equal(rt, is_refused || out.len() == printed.len(), true);
    is_refused
}

/// Expects that a session ended so, and told this.
fn expect_session_ended(rt: &impl Abort, is_refused: bool, ended: u8, err: &[u8]) {
    let (status, told): (u8, &[u8]) = if is_refused {
        (3, b"rheap: out of memory\n")
    } else {
        (0, b"")
    };
    expect_equal(rt, ended, status);
    expect_bytes(rt, err, told);
}

#[test]
fn allocations_of_a_session_are_refused_further_and_further_on(rt: HostRuntime) {
    let mut nth = 1u64;
    for _ in 0..400u32 {
        if !is_refused_in_session(&rt, (ENTRIES, b"123\n"), nth) {
            break;
        }
        nth = nth.saturating_add(1 + nth / 2);
    }
    assert!(rt; 1_000 < nth, "{nth} allocations");
}
