//! The program, from its arguments to its status.

use crate::expectations::{Row, expect_bytes, expect_equal, expect_prefix};
use crate::texts::{
    CROSSED_FAULT, EVENTS_FAULT, FORMS_FAULT, GROW_FAULT, IDLE_FAULT, LINE_FAULT, MARK_FAULT,
    OBJECT_FAULT, REPLICATORS_FAULT, SESSION_FAULT, STEPS_FAULT, VIEWS_FAULT, WITHOUT_FIELDS_ECHO,
    WORDS_FAULT,
};
use rh_cli::{Ask, PLAIN, Subcommand, Terminals, play, read_words};
use samples::terminal::Terminal;
use samples::texts::{COLUMNS, WITHOUT_FIELDS, WITHOUT_FIELDS_ANSWERS};
use std::cell::RefCell;
use std::process::Abort;
use std::sync::Wait;
use std::thread::Threads;

/// Neither standard input nor standard error is a terminal.
const NO_TERMINALS: Terminals = Terminals {
    input: false,
    error: false,
};

/// The commands by name.
const COMMANDS: &[(&str, Subcommand)] = &[
    ("run", Subcommand::Run),
    (
        "threads",
        Subcommand::Threads {
            replicators: 2,
            idle: 0,
        },
    ),
    ("replay", Subcommand::Replay),
    ("dump", Subcommand::Dump),
];

/// A request for this alone.
fn plain(subcommand: Subcommand, file: &str) -> Ask<'_> {
    Ask {
        subcommand,
        file,
        explain: false,
        out: None,
        views: PLAIN,
    }
}

#[test]
fn arguments_that_ask_for_each_command(rt: HostRuntime) {
    for (row, &(name, subcommand)) in COMMANDS.iter().enumerate() {
        let rt = Row { rt: &rt, row };
        let file = "first";
        let words = ["rheap", name, file];
        let ask = read_words(rt.alloc(), &words);
        assert!(rt; matches!(ask, Ok(ask) if ask == plain(subcommand, file)));
    }
}

/// Expects a text: whole, where what is due is empty or ends a line. Else it begins with what is
/// due, and ends with one line end.
fn expect_written(rt: &impl Abort, text: &[u8], due: &[u8]) {
    if due.is_empty() || due.ends_with(b"\n") {
        expect_bytes(rt, text, due);
    } else {
        expect_prefix(rt, text, due);
        assert!(rt; text.ends_with(b"\n") && !text.ends_with(b"\n\n"));
    }
}

/// Arguments, the status, and what is written to standard output or to standard error: a line or
/// lines, or how it begins.
type Call<'a> = (&'a [&'a [u8]], u8, &'a [u8], &'a [u8]);

/// Plays the program with these arguments and this as standard input. Answers the status, and what
/// is written to standard output, which may be closed, and to standard error.
pub fn played(
    test: &(impl Threads + Wait + Sync),
    rt: &HostRuntime,
    (args, input): (&[&[u8]], &[u8]),
    is_closed: bool,
    terminals: Terminals,
) -> (u8, Vec<u8>, Vec<u8>) {
    let mut told = Vec::new(rt.alloc());
    let terminal = Terminal {
        rt,
        args,
        input,
        is_closed,
        printed: RefCell::new(Vec::new(rt.alloc())),
    };
    let status = play(&terminal, test, &mut told, terminals);
    (status, terminal.printed.into_inner(), told)
}

/// Plays the program with these arguments and this as standard input, and expects this status, and
/// what is written to standard output and to standard error.
fn expect_played(
    test: &(impl Abort + Threads + Wait + Sync),
    rt: &HostRuntime,
    input: &[u8],
    is_closed: bool,
    &(args, status, out, err): &Call<'_>,
) {
    let (ended, printed, told) = played(test, rt, (args, input), is_closed, NO_TERMINALS);
    expect_equal(test, ended, status);
    expect_written(test, &printed, out);
    expect_written(test, &told, err);
}

/// Calls of each command.
const CALLS: &[Call<'static>] = &[
    (&[b"rheap", b"--version"], 0, b"rheap 0.1.0", b""),
    (&[b"rheap", b"--help"], 0, b"A garbage-collected heap", b""),
    (&[b"rheap", b"run", b"--help"], 0, b"Runs a trace", b""),
    (&[b"rheap", b"run", b"-"], 0, WITHOUT_FIELDS_ANSWERS, b""),
    (&[b"rheap", b"shell"], 0, WITHOUT_FIELDS_ANSWERS, b""),
    (
        &[b"rheap", b"shell", b"--help"],
        0,
        b"Answers the lines",
        b"",
    ),
    (&[b"rheap", b"shell", b"a"], 2, b"", b"error: unexpected"),
    (
        &[b"rheap", b"replay", b"--help"],
        0,
        b"Checks a history",
        b"",
    ),
    (
        &[b"rheap", b"replay", b"-"],
        1,
        b"",
        b"rheap: line 1: Header\n",
    ),
    (&[b"rheap"], 2, b"", b"error: "),
    (
        &[b"rheap", b"run"],
        2,
        b"",
        b"error: the following required",
    ),
    (&[b"rheap", b"fly", b"-"], 2, b"", b"error: unrecognized"),
    (
        &[b"rheap", b"run", b"a", b"b"],
        2,
        b"",
        b"error: unexpected",
    ),
    (
        &[b"rheap", b"\xff"],
        2,
        b"",
        b"rheap: the command line is no text\n",
    ),
    (
        &[b"rheap", b"run", b"--", b"-x"],
        1,
        b"",
        b"rheap: open failed\n",
    ),
    (
        &[b"rheap", b"run", b"no such file"],
        1,
        b"",
        b"rheap: open failed\n",
    ),
    (&[b"rheap", b"run", b"/"], 1, b"", b"rheap: read failed\n"),
    (
        &[b"rheap", b"run", b"/dev/null"],
        1,
        b"",
        b"rheap: line 1: Empty\n",
    ),
];

/// What the options of a paced run come to: those that can't be taken, an empty trace, and one that
/// has a pace at a mark alone.
const PACED: &[Call<'static>] = &[
    (
        &[b"rheap", b"run", b"-", b"--paced"],
        1,
        b"",
        b"rheap: pace: TooSmall need 17\n",
    ),
    (
        &[b"rheap", b"run", b"--mark", b"4294967295", b"--paced", b"-"],
        0,
        WITHOUT_FIELDS_ANSWERS,
        b"",
    ),
    (
        &[b"rheap", b"run", b"-", b"--mark", b"3"],
        2,
        b"",
        MARK_FAULT,
    ),
    (
        &[b"rheap", b"run", b"-", b"--paced", b"--mark", b"03"],
        2,
        b"",
        MARK_FAULT,
    ),
    (
        &[b"rheap", b"run", b"-", b"--paced", b"--mark=4294967296"],
        2,
        b"",
        MARK_FAULT,
    ),
    (
        &[b"rheap", b"run", b"-", b"--paced", b"--mark"],
        2,
        b"",
        b"error: ",
    ),
    (
        &[b"rheap", b"dump", b"-", b"--paced"],
        2,
        b"",
        b"error: unexpected",
    ),
    (
        &[b"rheap", b"run", b"/dev/null", b"--paced"],
        1,
        b"",
        b"rheap: line 1: Empty\n",
    ),
];

/// What the options of a growing run come to: one that is played, limits for which there is no
/// heap, and options that can't be taken.
const GROWING: &[Call<'static>] = &[
    (
        &[b"rheap", b"run", b"--grow", b"16", b"--paced", b"-"],
        0,
        WITHOUT_FIELDS_ANSWERS,
        b"",
    ),
    (
        &[b"rheap", b"run", b"-", b"--paced", b"--grow=4294967295"],
        1,
        b"",
        b"rheap: grow: BadLimits\n",
    ),
    (
        &[b"rheap", b"run", b"-", b"--grow", b"16"],
        2,
        b"",
        GROW_FAULT,
    ),
    (
        &[
            b"rheap",
            b"run",
            b"-",
            b"--paced",
            b"--mark=3",
            b"--grow=16",
        ],
        2,
        b"",
        GROW_FAULT,
    ),
    (
        &[b"rheap", b"run", b"-", b"--paced", b"--grow", b"016"],
        2,
        b"",
        GROW_FAULT,
    ),
    (
        &[b"rheap", b"run", b"-", b"--paced", b"--grow=4294967296"],
        2,
        b"",
        GROW_FAULT,
    ),
    (
        &[b"rheap", b"run", b"-", b"--paced", b"--grow"],
        2,
        b"",
        b"error: ",
    ),
    (
        &[
            b"rheap",
            b"run",
            b"-",
            b"--paced",
            b"--grow=16",
            b"--grow=16",
        ],
        2,
        b"",
        b"error: ",
    ),
    (
        &[b"rheap", b"threads", b"-", b"--grow", b"16"],
        2,
        b"",
        b"error: unexpected",
    ),
];

/// The history of the calls of a trace without fields.
const WITHOUT_FIELDS_HISTORY: &[u8] =
    b"history 2 2\n1 alloc 1.0 0 = object 0\n1 load 1.1 1.0 0 = refused NoField\nend 2\n";

/// What the options of a run in threads come to.
const THREADS: &[Call<'static>] = &[
    (
        &[b"rheap", b"threads", b"--help"],
        0,
        b"Plays a trace of commands in threads",
        b"",
    ),
    (
        &[b"rheap", b"threads", b"-", b"--replicators=0"],
        0,
        WITHOUT_FIELDS_HISTORY,
        b"",
    ),
    (
        &[b"rheap", b"threads", b"--idle", b"65535", b"-"],
        0,
        WITHOUT_FIELDS_HISTORY,
        b"",
    ),
    (
        &[b"rheap", b"threads", b"-", b"--replicators", b"9"],
        2,
        b"",
        REPLICATORS_FAULT,
    ),
    (
        &[b"rheap", b"threads", b"-", b"--idle", b"65536"],
        2,
        b"",
        IDLE_FAULT,
    ),
    (
        &[b"rheap", b"run", b"-", b"--replicators", b"1"],
        2,
        b"",
        b"error: unexpected",
    ),
];

/// What a picture comes to: of a trace of three lines, after one of them and after one more, of what
/// is no trace, and of options that can't be taken.
const DRAWN: &[Call<'static>] = &[
    (&[b"rheap", b"draw", b"-"], 0, b"<svg ", b""),
    (
        &[b"rheap", b"draw", b"--line", b"3", b"-"],
        0,
        b"<svg ",
        b"",
    ),
    (
        &[b"rheap", b"draw", b"-", b"--line=4"],
        1,
        b"",
        b"rheap: draw: NoLine\n",
    ),
    (
        &[b"rheap", b"draw", b"/dev/null", b"--line=4"],
        1,
        b"",
        b"rheap: line 1: Empty\n",
    ),
    (
        &[b"rheap", b"draw", b"-", b"--line", b"0"],
        2,
        b"",
        LINE_FAULT,
    ),
    (&[b"rheap", b"draw", b"-", b"--line=07"], 2, b"", LINE_FAULT),
    (
        &[b"rheap", b"run", b"-", b"--line", b"3"],
        2,
        b"",
        b"error: unexpected",
    ),
];

/// What completions come to: for each shell the text that it begins with, and no shell.
const COMPLETED: &[Call<'static>] = &[
    (
        &[b"rheap", b"completions", b"bash"],
        0,
        b"# Completions of rheap for bash.",
        b"",
    ),
    (
        &[b"rheap", b"completions", b"zsh"],
        0,
        b"#compdef rheap",
        b"",
    ),
    (
        &[b"rheap", b"completions", b"fish"],
        0,
        b"# Completions of rheap for fish.",
        b"",
    ),
    (
        &[b"rheap", b"completions", b"sh"],
        2,
        b"",
        b"rheap: completions needs a shell: bash, zsh or fish\n",
    ),
    (&[b"rheap", b"completions"], 2, b"", b"error: "),
];

/// What a trace that is no history is told as, where that is explained.
const HEADER_EXPLAINED: &[u8] =
    b"rheap: line 1: Header\n1 | heap 16 8 4 2 2\n    ^^^^\nthis is a trace: rheap run reads it\n";

/// What each command does where faults are to be explained.
const EXPLAINED: &[Call<'static>] = &[
    (
        &[b"rheap", b"replay", b"-", b"--explain"],
        1,
        b"",
        HEADER_EXPLAINED,
    ),
    (
        &[b"rheap", b"run", b"--explain", b"-"],
        0,
        WITHOUT_FIELDS_ANSWERS,
        b"",
    ),
    (
        &[b"rheap", b"run", b"/dev/null", b"--explain"],
        1,
        b"",
        b"rheap: line 1: Empty\n1 | \n    ^\nthe file has no byte: a trace begins with heap WORDS RATIO LOG OWNERS SLOTS\n",
    ),
    (
        &[b"rheap", b"run", b"no such file", b"--explain"],
        1,
        b"",
        b"rheap: open failed\n",
    ),
    (
        &[b"rheap", b"run", b"-", b"--explain=1"],
        2,
        b"",
        b"error: ",
    ),
];

/// What views come to: texts on standard output, files that can't be opened or made, and options
/// that can't be taken. A fault is an object where JSON is asked for.
const VIEWED: &[Call<'static>] = &[
    (
        &[b"rheap", b"run", b"-", b"--echo"],
        0,
        WITHOUT_FIELDS_ECHO,
        b"",
    ),
    (
        &[b"rheap", b"run", b"--history", b"-", b"-"],
        0,
        WITHOUT_FIELDS_HISTORY,
        b"",
    ),
    (&[b"rheap", b"run", b"-", b"--cycles=-"], 0, COLUMNS, b""),
    (
        &[
            b"rheap",
            b"run",
            b"-",
            b"--paced",
            b"--grow=16",
            b"--cycles",
            b"-",
        ],
        0,
        COLUMNS,
        b"",
    ),
    (
        &[b"rheap", b"run", b"no such file", b"--echo"],
        1,
        b"",
        b"rheap: open failed\n",
    ),
    (
        &[b"rheap", b"run", b"no such file", b"--json"],
        1,
        b"",
        b"{\"fault\":\"open failed\"}\n",
    ),
    (
        &[b"rheap", b"run", b"-", b"--history", b"/"],
        1,
        b"",
        b"rheap: write failed\n",
    ),
    (
        &[b"rheap", b"run", b"-", b"--json", b"--cycles="],
        1,
        b"",
        b"{\"fault\":\"write failed\"}\n",
    ),
    (
        &[b"rheap", b"replay", b"-", b"--json"],
        1,
        b"",
        b"{\"fault\":\"line 1: Header\",\"line\":1,\"kind\":\"Header\"}\n",
    ),
    (
        &[b"rheap", b"dump", b"-", b"--json", b"--explain"],
        1,
        b"",
        b"{\"fault\":\"line 1: Header\",\"line\":1,\"kind\":\"Header\"}\n\
            1 | heap 16 8 4 2 2\n    ^^^^\nthis is a trace: rheap run reads it\n",
    ),
    (
        &[b"rheap", b"run", b"-", b"--echo", b"--json"],
        2,
        b"",
        VIEWS_FAULT,
    ),
    (
        &[b"rheap", b"run", b"-", b"--history=a", b"--cycles=a"],
        2,
        b"",
        CROSSED_FAULT,
    ),
    (
        &[b"rheap", b"run", b"-", b"--history=-", b"--cycles=-"],
        2,
        b"",
        VIEWS_FAULT,
    ),
    (
        &[b"rheap", b"run", b"a", b"--json", b"--cycles", b"a"],
        2,
        b"",
        CROSSED_FAULT,
    ),
    (
        &[b"rheap", b"dump", b"-", b"--dot", b"--json"],
        2,
        b"",
        VIEWS_FAULT,
    ),
    (
        &[b"rheap", b"run", b"-", b"--trace-events"],
        2,
        b"",
        EVENTS_FAULT,
    ),
    (
        &[b"rheap", b"dump", b"-", b"--dot", b"--heapsnapshot=-"],
        2,
        b"",
        FORMS_FAULT,
    ),
    (
        &[b"rheap", b"dump", b"-", b"--why=7", b"--json"],
        2,
        b"",
        FORMS_FAULT,
    ),
    (
        &[b"rheap", b"dump", b"-", b"--why", b"7.0"],
        2,
        b"",
        OBJECT_FAULT,
    ),
    (
        &[b"rheap", b"dump", b"a", b"--heapsnapshot=a"],
        2,
        b"",
        CROSSED_FAULT,
    ),
    (
        &[b"rheap", b"dump", b"-", b"--echo"],
        2,
        b"",
        b"error: unexpected",
    ),
    (
        &[b"rheap", b"replay", b"-", b"--history", b"a"],
        2,
        b"",
        b"error: unexpected",
    ),
    (
        &[b"rheap", b"threads", b"-", b"--json"],
        2,
        b"",
        b"error: unexpected",
    ),
    (&[b"rheap", b"run", b"-", b"--cycles"], 2, b"", b"error: "),
];

/// Programs of the small Scheme. The input is a word that no program knows.
const PROGRAMS: &[Call<'static>] = &[
    (
        &[b"rheap", b"lisp", b"-"],
        1,
        b"",
        b"-:1:1: heap: unbound variable\n",
    ),
    (
        &[b"rheap", b"lisp", b"--help"],
        0,
        b"Runs a program of a small Scheme",
        b"",
    ),
    (
        &[b"rheap", b"lisp", b"no such file"],
        1,
        b"",
        b"rheap: open failed\n",
    ),
    (
        &[b"rheap", b"lisp", b"-", b"--heap=100"],
        1,
        b"",
        b"rheap: pace: TooSmall need 2669\n",
    ),
    (
        &[b"rheap", b"lisp", b"-", b"--grow=8617"],
        1,
        b"",
        b"rheap: pace: TooSmall need 8618\n",
    ),
    (
        &[b"rheap", b"lisp", b"-", b"--steps=1"],
        1,
        b"",
        b"-:1:1: steps spent\n",
    ),
    (
        &[b"rheap", b"lisp", b"-", b"--heap", b"9000", b"--grow=9000"],
        2,
        b"",
        WORDS_FAULT,
    ),
    (
        &[b"rheap", b"lisp", b"-", b"--grow=all"],
        2,
        b"",
        WORDS_FAULT,
    ),
    (
        &[b"rheap", b"lisp", b"-", b"--steps=many"],
        2,
        b"",
        STEPS_FAULT,
    ),
    (
        &[b"rheap", b"lisp", b"-", b"--cycles=-"],
        1,
        COLUMNS,
        b"-:1:1: heap: unbound variable\n",
    ),
    (
        &[b"rheap", b"lisp", b"no such file", b"--cycles=-"],
        1,
        b"",
        b"rheap: open failed\n",
    ),
    (
        &[b"rheap", b"lisp", b"-", b"--cycles", b"/"],
        1,
        b"",
        b"rheap: write failed\n",
    ),
    (&[b"rheap", b"lisp", b"--cycles=a"], 2, b"", SESSION_FAULT),
    (
        &[b"rheap", b"lisp", b"a", b"--cycles=a"],
        2,
        b"",
        CROSSED_FAULT,
    ),
    (
        &[b"rheap", b"lisp", b"-", b"--cycles"],
        2,
        b"",
        b"error: a value is required",
    ),
    (
        &[b"rheap", b"lisp", b"-", b"--history=a"],
        2,
        b"",
        b"error: unexpected",
    ),
    (
        &[b"rheap", b"lisp", b"-", b"--explain"],
        1,
        b"",
        b"-:1:1: heap: unbound variable\n1 | heap\n    ^^^^\nthe name has no value yet: (define NAME VALUE) gives it one\n",
    ),
    (
        &[b"rheap", b"lisp"],
        0,
        b"",
        b"-:1:1: heap: unbound variable\n",
    ),
];

/// The same where standard output is closed.
const CLOSED: &[Call<'static>] = &[
    (&[b"rheap", b"--version"], 1, b"", b"rheap: write failed\n"),
    (
        &[b"rheap", b"run", b"--help"],
        1,
        b"",
        b"rheap: write failed\n",
    ),
    (&[b"rheap", b"run", b"-"], 1, b"", b"rheap: write failed\n"),
    (&[b"rheap", b"shell"], 1, b"", b"rheap: write failed\n"),
    (
        &[b"rheap", b"run", b"-", b"--json"],
        1,
        b"",
        b"{\"fault\":\"write failed\"}\n",
    ),
    (
        &[b"rheap", b"run", b"-", b"--cycles", b"-"],
        1,
        b"",
        b"rheap: write failed\n",
    ),
];

/// Plays the program with each of these calls, and this as standard input, and expects what is due.
fn expect_calls(
    test: &(impl Abort + Threads + Wait + Sync),
    rt: &HostRuntime,
    input: &[u8],
    is_closed: bool,
    calls: &[Call<'_>],
) {
    for (row, call) in calls.iter().enumerate() {
        expect_played(&Row { rt: test, row }, rt, input, is_closed, call);
    }
}

#[test]
fn calls_of_the_program(rt: HostRuntime) {
    expect_calls(&rt, &rt, WITHOUT_FIELDS, false, CALLS);
    expect_calls(&rt, &rt, WITHOUT_FIELDS, false, PACED);
    expect_calls(&rt, &rt, WITHOUT_FIELDS, false, GROWING);
    expect_calls(&rt, &rt, WITHOUT_FIELDS, false, THREADS);
    expect_calls(&rt, &rt, WITHOUT_FIELDS, false, DRAWN);
    expect_calls(&rt, &rt, WITHOUT_FIELDS, false, COMPLETED);
    expect_calls(&rt, &rt, WITHOUT_FIELDS, false, EXPLAINED);
    expect_calls(&rt, &rt, WITHOUT_FIELDS, false, VIEWED);
    expect_calls(&rt, &rt, b"heap\n", false, PROGRAMS);
    expect_calls(&rt, &rt, WITHOUT_FIELDS, true, CLOSED);
}

/// A session whose standard input is a terminal.
#[test]
fn a_session_shows_its_prompts(rt: HostRuntime) {
    let args: &[&[u8]] = &[b"rheap", b"shell"];
    let input = b"heap 64 8 8 2 2\n1 alloc 1.0 2\n";
    let terminals = Terminals {
        input: true,
        error: false,
    };
    let (status, printed, told) = played(&rt, &rt, (args, input), false, terminals);
    expect_equal(&rt, status, 0);
    expect_prefix(&rt, &printed, b"object 2\ntotal ");
    expect_bytes(&rt, &told, b"> > > \n");
}
