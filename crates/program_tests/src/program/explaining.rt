//! What is told of a text that fails, where it is explained.

use crate::expectations::{Row, expect_bytes, expect_equal, expect_refusals};
use crate::program::driving::{DUMP, PACED, REPLAY, RUN, THREADS};
use refusing::refused_in_turn;
use rh_cli::{Ask, KeptReader, PLAIN, Subcommand, drive_explained};
use samples::devices::SlowReader;
use samples::texts::{WHOLE_CYCLE, WHOLE_CYCLE_ANSWERS};
use std::alloc::Allocator;
use std::io::Read;
use std::process::Abort;
use std::sync::Wait;
use std::thread::Threads;

/// A run that grows to fewer words than it begins with.
const GROWING: Ask<'static> = Ask {
    subcommand: Subcommand::RunGrowing { at_most: 20 },
    file: "-",
    explain: true,
    out: None,
    views: PLAIN,
};

/// A picture of a line that isn't there.
const BEYOND: Ask<'static> = Ask {
    subcommand: Subcommand::Draw { line: Some(40) },
    file: "-",
    explain: true,
    out: None,
    views: PLAIN,
};

/// A trace with a mistyped command, and what is told of it.
const MISTYPED: (Ask<'static>, &[u8], &[u8]) = (
    RUN,
    b"heap 64 8 16 2 2\n1 aloc 1.0 2\n",
    b"rheap: line 2: Word\n2 | 1 aloc 1.0 2\n      ^^^^\nno such command; did you mean alloc?\n",
);

/// Traces that fail, or whose sizes make no heap, and what is told of them.
const TRACES: &[(Ask<'static>, &[u8], &[u8])] = &[
    (
        RUN,
        b"",
        b"rheap: line 1: Empty\n1 | \n    ^\nthe file has no byte: a trace begins with heap WORDS RATIO LOG OWNERS SLOTS\n",
    ),
    (
        RUN,
        b"heap 64 8 16 2 2\n1 alloc 1.0 0000000000000000000000000000000000000000000000000000000000000000000000000000000000000000000000000000000000000000000000000000000000000000000000000000000000000000000000000000000000000000000000000000000000000000000000000000000000000000000000000000000000\n",
        b"rheap: line 2: Long\n2 | ..000000000000000000000000\n                        ^^^^^^\na line has at most 256 bytes before its line end\n",
    ),
    (
        RUN,
        b"heap 64 8 16 2 2\n1 alloc 1.0 2",
        b"rheap: line 2: Cut\n2 | 1 alloc 1.0 2\n                 ^\nthe line has no line end: a line feed ends each line\n",
    ),
    (
        RUN,
        b"heap 64 8 16 2 2\n1\talloc 1.0 2\n",
        b"rheap: line 2: Form\n2 | 1\\x09alloc 1.0 2\n     ^^^^\na tab: parts are set apart by one space\n",
    ),
    (
        RUN,
        b"heap 64 8 16 2 2\n1 drop 1.0\r\n",
        b"rheap: line 2: Form\n2 | 1 drop 1.0\\x0d\n              ^^^^\nthe line ends with a carriage return: a line feed alone ends each line\n",
    ),
    (
        RUN,
        b"heap 64 8 16 2 2\n\n",
        b"rheap: line 2: Form\n2 | \n    ^\na blank line: each line has a keyword\n",
    ),
    (
        RUN,
        b"heap 64 8 16 2 2\nflip \n",
        b"rheap: line 2: Form\n2 | flip \n        ^\na space at the end: a line ends with its last part\n",
    ),
    (
        RUN,
        b"heap 64 8 16 2 2\n1  drop 1.0\n",
        b"rheap: line 2: Form\n2 | 1  drop 1.0\n      ^\na second space: one stands between two parts\n",
    ),
    (
        RUN,
        b"history 2 2\nend 0\n",
        b"rheap: line 1: Header\n1 | history 2 2\n    ^^^^^^^\nthis is a history: rheap replay reads it\n",
    ),
    (
        RUN,
        b"rheap 2\nroots 0\nobjects 0\nend\n",
        b"rheap: line 1: Header\n1 | rheap 2\n    ^^^^^\nthis is a dump: rheap dump reads it\n",
    ),
    (
        RUN,
        b"heap 64 8 16 2\n",
        b"rheap: line 1: Header\n1 | heap 64 8 16 2\n                  ^\na number is missing: the first line is heap WORDS RATIO LOG OWNERS SLOTS\n",
    ),
    (
        RUN,
        b"heap 64 8 16 2 2 2\n",
        b"rheap: line 1: Header\n1 | heap 64 8 16 2 2 2\n                     ^\na part too many: the first line is heap WORDS RATIO LOG OWNERS SLOTS\n",
    ),
    MISTYPED,
    (
        RUN,
        b"heap 64 8 16 2 2\ndrop 1.0\n",
        b"rheap: line 2: Word\n2 | drop 1.0\n    ^^^^\nan owner is missing before drop, as in 1 drop ..\n",
    ),
    (
        RUN,
        b"heap 64 8 16 2 2\n1 begin\n",
        b"rheap: line 2: Word\n2 | 1 begin\n      ^^^^^\nno owner stands before begin: the line begins with it\n",
    ),
    (
        RUN,
        b"heap 64 8 16 2 2\nfrobnicate\n",
        b"rheap: line 2: Word\n2 | frobnicate\n    ^^^^^^^^^^\nno such command: an owner and a command, or a line of a cycle; see rheap run --help\n",
    ),
    (
        RUN,
        b"heap 64 8 16 2 2\n1\n",
        b"rheap: line 2: Form\n2 | 1\n     ^\na command is missing after the owner, as in 1 drop 1.0\n",
    ),
    (
        RUN,
        b"heap 64 8 16 2 2\n1 load 1.0 1.1\n",
        b"rheap: line 2: Form\n2 | 1 load 1.0 1.1\n                  ^\nFIELD is missing: OWNER load DST SRC FIELD\n",
    ),
    (
        RUN,
        b"heap 64 8 16 2 2\nflip now\n",
        b"rheap: line 2: Form\n2 | flip now\n         ^^^\na part too many: the line ends before it\n",
    ),
    (
        RUN,
        b"heap 64 8 16 2 2\ndeal x 1 t\n",
        b"rheap: line 2: Word\n2 | deal x 1 t\n         ^\ncopies or entries is due here\n",
    ),
    (
        RUN,
        b"heap 64 8 16 2 2\nidle 4294967296\n",
        b"rheap: line 2: Number\n2 | idle 4294967296\n         ^^^^^^^^^^\na number out of its range: 0 to 4294967295\n",
    ),
    (
        RUN,
        b"heap 64 8 16 2 2\n1 alloc 1.0 x\n",
        b"rheap: line 2: Number\n2 | 1 alloc 1.0 x\n                ^\na number is due here: digits without a leading zero, 0 to 4294967295\n",
    ),
    (
        RUN,
        b"heap 64 8 16 2 2\n1 drop 10\n",
        b"rheap: line 2: Root\n2 | 1 drop 10\n           ^^\na root is due here: OWNER.SLOT as 1.0, two numbers from 0 to 4294967295\n",
    ),
    (
        RUN,
        b"heap 64 8 16 2 2\n1 store 1.0 0 x\n",
        b"rheap: line 2: Number\n2 | 1 store 1.0 0 x\n                  ^\nnil, a root as 1.0, or -2^63 to 2^63 - 1 is due here; no + and no leading zero\n",
    ),
    (
        RUN,
        b"heap 64 8 16 2 2\ngive T\n",
        b"rheap: line 2: Tray\n2 | give T\n         ^\na tray is due here: a letter a to z, then at most 15 of a to z, 0 to 9 and _\n",
    ),
    (
        RUN,
        b"heap 64 x 16 2 2\n",
        b"rheap: line 1: Number\n1 | heap 64 x 16 2 2\n            ^\na number is due here: digits without a leading zero, 0 to 4294967295\n",
    ),
    (
        RUN,
        b"heap 7 8 16 2 2\n",
        b"rheap: heap: BadSpace\n1 | heap 7 8 16 2 2\n         ^\nWORDS is out of its range: 8 to 16777216\n",
    ),
    (
        RUN,
        b"heap 64 65 16 2 2\n",
        b"rheap: heap: BadRatio\n1 | heap 64 65 16 2 2\n            ^^\nRATIO is out of its range: 1 to 64\n",
    ),
    (
        RUN,
        b"heap 64 8 0 2 2\n",
        b"rheap: heap: BadLog\n1 | heap 64 8 0 2 2\n              ^\nLOG is out of its range: 1 to 1048576\n",
    ),
    (
        RUN,
        b"heap 64 8 16 17 2\n",
        b"rheap: heap: BadRoots\n1 | heap 64 8 16 17 2\n                 ^^\nOWNERS is out of its range: 1 to 16\n",
    ),
    (
        RUN,
        b"heap 64 8 16 2 257\n",
        b"rheap: heap: BadRoots\n1 | heap 64 8 16 2 257\n                   ^^^\nSLOTS is out of its range: 1 to 256\n",
    ),
    (
        PACED,
        b"heap 64 8 16 2 2\n1 alloc 1.0 2\nbegin\n",
        b"rheap: line 3: Word\n3 | begin\n    ^^^^^\nline 3 is no command: only commands stand with --paced; without --paced it runs\n",
    ),
    (
        PACED,
        b"heap 64 8 16 2 2\n1 watch 1.0\n",
        b"rheap: line 2: Word\n2 | 1 watch 1.0\n      ^^^^^\nline 2 is no command: only commands stand with --paced; without --paced it runs\n",
    ),
    (
        PACED,
        b"heap 64 3 16 2 2\n",
        b"rheap: pace: RatioTooLow\n1 | heap 64 3 16 2 2\n            ^\nRATIO is too low for a pace that keeps up: at least 4 is needed\n",
    ),
    (
        PACED,
        b"heap 16 8 16 2 2\n1 alloc 1.0 9\n",
        b"rheap: pace: TooSmall need 74\n1 | heap 16 8 16 2 2\n         ^^\nWORDS is too small for a pace that keeps up: at least 74 are needed\n",
    ),
    (
        GROWING,
        b"heap 64 8 16 2 2\n",
        b"rheap: grow: BadLimits\n1 | heap 64 8 16 2 2\n         ^^\n--grow 20 is out of its range: from these WORDS to 16777216\n",
    ),
    (
        THREADS,
        b"heap 64 8 16 2 2\n1 alloc 1.0 2\nflip\n",
        b"rheap: line 3: Word\n3 | flip\n    ^^^^\nline 3 is no command: only commands run in threads; rheap run takes this line\n",
    ),
    (
        THREADS,
        b"heap 64 8 16 2 2\n1 alloc 1.0 2\n2 drop 1.0\n",
        b"rheap: line 3: Root\n3 | 2 drop 1.0\n    ^\nOWNERS is 2 in the first line, and they count from 0: a lower owner is due here\n",
    ),
    (
        RUN,
        b"heap 64 8 16 2 2\n1 ALLOC 1.0 2\n",
        b"rheap: line 2: Word\n2 | 1 ALLOC 1.0 2\n      ^^^^^\nno such command; did you mean alloc?\n",
    ),
    (
        RUN,
        b"heap 64 8 16 2 2\nFLIP\n",
        b"rheap: line 2: Word\n2 | FLIP\n    ^^^^\nno such command; did you mean flip?\n",
    ),
    (
        RUN,
        b"heap 64 8 16 2 2\nset 1.0 5\n",
        b"rheap: line 2: Word\n2 | set 1.0 5\n    ^^^\nno such command: an owner and a command, or a line of a cycle; see rheap run --help\n",
    ),
    (
        RUN,
        b"heap 64 8 16 2 2\n1 move 1.0 1.1\n",
        b"rheap: line 2: Word\n2 | 1 move 1.0 1.1\n      ^^^^\nno such command: alloc, raw, load, store, copy, same, drop and watch have an owner before them\n",
    ),
    (
        RUN,
        b"heap 64 8 16 2 2\nheap 64 8 16 2 2\n",
        b"rheap: line 2: Word\n2 | heap 64 8 16 2 2\n    ^^^^\nheap stands in the first line alone\n",
    ),
    (
        RUN,
        b"heap 64 8 16 2 2\n# a cycle\n",
        b"rheap: line 2: Word\n2 | # a cycle\n    ^\nthere are no comments: each line is read\n",
    ),
    (
        RUN,
        b"\xef\xbb\xbfheap 64 8 16 2 2\n",
        b"rheap: line 1: Form\n1 | \\xef\\xbb\\xbfheap 64 8 16 2 2\n    ^^^^\na byte order mark: the file begins with its first line\n",
    ),
    (
        RUN,
        b"heap 64 8 16 2 2\n1 drop 1.0\t\n",
        b"rheap: line 2: Form\n2 | 1 drop 1.0\\x09\n              ^^^^\na tab: parts are set apart by one space\n",
    ),
    (
        RUN,
        b"heap 64 8 16 2 2\n1 store 1.0 0 -1.5\n",
        b"rheap: line 2: Root\n2 | 1 store 1.0 0 -1.5\n                  ^^^^\na part with a dot is a root, OWNER.SLOT as 1.0; there are no fractions\n",
    ),
    (
        RUN,
        b"heap 64 8 16 2 2\n1 alloc 1.0\n",
        b"rheap: line 2: Form\n2 | 1 alloc 1.0\n               ^\nFIELDS is missing: OWNER alloc ROOT FIELDS\n",
    ),
    (
        RUN,
        b"heap 64 8 16 2 2\ndeal entries\n",
        b"rheap: line 2: Form\n2 | deal entries\n                ^\nMOST is missing: deal copies MOST TRAY, or deal entries MOST TRAY\n",
    ),
    (
        THREADS,
        b"heap 64 8 16 1 2\n1 drop 1.0\n",
        b"rheap: line 2: Root\n2 | 1 drop 1.0\n    ^\nOWNERS is 1 in the first line, and they count from 0: a lower owner is due here\n",
    ),
    (
        BEYOND,
        b"heap 64 8 16 2 2\n1 drop 1.0\n",
        b"rheap: draw: NoLine\n2 | 1 drop 1.0\n    ^^^^^^^^^^\n--line 40 is too great: the trace has 2 lines\n",
    ),
];

/// Histories that fail, and what is told of them.
const HISTORIES: &[(Ask<'static>, &[u8], &[u8])] = &[
    (
        REPLAY,
        b"",
        b"rheap: line 1: Empty\n1 | \n    ^\nthe file has no byte: a history begins with history OWNERS SLOTS\n",
    ),
    (
        REPLAY,
        b"heap 2 2\n",
        b"rheap: line 1: Header\n1 | heap 2 2\n    ^^^^\nthis is a trace: rheap run reads it\n",
    ),
    (
        REPLAY,
        b"rheap 2\n",
        b"rheap: line 1: Header\n1 | rheap 2\n    ^^^^^\nthis is a dump: rheap dump reads it\n",
    ),
    (
        REPLAY,
        b"history 2\n",
        b"rheap: line 1: Header\n1 | history 2\n             ^\nthe first line is history OWNERS SLOTS\n",
    ),
    (
        REPLAY,
        b"history 2 2 2\n",
        b"rheap: line 1: Header\n1 | history 2 2 2\n                ^\nthe first line is history OWNERS SLOTS\n",
    ),
    (
        REPLAY,
        b"help 2 2\n",
        b"rheap: line 1: Header\n1 | help 2 2\n    ^^^^\nthe first line is history OWNERS SLOTS\n",
    ),
    (
        REPLAY,
        b"history 17 2\n",
        b"rheap: line 1: Number\n1 | history 17 2\n            ^^\nOWNERS is out of its range: 1 to 16\n",
    ),
    (
        REPLAY,
        b"history 2 0\n",
        b"rheap: line 1: Number\n1 | history 2 0\n              ^\nSLOTS is out of its range: 1 to 256\n",
    ),
    (
        REPLAY,
        b"history 2 2\nend 0\nend 0\n",
        b"rheap: line 3: Trailing\n3 | end 0\n    ^^^^^\na line after the last one, end\n",
    ),
    (
        REPLAY,
        b"history 2 2\n1 drop 1.0 = done\nend 2\n",
        b"rheap: line 3: Count\n3 | end 2\n        ^\nend has another number than that of the calls: 1\n",
    ),
    (
        REPLAY,
        b"history 2 2\n1 drop 1.0 = done\n",
        b"rheap: line 3: End\n3 | \n    ^\nthe last line is missing: end 1, with the number of the calls\n",
    ),
    (
        REPLAY,
        b"history 2 2\n1 drop 1.0\nend 1\n",
        b"rheap: line 2: Answer\n2 | 1 drop 1.0\n              ^\nan answer is missing: = and the answer follow the command, as in 1 drop 1.0 = done\n",
    ),
    (
        REPLAY,
        b"history 2 2\n1 drop 1.0 = dome\nend 1\n",
        b"rheap: line 2: Answer\n2 | 1 drop 1.0 = dome\n                 ^^^^\nan answer is due here: done, nil, int N, object K, raw K, same yes, same no or refused NAME, NAME one of NoRoot, NotYours, NotObject, NoField, RawField, IntRange, FieldsRange\n",
    ),
    (
        REPLAY,
        b"history 2 2\n1 drop 1.0 =\nend 1\n",
        b"rheap: line 2: Answer\n2 | 1 drop 1.0 =\n                ^\nan answer is due here: done, nil, int N, object K, raw K, same yes, same no or refused NAME, NAME one of NoRoot, NotYours, NotObject, NoField, RawField, IntRange, FieldsRange\n",
    ),
    (
        REPLAY,
        b"history 2 2\n1 alloc 1.0 9 = refused SpaceFull\nend 1\n",
        b"rheap: line 2: Answer\n2 | 1 alloc 1.0 9 = refused SpaceFull\n                    ^^^^^^^^^^^^^^^^^\na call that a limit refused stands in no history: leave this line out\n",
    ),
    (
        REPLAY,
        b"history 2 2\n1 drop 10 = done\nend 1\n",
        b"rheap: line 2: Root\n2 | 1 drop 10 = done\n           ^^\na root is due here: OWNER.SLOT as 1.0, two numbers from 0 to 4294967295\n",
    ),
    (
        REPLAY,
        b"history 2 2\n1 drop = done\nend 1\n",
        b"rheap: line 2: Form\n2 | 1 drop = done\n          ^\nROOT is missing: OWNER drop ROOT = ANSWER\n",
    ),
    (
        REPLAY,
        b"history 2 2\n1 drop 1.0 1.1 = done\nend 1\n",
        b"rheap: line 2: Form\n2 | 1 drop 1.0 1.1 = done\n               ^^^\na part too many: = and the answer follow the command\n",
    ),
    (
        REPLAY,
        b"history 2 2\nbegin = done\nend 1\n",
        b"rheap: line 2: Word\n2 | begin = done\n    ^^^^^\nonly commands have answers: alloc, raw, load, store, copy, same and drop\n",
    ),
    (
        REPLAY,
        b"history 2 2\n1 drap 1.0 = done\nend 1\n",
        b"rheap: line 2: Word\n2 | 1 drap 1.0 = done\n      ^^^^\nno such command; did you mean drop?\n",
    ),
    (
        REPLAY,
        b"history 2 2\n= done\nend 1\n",
        b"rheap: line 2: Word\n2 | = done\n    ^\na command is missing before =, as in 1 drop 1.0 = done\n",
    ),
    (
        REPLAY,
        b"history 2 2\nend\n",
        b"rheap: line 2: Form\n2 | end\n       ^\nthe last line is end N: N is the number of the calls, 0\n",
    ),
    (
        REPLAY,
        b"history 2 2\nend x\n",
        b"rheap: line 2: Number\n2 | end x\n        ^\nthe last line is end N: N is the number of the calls, 0\n",
    ),
    (
        REPLAY,
        b"history 2 2\nend 0 0\n",
        b"rheap: line 2: Form\n2 | end 0 0\n          ^\nthe last line is end N: N is the number of the calls, 0\n",
    ),
    (
        REPLAY,
        b"history 2 2\n1  drop 1.0 = done\nend 1\n",
        b"rheap: line 2: Form\n2 | 1  drop 1.0 = done\n      ^\na second space: one stands between two parts\n",
    ),
    (
        REPLAY,
        b"history 2 2\nend 0",
        b"rheap: line 2: Cut\n2 | end 0\n         ^\nthe line has no line end: a line feed ends each line\n",
    ),
    (
        REPLAY,
        b"history 2 2\nfrobnicate = done\nend 1\n",
        b"rheap: line 2: Word\n2 | frobnicate = done\n    ^^^^^^^^^^\nno such command: a call has an owner first, and the last line is end 0\n",
    ),
    (
        REPLAY,
        b"history 2 2\n1 move 1.0 = done\nend 1\n",
        b"rheap: line 2: Word\n2 | 1 move 1.0 = done\n      ^^^^\nonly commands have answers: alloc, raw, load, store, copy, same and drop\n",
    ),
    (
        REPLAY,
        b"history 2 2\n1 store 1.0 0 1.x = done\nend 1\n",
        b"rheap: line 2: Root\n2 | 1 store 1.0 0 1.x = done\n                  ^^^\na part with a dot is a root, OWNER.SLOT as 1.0; there are no fractions\n",
    ),
];

/// Dumps that fail, and what is told of them.
const DUMPS: &[(Ask<'static>, &[u8], &[u8])] = &[
    (
        DUMP,
        b"",
        b"rheap: line 1: End\n1 | \n    ^\nthe text ends too early: the line rheap 2 is missing\n",
    ),
    (
        DUMP,
        b"heap 2 2\n",
        b"rheap: line 1: Header\n1 | heap 2 2\n    ^^^^\nthis is a trace: rheap run reads it\n",
    ),
    (
        DUMP,
        b"history 2 2\n",
        b"rheap: line 1: Header\n1 | history 2 2\n    ^^^^^^^\nthis is a history: rheap replay reads it\n",
    ),
    (
        DUMP,
        b"rheap 3\n",
        b"rheap: line 1: Header\n1 | rheap 3\n    ^^^^^^^\nthe first line is rheap 2\n",
    ),
    (
        DUMP,
        b"rheap 2\r\n",
        b"rheap: line 1: Header\n1 | rheap 2\\x0d\n           ^^^^\nthe line ends with a carriage return: a line feed alone ends each line\n",
    ),
    (
        DUMP,
        b"rheap 2\n",
        b"rheap: line 2: End\n2 | \n    ^\nthe text ends too early: the line roots R is missing\n",
    ),
    (
        DUMP,
        b"rheap 2\nroots x\n",
        b"rheap: line 2: Number\n2 | roots x\n          ^\na number is due here: 0 to 4096, without a leading zero\n",
    ),
    (
        DUMP,
        b"rheap 2\nroots 4097\n",
        b"rheap: line 2: Number\n2 | roots 4097\n          ^^^^\na number is due here: 0 to 4096, without a leading zero\n",
    ),
    (
        DUMP,
        b"rheap 2\nroot 1\n",
        b"rheap: line 2: Form\n2 | root 1\n    ^^^^^^\nanother line is due here: roots R\n",
    ),
    (
        DUMP,
        b"rheap 2\nroots 1\n1.0 nil\n",
        b"rheap: line 3: Form\n3 | 1.0 nil\n        ^^^\na root that is nil has no line in a dump\n",
    ),
    (
        DUMP,
        b"rheap 2\nroots 1\n1.x 5\n",
        b"rheap: line 3: Number\n3 | 1.x 5\n    ^^^\na root is due here: OWNER.SLOT, owners 0 to 15 and slots 0 to 255\n",
    ),
    (
        DUMP,
        b"rheap 2\nroots 1\n16.0 5\n",
        b"rheap: line 3: Number\n3 | 16.0 5\n    ^^^^\na root is due here: OWNER.SLOT, owners 0 to 15 and slots 0 to 255\n",
    ),
    (
        DUMP,
        b"rheap 2\nroots 1\n1.0 x\n",
        b"rheap: line 3: Number\n3 | 1.0 x\n        ^\na root's value is due here: -2^61 to 2^61 - 1, or @K with K from 0 to 16777215\n",
    ),
    (
        DUMP,
        b"rheap 2\nroots 1\n1.0 @1\n",
        b"rheap: line 3: Order\n3 | 1.0 @1\n        ^^\nobjects are numbered as they are met: the next that is met is @0\n",
    ),
    (
        DUMP,
        b"rheap 2\nroots 2\n1.1 5\n1.0 5\n",
        b"rheap: line 4: Order\n4 | 1.0 5\n    ^^^\nroots stand in order of owner, then slot: a later root than the one before is due\n",
    ),
    (
        DUMP,
        b"rheap 2\nroots 1\n1.0 @0\nobjects 0\n",
        b"rheap: line 4: Count\n4 | objects 0\n            ^\nthe roots refer to 1 objects: at least as many are due\n",
    ),
    (
        DUMP,
        b"rheap 2\nroots 1\n1.0 @0\n1.1 @0\n",
        b"rheap: line 4: Form\n4 | 1.1 @0\n    ^^^^^^\nobjects N is due here: the line roots says 1\n",
    ),
    (
        DUMP,
        b"rheap 2\nroots 1\n1.0 @0\nobjects 1\n@1 0\n",
        b"rheap: line 5: Order\n5 | @1 0\n    ^^\nobjects stand in order of their numbers: the next is @0\n",
    ),
    (
        DUMP,
        b"rheap 2\nroots 1\n1.0 @0\nobjects 1\n@x 0\n",
        b"rheap: line 5: Number\n5 | @x 0\n    ^^\nthe object's number is due here: @K, K is 0 to 16777215\n",
    ),
    (
        DUMP,
        b"rheap 2\nroots 0\nobjects 1\n@0 0\nend\n",
        b"rheap: line 4: Count\n4 | @0 0\n    ^^\nnothing above refers to this object\n",
    ),
    (
        DUMP,
        b"rheap 2\nroots 1\n1.0 @0\nobjects 1\n@0 1 @1\n",
        b"rheap: line 5: Count\n5 | @0 1 @1\n         ^^\nthe dump has 1 objects: references are to those below @1\n",
    ),
    (
        DUMP,
        b"rheap 2\nroots 1\n1.0 @0\nobjects 1\n@0 2 5\n",
        b"rheap: line 5: Form\n5 | @0 2 5\n          ^\nthe object has 2 fields: as many values follow\n",
    ),
    (
        DUMP,
        b"rheap 2\nroots 1\n1.0 @0\nobjects 1\n@0 1 5 6\n",
        b"rheap: line 5: Form\n5 | @0 1 5 6\n           ^\nthe object has 1 fields: as many values follow\n",
    ),
    (
        DUMP,
        b"rheap 2\nroots 1\n1.0 @0\nobjects 1\n@0 4096\n",
        b"rheap: line 5: Number\n5 | @0 4096\n       ^^^^\na number is due here: 0 to 4095, without a leading zero\n",
    ),
    (
        DUMP,
        b"rheap 2\nroots 1\n1.0 @0\nobjects 1\n@0 1 x\n",
        b"rheap: line 5: Number\n5 | @0 1 x\n         ^\na value is due here: nil, -2^61 to 2^61 - 1, or @K with K from 0 to 16777215\n",
    ),
    (
        DUMP,
        b"rheap 2\nroots 1\n1.0 @0\nobjects 3\n@0 3 nil @1 @3\n",
        b"rheap: line 5: Order\n5 | @0 3 nil @1 @3\n                ^^\nobjects are numbered as they are met: the next that is met is @2\n",
    ),
    (
        DUMP,
        b"rheap 2\nroots 1\n1.0 @0\nobjects 3\n@0 raw 2 nil @0\n",
        b"rheap: line 5: Number\n5 | @0 raw 2 nil @0\n                 ^^\na raw object holds nil and whole numbers alone, from -2^61 to 2^61 - 1\n",
    ),
    (
        DUMP,
        b"rheap 1\nroots 1\n1.0 @0\nobjects 3\n@0 raw 2 nil @0\n",
        b"rheap: line 5: Number\n5 | @0 raw 2 nil @0\n       ^^^\nno object is raw in version 1: the first line is rheap 2 then\n",
    ),
    (
        DUMP,
        b"rheap 2\nroots 1\n1.0 @0\nobjects 1\n@0 0\nend\n\n",
        b"rheap: line 7: Trailing\n7 | \n    ^\na line after the last one, end\n",
    ),
    (
        DUMP,
        b"rheap 2\nroots 1\n1.0 @0\nobjects 1\n@0 0\nnoend\n",
        b"rheap: line 6: Form\n6 | noend\n    ^^^^^\nend is due here: the line objects says 1\n",
    ),
    (
        DUMP,
        b"rheap 2\nroots 1\n1.0 @0\nobjects 1\n@0 0",
        b"rheap: line 5: End\n5 | @0 0\n        ^\nthe line has no line end: a line feed ends each line\n",
    ),
    (
        DUMP,
        b"rheap 2\nroots 1\n1.0 @0\nobjects 1\n@0  0\n",
        b"rheap: line 5: Form\n5 | @0  0\n       ^\na second space: one stands between two parts\n",
    ),
    (
        DUMP,
        b"rheap 2\nroots 1\n1.0 @0\nobjects 1\n@0 0 \n",
        b"rheap: line 5: Form\n5 | @0 0 \n        ^\na space at the end: a line ends with its last part\n",
    ),
    (
        DUMP,
        b"rheap 2\nroots 1\n1.0 @0\nobjects 1\n @0 0\n",
        b"rheap: line 5: Form\n5 |  @0 0\n    ^\na space at the start: a line begins with its first part\n",
    ),
    (
        DUMP,
        b"rheap 2\nroots 1\n1.0 @0\nobjects 1\n@0\t0\n",
        b"rheap: line 5: Form\n5 | @0\\x090\n      ^^^^\na tab: parts are set apart by one space\n",
    ),
    (
        DUMP,
        b"rheap 2\nroots 1\n1.0 @0\nobjects 1\n@0\n",
        b"rheap: line 5: Form\n5 | @0\n    ^^\nanother line is due here: @K FIELDS VALUE .. or @K raw FIELDS VALUE ..\n",
    ),
    (
        DUMP,
        b"rheap 2\nroots 1\n1.0 @0\nobjects 1\n0 0\n",
        b"rheap: line 5: Form\n5 | 0 0\n    ^^^\nan object is due here, @0: the line objects says 1\n",
    ),
    (
        DUMP,
        b"rheap 2\nroots 1\n\x80.0 5\n",
        b"rheap: line 3: Form\n3 | \\x80.0 5\n    ^^^^\nthe byte 128 isn't printable ASCII: the bytes of a line are 32 to 126\n",
    ),
    (
        DUMP,
        b"rheap 2\nroots 1\n1.0 @0\nobjects 1\n@0 0\n",
        b"rheap: line 6: End\n6 | \n    ^\nthe text ends too early: its last line is missing, which is just end\n",
    ),
    (
        DUMP,
        b"rheap 2\nroots 2\n1.0 @0\nobjects 1\n",
        b"rheap: line 4: Number\n4 | objects 1\n    ^^^^^^^^^\na root is due here, OWNER.SLOT VALUE: the line roots says 2\n",
    ),
    (
        DUMP,
        b"rheap 2\nroots 1\n1.0 @0\nobjects 2\n@0 1 @1\nend\n",
        b"rheap: line 6: Form\n6 | end\n    ^^^\nan object is due here, @1: the line objects says 2\n",
    ),
    (
        DUMP,
        b"rheap 2\nroots 1\n1.0 @0\nobjects 1\n@0 0\n@1 0\nend\n",
        b"rheap: line 6: Form\n6 | @1 0\n    ^^^^\nend is due here: the line objects says 1\n",
    ),
    (
        DUMP,
        b"\xef\xbb\xbfrheap 2\n",
        b"rheap: line 1: Header\n1 | \\xef\\xbb\\xbfrheap 2\n    ^^^^\na byte order mark: the file begins with its first line\n",
    ),
];

/// Does what is asked with an input, and answers the status. No test needs what `drive_explained`
/// promises beside it.
fn status_of_explained<R, A, I>(
    rt: &R,
    memory: A,
    ask: &Ask<'_>,
    input: I,
    out: &mut Vec<u8>,
    err: &mut Vec<u8>,
) -> u8
where
    R: Threads + Wait + Sync,
    A: Allocator + Copy + Send,
    I: Read + Drop,
{
    let mut reader = KeptReader::new(memory, input);
    drive_explained(rt, memory, ask, &mut reader, out, err)
}

/// Does what is asked with an input, and answers the status, what was written, and what was told.
fn explained<R, A, I>(rt: &R, memory: A, ask: &Ask<'_>, input: I) -> (u8, Vec<u8>, Vec<u8>)
where
    R: AllocGlobal + Threads + Wait + Sync,
    A: Allocator + Copy + Send,
    I: Read + Drop,
{
    let mut out = Vec::new(rt.alloc());
    let mut err = Vec::new(rt.alloc());
    let status = status_of_explained(rt, memory, ask, input, &mut out, &mut err);
    (status, out, err)
}

/// Does what is asked with each of these texts, and expects what is told, and nothing else.
fn expect_explained<R: AllocGlobal + Abort + Threads + Wait + Sync>(
    rt: &R,
    faults: &[(Ask<'static>, &[u8], &[u8])],
) {
    for (row, &(ask, text, told)) in faults.iter().enumerate() {
        let rt = &Row { rt, row };
        let (status, out, err) = explained(rt, rt.alloc(), &ask, text);
        expect_equal(rt, (status, out.len()), (1, 0));
        expect_bytes(rt, &err, told);
    }
}

#[test]
fn each_fault_is_shown_and_explained(rt: HostRuntime) {
    expect_explained(&Row { rt: &rt, row: 0 }, TRACES);
    expect_explained(&Row { rt: &rt, row: 1 }, HISTORIES);
    expect_explained(&Row { rt: &rt, row: 2 }, DUMPS);
}

#[test]
fn what_has_no_fault_is_told_of_in_no_word(rt: HostRuntime) {
    let (status, out, err) = explained(&rt, rt.alloc(), &RUN, WHOLE_CYCLE);
    expect_equal(&rt, (status, err.len()), (0, 0));
    expect_bytes(&rt, &out, WHOLE_CYCLE_ANSWERS);
}

/// A text that comes a byte a time is shown as well.
#[test]
fn a_slow_input_is_explained(rt: HostRuntime) {
    let (ask, text, told) = MISTYPED;
    let (status, out, err) = explained(&rt, rt.alloc(), &ask, SlowReader::new(text, 0));
    expect_equal(&rt, (status, out.len()), (1, 0));
    expect_bytes(&rt, &err, told);
}

/// What is due at this status in place of an explained fault: want of memory, or where what was told
/// is shorter the fault in its line.
fn due_of(status: u8, is_short: bool, told: &[u8]) -> &[u8] {
    match status {
        3 => b"rheap: out of memory\n",
        _ if is_short => b"rheap: line 2: Word\n",
        _ => told,
    }
}

/// Whether memory was refused, at this status and where this was told. Where it was refused for the
/// copy alone, the fault is told in its line, and isn't explained.
fn is_cut(rt: &impl Abort, status: u8, err: &[u8], told: &[u8]) -> bool {
    let is_short = err.len() < told.len();
    expect_bytes(rt, err, due_of(status, is_short, told));
    status == 3 || is_short
}

/// Explains a fault with this memory. Answers whether some was refused.
fn is_refused<R: AllocGlobal + Abort + Threads + Wait + Sync, A: Allocator + Copy + Send>(
    rt: &R,
    memory: A,
) -> bool {
    let (ask, text, told) = MISTYPED;
    let (status, out, err) = explained(rt, memory, &ask, text);
    expect_equal(rt, (status == 3 || status == 1, out.len()), (true, 0));
    is_cut(rt, status, &err, told)
}

#[test]
fn each_allocation_is_refused_in_turn(rt: HostRuntime) {
    let refused = refused_in_turn(rt.alloc(), |memory| is_refused(&rt, memory));
    expect_refusals(&rt, refused, 2);
}
