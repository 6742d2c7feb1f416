//! The text below the options in `rheap COMMAND --help`, from which share/make makes the man page.
//! A function lends each text, so that no other proof writes it out.

/// Lends what the help of the command of this name ends with.
pub(crate) fn after<'a>(name: &str) -> &'a str {
    match name {
        "run" => run(),
        "threads" => threads(),
        "replay" => replay(),
        "dump" => dump(),
        "draw" => draw(),
        "shell" => shell(),
        "lisp" => lisp(),
        "completions" => completions(),
        _ => "",
    }
}

fn run<'a>() -> &'a str {
    RUN
}

fn threads<'a>() -> &'a str {
    THREADS
}

fn replay<'a>() -> &'a str {
    REPLAY
}

fn dump<'a>() -> &'a str {
    DUMP
}

fn draw<'a>() -> &'a str {
    DRAW
}

fn shell<'a>() -> &'a str {
    SHELL
}

fn lisp<'a>() -> &'a str {
    LISP
}

fn completions<'a>() -> &'a str {
    COMPLETIONS
}

/// What the help of `run` ends with.
pub const RUN: &str = "\
A trace is lines of ASCII text, each ended by LF, its parts set apart by one space: no comments and
no blank lines. The first line makes a heap; each further line is answered.

  heap WORDS RATIO LOG OWNERS SLOTS
    WORDS   the words of each of the two spaces, 8 to 16777216
    RATIO   the units of collector work that each allocated word grants, 1 to 64
    LOG     the entries that the log of stores keeps in a cycle, 1 to 1048576
    OWNERS  the owners of roots, from 0, 1 to 16
    SLOTS   the slots of each owner, from 0, 1 to 256

Commands of an owner             Answer
  OWNER alloc ROOT FIELDS        object FIELDS
  OWNER raw ROOT FIELDS          raw FIELDS: a raw object, whose fields hold no reference
  OWNER load DST SRC FIELD       nil, int N, object FIELDS, raw FIELDS: what the field holds
  OWNER store OBJ FIELD OPERAND  done
  OWNER copy DST SRC             nil, int N, object FIELDS, raw FIELDS: what SRC holds
  OWNER same A B                 same yes, same no
  OWNER drop ROOT                done

Lines of a cycle                 Answer
  begin                          cycle EPOCH
  shade ROOT                     placed, already, no reference
  deal copies MOST TRAY          dealt ITEMS passed 0
  deal entries MOST TRAY         dealt ITEMS passed ENTRIES
  give TRAY                      given joined J repeated R stale S placed P
  join TRAY TRAY                 joined ENTRIES
  flip                           flipped roots ROOTS live WORDS
  recall                         cycle EPOCH: all fields of placed objects are to be dealt again,
                                 and the log is empty
  abandon                        abandoned OBJECTS: the cycle ends without a flip
  idle N                         idle WORDS: units that the cycle has beside those of allocation

Sizes                            Answer
  resize WORDS                   words WORDS: so many in each space from then on, in a cycle too

Watches                          Answer
  tickets N                      tickets N: room for so many tickets in all
  OWNER watch ROOT               ticket T: it watches the object that the root holds
  unwatch T                      unwatched yes, or no where the ticket watched no object
  gone                           gone T T ..: tickets whose objects are gone, each told once; or
                                 gone none

Listings                         Answer
  trays                          tray NAME epoch E entries N, for each tray
  stat                           stat used U free F cycle on epoch E ..: the numbers of the heap
  dump                           what the roots reach, in the lines that `rheap dump` reads
  at the end                     total commands C refused R flips F rootwords W

ROOT, DST, SRC, OBJ, A and B are roots, OWNER.SLOT, as 1.0; owner 0's slots are shared. OPERAND is
nil, a root, or a whole number from -2^63 to 2^63 - 1 (any other is the fault Number), of which one
that isn't from -2^61 to 2^61 - 1 is refused IntRange. FIELD, from 0, FIELDS, MOST, the N of
`idle` and `tickets`, the WORDS of `resize` and T are 0 to 4294967295; an object of more than 4095
FIELDS is refused FieldsRange. A number has no leading zero and no +, and -0 is none. TRAY is a
letter a to z and at most 15 of a to z, 0 to 9 and _. What can't be done is answered `refused NAME`,
changes nothing, and the run goes on. Two heaps are the same graph exactly where their dumps are the
same text: cut them out, from `rheap 2` to `end`, and use cmp.

With --paced the heap collects by itself, an increment of a cycle after each accepted allocation,
and in a cycle after each accepted store. The trace has commands alone: once it has been read any
other line is the fault Word. A cycle begins where fewer than N words are free, as
--mark N says; 0 begins none. Without it the program takes the lowest mark that keeps up with the
biggest object that the trace asks for, also where it is refused. While no more is reached, as a
cycle begins, than about 45, 68, 83 or 91 % of WORDS at RATIO 8, 16, 32 or 64, where objects are
small, SpaceFull doesn't come, nor LogFull where LOG is half of WORDS; above that both can come. LOG
goes up to 1048576: in a heap of more than 2097152 words that may be too few, and LogFull can come.

With --paced --grow N, N from WORDS to 16777216, the heap grows by itself too. It begins with WORDS
words; after each cycle each space gets at least twice the words that are used then, and at most N.
Its pace is in time whatever lives, and its log as long as the pace asks for, so that LOG isn't
used. SpaceFull comes only once the heap has N words and these are too few, or where memory for
more was refused; LogFull too, where N is at most 349000 times RATIO.

A run can be seen in other ways. --echo or --json, --history and --cycles can stand together, but
standard output has one text alone. OUT is a file, or - for standard output in place of answers. It
keeps what it had until its text comes: a FILE that has a fault leaves it as it was. FILE and each
OUT are files of their own.
  --echo         of each line but the first its number, its text and its answer, with tabs between
  --json         objects of JSON, one a line; a fault is one too
  --history OUT  the commands that no limit refused, with their answers: `rheap replay` reads it, if
                 it has at most 16777216 bytes
  --cycles OUT   a line of numbers for each cycle as it ends, with tabs between, and a head line
  --trace-events with --cycles: trace events in their place, which Perfetto and chrome://tracing show

Statuses:
  0  done; a refused line is an answer, and no failure
  1  a fault in the file, or it can't be opened or read, or a write failed
  2  the command line isn't understood
  3  memory was refused

On failure standard error has one line, as `rheap: line 3: Cut` or `rheap: heap: BadSpace`; where
the command line isn't understood it may have several. With --explain, and always on a terminal, the
file's line comes after it, carets under the part that is wrong, and what may stand there.
  line L: KIND   the first faulty line and its fault, as below; a history or a dump given to `run`
                 is the fault Header
  heap: NAME     the first of these that is out of range: BadSpace (WORDS), BadRatio (RATIO),
                 BadRoots (OWNERS or SLOTS), BadLog (LOG)
  grow: NAME     with --grow: BadLimits, N is below WORDS or above 16777216
  pace: NAME     with --paced and without --mark: RatioTooLow, the RATIO is below 4, or TooSmall
                 need N, WORDS is below N
  open failed    the file isn't there, or may not be read
  read failed    it is a folder, or its device failed
  write failed   standard output or an OUT is closed or full, can't be made, or its device failed
  OUT is ..      it is FILE, another OUT, or where standard output or error goes, by another name
  too long       the file has more than 16777216 bytes
  out of memory  the status is 3

Faults of a line, of which the first that holds is told, the last four part by part, from left to
right:
  Empty   the file has no byte
  Long    the line's number is above 1048576, or it has more than 256 bytes
  Cut     the line has no line end
  Form    a byte isn't printable, as a tab or the CR of CR LF, or a part is empty
  Header  the first line doesn't begin with `heap`, or hasn't six parts
  Form    an owner, a part that begins with a digit, stands alone
  Word    no such keyword stands after an owner, or first where the line has no owner
  Form    the number of parts is wrong
  Word    what `deal` deals is neither `copies` nor `entries`
  Number  a part isn't the number that it should be
  Root    a part isn't the root that it should be; an OPERAND with a dot should be one
  Tray    a part isn't the TRAY that it should be

The tables of lines, answers, refusals and faults are in docs/formats.md.";

/// What the help of `threads` ends with.
pub const THREADS: &str = "\
A trace of commands alone, as `rheap run --help` has it. Each owner's lines are played in their
order, in a thread of its own, on one heap that the threads share and that collects by itself: a
cycle begins where fewer than half of the words are free. After each accepted command comes an
increment of a cycle; replicators, in threads of their own, fold what is to be copied beside the
heap's lock.

The history of the calls is printed, in the order in which they were made; `rheap replay` reads it:

  history OWNERS SLOTS
  COMMAND LINE = ANSWER     for each call
  end N                     N is the number of calls

Its answers are those of a heap that never moves its objects, and each owner's lines stand in it in
their order, each once. Left out are allocations and stores that were refused by a limit (SpaceFull,
LogFull, NumbersSpent), and, once the history has 65536 calls, what comes after them. Two runs may
print the calls of two owners in another order and, as replicators fold sooner or later, leave out
other lines. A trace of one owner prints the same lines each time with --replicators 0.

  --replicators N  0 to 8, 2 where it isn't said. With 0 pieces are folded under the lock
  --idle N         0 to 65535, 0 where it isn't said: units of collector work that each increment in
                   a cycle has beside those of allocation; so it ends after fewer allocations

Statuses:
  0  done; a refused line is an answer, and no failure
  1  a fault in the file, or it can't be opened or read, or a write failed
  2  the command line isn't understood
  3  memory or a thread was refused
  4  the history isn't that of the calls, not of the trace, or not legal, and isn't printed

On failure standard error has one line, as `rheap: line 3: Word`; where the command line isn't
understood it may have several. --explain adds what it adds to `run`. Faults are those of `run`, and
  line L: Word     the line is no command
  line L: Root     the line's owner isn't below OWNERS
  history differs  the status is 4

Traces and histories are described in docs/formats.md.";

/// What the help of `replay` ends with.
pub const REPLAY: &str = "\
A history is the calls of a heap with their answers, in the order in which they were made:

  history OWNERS SLOTS
  COMMAND LINE = ANSWER     for each call; a command line is one of a trace
  end N                     N is the number of calls

With --echo the line of a wrong call is shown too: its number in the file, its command and the answer
there, with tabs between. With --json the report is objects of JSON, one a line.

ANSWER is that of a trace, or `refused` and a name; calls that a limit refused (SpaceFull, LogFull,
NumbersSpent) are left out, so these names are the fault Answer.

The report has a line `owner O calls N` for each owner below OWNERS that has calls, and then `legal
N`, or `wrong AT expected ANSWER` for the first call, counted from 1, whose answer isn't that of a
heap that never moves its objects.

On failure standard error has one line, as `rheap: line 3: Cut`, or as `run` has it where no line is
at fault; where the command line isn't understood it may have several. With --explain, and always on
a terminal, the file's line comes after it, carets under the part that is wrong, and what may stand
there.

Faults of a line, of which the first that holds is told:
  Empty     the file has no byte
  Long      the line's number is above 1048576, or it has more than 256 bytes
  Cut       the line has no line end
  Trailing  the line stands after the `end` line
  Form      a byte isn't printable, as a tab or the CR of CR LF, or a part is empty
  Header    the first line doesn't begin with `history`, or hasn't three parts
  Form      `end` hasn't two parts
  Number    the owners aren't 1 to 16, the slots aren't 1 to 256, or what follows `end` isn't a
            number up to 4294967295
  Word, Form, Number, Root  of a command, as `rheap run --help` has them
  Answer    no part is `=`, or what follows it isn't an answer that a history may have
  Count     `end` has another number than that of the calls
  End       there is no `end` line; it is the fault of the line after the last

Statuses:
  0  the history is legal
  1  a fault in the file, or it can't be opened or read, or a write failed
  2  the command line isn't understood
  3  memory was refused
  4  the history is wrong; standard error has nothing then

Histories, reports and faults are described in docs/formats.md.";

/// What the help of `dump` ends with.
pub const DUMP: &str = "\
A dump is what the roots of a heap reach, as `dump` in a trace prints it:

  rheap 2
  roots R
  OWNER.SLOT VALUE          for each of R roots that aren't nil, in order
  objects N
  @K FIELDS VALUE ..        for each of N objects, K from 0 on; `@K raw FIELDS VALUE ..` where it is
                            raw
  end

VALUE is nil (in objects alone), a whole number, or @K. What `run` prints has other answers around
it: cut out the lines from `rheap 2` to `end`. What this command prints is no dump.

With --dot the graph is printed in place of its counts, as a text for Graphviz, which draws it by
`rheap dump FILE --dot | dot -Tsvg >FILE.svg`: roots are boxes at the left, objects are tables of
their fields, raw ones with round corners, and each reference is an arrow.

With --heapsnapshot the graph is written to OUT as a heap snapshot of V8, which Chrome's DevTools
open under Memory if the file's name ends in .heapsnapshot. Object @K is there under its number, with
the bytes that it takes in a space, and each reference is an edge.

With --why a shortest path is printed from a root to the object of this number, 7 or @7: a line for
each reference, `OWNER.SLOT @K` for the root's, and then `@K FIELD @J` for field FIELD of object @K,
the last of which is to that object. If the dump hasn't the object, the line is `@7 isn't reached`.

With --json the counts are an object of JSON. One of --dot, --heapsnapshot, --why and --json can
stand.

On failure standard error has one line, as `rheap: line 3: Order`, or `rheap: open failed`; the
others are read failed, write failed and out of memory, as `rheap run --help` tells them. Where the
command line isn't understood it may have several. With --explain, and always on a terminal, the
file's line comes after it, carets under the part that is wrong, and what may stand there.

Faults of a line, of which the first that holds is told, the last three part by part, from left to
right:
  Long      the text passes 268435456 bytes in this line
  End       the file ends before this line's line end
  Header    the first line isn't just `rheap 2`, or `rheap 1`, of the version before, in which no
            object is raw; CR LF at its end is this fault too
  Trailing  the line stands after the line `end`
  Form      a byte isn't printable, a part is empty, a keyword or the number of parts is wrong, or a
            root is nil; how many values an object has is looked at after its number and its fields
  Number    a part isn't the number, the root or the value that it should be; a raw object has no
            value that is a reference
  Order     a root isn't above the one before, an object's number isn't the next, or a reference is
            more than one above all before it
  Count     N is below the number of objects that the roots refer to, an object wasn't met before
            its line, or a reference is to a number that isn't below N

Statuses:
  0  done
  1  a fault in the file, or it can't be opened or read, or a write failed
  2  the command line isn't understood
  3  memory was refused

Dumps and faults are described in docs/formats.md.";

/// What the help of `draw` ends with.
pub const DRAW: &str = "\
The trace is one that `rheap run` runs without --paced. It is played up to line N, of which the first
is the heap's, and the heap is drawn as it stands then: roots at the left, objects as rows of their
fields, what a cycle has placed and held, and the log. Of more than 4096 words in use, 300 entries of
the log, 300 objects, or 300 roots that aren't nil it has bars of its words alone, and says of what
there is too much. A number that is too long for its cell is cut; a browser shows it whole. Answers
aren't printed.
`rheap draw FILE --line 7 >FILE.svg` makes a picture that any browser shows.

On failure standard error has one line, as `run` has it, and also
  draw: NoLine   the trace has fewer than N lines
With --explain, and always on a terminal, the file's line comes after it, carets under the part that
is wrong, and what may stand there.

Statuses:
  0  done
  1  a fault in the file, no line N, or it can't be opened or read, or a write failed
  2  the command line isn't understood
  3  memory was refused

Traces and faults are described in docs/formats.md.";

/// What the help of `shell` ends with.
pub const SHELL: &str = "\
Each line is answered as it is typed. The first line makes the heap, as in a trace; what may follow
is all that `rheap run --help` has, and also

  help       the lines in short
  cycles     a line of numbers for each cycle so far
  draw FILE  a picture of the heap as it stands, into that file

A line with a fault is answered by its fault and what may stand there; it leaves the heap as it was,
and the session goes on. The end of the input (Ctrl-D) ends it with the total line. A prompt stands on
standard error where standard input is a terminal. A trace that is given as the input is answered as
`rheap run` answers it.

Statuses:
  0  the input came to its end
  1  a read or a write failed
  2  the command line isn't understood
  3  memory was refused

Lines and answers are described in docs/formats.md.";

/// What the help of `lisp` ends with.
pub const LISP: &str = "\
The file is a program of a small Scheme, a part of R7RS. It runs on a heap that collects by itself,
and prints the same on each heap that is large enough.

Values      whole numbers from -2^60 to 2^60 - 1, booleans, characters of a byte, symbols, pairs,
            strings, vectors, procedures, records, promises
Forms       define lambda if cond case and or when unless let, named let, let* letrec letrec* do
            begin set! quote quasiquote import let-values let*-values define-values case-lambda
            delay delay-force parameterize guard define-record-type
Procedures  of R7RS small those on whole numbers, booleans, pairs and lists, symbols, characters,
            strings and vectors, but for / and what else may give a fraction, as sqrt; eq? eqv?
            equal? procedure? apply map for-each call/cc, values call-with-values dynamic-wind exit
            emergency-exit, force make-promise promise? make-parameter, raise raise-continuable
            with-exception-handler error and error-object?, with its -message and -irritants,
            display write newline write-char write-string write-simple

What differs from R7RS: numbers are whole, and what passes them is an error. Vectors and strings
have at most 4094 elements. There are no macros and no ports. What the language itself finds wrong
isn't raised, so no handler hears of it. docs/lisp.md has the rest.

What the program prints is written once it has ended, at most 1048576 characters and names. It has
no input. A name that it defines or sets is its own, and the procedures of the language go on
without it.

Without FILE a session is held: what is typed is played entry by entry, and the value of each form
is written, unless it is unspecified. An entry ends with the line at whose end all lists, strings
and comments that it begins have ended. One that stops is told as below, and what it defined before
stays. A prompt stands on standard error where standard input is a terminal. The end of the input
(Ctrl-D) ends the session.

  --heap WORDS  each space of the heap has so many words; where they are too few for what lives, the
                program ends by `heap exhausted`
  --grow WORDS  each space begins small and grows to at most so many words, from 8618 to 16777216;
                without --heap it is so, up to 16777216
  --steps N     the instructions that may be done, from 0 to 4294967295, those of the language's own
                procedures and of their definitions too; 2^64 - 1 without it. Each entry of a
                session may do so many, besides those definitions
  --cycles OUT  a line of numbers for each cycle of the heap as it ends, with tabs between, and a
                head line. The commands of the program at which it began and ended are counted
                from 1. OUT is a file, other than FILE, or - for standard output in place of what
                the program prints. If a line isn't written, what the program prints isn't either.
                A session has none
  --trace-events
                with --cycles: trace events in their place, which Perfetto and chrome://tracing show

Statuses:
  0  the program came to its end, or the input of a session did
  1  it has a fault or stopped, no heap has so many words, or the file can't be opened or read, or a
     write failed
  2  the command line isn't understood
  3  memory was refused

A program that stops has printed what it printed before, and standard error has one line, as
`FILE:3:15: car: not a pair`, with the line and the column of the form that was done. Where that is
in a procedure of the language, the place is that of the program's last call, but for calls of
functions that one definition gives, or before its first form one in `prelude`. With --explain, and
always on a terminal, the line of the program comes after it, carets under the form, and what may
stand there. So are told

  unbound variable, not a pair, not a list, not a number, not a procedure, not a vector,
  not a string, not a character, not a symbol, not a parameter, not such a record,
  wrong number of arguments, wrong number of values, too many arguments, out of range,
  division by zero, overflow, heap exhausted, steps spent, too much output, and the text that
  `error` was given, or `uncaught:` with what else was raised

A text that is no program is told in the same way, before anything runs:

  unexpected ), unfinished, misplaced dot, number out of range, no such number, no such escape,
  no such datum, bad form, not a name, too many globals, too many variables, too many elements,
  program too long, and `define-syntax: not in this Scheme` of a form of R7RS that isn't there

On other failures standard error has one line, as `rheap: open failed`, or `rheap: OUT is ..` where
OUT is FILE or where standard output or error goes, by another name; of the heap
  grow: BadLimits         WORDS of --grow is above 16777216
  pace: TooSmall need N   WORDS of --heap or --grow is below N
  heap: BadSpace          WORDS of --heap is above 16777216
The file has at most 1048576 bytes, or is too long.";

/// What the help of `completions` ends with.
pub const COMPLETIONS: &str = "\
The text is a script of that shell. It completes the commands, their options and names of files:

  bash  source <(rheap completions bash), in this shell or in ~/.bashrc; or for each shell
        rheap completions bash >~/.local/share/bash-completion/completions/rheap
  zsh   rheap completions zsh >_rheap, in a folder that $fpath has
  fish  rheap completions fish >~/.config/fish/completions/rheap.fish

./rheap install puts these texts where the shells look for them.

Statuses:
  0  done
  1  a write failed
  2  the command line isn't understood
  3  memory was refused";
