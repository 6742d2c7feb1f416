//! Texts that are tried with the program alone, and their lines.

/// A number that is stored and read, and the history of these calls.
pub const STORED: &[u8] = b"heap 64 8 8 2 2\n1 alloc 1.0 1\n1 store 1.0 0 5\n1 load 1.1 1.0 0\n";

pub const STORED_HISTORY: &[u8] = b"history 2 2\n1 alloc 1.0 1 = object 1\n1 store 1.0 0 5 = done\n\
        1 load 1.1 1.0 0 = int 5\nend 3\n";

pub const TWO_FLIPS_ANSWERS: &[u8] =
    b"object 2\nobject 2\nobject 2\nobject 2\nobject 2\nobject 2\nobject 2\nobject 2\n\
        object 2\nobject 2\nobject 2\ntotal commands 11 refused 0 flips 2 rootwords 2\n";

/// What is told of views that can't stand together.
pub const VIEWS_FAULT: &[u8] =
    b"rheap: --echo, --json, --dot and OUT - can't stand together: each has standard output\n";

/// What is told of a text for the file of another, and of the cycles of a session.
pub const CROSSED_FAULT: &[u8] = b"rheap: OUT is a file of its own, neither FILE nor another OUT\n";

pub const SESSION_FAULT: &[u8] = b"rheap: --cycles of lisp needs FILE: a session has none\n";

/// What is told of trace events without the file of cycles.
pub const EVENTS_FAULT: &[u8] = b"rheap: --trace-events needs --cycles OUT\n";

/// What is told of two forms of a dump, and of what is no object's number.
pub const FORMS_FAULT: &[u8] =
    b"rheap: one of --dot, --heapsnapshot, --json and --why of dump can stand, and no more\n";

pub const OBJECT_FAULT: &[u8] = b"rheap: --why needs the number of an object, as 7 or @7\n";

/// What is told of a mark that can't be taken.
pub const MARK_FAULT: &[u8] =
    b"rheap: --mark needs --paced and a number of words, 0 to 4294967295\n";

/// What is told of the most words of a heap that can't be taken.
pub const GROW_FAULT: &[u8] =
    b"rheap: --grow needs --paced, no --mark, and a number of words, 0 to 4294967295\n";

/// What is told of a number of replicators, and of idle words, that can't be taken.
pub const REPLICATORS_FAULT: &[u8] =
    b"rheap: --replicators needs a number of replicators, 0 to 8\n";

pub const IDLE_FAULT: &[u8] = b"rheap: --idle needs a number of words, 0 to 65535\n";

/// What is told of a number that is no line's.
pub const LINE_FAULT: &[u8] = b"rheap: --line needs the number of a line, 1 to 4294967295\n";

/// What is told where `lisp` is asked for two heaps, or for one of no number of words.
pub const WORDS_FAULT: &[u8] =
    b"rheap: --heap or --grow needs a number of words, 0 to 4294967295, and not both stand\n";

/// What is told where its steps are no number.
pub const STEPS_FAULT: &[u8] = b"rheap: --steps needs a number of steps, 0 to 4294967295\n";

/// What the trace without fields is told as with each line.
pub const WITHOUT_FIELDS_ECHO: &[u8] =
    b"2\t1 alloc 1.0 0\tobject 0\n3\t1 load 1.1 1.0 0\trefused NoField\n\
        total commands 2 refused 1 flips 0 rootwords 0\n";

/// How often a byte stands in a text.
pub fn count_of(text: &[u8], wanted: u8) -> usize {
    text.iter().filter(|byte| **byte == wanted).count()
}

/// How many lines of a text have ended.
pub fn ended_lines(text: &[u8]) -> usize {
    count_of(text, b'\n')
}
