//! The table of the command line: its commands, what stands behind each, and which options may not
//! stand together. What clap knows of the command line is made of it.

ghost use Rattle.std.specs.Prelude.{◌≡◌, map};
ghost use Rattle.rh_command_line.specs.Table.{command_row, table};

/// How an argument of a command is spelled.
#[derive(Clone, Copy)]
pub(crate) enum Spelling {
    /// A word alone, as `FILE`, which is required or not.
    Word { is_required: bool },
    /// A flag, as `--paced`.
    Flag,
    /// An option whose value is told by this name, as `--mark N`.
    Valued { value: &'static str },
}

/// An argument of a command.
#[derive(Clone, Copy)]
pub(crate) struct ArgumentRow {
    /// Its name, behind `--` where it isn't a word.
    pub name: &'static str,
    /// How it is spelled.
    pub spelling: Spelling,
    /// What its line of the help says.
    pub help: &'static str,
    /// The arguments without which it is refused.
    pub needs: &'static [&'static str],
    /// The arguments beside which it is refused. A pair is written at one of the two.
    pub not_with: &'static [&'static str],
}

/// A command.
#[derive(Clone, Copy)]
pub(crate) struct CommandRow {
    /// Its name.
    pub name: &'static str,
    /// What it does, as the help of the program says it.
    pub about: &'static str,
    /// What may stand behind it, in the order of its help.
    pub arguments: &'static [ArgumentRow],
}

/// The file of a command that needs one.
const FILE: ArgumentRow = ArgumentRow {
    name: "FILE",
    spelling: Spelling::Word { is_required: true },
    help: "The file to read; - is standard input",
    needs: &[],
    not_with: &[],
};

/// The flag that asks for explanations.
const EXPLAIN: ArgumentRow = ArgumentRow {
    name: "explain",
    spelling: Spelling::Flag,
    help: "Shows the part of a line that is wrong, and says what may stand there",
    needs: &[],
    not_with: &[],
};

/// The flag that tells each line with its answer.
const ECHO: ArgumentRow = ArgumentRow {
    name: "echo",
    spelling: Spelling::Flag,
    help: "Prints each line's number, its text and its answer, with tabs between",
    needs: &[],
    not_with: &["json"],
};

/// The flag that asks for JSON.
const JSON: ArgumentRow = ArgumentRow {
    name: "json",
    spelling: Spelling::Flag,
    help: "Prints objects of JSON, one a line",
    needs: &[],
    not_with: &[],
};

/// The arguments of `run`.
const RUN: &[ArgumentRow] = &[
    FILE,
    EXPLAIN,
    ArgumentRow {
        name: "paced",
        spelling: Spelling::Flag,
        help: "Runs a trace of commands alone, on a heap that collects by itself",
        needs: &[],
        not_with: &[],
    },
    ArgumentRow {
        name: "mark",
        spelling: Spelling::Valued { value: "N" },
        help: "With --paced: a cycle begins where fewer than N words are free",
        needs: &["paced"],
        not_with: &["grow"],
    },
    ArgumentRow {
        name: "grow",
        spelling: Spelling::Valued { value: "N" },
        help: "With --paced, without --mark: each of its spaces grows to at most N words",
        needs: &["paced"],
        not_with: &[],
    },
    ArgumentRow {
        name: "cycles",
        spelling: Spelling::Valued { value: "OUT" },
        help: "Writes a line for each cycle to the file OUT; - is standard output",
        needs: &[],
        not_with: &[],
    },
    ArgumentRow {
        name: "trace-events",
        spelling: Spelling::Flag,
        help: "With --cycles: writes trace events, which Perfetto shows, and not lines",
        needs: &["cycles"],
        not_with: &[],
    },
    ArgumentRow {
        name: "history",
        spelling: Spelling::Valued { value: "OUT" },
        help: "Writes the history of the commands to the file OUT; - is standard output",
        needs: &[],
        not_with: &[],
    },
    ECHO,
    JSON,
];

/// The arguments of `threads`.
const THREADS: &[ArgumentRow] = &[
    FILE,
    EXPLAIN,
    ArgumentRow {
        name: "replicators",
        spelling: Spelling::Valued { value: "N" },
        help: "The replicators, in threads of their own: 0 to 8, 2 where it isn't said",
        needs: &[],
        not_with: &[],
    },
    ArgumentRow {
        name: "idle",
        spelling: Spelling::Valued { value: "N" },
        help: "The idle words of an increment in a cycle: 0 to 65535, 0 if it isn't said",
        needs: &[],
        not_with: &[],
    },
];

/// The arguments of `replay`.
const REPLAY: &[ArgumentRow] = &[FILE, EXPLAIN, ECHO, JSON];

/// The arguments of `dump`.
const DUMP: &[ArgumentRow] = &[
    FILE,
    EXPLAIN,
    ArgumentRow {
        name: "dot",
        spelling: Spelling::Flag,
        help: "Prints its graph instead, as a text for Graphviz",
        needs: &[],
        not_with: &["json"],
    },
    ArgumentRow {
        name: "heapsnapshot",
        spelling: Spelling::Valued { value: "OUT" },
        help: "Writes its graph instead, as a heap snapshot, to the file OUT; - is standard output",
        needs: &[],
        not_with: &["dot", "json"],
    },
    ArgumentRow {
        name: "why",
        spelling: Spelling::Valued { value: "ADDRESS" },
        help: "Prints a shortest path from a root to this object instead: 7 or @7 is object @7",
        needs: &[],
        not_with: &["dot", "heapsnapshot", "json"],
    },
    JSON,
];

/// The arguments of `draw`.
const DRAW: &[ArgumentRow] = &[
    FILE,
    EXPLAIN,
    ArgumentRow {
        name: "line",
        spelling: Spelling::Valued { value: "N" },
        help: "The line after which it is drawn, from 1; the last if it isn't said",
        needs: &[],
        not_with: &[],
    },
];

/// The arguments of `lisp`.
const LISP: &[ArgumentRow] = &[
    ArgumentRow {
        name: "FILE",
        spelling: Spelling::Word { is_required: false },
        help: "The file to read; - is standard input; a session without it",
        needs: &[],
        not_with: &[],
    },
    ArgumentRow {
        name: "heap",
        spelling: Spelling::Valued { value: "WORDS" },
        help: "Each of its spaces has so many words, and keeps them",
        needs: &[],
        not_with: &["grow"],
    },
    ArgumentRow {
        name: "grow",
        spelling: Spelling::Valued { value: "WORDS" },
        help: "Each of its spaces grows to at most so many words; 16777216 if it isn't said",
        needs: &[],
        not_with: &[],
    },
    ArgumentRow {
        name: "steps",
        spelling: Spelling::Valued { value: "N" },
        help: "The instructions that may be done, 0 to 4294967295; 2^64 - 1 without it",
        needs: &[],
        not_with: &[],
    },
    ArgumentRow {
        name: "cycles",
        spelling: Spelling::Valued { value: "OUT" },
        help: "Writes a line for each cycle of its heap to the file OUT; - is standard output",
        needs: &["FILE"],
        not_with: &[],
    },
    ArgumentRow {
        name: "trace-events",
        spelling: Spelling::Flag,
        help: "With --cycles: writes trace events, which Perfetto shows, and not lines",
        needs: &["cycles"],
        not_with: &[],
    },
    EXPLAIN,
];

/// The argument of `completions`.
const COMPLETIONS: &[ArgumentRow] = &[ArgumentRow {
    name: "SHELL",
    spelling: Spelling::Word { is_required: true },
    help: "The shell: bash, zsh or fish",
    needs: &[],
    not_with: &[],
}];

/// The commands, in the order of the help.
const COMMANDS: &[CommandRow] = &[
    CommandRow {
        name: "run",
        about: "Runs a trace, and prints an answer for each of its lines",
        arguments: RUN,
    },
    CommandRow {
        name: "threads",
        about: "Plays a trace of commands in threads, and prints the history of the calls",
        arguments: THREADS,
    },
    CommandRow {
        name: "replay",
        about: "Checks a history against a heap that never moves its objects, and reports on it",
        arguments: REPLAY,
    },
    CommandRow {
        name: "dump",
        about: "Reads a dump, and prints how many roots and objects it has",
        arguments: DUMP,
    },
    CommandRow {
        name: "draw",
        about: "Draws the heap of a trace after one of its lines, in SVG",
        arguments: DRAW,
    },
    CommandRow {
        name: "shell",
        about: "Answers the lines of a trace as they are typed, and draws the heap",
        arguments: &[],
    },
    CommandRow {
        name: "lisp",
        about: "Runs a program of a small Scheme, or holds a session of it",
        arguments: LISP,
    },
    CommandRow {
        name: "completions",
        about: "Prints completions of the program's command lines for a shell",
        arguments: COMPLETIONS,
    },
];

/// Lends the table: the commands, in the order of the help.
pub(crate) fn commands<'a>() -> &'a [CommandRow]
    ensures { map command_row result.now ≡ table }
{
    COMMANDS
}
