//! What the program is asked to do.

use rh_choices::{Limits, Telling};

/// A shell that completes command lines.
#[derive(Clone, Copy, PartialEq, Eq)]
pub enum Shell {
    /// `bash`.
    Bash,
    /// `zsh`.
    Zsh,
    /// `fish`.
    Fish,
}

/// How what is done is viewed.
#[derive(Clone, Copy, PartialEq, Eq)]
pub struct Views<'a> {
    /// How it is told on standard output.
    pub telling: Telling,
    /// The file that a line for each cycle of a run goes to; `-` is standard output, in place of
    /// the answers.
    pub cycles: Option<&'a str>,
    /// The file that the history of a run's commands goes to; `-` is standard output, in place of
    /// the answers.
    pub history: Option<&'a str>,
    /// Whether the cycles are written as trace events, and not as lines.
    pub events: bool,
}

/// No view: answers or a report alone, on standard output.
pub const PLAIN: Views<'static> = Views {
    telling: Telling::Answers,
    cycles: None,
    history: None,
    events: false,
};

/// What is to be done with the file.
#[derive(Clone, Copy, PartialEq, Eq)]
pub enum Subcommand {
    /// Run the trace in it.
    Run,
    /// Run the commands in it on a heap that collects by itself.
    RunPaced {
        /// The free words below which a cycle begins. Without a mark the pace is one that keeps up.
        mark: Option<u32>,
    },
    /// Run the commands in it on a heap that collects and grows by itself.
    RunGrowing {
        /// The most words of each of its spaces.
        at_most: u32,
    },
    /// Play the commands in it on a shared heap, each owner's in a thread of its own, and print the
    /// history of the calls.
    Threads {
        /// The replicators that fold pieces in threads beside the heap: 0 to 8.
        replicators: u32,
        /// The idle words that each increment in a cycle adds, a unit of work each: 0 to 65,535.
        idle: u32,
    },
    /// Check the history in it, and report on it.
    Replay,
    /// Count what the dump in it has.
    Dump,
    /// Write the graph that the dump in it has as a text for Graphviz.
    Dot,
    /// Write the graph that the dump in it has as a heap snapshot.
    Snapshot,
    /// Print a shortest path from a root to an object of the dump in it.
    Why {
        /// The number of the object.
        object: u32,
    },
    /// Draw the heap of the trace in it.
    Draw {
        /// The number of the line, from 1, after which it is drawn; without one it is the last.
        line: Option<u32>,
    },
    /// Answer the lines of a session as they are typed.
    Session,
    /// Run the program of the small Scheme in it.
    Lisp {
        /// What the program may take.
        limits: Limits,
    },
    /// Play entries of the small Scheme as they are typed.
    LispSession {
        /// What they may take: the words of their heap, and the steps of each.
        limits: Limits,
    },
    /// Write the completions for a shell. There is no file.
    Completions {
        /// The shell.
        shell: Shell,
    },
}

/// A command line that was understood.
#[derive(Clone, Copy, PartialEq, Eq)]
pub struct Ask<'a> {
    /// What is to be done.
    pub subcommand: Subcommand,
    /// The file's name; `-` is standard input, also of a command that takes no file.
    pub file: &'a str,
    /// Whether a fault is to be explained, also where standard error is no terminal.
    pub explain: bool,
    /// The file that the text goes to; `-` is standard output, and so it is without one.
    pub out: Option<&'a str>,
    /// How what is done is viewed.
    pub views: Views<'a>,
}
