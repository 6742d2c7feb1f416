//! Why a command line isn't understood.

ghost use Rattle.std.specs.Prelude.{◌≡◌};
ghost use Rattle.rh_command_line.specs.Fault.{line_status};
ghost use Rattle.rh_command_line.specs.declared.fault.CommandLineError.TheVariants.{OutOfMemory};

use std::alloc::AllocError;
use thiserror::Error;

/// What is wrong with a command line. Its text is one line, or clap's.
#[derive(Debug, Drop, Error)]
pub enum CommandLineFault {
    /// The arguments aren't a command line of the program, or ask for its help or version.
    #[error("{0}")]
    Arguments(clap::Error),
    /// The arguments name no command or no file.
    #[error("rheap: no command and file")]
    Incomplete,
    /// `--mark` stands without `--paced`, or its value isn't a number of words, 0 to 4,294,967,295.
    #[error("rheap: --mark needs --paced and a number of words, 0 to 4294967295")]
    Mark,
    /// `--grow` stands without `--paced` or beside `--mark`, or its value isn't a number of words,
    /// 0 to 4,294,967,295.
    #[error("rheap: --grow needs --paced, no --mark, and a number of words, 0 to 4294967295")]
    Grow,
    /// The value of `--replicators` isn't a number, 0 to 8.
    #[error("rheap: --replicators needs a number of replicators, 0 to 8")]
    Replicators,
    /// The value of `--idle` isn't a number of words, 0 to 65,535.
    #[error("rheap: --idle needs a number of words, 0 to 65535")]
    Idle,
    /// The value of `--line` isn't the number of a line, 1 to 4,294,967,295.
    #[error("rheap: --line needs the number of a line, 1 to 4294967295")]
    Line,
    /// What `completions` is asked for is none of the shells that there are completions for.
    #[error("rheap: completions needs a shell: bash, zsh or fish")]
    Shell,
    /// More than one of `--cycles -`, `--history -`, `--echo`, `--json` and `--dot` is given, of
    /// which each has standard output for a text of its own.
    #[error("rheap: --echo, --json, --dot and OUT - can't stand together: each has standard output")]
    Views,
    /// A text is for the file that is read, or two are for one file, by their names.
    #[error("rheap: OUT is a file of its own, neither FILE nor another OUT")]
    Crossed,
    /// `--trace-events` stands without `--cycles`.
    #[error("rheap: --trace-events needs --cycles OUT")]
    Events,
    /// More than one of `--dot`, `--json`, `--heapsnapshot` and `--why` is given to `dump`.
    #[error("rheap: one of --dot, --heapsnapshot, --json and --why of dump can stand, and no more")]
    Forms,
    /// The value of `--why` isn't the number of an object, 0 to 4,294,967,295, with or without the @.
    #[error("rheap: --why needs the number of an object, as 7 or @7")]
    Object,
    /// `lisp` has `--cycles` and no file, a session.
    #[error("rheap: --cycles of lisp needs FILE: a session has none")]
    SessionCycles,
    /// `--heap` and `--grow` of `lisp` stand together, or the value of one isn't a number of words, 0
    /// to 4,294,967,295.
    #[error("rheap: --heap or --grow needs a number of words, 0 to 4294967295, and not both stand")]
    Words,
    /// The value of `--steps` isn't a number, 0 to 4,294,967,295.
    #[error("rheap: --steps needs a number of steps, 0 to 4294967295")]
    Steps,
}

impl CommandLineFault {
    /// The status that the program ends with: 0 if help or the version is asked for, and else 2.
    pub fn status(&self) -> u8
        ensures { result ≡ line_status self.now }
    {
        match self {
            CommandLineFault::Arguments(error) if !error.use_stderr() => 0,
            _ => 2,
        }
    }
}

/// Why a command line isn't read.
#[derive(Drop)]
pub enum CommandLineError {
    /// This is wrong with it.
    Fault(CommandLineFault),
    /// Memory was refused.
    OutOfMemory,
}

impl From<AllocError> for CommandLineError {
    ghost from_gives = { λ _ e. e ≡ OutOfMemory };

    fn from(_e: AllocError) -> CommandLineError {
        CommandLineError::OutOfMemory
    }
}
