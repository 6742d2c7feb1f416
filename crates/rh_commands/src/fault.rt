//! The faults of the program, and which message and exit status (1 to 4, or 0 for help) each has.

ghost use Rattle.std.specs.Prelude.{◌≡◌};
ghost use Rattle.rh_commands.specs.declared.fault.LineFault.TheVariants.{OutOfMemory};
ghost use Rattle.rh_commands.specs.Fault.{status_of};

use rh_command_line::CommandLineFault;
use rh_core::ConfigFault;
use rh_dump::DumpFault;
use rh_lisp_code::FaultKind;
use rh_pace::PaceError;
use rh_replay::HistoryFault;
use rh_shared::SharedFault;
use rh_trace::TraceFault;
use std::alloc::{AllocError, AllocFailed};
use thiserror::Error;

/// Why the program didn't do what it was asked. Its text is one line, or clap's.
#[derive(Debug, Drop, Error)]
pub enum LineFault {
    /// The command line isn't understood, or asks for help or the version.
    #[error("{0}")]
    CommandLine(CommandLineFault),
    /// An argument isn't text.
    #[error("rheap: the command line is no text")]
    NoText,
    /// The file is no trace.
    #[error("rheap: {0}")]
    Trace(TraceFault),
    /// The file is no history.
    #[error("rheap: {0}")]
    History(HistoryFault),
    /// The file is no dump.
    #[error("rheap: {0}")]
    Dump(DumpFault),
    /// No heap is made with the sizes that the file asks for.
    #[error("rheap: heap: {0}")]
    Heap(ConfigFault),
    /// No shared heap is made with the replicators that were asked for.
    #[error("rheap: heap: {0}")]
    Shared(SharedFault),
    /// The most words that a heap may have are fewer than those that its trace asks for, or more
    /// than 16,777,216.
    #[error("rheap: grow: BadLimits")]
    Limits,
    /// The trace has no line of the number that was asked for.
    #[error("rheap: draw: NoLine")]
    NoLine,
    /// The file is no program of the small Scheme. `drive_lisp` tells where.
    #[error("rheap: program: {0}")]
    Program(FaultKind),
    /// The program in the file stopped before its end. `drive_lisp` tells where and why.
    #[error("rheap: the program stopped")]
    Stopped,
    /// No pace keeps up in a heap of these sizes with what a trace asks for, or a program.
    #[error("rheap: pace: {0}")]
    Pace(PaceError),
    /// The file can't be opened.
    #[error("rheap: open failed")]
    Open,
    /// The history of a shared heap isn't that of the calls of the mutators, isn't of the trace, or
    /// isn't legal.
    #[error("rheap: history differs")]
    HistoryDiffers,
    /// A text is for the file that is read, for that of another text, or for that to which standard
    /// output or error goes, which has another name, or none. All files are as they were. One that
    /// wasn't there is made, and empty.
    #[error("rheap: OUT is FILE, another OUT, or where standard output or error goes")]
    SameFile,
    /// A read failed, or as many as may be made didn't come to the end: 33,554,432 of a trace or a
    /// history, 536,870,912 of a dump.
    #[error("rheap: read failed")]
    Read,
    /// A write failed or took no byte, 33,554,432 writes of one line, or of a part of a dump's or
    /// of a text for Graphviz, didn't come to its end, or the last flush failed.
    #[error("rheap: write failed")]
    Write,
    /// The trace or the history has more than 16,777,216 bytes, or the program more than 1,048,576.
    #[error("rheap: too long")]
    TooLong,
    /// Memory was refused, or a thread.
    #[error("rheap: out of memory")]
    OutOfMemory,
}

impl LineFault {
    /// The status that the program ends with: 0 for help or the version, 2 for another command line
    /// that isn't understood, 3 where memory or a thread was refused, 4 for a history that differs,
    /// and else 1.
    pub fn status(&self) -> u8
        ensures { result ≡ status_of self.now }
    {
        match self {
            LineFault::CommandLine(fault) => fault.status(),
            LineFault::NoText => 2,
            LineFault::OutOfMemory => 3,
            LineFault::HistoryDiffers => 4,
            _ => 1,
        }
    }
}

impl From<AllocError> for LineFault {
    ghost from_gives = { λ _ e. e ≡ OutOfMemory };

    fn from(_e: AllocError) -> LineFault {
        LineFault::OutOfMemory
    }
}

impl<T: Drop> From<AllocFailed<T>> for LineFault {
    ghost from_gives = { λ _ e. e ≡ OutOfMemory };

    fn from(_e: AllocFailed<T>) -> LineFault {
        LineFault::OutOfMemory
    }
}
