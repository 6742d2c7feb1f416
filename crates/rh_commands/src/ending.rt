//! The endings of a subcommand without a fault: status 0, or 4 for a history that is wrong.

ghost use Rattle.std.specs.Prelude.{◌≡◌};
ghost use Rattle.rh_commands.specs.Fault.{ending_status};

/// How the program ends where it did what it was asked.
#[derive(Clone, Copy)]
pub enum Ending {
    /// All is well.
    Done,
    /// The history has an answer that isn't that of a heap that never moves its objects. The report
    /// names it, and nothing is told on standard error.
    WrongHistory,
}

impl Ending {
    /// The status that the program ends with: 0 where all is well, and 4 for a wrong history.
    pub fn status(self) -> u8
        ensures { result ≡ ending_status self }
    {
        match self {
            Ending::Done => 0,
            Ending::WrongHistory => 4,
        }
    }
}
