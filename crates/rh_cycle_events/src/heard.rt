//! What came of the lines of cycles.

ghost use Rattle.std.specs.Prelude.{◌≡◌};
ghost use Rattle.rh_cycle_events.specs.Events.{begins_at, ends_at, freed_after, line_heard, nothing_heard, told_by};

use crate::line::{Column, CycleLine};

/// What came of the lines: whether the names of the columns did, the words that the cycles before
/// this line freed, and this line.
#[derive(Drop)]
pub(crate) struct Heard {
    pub(crate) begun: bool,
    pub(crate) freed: u64,
    pub(crate) line: CycleLine,
}

impl Heard {
    /// Nothing came yet.
    pub(crate) fn new() -> Heard
        ensures { result ≡ nothing_heard }
    {
        Heard {
            begun: false,
            freed: 0,
            line: CycleLine::new(),
        }
    }

    /// When the cycle of this line began: once the words were allocated that were used then or freed
    /// before.
    pub(crate) fn begins(&self) -> u64
        ensures { result ≡ begins_at self.now.freed (told_by self.now.line) }
    {
        self.freed.saturating_add(self.line.number(Column::Used))
    }

    /// When it ended, counted so too.
    pub(crate) fn ends(&self) -> u64
        ensures { result ≡ ends_at self.now.freed (told_by self.now.line) }
    {
        self.freed_after()
            .saturating_add(self.line.number(Column::Live))
    }

    /// The words that the cycles up to this one freed.
    fn freed_after(&self) -> u64
        ensures { result ≡ freed_after self.now.freed (told_by self.now.line) }
    {
        self.freed.saturating_add(self.line.number(Column::Freed))
    }

    /// This line came to its end. The first has the names of the columns.
    pub(crate) fn end_line(&mut self)
        ensures { self.new ≡ line_heard self.old }
    {
        if self.begun {
            self.freed = self.freed_after();
        }
        self.begun = true;
        self.line = CycleLine::new();
    }
}
