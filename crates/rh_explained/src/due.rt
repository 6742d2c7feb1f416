//! The lines of a dump, by what they have.

use std::fmt;

/// The line that a dump has at a place, as it is written.
#[derive(Clone, Copy)]
pub enum Due {
    /// The first line.
    Header,
    /// The line with the number of roots.
    Roots,
    /// The line of a root.
    Root,
    /// The line with the number of objects.
    Objects,
    /// The line of an object.
    Object,
    /// The last line.
    End,
}

impl Due {
    /// The line as it is written.
    fn as_str(self) -> &'static str {
        match self {
            Due::Header => "rheap 2",
            Due::Roots => "roots R",
            Due::Root => "OWNER.SLOT VALUE",
            Due::Objects => "objects N",
            Due::Object => "@K FIELDS VALUE .. or @K raw FIELDS VALUE ..",
            Due::End => "end",
        }
    }
}

impl fmt::Display for Due {
    fn fmt<W: fmt::Write>(&self, f: &mut fmt::Formatter<W>) -> fmt::Result {
        f.write_str(self.as_str())
    }
}
