//! What the next line of a dump must be.

use rh_layout::RootId;

/// A version of the text, which its first line names.
#[derive(Clone, Copy)]
pub enum Version {
    /// Version 1, in which no object is raw.
    One,
    /// Version 2.
    Two,
}

/// What the next line of a dump must be, by the lines before it.
#[derive(Clone, Copy)]
pub enum Due {
    /// `rheap 1` or `rheap 2`, the first line.
    Header,
    /// `roots R`.
    Roots {
        /// The version of the text.
        version: Version,
    },
    /// The line of a root.
    Root {
        /// The version of the text.
        version: Version,
        /// How many further root lines are due after this one.
        left: u32,
        /// The root of the line before, where that is a root's.
        last: Option<RootId>,
        /// How many objects were met.
        met: u32,
    },
    /// `objects N`.
    Objects {
        /// The version of the text.
        version: Version,
        /// How many objects were met.
        met: u32,
    },
    /// The line of an object.
    Object {
        /// The version of the text.
        version: Version,
        /// The object's number.
        number: u32,
        /// How many objects there are.
        count: u32,
        /// How many objects were met.
        met: u32,
    },
    /// `end`.
    End,
    /// No line.
    Nothing,
}
