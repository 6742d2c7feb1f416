//! Why a text is no dump.

use thiserror::Error;

/// What is wrong with a line. In each line the first of these that holds is named, in this order;
/// but `Number`, `Order` and `Count` are looked at part by part from left to right, and a wrong
/// number of values in an object's line comes after its number and the number of its fields.
#[derive(Clone, Copy, Debug, PartialEq, Eq, Error)]
pub enum DumpKind {
    /// The text passes 268,435,456 bytes in this line.
    #[error("Long")]
    Long,
    /// The text ends before this line's line end.
    #[error("End")]
    End,
    /// The first line is neither `rheap 1` nor `rheap 2`.
    #[error("Header")]
    Header,
    /// The line stands after the line `end`.
    #[error("Trailing")]
    Trailing,
    /// A byte outside 32 to 126, an empty part, a wrong keyword or number of parts, or a root that
    /// is `nil`.
    #[error("Form")]
    Form,
    /// A part that should be a number, a root or a value isn't one, or is out of range, or a raw
    /// object has a reference.
    #[error("Number")]
    Number,
    /// A root isn't above the one before it, an object's number isn't the next, or a reference is
    /// more than one above all references before it.
    #[error("Order")]
    Order,
    /// There are fewer objects than were met in the roots, an object wasn't met before its line, or
    /// a reference is to a number that no object has.
    #[error("Count")]
    Count,
}

/// The first faulty line of a text that is no dump.
#[derive(Clone, Copy, Debug, PartialEq, Eq, Error)]
#[error("line {line}: {kind}")]
pub struct DumpFault {
    /// The line's number, from 1.
    pub line: u32,
    /// What is wrong with it.
    pub kind: DumpKind,
}
