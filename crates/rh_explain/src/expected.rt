//! What a part of a line should be.

use std::fmt;

/// What a part of a line should be. Its text is its name in the row of its line.
#[derive(Clone, Copy)]
pub enum Expected {
    /// A keyword.
    Keyword,
    /// A number from 0 to 4,294,967,295, of this name.
    Number(Name),
    /// A root, `OWNER.SLOT`, of this name.
    Root(Name),
    /// `nil`, a root, or a whole number of 64 bits with sign.
    Operand,
    /// `copies` or `entries`.
    Dealt,
    /// The name of a tray.
    Tray,
}

impl fmt::Display for Expected {
    fn fmt<W: fmt::Write>(&self, f: &mut fmt::Formatter<W>) -> fmt::Result {
        match *self {
            Expected::Keyword => f.write_str("a keyword"),
            Expected::Number(name) => write!(f, "{name}"),
            Expected::Root(name) => write!(f, "{name}"),
            Expected::Operand => f.write_str("OPERAND"),
            Expected::Dealt => f.write_str("copies or entries"),
            Expected::Tray => f.write_str("TRAY"),
        }
    }
}

/// The name of a number or a root in the row of its line.
#[derive(Clone, Copy)]
pub enum Name {
    /// The number of an owner.
    Owner,
    /// A root.
    Root,
    /// The root that is written to.
    Target,
    /// The root that is read.
    Source,
    /// The root of the object of a store.
    Object,
    /// The first root that is compared.
    Left,
    /// The second.
    Right,
    /// How many fields an object gets.
    Fields,
    /// The number of a field.
    Field,
    /// The most items of a deal.
    Most,
    /// Idle words, or tickets.
    Count,
    /// The words of a space, and what stands after them in the first line.
    Words,
    /// The number of a ticket.
    Ticket,
}

impl Name {
    /// The name as it is written.
    fn as_str(self) -> &'static str {
        match self {
            Name::Owner => "OWNER",
            Name::Root => "ROOT",
            Name::Target => "DST",
            Name::Source => "SRC",
            Name::Object => "OBJ",
            Name::Left => "A",
            Name::Right => "B",
            Name::Fields => "FIELDS",
            Name::Field => "FIELD",
            Name::Most => "MOST",
            Name::Count => "N",
            Name::Words => "WORDS",
            Name::Ticket => "T",
        }
    }
}

impl fmt::Display for Name {
    fn fmt<W: fmt::Write>(&self, f: &mut fmt::Formatter<W>) -> fmt::Result {
        f.write_str(self.as_str())
    }
}
