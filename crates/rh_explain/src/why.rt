//! The sentences that say what is wrong with a part of a line.

ghost use Rattle.std.specs.Prelude.{◌≡◌};
ghost use Rattle.rh_explain.specs.Explain.{class};

use crate::expected::Expected;
use rh_syntax::Kind;
use std::fmt;

/// What is wrong with a part of a line, and what may stand there.
#[derive(Clone, Copy)]
pub enum Why {
    /// The line's number is above 1,048,576.
    TooManyLines,
    /// The line has more than 256 bytes.
    TooManyBytes,
    /// The line has no line end.
    Unended,
    /// A tab.
    Tab,
    /// A carriage return before the line end.
    CarriageReturn,
    /// A byte order mark at the beginning of a line.
    ByteOrderMark,
    /// Another byte outside 32 to 126.
    Byte(u8),
    /// The line is empty.
    Blank,
    /// A space before the first part.
    SpaceAtStart,
    /// A space after a space.
    SecondSpace,
    /// A space after the last part.
    SpaceAtEnd,
    /// The first line is that of a history.
    History,
    /// The first line is that of a dump.
    Dump,
    /// The first line doesn't begin with `heap`.
    NotHeap,
    /// The first line has too few parts.
    HeaderShort,
    /// The first line has too many parts.
    HeaderLong,
    /// Nothing stands after an owner.
    OwnerAlone,
    /// No keyword is this word or near it, at the beginning of a line.
    Unknown,
    /// No keyword is this word or near it, after an owner.
    UnknownOwned,
    /// A word that begins with `#`.
    Comment,
    /// The keyword of the first line, in a later one.
    HeapAgain,
    /// No keyword is this word, but this one is near.
    Misspelled(&'static str),
    /// A keyword that stands after an owner begins the line.
    OwnerMissing(&'static str),
    /// A keyword that begins its line stands after an owner.
    OwnerSurplus(&'static str),
    /// A line that is no command, in a run of commands.
    NotCommand,
    /// A part is missing, in a line of this row.
    Missing(Expected, &'static str),
    /// A part is left after the last.
    Surplus,
    /// Neither `copies` nor `entries`.
    NotDealt,
    /// A part that should be a number isn't the decimal of one.
    NotNumber,
    /// A part that should be a number is above 4,294,967,295.
    NumberRange,
    /// A part that should be an operand isn't one, and has no dot.
    NotOperand,
    /// A part that should be a root isn't one.
    NotRoot,
    /// A part that should be an operand has a dot, and isn't a root.
    NotFraction,
    /// A part that should be the name of a tray isn't one.
    NotTray,
}

impl fmt::Display for Why {
    fn fmt<W: fmt::Write>(&self, f: &mut fmt::Formatter<W>) -> fmt::Result {
        match *self {
            Why::Byte(byte) => write!(
                f,
                "the byte {byte} isn't printable ASCII: the bytes of a line are 32 to 126"
            ),
            Why::Misspelled(keyword) => write!(f, "no such command; did you mean {keyword}?"),
            Why::OwnerMissing(keyword) => write!(
                f,
                "an owner is missing before {keyword}, as in 1 {keyword} .."
            ),
            Why::OwnerSurplus(keyword) => write!(
                f,
                "no owner stands before {keyword}: the line begins with it"
            ),
            Why::Missing(part, row) => write!(f, "{part} is missing: {row}"),
            why => f.write_str(why.sentence()),
        }
    }
}

impl Why {
    /// The kind of the fault that reading tells.
    pub fn kind(self) -> Kind
        ensures { result ≡ class self }
    {
        match self {
            Why::TooManyLines | Why::TooManyBytes => Kind::Long,
            Why::Unended => Kind::Cut,
            Why::Tab
            | Why::CarriageReturn
            | Why::ByteOrderMark
            | Why::Byte(_)
            | Why::Blank
            | Why::SpaceAtStart
            | Why::SecondSpace
            | Why::SpaceAtEnd
            | Why::OwnerAlone
            | Why::Missing(_, _)
            | Why::Surplus => Kind::Form,
            Why::History | Why::Dump | Why::NotHeap | Why::HeaderShort | Why::HeaderLong => {
                Kind::Header
            }
            Why::Unknown
            | Why::UnknownOwned
            | Why::Comment
            | Why::HeapAgain
            | Why::Misspelled(_)
            | Why::OwnerMissing(_)
            | Why::OwnerSurplus(_)
            | Why::NotCommand
            | Why::NotDealt => Kind::Word,
            Why::NotNumber | Why::NumberRange | Why::NotOperand => Kind::Number,
            Why::NotRoot | Why::NotFraction => Kind::Root,
            Why::NotTray => Kind::Tray,
        }
    }

    /// The sentence that says it. It is empty where the sentence names a part of the line.
    fn sentence(self) -> &'static str {
        match self {
            Why::TooManyLines => "a text has at most 1048576 lines",
            Why::TooManyBytes => "a line has at most 256 bytes before its line end",
            Why::Unended => "the line has no line end: a line feed ends each line",
            Why::Tab => "a tab: parts are set apart by one space",
            Why::CarriageReturn =>
                "the line ends with a carriage return: a line feed alone ends each line",
            Why::ByteOrderMark => "a byte order mark: the file begins with its first line",
            Why::Blank => "a blank line: each line has a keyword",
            Why::SpaceAtStart => "a space at the start: a line begins with its first part",
            Why::SecondSpace => "a second space: one stands between two parts",
            Why::SpaceAtEnd => "a space at the end: a line ends with its last part",
            Why::History => "this is a history: rheap replay reads it",
            Why::Dump => "this is a dump: rheap dump reads it",
            Why::NotHeap => "the first line is heap WORDS RATIO LOG OWNERS SLOTS",
            Why::HeaderShort =>
                "a number is missing: the first line is heap WORDS RATIO LOG OWNERS SLOTS",
            Why::HeaderLong =>
                "a part too many: the first line is heap WORDS RATIO LOG OWNERS SLOTS",
            why => why.part_sentence(),
        }
    }

    /// The sentence that says what is wrong with a part of a line whose form is right so far. It is
    /// empty where the sentence names a part of the line.
    fn part_sentence(self) -> &'static str {
        match self {
            Why::OwnerAlone => "a command is missing after the owner, as in 1 drop 1.0",
            Why::Unknown => {
                "no such command: an owner and a command, or a line of a cycle; see rheap run \
                 --help"
            },
            Why::UnknownOwned => {
                "no such command: alloc, raw, load, store, copy, same, drop and watch have an \
                 owner before them"
            },
            Why::Comment => "there are no comments: each line is read",
            Why::HeapAgain => "heap stands in the first line alone",
            Why::NotCommand =>
                "only commands stand in this run: alloc, raw, load, store, copy, same and drop",
            Why::Surplus => "a part too many: the line ends before it",
            Why::NotDealt => "copies or entries is due here",
            Why::NotNumber =>
                "a number is due here: digits without a leading zero, 0 to 4294967295",
            Why::NumberRange => "a number out of its range: 0 to 4294967295",
            Why::NotOperand =>
                "nil, a root as 1.0, or -2^63 to 2^63 - 1 is due here; no + and no leading zero",
            Why::NotRoot =>
                "a root is due here: OWNER.SLOT as 1.0, two numbers from 0 to 4294967295",
            Why::NotFraction =>
                "a part with a dot is a root, OWNER.SLOT as 1.0; there are no fractions",
            Why::NotTray =>
                "a tray is due here: a letter a to z, then at most 15 of a to z, 0 to 9 and _",
            _ => "",
        }
    }
}
