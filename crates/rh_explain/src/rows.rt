//! The table of the lines of a trace: of each keyword, what the parts of its line should be, and how
//! a message names them.

ghost use Rattle.std.specs.Prelude.{◌≡◌, map};
ghost use Rattle.std.specs.Option.{option_map};
ghost use Rattle.rh_syntax.specs.Faults.{header_form, owned_forms, keyword_forms, lookup};
ghost use Rattle.rh_explain.specs.Explain.{entry_of, sorts_of};

use crate::expected::Expected::{Dealt, Keyword, Number, Operand, Root, Tray};
use crate::expected::{Expected, Name};
use rh_text::is_text;

/// A line of a trace.
#[derive(Clone, Copy)]
pub struct TraceRow {
    /// Its keyword.
    pub keyword: &'static str,
    /// What its parts should be.
    pub form: &'static [Expected],
    /// Its parts by their names.
    pub row: &'static str,
}

/// The first line.
const HEADER: TraceRow = TraceRow {
    keyword: "heap",
    form: &[
        Keyword,
        Number(Name::Words),
        Number(Name::Words),
        Number(Name::Words),
        Number(Name::Words),
        Number(Name::Words),
    ],
    row: "heap WORDS RATIO LOG OWNERS SLOTS",
};

/// The lines whose keyword stands after an owner.
pub const OWNED: &[TraceRow] = &[
    TraceRow {
        keyword: "watch",
        form: &[Number(Name::Owner), Keyword, Root(Name::Root)],
        row: "OWNER watch ROOT",
    },
    TraceRow {
        keyword: "alloc",
        form: &[
            Number(Name::Owner),
            Keyword,
            Root(Name::Root),
            Number(Name::Fields),
        ],
        row: "OWNER alloc ROOT FIELDS",
    },
    TraceRow {
        keyword: "raw",
        form: &[
            Number(Name::Owner),
            Keyword,
            Root(Name::Root),
            Number(Name::Fields),
        ],
        row: "OWNER raw ROOT FIELDS",
    },
    TraceRow {
        keyword: "load",
        form: &[
            Number(Name::Owner),
            Keyword,
            Root(Name::Target),
            Root(Name::Source),
            Number(Name::Field),
        ],
        row: "OWNER load DST SRC FIELD",
    },
    TraceRow {
        keyword: "store",
        form: &[
            Number(Name::Owner),
            Keyword,
            Root(Name::Object),
            Number(Name::Field),
            Operand,
        ],
        row: "OWNER store OBJ FIELD OPERAND",
    },
    TraceRow {
        keyword: "copy",
        form: &[
            Number(Name::Owner),
            Keyword,
            Root(Name::Target),
            Root(Name::Source),
        ],
        row: "OWNER copy DST SRC",
    },
    TraceRow {
        keyword: "same",
        form: &[
            Number(Name::Owner),
            Keyword,
            Root(Name::Left),
            Root(Name::Right),
        ],
        row: "OWNER same A B",
    },
    TraceRow {
        keyword: "drop",
        form: &[Number(Name::Owner), Keyword, Root(Name::Root)],
        row: "OWNER drop ROOT",
    },
];

/// The lines that begin with their keyword.
pub const LEADING: &[TraceRow] = &[
    TraceRow {
        keyword: "begin",
        form: &[Keyword],
        row: "begin",
    },
    TraceRow {
        keyword: "shade",
        form: &[Keyword, Root(Name::Root)],
        row: "shade ROOT",
    },
    TraceRow {
        keyword: "deal",
        form: &[Keyword, Dealt, Number(Name::Most), Tray],
        row: "deal copies MOST TRAY, or deal entries MOST TRAY",
    },
    TraceRow {
        keyword: "give",
        form: &[Keyword, Tray],
        row: "give TRAY",
    },
    TraceRow {
        keyword: "join",
        form: &[Keyword, Tray, Tray],
        row: "join TRAY TRAY",
    },
    TraceRow {
        keyword: "flip",
        form: &[Keyword],
        row: "flip",
    },
    TraceRow {
        keyword: "recall",
        form: &[Keyword],
        row: "recall",
    },
    TraceRow {
        keyword: "abandon",
        form: &[Keyword],
        row: "abandon",
    },
    TraceRow {
        keyword: "idle",
        form: &[Keyword, Number(Name::Count)],
        row: "idle N",
    },
    TraceRow {
        keyword: "resize",
        form: &[Keyword, Number(Name::Words)],
        row: "resize WORDS",
    },
    TraceRow {
        keyword: "tickets",
        form: &[Keyword, Number(Name::Count)],
        row: "tickets N",
    },
    TraceRow {
        keyword: "unwatch",
        form: &[Keyword, Number(Name::Ticket)],
        row: "unwatch T",
    },
    TraceRow {
        keyword: "gone",
        form: &[Keyword],
        row: "gone",
    },
    TraceRow {
        keyword: "trays",
        form: &[Keyword],
        row: "trays",
    },
    TraceRow {
        keyword: "stat",
        form: &[Keyword],
        row: "stat",
    },
    TraceRow {
        keyword: "dump",
        form: &[Keyword],
        row: "dump",
    },
];

/// The first line's row.
pub fn header_row() -> TraceRow
    ensures { sorts_of result ≡ header_form }
{
    HEADER
}

/// Lends the rows whose keyword stands after an owner.
fn owned_rows() -> &'static [TraceRow]
    ensures { map entry_of result.now ≡ owned_forms }
{
    OWNED
}

/// Lends the rows that begin with their keyword.
fn leading_rows() -> &'static [TraceRow]
    ensures { map entry_of result.now ≡ keyword_forms }
{
    LEADING
}

/// The row of a line whose keyword, after an owner, is this word.
pub fn owned_row(word: &[u8]) -> Option<TraceRow>
    ensures { option_map sorts_of result ≡ lookup word.now owned_forms }
{
    row_in(owned_rows(), word)
}

/// The row of a line that begins with this word, its keyword.
pub fn leading_row(word: &[u8]) -> Option<TraceRow>
    ensures { option_map sorts_of result ≡ lookup word.now keyword_forms }
{
    row_in(leading_rows(), word)
}

/// The row of a table whose keyword is this word.
fn row_in(rows: &[TraceRow], word: &[u8]) -> Option<TraceRow>
    ensures { option_map sorts_of result ≡ lookup word.now (map entry_of rows.now) }
{
    for row in rows {
        if is_text(word, row.keyword.as_bytes()) {
            return Some(*row);
        }
    }
    None
}
