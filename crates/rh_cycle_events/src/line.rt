//! The line of a cycle, as its bytes come.

ghost use Rattle.std.specs.Prelude.{◌≡◌, ◌<◌};
ghost use Rattle.rh_cycle_events.specs.Line.{no_line, number_at, place_of, with_byte, with_digit};

/// How many columns the line of a cycle has.
const COLUMNS: usize = 19;

/// A column of a line of which events tell.
#[derive(Clone, Copy)]
pub(crate) enum Column {
    Number,
    Began,
    Ended,
    Used,
    Live,
    Freed,
    Objects,
    Granted,
    Idle,
    Spent,
    Logged,
}

impl Column {
    /// Its place among the columns, from 0.
    fn place(self) -> usize
        ensures place { result ≡ place_of self }
        ensures within { result < COLUMNS }
    {
        match self {
            Column::Number => 0,
            Column::Began => 3,
            Column::Ended => 4,
            Column::Used => 5,
            Column::Live => 6,
            Column::Freed => 7,
            Column::Objects => 8,
            Column::Granted => 9,
            Column::Idle => 10,
            Column::Spent => 11,
            Column::Logged => 13,
        }
    }
}

/// The place of the column that says how the cycle ended.
const END: usize = 1;

/// What came of a line: its numbers by column, and whether it tells an abandoned cycle.
#[derive(Drop)]
pub(crate) struct CycleLine {
    numbers: [u64; COLUMNS],
    column: usize,
    is_abandoned: bool,
}

impl CycleLine {
    /// Nothing came yet.
    pub(crate) fn new() -> CycleLine
        ensures { result ≡ no_line }
    {
        CycleLine {
            numbers: [0; COLUMNS],
            column: 0,
            is_abandoned: false,
        }
    }

    /// Takes a byte of the line: a tab begins the next column, and a digit is one of the column's
    /// number. Of the words for an end only one has an `a`.
    pub(crate) fn take(&mut self, byte: u8)
        ensures { self.new ≡ with_byte self.old byte }
    {
        if byte == b'\t' {
            self.column = self.column.saturating_add(1);
            return;
        }
        if byte >= b'0' && byte <= b'9' {
            self.take_digit(byte - b'0');
            return;
        }
        if byte == b'a' && self.column == END {
            self.is_abandoned = true;
        }
    }

    /// Takes a digit. A number of 2^64 or more stays at 2^64 - 1.
    fn take_digit(&mut self, digit: u8)
        ensures { self.new ≡ with_digit self.old digit }
    {
        if self.column >= COLUMNS {
            return;
        }
        let number = self.numbers[self.column];
        self.numbers[self.column] = number.saturating_mul(10).saturating_add(digit as u64);
    }

    /// The number in a column; 0 where it has none.
    pub(crate) fn number(&self, column: Column) -> u64
        ensures { result ≡ number_at self.now (place_of column) }
    {
        self.numbers[column.place()]
    }

    /// Whether the cycle was abandoned.
    pub(crate) fn is_abandoned(&self) -> bool
        ensures { result ≡ self.now.is_abandoned }
    {
        self.is_abandoned
    }
}
