//! The place of each part on the page, in units of its `viewBox`.

ghost use Rattle.std.specs.Prelude.{◌^◌, ◌≤◌};

use crate::limits::{MOST_ENTRIES, MOST_ROOTS, MOST_WORDS};
use crate::sketch::Sketch;
use std::alloc::Allocator;

/// The width of a page.
pub const PAGE_WIDTH: u32 = 800;

/// Where from-space begins, below the title and what `stat` says.
const FROM_TOP: u32 = 84;

/// The left edge of the first word of each row.
pub const ROW_LEFT: u64 = 146;

/// The right edge of its last one.
pub const ROW_RIGHT: u64 = 782;

/// The words of a row.
const ROW_WORDS: u64 = 12;

/// The width of a word's cell.
pub const CELL_WIDTH: u64 = 53;

/// The height of a word's cell.
pub const CELL_HEIGHT: u64 = 40;

/// How far below a row the next one begins: there is room for arrows between them.
const ROW_PITCH: u64 = 78;

/// How far below the caption of a space its first row begins.
const CAPTION: u64 = 46;

/// How far below a root the next one stands.
const ROOT_PITCH: u64 = 36;

/// The entries of the log in a row: there is room for the longest.
const ROW_ENTRIES: u64 = 2;

/// How far below an entry the one in the next row stands.
const ENTRY_PITCH: u64 = 22;

/// A space on the page.
#[derive(Clone, Copy)]
pub struct Strip {
    /// Where it begins, with its caption.
    pub top: u32,
}

impl Strip {
    /// The left edge of a word's cell.
    pub fn left(self, word: u64) -> u64
        ensures least { 146 ≤ result }
        ensures most { result ≤ 729 }
    {
        ROW_LEFT + word % ROW_WORDS * CELL_WIDTH
    }

    /// The upper edge of a word's cell.
    pub fn upper(self, word: u64) -> u64
        ensures least { 46 ≤ result }
        ensures most { result ≤ 2 ^ 50 }
    {
        let row = word.min(u64::from(MOST_WORDS)) / ROW_WORDS;
        u64::from(self.top) + CAPTION + row * ROW_PITCH
    }

    /// The right edge of the last of the first words, of which there are so many; the left edge of
    /// the first row where there are none.
    pub fn end_left(self, words: u64) -> u64
        ensures { result ≤ 782 }
    {
        if words == 0 {
            return ROW_LEFT;
        }
        self.left(words - 1) + CELL_WIDTH
    }

    /// The upper edge of the row in which the last of them stands.
    pub fn end_upper(self, words: u64) -> u64
        ensures least { 46 ≤ result }
        ensures most { result ≤ 2 ^ 50 }
    {
        self.upper(words.saturating_sub(1))
    }

    /// The words from this one to the end of its row.
    pub fn rest_of_row(self, word: u64) -> u64
        ensures { result ≤ 12 }
    {
        ROW_WORDS - word % ROW_WORDS
    }

    /// The upper edge of a root's box, counted from 0.
    pub fn root(self, i: usize) -> u64
        ensures { result ≤ 2 ^ 50 }
    {
        u64::from(self.top) + CAPTION + i.min(MOST_ROOTS) as u64 * ROOT_PITCH
    }
}

/// Where the parts of a page stand.
#[derive(Clone, Copy)]
pub struct Page {
    /// From-space, with the roots beside it.
    pub from: Strip,
    /// To-space.
    pub to: Strip,
    /// The caption of the log.
    pub log: u32,
    /// The legend.
    pub legend: u32,
    /// The height of the page.
    pub height: u32,
}

/// The height of a space in which so many words are used.
fn height_of(used: u32) -> u32
    ensures { result ≤ 30_000 }
{
    let rows = u64::from(used.min(MOST_WORDS)).div_ceil(ROW_WORDS).max(1);
    (CAPTION + rows * ROW_PITCH) as u32
}

/// The page of a heap with so many used words in both spaces.
pub fn page_of<B: Allocator>(
    sketch: &Sketch<B>,
    used: u32,
    placed: u32,
    is_in_cycle: bool,
) -> Page {
    let roots = CAPTION + sketch.roots.len().min(MOST_ROOTS) as u64 * ROOT_PITCH;
    let to = FROM_TOP + height_of(used).max(roots as u32) - 16;
    if !is_in_cycle {
        return Page {
            from: Strip { top: FROM_TOP },
            to: Strip { top: to },
            log: to,
            legend: to,
            height: to + 16,
        };
    }
    let log = to + height_of(placed);
    let rows = (sketch.entries.len() as u64)
        .min(MOST_ENTRIES)
        .div_ceil(ROW_ENTRIES);
    let legend = log + 40 + (rows * ENTRY_PITCH) as u32;
    Page {
        from: Strip { top: FROM_TOP },
        to: Strip { top: to },
        log,
        legend,
        height: legend + 44,
    }
}

impl Page {
    /// The left edge of an entry of the log, counted from 0.
    pub fn entry_left(self, i: usize) -> u64 {
        16 + i as u64 % ROW_ENTRIES * 386
    }

    /// The upper edge of an entry of the log, counted from 0.
    pub fn entry_upper(self, i: usize) -> u64 {
        u64::from(self.log) + 30 + (i as u64).min(MOST_ENTRIES) / ROW_ENTRIES * ENTRY_PITCH
    }
}
