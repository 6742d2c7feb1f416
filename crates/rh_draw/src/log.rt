//! The entries of the log, below the spaces.

use crate::cells::put_value;
use crate::entries::Entry;
use crate::page::Page;
use rh_layout::OutOfMemory;
use std::alloc::Allocator;

/// Puts an entry: its number, and its field with what that holds.
fn put_entry<B: Allocator>(
    svg: &mut String<B>,
    page: Page,
    i: usize,
    entry: Entry,
) -> Result<(), OutOfMemory> {
    let (x, y) = (page.entry_left(i), page.entry_upper(i));
    let class = if entry.is_past { "entry past" } else { "entry" };
    write!(
        svg,
        "<text class='{class}' x='{x}' y='{y}'>#{}: ",
        entry.number
    )?;
    match entry.current {
        Some(filled) => {
            write!(svg, "@{} field {} = ", filled.object, filled.field)?;
            put_value(svg, filled.value)?;
        }
        None => svg.push_str("stored to since")?,
    }
    svg.push_str("</text>\n")?;
    Ok(())
}

/// Puts the log of a cycle, whose limit is so many entries.
pub fn put_log<B: Allocator>(
    svg: &mut String<B>,
    page: Page,
    entries: &[Entry],
    limit: u32,
) -> Result<(), OutOfMemory> {
    let y = u64::from(page.log) + 8;
    let count = entries.len();
    write!(
        svg,
        "<text class='caption' x='16' y='{y}'>Log: {count} of {limit} entries</text>\n"
    )?;
    for (i, entry) in entries.iter().enumerate() {
        put_entry(svg, page, i, *entry)?;
    }
    Ok(())
}
