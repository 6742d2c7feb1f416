//! The head of a picture: its title, its description, its style, and what `stat` says.

use crate::page::PAGE_WIDTH;
use crate::style::style;
use rh_core::Stat;
use rh_layout::OutOfMemory;
use std::alloc::Allocator;

/// How XML spells a letter that it doesn't take as it is; `None` of one that it takes. Control
/// characters, U+FFFE and U+FFFF are spelled as spaces.
fn spelled(letter: char) -> Option<&'static str> {
    match letter {
        '<' => Some("&lt;"),
        '>' => Some("&gt;"),
        '&' => Some("&amp;"),
        '\0'..='\u{1f}' | '\u{fffe}' | '\u{ffff}' => Some(" "),
        _ => None,
    }
}

/// Puts a text at the end, as XML spells it.
fn put_spelled<B: Allocator>(svg: &mut String<B>, text: &str) -> Result<(), OutOfMemory> {
    for letter in text.chars() {
        match spelled(letter) {
            Some(spelling) => svg.push_str(spelling)?,
            None => svg.push(letter)?,
        }
    }
    Ok(())
}

/// Puts the start of a picture of this height, and what `stat` says of its heap.
pub fn put_head<B: Allocator>(
    svg: &mut String<B>,
    title: &str,
    description: &str,
    height: u32,
    stat: &Stat,
) -> Result<(), OutOfMemory> {
    write!(
        svg,
        "<svg xmlns='http://www.w3.org/2000/svg' width='{PAGE_WIDTH}' height='{height}' \
         viewBox='0 0 {PAGE_WIDTH} {height}' role='img'>\n<title>"
    )?;
    put_spelled(svg, title)?;
    write!(svg, "</title>\n<desc>{description}</desc>\n")?;
    svg.push_str(style())?;
    svg.push_str(
        "<rect class='page' width='100%' height='100%'/>\n<text class='title' x='16' y='28'>",
    )?;
    put_spelled(svg, title)?;
    svg.push_str("</text>\n")?;
    put_stat(svg, stat)
}

/// Puts what `stat` says of a heap, in two lines: there is room for the longest numbers.
fn put_stat<B: Allocator>(svg: &mut String<B>, stat: &Stat) -> Result<(), OutOfMemory> {
    let cycle = if stat.cycle { "on" } else { "off" };
    write!(
        svg,
        "<text x='16' y='50'>used {} free {} cycle {cycle} epoch {} number {} log {}",
        stat.used, stat.free, stat.epoch, stat.number, stat.log
    )?;
    write!(
        svg,
        "</text><text x='16' y='68'>granted {} spent {} placed {} missing {} idle {}</text>\n",
        stat.granted, stat.spent, stat.placed, stat.missing, stat.idle
    )?;
    Ok(())
}
