//! The picture of a heap with more than is drawn one by one: its words as bars.

ghost use Rattle.std.specs.Prelude.{OnOk};
ghost use Rattle.std.specs.String.{string_bytes};
ghost use Rattle.rh_draw.specs.Picture.{IsWhole};

use crate::head::put_head;
use crate::sketch::Excess;
use rh_core::Heap;
use rh_layout::OutOfMemory;
use std::alloc::Allocator;

/// The width of the bar of all words.
const FULL: u64 = 600;

/// The description of a picture.
const DESCRIPTION: &str = "A managed heap that has more than is drawn one by one. Bars show how \
many words objects use, how many are free, and how many are placed.";

/// What the picture shows, in words.
fn description<'a>() -> &'a str {
    DESCRIPTION
}

/// Puts a bar of so many words of a space's.
fn put_bar<B: Allocator>(
    svg: &mut String<B>,
    class: &str,
    y: u32,
    name: &str,
    count: u32,
    words: u32,
) -> Result<(), OutOfMemory> {
    let width = u64::from(count) * FULL / u64::from(words.max(1));
    let text = u64::from(y) + 15;
    write!(
        svg,
        "<text x='16' y='{text}'>{name} {count}</text>\
         <rect class='free' x='184' y='{y}' width='{FULL}' height='20'/>\
         <rect class='{class}' x='184' y='{y}' width='{width}' height='20'/>\n"
    )?;
    Ok(())
}

/// Puts the whole picture of a heap that has too much of something, up to the end of its one element.
pub fn put_bars<A: Allocator + Copy, B: Allocator>(
    svg: &mut String<B>,
    heap: &Heap<A>,
    title: &str,
    excess: Excess,
) -> Result<(), OutOfMemory>
    ensures { OnOk result (IsWhole (string_bytes svg.new)) }
{
    put_head(svg, title, description(), 218, &heap.stat())?;
    let words = heap.config().words;
    put_bar(svg, "used", 88, "words used", heap.used(), words)?;
    put_bar(svg, "cell", 118, "words free", heap.free_words(), words)?;
    let placed = heap.replica().used();
    put_bar(svg, "placed-words", 148, "words placed", placed, words)?;
    write!(
        svg,
        "<text x='16' y='198'>Only bars: {} {}, and at most {} are drawn.</text>\n",
        excess.count, excess.name, excess.most
    )?;
    svg.push_str("</svg>\n")?;
    Ok(())
}
