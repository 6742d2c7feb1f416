//! Puts the picture of a heap together from its parts, and writes it as SVG.

ghost use Rattle.std.specs.Prelude.{◌≡◌, false, IsErrOf, OnOk};
ghost use Rattle.std.specs.String.{string_bytes};
ghost use Rattle.rh_text.specs.IoLog.{AreSpent};
ghost use Rattle.rh_draw.specs.Picture.{Draws, IsWhole, WritesText};

use crate::bars::put_bars;
use crate::error::DrawError;
use crate::head::put_head;
use crate::legend::put_legend;
use crate::log::put_log;
use crate::page::{Page, page_of};
use crate::roots::{put_root_arrows, put_roots};
use crate::sketch::Sketch;
use crate::spaces::{put_caption, put_end, put_objects, put_references};
use crate::to_space::{
    put_held_references, put_origins, put_placements, put_replicas, put_scan, put_to_caption,
};
use rh_core::Heap;
use rh_layout::OutOfMemory;
use rh_text::{IoLog, Write, send};
use std::alloc::Allocator;
use std::io;

/// The description of a picture.
const DESCRIPTION: &str = "A managed heap. Roots stand at the left, with arrows to what they refer \
to. Each object is a box of words with its address, whether it is raw, and its fields, which have \
the number of their last store below what they hold. In a cycle to-space stands below, where the \
current pair of a filled field is held, that of an empty one is not, and a hatched one was stored \
to since. Dashed arrows lead from objects to their replicas. The entries of the log stand at the \
bottom, struck through once a deal has looked at them.";

/// What the picture shows, in words.
fn description<'a>() -> &'a str {
    DESCRIPTION
}

/// Puts all arrows. They stand below what is put after them, so that no text is crossed.
fn put_arrows<A: Allocator + Copy, B: Allocator>(
    svg: &mut String<B>,
    heap: &Heap<A>,
    page: Page,
    sketch: &Sketch<B>,
) -> Result<(), OutOfMemory> {
    put_placements(svg, page, &sketch.replicas)?;
    put_references(svg, page.from, heap, &sketch.objects)?;
    put_root_arrows(svg, page.from, &sketch.roots)?;
    put_held_references(svg, page.to, heap, &sketch.replicas)
}

/// Puts what a cycle has: to-space, the log and the legend.
fn put_cycle<A: Allocator + Copy, B: Allocator>(
    svg: &mut String<B>,
    heap: &Heap<A>,
    page: Page,
    sketch: &Sketch<B>,
) -> Result<(), OutOfMemory> {
    let sizes = heap.config();
    let used = heap.replica().used();
    put_to_caption(svg, page.to, used, sizes.words)?;
    put_replicas(svg, page.to, heap, &sketch.replicas)?;
    put_origins(svg, page, &sketch.replicas)?;
    put_end(svg, page.to, used)?;
    put_scan(svg, page.to, heap, &sketch.replicas)?;
    put_log(svg, page, &sketch.entries, sizes.log_limit)?;
    put_legend(svg, page)
}

/// Puts the whole picture of a heap that is drawn one by one, up to the end of its one element.
fn put_all<A: Allocator + Copy, B: Allocator>(
    svg: &mut String<B>,
    heap: &Heap<A>,
    title: &str,
    sketch: &Sketch<B>,
) -> Result<(), OutOfMemory>
    ensures { OnOk result (IsWhole (string_bytes svg.new)) }
{
    let page = page_of(
        sketch,
        heap.used(),
        heap.replica().used(),
        heap.is_in_cycle(),
    );
    put_head(svg, title, description(), page.height, &heap.stat())?;
    put_arrows(svg, heap, page, sketch)?;
    put_caption(svg, page.from, heap.used(), heap.config().words)?;
    put_roots(svg, page.from, &sketch.roots)?;
    put_objects(svg, page.from, heap, &sketch.objects)?;
    put_end(svg, page.from, heap.used())?;
    if heap.is_in_cycle() {
        put_cycle(svg, heap, page, sketch)?;
    }
    svg.push_str("</svg>\n")?;
    Ok(())
}

/// Puts the whole picture of a heap, up to the end of its one element. A sketch of nothing becomes
/// the heap's.
fn put_picture<A: Allocator + Copy, B: Allocator + Copy>(
    svg: &mut String<B>,
    sketch: &mut Sketch<B>,
    heap: &Heap<A>,
    title: &str,
) -> Result<(), OutOfMemory>
    ensures { OnOk result (IsWhole (string_bytes svg.new)) }
{
    match sketch.read(heap)? {
        None => put_all(svg, heap, title, sketch),
        Some(excess) => put_bars(svg, heap, title, excess),
    }
}

/// Writes the text of a picture.
fn send_picture<W: io::Write>(
    writer: &mut W,
    writes: &mut IoLog,
    svg: &[u8],
) -> Result<(), DrawError>
    requires { writes.old.failed ≡ false }
    ensures written { WritesText svg.now result (W.contents writer.old) (W.contents writer.new) }
    ensures failed { IsErrOf result DrawError.Write → AreSpent writes.new }
    ensures none_failed { ¬ IsErrOf result DrawError.Write → writes.new.failed ≡ false }
{
    match send(writer, writes, svg) {
        Ok(()) => Ok(()),
        Err(Write) => Err(DrawError::Write),
    }
}

/// Writes a picture of a heap as it stands, in SVG with this title, behind what the writer has. It
/// shows:
///
/// - the roots that aren't nil, with arrows to the objects that they refer to;
/// - each object of from-space, a box with its address, its kind and its fields, and an arrow for
///   each reference;
/// - in a cycle each replica, with what is held of it, the place of the scan, and the log;
/// - the line of `stat`.
///
/// Of a heap that has more than `limits` name it shows bars alone. The same heap and title have the
/// same bytes. Time and memory are linear in what is drawn and in the roots that the heap has; the
/// text is put together first, and then written at once.
///
/// # Errors
///
/// `Write` where a write failed, or 33,554,432 of them didn't come to the end: a prefix of the
/// picture was written then (`draw_logged` says that it comes nowhere else). `OutOfMemory` where a
/// growth of the text, or of the lists of what is drawn, was refused: nothing was written then.
pub fn draw<A: Allocator + Copy, B: Allocator + Copy, W: io::Write>(
    alloc: B,
    heap: &Heap<A>,
    title: &str,
    writer: &mut W,
) -> Result<(), DrawError>
    ensures drawn { Draws result (W.contents writer.old) (W.contents writer.new) }
{
    draw_logged(alloc, heap, title, writer, &mut IoLog::new())
}

/// Writes a picture of a heap as `draw` does, and tells in `writes` whether a write failed, and how
/// many were made.
///
/// # Errors
///
/// As `draw`.
pub fn draw_logged<A: Allocator + Copy, B: Allocator + Copy, W: io::Write>(
    alloc: B,
    heap: &Heap<A>,
    title: &str,
    writer: &mut W,
    writes: &mut IoLog,
) -> Result<(), DrawError>
    requires { writes.old.failed ≡ false }
    ensures drawn { Draws result (W.contents writer.old) (W.contents writer.new) }
    // Write is answered only where a write failed or none was left, and no write failed where it
    // isn't.
    ensures failed { IsErrOf result DrawError.Write → AreSpent writes.new }
    ensures none_failed { ¬ IsErrOf result DrawError.Write → writes.new.failed ≡ false }
{
    let mut svg = String::new(alloc);
    let mut sketch = Sketch::new(alloc);
    match put_picture(&mut svg, &mut sketch, heap, title) {
        Ok(()) => send_picture(writer, writes, svg.as_bytes()),
        Err(OutOfMemory) => Err(DrawError::OutOfMemory),
    }
}
