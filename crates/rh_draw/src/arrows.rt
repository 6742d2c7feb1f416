//! Arrows: from a root or a field to an object, and from an object to its replica.

use crate::page::{CELL_HEIGHT, Page, ROW_LEFT, Strip};
use rh_layout::OutOfMemory;
use std::alloc::Allocator;

/// Puts a curve of this class from one point to another. It leaves the first towards the height
/// `out`, and comes to the second from the height `back`.
fn put_curve<B: Allocator>(
    svg: &mut String<B>,
    class: &str,
    from: (u64, u64),
    out: u64,
    back: u64,
    to: (u64, u64),
) -> Result<(), OutOfMemory> {
    let ((x, y), (to_x, to_y)) = (from, to);
    write!(
        svg,
        "<path class='{class}' d='M{x} {y}C{x} {out} {to_x} {back} {to_x} {to_y}'/>\n"
    )?;
    Ok(())
}

/// Puts an arrow from a field's word to an object's header in the same space. Arrows of a row with
/// other lanes stand apart.
pub fn put_reference<B: Allocator>(
    svg: &mut String<B>,
    strip: Strip,
    from: u64,
    to: u64,
    lane: u64,
) -> Result<(), OutOfMemory> {
    let (x, y) = (strip.left(from) + 26, strip.upper(from));
    let (to_x, to_y) = (strip.left(to) + 36, strip.upper(to));
    let (start, out, back, end) = if to_y == y {
        let arch = y - 18 - lane % 3 * 8;
        (y, arch, arch, y)
    } else if to_y > y {
        let start = y + CELL_HEIGHT;
        (start, start + 34, to_y - 34, to_y)
    } else {
        let end = to_y + CELL_HEIGHT;
        (y, y - 34, end + 34, end)
    };
    put_curve(svg, "reference", (x, start), out, back, (to_x, end))
}

/// Puts an arrow from the root `i`, counted from 0 of those that are drawn, to an object's header.
pub fn put_root_arrow<B: Allocator>(
    svg: &mut String<B>,
    strip: Strip,
    i: usize,
    to: u64,
) -> Result<(), OutOfMemory> {
    let y = strip.root(i) + 14;
    let (x, end) = (strip.left(to) + 14, strip.upper(to));
    let lane = end - 8 - i as u64 % 4 * 5;
    let before = x - 10;
    write!(
        svg,
        "<path class='root' d='M116 {y}C132 {y} 122 {lane} {ROW_LEFT} {lane}H{before}\
         Q{x} {lane} {x} {end}'/>\n"
    )?;
    Ok(())
}

/// Puts the dashed arrow from an object's header to that of its replica.
pub fn put_placed<B: Allocator>(
    svg: &mut String<B>,
    page: Page,
    object: u64,
    replica: u64,
) -> Result<(), OutOfMemory> {
    let (x, y) = (
        page.from.left(object) + 12,
        page.from.upper(object) + CELL_HEIGHT,
    );
    let (to_x, to_y) = (page.to.left(replica) + 12, page.to.upper(replica));
    let (out, back) = (y + 40, to_y - 40);
    put_curve(svg, "placed", (x, y), out, back, (to_x, to_y))
}
