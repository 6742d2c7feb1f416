//! The roots, at the left of from-space.

use crate::arrows::put_root_arrow;
use crate::cells::{class_of, put_value};
use crate::page::Strip;
use rh_layout::{OutOfMemory, RootId, Value};
use std::alloc::Allocator;

/// Puts the roots that aren't nil, each with what it holds.
pub fn put_roots<B: Allocator>(
    svg: &mut String<B>,
    strip: Strip,
    roots: &[(RootId, Value)],
) -> Result<(), OutOfMemory> {
    let caption = u64::from(strip.top) + 14;
    write!(
        svg,
        "<text class='caption' x='16' y='{caption}'>Roots</text>\n"
    )?;
    for (i, (id, value)) in roots.iter().enumerate() {
        let y = strip.root(i);
        let text = y + 19;
        let class = class_of(*value);
        let (owner, slot) = (id.owner, id.slot);
        write!(
            svg,
            "<rect class='root-box' x='16' y='{y}' width='100' height='28'/>\
             <text x='22' y='{text}'>{owner}.{slot}</text>\
             <text class='{class}' x='90' y='{text}'>"
        )?;
        put_value(svg, *value)?;
        svg.push_str("</text>\n")?;
    }
    Ok(())
}

/// Puts an arrow for each root that holds a reference.
pub fn put_root_arrows<B: Allocator>(
    svg: &mut String<B>,
    strip: Strip,
    roots: &[(RootId, Value)],
) -> Result<(), OutOfMemory> {
    for (i, (_, value)) in roots.iter().enumerate() {
        if let Value::Ref(to) = *value {
            put_root_arrow(svg, strip, i, to.into())?;
        }
    }
    Ok(())
}
