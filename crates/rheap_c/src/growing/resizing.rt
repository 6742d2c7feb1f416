//! A heap that grows chooses its own words: `rheap_resize`, `rheap_resize_sized`.

ghost use Rattle.rheap_c.specs.Resized.{IsNotResized};

use crate::growing_part::GrowingPart;
use crate::status::{GROWS, NOT_OPEN};

/// `rheap_resize` and `rheap_resize_sized`, on a heap that grows.
#[inline(never)]
pub(crate) fn resize(heap: &mut GrowingPart) -> u8
    ensures { IsNotResized heap.old.state heap.new.state result }
{
    if heap.is_empty() { NOT_OPEN } else { GROWS }
}
