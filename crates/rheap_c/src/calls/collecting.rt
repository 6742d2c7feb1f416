//! Collecting on demand: `rheap_collect`, `rheap_increment`.

ghost use Rattle.rheap_c.specs.Collected.{Collects, Increments};
ghost use Rattle.rheap_c.specs.Grown.{GrownCollects, GrownIncrements};
ghost use Rattle.rheap_c.specs.Handle.{Calls};

use crate::handle::Rheap;
use crate::{fixed, growing};
use std::alloc::Global;

/// Collects at once, as `PacedHeap::collect`. `rheap_last_did` tells what it did.
#[unsafe(no_mangle)]
pub extern "C" fn rheap_collect(heap: &mut Rheap, alloc: Global) -> u8
    ensures { Calls (λ old new. Collects old new result)
        (λ old new. GrownCollects old new result) heap.old heap.new }
{
    if heap.fixed.is_empty() {
        return growing::collecting::collect(&mut heap.growing, alloc);
    }
    fixed::collecting::collect(&mut heap.fixed, alloc)
}

/// One increment of collector work, as `PacedHeap::increment`. `rheap_last_did` tells what it did.
#[unsafe(no_mangle)]
pub extern "C" fn rheap_increment(heap: &mut Rheap, alloc: Global) -> u8
    ensures { Calls (λ old new. Increments old new result)
        (λ old new. GrownIncrements old new result) heap.old heap.new }
{
    if heap.fixed.is_empty() {
        return growing::collecting::increment(&mut heap.growing, alloc);
    }
    fixed::collecting::increment(&mut heap.fixed, alloc)
}
