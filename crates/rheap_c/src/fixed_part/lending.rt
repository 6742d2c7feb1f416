//! The heap of a handle, used where it is.

ghost use Rattle.std.specs.Prelude.{◌≡◌, IsSome, Some};
ghost use types.Logic.{sem};
ghost use Rattle.rheap_c.specs.Lent.{lends_heap};

use crate::fixed_part::FixedPart;
use rh_pace::PacedHeap;
use std::alloc::Global;

impl FixedPart {
    /// Lends the heap that is open, in the box at the address. The handle keeps the address.
    #[inline(always)]
    pub(crate) fn here(&mut self) -> &mut PacedHeap<Global>
        requires { IsSome self.old.state }
        ensures* writes_back { sem 𝓛 (lends_heap self.entry result) }
        ensures value { self.old.state ≡ Some result.now }
    {
        unsafe { &mut *(self.at as *mut PacedHeap<Global>) }
    }
}
