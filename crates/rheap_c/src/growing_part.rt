//! The part of a handle that keeps a heap that grows.

ghost use Rattle.std.specs.Prelude.{◌≡◌, Option, IsSome, Some, None, is_none};
ghost use Rattle.std.specs.Option.{option_map};
ghost use Rattle.rh_growing.specs.Growing.{GrowingState};

use crate::parted::Parted;
use rh_growing::GrowingHeap;
use std::alloc::Global;
use std::marker::Model;
use std::ptr::null_mut;

/// A heap that grows as a program in C keeps it: the address of a box, or null where none is open.
#[repr(C)]
pub struct GrowingPart {
    at: *mut u8,
    pub ghost state: { Option GrowingState },
}

impl Model for GrowingPart {
    ghost use Rattle.rheap_c.specs.Held.{growing_held};

    ghost also_owns = { λ h. growing_held h.at h.state };
}

// A program in C may hand it from one thread to another: what it owns is the heap alone.
unsafe impl Send for GrowingPart {}

impl GrowingPart {
    /// Takes the heap out, where one is open. The handle's part is as before the first call then.
    #[inline(always)]
    pub(crate) fn take(&mut self, alloc: Global) -> Option<Box<GrowingHeap<Global>>>
        ensures left { self.new.state ≡ None }
        ensures taken { self.old.state ≡ option_map (λ heap. heap.value) result }
    {
        if self.is_empty() {
            return None;
        }
        Some(self.lift(alloc))
    }

    /// Puts a heap in, where none is open.
    #[inline(always)]
    pub(crate) fn give(&mut self, heap: Box<GrowingHeap<Global>>)
        requires { self.old.state ≡ None }
        ensures { self.new.state ≡ Some heap.value }
    {
        self.put(Parted::of(heap));
    }

    /// Whether no heap is open.
    #[inline(always)]
    pub(crate) fn is_empty(&mut self) -> bool
        ensures empty { result ≡ is_none self.old.state }
        ensures kept { self.new.state ≡ self.old.state }
    {
        self.at.is_null()
    }

    /// Takes out the heap that is open: the box at the address, which it leaves null.
    #[inline(always)]
    fn lift(&mut self, alloc: Global) -> Box<GrowingHeap<Global>>
        requires { IsSome self.old.state }
        ensures lifted { self.old.state ≡ Some result.value }
        ensures left { self.new.state ≡ None }
    {
        let at = self.at as *mut GrowingHeap<Global>;
        self.at = null_mut();
        unsafe { Box::from_raw(alloc, at) }
    }

    /// Puts in the address of a heap.
    #[inline(always)]
    fn put(&mut self, parted: Parted<GrowingHeap<Global>>)
        requires { self.old.state ≡ None }
        ensures { self.new.state ≡ Some parted.value }
    {
        let Parted { at } = parted;
        self.at = at as *mut u8;
    }
}
