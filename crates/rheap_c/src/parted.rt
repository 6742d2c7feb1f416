//! A box that is kept as an address alone, on its way into a handle.

ghost use Rattle.std.specs.Prelude.{◌≡◌};
ghost use Rattle.rheap_c.specs.Parted.{parted};

use std::alloc::Global;
use std::marker::Model;

/// A box without its allocator: its address, and all that the box owned.
pub(crate) struct Parted<T> {
    pub(crate) at: *mut T,
    pub(crate) ghost value: { T },
}

impl<T> Model for Parted<T> {
    ghost also_owns = { λ it. parted T.row it.at it.value };
}

impl<T: Drop> Parted<T> {
    /// Takes the box apart.
    #[inline(always)]
    pub(crate) fn of(whole: Box<T, Global>) -> Parted<T>
        ensures { result.value ≡ whole.value }
    {
        let at = Box::into_raw(whole);
        Parted { at }
    }
}
