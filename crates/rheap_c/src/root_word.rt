//! Roots as one word each, as calls from C have them in a register.

ghost use Rattle.std.specs.Prelude.{◌≡◌};
ghost use Rattle.rheap_c.specs.RootWord.{root_in};
ghost use Rattle.rheap_c.specs.Shared.{shared_root};
ghost use Rattle.rheap_c.specs.Told.{root_of};

use crate::value::RheapRoot;
use rh_layout::RootId;

/// Above the word's lower half.
const UPPER: u64 = 1 << 32;

/// A root in one word: its owner in the lower half, its slot in the upper one.
#[derive(Clone, Copy)]
pub(crate) struct RootWord {
    word: u64,
}

impl RootWord {
    /// The word of a root that C names. It is what the register holds already.
    #[inline(always)]
    pub(crate) fn of(root: RheapRoot) -> RootWord
        ensures { root_in result ≡ root_of root }
    {
        RootWord {
            word: u64::from(root.slot) * UPPER + u64::from(root.owner),
        }
    }

    /// The word of a slot of owner 0.
    #[inline(always)]
    pub(crate) fn shared(slot: u32) -> RootWord
        ensures { root_in result ≡ shared_root slot }
    {
        RootWord {
            word: u64::from(slot) * UPPER,
        }
    }

    /// The root as the heap names it.
    #[inline(always)]
    pub(crate) fn id(self) -> RootId
        ensures { result ≡ root_in self }
    {
        RootId {
            owner: (self.word % UPPER) as u32,
            slot: (self.word / UPPER) as u32,
        }
    }
}
