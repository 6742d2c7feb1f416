//! Values as C gives them to calls that write several.

ghost use Rattle.std.specs.Prelude.{◌≡◌};
ghost use Rattle.rheap_c.specs.Init.{operand_of};
ghost use Rattle.rheap_c.specs.Making.{has_kind};

use crate::value::{NIL, NUMBER, RAW, RheapRoot};
use rh_layout::{Operand, RootId};
use rh_mutator::{GivenKind, GivenValue};

/// A value to be written: nil, a whole number, or what a root holds.
#[repr(C)]
#[derive(Clone, Copy)]
pub struct RheapInit {
    /// `NIL`, `NUMBER`, or any other kind for what the root holds.
    pub kind: u32,
    /// The root. It isn't looked at where the value is nil or a number.
    pub root: RheapRoot,
    /// The number. It isn't looked at where the value is none.
    pub number: i64,
}

impl RheapInit {
    /// The value as the heap takes it.
    #[inline(always)]
    pub(crate) fn operand(self) -> Operand
        ensures { result ≡ operand_of self }
    {
        if self.kind == NIL {
            return Operand::Nil;
        }
        if self.kind == NUMBER {
            return Operand::Int(self.number);
        }
        Operand::Root(self.root.id())
    }
}

impl GivenValue for RheapInit {
    ghost operand = { operand_of };

    ghost is_known = { has_kind };

    #[inline(always)]
    fn kind(&self) -> GivenKind {
        if self.kind == NUMBER {
            GivenKind::Number
        } else if self.kind == NIL {
            GivenKind::Nil
        } else if self.kind <= RAW {
            GivenKind::Root
        } else {
            GivenKind::Unknown
        }
    }

    #[inline(always)]
    fn number(&self) -> i64 {
        self.number
    }

    #[inline(always)]
    fn root(&self) -> RootId {
        self.root.id()
    }
}
