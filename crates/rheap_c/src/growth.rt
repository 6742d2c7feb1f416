//! How a heap grows, as it crosses from C.

ghost use Rattle.std.specs.Prelude.{◌≡◌};
ghost use Rattle.rheap_c.specs.GrownOpened.{growth_of, short_code};

use rh_growing::{Growth, Short};

/// The heap has enough words.
pub const AMPLE: u8 = 0;

/// It may have no more.
pub const AT_MOST: u8 = 1;

/// Memory for more was refused.
pub const REFUSED: u8 = 2;

/// How a heap grows, and what else it is made with: `Growth` in the library.
#[repr(C)]
#[derive(Clone, Copy)]
pub struct RheapGrowth {
    /// The words with which a space begins, and below which it never has fewer.
    pub at_least: u32,
    /// The words above which a space never has more.
    pub at_most: u32,
    /// The words that a space gets after a flip, in percent of those that it left used.
    pub factor: u32,
    /// The most words that an object of the program has: its fields and 2.
    pub biggest: u32,
    /// The units of collector work for each allocated word.
    pub ratio: u32,
    /// The owners.
    pub owners: u32,
    /// The slots of each owner.
    pub slots: u32,
}

impl RheapGrowth {
    /// The same as the library has it.
    pub(crate) fn growth(&self) -> Growth
        ensures { result ≡ growth_of self.now }
    {
        Growth {
            at_least: self.at_least,
            at_most: self.at_most,
            factor: self.factor,
            biggest: self.biggest,
            ratio: self.ratio,
            owners: self.owners,
            slots: self.slots,
        }
    }
}

/// Why a heap has too few words, as it crosses.
pub(crate) fn short_told(short: Option<Short>) -> u8
    ensures { result ≡ short_code short }
{
    match short {
        None => AMPLE,
        Some(Short::AtMost) => AT_MOST,
        Some(Short::Memory) => REFUSED,
    }
}
