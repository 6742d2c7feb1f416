//! Why no heap of fixed sizes was opened.

ghost use Rattle.std.specs.Prelude.{◌≡◌};
ghost use Rattle.rheap_c.specs.Opened.{status_of_fault};

use crate::status::{BAD_SIZES, NO_MEMORY, NO_PACE};

/// Why no heap was opened.
#[derive(Clone, Copy, Debug, PartialEq, Eq)]
pub enum OpenFault {
    /// No pace keeps up at these sizes.
    NoPace,
    /// A size is out of its range.
    BadSizes,
    /// Memory was refused.
    NoMemory,
}

/// The status where no heap was opened.
pub(crate) fn fault_status(why: OpenFault) -> u8
    ensures { result ≡ status_of_fault why }
{
    match why {
        OpenFault::NoPace => NO_PACE,
        OpenFault::BadSizes => BAD_SIZES,
        OpenFault::NoMemory => NO_MEMORY,
    }
}
