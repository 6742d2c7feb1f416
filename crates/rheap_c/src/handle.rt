//! The handle by which a program in C keeps a heap.

use crate::fixed_part::FixedPart;
use crate::growing_part::GrowingPart;

/// A heap as a program in C keeps it: one of fixed sizes in the first part, or one that grows in
/// the second. To C it is a struct of two pointers, which the program makes null before the first
/// call and leaves alone from then on. A call that opens a heap does so only where both are null.
#[repr(C)]
pub struct Rheap {
    pub(crate) fixed: FixedPart,
    pub(crate) growing: GrowingPart,
}
