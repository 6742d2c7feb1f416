//! How an object of the plain heap is stored.

use crate::plain_value::PlainValue;
use std::alloc::{Allocator, Global};

/// An object of the plain heap.
#[derive(Drop)]
pub(crate) struct StoredObject<A: Allocator = Global> {
    /// Whether the object is raw.
    pub(crate) raw: bool,
    /// What its fields hold.
    pub(crate) fields: Vec<PlainValue, A>,
}
