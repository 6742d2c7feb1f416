//! What holds a reference.

use rh_layout::RootId;

/// A root or a field that holds a reference.
#[derive(Clone, Copy)]
pub enum Holder {
    /// A root.
    Root(RootId),
    /// A field of an object.
    Field {
        /// The number of the object.
        object: usize,
        /// The number of the field.
        field: usize,
    },
}

/// A step of a path: a reference, from what holds it to an object.
#[derive(Clone, Copy)]
pub struct Step {
    /// What holds the reference.
    pub holder: Holder,
    /// The number of the object that it is to.
    pub to: usize,
}
