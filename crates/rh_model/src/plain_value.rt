//! What a field or a root of the plain heap holds.

/// What a field or a root of the plain heap holds. An object's name is its position, since objects
/// never move.
#[derive(Clone, Copy, Debug, PartialEq, Eq)]
pub enum PlainValue {
    /// No object and no number: a field as allocated.
    Nil,
    /// A whole number.
    Int(i64),
    /// A reference to the object at this position in the list of objects, counted from 0.
    Object(usize),
}
