//! The calls as a program in C makes them: on a heap of fixed sizes, or on one that grows.
//!
//! A root comes in one register. In the calls on one root or one field (objects, fields, reading,
//! insisting) the function that a branch calls takes it as one word, as `RootWord::of(root)`. As an
//! owner and a slot it would be taken apart before the branch, and a call that is done in a few
//! instructions would pay for that.

pub mod collecting;
pub mod fields;
pub mod insisting;
pub mod making;
pub mod numbers;
pub mod objects;
pub mod opening;
pub mod reading;
pub mod resizing;
pub mod root_rows;
pub mod several;
pub mod shared;
pub mod texts;
pub mod value_rows;
pub mod views;
pub mod watching;
