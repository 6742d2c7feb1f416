//! The calls on a heap that grows.

pub(crate) mod collecting;
pub(crate) mod fields;
pub(crate) mod insisting;
pub(crate) mod making;
pub(crate) mod numbers;
pub(crate) mod objects;
pub(crate) mod opening;
pub(crate) mod reading;
pub(crate) mod resizing;
pub(crate) mod root_rows;
pub(crate) mod several;
pub(crate) mod shared;
pub(crate) mod texts;
pub(crate) mod value_rows;
pub(crate) mod views;
pub(crate) mod watching;
