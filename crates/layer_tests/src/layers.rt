//! The layers of a heap, one by one.

mod errors;
mod joins;
mod layout;
mod log;
mod making;
mod partial_replicas;
mod place;
mod roots;
mod space;
mod work;
