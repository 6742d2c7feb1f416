//! The heap that collects by itself.

mod calls;
mod collections;
mod making;
mod mutators;
mod paces;
mod sizes;
mod storing;
mod watching;
