//! A heap that threads share: one lock round the heap, the history of its calls and what its
//! increments of collector work keep.
#![tactic(auto)]

pub mod call_laws;
mod closing;
mod kept;
mod mutator;
mod shared_heap;
mod start;

pub use closing::{CloseError, NotClosed, close};
pub use kept::{CallError, Kept};
pub use mutator::Mutator;
pub use rh_collector::{
    Did, MAX_MOST, MAX_REPLICATORS, SharedConfig, SharedFault, laws, ring_laws, stage_laws,
};
pub use rh_replicator::{ReplicatorEnds, RingDone, Settled};
pub use shared_heap::SharedHeap;
pub use start::{Start, StartError};
