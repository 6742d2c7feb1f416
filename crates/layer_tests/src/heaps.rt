//! The heap, and runs of events on it.

mod cycle;
mod drawing;
mod giving;
mod headline;
mod heap;
mod making;
mod random_pictures;
mod raw_objects;
mod resizing;
mod runs;
mod schedules;
mod watching;
