//! A heap that collects by itself, call by call, for programs in C, C++ and plain Rust, which link
//! this crate as a static library. `include/rheap.h` declares the calls.
//!
//! A program keeps a handle, a struct of two pointers: one is for a heap of fixed sizes, the other
//! for one that grows. A call looks at the first, so that a heap of fixed sizes pays nothing for the
//! other kind. It uses the heap where it is, or takes it out of the handle and puts it back. It is
//! the call of `PacedHeap` that its comment names, and on a heap that grows the call of
//! `GrowingHeap` with that name. Those that tell what a heap looks like are calls of `rh_heap_dump`,
//! `rh_draw` and `rh_cycles` on that heap. Its contract says of both which status it answers, what the handle
//! holds then, and what it tells.
#![tactic(auto)]

mod calls;
mod cycle_numbers;
mod fixed;
mod fixed_part;
mod growing;
mod growing_part;
mod growth;
mod handle;
mod init;
pub mod laws;
mod numbers;
mod open_fault;
mod parted;
mod root_word;
mod status;
mod value;
mod views;

pub use calls::collecting::{rheap_collect, rheap_increment};
pub use calls::fields::{
    rheap_load, rheap_load_untold, rheap_store_int, rheap_store_nil, rheap_store_root,
};
pub use calls::insisting::{
    rheap_insist_alloc, rheap_insist_alloc_raw, rheap_insist_store_int, rheap_insist_store_nil,
    rheap_insist_store_root,
};
pub use calls::making::{rheap_insist_make, rheap_insist_make_raw, rheap_make, rheap_make_raw};
pub use calls::numbers::{rheap_last_did, rheap_pace, rheap_room, rheap_short, rheap_stat};
pub use calls::objects::{rheap_alloc, rheap_alloc_raw, rheap_copy, rheap_drop, rheap_same};
pub use calls::opening::{
    rheap_close, rheap_open, rheap_open_growing, rheap_open_growth, rheap_open_sized,
};
pub use calls::reading::{rheap_field, rheap_fields, rheap_peek, rheap_root};
pub use calls::resizing::{rheap_resize, rheap_resize_sized};
pub use calls::root_rows::{
    rheap_drop_roots, rheap_insist_store_roots, rheap_load_path, rheap_load_roots,
    rheap_store_roots,
};
pub use calls::several::{rheap_insist_store_ints, rheap_load_ints, rheap_store_ints};
pub use calls::shared::{
    rheap_shared_alloc, rheap_shared_alloc_raw, rheap_shared_copy, rheap_shared_drop,
    rheap_shared_insist_alloc, rheap_shared_insist_alloc_raw, rheap_shared_insist_store_int,
    rheap_shared_insist_store_nil, rheap_shared_insist_store_root, rheap_shared_load,
    rheap_shared_load_untold, rheap_shared_peek, rheap_shared_store_int, rheap_shared_store_nil,
    rheap_shared_store_root,
};
pub use calls::texts::{rheap_insist_store_text, rheap_load_text, rheap_store_text};
pub use calls::value_rows::{rheap_insist_store_row, rheap_load_roots_untold, rheap_store_row};
pub use calls::views::{rheap_cycle, rheap_draw_into, rheap_dump_into, rheap_release};
pub use calls::watching::{rheap_next_gone, rheap_unwatch, rheap_watch, rheap_watch_room};
pub use cycle_numbers::{RheapCycleReader, RheapEndedCycle};
pub use growth::RheapGrowth;
pub use handle::Rheap;
pub use init::RheapInit;
pub use numbers::{RheapDid, RheapPacing, RheapStats, RheapWords};
pub use value::{RheapRoot, RheapValue};
