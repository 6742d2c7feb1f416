//! The engine of traces: a heap and trays, what the lines of a cycle, of watches and of sizes do with
//! both, and the texts of their answers.
#![tactic(auto)]

mod cycle_answers;
mod engine;
pub mod laws;
mod trays;
mod watch_answers;

pub use cycle_answers::{
    put_abandon, put_begin, put_deal, put_flip, put_give, put_idle, put_join, put_recall,
    put_resize, put_shade, put_stat, put_tray,
};
pub use engine::{DealRefusal, Engine, GiveRefusal, ResizeRefusal, TicketsRefusal, TrayDeal};
pub use trays::{JoinRefusal, Trays};
pub use watch_answers::{gone_line, put_tickets, put_unwatch, put_watch};
