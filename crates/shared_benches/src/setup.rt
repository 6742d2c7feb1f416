//! The heaps on which benches make calls.

use crate::commands::SLOTS;
use rh_core::Config;
use rh_shared::SharedConfig;

/// The words of a space.
pub const WORDS: u32 = 65_536;

/// A heap of so many owners.
pub fn config_of(owners: u32) -> Config {
    Config {
        words: WORDS,
        ratio: 16,
        owners,
        slots: SLOTS,
        log_limit: 65_536,
        last_number: 1 << 62,
        last_epoch: 1 << 62,
    }
}

/// A shared heap without replicators, with room for so many calls: a cycle begins where half of the
/// space is left, and a piece has up to 64 items.
pub fn without_replicators(history: u32) -> SharedConfig {
    SharedConfig {
        replicators: 0,
        copies: 1,
        most: 64,
        mark: WORDS / 2,
        history,
        patience: 0,
        idle: 0,
    }
}
