//! What a shared heap starts with.

use crate::closing::shared_of;
use crate::expectations::{Row, expect_equal, expect_texts};
use rh_core::{Config, ConfigFault};
use rh_layout::Refusal;
use rh_shared::{CallError, CloseError, SharedConfig, SharedFault, Start, StartError};

/// Two owners with two slots each.
pub const SMALL: Config = Config {
    words: 64,
    ratio: 8,
    owners: 2,
    slots: 2,
    log_limit: 8,
    last_number: 1 << 62,
    last_epoch: 1 << 62,
};

/// A cycle begins with the first call, and all is dealt at once.
pub const EAGER: SharedConfig = SharedConfig {
    replicators: 0,
    copies: 1,
    most: 16,
    mark: 64,
    history: 8,
    patience: 0,
    idle: 0,
};

/// Two replicators that get pieces of one item in turn.
pub const GATE: SharedConfig = SharedConfig {
    replicators: 2,
    most: 1,
    history: 16,
    ..EAGER
};

/// Configurations with the fault that is told. The first four each have one fault more than the one
/// after it; the fifth and the others have one.
const FAULTY: &[(Config, SharedConfig, StartError)] = &[
    (
        Config { words: 7, ..SMALL },
        SharedConfig {
            replicators: 9,
            copies: 0,
            most: 65,
            history: 0,
            ..EAGER
        },
        StartError::Config(ConfigFault::BadSpace),
    ),
    (
        SMALL,
        SharedConfig {
            replicators: 9,
            copies: 0,
            most: 65,
            history: 0,
            ..EAGER
        },
        StartError::Shared(SharedFault::BadReplicators),
    ),
    (
        SMALL,
        SharedConfig {
            copies: 2,
            most: 65,
            history: 0,
            ..EAGER
        },
        StartError::Shared(SharedFault::BadCopies),
    ),
    (
        SMALL,
        SharedConfig {
            most: 65,
            history: 0,
            ..EAGER
        },
        StartError::Shared(SharedFault::BadMost),
    ),
    (
        SMALL,
        SharedConfig {
            history: 0,
            ..EAGER
        },
        StartError::Shared(SharedFault::BadHistory),
    ),
    (
        SMALL,
        SharedConfig { copies: 0, ..EAGER },
        StartError::Shared(SharedFault::BadCopies),
    ),
    (
        SMALL,
        SharedConfig {
            replicators: 2,
            copies: 3,
            ..EAGER
        },
        StartError::Shared(SharedFault::BadCopies),
    ),
    (
        SMALL,
        SharedConfig { most: 0, ..EAGER },
        StartError::Shared(SharedFault::BadMost),
    ),
    (
        SMALL,
        SharedConfig {
            history: 1_048_577,
            ..EAGER
        },
        StartError::Shared(SharedFault::BadHistory),
    ),
];

#[test]
fn the_first_fault_is_told(rt: HostRuntime) {
    for (row, &(config, shared, fault)) in FAULTY.iter().enumerate() {
        let rt = Row { rt: &rt, row };
        let refused = Start::new(rt.alloc(), config, shared).err();
        expect_equal(&rt, refused, Some(fault));
    }
}

/// The greatest sizes, of a heap and of what is shared.
const WIDEST: Config = Config {
    words: 16_777_216,
    ratio: 64,
    owners: 16,
    slots: 256,
    log_limit: 1_048_576,
    ..SMALL
};

const GREATEST: SharedConfig = SharedConfig {
    replicators: 8,
    copies: 8,
    most: 64,
    mark: u32::MAX,
    history: 1_048_576,
    patience: u32::MAX,
    idle: u32::MAX,
};

#[test]
fn the_greatest_sizes_start(rt: HostRuntime) {
    let (_shared, mutators) = shared_of(&rt, WIDEST, GREATEST);
    expect_equal(&rt, mutators.len(), 16);
}

/// The texts of the errors.
const START_TEXTS: &[(StartError, &str)] = &[
    (StartError::Config(ConfigFault::BadLog), "BadLog"),
    (
        StartError::Shared(SharedFault::BadReplicators),
        "BadReplicators",
    ),
    (StartError::Shared(SharedFault::BadCopies), "BadCopies"),
    (StartError::Shared(SharedFault::BadMost), "BadMost"),
    (StartError::Shared(SharedFault::BadHistory), "BadHistory"),
    (StartError::OutOfMemory, "out of memory"),
];

const CALL_TEXTS: &[(CallError, &str)] = &[
    (CallError::TraceFull, "TraceFull"),
    (CallError::Heap(Refusal::NoRoot), "NoRoot"),
];

const CLOSE_TEXTS: &[(CloseError, &str)] = &[
    (CloseError::SharesMissing, "SharesMissing"),
    (
        CloseError::HistoryDiffers { owner: 2, at: 4 },
        "HistoryDiffers owner 2 at 4",
    ),
];

#[test]
fn each_error_has_its_text(rt: HostRuntime) {
    expect_texts(&rt, START_TEXTS);
    expect_texts(&rt, CALL_TEXTS);
    expect_texts(&rt, CLOSE_TEXTS);
}
