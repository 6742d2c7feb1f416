//! The texts of the layers' errors.

use crate::expectations::{expect_text, expect_texts};
use rh_layout::Refusal;
use rh_log::{LogError, NumbersSpent, PushError};
use rh_model::{CommandError, PlainError};
use rh_partial::{PieceFull, Reason};
use rh_roots::RootsError;
use rh_space::{SpaceError, SpaceFull};
use rh_work::{BadRatio, CreditShort};

const ROOTS: &[(RootsError, &str)] = &[
    (RootsError::BadRoots, "BadRoots"),
    (RootsError::OutOfMemory, "out of memory"),
];

const SPACES: &[(SpaceError, &str)] = &[
    (SpaceError::BadSpace, "BadSpace"),
    (SpaceError::OutOfMemory, "out of memory"),
];

const LOGS: &[(LogError, &str)] = &[
    (LogError::BadLog, "BadLog"),
    (LogError::BadNumbers, "BadNumbers"),
    (LogError::OutOfMemory, "out of memory"),
];

const STORES: &[(PushError, &str)] = &[
    (PushError::LogFull, "LogFull"),
    (PushError::NumbersSpent, "NumbersSpent"),
];

const PIECES: &[(Reason, &str)] = &[
    (Reason::OtherEpoch, "the piece is of another epoch"),
    (Reason::OutOfMemory, "out of memory"),
];

const PLAIN_HEAPS: &[(PlainError, &str)] = &[
    (PlainError::BadRoots, "BadRoots"),
    (PlainError::OutOfMemory, "out of memory"),
];

const PLAIN_COMMANDS: &[(CommandError, &str)] = &[
    (CommandError::Refused(Refusal::NoRoot), "NoRoot"),
    (CommandError::OutOfMemory, "out of memory"),
];

#[test]
fn texts_of_errors(rt: HostRuntime) {
    expect_texts(&rt, ROOTS);
    expect_texts(&rt, SPACES);
    expect_text(
        &rt,
        SpaceFull { need: 10, free: 9 },
        "SpaceFull need 10 free 9",
    );
    expect_texts(&rt, LOGS);
    expect_texts(&rt, STORES);
    expect_text(&rt, NumbersSpent, "NumbersSpent");
    expect_text(&rt, BadRatio, "BadRatio");
    expect_text(
        &rt,
        CreditShort { need: 6, free: 5 },
        "CreditShort need 6 free 5",
    );
    expect_text(&rt, PieceFull, "the piece is full");
    expect_texts(&rt, PIECES);
    expect_texts(&rt, PLAIN_HEAPS);
    expect_texts(&rt, PLAIN_COMMANDS);
}
