//! The texts of errors.

use crate::expectations::expect_texts;
use rh_core::{DealError, GiveError};
use rh_replay::{RecorderError, TraceFull};
use rh_trace::{DealRefusal, GiveRefusal, JoinRefusal};

/// Why there is no recorder.
const RECORDERS: &[(RecorderError, &str)] = &[
    (RecorderError::BadRoots, "BadRoots"),
    (RecorderError::BadHistory, "BadHistory"),
    (RecorderError::OutOfMemory, "out of memory"),
];

/// Why nothing is dealt into a tray.
const DEALS: &[(DealRefusal, &str)] = &[
    (DealRefusal::TooManyTrays, "TooManyTrays"),
    (DealRefusal::OtherEpoch, "OtherEpoch"),
    (DealRefusal::Heap(DealError::NothingToDeal), "NothingToDeal"),
];

/// Why a tray isn't given.
const GIVES: &[(GiveRefusal, &str)] = &[
    (GiveRefusal::NoTray, "NoTray"),
    (GiveRefusal::Heap(GiveError::TooMany), "TooMany"),
];

/// Why no tray is joined into another.
const JOINS: &[(JoinRefusal, &str)] = &[
    (JoinRefusal::NoTray, "NoTray"),
    (JoinRefusal::TooManyTrays, "TooManyTrays"),
];

#[test]
fn texts_of_errors(rt: HostRuntime) {
    expect_texts(&rt, RECORDERS);
    expect_texts(&rt, &[(TraceFull, "TraceFull")]);
    expect_texts(&rt, DEALS);
    expect_texts(&rt, GIVES);
    expect_texts(&rt, JOINS);
}
