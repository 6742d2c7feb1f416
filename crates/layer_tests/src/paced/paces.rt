//! Paces, as the rule gives them.

use crate::expectations::{Row, expect_equal, expect_texts};
use rh_core::Config;
use rh_pace::{DEFAULT_PACE_RATIO, EpochsSpent, Pace, PaceError};

/// What is asked, words, live words, the biggest object's words and the ratio, and the mark and the
/// log limit that are told; the pace's store pays the ratio.
type PaceRow = ([u32; 4], Result<(u32, u32), PaceError>);

/// The least lag of 100 live words at ratio 8 is 61: 61 * 5 is 305.
const LEAST: &[PaceRow] = &[
    ([1_000, 100, 10, 3], Err(PaceError::RatioTooLow)),
    ([1_000, 100, 10, 4], Ok((325, 307))),
    ([1_000, 100, 10, 8], Ok((81, 63))),
    ([261, 100, 10, 8], Err(PaceError::TooSmall { need: 262 })),
    ([262, 100, 10, 8], Ok((81, 63))),
    ([16_777_216, 8_000_000, 4_097, 32], Ok((835_781, 827_589))),
    (
        [16_777_216, 1_000_000, 4_097, 4],
        Ok((3_008_199, 1_048_576)),
    ),
    (
        [2_217, 1_000, 4, 8],
        Err(PaceError::TooSmall { need: 2_218 }),
    ),
    ([2_218, 1_000, 4, 8], Ok((609, 603))),
    ([0, 0, 0, 4], Err(PaceError::TooSmall { need: 10 })),
    (
        [u32::MAX, u32::MAX, u32::MAX, 4],
        Err(PaceError::TooSmall {
            need: 47_244_640_255,
        }),
    ),
];

/// The live words that are asked for stand for nothing here.
const FILLING: &[PaceRow] = &[
    ([1_000, 0, 10, 3], Err(PaceError::RatioTooLow)),
    ([1_000, 0, 10, 8], Ok((283, 265))),
    ([100, 0, 10, 8], Ok((37, 19))),
    ([4_096, 0, 10, 32], Ok((368, 350))),
    ([16_777_216, 0, 4_097, 32], Ok((1_444_837, 1_048_576))),
    ([16_777_216, 0, 4_097, 4], Ok((7_191_407, 1_048_576))),
    ([54, 0, 10, 32], Err(PaceError::TooSmall { need: 55 })),
    ([55, 0, 10, 32], Ok((22, 4))),
];

/// The pace with this mark and log limit.
fn pace_of(told: (u32, u32), ratio: u32) -> Pace {
    Pace {
        mark: told.0,
        store_units: ratio,
        log_limit: told.1,
    }
}

#[test]
fn least_paces(rt: HostRuntime) {
    for (row, &([words, live, biggest, ratio], told)) in LEAST.iter().enumerate() {
        let rt = Row { rt: &rt, row };
        let pace = told.map(|told| pace_of(told, ratio));
        expect_equal(&rt, Pace::of(words, live, biggest, ratio), pace);
    }
}

#[test]
fn filling_paces(rt: HostRuntime) {
    for (row, &([words, _, biggest, ratio], told)) in FILLING.iter().enumerate() {
        let rt = Row { rt: &rt, row };
        let pace = told.map(|told| pace_of(told, ratio));
        expect_equal(&rt, Pace::filling(words, biggest, ratio), pace);
    }
}

#[test]
fn configurations(rt: HostRuntime) {
    let pace = Pace::filling(4_096, 10, DEFAULT_PACE_RATIO).expect(&rt, "a pace");
    let config = Config {
        words: 4_096,
        ratio: 32,
        owners: 3,
        slots: 4,
        log_limit: 350,
        last_number: 4_611_686_018_427_387_904,
        last_epoch: 4_611_686_018_427_387_904,
    };
    expect_equal(&rt, pace.config(4_096, DEFAULT_PACE_RATIO, 3, 4), config);
    expect_equal(&rt, config.fault(), None);
}

#[test]
fn texts_of_errors(rt: HostRuntime) {
    expect_texts(
        &rt,
        &[
            (PaceError::RatioTooLow, "RatioTooLow"),
            (PaceError::TooSmall { need: 262 }, "TooSmall need 262"),
        ],
    );
    expect_texts(&rt, &[(EpochsSpent, "EpochsSpent")]);
}
