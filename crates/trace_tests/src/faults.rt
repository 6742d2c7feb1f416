//! What is told of faults.

use crate::expectations::{expect_text, expect_texts};
use rh_core::ConfigFault;
use rh_dump::{DumpFault, DumpKind, DumpReadError};
use rh_paced_trace::{PaceError, Unpaced};
use rh_replay::{HistoryError, HistoryFault, HistoryKind};
use rh_text::InputFault;
use rh_trace::{Kind, ParseError, RunFault, TraceFault, WayFault, Write, parse};

/// What is told of an input that can't be read, and of a run that ends early.
const INPUT_FAULTS: &[(InputFault, &str)] = &[
    (InputFault::Read, "read failed"),
    (InputFault::Long, "too long"),
    (InputFault::OutOfMemory, "out of memory"),
];

const RUN_FAULTS: &[(RunFault, &str)] = &[
    (RunFault::Read, "read failed"),
    (RunFault::Long, "too long"),
    (
        RunFault::Trace(TraceFault {
            line: 2,
            kind: Kind::Word,
        }),
        "line 2: Word",
    ),
    (RunFault::New(ConfigFault::BadLog), "heap: BadLog"),
    (RunFault::Write, "write failed"),
    (RunFault::OutOfMemory, "out of memory"),
];

const WAY_FAULTS: &[(WayFault<Unpaced>, &str)] = &[
    (WayFault::Read, "read failed"),
    (WayFault::Long, "too long"),
    (
        WayFault::Trace(TraceFault {
            line: 3,
            kind: Kind::Word,
        }),
        "line 3: Word",
    ),
    (WayFault::New(ConfigFault::BadLog), "heap: BadLog"),
    (
        WayFault::Way(Unpaced::Pace(PaceError::TooSmall { need: 29 })),
        "pace: TooSmall need 29",
    ),
    (WayFault::Way(Unpaced::Limits), "grow: BadLimits"),
    (WayFault::Write, "write failed"),
    (WayFault::OutOfMemory, "out of memory"),
];

#[test]
fn texts_of_faults(rt: HostRuntime) {
    let fault = TraceFault {
        line: 2,
        kind: Kind::Word,
    };
    let found = parse(rt.alloc(), b"heap 16 8 4 2 2\n1 fly 1.0\n").err();
    assert!(rt; matches!(found, Some(ParseError::Fault(found)) if found == fault));
    expect_text(&rt, ParseError::Fault(fault), "line 2: Word");
    expect_text(&rt, ParseError::OutOfMemory, "out of memory");
    expect_text(&rt, Write, "write failed");
    let fault = DumpFault {
        line: 4,
        kind: DumpKind::Count,
    };
    expect_text(&rt, DumpReadError::Fault(fault), "line 4: Count");
    expect_text(&rt, DumpReadError::Read, "read failed");
    expect_text(&rt, DumpReadError::OutOfMemory, "out of memory");
    expect_texts(&rt, INPUT_FAULTS);
    expect_texts(&rt, RUN_FAULTS);
    expect_texts(&rt, WAY_FAULTS);
    let fault = HistoryFault {
        line: 3,
        kind: HistoryKind::Trailing,
    };
    expect_text(&rt, HistoryError::Fault(fault), "line 3: Trailing");
    expect_text(&rt, HistoryError::OutOfMemory, "out of memory");
}
