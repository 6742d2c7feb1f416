//! The names of trays.

use crate::expectations::{Row, expect_equal};
use rh_trace::tray_name_of;

/// What may be the name of a tray, and whether it is one.
const NAMES: &[(&[u8], bool)] = &[
    (b"t", true),
    (b"a_2z9", true),
    (b"abcdefghijklmnop", true),
    (b"abcdefghijklmnopq", false),
    (b"", false),
    (b"T", false),
    (b"1a", false),
    (b"_a", false),
    (b"a-b", false),
    (b"aB", false),
    (b"a.0", false),
    (b"a/", false),
    (b"a:", false),
    (b"a`", false),
    (b"a{", false),
    (b"`", false),
    (b"{", false),
];

#[test]
fn names(rt: HostRuntime) {
    for (row, &(part, is_name)) in NAMES.iter().enumerate() {
        let rt = Row { rt: &rt, row };
        expect_equal(&rt, tray_name_of(part).is_some(), is_name);
    }
}
