//! What a text begins with.

use crate::expectations::{Row, expect_equal};
use rh_layout::RootId;
use rh_text::{after_byte, after_bytes, leading_number, leading_root};

/// Texts, each with the number that is found where it begins, and what stands after that.
const NUMBERS: &[(&[u8], Option<(u32, &[u8])>)] = &[
    (b"12 x", Some((12, b" x"))),
    (b"0", Some((0, b""))),
    (b"01", Some((0, b"1"))),
    (b"12345678 ", Some((12_345_678, b" "))),
    // Those that ask for more than this reader does.
    (b"7", None),
    (b"123456789 ", None),
    (b"", None),
    (b"x", None),
];

#[test]
fn leading_numbers(rt: HostRuntime) {
    for (row, &(text, found)) in NUMBERS.iter().enumerate() {
        let rt = Row { rt: &rt, row };
        expect_equal(&rt, leading_number(text), found);
    }
}

/// Texts in which no root is found.
const NO_ROOTS: &[&[u8]] = &[b"1.x", b"1 0", b"1.", b"x.0 "];

#[test]
fn leading_roots(rt: HostRuntime) {
    let root = RootId { owner: 1, slot: 0 };
    expect_equal(&rt, leading_root(b"1.0 "), Some((root, b" ".as_slice())));
    for (row, &text) in NO_ROOTS.iter().enumerate() {
        let rt = Row { rt: &rt, row };
        expect_equal(&rt, leading_root(text), None);
    }
}

#[test]
fn leading_bytes(rt: HostRuntime) {
    expect_equal(&rt, after_byte(b'a', b"ab"), Some(b"b".as_slice()));
    expect_equal(&rt, after_byte(b'b', b"ab"), None);
    expect_equal(&rt, after_byte(b'a', b""), None);
    expect_equal(&rt, after_bytes(b"ab", b"abc"), Some(b"c".as_slice()));
    expect_equal(&rt, after_bytes(b"ab", b"ab"), Some(b"".as_slice()));
    expect_equal(&rt, after_bytes(b"ab", b"a"), None);
    expect_equal(&rt, after_bytes(b"ab", b"bb"), None);
}
