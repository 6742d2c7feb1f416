//! How many references there are.

ghost use Rattle.std.specs.Prelude.{◌≡◌, ◌^◌, ◌<◌, length};
ghost use Rattle.std.specs.List.{filter};
ghost use Rattle.rh_layout.specs.Value.{is_reference};
ghost use Rattle.rh_snapshot.specs.Snapshot.{holds_reference};

use rh_layout::{RootId, Value};

/// How many of these values are references.
pub fn count_references(values: &[Value]) -> usize
    ensures count { result ≡ length (filter is_reference values.now) }
    ensures few { result < 2 ^ 63 }
{
    let mut references = 0;
    for value in values {
        if value.is_reference() {
            references += 1;
        }
    }
    references
}

/// How many of these roots hold a reference.
pub fn count_root_references(roots: &[(RootId, Value)]) -> usize
    ensures count { result ≡ length (filter holds_reference roots.now) }
    ensures few { result < 2 ^ 63 }
{
    let mut references = 0;
    for root in roots {
        if root.1.is_reference() {
            references += 1;
        }
    }
    references
}
