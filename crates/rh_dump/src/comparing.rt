//! Whether two graphs have equal dump texts.

ghost use Rattle.std.specs.Prelude.{◌≡◌, ◌↔◌, IsTrue};
ghost use Rattle.rh_dump.specs.texts.Line.{dump_text};

use crate::dump_graph::Graph;
use rh_layout::{RootId, Shape, Value};
use std::alloc::Allocator;

/// The roots and what they hold are equal, one by one.
fn same_roots(a: &[(RootId, Value)], b: &[(RootId, Value)]) -> bool
    ensures { IsTrue result ↔ (a.now ≡ b.now) }
{
    a == b
}

/// The shapes are equal, one by one.
fn same_shapes(a: &[Shape], b: &[Shape]) -> bool
    ensures { IsTrue result ↔ (a.now ≡ b.now) }
{
    a == b
}

/// The values are equal, one by one.
fn same_values(a: &[Value], b: &[Value]) -> bool
    ensures { IsTrue result ↔ (a.now ≡ b.now) }
{
    a == b
}

/// Whether two graphs have equal dump texts, which is whether they have the same roots and objects.
/// It writes no text and takes no memory.
pub fn same_text<A: Allocator, B: Allocator>(a: &Graph<A>, b: &Graph<B>) -> bool
    ensures { IsTrue result ↔ (dump_text a.now ≡ dump_text b.now) }
{
    if !same_roots(&a.roots, &b.roots) {
        return false;
    }
    if !same_shapes(&a.shapes, &b.shapes) {
        return false;
    }
    same_values(&a.values, &b.values)
}
