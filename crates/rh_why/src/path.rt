//! A shortest path from a root to an object.

ghost use Rattle.std.specs.Prelude.{◌≡◌, length, slice_get, IfOk};
ghost use Rattle.rh_why.specs.Path.{path_of, steps_to};

use crate::holder::{Holder, Step};
use crate::meeting::first_holders;
use rh_dump::Graph;
use std::alloc::{AllocError, Allocator};

/// A shortest path from a root to the object of this number; empty if the graph hasn't that object.
/// It takes 24 bytes for each object of the graph, and 32 for each step of the path, in one pass of
/// the graph.
///
/// # Errors
///
/// `AllocError` where memory was refused.
pub fn path_to<A: Allocator + Copy>(
    alloc: A,
    graph: &Graph<A>,
    object: u32,
) -> Result<Vec<Step, A>, AllocError>
    ensures { IfOk result (λ path. path.items ≡ path_of graph.now object) }
{
    let holders = first_holders(alloc, graph)?;
    let mut path = steps_to(alloc, &holders, object as usize)?;
    path.reverse();
    Ok(path)
}

/// The first holder of an object, if there is the object.
fn holder_of(holders: &[Holder], object: usize) -> Option<Holder>
    ensures { result ≡ slice_get holders.now object }
{
    holders.get(object).copied()
}

/// The steps from an object up to a root. Each leads from an object of a lower number, so that there
/// are at most as many as objects.
fn steps_to<A: Allocator>(
    alloc: A,
    holders: &[Holder],
    object: usize,
) -> Result<Vec<Step, A>, AllocError>
    ensures { IfOk result (λ steps.
        steps.items ≡ steps_to (length holders.now) holders.now object) }
{
    let mut steps = Vec::new(alloc);
    let mut to = object;
    for _ in 0..holders.len() {
        let Some(holder) = holder_of(holders, to) else {
            return Ok(steps);
        };
        steps.push(Step { holder, to })?;
        match holder {
            Holder::Root(_) => return Ok(steps),
            Holder::Field { object, .. } => to = object,
        }
    }
    Ok(steps)
}
