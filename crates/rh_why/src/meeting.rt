//! Finds the first reference to each object, in the order of the dump.

ghost use Rattle.std.specs.Prelude.{◌≡◌, length, IfOk, OnOk};
ghost use Rattle.rh_dump.specs.Graph.{objects_in, total};
ghost use Rattle.rh_why.specs.Path.{first_holders, with_fields, with_objects, with_roots, with_value};

use crate::holder::Holder;
use rh_dump::Graph;
use rh_layout::{RootId, Shape, Value};
use std::alloc::{AllocError, Allocator};

/// The holder of the first reference to each object of a graph, in the order of their numbers.
/// Objects are numbered as they are met, so that one pass finds all. It takes 24 bytes an object.
pub(crate) fn first_holders<A: Allocator + Copy>(
    alloc: A,
    graph: &Graph<A>,
) -> Result<Vec<Holder, A>, AllocError>
    ensures { IfOk result (λ holders. holders.items ≡ first_holders graph.now) }
{
    let mut holders = Vec::new(alloc);
    let (shapes, values) = graph.object_parts();
    meet_roots(&mut holders, graph.root_entries())?;
    meet_objects(&mut holders, shapes, values)?;
    Ok(holders)
}

/// Meets a value, which this holds: if it refers to the next object, this is its first holder.
fn meet<A: Allocator>(
    holders: &mut Vec<Holder, A>,
    holder: Holder,
    value: Value,
) -> Result<(), AllocError>
    ensures { OnOk result (holders.new.items ≡ with_value holders.old.items holder value) }
{
    let Value::Ref(to) = value else {
        return Ok(());
    };
    if to as usize == holders.len() {
        holders.push(holder)?;
    }
    Ok(())
}

/// Meets what roots hold.
fn meet_roots<A: Allocator>(
    holders: &mut Vec<Holder, A>,
    roots: &[(RootId, Value)],
) -> Result<(), AllocError>
    ensures { OnOk result (holders.new.items ≡ with_roots holders.old.items roots.now) }
{
    for root in roots {
        meet(holders, Holder::Root(root.0), root.1)?;
    }
    Ok(())
}

/// Meets what the fields of an object hold.
fn meet_fields<A: Allocator>(
    holders: &mut Vec<Holder, A>,
    object: usize,
    fields: &[Value],
) -> Result<(), AllocError>
    ensures { OnOk result (holders.new.items ≡ with_fields holders.old.items object 0 fields.now) }
{
    let mut field = 0;
    for value in fields {
        meet(holders, Holder::Field { object, field }, *value)?;
        field += 1;
    }
    Ok(())
}

/// Meets what the fields of objects hold, which stand one after the other.
fn meet_objects<A: Allocator>(
    holders: &mut Vec<Holder, A>,
    shapes: &[Shape],
    values: &[Value],
) -> Result<(), AllocError>
    requires { total shapes.now ≡ length values.now }
    ensures { OnOk result (holders.new.items
        ≡ with_objects holders.old.items 0 (objects_in shapes.now values.now)) }
{
    let mut rest = values;
    let mut object = 0;
    for shape in shapes {
        let (fields, others) = rest.split_at(shape.fields as usize);
        meet_fields(holders, object, fields)?;
        object += 1;
        rest = others;
    }
    Ok(())
}
