//! A fault as an object of JSON.

ghost use Rattle.std.specs.Prelude.{◌≡◌};
ghost use Rattle.rh_commands.specs.Fault.{status_of};

use crate::fault::LineFault;
use crate::telling::tell;
use rh_layout::OutOfMemory;
use rh_trace_views::fault_json;
use std::alloc::Allocator;
use std::fmt::Display;
use std::io::Write;

/// The line and the name of the kind of a fault that has a line.
fn place_of<A: Allocator + Copy>(
    alloc: A,
    fault: &LineFault,
) -> Result<Option<(u32, String<A>)>, OutOfMemory> {
    match fault {
        LineFault::Trace(fault) => place(alloc, fault.line, &fault.kind),
        LineFault::History(fault) => place(alloc, fault.line, &fault.kind),
        LineFault::Dump(fault) => place(alloc, fault.line, &fault.kind),
        _ => Ok(None),
    }
}

/// The line of a fault and the name of its kind.
fn place<A: Allocator + Copy, K: Display>(
    alloc: A,
    line: u32,
    kind: &K,
) -> Result<Option<(u32, String<A>)>, OutOfMemory> {
    let name = format!(in alloc; "{kind}")?;
    Ok(Some((line, name)))
}

/// The object of a fault: what its line says after the program's name, and its place.
fn object_of<A: Allocator + Copy>(alloc: A, fault: &LineFault) -> Result<Vec<u8, A>, OutOfMemory> {
    let text = format!(in alloc; "{fault}")?;
    let said = text.strip_prefix("rheap: ").unwrap_or(text.as_str());
    match place_of(alloc, fault)? {
        Some((line, kind)) => fault_json(alloc, said, Some((line, kind.as_str()))),
        None => fault_json(alloc, said, None),
    }
}

/// Writes a fault's object, and answers its status. Where memory for it is refused the fault's line
/// stands in its place. A fault that can't be told still has its status.
pub(crate) fn tell_object<A: Allocator + Copy, E: Write>(
    alloc: A,
    fault: &LineFault,
    err: &mut E,
) -> u8
    ensures { result ≡ status_of fault.now }
{
    match object_of(alloc, fault) {
        Ok(object) => {
            let _ = err.write_all(&object);
            fault.status()
        }
        Err(_) => tell(fault, err),
    }
}
