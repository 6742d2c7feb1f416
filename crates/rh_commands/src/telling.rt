//! Writes the message of a fault, and hands on the status that `fault.rt` gives it.

ghost use Rattle.std.specs.Prelude.{◌≡◌, ◌⊎◌};
ghost use Rattle.rh_commands.specs.Fault.{status_of, status_after};
ghost use Rattle.rh_commands.specs.declared.fault.LineFault.TheVariants as faults;

use crate::ending::Ending;
use crate::fault::LineFault;
use crate::fault_object::tell_object;
use rh_choices::Telling;
use rh_command_line::CommandLineFault;
use std::alloc::Allocator;
use std::io::{self, Write};

/// Tells a fault as it is to be told, and answers its status.
pub fn tell_as<A: Allocator + Copy, E: Write>(
    alloc: A,
    telling: Telling,
    fault: &LineFault,
    err: &mut E,
) -> u8
    ensures { result ≡ status_of fault.now }
{
    match telling {
        Telling::Json => tell_object(alloc, fault, err),
        _ => tell(fault, err),
    }
}

/// Tells the fault of what ended with one, and answers the status after it.
pub fn tell_ending<E: Write>(ended: Result<Ending, LineFault>, err: &mut E) -> u8
    ensures { result ≡ status_after ended }
{
    match ended {
        Ok(ending) => ending.status(),
        Err(fault) => tell(&fault, err),
    }
}

/// Writes a fault's text, and answers its status. A fault that can't be told still has its status.
pub fn tell<E: Write>(fault: &LineFault, err: &mut E) -> u8
    ensures { result ≡ status_of fault.now }
{
    let _ = write_text(fault, err);
    fault.status()
}

/// Writes the text of help or the version, and answers its status; where that fails, it is told as
/// a failed write.
pub fn show<O: Write, E: Write>(fault: &LineFault, out: &mut O, err: &mut E) -> u8
    ensures { (result ≡ status_of fault.now) ⊎ (result ≡ status_of faults.Write) }
{
    match write_text(fault, out) {
        Ok(()) => fault.status(),
        Err(_) => tell(&LineFault::Write, err),
    }
}

/// Writes a fault's text: one line, or clap's.
fn write_text<W: Write>(fault: &LineFault, writer: &mut W) -> io::Result<()> {
    match fault {
        LineFault::CommandLine(CommandLineFault::Arguments(error)) => write!(writer, "{error}"),
        _ => writeln!(writer, "{fault}"),
    }
}
