//! `shell`: a session, whose lines are answered as they are typed.

ghost use Rattle.std.specs.Prelude.{◌≡◌, List, ℕ, Err, IfSome, IfErr};
ghost use Rattle.std.specs.Io.KnownBytes.{Consumes};
ghost use Rattle.rh_commands.specs.Fault.{status_of, status_after, IsUsualFault};
ghost use Rattle.rh_shell.specs.Typing.{Ends};
ghost use Rattle.rh_commands.specs.Session.{ConcludesSession, session_status, session_told_as};

use crate::ending::Ending;
use crate::fault::LineFault;
use rh_shell::{Host, OutputLog, ShellFault, run_shell};
use rh_text::IoLog;
use std::alloc::Allocator;
use std::io::{Read, Write};

/// Answers the lines that the reader gives, and flushes each answer.
// It isn't inlined, so that a run of another command clears no memory for what is read here.
#[inline(never)]
pub fn converse<A: Allocator + Copy, R: Read, O: Write, H: Host>(
    alloc: A,
    reader: &mut R,
    out: &mut O,
    host: &mut H,
) -> Result<Ending, LineFault>
    ensures told { IfSome (R.remaining reader.old) (λ input. ConcludesSession input
        (status_after result) (O.contents out.old) (O.contents out.new)) }
    ensures read { (input : List ℕ)
        × Consumes (R.remaining reader.old) (R.remaining reader.new) input
        × ConcludesSession input (status_after result) (O.contents out.old)
        (O.contents out.new) }
    ensures late { IfErr result (λ fault. IsUsualFault fault) }
    // Where a read failed, all ended lines of what was read are answered, and nothing else.
    ensures unread { result ≡ Err LineFault.Read → Ends (Err ShellFault.Read)
        (R.remaining reader.old) (R.remaining reader.new) (O.contents out.old)
        (O.contents out.new) }
{
    let mut reads = IoLog::new();
    let mut log = OutputLog::new();
    match run_shell(alloc, reader, &mut reads, out, &mut log, host) {
        Ok(_) => Ok(Ending::Done),
        Err(fault) => Err(fault_of_session(fault)),
    }
}

/// The fault that a session's is.
fn fault_of_session(fault: ShellFault) -> LineFault
    ensures status { status_of result ≡ session_status fault }
    ensures late { IsUsualFault result }
    // It is told as what it is.
    ensures told { result ≡ session_told_as fault }
{
    match fault {
        ShellFault::Read => LineFault::Read,
        ShellFault::Write => LineFault::Write,
        ShellFault::OutOfMemory => LineFault::OutOfMemory,
    }
}
