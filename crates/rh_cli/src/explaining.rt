//! Runs a subcommand under `--explain`: where its input fails, the faulty line is shown.

ghost use Rattle.std.specs.Prelude.{◌≡◌, ◌⊎◌, List, ℕ, IfSome};
ghost use Rattle.std.specs.Io.KnownBytes.{Consumes, IsAtEnd, Keeps};
ghost use Rattle.rh_choices.specs.declared.limits.Limits.{Limits as LimitsOf};
ghost use Rattle.rh_cli.specs.Drive.{Concludes};
ghost use Rattle.rh_command_line.specs.declared.ask.Subcommand.TheVariants.{LispSession, Replay};
ghost use Rattle.rh_commands.specs.Fault.{IsLateStatus};

use crate::driving::act;
use crate::keeping::KeptReader;
use rh_command_line::Ask;
use rh_commands::{explain, tell};
use std::alloc::Allocator;
use std::io::{Read, Write};
use std::sync::Wait;
use std::thread::Threads;

/// Does what is asked as `drive` does, and after the line of a fault writes to `err` where the file
/// has it: the line with its number, carets under the part that is wrong, and a sentence that says
/// what may stand there. Nothing more is written of a fault that is none of the file's, nor where
/// memory was refused for a copy of the file.
pub fn drive_explained<T, A, R, O, E>(
    rt: &T,
    alloc: A,
    ask: &Ask<'_>,
    reader: &mut KeptReader<R, A>,
    out: &mut O,
    err: &mut E,
) -> u8
where
    T: Threads + Wait + Sync,
    A: Allocator + Copy + Send,
    R: Read,
    O: Write,
    E: Write,
    // What is done and its status are those of `drive`.
    ensures told { IfSome (R.remaining reader.old.reader) (λ input.
        Concludes ask.now.subcommand input result (O.contents out.old) (O.contents out.new)) }
    ensures read { (input : List ℕ)
        × Consumes (R.remaining reader.old.reader) (R.remaining reader.new.reader) input
        × Concludes ask.now.subcommand input result (O.contents out.old) (O.contents out.new) }
    ensures quiet { (result ≡ 0) ⊎ ((result ≡ 4) × (ask.now.subcommand ≡ Replay))
        → Keeps (E.contents err.old) (E.contents err.new) }
    ensures ended { (limits : LimitsOf) → ask.now.subcommand ≡ LispSession limits → result ≡ 0
        → IsAtEnd (R.remaining reader.new.reader) }
    ensures late { IsLateStatus result }
{
    match act(rt, alloc, ask.subcommand, reader, out) {
        Ok(ending) => ending.status(),
        Err(fault) => {
            let status = tell(&fault, err);
            if let Some(text) = reader.kept() {
                explain(ask.subcommand, &fault, text, err);
            }
            status
        }
    }
}
