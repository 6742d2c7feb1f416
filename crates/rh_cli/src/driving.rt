//! Runs the subcommand that was asked for, from its input to its output and its messages.

ghost use Rattle.std.specs.Prelude.{◌≡◌, ◌≢◌, ◌⊎◌, List, ℕ, IfSome, IfErr};
ghost use Rattle.std.specs.Io.KnownBytes.{Consumes, IsAtEnd, Keeps};
ghost use Rattle.rh_cli.specs.Drive.{Concludes};
ghost use Rattle.rh_commands.specs.Fault.{status_of, status_after, IsLateFault, IsLateStatus};
ghost use Rattle.rh_command_line.specs.declared.ask.Subcommand.TheVariants.{LispSession, Replay};
ghost use Rattle.rh_choices.specs.declared.limits.Limits.{Limits as LimitsOf};

use crate::lisp::run_program;
use crate::lisp_session::play_entries;
use crate::prompting::Alone;
use rh_command_line::{Ask, Subcommand};
use rh_commands::laws::runs::a_run_concludes_as_its_input_says;
use rh_commands::{
    Ending, LineFault, converse, count, draw, play_shared, print_completions, print_graph,
    print_path, print_snapshot, replay, run, tell,
};
use rh_paced_trace::{Growing, Paced};
use rh_shared_trace::RunOptions;
use rh_trace::Fixed;
use std::alloc::Allocator;
use std::io::{Read, Write};
use std::sync::Wait;
use std::thread::Threads;

/// Does what is asked with the file's bytes, which `reader` gives: answers and reports go to `out`,
/// which is flushed at the end, and one line on failure to `err`. Answers the status that the
/// program ends with: 0 where it is done, 4 for a wrong history or, of `threads`, one that differs,
/// 3 where memory or a thread was refused, and else 1. It waits for the threads of `threads`. A
/// session has no prompt, and no file for a picture. A program that stops is told without its place:
/// `drive_lisp` has it. It has no views: `drive_viewed` has.
pub fn drive<T, A, R, O, E>(
    rt: &T,
    alloc: A,
    ask: &Ask<'_>,
    reader: &mut R,
    out: &mut O,
    err: &mut E,
) -> u8
where
    T: Threads + Wait + Sync,
    A: Allocator + Copy + Send,
    R: Read,
    O: Write,
    E: Write,
    // For a reader that tells its bytes: by what is due for the bytes that it had.
    ensures told { IfSome (R.remaining reader.old) (λ input.
        Concludes ask.now.subcommand input result (O.contents out.old) (O.contents out.new)) }
    // Of the bytes that were taken; which these are is known of a reader that tells its bytes.
    ensures read { (input : List ℕ)
        × Consumes (R.remaining reader.old) (R.remaining reader.new) input
        × Concludes ask.now.subcommand input result (O.contents out.old) (O.contents out.new) }
    // Where it is done, and where a history that was read is wrong, nothing is told of a fault.
    ensures quiet { (result ≡ 0) ⊎ ((result ≡ 4) × (ask.now.subcommand ≡ Replay))
        → Keeps (E.contents err.old) (E.contents err.new) }
    // A session of the small Scheme that came to its end has read all.
    ensures ended { (limits : LimitsOf) → ask.now.subcommand ≡ LispSession limits → result ≡ 0
        → IsAtEnd (R.remaining reader.new) }
    // The command line was understood, so that no status says otherwise.
    ensures late { IsLateStatus result }
{
    match act(rt, alloc, ask.subcommand, reader, out) {
        Ok(ending) => ending.status(),
        Err(fault) => tell(&fault, err),
    }
}

/// Does what a subcommand asks.
pub(crate) fn act<T, A, R, O>(
    rt: &T,
    alloc: A,
    subcommand: Subcommand,
    reader: &mut R,
    out: &mut O,
) -> Result<Ending, LineFault>
where
    T: Threads + Wait + Sync,
    A: Allocator + Copy + Send,
    R: Read,
    O: Write,
    ensures told { IfSome (R.remaining reader.old) (λ input. Concludes subcommand input
        (status_after result) (O.contents out.old) (O.contents out.new)) }
    ensures read { (input : List ℕ)
        × Consumes (R.remaining reader.old) (R.remaining reader.new) input
        × Concludes subcommand input (status_after result) (O.contents out.old)
        (O.contents out.new) }
    ensures ended { (limits : LimitsOf) → subcommand ≡ LispSession limits
        → status_after result ≡ 0 → IsAtEnd (R.remaining reader.new) }
    ensures late { IfErr result (λ fault. IsLateFault fault) }
    // A check of a history ends with another fault than that a history differs.
    ensures check { subcommand ≡ Replay → IfErr result (λ fault. status_of fault ≢ 4) }
{
    // The law from which the clauses on runs follow.
    a_run_concludes_as_its_input_says();
    match subcommand {
        Subcommand::Run => run(alloc, &Fixed, reader, out),
        Subcommand::RunPaced { mark } => run(alloc, &Paced { mark }, reader, out),
        Subcommand::RunGrowing { at_most } => run(alloc, &Growing { at_most }, reader, out),
        Subcommand::Threads { replicators, idle } => {
            let options = RunOptions { replicators, idle };
            play_shared(rt, alloc, reader, out, options)
        }
        Subcommand::Replay => replay(alloc, reader, out),
        Subcommand::Dump => count(alloc, reader, out),
        Subcommand::Dot => print_graph(alloc, reader, out),
        Subcommand::Snapshot => print_snapshot(alloc, reader, out),
        Subcommand::Why { object } => print_path(alloc, reader, out, object),
        Subcommand::Draw { line } => draw(alloc, reader, out, line),
        Subcommand::Session => converse(alloc, reader, out, &mut Alone),
        Subcommand::Lisp { limits } => run_program(alloc, reader, out, limits),
        Subcommand::LispSession { limits } => {
            play_entries(alloc, reader, out, limits, &mut Alone)
        }
        Subcommand::Completions { shell } => print_completions(shell, out),
    }
}
