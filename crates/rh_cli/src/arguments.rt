//! The arguments of the program, read into what is asked.

ghost use Rattle.std.specs.Prelude.{◌≡◌, ◌≢◌, ◌⊎◌, [], map, option_map, Ok, IsTrue, IfOk, IfErr};
ghost use Rattle.rh_cli.specs.Arguments.{IsArgumentsFault, IsClapFault, IsDueFault};
ghost use Rattle.rh_command_line.specs.Ask.{command_and_file, command_and_file_of, error_kinds, explains_of, is_taken, out_of, viewed_of};
ghost use Rattle.rh_command_line.specs.declared.ask.Ask.{Ask};

use rh_command_line::{Ask, CommandLineError, read_command_line};
use rh_commands::LineFault;
use std::alloc::Global;

/// What the arguments ask for, as `read_command_line` says. The first one is the program's name.
/// Clap takes its memory from the global allocator.
///
/// # Errors
///
/// `CommandLine` with what is wrong with the arguments, or where they ask for help or the version;
/// `OutOfMemory` where memory was refused.
pub fn read_words<'a>(alloc: Global, arguments: &'a [&'a str]) -> Result<Ask<'a>, LineFault>
    // The request has the command and the file that clap's parse of the arguments holds.
    ensures asked { IfOk result (λ ask.
        command_and_file_of (map (λ a. a.now) arguments.now) ≡ Ok (command_and_file ask)) }
    // It asks for explanations exactly where that parse has the flag for them.
    ensures explained { IfOk result (λ ask.
        ask.explain ≡ explains_of (map (λ a. a.now) arguments.now)) }
    // The text goes to the file that it has for it.
    ensures written { IfOk result (λ ask.
        out_of (map (λ a. a.now) arguments.now) ≡ option_map (λ t. t.now) ask.out) }
    // What is done is viewed as that parse says.
    ensures viewed { IfOk result (λ ask.
        viewed_of (map (λ a. a.now) arguments.now) ≡ record {
          telling = ask.views.telling;
          cycles = option_map (λ t. t.now) ask.views.cycles;
          history = option_map (λ t. t.now) ask.views.history;
          events = ask.views.events;
        }) }
    // A request comes only where clap refuses nothing.
    ensures taken { IfOk result (λ ask. error_kinds (map (λ a. a.now) arguments.now) ≡ []) }
    // Arguments that clap takes, and that hold a request, are refused for want of memory alone.
    ensures refused { IfErr result (λ fault. IsTrue (is_taken (map (λ a. a.now) arguments.now))
        → (ask : Ask)
        → command_and_file_of (map (λ a. a.now) arguments.now) ≡ Ok (command_and_file ask)
        → fault ≡ LineFault.OutOfMemory) }
    // What clap takes and is refused is told as what its parse holds instead, or memory was
    // refused.
    ensures due { IfErr result (λ fault. IsTrue (is_taken (map (λ a. a.now) arguments.now))
        → (fault ≡ LineFault.OutOfMemory)
        ⊎ IsDueFault (command_and_file_of (map (λ a. a.now) arguments.now)) fault) }
    // What clap refuses is told as its own error, or memory was refused.
    ensures clap { IfErr result (λ fault. error_kinds (map (λ a. a.now) arguments.now) ≢ []
        → IsClapFault (error_kinds (map (λ a. a.now) arguments.now)) fault) }
    // Whatever is told is that, or what the parse holds in place of a request.
    ensures told { IfErr result (λ fault.
        IsClapFault (error_kinds (map (λ a. a.now) arguments.now)) fault
        ⊎ IsDueFault (command_and_file_of (map (λ a. a.now) arguments.now)) fault) }
    // No other fault comes.
    ensures kinds { IfErr result (λ fault. IsArgumentsFault fault) }
{
    match read_command_line(alloc, arguments) {
        Ok(ask) => Ok(ask),
        Err(CommandLineError::Fault(fault)) => Err(LineFault::CommandLine(fault)),
        Err(CommandLineError::OutOfMemory) => Err(LineFault::OutOfMemory),
    }
}
