//! `completions`: the completions for a shell are printed.

ghost use Rattle.rh_commands.specs.Draw.{ConcludesSent};
ghost use Rattle.rh_commands.specs.Fault.{status_after, IsUsualFault};
ghost use Rattle.std.specs.Prelude.{IfErr};

use crate::counting::conclude;
use crate::ending::Ending;
use crate::fault::LineFault;
use rh_command_line::Shell;
use rh_command_line::completions::{BASH, FISH, ZSH};
use rh_text::{IoLog, send};
use std::io::Write;

/// The completions for a shell.
fn completions_of(shell: Shell) -> &'static str {
    match shell {
        Shell::Bash => BASH,
        Shell::Zsh => ZSH,
        Shell::Fish => FISH,
    }
}

/// Writes the completions for a shell, and flushes them. A failed flush is a failed write.
pub fn print_completions<O: Write>(shell: Shell, out: &mut O) -> Result<Ending, LineFault>
    ensures concluded { ConcludesSent (status_after result) (O.contents out.old)
        (O.contents out.new) }
    ensures late { IfErr result (λ fault. IsUsualFault fault) }
{
    let text = completions_of(shell);
    let sent = send(out, &mut IoLog::new(), text.as_bytes());
    let flushed = out.flush();
    conclude(sent, flushed.is_ok())
}
