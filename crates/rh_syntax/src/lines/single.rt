//! Single lines without their line ends: a command line read and written, and an answer written.

ghost use Rattle.std.specs.Prelude.{◌≡◌, ℕ, false, IfOk, OnOk, OnErr, Ok};
ghost use Rattle.std.specs.Io.KnownBytes.{Appends};
ghost use Rattle.rh_layout.specs.declared.command.Command.{Command as CommandOf};
ghost use Rattle.rh_text.specs.IoLog.{AreSpent, CountsDown};
ghost use Rattle.rh_text.specs.Output.{AppendsLess};
ghost use Rattle.rh_syntax.specs.CommandAnswers.{answer_text};
ghost use Rattle.rh_syntax.specs.Reading.{single_command};
ghost use Rattle.rh_syntax.specs.Spelling.{command_text, CommandFits};

use crate::command_answers::put_answer_text;
use crate::fault::Kind;
use crate::lines::commands::{owned_command, put_command_text};
use rh_layout::limits::MAX_CALLS;
use rh_layout::{Command, Refusal, Reply};
use rh_text::{IoLog, LineText, Write, is_formed, send};
use std::io;

/// The owner and the command of a single line, by its form and its parts.
#[tactic(auto, unfolding(crate::specs::Reading::single_command))]
fn single_command(line: &[u8]) -> Result<(u32, Command), Kind>
    ensures { result ≡ single_command line.now }
{
    if !is_formed(line) {
        return Err(Kind::Form);
    }
    owned_command(Some(line))
}

/// Reads a single command line, given without its line end: whose command it is, and which. It has
/// no line number, and may have any number of bytes.
///
/// # Errors
///
/// The first of these that holds: `Form` for a byte outside 32 to 126 or an empty part; `Form` for
/// an owner alone; `Word` where no owner begins the line, or no command has the keyword; `Form` for
/// a wrong number of parts; from left to right, `Number` or `Root` for a part that should be one.
pub fn command_of(line: &[u8]) -> Result<(u32, Command), Kind>
    // What is found is spelled so.
    ensures found { IfOk result (λ owned. CommandFits owned.0 owned.1
        × (line.now ≡ command_text owned.0 owned.1)) }
    // What is spelled so is read.
    ensures only { (owner : ℕ) (command : CommandOf) → CommandFits owner command
        → line.now ≡ command_text owner command → result ≡ Ok (owner, command) }
    // Which fault it is.
    ensures exact { result ≡ single_command line.now }
{
    single_command(line)
}

/// Writes an owner's command as a single line, without its line end. It takes no memory.
///
/// # Errors
///
/// `Write` where a write failed, or 33,554,432 writes didn't come to the end
/// (`write_command_logged` says that it comes nowhere else). A prefix of the text was written then.
pub fn write_command<W: io::Write>(
    owner: u32,
    command: &Command,
    writer: &mut W,
) -> Result<(), Write>
    ensures ok { OnOk result (Appends (W.contents writer.old) (W.contents writer.new)
        (command_text owner command.now)) }
    ensures err { OnErr result (AppendsLess (W.contents writer.old) (W.contents writer.new)
        (command_text owner command.now)) }
{
    write_command_logged(owner, command, writer, &mut IoLog::new())
}

/// Writes a command as `write_command` does, and tells in `writes` whether a write failed.
///
/// # Errors
///
/// As `write_command`.
pub fn write_command_logged<W: io::Write>(
    owner: u32,
    command: &Command,
    writer: &mut W,
    writes: &mut IoLog,
) -> Result<(), Write>
    requires { writes.old.failed ≡ false }
    ensures ok { OnOk result (Appends (W.contents writer.old) (W.contents writer.new)
        (command_text owner command.now)) }
    ensures err { OnErr result (AppendsLess (W.contents writer.old) (W.contents writer.new)
        (command_text owner command.now)) }
    // It is refused only where a write failed or none was left, and no write failed where it isn't.
    ensures failed { OnErr result (AreSpent writes.new) }
    ensures none_failed { OnOk result (writes.new.failed ≡ false) }
    // Each write that was made took one of 33,554,432.
    ensures counted { CountsDown MAX_CALLS writes.old writes.new }
{
    let mut text = LineText::new();
    put_command_text(&mut text, owner, command);
    send(writer, writes, text.as_bytes())
}

/// Writes an answer as a single line, without its line end. It takes no memory.
///
/// # Errors
///
/// `Write` where a write failed, or 33,554,432 writes didn't come to the end (`write_answer_logged`
/// says that it comes nowhere else). A prefix of the text was written then.
pub fn write_answer<W: io::Write>(
    answer: &Result<Reply, Refusal>,
    writer: &mut W,
) -> Result<(), Write>
    ensures ok { OnOk result (Appends (W.contents writer.old) (W.contents writer.new)
        (answer_text answer.now)) }
    ensures err { OnErr result (AppendsLess (W.contents writer.old) (W.contents writer.new)
        (answer_text answer.now)) }
{
    write_answer_logged(answer, writer, &mut IoLog::new())
}

/// Writes an answer as `write_answer` does, and tells in `writes` whether a write failed.
///
/// # Errors
///
/// As `write_answer`.
pub fn write_answer_logged<W: io::Write>(
    answer: &Result<Reply, Refusal>,
    writer: &mut W,
    writes: &mut IoLog,
) -> Result<(), Write>
    requires { writes.old.failed ≡ false }
    ensures ok { OnOk result (Appends (W.contents writer.old) (W.contents writer.new)
        (answer_text answer.now)) }
    ensures err { OnErr result (AppendsLess (W.contents writer.old) (W.contents writer.new)
        (answer_text answer.now)) }
    // It is refused only where a write failed or none was left, and no write failed where it isn't.
    ensures failed { OnErr result (AreSpent writes.new) }
    ensures none_failed { OnOk result (writes.new.failed ≡ false) }
    // Each write that was made took one of 33,554,432.
    ensures counted { CountsDown MAX_CALLS writes.old writes.new }
{
    let mut text = LineText::new();
    put_answer_text(&mut text, *answer);
    send(writer, writes, text.as_bytes())
}
