//! Checks of the lines of a trace: the first that is no command, and the biggest object.

ghost use Rattle.std.specs.Prelude.{◌≡◌, ◌<◌, length};
ghost use Rattle.rh_paced_trace.specs.Lines.{biggest_of, commands_in, other_fault, words_asked};

use rh_layout::limits::{MAX_FIELDS, MAX_LINES};
use rh_layout::{Command, size_of};
use rh_syntax::{Kind, Request, TraceFault};

/// The number of the line after the first.
const FIRST_COMMAND_LINE: u32 = 2;

/// The fault of the first request that is no command, if one isn't.
pub fn other_fault(requests: &[Request]) -> Option<TraceFault>
    requires { length requests.now < MAX_LINES }
    ensures { result ≡ other_fault FIRST_COMMAND_LINE requests.now }
{
    let mut line = FIRST_COMMAND_LINE;
    for request in requests {
        match request {
            Request::Command { .. } => line += 1,
            _ => {
                return Some(TraceFault {
                    line,
                    kind: Kind::Word,
                });
            }
        }
    }
    None
}

/// The words of the biggest object that the commands ask for, 2 to 4,097.
pub fn biggest_of(requests: &[Request]) -> u32
    ensures { result ≡ biggest_of (commands_in requests.now) }
{
    let mut biggest = size_of(0);
    for request in requests {
        if let Request::Command { command, .. } = request {
            biggest = biggest.max(words_asked(command));
        }
    }
    biggest
}

/// The words of the object that a command asks for, and at most 4,097; 0 where it asks for none.
fn words_asked(command: &Command) -> u32
    ensures { result ≡ words_asked command.now }
{
    match command.made() {
        Some((_, shape)) => size_of(shape.fields.min(MAX_FIELDS)),
        None => 0,
    }
}
