//! The lines of a trace that can't be played on a shared heap.

ghost use Rattle.std.specs.Prelude.{◌≡◌, ◌<◌, length};
ghost use Rattle.rh_shared_trace.specs.Lines.{kind_of, line_fault};

use rh_layout::limits::MAX_LINES;
use rh_syntax::{Kind, Request, TraceFault};

/// The number of the line after the first.
const FIRST_COMMAND_LINE: u32 = 2;

/// The fault of the first request that is no command of one of so many owners, if one isn't.
pub fn line_fault(owners: u32, requests: &[Request]) -> Option<TraceFault>
    requires { length requests.now < MAX_LINES }
    ensures { result ≡ line_fault owners FIRST_COMMAND_LINE requests.now }
{
    let mut line = FIRST_COMMAND_LINE;
    for request in requests {
        if let Some(kind) = kind_of(owners, request) {
            return Some(TraceFault { line, kind });
        }
        line += 1;
    }
    None
}

/// What is wrong with a request, if it is no command of one of so many owners: `Word` where it is
/// no command, `Root` where its owner isn't there.
fn kind_of(owners: u32, request: &Request) -> Option<Kind>
    ensures { result ≡ kind_of owners request.now }
{
    match *request {
        Request::Command { owner, .. } => {
            if owner < owners {
                None
            } else {
                Some(Kind::Root)
            }
        }
        _ => Some(Kind::Word),
    }
}
