//! Whether a history is of a trace.

ghost use Rattle.std.specs.Prelude.{◌≡◌, ◌↔◌, ◌<◌, [], ◌∷◌, Bool, List, IsTrue, IfSome, IfNone};
ghost use Rattle.rh_replay.specs.declared.call.Call.{Call as CallOf};
ghost use Rattle.rh_shared.specs.Shares.{calls_of};
ghost use Rattle.rh_shared_trace.specs.Matching.{AreCallsFor, AreOfTrace, HaveOwnersBelow, MayLeaveOut, lines_of, may_be_limited};

use crate::limiting::limits_of;
use crate::trace_limits::TraceLimits;
use rh_layout::Command;
use rh_replay::Call;
use rh_syntax::{Request, Trace};
use std::alloc::Allocator;

/// Whether the calls are of the trace's owners, and each owner's calls are of its lines, in order.
/// A line may be left out where a limit that the trace may come to may have refused it, and where
/// the history is full any line after the owner's last call.
pub fn are_of_trace<A: Allocator>(is_full: bool, trace: &Trace<A>, calls: &[Call]) -> bool
    ensures { IsTrue result ↔ AreOfTrace is_full trace.now calls.now }
{
    let header = trace.header();
    let owners = header.owners;
    let limits = limits_of(header, trace.requests());
    if !have_owners_below(owners, calls) {
        return false;
    }
    for owner in 0..owners {
        if !are_of_lines(limits, is_full, owner, trace.requests(), calls) {
            return false;
        }
    }
    true
}

/// Whether each call is of one of so many owners.
fn have_owners_below(owners: u32, calls: &[Call]) -> bool
    ensures { IsTrue result ↔ HaveOwnersBelow owners calls.now }
{
    for call in calls {
        if call.owner >= owners {
            return false;
        }
    }
    true
}

/// Whether the owner's calls are of its lines.
fn are_of_lines(
    limits: TraceLimits,
    is_full: bool,
    owner: u32,
    requests: &[Request],
    calls: &[Call],
) -> bool
    ensures { IsTrue result
        ↔ AreCallsFor limits is_full (lines_of owner requests.now) (calls_of owner calls.now) }
{
    let mut rest = requests;
    for call in calls {
        if call.owner == owner {
            match after_line(limits, owner, rest, &call.command) {
                Some(after) => rest = after,
                None => return false,
            }
        }
    }
    may_all_be_left_out(limits, is_full, owner, rest)
}

/// The requests after the owner's first line with this command, where the owner's lines before it
/// may be left out.
fn after_line<'a>(
    limits: TraceLimits,
    owner: u32,
    requests: &'a [Request],
    command: &Command,
) -> Option<&'a [Request]>
    ensures found { IfSome result (λ after. (full : Bool) (call : CallOf) (calls : List CallOf)
        → call.command ≡ command.now → AreCallsFor limits full (lines_of owner after.now) calls
        ↔ AreCallsFor limits full (lines_of owner requests.now) (call ∷ calls)) }
    ensures none { IfNone result ((full : Bool) (call : CallOf) (calls : List CallOf)
        → call.command ≡ command.now
        → ¬ AreCallsFor limits full (lines_of owner requests.now) (call ∷ calls)) }
{
    let mut rest = requests;
    while let Some((request, after)) = rest.split_first() {
        rest = after;
        if let Request::Command {
            owner: by,
            command: ref line,
        } = *request
        {
            if by == owner {
                if is_same_command(line, command) {
                    return Some(after);
                }
                if !may_leave_out(limits, false, line) {
                    return None;
                }
            }
        }
    }
    None
}

/// Whether all lines of the owner may be left out.
fn may_all_be_left_out(limits: TraceLimits, is_full: bool, owner: u32, requests: &[Request]) -> bool
    ensures { IsTrue result ↔ AreCallsFor limits is_full (lines_of owner requests.now) [] }
{
    for request in requests {
        if let Request::Command {
            owner: by,
            ref command,
        } = *request
        {
            if by == owner && !may_leave_out(limits, is_full, command) {
                return false;
            }
        }
    }
    true
}

/// Whether a line with this command may be left out after the owner's last call.
fn may_leave_out(limits: TraceLimits, is_full: bool, command: &Command) -> bool
    ensures { IsTrue result ↔ MayLeaveOut limits is_full command.now }
{
    is_full || may_be_limited(limits, command)
}

/// Whether a limit of the heap may refuse the command, of those that the trace may come to.
fn may_be_limited(limits: TraceLimits, command: &Command) -> bool
    ensures { result ≡ may_be_limited limits command.now }
{
    match *command {
        Command::Alloc { .. } | Command::Raw { .. } => limits.space,
        Command::Store { .. } => limits.log,
        Command::Load { .. } | Command::Copy { .. } | Command::Same { .. } | Command::Drop { .. } =>
            false,
    }
}

/// Whether two commands are one.
fn is_same_command(one: &Command, other: &Command) -> bool
    ensures { IsTrue result ↔ (one.now ≡ other.now) }
{
    *one == *other
}
