//! Which limits of its heap the lines of a trace may come to.

ghost use Rattle.std.specs.Prelude.{◌≡◌, ◌↔◌, ◌≤◌, IsTrue};
ghost use Rattle.rh_shared_trace.specs.Limiting.{limits_of, taken_by, taken_by_all, words_asked};

use crate::trace_limits::{Limit, TraceLimits};
use rh_layout::limits::MAX_FIELDS;
use rh_layout::{Command, size_of};
use rh_syntax::{Header, Request};

/// Which limits the lines may come to, all together, on a heap of the trace's sizes.
pub fn limits_of(header: Header, requests: &[Request]) -> TraceLimits
    ensures { result ≡ limits_of header requests.now }
{
    TraceLimits {
        space: !are_within(Limit::Space, header.words, requests),
        log: !are_within(Limit::Log, header.log, requests),
    }
}

/// Whether the lines take so much at most of what is limited, all together.
fn are_within(limit: Limit, most: u32, requests: &[Request]) -> bool
    ensures { IsTrue result ↔ (taken_by_all limit requests.now ≤ most) }
{
    let mut left = most;
    for request in requests {
        let taken = taken_by(limit, request);
        if taken > left {
            return false;
        }
        left -= taken;
    }
    true
}

/// How much of what is limited a line takes at most: the words of the object that it asks for; an
/// entry of the log where it stores.
fn taken_by(limit: Limit, request: &Request) -> u32
    ensures { result ≡ taken_by limit request.now }
{
    let Request::Command { ref command, .. } = *request else {
        return 0;
    };
    match limit {
        Limit::Space => words_asked(command),
        Limit::Log => u32::from(matches!(*command, Command::Store { .. })),
    }
}

/// The words of the object that a command asks for, and at most 4,097; 0 where it asks for none.
fn words_asked(command: &Command) -> u32
    ensures { result ≡ words_asked command.now }
{
    match command.made() {
        Some((_, shape)) => size_of(shape.fields.min(MAX_FIELDS)),
        None => 0,
    }
}
