//! A trace, and a trace read from its text.

ghost use Rattle.std.specs.Prelude.{◌≡◌, ◌<◌, ◌==◌, length, map, slice_get, IfOk, Ok, Some};
ghost use Rattle.rh_text.specs.RawLine.{lines_of};
ghost use Rattle.rh_syntax.specs.Line.{line_of};
ghost use Rattle.rh_syntax.specs.Reading.{Gives, requests_from, script_or_fault, trace_of};
ghost use Rattle.rh_syntax.specs.Spelling.{Script, IsScript, spelling};

use crate::fault::{Kind, ParseError, TraceFault};
use crate::line::{Header, Line};
use crate::lines::leading::leading_command_line;
use crate::reading::{header_or_fault, request_or_fault};
use crate::request::Request;
use rh_layout::limits::MAX_LINES;
use rh_text::first_line;
use std::alloc::{Allocator, Global};
use std::marker::Model;

/// A trace: the numbers of its first line, and the requests of the lines after it, at most
/// 1,048,575.
#[derive(Drop)]
pub struct Trace<A: Allocator = Global> {
    header: Header,
    requests: Vec<Request, A>,
}

impl<A: Allocator> Model for Trace<A> {
    ghost use Rattle.rh_syntax.specs.Spelling.{Script, IsScript};

    ghost Value = { Script };

    ghost view = { λ t. record { header = t.header; requests = t.requests.items } };

    ghost invariant = { λ t. IsScript (record { header = t.header; requests = t.requests.items }) };
}

impl<A: Allocator> Trace<A> {
    /// The numbers of the first line.
    pub fn header(&self) -> Header
        ensures { result ≡ self.now.header }
    {
        self.header
    }

    /// How many lines stand after the first. Each trace fits its text: what it is spelled as is
    /// read as the same trace, by the law `what_is_spelled_is_read`.
    pub fn len(&self) -> usize
        ensures value { result ≡ length self.now.requests }
        ensures few { result < MAX_LINES }
        ensures fits { IsScript self.now }
    {
        self.requests.len()
    }

    /// No line stands after the first.
    pub fn is_empty(&self) -> bool
        ensures { result ≡ (length self.now.requests == 0) }
    {
        self.requests.is_empty()
    }

    /// The line `i`, counted from 0 after the first. Each line is of one request alone, by the law
    /// `each_line_is_of_one_request`.
    pub fn line(&self, i: usize) -> Line
        requires { i < length self.now.requests }
        ensures { slice_get (map line_of self.now.requests) i ≡ Some result }
    {
        Line::of(&self.requests[i])
    }

    /// The requests of the lines after the first, in order.
    pub fn requests(&self) -> &[Request]
        ensures { result.now ≡ self.now.requests }
    {
        &self.requests
    }
}

/// The requests of the lines after the first, whose numbers begin at 2.
fn later_requests<A: Allocator + Copy>(
    alloc: A,
    bytes: &[u8],
) -> Result<Vec<Request, A>, ParseError>
    ensures requests { Gives (λ v. v.items) result (requests_from 2 (lines_of bytes.now)) }
    ensures few { IfOk result (λ v. length v.items < MAX_LINES) }
{
    let mut requests = Vec::new(alloc);
    let mut number = 2;
    let mut rest = bytes;
    while !rest.is_empty() {
        let (request, after) = match leading_command_line(number, rest) {
            Some((owner, command, after)) => (Request::Command { owner, command }, after),
            None => {
                let (line, ended, after) = first_line(rest);
                (request_or_fault(number, line, ended)?, after)
            }
        };
        requests.push(request)?;
        number += 1;
        rest = after;
    }
    Ok(requests)
}

/// The trace that a text spells, or its first fault.
#[tactic(auto, unfolding(crate::specs::Reading::script_or_fault))]
fn trace_in<A: Allocator + Copy>(alloc: A, bytes: &[u8]) -> Result<Trace<A>, ParseError>
    ensures { Gives (λ t. t) result (trace_of bytes.now) }
{
    if bytes.is_empty() {
        let fault = TraceFault {
            line: 1,
            kind: Kind::Empty,
        };
        return Err(ParseError::Fault(fault));
    }
    let (line, ended, rest) = first_line(bytes);
    let header = header_or_fault(line, ended)?;
    let requests = later_requests(alloc, rest)?;
    Ok(Trace { header, requests })
}

/// Reads a trace from its text, whose bytes it takes whole.
///
/// # Errors
///
/// `Fault` where the text is no trace: it names the first faulty line and what is wrong with it.
/// `OutOfMemory` where the allocator refused memory for the lines.
pub fn parse<A: Allocator + Copy>(alloc: A, bytes: &[u8]) -> Result<Trace<A>, ParseError>
    // What is found is spelled so.
    ensures found { IfOk result (λ t. IsScript t × (bytes.now ≡ spelling t)) }
    // What is spelled so is read, unless memory runs out.
    ensures only { (t : Script) → IsScript t → bytes.now ≡ spelling t
        → Gives (λ x. x) result (Ok t) }
    // Which fault it is.
    ensures exact { Gives (λ t. t) result (trace_of bytes.now) }
{
    trace_in(alloc, bytes)
}
