//! The listener for `--echo` and `--json`: it writes each line with its answer.

ghost use Rattle.std.specs.Prelude.{◌≡◌, [], IsErrOf, false};
ghost use Rattle.rh_choices.specs.declared.telling.Telling.{Telling as TellingOf};
ghost use Rattle.rh_text.specs.IoLog.{AreSpent, AreSpentSince, MadeSince};
ghost use Rattle.rh_trace.specs.Lines.{Shows};
ghost use Rattle.rh_trace_views.specs.Listening.{told_line};
ghost use Rattle.rh_trace_views.specs.Views.{total_text, view_of};

use crate::answering::{put_answer, put_told};
use crate::viewing::{is_structured, put_end, put_view};
use rh_choices::Telling;
use rh_layout::{Refusal, Reply};
use rh_syntax::{Header, Request};
use rh_text::{IoLog, LineText, Write, send};
use rh_trace::{Answer, Listener, Player, Stop, Summary};
use std::alloc::Allocator;
use std::io;

/// Tells each line, and at the end what the run adds up to.
#[derive(Drop)]
pub struct Told<A: Allocator> {
    alloc: A,
    telling: Telling,
    /// A part of a line.
    part: LineText,
    /// What is told of a line's answer.
    told: Vec<u8, A>,
    /// What is put for a line.
    text: Vec<u8, A>,
}

impl<A: Allocator + Copy> Told<A> {
    /// Lines are told so. What is told of each is put together in memory of `alloc`, a dump too.
    pub fn new(alloc: A, telling: Telling) -> Self
        ensures { result.telling ≡ telling }
    {
        Told {
            alloc,
            telling,
            part: LineText::new(),
            told: Vec::new(alloc),
            text: Vec::new(alloc),
        }
    }
}

/// Puts a line together of what is told of its answer, and writes it.
#[inline(always)]
fn send_line<A: Allocator + Copy, W: io::Write>(
    telling: Telling,
    line: u64,
    request: &Request,
    told: &[u8],
    part: &mut LineText,
    text: &mut Vec<u8, A>,
    out: &mut W,
    writes: &mut IoLog,
) -> Result<(), Stop>
    requires { writes.old.failed ≡ false }
    ensures shown { Shows (view_of telling line request.now told.now) result
        (W.contents out.old) (W.contents out.new) }
    ensures failed { IsErrOf result Stop.Write → AreSpent writes.new }
    ensures none_failed { ¬ IsErrOf result Stop.Write → writes.new.failed ≡ false }
    ensures spent { IsErrOf result Stop.Write → AreSpentSince writes.old writes.new }
    ensures counted { MadeSince 0 writes.old writes.new }
{
    text.clear();
    put_view(text, part, telling, line, request, told)?;
    send(out, writes, text)?;
    Ok(())
}

impl<A: Allocator + Copy, P: Player<A>, W: io::Write> Listener<A, P, W> for Told<A> {
    ghost Writer = { Unit {0} };

    ghost State = { TellingOf };

    ghost state = { λ it. it.telling };

    ghost contents = { λ out w. W.contents out };

    ghost lead = { tt };

    ghost NeedsMemory = { Unit {0} };

    ghost HasRoom = { λ it n. Unit {0} };

    ghost opening = { λ w. [] };

    ghost begun = { λ s header player. s };

    ghost next = { λ s one. s };

    ghost show = { λ s one w. told_line s one };

    ghost closing = { λ s summary w. total_text s summary };

    fn begin(
        &mut self,
        _header: Header,
        _lines: usize,
        _player: &P,
        _out: &mut W,
        _writes: &mut IoLog,
    ) -> Result<(), Stop> {
        Ok(())
    }

    #[inline(always)]
    fn command(
        &mut self,
        _player: &P,
        line: u64,
        request: &Request,
        answer: Result<Reply, Refusal>,
        out: &mut W,
        writes: &mut IoLog,
    ) -> Result<(), Stop> {
        self.told.clear();
        put_answer(&mut self.told, &mut self.part, answer)?;
        send_line(
            self.telling,
            line,
            request,
            &self.told,
            &mut self.part,
            &mut self.text,
            out,
            writes,
        )
    }

    fn line(
        &mut self,
        player: &P,
        line: u64,
        request: &Request,
        answer: &Answer<A>,
        out: &mut W,
        writes: &mut IoLog,
    ) -> Result<(), Stop> {
        let structured = is_structured(self.telling);
        self.told.clear();
        put_told(
            self.alloc,
            player.heap(),
            player.trays(),
            answer,
            structured,
            &mut self.part,
            &mut self.told,
        )?;
        send_line(
            self.telling,
            line,
            request,
            &self.told,
            &mut self.part,
            &mut self.text,
            out,
            writes,
        )
    }

    fn end(&mut self, summary: &Summary, out: &mut W, writes: &mut IoLog) -> Result<(), Write> {
        let mut text = LineText::new();
        put_end(&mut text, self.telling, summary);
        send(out, writes, text.as_bytes())
    }
}
