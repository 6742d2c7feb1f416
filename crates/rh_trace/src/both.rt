//! The listener that hands each line to two others.

ghost use Rattle.std.specs.Prelude.{◌⊎◌};
ghost use Rattle.std.proofs.Common.{inl};
ghost use Rattle.rh_trace.specs.Either.{by_either};

use crate::answer::Answer;
use crate::listener::Listener;
use crate::player::Player;
use crate::stop::Stop;
use crate::summary::Summary;
use rh_layout::{Refusal, Reply};
use rh_syntax::{Header, Request};
use rh_text::{IoLog, Write};
use std::alloc::Allocator;

/// Two listeners. Each line is handed to the first, and then to the second; at the end the second
/// ends first, so that the first has the last word.
#[derive(Drop)]
pub struct Both<L, M> {
    /// The first.
    pub first: L,
    /// The second.
    pub second: M,
}

/// What two listeners write to.
#[derive(Drop)]
pub struct Pair<O, N> {
    /// What the first writes to.
    pub first: O,
    /// What the second writes to.
    pub second: N,
}

impl<A: Allocator + Copy, P: Player<A>, O, N, L: Listener<A, P, O>, M: Listener<A, P, N>> Listener<
    A,
    P,
    Pair<O, N>,
> for Both<L, M> {
    ghost Writer = { L.Writer ⊎ M.Writer };

    ghost State = { L.State × M.State };

    ghost state = { λ both. (L.state both.first, M.state both.second) };

    ghost contents = { λ out. by_either (L.contents out.first) (M.contents out.second) };

    ghost lead = { inl L.lead };

    ghost NeedsMemory = { L.NeedsMemory ⊎ M.NeedsMemory };

    ghost HasRoom = { λ both n. L.HasRoom both.first n × M.HasRoom both.second n };

    ghost opening = { by_either L.opening M.opening };

    ghost begun = { λ s header player. (L.begun s.0 header player, M.begun s.1 header player) };

    ghost next = { λ s one. (L.next s.0 one, M.next s.1 one) };

    ghost show = { λ s one. by_either (L.show s.0 one) (M.show s.1 one) };

    ghost closing = { λ s summary. by_either (L.closing s.0 summary) (M.closing s.1 summary) };

    fn begin(
        &mut self,
        header: Header,
        lines: usize,
        player: &P,
        out: &mut Pair<O, N>,
        writes: &mut IoLog,
    ) -> Result<(), Stop> {
        self.first
            .begin(header, lines, player, &mut out.first, writes)?;
        self.second
            .begin(header, lines, player, &mut out.second, writes)
    }

    #[inline(always)]
    fn command(
        &mut self,
        player: &P,
        line: u64,
        request: &Request,
        answer: Result<Reply, Refusal>,
        out: &mut Pair<O, N>,
        writes: &mut IoLog,
    ) -> Result<(), Stop> {
        self.first
            .command(player, line, request, answer, &mut out.first, writes)?;
        self.second
            .command(player, line, request, answer, &mut out.second, writes)
    }

    fn line(
        &mut self,
        player: &P,
        line: u64,
        request: &Request,
        answer: &Answer<A>,
        out: &mut Pair<O, N>,
        writes: &mut IoLog,
    ) -> Result<(), Stop> {
        self.first
            .line(player, line, request, answer, &mut out.first, writes)?;
        self.second
            .line(player, line, request, answer, &mut out.second, writes)
    }

    fn end(
        &mut self,
        summary: &Summary,
        out: &mut Pair<O, N>,
        writes: &mut IoLog,
    ) -> Result<(), Write> {
        self.second.end(summary, &mut out.second, writes)?;
        self.first.end(summary, &mut out.first, writes)
    }
}
