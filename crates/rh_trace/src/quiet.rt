//! The listener that writes nothing.

ghost use Rattle.std.specs.Prelude.{None, []};

use crate::answer::Answer;
use crate::listener::Listener;
use crate::player::Player;
use crate::stop::Stop;
use crate::summary::Summary;
use rh_syntax::{Header, Request};
use rh_text::{IoLog, Write};
use std::alloc::Allocator;

/// Writes nothing of a run.
#[derive(Drop)]
pub struct Quiet;

impl<A: Allocator + Copy, P: Player<A>, O> Listener<A, P, O> for Quiet {
    ghost Writer = { Unit {0} };

    ghost State = { Unit {0} };

    ghost state = { λ quiet. tt };

    ghost contents = { λ out w. None };

    ghost lead = { tt };

    ghost NeedsMemory = { ⊥ };

    ghost HasRoom = { λ quiet n. Unit {0} };

    ghost opening = { λ w. [] };

    ghost begun = { λ s header player. s };

    ghost next = { λ s one. s };

    ghost show = { λ s one w. [] };

    ghost closing = { λ s summary w. [] };

    fn begin(
        &mut self,
        _header: Header,
        _lines: usize,
        _player: &P,
        _out: &mut O,
        _writes: &mut IoLog,
    ) -> Result<(), Stop> {
        Ok(())
    }

    fn line(
        &mut self,
        _player: &P,
        _line: u64,
        _request: &Request,
        _answer: &Answer<A>,
        _out: &mut O,
        _writes: &mut IoLog,
    ) -> Result<(), Stop> {
        Ok(())
    }

    fn end(&mut self, _summary: &Summary, _out: &mut O, _writes: &mut IoLog) -> Result<(), Write> {
        Ok(())
    }
}
