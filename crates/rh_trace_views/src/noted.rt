//! The listener for `--history`: it notes the commands of a run, and writes their history.

ghost use Rattle.std.specs.Prelude.{◌≡◌, ◌<◌, ℕ, suc, length, [], Option, None};
ghost use Rattle.rh_replay.specs.History.{HistoryState};
ghost use Rattle.rh_syntax.specs.declared.request.Request.TheVariants as requests;
ghost use Rattle.rh_trace.specs.Answers as answers;
ghost use Rattle.rh_trace_views.specs.History.{call_of, with_calls};
ghost use Rattle.rh_trace_views.specs.Listening.{HasRoomFor, begun_history, history_in, history_text, noted_with};

use crate::recording::recorder_for;
use rh_layout::{Command, Refusal, Reply};
use rh_replay::{Recorder, write_history_logged};
use rh_syntax::{Header, Request};
use rh_text::{IoLog, Write};
use rh_trace::{Answer, Listener, Player, Stop, Summary};
use std::alloc::Allocator;
use std::io;

/// Notes the commands that no limit refused, and writes their history at the end.
#[derive(Drop)]
pub struct Noted<A: Allocator> {
    alloc: A,
    /// None before the first line.
    recorder: Option<Recorder<A>>,
}

impl<A: Allocator + Copy> Noted<A> {
    /// No line was played yet. Room for the history is taken from `alloc` as the lines begin.
    pub fn new(alloc: A) -> Self
        ensures { result.recorder ≡ None }
    {
        Noted {
            alloc,
            recorder: None,
        }
    }
}

/// Notes a call, for which there is room, unless a limit refused it.
fn note<A: Allocator + Copy>(
    recorder: &mut Recorder<A>,
    owner: u32,
    command: &Command,
    answer: Result<Reply, Refusal>,
)
    requires { length recorder.old.history.calls < recorder.old.limit }
    ensures history { recorder.new.history ≡ with_calls recorder.old.history
        (call_of (requests.Command owner command.now) (answers.Answer answer)) }
    ensures limit { recorder.new.limit ≡ recorder.old.limit }
{
    recorder.note_unless_limited(owner, command, answer);
}

/// Notes a line where it is a command, and there is a recorder.
#[inline(always)]
fn note_line<A: Allocator + Copy>(
    recorder: &mut Option<Recorder<A>>,
    request: &Request,
    answer: Result<Reply, Refusal>,
)
    requires { HasRoomFor recorder.old 1 }
    ensures history { history_in recorder.new
        ≡ noted_with (history_in recorder.old) request.now (answers.Answer answer) }
    ensures room { (n : ℕ) → HasRoomFor recorder.old (suc n) → HasRoomFor recorder.new n }
{
    if let Request::Command { owner, ref command } = *request {
        if let Some(recorder) = recorder {
            note(recorder, owner, command, answer);
        }
    }
}

impl<A: Allocator + Copy, P: Player<A>, H: io::Write> Listener<A, P, H> for Noted<A> {
    ghost Writer = { Unit {0} };

    ghost State = { Option HistoryState };

    ghost state = { λ it. history_in it.recorder };

    ghost contents = { λ out w. H.contents out };

    ghost lead = { tt };

    ghost NeedsMemory = { Unit {0} };

    ghost HasRoom = { λ it n. HasRoomFor it.recorder n };

    ghost opening = { λ w. [] };

    ghost begun = { λ s header player. begun_history header };

    ghost next = { λ s one. noted_with s one.request one.answered };

    ghost show = { λ s one w. [] };

    ghost closing = { λ s summary w. history_text s };

    fn begin(
        &mut self,
        header: Header,
        lines: usize,
        _player: &P,
        _out: &mut H,
        _writes: &mut IoLog,
    ) -> Result<(), Stop> {
        let recorder = recorder_for(self.alloc, header, lines)?;
        self.recorder = Some(recorder);
        Ok(())
    }

    #[inline(always)]
    fn command(
        &mut self,
        _player: &P,
        _line: u64,
        request: &Request,
        answer: Result<Reply, Refusal>,
        _out: &mut H,
        _writes: &mut IoLog,
    ) -> Result<(), Stop> {
        note_line(&mut self.recorder, request, answer);
        Ok(())
    }

    fn line(
        &mut self,
        _player: &P,
        _line: u64,
        request: &Request,
        answer: &Answer<A>,
        _out: &mut H,
        _writes: &mut IoLog,
    ) -> Result<(), Stop> {
        if let Answer::Command(answer) = answer {
            note_line(&mut self.recorder, request, *answer);
        }
        Ok(())
    }

    fn end(&mut self, _summary: &Summary, out: &mut H, writes: &mut IoLog) -> Result<(), Write> {
        match &self.recorder {
            Some(recorder) => write_history_logged(recorder.history(), out, writes),
            None => Ok(()),
        }
    }
}
