//! The trait of players: what the lines of a trace are played on.

ghost use Rattle.std.specs.Prelude.{◌≡◌, false, IfOk};
ghost use Rattle.rh_core.specs.Heap.{HeapState};
ghost use Rattle.rh_engine.specs.Trays.{Trays as TraysOf};
ghost use Rattle.rh_syntax.specs.declared.request.Request.{Request as RequestOf};
ghost use Rattle.rh_syntax.specs.declared.request.Request.TheVariants as requests;
ghost use Rattle.rh_trace.specs.Answering.{answered_of};
ghost use Rattle.rh_trace.specs.Answers as answers;
ghost use Rattle.rh_trace.specs.Answers.{Answered};
ghost use Rattle.rh_trace.specs.Events.{is_command};
ghost use Rattle.rh_trace.specs.Run.{request_step};
ghost use Rattle.rh_trace.specs.declared.summary.Summary.{Summary as SummaryOf};

use crate::answer::{Answer, answer_request};
use crate::summary::Summary;
use rh_core::Heap;
use rh_engine::{Engine, Trays};
use rh_layout::{Command, OutOfMemory, Refusal, Reply};
use rh_syntax::Request;
use std::alloc::Allocator;

/// What the lines of a trace are played on: the engine of traces, or a heap that takes commands
/// alone, whose trays are empty then.
pub trait Player<A: Allocator + Copy> {
    /// It plays this request.
    ghost Plays: { RequestOf → Type 0 };

    /// A request takes one state to another, and this is answered.
    ghost Steps: { Self → RequestOf → Self → Answered → Type 0 };

    /// Its heap.
    ghost heap: { Self → HeapState };

    /// Its trays.
    ghost trays: { Self → TraysOf };

    /// What a run adds up to that ends so, where so much was counted.
    ghost total: { Self → SummaryOf → SummaryOf };

    /// Runs one command of an owner.
    ///
    /// # Errors
    ///
    /// As the heap answers it.
    fn command(&mut self, owner: u32, command: &Command) -> Result<Reply, Refusal>
        ensures { Steps self.old (requests.Command owner command.now) self.new
            (answers.Answer result) };

    /// Runs a request that is no command.
    ///
    /// # Errors
    ///
    /// `OutOfMemory` where the allocator refused memory.
    fn other(&mut self, alloc: A, request: &Request) -> Result<Answer<A>, OutOfMemory>
        requires other { is_command request.now ≡ false }
        requires plays { Plays request.now }
        ensures { IfOk result (λ answer. Steps self.old request.now self.new
            (answered_of (heap self.new) (trays self.new) answer)) };

    /// The heap.
    fn heap(&self) -> &Heap<A>
        ensures { result.now ≡ heap self.now };

    /// The trays.
    fn trays(&self) -> &Trays<A>
        ensures { result.now ≡ trays self.now };

    /// What the run adds up to, where so much was counted.
    fn total(&self, counted: Summary) -> Summary
        ensures { result ≡ total self.now counted };
}

impl<A: Allocator + Copy> Player<A> for Engine<A> {
    ghost Plays = { λ request. Unit {0} };

    ghost Steps = { λ s request t answered. (t ≡ (request_step s request).0)
        × (answered ≡ (request_step s request).1) };

    ghost heap = { λ s. s.heap };

    ghost trays = { λ s. s.trays };

    ghost total = { λ s counted. counted };

    #[inline(always)]
    fn command(&mut self, owner: u32, command: &Command) -> Result<Reply, Refusal> {
        self.command(owner, command)
    }

    #[inline(always)]
    fn other(&mut self, alloc: A, request: &Request) -> Result<Answer<A>, OutOfMemory> {
        answer_request(alloc, self, request)
    }

    fn heap(&self) -> &Heap<A> {
        self.heap()
    }

    fn trays(&self) -> &Trays<A> {
        self.trays()
    }

    fn total(&self, counted: Summary) -> Summary {
        counted
    }
}
