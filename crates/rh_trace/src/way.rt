//! The trait of ways: which heap is made for a trace, and why none is.

ghost use Rattle.std.specs.Prelude.{◌≡◌, List, None, IfErr, IfOk};
ghost use Rattle.std.specs.List.{AllByRecursion};
ghost use Rattle.rh_model.specs.Plain.{empty_plain};
ghost use Rattle.rh_core.specs.Config.{fault_of};
ghost use Rattle.rh_syntax.specs.Spelling.{IsScript, Script};
ghost use Rattle.rh_syntax.specs.declared.request.Request.{Request as RequestOf};
ghost use Rattle.rh_trace.specs.declared.way_fault.Unprepared.{Unprepared as UnpreparedOf};
ghost use Rattle.rh_trace.specs.Lines.{Runs, Seen, answers_in};
ghost use Rattle.rh_trace.specs.Run.{AreTransparent, config_of};

use crate::player::Player;
use crate::way_fault::Unprepared;
use rh_syntax::Trace;
use std::alloc::Allocator;

/// How a trace is run: what heap is made for it. `F` are the faults that a way has of its own.
pub trait Way<A: Allocator + Copy, P: Player<A>, F> {
    /// A trace is played on this, as it is before the first line.
    ghost fits: { Self → Script → P → Type 0 };

    /// Nothing is made for a trace, and this is why.
    ghost refuses: { Self → Script → UnpreparedOf F → Type 0 };

    /// Makes what the lines of a trace are played on.
    ///
    /// # Errors
    ///
    /// Why nothing is made: `refuses` says which faults the trace has for this way, and in which
    /// order they are answered. `OutOfMemory` where the allocator refused memory.
    fn prepare(&self, alloc: A, trace: &Trace<A>) -> Result<P, Unprepared<F>>
        requires { IsScript trace.now }
        ensures made { IfOk result (λ player. fits self.now trace.now player) }
        ensures plays { IfOk result (λ player. AllByRecursion P.Plays trace.now.requests) }
        ensures sizes { IfOk result (λ player. fault_of (config_of trace.now.header) ≡ None) }
        ensures refused { IfErr result (λ why. refuses self.now trace.now why) };

    /// What lines are answered is what a heap answers that never moves its objects, but for refusals
    /// by a limit. This does nothing.
    fn answers_as_the_plain_heap()
        ensures { (way : Self) (script : Script) (player : P) → fits way script player
            → (requests : List RequestOf) (seen : List (Seen P))
            → Runs P.Steps 2 player requests seen
            → AreTransparent (empty_plain script.header.owners script.header.slots) requests
            (answers_in seen) };
}
