//! The trait of listeners: what is done with each line of a run and its answer.

ghost use Rattle.std.specs.Prelude.{◌≡◌, ◌<◌, ◌⊎◌, ℕ, suc, false, List, [], Option, None, IsErrOf, OnErr, OnOk};
ghost use Rattle.rh_core.specs.Config.{fault_of};
ghost use Rattle.rh_syntax.specs.declared.line.Header.{Header as HeaderOf};
ghost use Rattle.rh_text.specs.IoLog.{AreSpent, AreSpentSince, MadeSince};
ghost use Rattle.rh_text.specs.Output.{AppendsLess};
ghost use Rattle.rh_trace.specs.Answering.{answered_of};
ghost use Rattle.rh_trace.specs.Answers as answers;
ghost use Rattle.rh_trace.specs.Answers.{is_answer};
ghost use Rattle.rh_trace.specs.Lines.{Seen, Shows, seen_of};
ghost use Rattle.rh_trace.specs.Run.{config_of};
ghost use Rattle.rh_trace.specs.declared.summary.Summary.{Summary as SummaryOf};

use crate::answer::Answer;
use crate::player::Player;
use crate::stop::Stop;
use crate::summary::Summary;
use rh_layout::limits::MAX_LINES;
use rh_layout::{Refusal, Reply};
use rh_syntax::{Header, Request};
use rh_text::{IoLog, Write};
use std::alloc::Allocator;

/// What is done with each line of a trace and its answer. It keeps something from line to line, and
/// writes a text of each, for each of its writers.
pub trait Listener<A: Allocator + Copy, P: Player<A>, O> {
    /// Its writers.
    ghost Writer: { Type 0 };

    /// What it keeps.
    ghost State: { Type 0 };

    /// What it keeps now.
    ghost state: { Self → State };

    /// What is known of the bytes that a writer took.
    ghost contents: { O → Writer → Option (List ℕ) };

    /// The writer whose text ends last.
    ghost lead: { Writer };

    /// It may ask for memory where it begins, and at a command.
    ghost NeedsMemory: { Type 0 };

    /// It has room for so many lines more.
    ghost HasRoom: { Self → ℕ → Type 0 };

    /// What it writes before the first line.
    ghost opening: { Writer → List ℕ };

    /// What it keeps then.
    ghost begun: { State → HeaderOf → P → State };

    /// What it keeps after a line.
    ghost next: { State → Seen P → State };

    /// What it writes of a line.
    ghost show: { State → Seen P → Writer → List ℕ };

    /// What it writes at the end.
    ghost closing: { State → SummaryOf → Writer → List ℕ };

    /// Begins a run of so many lines, before the first is played.
    ///
    /// # Errors
    ///
    /// `Write` where a write failed, `OutOfMemory` where the allocator refused memory.
    fn begin(
        &mut self,
        header: Header,
        lines: usize,
        player: &P,
        out: &mut O,
        writes: &mut IoLog,
    ) -> Result<(), Stop>
        requires sizes { fault_of (config_of header) ≡ None }
        requires few { lines < MAX_LINES }
        requires none_failed { writes.old.failed ≡ false }
        ensures state { OnOk result (state self.new ≡ begun (state self.old) header player.now) }
        ensures room { OnOk result (HasRoom self.new lines) }
        ensures shown { (w : Writer) → Shows (opening w) result (contents out.old w)
            (contents out.new w) }
        ensures memory { IsErrOf result Stop.OutOfMemory → NeedsMemory }
        ensures failed { IsErrOf result Stop.Write → AreSpent writes.new }
        ensures none_failed { ¬ IsErrOf result Stop.Write → writes.new.failed ≡ false }
        ensures spent { IsErrOf result Stop.Write → AreSpentSince writes.old writes.new }
        ensures counted { MadeSince 0 writes.old writes.new };

    /// Takes a command that was played, and its answer.
    ///
    /// # Errors
    ///
    /// As of `line`.
    fn command(
        &mut self,
        player: &P,
        line: u64,
        request: &Request,
        answer: Result<Reply, Refusal>,
        out: &mut O,
        writes: &mut IoLog,
    ) -> Result<(), Stop>
        requires none_failed { writes.old.failed ≡ false }
        requires room { (n : ℕ) × HasRoom self.old (suc n) }
        ensures state { OnOk result (state self.new ≡ next (state self.old)
            (seen_of line request.now (answers.Answer answer) player.now)) }
        ensures room { OnOk result ((n : ℕ) → HasRoom self.old (suc n)
            → HasRoom self.new n) }
        ensures shown { (w : Writer) → Shows (show (state self.old)
            (seen_of line request.now (answers.Answer answer) player.now) w) result
            (contents out.old w) (contents out.new w) }
        ensures memory { IsErrOf result Stop.OutOfMemory → NeedsMemory }
        ensures failed { IsErrOf result Stop.Write → AreSpent writes.new }
        ensures none_failed { ¬ IsErrOf result Stop.Write → writes.new.failed ≡ false }
        ensures spent { IsErrOf result Stop.Write → AreSpentSince writes.old writes.new }
        ensures counted { MadeSince 0 writes.old writes.new }
    {
        self.line(player, line, request, &Answer::Command(answer), out, writes)
    }

    /// Takes a line that was played, and its answer. The player is as it is then.
    ///
    /// # Errors
    ///
    /// `Write` where a write failed, `OutOfMemory` where the allocator refused memory. A prefix of
    /// what is written of the line may be written then.
    fn line(
        &mut self,
        player: &P,
        line: u64,
        request: &Request,
        answer: &Answer<A>,
        out: &mut O,
        writes: &mut IoLog,
    ) -> Result<(), Stop>
        requires none_failed { writes.old.failed ≡ false }
        requires room { (n : ℕ) × HasRoom self.old (suc n) }
        ensures state { OnOk result (state self.new ≡ next (state self.old) (seen_of line
            request.now (answered_of (P.heap player.now) (P.trays player.now) answer.now)
            player.now)) }
        ensures room { OnOk result ((n : ℕ) → HasRoom self.old (suc n)
            → HasRoom self.new n) }
        ensures shown { (w : Writer) → Shows (show (state self.old) (seen_of line
            request.now (answered_of (P.heap player.now) (P.trays player.now) answer.now)
            player.now) w) result (contents out.old w) (contents out.new w) }
        // A listener that needs no memory may ask for some where the answer isn't to a command.
        ensures memory { IsErrOf result Stop.OutOfMemory → NeedsMemory
            ⊎ (is_answer (answered_of (P.heap player.now) (P.trays player.now) answer.now)
            ≡ false) }
        ensures failed { IsErrOf result Stop.Write → AreSpent writes.new }
        ensures none_failed { ¬ IsErrOf result Stop.Write → writes.new.failed ≡ false }
        ensures spent { IsErrOf result Stop.Write → AreSpentSince writes.old writes.new }
        ensures counted { MadeSince 0 writes.old writes.new };

    /// Ends a run, after its last line.
    ///
    /// # Errors
    ///
    /// `Write` where a write failed. A prefix of what is written at the end may be written then.
    fn end(&mut self, summary: &Summary, out: &mut O, writes: &mut IoLog) -> Result<(), Write>
        requires none_failed { writes.old.failed ≡ false }
        ensures shown { (w : Writer) → Shows (closing (state self.old) summary.now w) result
            (contents out.old w) (contents out.new w) }
        // Not all was written by the writer that ends last, unless there was nothing to write.
        ensures cut { OnErr result ((closing (state self.old) summary.now lead ≡ [])
            ⊎ AppendsLess (contents out.old lead) (contents out.new lead)
            (closing (state self.old) summary.now lead)) }
        ensures failed { OnErr result (AreSpent writes.new) }
        ensures none_failed { OnOk result (writes.new.failed ≡ false) }
        ensures spent { OnErr result (AreSpentSince writes.old writes.new) }
        ensures counted { MadeSince 0 writes.old writes.new };
}
