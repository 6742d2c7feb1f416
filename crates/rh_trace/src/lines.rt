//! The loop of every run: each line is played, and handed with its answer to a listener.

ghost use Rattle.std.specs.Prelude.{◌≡◌, ◌⊎◌, ◌+◌, ◌<◌, ◌≤◌, ◌^◌, ℕ, suc, List, None, Err, false, length, IsErrOf, OnErr, OnOk};
ghost use Rattle.std.specs.List.{AllByRecursion};
ghost use Rattle.rh_core.specs.Config.{fault_of};
ghost use Rattle.rh_core.specs.Heap.{HeapState};
ghost use Rattle.rh_engine.specs.Trays.{Trays as TraysOf};
ghost use Rattle.rh_text.specs.IoLog.{AreSpent, AreSpentSince, MadeSince};
ghost use Rattle.rh_trace.specs.Answering.{answered_of};
ghost use Rattle.rh_trace.specs.Answers as answers;
ghost use Rattle.rh_trace.specs.Events.{is_command};
ghost use Rattle.rh_trace.specs.Lines.{IsPlayed, IsStopped, LinesEnd, Runs, Seen, left_by};
ghost use Rattle.rh_trace.specs.Run.{config_of, summary_with};

use crate::answer::Answer;
use crate::listener::Listener;
use crate::player::Player;
use crate::stop::Stop;
use crate::summary::Summary;
use rh_layout::limits::MAX_LINES;
use rh_layout::{Refusal, Reply};
use rh_syntax::{Header, Request};
use rh_text::IoLog;
use std::alloc::Allocator;

/// Nothing was counted.
const NOTHING: Summary = Summary {
    commands: 0,
    refused: 0,
    flips: 0,
    root_words: 0,
};

/// Counts a command that was answered so.
#[inline(always)]
fn count_command(summary: &mut Summary, answer: Result<Reply, Refusal>)
    requires few_commands { summary.old.commands < 2 ^ 63 }
    requires few_refused { summary.old.refused < 2 ^ 63 }
    ensures { summary.new ≡ summary_with summary.old (answers.Answer answer) }
{
    summary.commands += 1;
    summary.refused += u64::from(answer.is_err());
}

/// Counts an answer where it is to a command, or to a flip that was done.
#[inline(always)]
pub(crate) fn count<A: Allocator + Copy>(summary: &mut Summary, answer: &Answer<A>)
    requires few_commands { summary.old.commands < 2 ^ 63 }
    requires few_refused { summary.old.refused < 2 ^ 63 }
    requires few_flips { summary.old.flips < 2 ^ 63 }
    requires few_root_words { summary.old.root_words < 2 ^ 127 }
    ensures summary { (heap : HeapState) (trays : TraysOf)
        → summary.new ≡ summary_with summary.old (answered_of heap trays answer.now) }
    ensures few_roots { summary.new.root_words ≤ summary.old.root_words + 2 ^ 32 }
{
    match answer {
        Answer::Command(answer) => count_command(summary, *answer),
        Answer::Flip(Ok(flipped)) => {
            summary.flips += 1;
            summary.root_words += u128::from(flipped.roots);
        }
        _ => {}
    }
}

/// Plays a request that is no command, as `play_line` does. It stands apart, so that a command's way
/// is short.
#[inline(never)]
fn play_other<A: Allocator + Copy, P: Player<A>, L: Listener<A, P, O>, O>(
    alloc: A,
    player: &mut P,
    line: u64,
    request: &Request,
    summary: &mut Summary,
    listener: &mut L,
    out: &mut O,
    writes: &mut IoLog,
) -> Result<(), Stop>
    requires other { is_command request.now ≡ false }
    requires plays { P.Plays request.now }
    requires none_failed { writes.old.failed ≡ false }
    requires room { (n : ℕ) × L.HasRoom listener.old (suc n) }
    requires few_commands { summary.old.commands < 2 ^ 63 }
    requires few_refused { summary.old.refused < 2 ^ 63 }
    requires few_flips { summary.old.flips < 2 ^ 63 }
    requires few_root_words { summary.old.root_words < 2 ^ 127 }
    ensures played { OnOk result (IsPlayed P.Steps L.next L.show line player.old request.now
        player.new summary.old summary.new (L.state listener.old) (L.state listener.new)
        (L.contents out.old) (L.contents out.new)) }
    ensures stopped { OnErr result (IsStopped P.Steps L.next L.show line player.old request.now
        player.new (L.state listener.old) (L.contents out.old) (L.contents out.new)) }
    ensures room { OnOk result ((n : ℕ) → L.HasRoom listener.old (suc n)
        → L.HasRoom listener.new n) }
    ensures few_roots { summary.new.root_words ≤ summary.old.root_words + 2 ^ 32 }
    ensures failed { IsErrOf result Stop.Write → AreSpent writes.new }
    ensures none_failed { ¬ IsErrOf result Stop.Write → writes.new.failed ≡ false }
    ensures spent { IsErrOf result Stop.Write → AreSpentSince writes.old writes.new }
    ensures counted { MadeSince 0 writes.old writes.new }
{
    let answer = player.other(alloc, request)?;
    count(summary, &answer);
    listener.line(player, line, request, &answer, out, writes)
}

/// Plays a request, counts its answer, and hands both to the listener.
#[inline(always)]
fn play_line<A: Allocator + Copy, P: Player<A>, L: Listener<A, P, O>, O>(
    alloc: A,
    player: &mut P,
    line: u64,
    request: &Request,
    summary: &mut Summary,
    listener: &mut L,
    out: &mut O,
    writes: &mut IoLog,
) -> Result<(), Stop>
    requires plays { P.Plays request.now }
    requires none_failed { writes.old.failed ≡ false }
    requires room { (n : ℕ) × L.HasRoom listener.old (suc n) }
    requires few_commands { summary.old.commands < 2 ^ 63 }
    requires few_refused { summary.old.refused < 2 ^ 63 }
    requires few_flips { summary.old.flips < 2 ^ 63 }
    requires few_root_words { summary.old.root_words < 2 ^ 127 }
    ensures played { OnOk result (IsPlayed P.Steps L.next L.show line player.old request.now
        player.new summary.old summary.new (L.state listener.old) (L.state listener.new)
        (L.contents out.old) (L.contents out.new)) }
    ensures stopped { OnErr result (IsStopped P.Steps L.next L.show line player.old request.now
        player.new (L.state listener.old) (L.contents out.old) (L.contents out.new)) }
    ensures memory { IsErrOf result Stop.OutOfMemory
        → L.NeedsMemory ⊎ (is_command request.now ≡ false) }
    ensures room { OnOk result ((n : ℕ) → L.HasRoom listener.old (suc n)
        → L.HasRoom listener.new n) }
    ensures few_roots { summary.new.root_words ≤ summary.old.root_words + 2 ^ 32 }
    ensures failed { IsErrOf result Stop.Write → AreSpent writes.new }
    ensures none_failed { ¬ IsErrOf result Stop.Write → writes.new.failed ≡ false }
    ensures spent { IsErrOf result Stop.Write → AreSpentSince writes.old writes.new }
    ensures counted { MadeSince 0 writes.old writes.new }
{
    if let Request::Command { owner, ref command } = *request {
        let answer = player.command(owner, command);
        count_command(summary, answer);
        return listener.command(player, line, request, answer, out, writes);
    }
    play_other(alloc, player, line, request, summary, listener, out, writes)
}

/// Why lines were stopped. It stands apart, since few runs are.
#[cold]
fn stopped(stop: Stop) -> Result<Summary, Stop>
    ensures { result ≡ Err stop }
{
    Err(stop)
}

/// Plays requests one after the other, from line 2 on, hands each and its answer to the listener, and
/// answers what they add up to.
///
/// # Errors
///
/// `Write` where a write failed, `OutOfMemory` where the allocator refused memory: a prefix of what
/// the listener writes may be written then.
pub fn run_lines<A: Allocator + Copy, P: Player<A>, L: Listener<A, P, O>, O>(
    alloc: A,
    player: &mut P,
    header: Header,
    requests: &[Request],
    listener: &mut L,
    out: &mut O,
    writes: &mut IoLog,
) -> Result<Summary, Stop>
    requires sizes { fault_of (config_of header) ≡ None }
    requires few { length requests.now < MAX_LINES }
    requires plays { AllByRecursion P.Plays requests.now }
    requires none_failed { writes.old.failed ≡ false }
    ensures ends { LinesEnd P.Steps P.total L.next L.show L.closing L.lead L.opening L.NeedsMemory
        (L.begun (L.state listener.old) header player.old) player.old requests.now result
        (L.contents out.old) (L.contents out.new) }
    // The player is as the lines leave it.
    ensures left { OnOk result ((seen : List (Seen P))
        × Runs P.Steps 2 player.old requests.now seen × (player.new ≡ left_by player.old seen)) }
    ensures failed { IsErrOf result Stop.Write → AreSpent writes.new }
    ensures none_failed { ¬ IsErrOf result Stop.Write → writes.new.failed ≡ false }
    ensures spent { IsErrOf result Stop.Write → AreSpentSince writes.old writes.new }
    ensures counted { MadeSince 0 writes.old writes.new }
{
    let mut counted = NOTHING;
    let mut line = 2u64;
    listener.begin(header, requests.len(), player, out, writes)?;
    for request in requests {
        match play_line(
            alloc,
            player,
            line,
            request,
            &mut counted,
            listener,
            out,
            writes,
        ) {
            Ok(()) => line += 1,
            Err(stop) => return stopped(stop),
        }
    }
    let summary = player.total(counted);
    listener.end(&summary, out, writes)?;
    Ok(summary)
}
