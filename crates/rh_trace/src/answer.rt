//! What a request of a trace is answered.

ghost use Rattle.std.specs.Prelude.{◌≡◌, ◌<◌, length, IfOk, OnErr, OnOk};
ghost use Rattle.rh_trace.specs.Answering.{answered_of};
ghost use Rattle.rh_trace.specs.Answers.{answered_text};
ghost use Rattle.rh_trace.specs.Run.{request_step};

use rh_core::{
    BeginError, FlipError, Flipped, Given, IdleError, NoCycle, RecallError, ShadeError, Shaded,
    WatchError,
};
use rh_engine::{
    DealRefusal, Engine, GiveRefusal, JoinRefusal, ResizeRefusal, TicketsRefusal, TrayDeal,
};
use rh_layout::{OutOfMemory, Refusal, Reply};
use rh_syntax::Request;
use std::alloc::Allocator;

/// What a request was answered. The trays of a listing, and the heap of numbers or of a dump, are
/// read where the answer is told.
#[derive(Drop)]
pub enum Answer<A: Allocator> {
    /// To a command.
    Command(Result<Reply, Refusal>),
    /// To `begin`: the epoch.
    Begin(Result<u64, BeginError>),
    /// To `shade`.
    Shade(Result<Shaded, ShadeError>),
    /// To `deal`.
    Deal(Result<TrayDeal, DealRefusal>),
    /// To `give`.
    Give(Result<Given, GiveRefusal>),
    /// To `join`: the entries of the first tray.
    Join(Result<u64, JoinRefusal>),
    /// To `flip`.
    Flip(Result<Flipped, FlipError>),
    /// To `recall`: the epoch.
    Recall(Result<u64, RecallError>),
    /// To `abandon`: the objects that were placed.
    Abandon(Result<u32, NoCycle>),
    /// To `idle`: the idle words.
    Idle(Result<u64, IdleError>),
    /// To `resize`: the words of a space.
    Resize(Result<u32, ResizeRefusal>),
    /// To `tickets`: how many there are room for.
    Tickets(Result<u32, TicketsRefusal>),
    /// To `watch`: the ticket.
    Watch(Result<u32, WatchError>),
    /// To `unwatch`: whether the ticket watched an object.
    Unwatch(bool),
    /// To `gone`: the tickets whose objects are gone.
    Gone(Vec<u32, A>),
    /// To `trays`.
    Trays,
    /// To `stat`.
    Stat,
    /// To `dump`.
    Dump,
}

/// Runs a request on an engine. The list of tickets of a `gone` takes its memory from `alloc`.
///
/// # Errors
///
/// `OutOfMemory` where the allocator refused memory, at a deal, a join, a resize, room for tickets
/// or a `gone`.
#[inline(always)]
pub(crate) fn answer_request<A: Allocator + Copy>(
    alloc: A,
    engine: &mut Engine<A>,
    request: &Request,
) -> Result<Answer<A>, OutOfMemory>
    ensures state { OnOk result (engine.new ≡ (request_step engine.old request.now).0) }
    ensures answer { IfOk result (λ answer. answered_of engine.new.heap engine.new.trays answer
        ≡ (request_step engine.old request.now).1) }
    // Memory is refused only where something is to be written.
    ensures filled { OnErr result
        (0 < length (answered_text (request_step engine.old request.now).1)) }
{
    match *request {
        Request::Command { owner, ref command } => {
            Ok(Answer::Command(engine.command(owner, command)))
        }
        Request::Begin => Ok(Answer::Begin(engine.begin())),
        Request::Shade { root } => Ok(Answer::Shade(engine.shade(root))),
        Request::Deal { kind, most, tray } => Ok(Answer::Deal(engine.deal(kind, most, tray)?)),
        Request::Give { tray } => Ok(Answer::Give(engine.give(tray))),
        Request::Join { into, other } => Ok(Answer::Join(engine.join(into, other)?)),
        Request::Flip => Ok(Answer::Flip(engine.flip())),
        Request::Recall => Ok(Answer::Recall(engine.recall())),
        Request::Abandon => Ok(Answer::Abandon(engine.abandon())),
        Request::Idle { words } => Ok(Answer::Idle(engine.idle(words.into()))),
        Request::Resize { words } => Ok(Answer::Resize(engine.resize(words)?)),
        Request::Tickets { tickets } => Ok(Answer::Tickets(engine.tickets(tickets)?)),
        Request::Watch { owner, root } => Ok(Answer::Watch(engine.watch(owner, root))),
        Request::Unwatch { ticket } => Ok(Answer::Unwatch(engine.unwatch(ticket))),
        Request::Gone => Ok(Answer::Gone(engine.gone(alloc)?)),
        Request::Trays => Ok(Answer::Trays),
        Request::Stat => Ok(Answer::Stat),
        Request::Dump => Ok(Answer::Dump),
    }
}
