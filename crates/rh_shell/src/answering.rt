//! Answers one line of a session, whatever it is.

ghost use Rattle.std.specs.Prelude.{◌≡◌, ◌≤◌, List, ℕ, IsErrOf, OnOk, IfSome, None, false};
ghost use Rattle.rh_core.specs.Config.{fault_of};
ghost use Rattle.rh_text.specs.IoLog.{AreSpent, AreSpentSince, MadeSince};
ghost use Rattle.rh_trace.specs.Answers.{answered_text};
ghost use Rattle.rh_trace.specs.Run.{config_of, request_step};
ghost use Rattle.rh_shell.specs.Session.{own_of, IsAnswer, IsCounted, IsCyclesAnswer, IsDrawAnswer, IsHeapAnswer, IsOtherAnswer, SessionState, session_after, WritesSome};

use crate::help::HELP;
use crate::host::Host;
use crate::own::{DRAW_BYTES, Own, own_of};
use crate::playing::Playing;
use crate::session::Session;
use crate::telling::{kind_name, put_fault, put_line_fault, put_no_heap, put_size_fault};
use rh_core::{Heap, HeapError};
use rh_cycles::HEADER;
use rh_draw::draw;
use rh_layout::OutOfMemory;
use rh_text::{IoLog, LineText, send};
use rh_trace::{Header, Kind, Request, Stop, config_of, header_or_fault, request_or_fault};
use std::alloc::Allocator;
use std::io;

/// The title of a picture.
const TITLE: &str = "The heap of the session";

/// Writes a text.
fn tell<W: io::Write>(writer: &mut W, writes: &mut IoLog, text: &[u8]) -> Result<(), Stop>
    requires { writes.old.failed ≡ false }
    ensures written { WritesSome text.now result (W.contents writer.old) (W.contents writer.new) }
    ensures none_failed { ¬ IsErrOf result Stop.Write → writes.new.failed ≡ false }
    ensures failed { IsErrOf result Stop.Write → AreSpent writes.new }
    ensures spent { IsErrOf result Stop.Write → AreSpentSince writes.old writes.new }
    ensures made { MadeSince 0 writes.old writes.new }
{
    match send(writer, writes, text) {
        Ok(()) => Ok(()),
        Err(_) => Err(Stop::Write),
    }
}

/// Answers `cycles`.
fn answer_cycles<A: Allocator + Copy, W: io::Write>(
    playing: &Option<Playing<A>>,
    writer: &mut W,
    writes: &mut IoLog,
) -> Result<(), Stop>
    requires { writes.old.failed ≡ false }
    ensures told { (text : List ℕ) × IsCyclesAnswer playing.now text
        × WritesSome text result (W.contents writer.old) (W.contents writer.new) }
    ensures none_failed { ¬ IsErrOf result Stop.Write → writes.new.failed ≡ false }
    ensures failed { IsErrOf result Stop.Write → AreSpent writes.new }
    ensures spent { IsErrOf result Stop.Write → AreSpentSince writes.old writes.new }
    ensures made { MadeSince 0 writes.old writes.new }
{
    let Some(playing) = playing else {
        let mut text = LineText::new();
        put_no_heap(&mut text);
        return tell(writer, writes, text.as_bytes());
    };
    if let Err(stop) = tell(writer, writes, HEADER) {
        return Err(stop);
    }
    tell(writer, writes, &playing.told)
}

/// The picture of a heap.
fn picture_of<A: Allocator + Copy>(alloc: A, heap: &Heap<A>) -> Result<Vec<u8, A>, OutOfMemory> {
    let mut picture = Vec::new(alloc);
    match draw(alloc, heap, TITLE, &mut picture) {
        Ok(()) => Ok(picture),
        Err(_) => Err(OutOfMemory),
    }
}

/// Puts a picture into the file of this name. The text becomes the answer to `draw`.
fn put_drawn<A: Allocator + Copy, H: Host>(
    alloc: A,
    text: &mut LineText,
    playing: &Option<Playing<A>>,
    name: &[u8],
    host: &mut H,
) -> Result<(), OutOfMemory>
    ensures { OnOk result (IsDrawAnswer playing.now text.new) }
{
    let Some(playing) = playing else {
        put_no_heap(text);
        return Ok(());
    };
    let Ok(name) = str::from_utf8(name) else {
        put_fault(text, kind_name(Kind::Form), b"the file's name is no text");
        return Ok(());
    };
    let Ok(picture) = picture_of(alloc, playing.engine.heap()) else {
        return Err(OutOfMemory);
    };
    if !host.put_picture(name, &picture) {
        put_fault(text, b"File", b"the picture can't be written there");
        return Ok(());
    }
    text.clear();
    text.put(b"drawn\n");
    Ok(())
}

/// Answers a line that is none of a trace, with this fault there.
fn answer_other<A: Allocator + Copy, W: io::Write, H: Host>(
    alloc: A,
    session: &Session<A>,
    kind: Kind,
    line: &[u8],
    ended: bool,
    writer: &mut W,
    writes: &mut IoLog,
    host: &mut H,
) -> Result<(), Stop>
    requires { writes.old.failed ≡ false }
    ensures told { (text : List ℕ)
        × IsOtherAnswer (own_of (record { bytes = line.now; ended = ended })) session.now.playing
        kind text
        × WritesSome text result (W.contents writer.old) (W.contents writer.new) }
    ensures none_failed { ¬ IsErrOf result Stop.Write → writes.new.failed ≡ false }
    ensures failed { IsErrOf result Stop.Write → AreSpent writes.new }
    ensures spent { IsErrOf result Stop.Write → AreSpentSince writes.old writes.new }
    ensures made { MadeSince 0 writes.old writes.new }
{
    let mut text = LineText::new();
    match own_of(line, ended) {
        Own::Help => tell(writer, writes, HELP),
        Own::Cycles => answer_cycles(&session.playing, writer, writes),
        Own::Draw => {
            let name = &line[DRAW_BYTES..];
            match put_drawn(alloc, &mut text, &session.playing, name, host) {
                Ok(()) => tell(writer, writes, text.as_bytes()),
                Err(OutOfMemory) => Err(Stop::OutOfMemory),
            }
        }
        Own::Nothing => {
            put_line_fault(alloc, &mut text, kind, session.number, line, ended);
            tell(writer, writes, text.as_bytes())
        }
    }
}

/// Makes the heap of the session.
fn begin<A: Allocator + Copy, W: io::Write>(
    alloc: A,
    session: &mut Session<A>,
    header: Header,
    line: &[u8],
    writer: &mut W,
    writes: &mut IoLog,
) -> Result<(), Stop>
    requires none_failed { writes.old.failed ≡ false }
    requires counted { IsCounted session.old }
    requires first { session.old.number ≡ 1 }
    ensures told { (text : List ℕ) × (next : SessionState)
        × IsHeapAnswer session.old header (fault_of (config_of header)) text next
        × OnOk result (session.new ≡ next)
        × WritesSome text result (W.contents writer.old) (W.contents writer.new) }
    ensures counted { OnOk result (IsCounted session.new) }
    ensures none_failed { ¬ IsErrOf result Stop.Write → writes.new.failed ≡ false }
    ensures failed { IsErrOf result Stop.Write → AreSpent writes.new }
    ensures spent { IsErrOf result Stop.Write → AreSpentSince writes.old writes.new }
    ensures made { MadeSince 0 writes.old writes.new }
{
    match Heap::new(alloc, config_of(header)) {
        Ok(heap) => {
            session.playing = Some(Playing::new(alloc, heap));
            session.number = 2;
            Ok(())
        }
        Err(HeapError::Config(fault)) => {
            let mut text = LineText::new();
            put_size_fault(alloc, &mut text, fault, line);
            tell(writer, writes, text.as_bytes())
        }
        Err(HeapError::OutOfMemory) => Err(Stop::OutOfMemory),
    }
}

/// Answers a request of a trace.
fn answer_request<A: Allocator + Copy, W: io::Write>(
    alloc: A,
    session: &mut Session<A>,
    request: &Request,
    writer: &mut W,
    writes: &mut IoLog,
) -> Result<(), Stop>
    requires none_failed { writes.old.failed ≡ false }
    requires counted { IsCounted session.old }
    requires few { session.old.number ≤ 1048576 }
    ensures told { IfSome session.old.playing (λ p.
        OnOk result (session.new ≡ session_after session.old p request.now)
        × WritesSome (answered_text (request_step p.engine request.now).1) result
        (W.contents writer.old) (W.contents writer.new)) }
    ensures counted { OnOk result (IsCounted session.new) }
    ensures none_failed { ¬ IsErrOf result Stop.Write → writes.new.failed ≡ false }
    ensures failed { IsErrOf result Stop.Write → AreSpent writes.new }
    ensures spent { IsErrOf result Stop.Write → AreSpentSince writes.old writes.new }
    ensures made { MadeSince 0 writes.old writes.new }
{
    let number = session.number;
    let mut summary = session.summary;
    let played = match session.playing {
        None => return Ok(()),
        Some(ref mut playing) => {
            playing.answer(alloc, request, number, &mut summary, writer, writes)
        }
    };
    match played {
        Ok(()) => {
            session.summary = summary;
            session.number = number + 1;
            Ok(())
        }
        Err(stop) => Err(stop),
    }
}

/// Answers a line, given without its line end. `ended` says whether it has its line end.
pub(crate) fn answer_line<A: Allocator + Copy, W: io::Write, H: Host>(
    alloc: A,
    session: &mut Session<A>,
    line: &[u8],
    ended: bool,
    writer: &mut W,
    writes: &mut IoLog,
    host: &mut H,
) -> Result<(), Stop>
    requires none_failed { writes.old.failed ≡ false }
    requires counted { IsCounted session.old }
    ensures told { (text : List ℕ) × (next : SessionState)
        × IsAnswer session.old (record { bytes = line.now; ended = ended }) text next
        × OnOk result (session.new ≡ next)
        × WritesSome text result (W.contents writer.old) (W.contents writer.new) }
    ensures counted { OnOk result (IsCounted session.new) }
    ensures none_failed { ¬ IsErrOf result Stop.Write → writes.new.failed ≡ false }
    ensures failed { IsErrOf result Stop.Write → AreSpent writes.new }
    ensures spent { IsErrOf result Stop.Write → AreSpentSince writes.old writes.new }
    ensures made { MadeSince 0 writes.old writes.new }
{
    if session.playing.is_none() {
        return match header_or_fault(line, ended) {
            Ok(header) => begin(alloc, session, header, line, writer, writes),
            Err(fault) => {
                answer_other(
                    alloc, session, fault.kind, line, ended, writer, writes, host,
                )
            }
        };
    }
    match request_or_fault(session.number, line, ended) {
        Ok(request) => answer_request(alloc, session, &request, writer, writes),
        Err(fault) => answer_other(
            alloc, session, fault.kind, line, ended, writer, writes, host,
        ),
    }
}
