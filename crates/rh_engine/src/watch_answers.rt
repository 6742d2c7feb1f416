//! The texts of the answers to the lines of watches: without line ends, but that of `gone`.

ghost use Rattle.std.specs.Prelude.{◌≡◌, ◌≤◌, [], ◌∷◌, ◌++◌, length, IfOk};
ghost use Rattle.rh_engine.specs.WatchAnswers.{gone_text, tickets_text, unwatch_text, watch_text};

use crate::engine::TicketsRefusal;
use rh_core::WatchError;
use rh_layout::OutOfMemory;
use rh_text::LineText;
use std::alloc::Allocator;

/// The text becomes that of the answer to `tickets`.
pub fn put_tickets(text: &mut LineText, answer: Result<u32, TicketsRefusal>)
    ensures value { text.new ≡ tickets_text answer }
    ensures len { length text.new ≤ 100 }
{
    text.clear();
    match answer {
        Ok(tickets) => text.put_part(b"tickets ", tickets),
        Err(TicketsRefusal::Fewer(now)) => text.put_part(b"refused Fewer ", now),
        Err(TicketsRefusal::TooMany) => text.put(b"refused TooMany"),
    }
}

/// The text becomes that of the answer to `watch`.
pub fn put_watch(text: &mut LineText, answer: Result<u32, WatchError>)
    ensures value { text.new ≡ watch_text answer }
    ensures len { length text.new ≤ 100 }
{
    text.clear();
    match answer {
        Ok(ticket) => text.put_part(b"ticket ", ticket),
        Err(WatchError::NoRoot) => text.put(b"refused NoRoot"),
        Err(WatchError::NotYours) => text.put(b"refused NotYours"),
        Err(WatchError::NotObject) => text.put(b"refused NotObject"),
        Err(WatchError::Full) => text.put(b"refused Full"),
    }
}

/// The text becomes that of the answer to `unwatch`.
pub fn put_unwatch(text: &mut LineText, watched: bool)
    ensures value { text.new ≡ unwatch_text watched }
    ensures len { length text.new ≤ 100 }
{
    text.clear();
    if watched {
        text.put(b"unwatched yes");
    } else {
        text.put(b"unwatched no");
    }
}

/// The line of the answer to `gone`, with its line end: these tickets, however many they are.
///
/// # Errors
///
/// `OutOfMemory` where memory for the line was refused.
pub fn gone_line<A: Allocator + Copy>(alloc: A, tickets: &[u32]) -> Result<Vec<u8, A>, OutOfMemory>
    ensures { IfOk result (λ line. line.items ≡ gone_text tickets.now ++ 10 ∷ []) }
{
    let mut line = Vec::new(alloc);
    line.extend_from_slice(b"gone")?;
    if tickets.is_empty() {
        line.extend_from_slice(b" none")?;
    }
    let mut part = LineText::new();
    for ticket in tickets {
        part.clear();
        part.put_next_number(*ticket);
        line.extend_from_slice(part.as_bytes())?;
    }
    line.push(b'\n')?;
    Ok(line)
}
