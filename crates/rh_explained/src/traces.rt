//! Where a trace fails.

ghost use Rattle.std.specs.Prelude.{◌≡◌, ◌≢◌, Some};
ghost use Rattle.rh_explain.specs.Explain.{fault_of};
ghost use Rattle.rh_explained.specs.Line.{line_at};
ghost use Rattle.rh_explained.specs.Spot.{IsInLine, ShowsFault};
ghost use Rattle.rh_syntax.specs.declared.fault.Kind.{Kind as KindOf};

use crate::lines::{nth_line, number_at};
use crate::spot::{Spot, at_found, at_line, at_part};
use crate::told::Told;
use rh_explain::{fault_part, no_command_part};
use rh_syntax::{Kind, TraceFault};

/// How a trace is to be run.
#[derive(Clone, Copy)]
pub enum Way {
    /// With the lines of cycles.
    Plain,
    /// Commands alone, on a heap that collects by itself.
    Paced,
    /// Commands alone, in threads.
    Threads,
}

/// The spot of a trace's fault that reading or checking told.
pub fn trace_spot<'a>(text: &'a [u8], fault: TraceFault, way: Way) -> Spot<'a>
    ensures line { IsInLine fault.line (line_at fault.line text.now).bytes result }
    // Where the line isn't read, it is the part at which reading fails.
    ensures part { fault.kind ≢ Kind.Empty → (kind : KindOf)
        → fault_of fault.line (line_at fault.line text.now) ≡ Some kind
        → ShowsFault fault.line (line_at fault.line text.now) kind result }
{
    let number = fault.line;
    let (line, ended) = nth_line(text, number);
    if let Kind::Empty = fault.kind {
        return at_line(number, line, Told::NoTrace);
    }
    match fault_part(number, line, ended) {
        Some(part) => at_found(number, line, part, Told::Line(part.why)),
        None => way_spot(text, number, line, fault.kind, way),
    }
}

/// The spot of a line that a run with the lines of cycles takes, and this run doesn't.
fn way_spot<'a>(text: &'a [u8], number: u32, line: &'a [u8], kind: Kind, way: Way) -> Spot<'a>
    ensures { IsInLine number line.now result }
{
    if let Kind::Root = kind {
        let (first, _) = nth_line(text, 1);
        return at_part(number, line, 0, Told::NoOwner(number_at(first, 4)));
    }
    let part = no_command_part(line);
    let told = match way {
        Way::Plain => Told::Line(part.why),
        Way::Paced => Told::NotPaced(number),
        Way::Threads => Told::NotThreaded(number),
    };
    at_found(number, line, part, told)
}
