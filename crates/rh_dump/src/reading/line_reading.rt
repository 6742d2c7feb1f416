//! A line of a dump, read by what is due and put into a graph.

ghost use Rattle.std.specs.Prelude.{◌≡◌, ◌≤◌, ◌+◌, ℕ, IfOk, length};
ghost use Rattle.rh_text.specs.Parts.{parts_left};
ghost use Rattle.rh_text.specs.Steps.{with_fault};
ghost use Rattle.rh_text.specs.RawLine.{raw_text};
ghost use Rattle.rh_dump.specs.Dump.{met_with};
ghost use Rattle.rh_dump.specs.texts.Line.{root_due, object_due};
ghost use Rattle.rh_dump.specs.Meeting.{IsBelow};
ghost use Rattle.rh_dump.specs.texts.Putting.{Tells, IsDue, root_in, due_read, put_read, put_values};
ghost use Rattle.rh_dump.specs.texts.Reading.{values_or_fault, version_or_fault, line_due, line_or_kind};
ghost use Rattle.rh_dump.specs.declared.reading.due.Due.TheVariants as dues;
ghost use Rattle.rh_dump.specs.declared.reading.read_error.LineError.TheVariants as errors;

use crate::graph_builder::GraphBuilder;
use crate::limits::{MAX_DUMP_BYTES, MAX_OBJECTS};
use crate::reading::due::{Due, Version};
use crate::reading::fault::DumpKind;
use crate::reading::line_parts::{
    formed_parts, objects_of_parts, root_of_parts, roots_of_parts, start_of,
};
use crate::reading::parts::field_or_fault;
use crate::reading::read_error::LineError;
use rh_layout::{RootId, Value};
use rh_text::{is_text, next_part};
use std::alloc::Allocator;

/// How many objects are met with this value, where so many were met before it.
fn met_with(met: u32, value: Value) -> u32
    requires { IsBelow MAX_OBJECTS value }
    ensures { result ≡ met_with met value }
{
    match value {
        Value::Nil => met,
        Value::Int(_) => met,
        Value::Ref(number) => { if number < met { met } else { number + 1 } }
    }
}

/// What is due where so many root lines are.
fn root_due(version: Version, left: u32, last: Option<RootId>, met: u32) -> Due
    ensures { result ≡ root_due version left last met }
{
    if left == 0 {
        return Due::Objects { version, met };
    }
    Due::Root {
        version,
        left: left - 1,
        last,
        met,
    }
}

/// What is due where the objects from this number on are.
fn object_due(version: Version, number: u32, count: u32, met: u32) -> Due
    ensures { result ≡ object_due version number count met }
{
    if number < count {
        Due::Object {
            version,
            number,
            count,
            met,
        }
    } else {
        Due::End
    }
}

/// The version that the first line names.
#[tactic(auto, unfolding(crate::specs::texts::Reading::version_or_fault))]
fn version_or_fault(line: &[u8]) -> Result<Version, DumpKind>
    ensures { result ≡ version_or_fault line.now }
{
    if is_text(line, b"rheap 1") {
        return Ok(Version::One);
    }
    if is_text(line, b"rheap 2") {
        return Ok(Version::Two);
    }
    Err(DumpKind::Header)
}

/// `rheap 1` or `rheap 2`: what is due after it.
#[tactic(auto, unfolding(crate::specs::texts::Reading::line_due))]
fn after_header(line: &[u8]) -> Result<Due, DumpKind>
    ensures { result ≡ due_read dues.Header (line_due dues.Header line.now) }
{
    let version = version_or_fault(line)?;
    Ok(Due::Roots { version })
}

/// `roots R`: what is due after it.
#[tactic(auto, unfolding(crate::specs::texts::Reading::line_due))]
fn after_roots(version: Version, line: &[u8]) -> Result<Due, DumpKind>
    ensures { result ≡ due_read (dues.Roots version) (line_due (dues.Roots version) line.now) }
{
    let parts = formed_parts(line)?;
    let count = roots_of_parts(parts)?;
    Ok(root_due(version, count, None, 0))
}

/// `objects N`, where so many objects were met: what is due after it.
#[tactic(auto, unfolding(crate::specs::texts::Reading::line_due))]
fn after_objects(version: Version, met: u32, line: &[u8]) -> Result<Due, DumpKind>
    ensures { result
        ≡ due_read (dues.Objects version met) (line_due (dues.Objects version met) line.now) }
{
    let parts = formed_parts(line)?;
    let count = objects_of_parts(met, parts)?;
    Ok(object_due(version, 0, count, met))
}

/// `end`: nothing is due after it.
#[tactic(auto, unfolding(crate::specs::texts::Reading::line_due))]
fn after_end(line: &[u8]) -> Result<Due, DumpKind>
    ensures { result ≡ due_read dues.End (line_due dues.End line.now) }
{
    if is_text(line, b"end") {
        Ok(Due::Nothing)
    } else {
        Err(DumpKind::Form)
    }
}

/// A line that puts nothing, as the reading of any line.
fn of_kind(read: Result<Due, DumpKind>) -> Result<Due, LineError>
    ensures { result ≡ with_fault errors.Kind read }
{
    Ok(read?)
}

/// A root that isn't nil, and what it holds.
#[tactic(auto, unfolding(crate::specs::texts::Putting::root_in))]
fn root_in(last: Option<RootId>, met: u32, line: &[u8]) -> Result<(RootId, Value), DumpKind>
    ensures value { result ≡ root_in last met line.now }
    ensures below { IfOk result (λ root. IsBelow MAX_OBJECTS root.1) }
{
    let parts = formed_parts(line)?;
    root_of_parts(last, met, parts)
}

/// The line of a root: puts it, and answers what is due after it.
fn read_root<A: Allocator + Copy>(
    builder: &mut GraphBuilder<A>,
    version: Version,
    left: u32,
    last: Option<RootId>,
    met: u32,
    line: &[u8],
) -> Result<Due, LineError>
    ensures { Tells (λ due. (builder.new, due)) result (put_read builder.old
        (dues.Root version left last met) (line_due (dues.Root version left last met) line.now)) }
{
    let (root, value) = root_in(last, met, line)?;
    builder.push_root(root, value)?;
    Ok(root_due(version, left, Some(root), met_with(met, value)))
}

/// Puts the values of all parts that are left of an object's line, which may be raw, where so many
/// objects are and so many were met. Answers how many are met then.
fn read_values<A: Allocator + Copy>(
    builder: &mut GraphBuilder<A>,
    raw: bool,
    count: u32,
    met_before: u32,
    rest: Option<&[u8]>,
) -> Result<u32, LineError>
    requires { count ≤ MAX_OBJECTS }
    ensures { Tells (λ met. (builder.new, met)) result (put_values builder.old met_before
        (values_or_fault raw count met_before (parts_left rest.entry))) }
{
    let mut met = met_before;
    let mut left = rest;
    while let Some((part, others)) = next_part(left) {
        let value = field_or_fault(raw, count, met, part)?;
        builder.push_value(value)?;
        met = met_with(met, value);
        left = others;
    }
    Ok(met)
}

/// The line of an object: puts it, and answers what is due after it.
fn read_object<A: Allocator + Copy>(
    builder: &mut GraphBuilder<A>,
    version: Version,
    number: u32,
    count: u32,
    met: u32,
    line: &[u8],
) -> Result<Due, LineError>
    requires met { met ≤ count }
    requires count { count ≤ MAX_OBJECTS }
    ensures { Tells (λ due. (builder.new, due)) result (put_read builder.old
        (dues.Object version number count met)
        (line_due (dues.Object version number count met) line.now)) }
{
    let (shape, values) = start_of(version, number, met, line)?;
    builder.begin_object(shape)?;
    let met = read_values(builder, shape.raw, count, met, values)?;
    Ok(object_due(version, number + 1, count, met))
}

/// A line with its line end, by what is due: puts it, and answers what is due after it.
fn read_line<A: Allocator + Copy>(
    builder: &mut GraphBuilder<A>,
    due: Due,
    line: &[u8],
) -> Result<Due, LineError>
    requires { IsDue due }
    ensures { Tells (λ next. (builder.new, next)) result
        (put_read builder.old due (line_due due line.now)) }
{
    match due {
        Due::Header => of_kind(after_header(line)),
        Due::Roots { version } => of_kind(after_roots(version, line)),
        Due::Root {
            version,
            left,
            last,
            met,
        } => read_root(builder, version, left, last, met, line),
        Due::Objects { version, met } => of_kind(after_objects(version, met, line)),
        Due::Object {
            version,
            number,
            count,
            met,
        } => read_object(builder, version, number, count, met, line),
        Due::End => of_kind(after_end(line)),
        Due::Nothing => Err(LineError::Kind(DumpKind::Trailing)),
    }
}

/// A raw line, with which the text has so many bytes: puts it, and answers what is due after it.
pub fn read_raw_line<A: Allocator + Copy>(
    builder: &mut GraphBuilder<A>,
    due: Due,
    end: usize,
    line: &[u8],
    ended: bool,
) -> Result<Due, LineError>
    requires { IsDue due }
    ensures { (size : ℕ)
        → end ≡ size + length (raw_text (record { bytes = line.now; ended = ended }))
        → Tells (λ next. (builder.new, next)) result (put_read builder.old due
        (line_or_kind MAX_DUMP_BYTES due size (record { bytes = line.now; ended = ended }))) }
{
    if end > MAX_DUMP_BYTES {
        return Err(LineError::Kind(DumpKind::Long));
    }
    if !ended {
        return Err(LineError::Kind(DumpKind::End));
    }
    read_line(builder, due, line)
}
