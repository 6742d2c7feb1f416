//! The sentences that say what is wrong at a place of a text.

use crate::due::Due;
use rh_explain::{Expected, Why};
use std::fmt;

/// What is wrong at a place of a text, and what may stand there. Each text is one sentence.
#[derive(Clone, Copy)]
pub enum Told {
    /// What is wrong with a line of a trace, or with a line's bytes.
    Line(Why),
    /// A trace without a byte.
    NoTrace,
    /// A line of a paced run that is no command.
    NotPaced(u32),
    /// A line of a run in threads that is no command.
    NotThreaded(u32),
    /// An owner that the heap hasn't.
    NoOwner(u32),
    /// The words of a space are out of range.
    Space,
    /// The ratio is out of range.
    Ratio,
    /// The entries of the log are out of range.
    Log,
    /// The owners are out of range.
    Owners,
    /// The slots are out of range.
    Slots,
    /// The greatest number or epoch of a heap is out of range, which no trace asks for.
    Numbers,
    /// A picture is asked for after a line that isn't there: its number, and how many there are.
    BeyondLines(u32, u32),
    /// The ratio is too low for a pace.
    LowRatio,
    /// The words are too few for a pace.
    FewWords(u64),
    /// The most words of a growing heap are fewer than those that it begins with, or too many.
    Limits(u32),
    /// A history without a byte.
    NoHistory,
    /// The first line of a history is that of a trace.
    Trace,
    /// The first line of a history is another.
    HistoryHeader,
    /// A line after the last one.
    AfterEnd,
    /// A line of a history that is no call.
    NoCall,
    /// Nothing stands before `=`.
    NoCommand,
    /// No keyword is this word or near it, at the beginning of a call, after so many calls.
    UnknownCall(u32),
    /// A part of a command is missing before `=`, in a line of this row.
    CommandShort(Expected, &'static str),
    /// A part stands after a command where `=` is due.
    CommandLong,
    /// No answer stands after a command.
    NoAnswer,
    /// What stands after `=` is no answer of a history.
    NotAnswer,
    /// What stands after `=` is an answer that is left out of histories.
    LimitRefused,
    /// A last line without one number.
    EndForm(u32),
    /// A last line with another number.
    Count(u32),
    /// A history without its last line.
    NoEnd(u32),
    /// A dump of too many bytes.
    LongDump,
    /// The first line of a dump is another.
    DumpHeader,
    /// A line of a dump is missing.
    Missing(Due),
    /// The last line of a dump is missing.
    NoDumpEnd,
    /// A line of a dump of another form.
    Form(Due),
    /// Another line where a root's is due, of which there are so many.
    RootDue(u32),
    /// Another line after the last root, where there are so many.
    ObjectsDue(u32),
    /// Another line where that of the object of the first number is due, where there are so many as
    /// the second.
    ObjectDue(u32, u32),
    /// Another line after the last object, where there are so many.
    EndDue(u32),
    /// A raw object in a dump of version 1.
    RawInVersion1,
    /// A dump's root that is nil.
    NilRoot,
    /// A line of an object with another number of values than it says.
    Values(u32),
    /// A number of a dump that is none, or is above so many.
    NumberUpTo(u32),
    /// A dump's root that is none.
    Root,
    /// The number of an object that is none.
    ObjectNumber,
    /// A value that is none.
    Value,
    /// The value of a root that is none.
    RootValue,
    /// A raw object's value that is none.
    RawValue,
    /// A root that doesn't stand after those before it.
    RootOrder,
    /// An object whose number isn't the next.
    ObjectOrder(u32),
    /// A reference that passes over a number.
    Order(u32),
    /// Fewer objects than the roots refer to.
    FewObjects(u32),
    /// An object that nothing above refers to.
    Unmet,
    /// A reference to an object that isn't there.
    NoObject(u32),
    /// What is wrong with a program, in a sentence.
    Program(&'static str),
}

impl fmt::Display for Told {
    fn fmt<W: fmt::Write>(&self, f: &mut fmt::Formatter<W>) -> fmt::Result {
        match *self {
            Told::Line(why) => write!(f, "{why}"),
            Told::Program(sentence) => f.write_str(sentence),
            Told::CommandShort(part, row) => write!(f, "{part} is missing: {row} = ANSWER"),
            Told::Missing(due) => write!(f, "the text ends too early: the line {due} is missing"),
            Told::Form(due) => write!(f, "another line is due here: {due}"),
            Told::UnknownCall(calls) => write!(
                f,
                "no such command: a call has an owner first, and the last line is end {calls}"
            ),
            Told::EndForm(calls) => write!(
                f,
                "the last line is end N: N is the number of the calls, {calls}"
            ),
            Told::Count(calls) => write!(
                f,
                "end has another number than that of the calls: {calls}"
            ),
            Told::NoEnd(calls) => write!(
                f,
                "the last line is missing: end {calls}, with the number of the calls"
            ),
            told => told.put_of_trace(f),
        }
    }
}

impl Told {
    /// Puts a sentence of a trace that names a number, or else another.
    fn put_of_trace<W: fmt::Write>(self, f: &mut fmt::Formatter<W>) -> fmt::Result {
        match self {
            Told::NotPaced(line) => write!(
                f,
                "line {line} is no command: only commands stand with --paced; without --paced it \
                 runs"
            ),
            Told::NotThreaded(line) => write!(
                f,
                "line {line} is no command: only commands run in threads; rheap run takes this line"
            ),
            Told::NoOwner(owners) => write!(
                f,
                "OWNERS is {owners} in the first line, and they count from 0: a lower owner is due \
                 here"
            ),
            Told::BeyondLines(line, lines) => write!(
                f,
                "--line {line} is too great: the trace has {lines} lines"
            ),
            Told::FewWords(least) => write!(
                f,
                "WORDS is too small for a pace that keeps up: at least {least} are needed"
            ),
            Told::Limits(most) => write!(
                f,
                "--grow {most} is out of its range: from these WORDS to 16777216"
            ),
            told => told.put_of_dump(f),
        }
    }

    /// Puts a sentence of a dump that names a number, or else one that is always the same.
    fn put_of_dump<W: fmt::Write>(self, f: &mut fmt::Formatter<W>) -> fmt::Result {
        match self {
            Told::RootDue(roots) => write!(
                f,
                "a root is due here, OWNER.SLOT VALUE: the line roots says {roots}"
            ),
            Told::ObjectsDue(roots) => write!(
                f,
                "objects N is due here: the line roots says {roots}"
            ),
            Told::ObjectDue(object, objects) => write!(
                f,
                "an object is due here, @{object}: the line objects says {objects}"
            ),
            Told::EndDue(objects) => write!(f, "end is due here: the line objects says {objects}"),
            Told::Values(fields) => write!(
                f,
                "the object has {fields} fields: as many values follow"
            ),
            Told::NumberUpTo(most) => write!(
                f,
                "a number is due here: 0 to {most}, without a leading zero"
            ),
            Told::ObjectOrder(object) => write!(
                f,
                "objects stand in order of their numbers: the next is @{object}"
            ),
            Told::Order(object) => write!(
                f,
                "objects are numbered as they are met: the next that is met is @{object}"
            ),
            Told::FewObjects(objects) => write!(
                f,
                "the roots refer to {objects} objects: at least as many are due"
            ),
            Told::NoObject(objects) => write!(
                f,
                "the dump has {objects} objects: references are to those below @{objects}"
            ),
            told => f.write_str(told.sentence()),
        }
    }

    /// The sentence of a trace or a history that is always the same, or else another's.
    fn sentence(self) -> &'static str {
        match self {
            Told::NoTrace => {
                "the file has no byte: a trace begins with heap WORDS RATIO LOG OWNERS SLOTS"
            }
            Told::Space => "WORDS is out of its range: 8 to 16777216",
            Told::Ratio => "RATIO is out of its range: 1 to 64",
            Told::Log => "LOG is out of its range: 1 to 1048576",
            Told::Owners => "OWNERS is out of its range: 1 to 16",
            Told::Slots => "SLOTS is out of its range: 1 to 256",
            Told::Numbers => "the numbers of this heap are out of their range",
            Told::LowRatio => "RATIO is too low for a pace that keeps up: at least 4 is needed",
            Told::NoHistory => "the file has no byte: a history begins with history OWNERS SLOTS",
            Told::Trace => "this is a trace: rheap run reads it",
            Told::HistoryHeader => "the first line is history OWNERS SLOTS",
            Told::AfterEnd => "a line after the last one, end",
            Told::NoCall => {
                "only commands have answers: alloc, raw, load, store, copy, same and drop"
            }
            Told::NoCommand => "a command is missing before =, as in 1 drop 1.0 = done",
            Told::CommandLong => "a part too many: = and the answer follow the command",
            Told::NoAnswer => {
                "an answer is missing: = and the answer follow the command, as in 1 drop 1.0 = done"
            }
            Told::NotAnswer => {
                "an answer is due here: done, nil, int N, object K, raw K, same yes, same no or \
                 refused NAME, NAME one of NoRoot, NotYours, NotObject, NoField, RawField, \
                 IntRange, FieldsRange"
            }
            Told::LimitRefused => {
                "a call that a limit refused stands in no history: leave this line out"
            }
            told => told.dump_sentence(),
        }
    }

    /// The sentence of a dump that is always the same, and else nothing.
    fn dump_sentence(self) -> &'static str {
        match self {
            Told::LongDump => "a dump has at most 268435456 bytes",
            Told::DumpHeader => "the first line is rheap 2",
            Told::NoDumpEnd =>
                "the text ends too early: its last line is missing, which is just end",
            Told::RawInVersion1 => "no object is raw in version 1: the first line is rheap 2 then",
            Told::NilRoot => "a root that is nil has no line in a dump",
            Told::Root => "a root is due here: OWNER.SLOT, owners 0 to 15 and slots 0 to 255",
            Told::ObjectNumber => "the object's number is due here: @K, K is 0 to 16777215",
            Told::Value => {
                "a value is due here: nil, -2^61 to 2^61 - 1, or @K with K from 0 to 16777215"
            }
            Told::RootValue => {
                "a root's value is due here: -2^61 to 2^61 - 1, or @K with K from 0 to 16777215"
            }
            Told::RawValue => {
                "a raw object holds nil and whole numbers alone, from -2^61 to 2^61 - 1"
            }
            Told::RootOrder => {
                "roots stand in order of owner, then slot: a later root than the one before is due"
            }
            Told::Unmet => "nothing above refers to this object",
            _ => "",
        }
    }
}
