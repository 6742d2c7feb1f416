//! A path is told, a line for each of its steps.

ghost use Rattle.std.specs.Prelude.{◌≡◌, ◌≤◌, [], false, OnOk, OnErr, length};
ghost use Rattle.std.specs.List.{flat_map};
ghost use Rattle.std.specs.Io.KnownBytes.{Appends};
ghost use Rattle.rh_text.specs.IoLog.{AreSpent};
ghost use Rattle.rh_text.specs.Output.{AppendsLess};
ghost use Rattle.rh_why.specs.Path.{holder_text, path_text, step_text, unreached_text};

use crate::holder::{Holder, Step};
use rh_text::{IoLog, LineText, Write, send};
use std::io;

/// Writes a path to the object of this number, a line for each step, from the root on: what holds the
/// reference, as a root or an object and the number of its field, and the object that it is to. Of an
/// empty path it writes that the object isn't reached. It takes no memory.
///
/// # Errors
///
/// `Write` where a write failed, or 33,554,432 writes of one line didn't come to its end. A prefix of
/// the text was written then.
pub fn write_path<W: io::Write>(
    object: u32,
    path: &[Step],
    writer: &mut W,
    writes: &mut IoLog,
) -> Result<(), Write>
    requires { writes.old.failed ≡ false }
    ensures ok { OnOk result (Appends (W.contents writer.old) (W.contents writer.new)
        (path_text object path.now)) }
    ensures err { OnErr result (AppendsLess (W.contents writer.old) (W.contents writer.new)
        (path_text object path.now)) }
    ensures failed { OnErr result (AreSpent writes.new) }
    // Where the whole text was written, no write failed.
    ensures none_failed { OnOk result (writes.new.failed ≡ false) }
{
    let mut text = LineText::new();
    if path.is_empty() {
        put_unreached(&mut text, object);
        return send(writer, writes, text.as_bytes());
    }
    write_steps(&mut text, path, writer, writes)
}

/// Writes the lines of steps.
fn write_steps<W: io::Write>(
    text: &mut LineText,
    steps: &[Step],
    writer: &mut W,
    writes: &mut IoLog,
) -> Result<(), Write>
    requires { writes.old.failed ≡ false }
    ensures ok { OnOk result (Appends (W.contents writer.old) (W.contents writer.new)
        (flat_map step_text steps.now)) }
    ensures err { OnErr result (AppendsLess (W.contents writer.old) (W.contents writer.new)
        (flat_map step_text steps.now)) }
    ensures failed { OnErr result (AreSpent writes.new) }
    ensures none_failed { OnOk result (writes.new.failed ≡ false) }
{
    for step in steps {
        put_step(text, *step);
        send(writer, writes, text.as_bytes())?;
    }
    Ok(())
}

/// The text becomes the line of an object that isn't reached.
fn put_unreached(text: &mut LineText, object: u32)
    ensures { text.new ≡ unreached_text object }
{
    text.clear();
    text.put(b"@");
    text.put_integer(object);
    text.put(b" isn't reached\n");
}

/// The text becomes the line of a step.
fn put_step(text: &mut LineText, step: Step)
    ensures { text.new ≡ step_text step }
{
    text.clear();
    put_holder(text, step.holder);
    text.put(b" @");
    text.put_integer(step.to);
    text.put(b"\n");
}

/// Puts what holds a reference at the end.
fn put_holder(text: &mut LineText, holder: Holder)
    requires { text.old ≡ [] }
    ensures value { text.new ≡ holder_text holder }
    ensures len { length text.new ≤ 64 }
{
    match holder {
        Holder::Root(root) => text.put_root(root),
        Holder::Field { object, field } => {
            text.put(b"@");
            text.put_integer(object);
            text.put(b" ");
            text.put_integer(field);
        }
    }
}
