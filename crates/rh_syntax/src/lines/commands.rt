//! The lines of commands (`1 alloc 1.0 2` and so on), each keyword's reading and writing side by
//! side.

ghost use Rattle.std.specs.Prelude.{◌≡◌, ◌≤◌, length};
ghost use Rattle.rh_layout.specs.declared.command.Command.TheVariants.{Alloc, Raw, Load, Store, Copy, Same, Drop};
ghost use Rattle.rh_text.specs.Parts.{parts_left};
ghost use Rattle.rh_syntax.specs.Reading.{read_alloc, read_raw, read_load, read_store, read_copy, read_same, read_drop, command_or_fault, owned_command};
ghost use Rattle.rh_syntax.specs.Spelling.{command_text};

use crate::fault::Kind;
use crate::values::{number_or_fault, operand_or_fault, put_operand, root_or_fault};
use rh_layout::{Command, Operand, RootId};
use rh_text::{LineText, begins_with_digit, is_text, next_part, one_part, three_parts, two_parts};

/// `OWNER alloc ROOT FIELDS`, from the owner and what stands after the keyword.
#[tactic(auto, unfolding(crate::specs::Reading::read_alloc))]
fn read_alloc(owner: &[u8], rest: Option<&[u8]>) -> Result<(u32, Command), Kind>
    ensures { result ≡ read_alloc owner.now (parts_left rest.entry) }
{
    let Some((dst, fields)) = two_parts(rest) else {
        return Err(Kind::Form);
    };
    let owner = number_or_fault(owner)?;
    let dst = root_or_fault(dst)?;
    let fields = number_or_fault(fields)?;
    Ok((owner, Command::Alloc { dst, fields }))
}

/// The text becomes that of an `alloc` line.
fn put_alloc(text: &mut LineText, owner: u32, dst: RootId, fields: u32)
    ensures value { text.new ≡ command_text owner (Alloc dst fields) }
    ensures len { length text.new ≤ 100 }
{
    text.clear();
    text.put_integer(owner);
    text.put(b" alloc ");
    text.put_root(dst);
    text.put(b" ");
    text.put_integer(fields);
}

/// `OWNER raw ROOT FIELDS`, from the owner and what stands after the keyword.
#[tactic(auto, unfolding(crate::specs::Reading::read_raw))]
fn read_raw(owner: &[u8], rest: Option<&[u8]>) -> Result<(u32, Command), Kind>
    ensures { result ≡ read_raw owner.now (parts_left rest.entry) }
{
    let Some((dst, fields)) = two_parts(rest) else {
        return Err(Kind::Form);
    };
    let owner = number_or_fault(owner)?;
    let dst = root_or_fault(dst)?;
    let fields = number_or_fault(fields)?;
    Ok((owner, Command::Raw { dst, fields }))
}

/// The text becomes that of a `raw` line.
fn put_raw(text: &mut LineText, owner: u32, dst: RootId, fields: u32)
    ensures value { text.new ≡ command_text owner (Raw dst fields) }
    ensures len { length text.new ≤ 100 }
{
    text.clear();
    text.put_integer(owner);
    text.put(b" raw ");
    text.put_root(dst);
    text.put(b" ");
    text.put_integer(fields);
}

/// `OWNER load DST SRC FIELD`, from the owner and what stands after the keyword.
#[tactic(auto, unfolding(crate::specs::Reading::read_load))]
fn read_load(owner: &[u8], rest: Option<&[u8]>) -> Result<(u32, Command), Kind>
    ensures { result ≡ read_load owner.now (parts_left rest.entry) }
{
    let Some((dst, src, field)) = three_parts(rest) else {
        return Err(Kind::Form);
    };
    let owner = number_or_fault(owner)?;
    let dst = root_or_fault(dst)?;
    let src = root_or_fault(src)?;
    let field = number_or_fault(field)?;
    Ok((owner, Command::Load { dst, src, field }))
}

/// The text becomes that of a `load` line.
fn put_load(text: &mut LineText, owner: u32, dst: RootId, src: RootId, field: u32)
    ensures value { text.new ≡ command_text owner (Load dst src field) }
    ensures len { length text.new ≤ 100 }
{
    text.clear();
    text.put_integer(owner);
    text.put(b" load ");
    text.put_root(dst);
    text.put(b" ");
    text.put_root(src);
    text.put(b" ");
    text.put_integer(field);
}

/// `OWNER store OBJ FIELD OPERAND`, from the owner and what stands after the keyword.
#[tactic(auto, unfolding(crate::specs::Reading::read_store))]
fn read_store(owner: &[u8], rest: Option<&[u8]>) -> Result<(u32, Command), Kind>
    ensures { result ≡ read_store owner.now (parts_left rest.entry) }
{
    let Some((obj, field, operand)) = three_parts(rest) else {
        return Err(Kind::Form);
    };
    let owner = number_or_fault(owner)?;
    let obj = root_or_fault(obj)?;
    let field = number_or_fault(field)?;
    let operand = operand_or_fault(operand)?;
    let command = Command::Store {
        obj,
        field,
        operand,
    };
    Ok((owner, command))
}

/// The text becomes that of a `store` line.
fn put_store(text: &mut LineText, owner: u32, obj: RootId, field: u32, operand: Operand)
    ensures value { text.new ≡ command_text owner (Store obj field operand) }
    ensures len { length text.new ≤ 100 }
{
    text.clear();
    text.put_integer(owner);
    text.put(b" store ");
    text.put_root(obj);
    text.put(b" ");
    text.put_integer(field);
    text.put(b" ");
    put_operand(text, operand);
}

/// `OWNER copy DST SRC`, from the owner and what stands after the keyword.
#[tactic(auto, unfolding(crate::specs::Reading::read_copy))]
fn read_copy(owner: &[u8], rest: Option<&[u8]>) -> Result<(u32, Command), Kind>
    ensures { result ≡ read_copy owner.now (parts_left rest.entry) }
{
    let Some((dst, src)) = two_parts(rest) else {
        return Err(Kind::Form);
    };
    let owner = number_or_fault(owner)?;
    let dst = root_or_fault(dst)?;
    let src = root_or_fault(src)?;
    Ok((owner, Command::Copy { dst, src }))
}

/// The text becomes that of a `copy` line.
fn put_copy(text: &mut LineText, owner: u32, dst: RootId, src: RootId)
    ensures value { text.new ≡ command_text owner (Copy dst src) }
    ensures len { length text.new ≤ 100 }
{
    text.clear();
    text.put_integer(owner);
    text.put(b" copy ");
    text.put_root(dst);
    text.put(b" ");
    text.put_root(src);
}

/// `OWNER same A B`, from the owner and what stands after the keyword.
#[tactic(auto, unfolding(crate::specs::Reading::read_same))]
fn read_same(owner: &[u8], rest: Option<&[u8]>) -> Result<(u32, Command), Kind>
    ensures { result ≡ read_same owner.now (parts_left rest.entry) }
{
    let Some((a, b)) = two_parts(rest) else {
        return Err(Kind::Form);
    };
    let owner = number_or_fault(owner)?;
    let a = root_or_fault(a)?;
    let b = root_or_fault(b)?;
    Ok((owner, Command::Same { a, b }))
}

/// The text becomes that of a `same` line.
fn put_same(text: &mut LineText, owner: u32, a: RootId, b: RootId)
    ensures value { text.new ≡ command_text owner (Same a b) }
    ensures len { length text.new ≤ 100 }
{
    text.clear();
    text.put_integer(owner);
    text.put(b" same ");
    text.put_root(a);
    text.put(b" ");
    text.put_root(b);
}

/// `OWNER drop ROOT`, from the owner and what stands after the keyword.
#[tactic(auto, unfolding(crate::specs::Reading::read_drop))]
fn read_drop(owner: &[u8], rest: Option<&[u8]>) -> Result<(u32, Command), Kind>
    ensures { result ≡ read_drop owner.now (parts_left rest.entry) }
{
    let Some(root) = one_part(rest) else {
        return Err(Kind::Form);
    };
    let owner = number_or_fault(owner)?;
    let root = root_or_fault(root)?;
    Ok((owner, Command::Drop { root }))
}

/// The text becomes that of a `drop` line.
fn put_drop(text: &mut LineText, owner: u32, root: RootId)
    ensures value { text.new ≡ command_text owner (Drop root) }
    ensures len { length text.new ≤ 100 }
{
    text.clear();
    text.put_integer(owner);
    text.put(b" drop ");
    text.put_root(root);
}

/// A line that begins with an owner, by the keyword after it.
#[tactic(auto, unfolding(crate::specs::Reading::command_or_fault))]
pub(crate) fn command_or_fault(owner: &[u8], rest: Option<&[u8]>) -> Result<(u32, Command), Kind>
    ensures { result ≡ command_or_fault owner.now (parts_left rest.entry) }
{
    let Some((keyword, rest)) = next_part(rest) else {
        return Err(Kind::Form);
    };
    if is_text(keyword, b"alloc") {
        return read_alloc(owner, rest);
    }
    if is_text(keyword, b"raw") {
        return read_raw(owner, rest);
    }
    if is_text(keyword, b"load") {
        return read_load(owner, rest);
    }
    if is_text(keyword, b"store") {
        return read_store(owner, rest);
    }
    if is_text(keyword, b"copy") {
        return read_copy(owner, rest);
    }
    if is_text(keyword, b"same") {
        return read_same(owner, rest);
    }
    if is_text(keyword, b"drop") {
        return read_drop(owner, rest);
    }
    Err(Kind::Word)
}

/// The owner and the command of the parts that are left of a line.
///
/// # Errors
///
/// The first of these that holds: `Form` for no part, or for an owner alone; `Word` where no owner
/// begins the line, or no command has the keyword; `Form` for a wrong number of parts; from left to
/// right, `Number` or `Root` for a part that should be one.
#[tactic(auto, unfolding(crate::specs::Reading::owned_command))]
pub fn owned_command(rest: Option<&[u8]>) -> Result<(u32, Command), Kind>
    ensures { result ≡ owned_command (parts_left rest.entry) }
{
    let Some((first, rest)) = next_part(rest) else {
        return Err(Kind::Form);
    };
    if begins_with_digit(first) {
        command_or_fault(first, rest)
    } else {
        Err(Kind::Word)
    }
}

/// The text becomes that of an owner's command, without a line end.
pub fn put_command_text(text: &mut LineText, owner: u32, command: &Command)
    ensures value { text.new ≡ command_text owner command.now }
    ensures len { length text.new ≤ 100 }
{
    match *command {
        Command::Alloc { dst, fields } => put_alloc(text, owner, dst, fields),
        Command::Raw { dst, fields } => put_raw(text, owner, dst, fields),
        Command::Load { dst, src, field } => put_load(text, owner, dst, src, field),
        Command::Store {
            obj,
            field,
            operand,
        } => put_store(text, owner, obj, field, operand),
        Command::Copy { dst, src } => put_copy(text, owner, dst, src),
        Command::Same { a, b } => put_same(text, owner, a, b),
        Command::Drop { root } => put_drop(text, owner, root),
    }
}
