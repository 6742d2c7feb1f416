//! The commands that an owner gives: some make objects that live long, and others allocate, store,
//! load, copy and compare, in turn.

use rh_layout::{Command, Operand, RootId};

/// The slots of an owner.
pub const SLOTS: u32 = 3;

/// The root of the owner in this slot: 0 to 2.
fn root(owner: u32, slot: u32) -> RootId {
    RootId { owner, slot }
}

/// A new object of so many fields in a slot of owner 1.
pub fn alloc(slot: u32, fields: u32) -> Command {
    Command::Alloc {
        dst: root(1, slot),
        fields,
    }
}

/// The field of the object in the slot `from` of owner 1 refers to the object in the slot `to`.
pub fn refer(from: u32, field: u32, to: u32) -> Command {
    Command::Store {
        obj: root(1, from),
        field,
        operand: Operand::Root(root(1, to)),
    }
}

/// The command that the owner gives after so many others where nothing that it makes lives long.
pub fn passing(owner: u32, others: u32) -> Command {
    let own = root(owner, 0);
    let other = root(owner, 1);
    match others % 5 {
        0 => Command::Alloc {
            dst: own,
            fields: 2,
        },
        1 => Command::Store {
            obj: own,
            field: 0,
            operand: Operand::Int(others.into()),
        },
        2 => Command::Load {
            dst: other,
            src: own,
            field: 0,
        },
        3 => Command::Copy {
            dst: other,
            src: own,
        },
        _ => Command::Same { a: own, b: other },
    }
}
