//! Code of the register machine, compiled by hand. Functions lend it, so that no proof of a test
//! writes it out.

use rh_code::{Index, Instruction, Number, Operation, Register, Relation, Source, When};

/// The function `tak` of 14, 9 and 5. A frame has its three numbers and two results, a
/// continuation that before it, its frame and where the code goes on. The last call is a jump.
pub fn tak<'a>() -> &'a [Instruction] {
    TAK
}

/// Counts to 20,000, with a new frame for each turn.
pub fn count<'a>() -> &'a [Instruction] {
    COUNT
}

/// Makes a list that has no end.
pub fn list<'a>() -> &'a [Instruction] {
    LIST
}

/// Turns the digits of 9,041 round, by the instructions that name a number, and adds what the
/// number in a field, 27, is above 20.
pub fn digits<'a>() -> &'a [Instruction] {
    DIGITS
}

const TAK: &[Instruction] = &[
    Instruction::Number {
        dst: Number::N1,
        value: 14,
    },
    Instruction::Number {
        dst: Number::N2,
        value: 9,
    },
    Instruction::Number {
        dst: Number::N3,
        value: 5,
    },
    Instruction::Number {
        dst: Number::N4,
        value: 1,
    },
    Instruction::Alloc {
        dst: Register::Args,
        fields: Index::At(5),
    },
    Instruction::Store {
        obj: Register::Args,
        field: Index::At(0),
        value: Source::Number(Number::N1),
    },
    Instruction::Store {
        obj: Register::Args,
        field: Index::At(1),
        value: Source::Number(Number::N2),
    },
    Instruction::Store {
        obj: Register::Args,
        field: Index::At(2),
        value: Source::Number(Number::N3),
    },
    Instruction::Alloc {
        dst: Register::A,
        fields: Index::At(3),
    },
    Instruction::Store {
        obj: Register::A,
        field: Index::At(0),
        value: Source::Register(Register::Cont),
    },
    Instruction::Store {
        obj: Register::A,
        field: Index::At(1),
        value: Source::Register(Register::Env),
    },
    Instruction::Number {
        dst: Number::N7,
        value: 16,
    },
    Instruction::Store {
        obj: Register::A,
        field: Index::At(2),
        value: Source::Number(Number::N7),
    },
    Instruction::Copy {
        dst: Register::Cont,
        src: Register::A,
    },
    Instruction::Copy {
        dst: Register::Env,
        src: Register::Args,
    },
    Instruction::Jump {
        when: When::Always,
        to: 18,
    },
    Instruction::Put { number: Number::N6 },
    Instruction::Halt,
    Instruction::Load {
        dst: Register::Val,
        src: Register::Env,
        field: Index::At(1),
    },
    Instruction::Compute {
        operation: Operation::Add,
        dst: Number::N1,
        a: Number::N0,
        b: Number::N5,
    },
    Instruction::Load {
        dst: Register::Val,
        src: Register::Env,
        field: Index::At(0),
    },
    Instruction::Compare {
        relation: Relation::Less,
        a: Number::N1,
        b: Number::N0,
    },
    Instruction::Jump {
        when: When::Set,
        to: 30,
    },
    Instruction::Load {
        dst: Register::Val,
        src: Register::Env,
        field: Index::At(2),
    },
    Instruction::Compute {
        operation: Operation::Add,
        dst: Number::N6,
        a: Number::N0,
        b: Number::N5,
    },
    Instruction::Load {
        dst: Register::Val,
        src: Register::Cont,
        field: Index::At(2),
    },
    Instruction::Compute {
        operation: Operation::Add,
        dst: Number::N7,
        a: Number::N0,
        b: Number::N5,
    },
    Instruction::Load {
        dst: Register::Env,
        src: Register::Cont,
        field: Index::At(1),
    },
    Instruction::Load {
        dst: Register::Cont,
        src: Register::Cont,
        field: Index::At(0),
    },
    Instruction::JumpBy { number: Number::N7 },
    Instruction::Alloc {
        dst: Register::Args,
        fields: Index::At(5),
    },
    Instruction::Load {
        dst: Register::Val,
        src: Register::Env,
        field: Index::At(0),
    },
    Instruction::Compute {
        operation: Operation::Sub,
        dst: Number::N1,
        a: Number::N0,
        b: Number::N4,
    },
    Instruction::Store {
        obj: Register::Args,
        field: Index::At(0),
        value: Source::Number(Number::N1),
    },
    Instruction::Load {
        dst: Register::Val,
        src: Register::Env,
        field: Index::At(1),
    },
    Instruction::Store {
        obj: Register::Args,
        field: Index::At(1),
        value: Source::Register(Register::Val),
    },
    Instruction::Load {
        dst: Register::Val,
        src: Register::Env,
        field: Index::At(2),
    },
    Instruction::Store {
        obj: Register::Args,
        field: Index::At(2),
        value: Source::Register(Register::Val),
    },
    Instruction::Alloc {
        dst: Register::A,
        fields: Index::At(3),
    },
    Instruction::Store {
        obj: Register::A,
        field: Index::At(0),
        value: Source::Register(Register::Cont),
    },
    Instruction::Store {
        obj: Register::A,
        field: Index::At(1),
        value: Source::Register(Register::Env),
    },
    Instruction::Number {
        dst: Number::N7,
        value: 46,
    },
    Instruction::Store {
        obj: Register::A,
        field: Index::At(2),
        value: Source::Number(Number::N7),
    },
    Instruction::Copy {
        dst: Register::Cont,
        src: Register::A,
    },
    Instruction::Copy {
        dst: Register::Env,
        src: Register::Args,
    },
    Instruction::Jump {
        when: When::Always,
        to: 18,
    },
    Instruction::Store {
        obj: Register::Env,
        field: Index::At(3),
        value: Source::Number(Number::N6),
    },
    Instruction::Alloc {
        dst: Register::Args,
        fields: Index::At(5),
    },
    Instruction::Load {
        dst: Register::Val,
        src: Register::Env,
        field: Index::At(1),
    },
    Instruction::Compute {
        operation: Operation::Sub,
        dst: Number::N1,
        a: Number::N0,
        b: Number::N4,
    },
    Instruction::Store {
        obj: Register::Args,
        field: Index::At(0),
        value: Source::Number(Number::N1),
    },
    Instruction::Load {
        dst: Register::Val,
        src: Register::Env,
        field: Index::At(2),
    },
    Instruction::Store {
        obj: Register::Args,
        field: Index::At(1),
        value: Source::Register(Register::Val),
    },
    Instruction::Load {
        dst: Register::Val,
        src: Register::Env,
        field: Index::At(0),
    },
    Instruction::Store {
        obj: Register::Args,
        field: Index::At(2),
        value: Source::Register(Register::Val),
    },
    Instruction::Alloc {
        dst: Register::A,
        fields: Index::At(3),
    },
    Instruction::Store {
        obj: Register::A,
        field: Index::At(0),
        value: Source::Register(Register::Cont),
    },
    Instruction::Store {
        obj: Register::A,
        field: Index::At(1),
        value: Source::Register(Register::Env),
    },
    Instruction::Number {
        dst: Number::N7,
        value: 63,
    },
    Instruction::Store {
        obj: Register::A,
        field: Index::At(2),
        value: Source::Number(Number::N7),
    },
    Instruction::Copy {
        dst: Register::Cont,
        src: Register::A,
    },
    Instruction::Copy {
        dst: Register::Env,
        src: Register::Args,
    },
    Instruction::Jump {
        when: When::Always,
        to: 18,
    },
    Instruction::Store {
        obj: Register::Env,
        field: Index::At(4),
        value: Source::Number(Number::N6),
    },
    Instruction::Alloc {
        dst: Register::Args,
        fields: Index::At(5),
    },
    Instruction::Load {
        dst: Register::Val,
        src: Register::Env,
        field: Index::At(2),
    },
    Instruction::Compute {
        operation: Operation::Sub,
        dst: Number::N1,
        a: Number::N0,
        b: Number::N4,
    },
    Instruction::Store {
        obj: Register::Args,
        field: Index::At(0),
        value: Source::Number(Number::N1),
    },
    Instruction::Load {
        dst: Register::Val,
        src: Register::Env,
        field: Index::At(0),
    },
    Instruction::Store {
        obj: Register::Args,
        field: Index::At(1),
        value: Source::Register(Register::Val),
    },
    Instruction::Load {
        dst: Register::Val,
        src: Register::Env,
        field: Index::At(1),
    },
    Instruction::Store {
        obj: Register::Args,
        field: Index::At(2),
        value: Source::Register(Register::Val),
    },
    Instruction::Alloc {
        dst: Register::A,
        fields: Index::At(3),
    },
    Instruction::Store {
        obj: Register::A,
        field: Index::At(0),
        value: Source::Register(Register::Cont),
    },
    Instruction::Store {
        obj: Register::A,
        field: Index::At(1),
        value: Source::Register(Register::Env),
    },
    Instruction::Number {
        dst: Number::N7,
        value: 80,
    },
    Instruction::Store {
        obj: Register::A,
        field: Index::At(2),
        value: Source::Number(Number::N7),
    },
    Instruction::Copy {
        dst: Register::Cont,
        src: Register::A,
    },
    Instruction::Copy {
        dst: Register::Env,
        src: Register::Args,
    },
    Instruction::Jump {
        when: When::Always,
        to: 18,
    },
    Instruction::Alloc {
        dst: Register::Args,
        fields: Index::At(5),
    },
    Instruction::Load {
        dst: Register::Val,
        src: Register::Env,
        field: Index::At(3),
    },
    Instruction::Store {
        obj: Register::Args,
        field: Index::At(0),
        value: Source::Register(Register::Val),
    },
    Instruction::Load {
        dst: Register::Val,
        src: Register::Env,
        field: Index::At(4),
    },
    Instruction::Store {
        obj: Register::Args,
        field: Index::At(1),
        value: Source::Register(Register::Val),
    },
    Instruction::Store {
        obj: Register::Args,
        field: Index::At(2),
        value: Source::Number(Number::N6),
    },
    Instruction::Copy {
        dst: Register::Env,
        src: Register::Args,
    },
    Instruction::Jump {
        when: When::Always,
        to: 18,
    },
];

const COUNT: &[Instruction] = &[
    Instruction::Number {
        dst: Number::N2,
        value: 20_000,
    },
    Instruction::Number {
        dst: Number::N4,
        value: 1,
    },
    Instruction::Alloc {
        dst: Register::Env,
        fields: Index::At(1),
    },
    Instruction::Store {
        obj: Register::Env,
        field: Index::At(0),
        value: Source::Number(Number::N5),
    },
    Instruction::Load {
        dst: Register::Val,
        src: Register::Env,
        field: Index::At(0),
    },
    Instruction::Compare {
        relation: Relation::Less,
        a: Number::N0,
        b: Number::N2,
    },
    Instruction::Jump {
        when: When::Unset,
        to: 12,
    },
    Instruction::Compute {
        operation: Operation::Add,
        dst: Number::N1,
        a: Number::N0,
        b: Number::N4,
    },
    Instruction::Alloc {
        dst: Register::Args,
        fields: Index::At(1),
    },
    Instruction::Store {
        obj: Register::Args,
        field: Index::At(0),
        value: Source::Number(Number::N1),
    },
    Instruction::Copy {
        dst: Register::Env,
        src: Register::Args,
    },
    Instruction::Jump {
        when: When::Always,
        to: 4,
    },
    Instruction::Put { number: Number::N0 },
    Instruction::Halt,
];

const LIST: &[Instruction] = &[
    Instruction::Number {
        dst: Number::N4,
        value: 1,
    },
    Instruction::Compute {
        operation: Operation::Add,
        dst: Number::N1,
        a: Number::N1,
        b: Number::N4,
    },
    Instruction::Alloc {
        dst: Register::A,
        fields: Index::At(2),
    },
    Instruction::Store {
        obj: Register::A,
        field: Index::At(0),
        value: Source::Number(Number::N1),
    },
    Instruction::Store {
        obj: Register::A,
        field: Index::At(1),
        value: Source::Register(Register::Val),
    },
    Instruction::Copy {
        dst: Register::Val,
        src: Register::A,
    },
    Instruction::Jump {
        when: When::Always,
        to: 1,
    },
];

const DIGITS: &[Instruction] = &[
    Instruction::Number {
        dst: Number::N0,
        value: 9_041,
    },
    Instruction::Divide {
        quotient: Number::N0,
        rest: Number::N1,
        a: Number::N0,
        divisor: 10,
    },
    Instruction::ComputeWith {
        operation: Operation::Mul,
        dst: Number::N2,
        a: Number::N2,
        value: 10,
    },
    Instruction::Compute {
        operation: Operation::Add,
        dst: Number::N2,
        a: Number::N2,
        b: Number::N1,
    },
    Instruction::JumpWith {
        relation: Relation::Equal,
        is: false,
        a: Number::N0,
        value: 0,
        to: 1,
    },
    Instruction::Alloc {
        dst: Register::A,
        fields: Index::At(1),
    },
    Instruction::Store {
        obj: Register::A,
        field: Index::At(0),
        value: Source::Value(27),
    },
    Instruction::Load {
        dst: Register::Val,
        src: Register::A,
        field: Index::At(0),
    },
    Instruction::Seen {
        dst: Number::N3,
        divisor: 16,
        rest: 12,
        to: 14,
    },
    Instruction::Seen {
        dst: Number::N3,
        divisor: 16,
        rest: 11,
        to: 11,
    },
    Instruction::Fail { why: 1 },
    Instruction::JumpWhere {
        relation: Relation::Less,
        is: true,
        a: Number::N2,
        b: Number::N3,
        to: 14,
    },
    Instruction::ComputeWith {
        operation: Operation::Sub,
        dst: Number::N3,
        a: Number::N3,
        value: 20,
    },
    Instruction::Jump {
        when: When::Always,
        to: 15,
    },
    Instruction::Fail { why: 2 },
    Instruction::Compute {
        operation: Operation::Add,
        dst: Number::N2,
        a: Number::N2,
        b: Number::N3,
    },
    Instruction::Put { number: Number::N2 },
    Instruction::Halt,
];
