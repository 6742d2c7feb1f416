//! One call of a heap.

ghost use Rattle.rh_syntax.specs.Spelling.{CommandFits, OperandFits};
ghost use Rattle.rh_replay.specs.History.{AnswerFits, AnswerIsKept};

use rh_layout::{Command, Operand, Refusal, Reply};

/// A call of a heap, and what it was answered.
#[derive(Clone, Copy, Debug, PartialEq, Eq)]
pub struct Call {
    /// Whose call it is.
    pub owner: u32,
    /// What was asked.
    pub command: Command,
    /// The reply, or why the call was refused.
    pub answer: Result<Reply, Refusal>,
}

/// The operand's numbers fit their types. It runs only for a proof.
fn operand_fits(operand: Operand)
    ensures { OperandFits operand }
{
    match operand {
        Operand::Nil => {}
        Operand::Int(_number) => {}
        Operand::Root(_root) => {}
    }
}

/// The numbers of an owner's command fit their types. It runs only for a proof.
pub fn command_fits(owner: u32, command: Command)
    ensures { CommandFits owner command }
{
    match command {
        Command::Alloc { .. } => {}
        Command::Raw { .. } => {}
        Command::Load { .. } => {}
        Command::Store { operand, .. } => operand_fits(operand),
        Command::Copy { .. } => {}
        Command::Same { .. } => {}
        Command::Drop { .. } => {}
    }
}

/// The numbers of an answer fit their types. It runs only for a proof.
pub fn answer_fits(answer: Result<Reply, Refusal>)
    requires { AnswerIsKept answer }
    ensures { AnswerFits answer }
{
    match answer {
        Ok(Reply::Int(_number)) => {}
        Ok(Reply::Object(_fields)) => {}
        Ok(Reply::Raw(_fields)) => {}
        Ok(_) => {}
        Err(_) => {}
    }
}
