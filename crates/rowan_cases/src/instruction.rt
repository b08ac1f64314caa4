//! The instructions of a case.
mod call;
mod script_step;
mod step;

use crate::operand;
use anyhow::{Result, bail};
pub use call::Call;
use rowan::script;
pub use script_step::copy_of;
use std::alloc::Global;
pub use step::{
    Carrying, Edit, Event, ListEdit, Listing, PointerStep, Question, Slice, Step, Support, Walk,
    WalkCall,
};

/// What one line of a case asks for.
#[derive(Drop)]
pub enum Instruction {
    /// The counts of the cache, which may be asked for at any place.
    Counts,
    Call(Call),
    /// Gives the tree of the builder.
    Finish,
    /// Gives the tree of a text in place of the builder's.
    Parse(String),
    /// A step of which scripts are made.
    ScriptStep(script::Step),
    /// Another step.
    Step(Step),
    /// An edit of which lists are made.
    EditList(ListEdit),
}

impl Instruction {
    /// Reads an instruction: its name, a space and its operands. A line is refused where its first
    /// word names none, and where the operands are not those of the instruction.
    pub fn parse(alloc: Global, line: &str) -> Result<Instruction> {
        let (name, operands) = line.split_once(' ').unwrap_or((line, ""));
        if let Some(call) = Call::parse(alloc, name, operands)? {
            return Ok(Instruction::Call(call));
        }
        if let Some(step) = script_step::parse(alloc, name, operands)? {
            return Ok(Instruction::ScriptStep(step));
        }
        if let Some(step) = Step::parse(alloc, name, operands)? {
            return Ok(Instruction::Step(step));
        }
        match (name, operands) {
            ("Counts", "") => Ok(Instruction::Counts),
            ("Finish", "") => Ok(Instruction::Finish),
            ("Parse", _) => Ok(Instruction::Parse(operand::text(alloc, operands)?)),
            ("EditList", _) => Ok(Instruction::EditList(ListEdit::parse(alloc, operands)?)),
            _ => bail!("`{line}` is no instruction"),
        }
    }
}
