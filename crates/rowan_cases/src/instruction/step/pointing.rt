//! The steps on pointers.

use crate::operand;
use crate::wrapper::Wrapper;
use anyhow::Result;
use rowan::{TextRange, TextSize};

/// A step on pointers, which have slots of their own.
#[derive(Clone, Copy)]
pub enum PointerStep {
    /// Keeps a pointer to the current node in this slot.
    Ptr(u32),
    /// Carries the pointer in a slot over an edit.
    AfterEdit(Carrying),
    /// Asks to which node of the current tree the pointer in this slot leads.
    Resolve(u32),
    /// Asks the same, from the current node on.
    ResolveHere(u32),
    /// Asks whether the pointer in this slot casts to one to a wrapper.
    Cast(u32, Wrapper),
}

/// How a pointer is carried: from one slot to another one, over an edit that puts `new_len` bytes
/// in place of a range.
#[derive(Clone, Copy)]
pub struct Carrying {
    pub from: u32,
    pub to: u32,
    pub replaced: TextRange,
    pub new_len: TextSize,
}

impl PointerStep {
    /// Reads a step on pointers. Nothing where the name is that of none.
    pub fn parse(name: &str, operands: &str) -> Result<Option<PointerStep>> {
        Ok(Some(match name {
            "Ptr" => PointerStep::Ptr(operand::number(operands)?),
            "AfterEdit" => PointerStep::AfterEdit(parse_carrying(operands)?),
            "Resolve" => PointerStep::Resolve(operand::number(operands)?),
            "ResolveHere" => PointerStep::ResolveHere(operand::number(operands)?),
            "PtrCast" => {
                let (slot, wrapper) = operand::pair(operands)?;
                PointerStep::Cast(operand::number(slot)?, Wrapper::parse(wrapper)?)
            }
            _ => return Ok(None),
        }))
    }
}

fn parse_carrying(operands: &str) -> Result<Carrying> {
    let (from, rest) = operand::pair(operands)?;
    let (to, rest) = operand::pair(rest)?;
    let (replaced, new_len) = operand::pair(rest)?;
    Ok(Carrying {
        from: operand::number(from)?,
        to: operand::number(to)?,
        replaced: operand::range(replaced)?,
        new_len: operand::offset(new_len)?,
    })
}
