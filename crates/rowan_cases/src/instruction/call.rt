//! The calls of a builder.

use crate::operand;
use anyhow::Result;
use rowan::SyntaxKind;
use std::alloc::Global;

/// A call that leaves the builder.
#[derive(Drop)]
pub enum Call {
    Token(SyntaxKind, String),
    StartNode(SyntaxKind),
    FinishNode,
    Mark,
    /// Wraps at the mark of this number.
    StartNodeAt(u32, SyntaxKind),
    /// Wraps at the checkpoint of another builder, which holds so many tokens.
    StartNodeAtCheckpoint(u32, SyntaxKind),
}

impl Call {
    /// Reads a call. Nothing where the name is that of none.
    pub fn parse(alloc: Global, name: &str, operands: &str) -> Result<Option<Call>> {
        Ok(Some(match (name, operands) {
            ("Token", _) => {
                let (kind, text) = operand::pair(operands)?;
                Call::Token(operand::kind(kind)?, operand::text(alloc, text)?)
            }
            ("StartNode", _) => Call::StartNode(operand::kind(operands)?),
            ("StartNodeAt", _) => {
                let (mark, kind) = operand::pair(operands)?;
                Call::StartNodeAt(operand::number(mark)?, operand::kind(kind)?)
            }
            ("StartNodeAtCheckpoint", _) => {
                let (tokens, kind) = operand::pair(operands)?;
                Call::StartNodeAtCheckpoint(operand::number(tokens)?, operand::kind(kind)?)
            }
            ("FinishNode", "") => Call::FinishNode,
            ("Mark", "") => Call::Mark,
            _ => return Ok(None),
        }))
    }
}
