//! What is asked of a text.

use crate::operand;
use anyhow::Result;
use rowan::TextSize;
use std::alloc::Global;

/// A question about a text. Offsets count from its start.
#[derive(Drop)]
pub enum Question {
    Chunks,
    /// Counts the chunks, and gives up at this number; at 0 never.
    FoldChunks(u32),
    FindChar(char),
    ContainsChar(char),
    CharAt(TextSize),
    IsBorder(TextSize),
    EqStr(String),
}

impl Question {
    /// Reads a question. Nothing where the name is that of none.
    pub fn parse(alloc: Global, name: &str, operands: &str) -> Result<Option<Question>> {
        Ok(Some(match (name, operands) {
            ("Chunks", "") => Question::Chunks,
            ("FoldChunks", _) => Question::FoldChunks(operand::number(operands)?),
            ("FindChar", _) => Question::FindChar(operand::character(alloc, operands)?),
            ("ContainsChar", _) => Question::ContainsChar(operand::character(alloc, operands)?),
            ("CharAt", _) => Question::CharAt(operand::offset(operands)?),
            ("IsBorder", _) => Question::IsBorder(operand::offset(operands)?),
            ("EqStr", _) => Question::EqStr(operand::text(alloc, operands)?),
            _ => return Ok(None),
        }))
    }
}
