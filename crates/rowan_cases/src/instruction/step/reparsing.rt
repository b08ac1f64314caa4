//! The steps that parse a list anew.

use crate::operand;
use anyhow::Result;
use rowan::TextRange;
use std::alloc::Global;

/// An edit of a text: the list at a range becomes another one.
#[derive(Drop)]
pub struct ListEdit {
    pub range: TextRange,
    pub text: String,
}

impl ListEdit {
    /// Reads the operands of an edit.
    pub fn parse(alloc: Global, operands: &str) -> Result<ListEdit> {
        let (range, text) = operand::pair(operands)?;
        Ok(ListEdit {
            range: operand::range(range)?,
            text: operand::text(alloc, text)?,
        })
    }
}
