//! The questions about children by the language of s-expressions.

use crate::operand;
use crate::wrapper::Wrapper;
use anyhow::Result;
use rowan_tool::sexp::SyntaxKind;

/// A question about the children of a node.
#[derive(Clone, Copy)]
pub enum Support {
    /// For the first that casts.
    Child(Wrapper),
    /// For all that cast.
    Children(Wrapper),
    /// For the first token of a kind.
    Token(SyntaxKind),
}

impl Support {
    /// Reads a question. Nothing where the name is that of none.
    pub fn parse(name: &str, operands: &str) -> Result<Option<Support>> {
        Ok(Some(match name {
            "SupportChild" => Support::Child(Wrapper::parse(operands)?),
            "SupportChildren" => Support::Children(Wrapper::parse(operands)?),
            "SupportToken" => Support::Token(operand::kind_by_name(operands)?),
            _ => return Ok(None),
        }))
    }
}
