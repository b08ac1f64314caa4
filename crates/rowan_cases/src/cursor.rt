//! Elements of a tree as answers write them.

use crate::operand;
use rowan::NodeOrToken;
use rowan::cursor::SyntaxElement;
use std::alloc::{AllocError, Global};

/// Writes what an element is: a node or a token, its raw kind, its range, its index among all
/// children, and the text of a token.
pub fn push_element(
    alloc: Global,
    text: &mut String,
    element: &SyntaxElement,
) -> Result<(), AllocError> {
    let written = match element {
        NodeOrToken::Node(node) => {
            let (kind, range, index) = (node.kind().0, node.text_range(), node.index());
            format!(in alloc; "node {kind} {range:?} {index}")?
        }
        NodeOrToken::Token(token) => {
            let (kind, range, index) = (token.kind().0, token.text_range(), token.index());
            let quoted = operand::quote(alloc, token.text())?;
            format!(in alloc; "token {kind} {range:?} {index} {quoted}")?
        }
    };
    text.push_str(written.as_str())
}
