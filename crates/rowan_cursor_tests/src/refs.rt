//! Nodes, tokens and elements that are borrowed from the tree of `(+ (* 15 2) 62)`.
pub mod alike;
mod kinds;
mod loans;
mod walks;

use crate::fixture::Shown;
use rowan_cursor::cursor::{SyntaxElement, SyntaxElementRef, SyntaxNodeRef};
use rowan_green::NodeOrToken;

/// What a borrowed node shows.
fn shown(node: SyntaxNodeRef<'_>) -> Shown {
    let range = node.text_range();
    (
        node.kind().0,
        u32::from(range.start()),
        u32::from(range.end()),
    )
}

/// An element, borrowed from its tree.
fn borrowed(element: &SyntaxElement) -> SyntaxElementRef<'_> {
    match element {
        NodeOrToken::Node(node) => NodeOrToken::Node(node.as_ref()),
        NodeOrToken::Token(token) => NodeOrToken::Token(token.as_ref()),
    }
}
