//! What borrowed cursors answer to the steps of a case. Each answer is a line, and is to be that of
//! the owned cursors.
pub mod lists;
pub mod moves;
pub mod texts;
mod written;

use rowan::NodeOrToken;
use rowan::cursor::{ElementRefCalls, SyntaxElement, SyntaxElementRef};

/// Where borrowed cursors start.
#[derive(Clone, Copy)]
pub enum Start {
    /// At the current cursor.
    Here,
    /// At the root of its tree: elsewhere on purpose, so that they answer otherwise.
    TreeTop,
}

impl Start {
    /// The element there, borrowed from the tree of the current cursor.
    pub fn by(self, here: &SyntaxElement) -> SyntaxElementRef<'_> {
        let here = match here {
            NodeOrToken::Node(node) => NodeOrToken::Node(node.as_ref()),
            NodeOrToken::Token(token) => NodeOrToken::Token(token.as_ref()),
        };
        match self {
            Start::Here => here,
            Start::TreeTop => NodeOrToken::Node(here.tree_top()),
        }
    }
}
