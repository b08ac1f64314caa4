//! Writes trees.

use crate::operand;
use itoa::Buffer;
use rowan::cursor::{SyntaxElement, SyntaxNode};
use rowan::{GreenElement, GreenNode, GreenToken, NodeOrToken, SyntaxKind, WalkEvent};
use std::alloc::{AllocError, Global};

/// Writes a node or a token.
pub fn push_element(
    alloc: Global,
    text: &mut String,
    element: &GreenElement,
) -> Result<(), AllocError> {
    match element {
        NodeOrToken::Node(node) => push_node(alloc, text, node),
        NodeOrToken::Token(token) => push_token(alloc, text, token),
    }
}

/// Writes a node and all that is in it.
pub fn push_node(alloc: Global, text: &mut String, node: &GreenNode) -> Result<(), AllocError> {
    let Ok(root) = SyntaxNode::new_root(alloc, node.clone()?) else {
        return Err(AllocError);
    };
    let mut is_first_child = true;
    for event in root.preorder_with_tokens() {
        let Ok(event) = event else {
            return Err(AllocError);
        };
        match event {
            WalkEvent::Enter(element) => {
                if !is_first_child {
                    text.push(' ')?;
                }
                is_first_child = push_beginning(alloc, text, &element)?;
            }
            WalkEvent::Leave(NodeOrToken::Node(_node)) => {
                text.push(']')?;
                is_first_child = false;
            }
            WalkEvent::Leave(NodeOrToken::Token(_token)) => {}
        }
    }
    Ok(())
}

/// Writes a token, or the kind of a node and its bracket, and says whether it is a node.
fn push_beginning(
    alloc: Global,
    text: &mut String,
    element: &SyntaxElement,
) -> Result<bool, AllocError> {
    match element {
        NodeOrToken::Node(node) => {
            push_kind(text, node.kind())?;
            text.push('[')?;
            Ok(true)
        }
        NodeOrToken::Token(token) => {
            push_token(alloc, text, token.green())?;
            Ok(false)
        }
    }
}

fn push_token(alloc: Global, text: &mut String, token: &GreenToken) -> Result<(), AllocError> {
    push_kind(text, token.kind())?;
    text.push_str(operand::quote(alloc, token.text())?.as_str())
}

fn push_kind(text: &mut String, kind: SyntaxKind) -> Result<(), AllocError> {
    text.push_str(Buffer::new().format(kind.0))
}
