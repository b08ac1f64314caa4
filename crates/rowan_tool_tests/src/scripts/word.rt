//! The tree that parts spell, without a builder.
use crate::parts::Part;
use rowan::{Fault, GreenElement, GreenNode, GreenToken, NodeOrToken, SyntaxKind};
use std::alloc::{AllocError, Global};

/// A node whose closing is still to come.
#[derive(Drop)]
struct Frame {
    kind: u16,
    children: Vec<GreenElement>,
}

/// Puts an element below the innermost node that is open, or gives it where none is.
fn put(frames: &mut Vec<Frame>, element: GreenElement) -> Result<Option<GreenElement>, AllocError> {
    match frames.last_mut() {
        Some(frame) => {
            frame.children.push(element)?;
            Ok(None)
        }
        None => Ok(Some(element)),
    }
}

/// Spells one part, by `GreenNode::new` and `GreenToken::new`, and gives the element that is whole
/// then and stands in no other.
fn spell(
    alloc: Global,
    frames: &mut Vec<Frame>,
    part: Part,
) -> Result<Option<GreenElement>, Fault> {
    let element = match part {
        Part::Open(kind) => {
            let children = Vec::new(alloc);
            frames.push(Frame { kind, children })?;
            return Ok(None);
        }
        Part::Leaf(kind, text) => {
            GreenElement::from(GreenToken::new(alloc, SyntaxKind(kind), text)?)
        }
        Part::Close => {
            let Some(frame) = frames.pop() else {
                return Err(Fault::NotOneElement);
            };
            let Frame { kind, children } = frame;
            GreenElement::from(GreenNode::new(alloc, SyntaxKind(kind), children)?)
        }
    };
    Ok(put(frames, element)?)
}

/// The first element that the parts spell, if it is a node.
fn first_node(alloc: Global, frames: &mut Vec<Frame>, parts: &[Part]) -> Result<GreenNode, Fault> {
    for part in parts {
        match spell(alloc, frames, *part)? {
            Some(NodeOrToken::Node(node)) => return Ok(node),
            Some(NodeOrToken::Token(_)) => return Err(Fault::NotANode),
            None => {}
        }
    }
    Err(Fault::NotOneElement)
}

/// The tree that the parts spell.
pub fn tree(alloc: Global, parts: &[Part]) -> Result<GreenNode, Fault> {
    let mut frames = Vec::new(alloc);
    first_node(alloc, &mut frames, parts)
}
