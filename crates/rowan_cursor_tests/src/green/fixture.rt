//! Green trees for the tests, each from its kinds and texts.
use rowan_green::{Fault, GreenElement, GreenNode, GreenToken, SyntaxKind};
use std::alloc::{AllocError, Global};
use std::fmt::Display;

/// A token.
pub fn token(alloc: Global, kind: u16, text: &str) -> Result<GreenToken, Fault> {
    GreenToken::new(alloc, SyntaxKind(kind), text)
}

/// A token, as a child.
pub fn leaf(alloc: Global, kind: u16, text: &str) -> Result<GreenElement, Fault> {
    token(alloc, kind, text).map(GreenElement::from)
}

/// A node over its children.
pub fn node(alloc: Global, kind: u16, children: Vec<GreenElement>) -> Result<GreenNode, Fault> {
    GreenNode::new(alloc, SyntaxKind(kind), children)
}

/// A node over one token.
pub fn word(alloc: Global, kind: u16, text: &str) -> Result<GreenNode, Fault> {
    let children = vec![in alloc; leaf(alloc, 1, text)?]?;
    node(alloc, kind, children)
}

/// A node over tokens, by their kinds and texts.
pub fn flat(alloc: Global, kind: u16, leaves: &[(u16, &str)]) -> Result<GreenNode, Fault> {
    let mut children = Vec::new(alloc);
    for (leaf_kind, text) in leaves {
        children.push(leaf(alloc, *leaf_kind, text)?)?;
    }
    node(alloc, kind, children)
}

/// A node over one child, again and again.
pub fn copies(
    alloc: Global,
    kind: u16,
    count: usize,
    child: &GreenElement,
) -> Result<GreenNode, Fault> {
    let mut children = Vec::with_capacity(alloc, count)?;
    for _ in 0..count {
        children.push(child.clone()?)?;
    }
    node(alloc, kind, children)
}

/// Nodes in so many levels, each over the one below it so many times, and the lowest over `child`.
pub fn levels_of_copies(
    alloc: Global,
    levels: u32,
    count: usize,
    child: GreenElement,
) -> Result<GreenElement, Fault> {
    let mut top = child;
    for _ in 0..levels {
        top = GreenElement::from(copies(alloc, 8, count, &top)?);
    }
    Ok(top)
}

/// A node of kind 9 over a token `(` of kind 2, a node of kind 8 over the word `ab`, and a token `é` of kind 3.
pub fn tree(alloc: Global) -> Result<GreenNode, Fault> {
    let mut children = vec![in alloc; leaf(alloc, 2, "(")?]?;
    children.push(GreenElement::from(word(alloc, 8, "ab")?))?;
    children.push(leaf(alloc, 3, "é")?)?;
    node(alloc, 9, children)
}

/// Whether a value displays this text.
pub fn displays<T: Display>(alloc: Global, value: &T, text: &str) -> Result<bool, AllocError> {
    Ok(value.to_string(alloc)?.as_str() == text)
}
