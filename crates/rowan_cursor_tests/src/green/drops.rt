//! Drops of very deep and very wide trees, which would overflow the stack if they recursed.
use crate::green::fixture::{leaf, node, word};
use rowan_builder::GreenNodeBuilder;
use rowan_green::{Fault, GreenElement, GreenNode, SyntaxKind};
use std::alloc::Global;

/// How many levels of a deep tree.
const LEVELS: usize = 3_000_000;

/// How many children of a wide node.
const CHILDREN: usize = 1_000_000;

/// What stands on one side of the node of each level.
#[derive(Clone, Copy)]
enum Side {
    Nothing,
    Token,
    Node,
}

/// Puts what stands on a side behind the children.
fn add(
    alloc: Global,
    children: &mut Vec<GreenElement>,
    side: Side,
    mark: &GreenElement,
) -> Result<(), Fault> {
    match side {
        Side::Nothing => Ok(()),
        Side::Token => Ok(children.push(mark.clone()?)?),
        Side::Node => Ok(children.push(over_node(alloc)?)?),
    }
}

/// The children of a level.
fn level(
    alloc: Global,
    inner: GreenNode,
    (before, behind): (Side, Side),
    mark: &GreenElement,
) -> Result<Vec<GreenElement>, Fault> {
    let mut children = Vec::new(alloc);
    add(alloc, &mut children, before, mark)?;
    children.push(GreenElement::from(inner))?;
    add(alloc, &mut children, behind, mark)?;
    Ok(children)
}

/// Nodes in each other.
fn nest(alloc: Global, levels: usize, sides: (Side, Side)) -> Result<GreenNode, Fault> {
    let mark = leaf(alloc, 2, "")?;
    let mut inner = word(alloc, 1, "a")?;
    for _ in 0..levels {
        inner = node(alloc, 4, level(alloc, inner, sides, &mark)?)?;
    }
    Ok(inner)
}

/// A node over a node over a token.
fn over_node(alloc: Global) -> Result<GreenElement, Fault> {
    let children = vec![in alloc; GreenElement::from(word(alloc, 1, "b")?)]?;
    node(alloc, 5, children).map(GreenElement::from)
}

/// Tokens, as children.
fn leaves(alloc: Global, count: usize) -> Result<Vec<GreenElement>, Fault> {
    let mut leaves = Vec::with_capacity(alloc, count)?;
    for _ in 0..count {
        leaves.push(leaf(alloc, 2, "a")?)?;
    }
    Ok(leaves)
}

/// A node over so many nodes, each over so many tokens.
fn wide(alloc: Global, children: usize, tokens: usize) -> Result<GreenNode, Fault> {
    let mut nodes = Vec::with_capacity(alloc, children)?;
    for _ in 0..children {
        nodes.push(GreenElement::from(node(alloc, 1, leaves(alloc, tokens)?)?))?;
    }
    node(alloc, 4, nodes)
}

/// How many levels, and what stands before and behind the node of each.
const DEEP: [(usize, (Side, Side)); 4] = [
    (LEVELS, (Side::Nothing, Side::Nothing)),
    (LEVELS, (Side::Token, Side::Token)),
    (CHILDREN, (Side::Node, Side::Nothing)),
    (CHILDREN, (Side::Nothing, Side::Node)),
];

#[test]
fn deep_trees_are_dropped(rt: HostRuntime) -> Result<(), Fault> {
    for (levels, sides) in DEEP {
        drop(nest(rt.alloc(), levels, sides)?);
    }
    Ok(())
}

#[test]
fn wide_trees_are_dropped(rt: HostRuntime) -> Result<(), Fault> {
    for tokens in [0, 1] {
        drop(wide(rt.alloc(), CHILDREN, tokens)?);
    }
    Ok(())
}

#[test]
fn an_abandoned_builder_is_dropped(rt: HostRuntime) -> Result<(), Fault> {
    let mut builder = GreenNodeBuilder::new(rt.alloc());
    for _ in 0..CHILDREN {
        builder.start_node(SyntaxKind(1))?;
        for _ in 0..4 {
            builder.token(SyntaxKind(2), "a")?;
        }
        builder.finish_node()?;
    }
    Ok(())
}
