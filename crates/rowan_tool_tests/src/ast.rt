//! Pointers and wrappers, over the language in which even and odd raw kinds mean one kind each.
mod casts;
mod comparisons;
mod one_kind;
mod pointers;
mod wrappers;

use crate::language::Numbers;
use crate::parts::{Part, tree};
use rowan::{Fault, SyntaxNode};
use std::alloc::Global;

type Node = SyntaxNode<Numbers>;

/// The root of the tree of these parts.
fn root_of(alloc: Global, parts: &[Part]) -> Result<Node, Fault> {
    Node::new_root(alloc, tree(alloc, parts)?)
}

/// The first child of a node.
fn child_of(parent: &Node) -> Result<Node, Fault> {
    parent.first_child()?.ok_or(Fault::NotFound)
}
