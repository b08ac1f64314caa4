//! Replacements, and what typed cursors print.
use super::{Element, Node, Token};
use crate::parts::Part::{self, Close, Leaf, Open};
use crate::parts::{shows, tree};
use rowan::{Fault, GreenElement, GreenNode, GreenToken, SyntaxKind};
use std::alloc::Global;
use std::test::Fail;

/// A node of kind 4, with one token, in a node of kind 2. Both kinds mean the same.
const DOUBLED: [Part; 5] = [Open(2), Open(4), Leaf(7, "a"), Close, Close];

/// The root of that tree.
fn root(alloc: Global) -> Result<Node, Fault> {
    Node::new_root(alloc, tree(alloc, &DOUBLED)?)
}

/// The inner node.
fn inner(alloc: Global) -> Result<Node, Fault> {
    root(alloc)?.first_child()?.ok_or(Fault::NotFound)
}

/// The one token.
fn token(alloc: Global) -> Result<Token, Fault> {
    root(alloc)?.first_token()?.ok_or(Fault::NotFound)
}

#[test]
fn two_raw_kinds_print_as_one(rt: HostRuntime) -> Result<(), Fail> {
    let root = root(rt.alloc())?;
    let lines = "EVEN@0..1\n  EVEN@0..1\n    ODD@0..1 \"a\"\n";
    assert!(rt; root.debug_tree(rt.alloc())?.as_str() == lines);
    Ok(())
}

/// The length of the text where an empty node of a raw kind takes the place of the inner one.
fn with_empty_node(alloc: Global, kind: u16) -> Result<u32, Fault> {
    let none: [GreenElement; 0] = [];
    let empty = GreenNode::new(alloc, SyntaxKind(kind), none)?;
    let tree = inner(alloc)?.replace_with(empty)?;
    Ok(u32::from(tree.text_len()))
}

/// The length of the text where a token of a raw kind takes the place of the one token.
fn with_other_token(alloc: Global, kind: u16) -> Result<u32, Fault> {
    let other = GreenToken::new(alloc, SyntaxKind(kind), "bc")?;
    let tree = token(alloc)?.replace_with(other)?;
    Ok(u32::from(tree.text_len()))
}

#[test]
fn replacements_are_of_equal_raw_kind(rt: HostRuntime) {
    assert!(rt; with_empty_node(rt.alloc(), 2) == Err(Fault::OtherKind));
    assert!(rt; with_empty_node(rt.alloc(), 4) == Ok(0));
    assert!(rt; with_other_token(rt.alloc(), 9) == Err(Fault::OtherKind));
    assert!(rt; with_other_token(rt.alloc(), 7) == Ok(2));
}

#[test]
fn typed_cursors_are_compared(rt: HostRuntime) -> Result<(), Fail> {
    let root = root(rt.alloc())?;
    assert!(rt; root.clone()? == root);
    assert!(rt; Element::from(token(rt.alloc())?) != Element::from(root));
    Ok(())
}

#[test]
fn typed_cursors_are_shown(rt: HostRuntime) -> Result<(), Fail> {
    let token = token(rt.alloc())?;
    assert!(rt; token.to_string(rt.alloc())?.as_str() == "a");
    let line = "SyntaxToken { kind: Odd, text_range: 0..1 }";
    assert!(rt; shows(rt.alloc(), &token, line));
    Ok(())
}
