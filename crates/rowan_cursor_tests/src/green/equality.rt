//! Equality, clones and hashes of green tokens and nodes.
use crate::green::fixture::{flat, node, token, tree, word};
use crate::refs::alike::hash_of;
use rowan_green::{Fault, GreenElement};
use std::alloc::Global;

/// A token, by its kind and text.
type Leaf = (u16, &'static str);

/// Tokens of which no two are equal.
const DIFFERENT: [Leaf; 5] = [(0, ""), (0, "a"), (1, "a"), (0, "b"), (0, "ab")];

/// Whether two tokens are equal, and then hash equally.
fn tokens_are_equal(alloc: Global, left: Leaf, right: Leaf) -> Result<bool, Fault> {
    let left = token(alloc, left.0, left.1)?;
    let right = token(alloc, right.0, right.1)?;
    Ok(left == right && hash_of(&left) == hash_of(&right))
}

#[test]
fn tokens_are_equal_by_kind_and_text(rt: HostRuntime) {
    for left in DIFFERENT {
        for right in DIFFERENT {
            assert!(rt; tokens_are_equal(rt.alloc(), left, right) == Ok(left == right));
        }
    }
}

/// A node over tokens.
type Flat = (u16, &'static [Leaf]);

/// Nodes of which no two are equal, though many have the text `ab`.
const DIFFERENT_NODES: [Flat; 9] = [
    (1, &[]),
    (2, &[]),
    (1, &[(1, "")]),
    (1, &[(1, "ab")]),
    (1, &[(1, "ba")]),
    (2, &[(1, "ab")]),
    (1, &[(2, "ab")]),
    (1, &[(1, "a"), (1, "b")]),
    (1, &[(1, "ab"), (1, "")]),
];

/// Whether two nodes are equal, and then hash equally.
fn nodes_are_equal(alloc: Global, left: Flat, right: Flat) -> Result<bool, Fault> {
    let left = flat(alloc, left.0, left.1)?;
    let right = flat(alloc, right.0, right.1)?;
    Ok(left == right && hash_of(&left) == hash_of(&right))
}

#[test]
fn nodes_are_equal_by_kind_and_children(rt: HostRuntime) {
    for left in DIFFERENT_NODES {
        for right in DIFFERENT_NODES {
            assert!(rt; nodes_are_equal(rt.alloc(), left, right) == Ok(left == right));
        }
    }
}

#[test]
fn a_node_differs_from_the_node_in_it(rt: HostRuntime) -> Result<(), Fault> {
    let inner = word(rt.alloc(), 1, "ab")?;
    let children = vec![in rt.alloc(); GreenElement::from(inner.clone()?)]?;
    assert!(rt; node(rt.alloc(), 1, children)? != inner);
    Ok(())
}

#[test]
fn cloned_nodes_are_equal(rt: HostRuntime) -> Result<(), Fault> {
    let tree = tree(rt.alloc())?;
    let copy = tree.clone()?;
    assert!(rt; copy == tree && hash_of(&copy) == hash_of(&tree));
    Ok(())
}

#[test]
fn cloned_tokens_are_equal(rt: HostRuntime) -> Result<(), Fault> {
    let token = token(rt.alloc(), 1, "a")?;
    let copy = token.clone()?;
    assert!(rt; copy == token && hash_of(&copy) == hash_of(&token));
    Ok(())
}
