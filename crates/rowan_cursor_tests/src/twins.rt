//! Hashes of cursors.
use crate::fixture::{Call, LIST, ROOT, at, root_of};
use crate::refs::alike::hash_of;
use rowan_cursor::cursor::{ElementCalls, SyntaxNode};
use rowan_green::Fault;
use std::alloc::Global;
use std::test::Fail;

/// `ROOT["a" LIST[] LIST[]]`
const TWINS: [Call; 7] = [
    Call::Open(ROOT),
    Call::Word("a"),
    Call::Open(LIST),
    Call::Close,
    Call::Open(LIST),
    Call::Close,
    Call::Close,
];

/// The index and the hash of the child at an index.
fn index_and_hash(root: &SyntaxNode, index: usize) -> Result<(usize, u64), Fault> {
    let child = at(root, [index].as_slice())?;
    Ok((child.index(), hash_of(&child)))
}

/// Whether the children at the indices 1 and 2 have these indices and one hash.
fn have_one_hash(root: &SyntaxNode) -> Result<bool, Fault> {
    let first = index_and_hash(root, 1)?;
    let second = index_and_hash(root, 2)?;
    Ok((first.0, second.0) == (1, 2) && first.1 == second.1)
}

#[test]
fn equal_empty_twins(rt: HostRuntime) -> Result<(), Fail> {
    let root = root_of(rt.alloc(), TWINS.as_slice())?;
    assert!(rt; have_one_hash(&root) == Ok(true));
    Ok(())
}

/// A node in a node in a node, and so on, this many of one kind.
fn chain(alloc: Global, depth: u32) -> Result<SyntaxNode, Fault> {
    let mut calls = Vec::new(alloc);
    for _ in 0..depth {
        calls.push(Call::Open(LIST))?;
    }
    for _ in 0..depth {
        calls.push(Call::Close)?;
    }
    root_of(alloc, calls.as_slice())
}

/// Whether a node has this hash just where something is below it.
fn is_told_apart(node: Result<SyntaxNode, Fault>, hash: u64) -> Result<bool, Fault> {
    let node = node?;
    let is_last = node.first_child_or_token()?.is_none();
    Ok((hash_of(&node) == hash) != is_last)
}

/// A hash feeds the number of the children and not what is in them, so these nodes are told apart by
/// `==` alone, and no hash walks a tree.
#[test]
fn a_chain_is_hashed_without_walks(rt: HostRuntime) -> Result<(), Fail> {
    let root = chain(rt.alloc(), 100_000)?;
    let first = hash_of(&root);
    for node in root.descendants() {
        assert!(rt; is_told_apart(node, first) == Ok(true));
    }
    Ok(())
}
