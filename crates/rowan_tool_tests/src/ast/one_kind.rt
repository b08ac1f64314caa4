//! Wrappers of the nodes of one kind, and tokens that are skipped.
use super::{Node, root_of};
use crate::language::{Numbers, Parity};
use crate::parts::Part::{self, Close, Leaf, Open};
use crate::parts::shows;
use rowan::ast::{AstNode, NodeOf, NodeOfRef, algo, support};
use rowan::{Direction, Fault};
use std::test::Fail;

/// A node of the kind that 7 means, as each odd number does.
type Odd = NodeOf<Numbers, 7>;

type OddRef<'tree> = NodeOfRef<'tree, Numbers, 7>;

/// A node with an even and two odd children, and with tokens in and between them.
const TREE: [Part; 13] = [
    Open(2),
    Leaf(5, "a"),
    Open(4),
    Leaf(2, "b"),
    Close,
    Open(1),
    Close,
    Open(3),
    Leaf(2, "c"),
    Leaf(5, "d"),
    Close,
    Leaf(2, "e"),
    Close,
];

/// The first odd child.
fn first_odd(root: &Node) -> Result<Odd, Fault> {
    support::child(root)?.ok_or(Fault::NotFound)
}

/// The place of the first odd child.
fn index_of_first_odd(root: &Node) -> Result<usize, Fault> {
    Ok(first_odd(root)?.syntax().index())
}

#[test]
fn a_wrapper_casts_by_the_kind_and_not_by_its_number(rt: HostRuntime) -> Result<(), Fail> {
    let root = root_of(rt.alloc(), &TREE)?;
    let mut odd = support::children_ref::<OddRef<'_>>(root.as_ref());
    for is_there in [true, true, false] {
        assert!(rt; odd.next().is_some() == is_there);
    }
    assert!(rt; index_of_first_odd(&root) == Ok(2));
    assert!(rt; Odd::cast(root).is_none());
    Ok(())
}

/// An owned and a borrowed wrapper lead to each other, and both print as their node.
#[test]
fn a_wrapper_is_lent_and_printed(rt: HostRuntime) -> Result<(), Fail> {
    let odd = first_odd(&root_of(rt.alloc(), &TREE)?)?;
    let copy = odd.clone()?;
    assert!(rt; odd.as_ref().to_owned() == Ok(copy));
    let node = format!(in rt.alloc(); "{:?}", odd.syntax())?;
    assert!(rt; shows(rt.alloc(), &odd, node.as_str()));
    assert!(rt; shows(rt.alloc(), &odd.as_ref(), node.as_str()));
    Ok(())
}

/// Where the token starts that comes when those of a kind are skipped, from the first or the last
/// token on.
fn start_behind(root: &Node, direction: Direction, trivia: &[Parity]) -> Option<u32> {
    let from = match direction {
        Direction::Next => root.as_ref().first_token(),
        Direction::Prev => root.as_ref().last_token(),
    };
    let found = algo::skip_trivia_token(from?, direction, trivia)?;
    Some(u32::from(found.text_range().start()))
}

#[test]
fn tokens_of_other_kinds_are_found_across_nodes(rt: HostRuntime) -> Result<(), Fail> {
    let root = root_of(rt.alloc(), &TREE)?;
    for (direction, trivia, start) in [
        (Direction::Next, Parity::Odd, 1u32),
        (Direction::Next, Parity::Even, 0),
        (Direction::Prev, Parity::Odd, 4),
        (Direction::Prev, Parity::Even, 3),
    ] {
        assert!(rt; start_behind(&root, direction, &[trivia]) == Some(start));
    }
    let all = &[Parity::Odd, Parity::Even];
    assert!(rt; start_behind(&root, Direction::Next, all).is_none());
    Ok(())
}
