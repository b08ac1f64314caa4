//! The children of green nodes.
use crate::green::fixture::tree;
use rowan_green::{Children, Fault, GreenElement, GreenNode};
use std::alloc::Global;

/// The children of the tree: kind, offset and length.
const PLACES: [(u16, u32, u32); 3] = [(2, 0, 1), (8, 1, 2), (3, 3, 2)];

/// Kind, offset and length of the child at an index.
fn place(node: &GreenNode, index: usize) -> Option<(u16, u32, u32)> {
    match node.child_ref(index) {
        Some((start, child)) => {
            Some((
                child.kind().0,
                u32::from(start),
                u32::from(child.text_len()),
            ))
        }
        None => None,
    }
}

/// The kinds of the children that are left, from the front.
fn kinds(alloc: Global, children: Children<'_>) -> Result<Vec<u16>, Fault> {
    let mut kinds = Vec::new(alloc);
    for child in children {
        kinds.push(child?.kind().0)?;
    }
    Ok(kinds)
}

/// Whether these are the kinds of the children that are left.
fn gives(alloc: Global, children: Children<'_>, expected: &[u16]) -> Result<bool, Fault> {
    Ok(kinds(alloc, children)?.as_slice() == expected)
}

/// The kind of a child, or 0 for none.
fn kind_or_zero(child: Option<Result<GreenElement, Fault>>) -> Result<u16, Fault> {
    match child {
        Some(child) => Ok(child?.kind().0),
        None => Ok(0),
    }
}

/// The kinds of the next child from the front and from the back, or 0 for none, and how many are left then.
fn next_of_both_ends(children: &mut Children<'_>) -> Result<(u16, u16, usize), Fault> {
    let front = kind_or_zero(children.next())?;
    let back = kind_or_zero(children.next_back())?;
    Ok((front, back, children.len()))
}

#[test]
fn children_come_from_both_ends(rt: HostRuntime) -> Result<(), Fault> {
    let tree = tree(rt.alloc())?;
    assert!(rt; gives(rt.alloc(), tree.children(), &[2, 8, 3]) == Ok(true));
    let mut reversed = tree.children().rev();
    for kind in [3, 8, 2, 0, 0] {
        assert!(rt; kind_or_zero(reversed.next()) == Ok(kind));
    }
    let mut children = tree.children();
    for expected in [(2, 3, 1), (8, 0, 0), (0, 0, 0)] {
        assert!(rt; next_of_both_ends(&mut children) == Ok(expected));
    }
    Ok(())
}

#[test]
fn cloned_children_give_the_same_rest(rt: HostRuntime) -> Result<(), Fault> {
    let tree = tree(rt.alloc())?;
    let mut children = tree.children();
    assert!(rt; kind_or_zero(children.next()) == Ok(2));
    let copy = children.clone()?;
    assert!(rt; gives(rt.alloc(), children, &[8, 3]) == Ok(true));
    assert!(rt; gives(rt.alloc(), copy, &[8, 3]) == Ok(true));
    Ok(())
}

/// How many children are passed over, and then the kind of the next one, or 0 for none, from the
/// front and from the back, and how many are left behind it.
const PASSED: [(usize, u16, u16, usize); 5] = [
    (0, 2, 3, 2),
    (1, 8, 8, 1),
    (2, 3, 2, 0),
    (3, 0, 0, 0),
    (usize::MAX, 0, 0, 0),
];

/// The kind of the child behind `n` others, or 0 for none, and how many are left.
fn nth(node: &GreenNode, n: usize) -> (Result<u16, Fault>, usize) {
    let mut children = node.children();
    let kind = kind_or_zero(children.nth(n));
    (kind, children.count())
}

/// The same from the back.
fn nth_back(node: &GreenNode, n: usize) -> (Result<u16, Fault>, usize) {
    let mut children = node.children();
    let kind = kind_or_zero(children.nth_back(n));
    (kind, children.count())
}

#[test]
fn children_by_index_and_behind_others(rt: HostRuntime) -> Result<(), Fault> {
    let tree = tree(rt.alloc())?;
    for (index, expected) in PLACES.into_iter().enumerate() {
        assert!(rt; place(&tree, index) == Some(expected));
    }
    for index in [3, 4, usize::MAX] {
        assert!(rt; place(&tree, index) == None);
    }
    for (n, front, back, left) in PASSED {
        assert!(rt; nth(&tree, n) == (Ok(front), left));
        assert!(rt; nth_back(&tree, n) == (Ok(back), left));
    }
    Ok(())
}

/// How many children are left, and the kind of the last, or 0 for none.
fn left_and_last(children: &Children<'_>) -> Result<(usize, u16), Fault> {
    let count = children.clone()?.count();
    Ok((count, kind_or_zero(children.clone()?.last())?))
}

#[test]
fn the_last_child_is_of_those_that_are_left(rt: HostRuntime) -> Result<(), Fault> {
    let tree = tree(rt.alloc())?;
    let mut children = tree.children();
    assert!(rt; left_and_last(&children) == Ok((3, 3)));
    assert!(rt; kind_or_zero(children.nth_back(1)) == Ok(8));
    assert!(rt; left_and_last(&children) == Ok((1, 2)));
    assert!(rt; kind_or_zero(children.nth(0)) == Ok(2));
    assert!(rt; kind_or_zero(children.last()) == Ok(0));
    Ok(())
}
