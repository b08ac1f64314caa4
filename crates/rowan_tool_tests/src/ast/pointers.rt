//! Pointers to nodes, where several raw kinds mean one kind.
use super::{Node, child_of, root_of};
use crate::language::Numbers;
use crate::parts::Part::{self, Close, Leaf, Open};
use rowan::ast::SyntaxNodePtr;
use rowan::{Fault, Steps};
use std::alloc::Global;
use std::test::Fail;

/// A node of an even raw kind, alone in one of an odd raw kind.
const FOUR: [Part; 5] = [Open(1), Open(4), Leaf(7, "a"), Close, Close];

/// The same with another even raw kind.
const SIX: [Part; 5] = [Open(3), Open(6), Leaf(8, "a"), Close, Close];

/// The same with an odd raw kind in its place.
const FIVE: [Part; 5] = [Open(3), Open(5), Leaf(8, "a"), Close, Close];

/// The same with one more node of an odd raw kind around it.
const NESTED: [Part; 7] = [Open(1), Open(3), Open(8), Leaf(2, "a"), Close, Close, Close];

/// Two nodes of even raw kinds, one in the other.
const DOUBLED: [Part; 7] = [Open(1), Open(2), Open(4), Leaf(7, "a"), Close, Close, Close];

/// A node of an even raw kind, alone in a root of another even raw kind.
const IN_TWO: [Part; 5] = [Open(2), Open(4), Leaf(7, "a"), Close, Close];

/// The pointer to the node of an even kind in `FOUR`.
fn pointer(alloc: Global) -> Result<SyntaxNodePtr<Numbers>, Fault> {
    let four = child_of(&root_of(alloc, &FOUR)?)?;
    Ok(SyntaxNodePtr::new(&four))
}

/// The raw kind of the node to which that pointer leads in the tree of these parts.
fn raw_kind_of_target(alloc: Global, parts: &[Part]) -> Result<u16, Fault> {
    let pointer = pointer(alloc)?;
    let found = pointer.to_node(&root_of(alloc, parts)?)?;
    Ok(found.green().kind().0)
}

#[test]
fn raw_kinds_of_one_meaning_are_found(rt: HostRuntime) {
    for (parts, answer) in [
        (FOUR.as_slice(), Ok(4)),
        (SIX.as_slice(), Ok(6)),
        (FIVE.as_slice(), Err(Fault::NotFound)),
        (NESTED.as_slice(), Ok(8)),
        (DOUBLED.as_slice(), Ok(2)),
    ] {
        assert!(rt; raw_kind_of_target(rt.alloc(), parts) == answer);
    }
}

/// Whether the pointer leads to a node from this one, and the comparisons and visits of the search.
fn steps_from(alloc: Global, root: &Node) -> Result<(bool, u64, u64), Fault> {
    let mut steps = Steps::new();
    let found = pointer(alloc)?.try_to_node_counted(root, &mut steps)?;
    Ok((found.is_some(), steps.comparisons(), steps.visits()))
}

#[test]
fn only_children_cost_a_comparison_each(rt: HostRuntime) -> Result<(), Fail> {
    for (parts, steps) in [
        (FOUR.as_slice(), (true, 1, 2)),
        (FIVE.as_slice(), (false, 2, 2)),
        (NESTED.as_slice(), (true, 2, 3)),
        (DOUBLED.as_slice(), (true, 1, 2)),
    ] {
        let root = root_of(rt.alloc(), parts)?;
        assert!(rt; steps_from(rt.alloc(), &root) == Ok(steps));
    }
    Ok(())
}

#[test]
fn the_pointer_of_an_inner_node_leads_to_the_root(rt: HostRuntime) -> Result<(), Fail> {
    let root = root_of(rt.alloc(), &IN_TWO)?;
    let inner = child_of(&root)?;
    assert!(rt; pointer(rt.alloc()) == Ok(SyntaxNodePtr::new(&inner)));
    assert!(rt; raw_kind_of_target(rt.alloc(), &IN_TWO) == Ok(2));
    assert!(rt; steps_from(rt.alloc(), &root) == Ok((true, 0, 1)));
    Ok(())
}

#[test]
fn nothing_is_looked_at_below_a_parent(rt: HostRuntime) -> Result<(), Fail> {
    let four = child_of(&root_of(rt.alloc(), &FOUR)?)?;
    assert!(rt; steps_from(rt.alloc(), &four) == Ok((false, 0, 0)));
    Ok(())
}

#[test]
fn steps_add_up(rt: HostRuntime) -> Result<(), Fail> {
    let pointer = pointer(rt.alloc())?;
    let root = root_of(rt.alloc(), &NESTED)?;
    let mut steps = Steps::new();
    for _ in 0..3 {
        assert!(rt; pointer.try_to_node_counted(&root, &mut steps).is_ok());
    }
    assert!(rt; (steps.comparisons(), steps.visits()) == (6, 9));
    Ok(())
}
