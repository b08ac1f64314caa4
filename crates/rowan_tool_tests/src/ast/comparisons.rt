//! The visits and comparisons of the search for the node of a pointer.
use super::Node;
use crate::parts::Part::{self, Close, Leaf, Open};
use crate::parts::tree;
use rowan::ast::SyntaxNodePtr;
use rowan::{Fault, GreenElement, GreenNode, Language, Steps, SyntaxKind, SyntaxNode};
use rowan_tool::sexp;
use std::alloc::Global;
use std::test::Fail;

/// The visits and comparisons of the search for a node from the root. None where its pointer does
/// not lead to it.
fn steps_to<L: Language>(
    root: &SyntaxNode<L>,
    node: Result<SyntaxNode<L>, Fault>,
) -> Option<(u64, u64)> {
    let node = node.ok()?;
    let pointer = SyntaxNodePtr::new(&node);
    let mut steps = Steps::new();
    if pointer.try_to_node_counted(root, &mut steps) == Ok(Some(node)) {
        Some((steps.visits(), steps.comparisons()))
    } else {
        None
    }
}

/// The visits and comparisons of each node of `(+ (* 15 2) 62)`, from the root on. A search by
/// halves compares the only child of the root. Of the seven children of a list it compares the
/// middle one, and then the second or the sixth, which are the other nodes.
const STEPS: [(u64, u64); 8] = [
    (1, 0),
    (2, 1),
    (3, 3),
    (3, 2),
    (4, 4),
    (4, 3),
    (4, 4),
    (3, 3),
];

#[test]
fn steps_in_a_sum(rt: HostRuntime) -> Result<(), Fail> {
    let root = sexp::parse(rt.alloc(), "(+ (* 15 2) 62)")?.syntax(rt.alloc())?;
    let mut expected = STEPS.into_iter();
    for node in root.descendants() {
        let steps = steps_to(&root, node);
        assert!(rt; steps.is_some() && steps == expected.next());
    }
    assert!(rt; expected.next().is_none());
    Ok(())
}

/// A node of one byte.
const BYTE: [Part; 3] = [Open(2), Leaf(1, "a"), Close];

/// A node so many times.
fn copies(alloc: Global, node: &GreenNode, count: usize) -> Result<Vec<GreenElement>, Fault> {
    let mut copies = Vec::with_capacity(alloc, count)?;
    for _ in 0..count {
        copies.push(GreenElement::from(node.clone()?))?;
    }
    Ok(copies)
}

/// A root over nodes of one byte each.
fn bytes(alloc: Global, count: usize) -> Result<Node, Fault> {
    let children = copies(alloc, &tree(alloc, &BYTE)?, count)?;
    Node::new_root(alloc, GreenNode::new(alloc, SyntaxKind(3), children)?)
}

/// Whether the pointer to a child of the root leads to it by two visits, with one comparison at
/// least, and with no more than `most`.
fn is_found_within(root: &Node, child: Result<Node, Fault>, most: u64) -> bool {
    match steps_to(root, child) {
        Some((visits, comparisons)) => visits == 2 && 1 <= comparisons && comparisons <= most,
        None => false,
    }
}

/// Counts of children, the distance between the ones that are searched, and the binary digits of
/// the count.
const SIZES: [(usize, usize, u64); 3] = [(1, 1, 1), (1_000, 1, 10), (1_000_000, 2, 20)];

// A search from the first child on takes too long for a test, whether it counts its comparisons or
// not. `rt try --test` is slow at this, and wants `--seconds 200`.
#[test]
fn a_million_nodes_are_searched_by_halves(rt: HostRuntime) -> Result<(), Fail> {
    for (count, distance, digits) in SIZES {
        let root = bytes(rt.alloc(), count)?;
        for child in root.children().step_by(distance) {
            assert!(rt; is_found_within(&root, child, digits));
        }
    }
    Ok(())
}
