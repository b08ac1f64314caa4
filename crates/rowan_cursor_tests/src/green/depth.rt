//! Equality of trees that hold the same children many times, and of trees of many levels.
use crate::green::fixture::{flat, leaf, levels_of_copies, node, word};
use rowan_green::{Fault, GreenElement, GreenNode};
use std::alloc::Global;

/// Levels at which a walk of all nodes of a doubled tree would not end.
const ENDLESS: u32 = 60;

/// A node that holds another twice, which holds another twice, and so on for so many levels.
fn doubled(alloc: Global) -> Result<GreenElement, Fault> {
    let empty = flat(alloc, 8, &[])?;
    levels_of_copies(alloc, ENDLESS, 2, GreenElement::from(empty))
}

/// A node of kind 9 over one child.
fn over(alloc: Global, child: GreenElement) -> Result<GreenNode, Fault> {
    node(alloc, 9, vec![in alloc; child]?)
}

#[test]
fn what_is_shared_is_equal_without_a_walk(rt: HostRuntime) -> Result<(), Fault> {
    let shared = doubled(rt.alloc())?;
    assert!(rt; shared == shared);
    let copy = shared.clone()?;
    assert!(rt; copy == shared);
    let left = over(rt.alloc(), shared)?;
    assert!(rt; over(rt.alloc(), copy) == Ok(left));
    Ok(())
}

/// A node over nodes, each over one of these words, and an element behind these.
fn words(alloc: Global, texts: &[&str], behind: GreenElement) -> Result<GreenNode, Fault> {
    let mut children = Vec::new(alloc);
    for text in texts {
        children.push(GreenElement::from(word(alloc, 8, text)?))?;
    }
    children.push(behind)?;
    node(alloc, 8, children)
}

/// So many nodes, one in the other, and the innermost over this one. Each has a token before the
/// next node and one behind it.
fn nested(alloc: Global, innermost: GreenNode, levels: u32) -> Result<GreenNode, Fault> {
    let mut tree = innermost;
    for _ in 0..levels {
        let mut children = vec![in alloc; leaf(alloc, 2, "(")?, GreenElement::from(tree)]?;
        children.push(leaf(alloc, 3, ")")?)?;
        tree = node(alloc, 9, children)?;
    }
    Ok(tree)
}

/// A tree of this text, so many levels below the root.
fn deep(alloc: Global, text: &[&str], last: &str, levels: u32) -> Result<GreenNode, Fault> {
    let innermost = GreenElement::from(word(alloc, 7, last)?);
    nested(alloc, words(alloc, text, innermost)?, levels)
}

/// Levels at which trees are compared by recursion, by a list, and on both sides of where one
/// begins.
const LEVELS: [u32; 9] = [0, 1, 125, 126, 127, 128, 129, 300, 10_000];

/// Texts of deep trees, and whether they are that of the first.
const TEXTS: [(&[&str], &str, bool); 4] = [
    (&["a", "b"], "c", true),
    (&["x", "b"], "c", false),
    (&["a", "x"], "c", false),
    (&["a", "b"], "x", false),
];

#[test]
fn deep_trees_are_equal_by_all_their_tokens(rt: HostRuntime) -> Result<(), Fault> {
    for levels in LEVELS {
        let tree = deep(rt.alloc(), &["a", "b"], "c", levels)?;
        for (text, last, is_equal) in TEXTS {
            assert!(rt; equals(deep(rt.alloc(), text, last, levels), &tree) == Ok(is_equal));
        }
    }
    Ok(())
}

/// Whether a tree is equal to another one.
fn equals(tree: Result<GreenNode, Fault>, other: &GreenNode) -> Result<bool, Fault> {
    Ok(tree? == *other)
}

/// A tree with this token behind the innermost levels, and as many levels above these.
fn ending(alloc: Global, last: &str, levels: u32) -> Result<GreenNode, Fault> {
    let inner = nested(alloc, word(alloc, 8, "a")?, levels)?;
    let children = vec![in alloc; GreenElement::from(inner), leaf(alloc, 3, last)?]?;
    nested(alloc, node(alloc, 9, children)?, levels)
}

#[test]
fn deep_trees_are_equal_by_what_stands_behind_nodes(rt: HostRuntime) -> Result<(), Fault> {
    for levels in LEVELS {
        let tree = ending(rt.alloc(), ")", levels)?;
        for (last, is_equal) in [(")", true), ("x", false)] {
            assert!(rt; equals(ending(rt.alloc(), last, levels), &tree) == Ok(is_equal));
        }
    }
    Ok(())
}

/// A tree in which these words stand before a doubled tree, so many levels below the root.
fn before_doubled(alloc: Global, text: &[&str], levels: u32) -> Result<GreenNode, Fault> {
    nested(alloc, words(alloc, text, doubled(alloc)?)?, levels)
}

#[test]
fn the_first_difference_is_found_first(rt: HostRuntime) -> Result<(), Fault> {
    for levels in LEVELS {
        let tree = before_doubled(rt.alloc(), &["a", "a"], levels)?;
        let other = before_doubled(rt.alloc(), &["a", "b"], levels);
        assert!(rt; equals(other, &tree) == Ok(false));
    }
    Ok(())
}
