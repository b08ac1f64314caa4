//! Walks, lists and comparisons of cursors.
use crate::trees::Tree;
use rowan::{Direction, Fault, GreenToken, SyntaxNode, TypedElementCalls, WalkEvent};
use rowan_tool::sexp::Lang;
use std::collections::HashMap;

pub fn make(call: &str, tree: &Tree) -> Result<Option<u64>, Fault> {
    let number = match call {
        "new_root" => new_root(tree),
        "clone_subtree" => clone_subtree(tree),
        "preorder_with_tokens" => preorder_with_tokens(tree),
        "preorder" => preorder(tree),
        "skip_subtree" => skip_subtree(tree),
        "descendants" => descendants(tree),
        "descendants_with_tokens" => descendants_with_tokens(tree),
        "cursor_children" => cursor_children(tree),
        "children_with_tokens" => children_with_tokens(tree),
        "siblings" => siblings(tree),
        "siblings_with_tokens" => siblings_with_tokens(tree),
        "ancestors" => ancestors(tree),
        "cursor_eq" => cursor_eq(tree),
        "cursor_eq_twin" => cursor_eq_twin(tree),
        "parent_eq_root" => parent_eq_root(tree),
        "nodes_in_a_map" => nodes_in_a_map(tree),
        "replace_with" => replace_with(tree),
        _ => return Ok(None),
    };
    Ok(Some(number?))
}

fn new_root(tree: &Tree) -> Result<u64, Fault> {
    let root: SyntaxNode<Lang> = SyntaxNode::new_root(tree.alloc, tree.green.clone()?)?;
    Ok(u64::from(u32::from(root.text_range().len())))
}

fn clone_subtree(tree: &Tree) -> Result<u64, Fault> {
    let root = tree.root.clone_subtree()?;
    Ok(u64::from(u32::from(root.text_range().len())))
}

fn preorder_with_tokens(tree: &Tree) -> Result<u64, Fault> {
    let mut events: u64 = 0;
    for event in tree.root.preorder_with_tokens() {
        let _event = event?;
        events = events.wrapping_add(1);
    }
    Ok(events)
}

fn preorder(tree: &Tree) -> Result<u64, Fault> {
    let mut events: u64 = 0;
    for event in tree.root.preorder() {
        let _event = event?;
        events = events.wrapping_add(1);
    }
    Ok(events)
}

/// Skips each node below the root.
fn skip_subtree(tree: &Tree) -> Result<u64, Fault> {
    let mut walk = tree.root.preorder();
    let mut events: u64 = 0;
    for _ in 0..u64::MAX {
        let Some(event) = walk.next() else {
            break;
        };
        if let WalkEvent::Enter(node) = event? {
            if node.index() % 2 == 1 {
                walk.skip_subtree();
            }
        }
        events = events.wrapping_add(1);
    }
    Ok(events)
}

fn descendants(tree: &Tree) -> Result<u64, Fault> {
    let mut sum: u64 = 0;
    for node in tree.root.descendants() {
        sum = sum.wrapping_add(node?.index() as u64);
    }
    Ok(sum)
}

fn descendants_with_tokens(tree: &Tree) -> Result<u64, Fault> {
    let mut sum: u64 = 0;
    for element in tree.root.descendants_with_tokens() {
        sum = sum.wrapping_add(element?.index() as u64);
    }
    Ok(sum)
}

fn cursor_children(tree: &Tree) -> Result<u64, Fault> {
    let mut sum: u64 = 0;
    for node in tree.root.children() {
        sum = sum.wrapping_add(node?.index() as u64);
    }
    Ok(sum)
}

fn children_with_tokens(tree: &Tree) -> Result<u64, Fault> {
    let mut sum: u64 = 0;
    for element in tree.root.children_with_tokens() {
        sum = sum.wrapping_add(element?.index() as u64);
    }
    Ok(sum)
}

/// The siblings of the last child, back to the first.
fn siblings(tree: &Tree) -> Result<u64, Fault> {
    let Some(last) = tree.root.last_child()? else {
        return Ok(0);
    };
    let mut sum: u64 = 0;
    for node in last.siblings(Direction::Prev) {
        sum = sum.wrapping_add(node?.index() as u64);
    }
    Ok(sum)
}

fn siblings_with_tokens(tree: &Tree) -> Result<u64, Fault> {
    let Some(token) = tree.root.first_token()? else {
        return Ok(0);
    };
    let mut sum: u64 = 0;
    for element in token.siblings_with_tokens(Direction::Next) {
        sum = sum.wrapping_add(element?.index() as u64);
    }
    Ok(sum)
}

/// The nodes around the last token.
fn ancestors(tree: &Tree) -> Result<u64, Fault> {
    let Some(token) = tree.root.last_token()? else {
        return Ok(0);
    };
    let mut sum: u64 = 0;
    for node in token.parent_ancestors() {
        sum = sum.wrapping_add(node?.index() as u64).wrapping_add(1);
    }
    Ok(sum)
}

fn cursor_eq(tree: &Tree) -> Result<u64, Fault> {
    let clone = tree.root.clone()?;
    Ok(u64::from(tree.root == clone))
}

fn cursor_eq_twin(tree: &Tree) -> Result<u64, Fault> {
    Ok(u64::from(tree.root == tree.twin_root))
}

/// Of each child, whether its parent is the root.
fn parent_eq_root(tree: &Tree) -> Result<u64, Fault> {
    let mut equal: u64 = 0;
    for child in tree.root.children_with_tokens() {
        if let Some(parent) = child?.parent()? {
            equal = equal.wrapping_add(u64::from(parent == tree.root));
        }
    }
    Ok(equal)
}

/// Puts all nodes into a map.
fn nodes_in_a_map(tree: &Tree) -> Result<u64, Fault> {
    let mut places: HashMap<SyntaxNode<Lang>, usize> = HashMap::new(tree.alloc);
    for node in tree.root.descendants() {
        let node = node?;
        let index = node.index();
        places.insert(node, index)?;
    }
    Ok(places.len() as u64)
}

/// Another token in place of the last one.
fn replace_with(tree: &Tree) -> Result<u64, Fault> {
    let Some(token) = tree.root.last_token()? else {
        return Ok(0);
    };
    let new = GreenToken::new(tree.alloc, token.green().kind(), "other")?;
    Ok(u64::from(u32::from(token.replace_with(new)?.text_len())))
}
