//! Walks and random moves by cursors that are borrowed from their tree.

use crate::cursors::{Move, NodeMove, Visited};
use rowan::NodeOrToken;
use rowan::cursor::{ElementRefCalls, SyntaxElementRef, SyntaxNodeRef};

/// How deep the loops over children go.
const LEVELS: usize = 1_000;

/// Where a move leads, if anywhere.
fn after<'tree>(to: Move, place: SyntaxElementRef<'tree>) -> Option<SyntaxElementRef<'tree>> {
    match (to, place) {
        (Move::Parent, _) => match place.parent() {
            Some(node) => Some(NodeOrToken::Node(node)),
            None => None,
        },
        (Move::FirstChild, NodeOrToken::Node(node)) => node.first_child_or_token(),
        (Move::LastChild, NodeOrToken::Node(node)) => node.last_child_or_token(),
        (Move::FirstChild | Move::LastChild, NodeOrToken::Token(_)) => None,
        (Move::Next, _) => place.next_sibling_or_token(),
        (Move::Previous, _) => place.prev_sibling_or_token(),
    }
}

/// Makes the moves one after the other. Where one leads nowhere the cursor stays.
pub fn make_moves(root: SyntaxNodeRef<'_>, moves: &[Move]) -> Visited {
    let mut places: u64 = 1;
    let mut place = NodeOrToken::Node(root);
    for to in moves {
        if let Some(next) = after(*to, place) {
            place = next;
            places = places.wrapping_add(1);
        }
    }
    let last = place.text_range().start();
    Visited { places, last }
}

/// Makes the moves between nodes one after the other. Where one leads nowhere the cursor stays.
pub fn make_node_moves(root: SyntaxNodeRef<'_>, moves: &[NodeMove]) -> Visited {
    let mut places: u64 = 1;
    let mut node = root;
    for to in moves {
        let next = match to {
            NodeMove::Parent => node.parent(),
            NodeMove::NextSibling => node.next_sibling(),
            NodeMove::FirstChild => node.first_child(),
        };
        if let Some(next) = next {
            node = next;
            places = places.wrapping_add(1);
        }
    }
    let last = node.text_range().start();
    Visited { places, last }
}

/// Walks from a root to each node and token, from parent to first child, and from sibling to sibling.
pub fn walk(root: SyntaxNodeRef<'_>) -> Visited {
    let mut places: u64 = 0;
    let mut place = NodeOrToken::Node(root);
    for _ in 0..u64::MAX {
        places = places.wrapping_add(1);
        match next_of(place) {
            Some(next) => place = next,
            None => break,
        }
    }
    let last = place.text_range().start();
    Visited { places, last }
}

/// The place behind another one in the order of the text, where a node stands before its children.
fn next_of<'tree>(place: SyntaxElementRef<'tree>) -> Option<SyntaxElementRef<'tree>> {
    if let NodeOrToken::Node(node) = place {
        if let Some(child) = node.first_child_or_token() {
            return Some(child);
        }
    }
    if let Some(next) = place.next_sibling_or_token() {
        return Some(next);
    }
    let mut above = place.parent();
    for _ in 0..u64::MAX {
        let node = above?;
        if let Some(next) = node.next_sibling_or_token() {
            return Some(next);
        }
        above = node.parent();
    }
    None
}

/// How many places were seen, and the last of them.
#[derive(Drop)]
struct Seen<'tree> {
    places: u64,
    last: SyntaxElementRef<'tree>,
}

/// Goes through all nodes and tokens by loops over children, one in the other.
pub fn loops(root: SyntaxNodeRef<'_>) -> Visited {
    let mut seen = Seen {
        places: 1,
        last: NodeOrToken::Node(root),
    };
    see_children(root, LEVELS, &mut seen);
    let last = seen.last.text_range().start();
    Visited {
        places: seen.places,
        last,
    }
}

fn see_children<'tree>(node: SyntaxNodeRef<'tree>, levels: usize, seen: &mut Seen<'tree>) {
    let Some(levels) = levels.checked_sub(1) else {
        return;
    };
    for child in node.children_with_tokens() {
        seen.places = seen.places.wrapping_add(1);
        seen.last = child;
        if let NodeOrToken::Node(below) = child {
            see_children(below, levels, seen);
        }
    }
}
