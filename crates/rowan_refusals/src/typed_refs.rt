//! The calls of typed cursors that are borrowed, none of which asks for memory.

use crate::moving::hash_of;
use crate::refs::tell_all;
use crate::searches::{Search, range};
use crate::typed::moves;
use rowan::{
    Direction, NodeOrToken, Steps, SyntaxElement, SyntaxElementRef, SyntaxNodeRef, TextSize,
    TypedElementRefCalls,
};
use rowan_moves::typed_refs;
use rowan_tool::sexp::Lang;
use rowan_transcript::{Stop, Transcript};

type Node<'t> = SyntaxNodeRef<'t, Lang>;

type Element<'t> = SyntaxElementRef<'t, Lang>;

/// The element, borrowed from its tree.
pub fn borrowed(element: &SyntaxElement<Lang>) -> Element<'_> {
    match element {
        NodeOrToken::Node(node) => NodeOrToken::Node(node.as_ref()),
        NodeOrToken::Token(token) => NodeOrToken::Token(token.as_ref()),
    }
}

/// Says where the moves from an element lead.
pub fn tell_moves(log: &Transcript<'_>, element: &SyntaxElement<Lang>) -> Result<(), Stop> {
    let element = borrowed(element);
    for way in moves() {
        log.tell("by ref", &typed_refs::target(*way, element))?;
    }
    tell_all(log, element.ancestors())?;
    tell_beside_parent(log, element)?;
    log.tell("by ref", &element.into_owned()?)?;
    match element {
        NodeOrToken::Node(node) => log.tell("by ref", &node.text()),
        NodeOrToken::Token(token) => { tell_all(log, token.siblings_with_tokens(Direction::Prev)) }
    }
}

/// Says how an element and its parent are alike.
fn tell_beside_parent(log: &Transcript<'_>, element: Element<'_>) -> Result<(), Stop> {
    let Some(parent) = element.parent() else {
        return Ok(());
    };
    let parent = NodeOrToken::Node(parent);
    log.tell("by ref, equal", &(element == parent))?;
    let alike = hash_of(&element) == hash_of(&parent);
    log.tell("by ref, hashed equally", &alike)
}

/// Says what the iterators at a node give, and the walks after a skip behind their second event.
pub fn tell_lists(log: &Transcript<'_>, node: Node<'_>) -> Result<(), Stop> {
    tell_by_kind(log, node)?;
    tell_all(log, node.children())?;
    tell_all(log, node.children_with_tokens())?;
    tell_all(log, node.ancestors())?;
    tell_all(log, node.siblings(Direction::Next))?;
    tell_all(log, node.siblings_with_tokens(Direction::Next))?;
    tell_all(log, node.descendants())?;
    tell_all(log, node.descendants_with_tokens())?;
    tell_walks(log, node)
}

fn tell_walks(log: &Transcript<'_>, node: Node<'_>) -> Result<(), Stop> {
    let mut walk = node.preorder();
    log.tell("by ref", &(walk.next(), walk.next()))?;
    walk.skip_subtree();
    tell_all(log, walk)?;
    let mut walk = node.preorder_with_tokens();
    log.tell("by ref", &(walk.next(), walk.next()))?;
    walk.skip_subtree();
    tell_all(log, walk)
}

/// Says which children and siblings of a node are of its kind, and which child is a token of the
/// kind of its first token.
fn tell_by_kind(log: &Transcript<'_>, node: Node<'_>) -> Result<(), Stop> {
    let kind = node.kind();
    tell_all(log, node.children().by_kind(kind))?;
    log.tell("by ref", &node.first_child_by_kind(kind))?;
    log.tell("by ref", &node.next_sibling_by_kind(kind))?;
    match node.first_token() {
        Some(token) => log.tell("by ref", &node.first_token_of_kind(token.kind())),
        None => Ok(()),
    }
}

/// Says what a search finds.
pub fn tell_search(log: &Transcript<'_>, search: Search, node: Node<'_>) -> Result<(), Stop> {
    match search {
        Search::ChildAt(start, end) => {
            let range = range(start, end)?;
            let mut steps = Steps::new();
            let found = node.child_or_token_at_range_counted(range, &mut steps);
            log.tell("by ref", &(found, steps.comparisons()))
        }
        Search::Covering(start, end) => {
            let range = range(start, end)?;
            if !node.text_range().contains_range(range) {
                return Ok(());
            }
            log.tell("by ref", &node.covering_element(range))
        }
        Search::TokensAt(offset) => {
            let offset = TextSize::from(offset);
            if !node.text_range().contains_inclusive(offset) {
                return Ok(());
            }
            log.tell("by ref", &node.token_at_offset(offset))
        }
    }
}
