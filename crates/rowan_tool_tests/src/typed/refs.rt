//! Elements that are borrowed from their tree.
use super::{Answers, Element, Node, root_of};
use crate::language::{Numbers, Parity};
use crate::parts::shows;
use rowan::api::PreorderRef;
use rowan::ast::SyntaxNodePtr;
use rowan::{
    NodeOrToken, SyntaxElementRef, SyntaxNodeRef, TypedElementCalls, TypedElementRefCalls,
    WalkEvent,
};
use std::alloc::{AllocError, Global};
use std::hash::{DefaultHasher, Hash, Hasher};
use std::test::Fail;

fn borrowed(element: &Element) -> SyntaxElementRef<'_, Numbers> {
    match element {
        NodeOrToken::Node(node) => NodeOrToken::Node(node.as_ref()),
        NodeOrToken::Token(token) => NodeOrToken::Token(token.as_ref()),
    }
}

fn hash_of<T: Hash>(value: &T) -> u64 {
    let mut state = DefaultHasher::new();
    value.hash(&mut state);
    state.finish()
}

/// Whether a borrowed element prints as the owned one does.
fn prints_alike(alloc: Global, owned: &Element) -> Result<bool, AllocError> {
    let line = format!(in alloc; "{owned:?}")?;
    Ok(shows(alloc, &borrowed(owned), line.as_str()))
}

/// Compares what a borrowed element shows with what the owned one does.
pub fn add_shown(alloc: Global, answers: &mut Answers, owned: &Element) {
    let borrowed = borrowed(owned);
    answers.add(borrowed.kind() == owned.kind());
    answers.add(hash_of(&borrowed) == hash_of(owned));
    answers.add(prints_alike(alloc, owned) == Ok(true));
}

/// How many children are of each kind.
fn counts(node: SyntaxNodeRef<'_, Numbers>) -> (usize, usize) {
    let even = node.children().by_kind(Parity::Even).count();
    (even, node.children().by_kind(Parity::Odd).count())
}

/// Whether the first token of a kind has this text.
fn is_first_odd_token(root: SyntaxNodeRef<'_, Numbers>, text: &str) -> bool {
    match root.first_token_of_kind(Parity::Odd) {
        Some(token) => token.text() == text,
        None => false,
    }
}

/// The raw kinds of the first child of a kind and of the next sibling of the other one.
fn first_and_next(root: SyntaxNodeRef<'_, Numbers>) -> Option<(u16, u16)> {
    let first = root.first_child_by_kind(Parity::Odd)?;
    let next = first.next_sibling_by_kind(Parity::Even)?;
    Some((first.green().kind().0, next.green().kind().0))
}

/// How many events of a walk are left behind the first four, and behind a skip there.
fn left_behind_four(root: SyntaxNodeRef<'_, Numbers>) -> (usize, usize) {
    let mut walk = root.preorder();
    for _ in 0..4u8 {
        let _ = walk.next();
    }
    let mut skipping = walk;
    skipping.skip_subtree();
    (events_left(walk), events_left(skipping))
}

fn events_left(walk: PreorderRef<'_, Numbers>) -> usize {
    let mut count = 0usize;
    for _event in walk {
        count = count.saturating_add(1);
    }
    count
}

/// Whether the pointer to the first odd child leads back to it.
fn leads_back(root: SyntaxNodeRef<'_, Numbers>) -> bool {
    match root.first_child_by_kind(Parity::Odd) {
        Some(child) => SyntaxNodePtr::from_ref(child).try_to_node_ref(root) == Some(child),
        None => false,
    }
}

#[test]
fn borrowed_cursors_find_kinds_skip_and_lead_back(rt: HostRuntime) -> Result<(), Fail> {
    let root = Node::from(root_of(rt.alloc())?);
    assert!(rt; counts(root.as_ref()) == (2, 1));
    assert!(rt; is_first_odd_token(root.as_ref(), "e"));
    assert!(rt; first_and_next(root.as_ref()) == Some((5, 6)));
    assert!(rt; left_behind_four(root.as_ref()) == (6, 4));
    assert!(rt; leads_back(root.as_ref()));
    Ok(())
}
