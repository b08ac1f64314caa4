//! Walks.
use super::{Answers, Element, Node, is_element, is_node, root_of};
use crate::language::Numbers;
use rowan::api::PreorderWithTokens;
use rowan::{Fault, WalkEvent, cursor};
use std::test::Fail;

/// Whether an event is the raw one.
fn is_node_event(
    typed: Result<WalkEvent<Node>, Fault>,
    raw: Result<WalkEvent<cursor::SyntaxNode>, Fault>,
) -> bool {
    match (typed, raw) {
        (Ok(typed), Ok(raw)) => match (typed, raw) {
            (WalkEvent::Enter(typed), WalkEvent::Enter(raw)) => is_node(typed, raw),
            (WalkEvent::Leave(typed), WalkEvent::Leave(raw)) => is_node(typed, raw),
            (_, _) => false,
        },
        (_, _) => false,
    }
}

/// Whether an event is the raw one.
fn is_event(
    typed: Result<WalkEvent<Element>, Fault>,
    raw: Result<WalkEvent<cursor::SyntaxElement>, Fault>,
) -> bool {
    match (typed, raw) {
        (Ok(typed), Ok(raw)) => match (typed, raw) {
            (WalkEvent::Enter(typed), WalkEvent::Enter(raw)) => is_element(typed, raw),
            (WalkEvent::Leave(typed), WalkEvent::Leave(raw)) => is_element(typed, raw),
            (_, _) => false,
        },
        (_, _) => false,
    }
}

/// Compares a walk over the nodes.
fn walk_answers(typed: &Node, raw: &cursor::SyntaxNode) -> Answers {
    let mut answers = Answers::new();
    for (typed, raw) in typed.preorder().zip(raw.preorder()) {
        answers.add(is_node_event(typed, raw));
    }
    answers
}

/// What is left of a walk once the subtree of its second event is skipped.
fn walk_with_skip(root: &Node) -> Result<PreorderWithTokens<Numbers>, Fault> {
    let mut walk = root.preorder_with_tokens();
    let _ = walk.next();
    let _ = walk.next();
    walk.skip_subtree();
    Ok(walk.clone()?)
}

/// The same of a raw walk.
fn raw_walk_with_skip(root: &cursor::SyntaxNode) -> cursor::PreorderWithTokens {
    let mut walk = root.preorder_with_tokens();
    let _ = walk.next();
    let _ = walk.next();
    walk.skip_subtree();
    walk
}

/// Compares what is left of walks.
fn skip_answers(typed: &Node, raw: &cursor::SyntaxNode) -> Result<Answers, Fault> {
    let mut answers = Answers::new();
    for (typed, raw) in walk_with_skip(typed)?.zip(raw_walk_with_skip(raw)) {
        answers.add(is_event(typed, raw));
    }
    Ok(answers)
}

#[test]
fn walks_and_skips_are_the_raw_ones(rt: HostRuntime) -> Result<(), Fail> {
    let raw = root_of(rt.alloc())?;
    let typed = Node::from(raw.clone()?);
    assert!(rt; walk_answers(&typed, &raw).are_all_same(10));
    assert!(rt; skip_answers(&typed, &raw)?.are_all_same(16));
    Ok(())
}
