//! Lists of nodes and of elements.
use super::{Answers, Element, Node, Token, is_element, is_node, root_of};
use crate::parts::shows;
use rowan::{Direction, ElementCalls, Fault, NodeOrToken, TypedElementCalls, cursor};
use std::alloc::Global;
use std::test::Fail;

/// Compares two lists, one item after the other, and their lengths.
fn add_nodes(
    answers: &mut Answers,
    typed: Result<Vec<Node>, Fault>,
    raw: Result<Vec<cursor::SyntaxNode>, Fault>,
) {
    match (typed, raw) {
        (Ok(typed), Ok(raw)) => {
            answers.add(typed.len() == raw.len());
            for (typed, raw) in typed.into_iter().zip(raw) {
                answers.add(is_node(typed, raw));
            }
        }
        (_, _) => answers.add(false),
    }
}

/// Compares two lists, one item after the other, and their lengths.
fn add_elements(
    answers: &mut Answers,
    typed: Result<Vec<Element>, Fault>,
    raw: Result<Vec<cursor::SyntaxElement>, Fault>,
) {
    match (typed, raw) {
        (Ok(typed), Ok(raw)) => {
            answers.add(typed.len() == raw.len());
            for (typed, raw) in typed.into_iter().zip(raw) {
                answers.add(is_element(typed, raw));
            }
        }
        (_, _) => answers.add(false),
    }
}

/// Compares the lists of nodes from a node.
pub fn add_of_nodes(
    alloc: Global,
    answers: &mut Answers,
    typed: &Element,
    raw: &cursor::SyntaxElement,
) {
    match (typed, raw) {
        (NodeOrToken::Node(typed), NodeOrToken::Node(raw)) => {
            let found = typed.children().try_collect(alloc);
            add_nodes(answers, found, raw.children().try_collect(alloc));
            let found = typed.descendants().try_collect(alloc);
            add_nodes(answers, found, raw.descendants().try_collect(alloc));
            let found = typed.siblings(Direction::Prev).try_collect(alloc);
            add_nodes(
                answers,
                found,
                raw.siblings(Direction::Prev).try_collect(alloc),
            );
        }
        (_, _) => {}
    }
}

fn add_lists_of_node(alloc: Global, answers: &mut Answers, typed: &Node, raw: &cursor::SyntaxNode) {
    let found = typed.children_with_tokens().try_collect(alloc);
    add_elements(
        answers,
        found,
        raw.children_with_tokens().try_collect(alloc),
    );
    let found = typed.descendants_with_tokens().try_collect(alloc);
    add_elements(
        answers,
        found,
        raw.descendants_with_tokens().try_collect(alloc),
    );
    let found = typed.siblings_with_tokens(Direction::Next);
    let expected = raw.siblings_with_tokens(Direction::Next);
    add_elements(
        answers,
        found.try_collect(alloc),
        expected.try_collect(alloc),
    );
}

fn add_lists_of_token(
    alloc: Global,
    answers: &mut Answers,
    typed: &Token,
    raw: &cursor::SyntaxToken,
) {
    let found = typed.siblings_with_tokens(Direction::Prev);
    let expected = raw.siblings_with_tokens(Direction::Prev);
    add_elements(
        answers,
        found.try_collect(alloc),
        expected.try_collect(alloc),
    );
    let found = typed.ancestors().try_collect(alloc);
    add_nodes(answers, found, raw.ancestors().try_collect(alloc));
}

/// Compares the lists of elements from a node, or the lists from a token.
pub fn add_of_elements(
    alloc: Global,
    answers: &mut Answers,
    typed: &Element,
    raw: &cursor::SyntaxElement,
) {
    match (typed, raw) {
        (NodeOrToken::Node(typed), NodeOrToken::Node(raw)) => {
            add_lists_of_node(alloc, answers, typed, raw)
        }
        (NodeOrToken::Token(typed), NodeOrToken::Token(raw)) => {
            add_lists_of_token(alloc, answers, typed, raw)
        }
        (_, _) => answers.add(false),
    }
}

/// Compares the ancestors of elements.
pub fn add_ancestors(
    alloc: Global,
    answers: &mut Answers,
    typed: &Element,
    raw: &cursor::SyntaxElement,
) {
    let found = typed.ancestors().try_collect(alloc);
    add_nodes(answers, found, raw.ancestors().try_collect(alloc));
}

/// What a copy of a list gives once its first child was taken.
fn rest_of_children(alloc: Global, from: &Node) -> Result<Vec<Element>, Fault> {
    let mut children = from.children_with_tokens();
    let _ = children.next();
    children.clone()?.try_collect(alloc)
}

/// Compares what copies of lists give.
pub fn add_rest(
    alloc: Global,
    answers: &mut Answers,
    typed: &Element,
    raw: &cursor::SyntaxElement,
) {
    match (typed, raw) {
        (NodeOrToken::Node(typed), NodeOrToken::Node(raw)) => {
            let found = rest_of_children(alloc, typed);
            add_elements(
                answers,
                found,
                raw.children_with_tokens().skip(1).try_collect(alloc),
            );
        }
        (_, _) => {}
    }
}

#[test]
fn a_list_shows_its_name(rt: HostRuntime) -> Result<(), Fail> {
    let list = Node::from(root_of(rt.alloc())?).children_with_tokens();
    assert!(rt; shows(rt.alloc(), &list, "SyntaxElementChildren"));
    Ok(())
}
