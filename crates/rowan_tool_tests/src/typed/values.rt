//! What typed cursors show of themselves.
use super::{Answers, Element, Node, Token};
use crate::language::Parity;
use rowan::{ElementCalls, Fault, NodeOrToken, SyntaxKind, TypedElementCalls, cursor};

/// The kind that a raw kind means.
fn parity_of(raw: SyntaxKind) -> Parity {
    match raw.0 % 2 {
        0 => Parity::Even,
        _ => Parity::Odd,
    }
}

/// Whether the kinds, the ranges and the indices are the same.
pub fn are_same(typed: &Element, raw: &cursor::SyntaxElement) -> bool {
    typed.kind() == parity_of(raw.kind())
        && typed.text_range() == raw.text_range()
        && typed.index() == raw.index()
}

/// Whether a typed copy of a subtree is the raw one.
fn is_copy(typed: Result<Node, Fault>, raw: Result<cursor::SyntaxNode, Fault>) -> bool {
    match typed {
        Ok(typed) => raw == Ok(cursor::SyntaxNode::from(typed)),
        Err(_) => false,
    }
}

fn add_own_of_node(answers: &mut Answers, typed: &Node, raw: &cursor::SyntaxNode) {
    answers.add(typed.green() == raw.green());
    answers.add(typed.text() == raw.text() && raw.text().is_ok());
    answers.add(is_copy(typed.clone_subtree(), raw.clone_subtree()));
}

fn add_own_of_token(answers: &mut Answers, typed: &Token, raw: &cursor::SyntaxToken) {
    answers.add(typed.green() == raw.green());
    answers.add(typed.text() == raw.text());
    match raw.clone() {
        Ok(copy) => answers.add(Token::from(copy) == *typed),
        Err(_) => answers.add(false),
    }
}

/// Compares what nodes and tokens have of their own.
pub fn add_own(answers: &mut Answers, typed: &Element, raw: &cursor::SyntaxElement) {
    match (typed, raw) {
        (NodeOrToken::Node(typed), NodeOrToken::Node(raw)) => add_own_of_node(answers, typed, raw),
        (NodeOrToken::Token(typed), NodeOrToken::Token(raw)) => {
            add_own_of_token(answers, typed, raw)
        }
        (_, _) => answers.add(false),
    }
}
