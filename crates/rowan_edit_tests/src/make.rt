//! New elements for JSON texts.
use crate::fixture::has_text;
use json_syntax::{Json, Kind};
use rowan::{Fault, GreenElement, GreenNode, Language, NodeOrToken, SyntaxKind};
use rowan_edit::{EditError, Make};
use std::alloc::Global;

type Made = Result<GreenElement, EditError>;

/// What is made of a text: the first node that is an array.
fn array(alloc: Global, text: &str) -> Made {
    let make: Make<Json> = Make::new(alloc);
    make.from_text(text, |text| parsed(alloc, text), is_array)
}

fn parsed(alloc: Global, text: &str) -> Result<(GreenNode, usize), Fault> {
    let parse = json_syntax::parse(alloc, text)?;
    Ok((parse.green, parse.errors.len()))
}

fn is_array(kind: Kind) -> bool {
    kind == Kind::Array
}

/// A literal over a number that is made twice.
fn pair(alloc: Global, make: &mut Make<Json>) -> Made {
    let mut both = Vec::new(alloc);
    for _ in 0..2 {
        both.push(make.token(Kind::Number, "1")?)?;
    }
    make.node(Kind::Literal, both)
}

/// Whether two elements are equal. `None` where one was not made.
fn are_equal(one: Made, other: Made) -> Option<bool> {
    let Ok(one) = one else {
        return None;
    };
    let Ok(other) = other else {
        return None;
    };
    Some(one == other)
}

/// Whether a node was made with this kind and text.
fn is_node(alloc: Global, made: Made, kind: u16, text: &str) -> bool {
    let Ok(element) = made else {
        return false;
    };
    let NodeOrToken::Node(node) = element else {
        return false;
    };
    node.kind() == SyntaxKind(kind) && has_text(alloc, &node, text)
}

#[test]
fn makes_tokens(rt: HostRuntime) {
    let mut make: Make<Json> = Make::new(rt.alloc());
    let raw = Json::kind_to_raw(Kind::Number);
    let again = are_equal(make.token(Kind::Number, "1"), make.raw_token(raw, "1"));
    assert!(rt; again == Some(true));
    let other = are_equal(make.token(Kind::Number, "1"), make.token(Kind::Word, "1"));
    assert!(rt; other == Some(false));
}

#[test]
fn makes_nodes(rt: HostRuntime) {
    let alloc = rt.alloc();
    let mut make: Make<Json> = Make::new(alloc);
    assert!(rt; is_node(alloc, pair(alloc, &mut make), 15, "11"));
}

#[test]
fn makes_nodes_of_raw_kinds(rt: HostRuntime) {
    let alloc = rt.alloc();
    let make: Make<Json> = Make::new(alloc);
    let raw = Json::kind_to_raw(Kind::Array);
    for (kind, same) in [(Kind::Array, true), (Kind::Object, false)] {
        let empty = make.raw_node(raw, Vec::new(alloc));
        assert!(rt; are_equal(empty, make.node(kind, Vec::new(alloc))) == Some(same));
    }
}

#[test]
fn makes_the_first_node_of_a_text(rt: HostRuntime) {
    let alloc = rt.alloc();
    assert!(rt; is_node(alloc, array(alloc, "{\"a\": [1, [2]]}"), 14, "[1, [2]]"));
    assert!(rt; array(alloc, "{}") == Err(EditError::NoSuchNode));
    assert!(rt; array(alloc, "[1") == Err(EditError::TextHasErrors));
}
