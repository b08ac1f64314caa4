//! Nodes or tokens, directions, events of walks, and the tokens at an offset.
use crate::green::fixture::displays;
use rowan_green::{Direction, NodeOrToken, TokenAtOffset, WalkEvent};
use std::alloc::{AllocError, Global};
use std::collections::HashSet;
use std::fmt::Debug;
use std::mem;
use std::test::Fail;

type Element = NodeOrToken<u8, char>;

/// An element, with its node and its token.
const ELEMENTS: [(Element, Option<u8>, Option<char>); 2] = [
    (NodeOrToken::Node(7), Some(7), None),
    (NodeOrToken::Token('t'), None, Some('t')),
];

#[test]
fn elements_are_nodes_or_tokens(rt: HostRuntime) {
    for (element, node, token) in ELEMENTS {
        assert!(rt; element.as_node().copied() == node);
        assert!(rt; element.as_token().copied() == token);
        assert!(rt; element.into_node() == node);
        assert!(rt; element.into_token() == token);
    }
}

/// Whether a value is debugged as this text.
pub fn debugs<T: Debug>(alloc: Global, value: &T, text: &str) -> Result<bool, AllocError> {
    Ok(format!(in alloc; "{value:?}")?.as_str() == text)
}

#[test]
fn elements_show_what_they_hold(rt: HostRuntime) {
    for (element, shown, debugged) in [
        (Element::Node(7), "7", "Node(7)"),
        (Element::Token('t'), "t", "Token('t')"),
    ] {
        assert!(rt; displays(rt.alloc(), &element, shown) == Ok(true));
        assert!(rt; debugs(rt.alloc(), &element, debugged) == Ok(true));
    }
}

#[test]
fn nodes_stand_before_tokens(rt: HostRuntime) {
    assert!(rt; Element::Node(7) < Element::Token('a'));
    assert!(rt; Element::Token('a') < Element::Token('b'));
    assert!(rt; Element::Node(7) != Element::Node(8));
}

#[test]
fn directions_are_two(rt: HostRuntime) {
    assert!(rt; Direction::Next < Direction::Prev);
    for (direction, shown) in [(Direction::Next, "Next"), (Direction::Prev, "Prev")] {
        assert!(rt; debugs(rt.alloc(), &direction, shown) == Ok(true));
    }
}

#[test]
fn elements_and_directions_are_keys(rt: HostRuntime) -> Result<(), Fail> {
    let mut keys = HashSet::new(rt.alloc());
    for direction in [Direction::Next, Direction::Prev] {
        for (element, _, _) in ELEMENTS {
            assert!(rt; keys.insert((element, direction))?);
            assert!(rt; !keys.insert((element, direction))?);
        }
    }
    assert!(rt; keys.len() == 4);
    Ok(())
}

#[test]
fn events_keep_their_case(rt: HostRuntime) {
    for (event, shown, mapped) in [
        (WalkEvent::Enter(7u8), "Enter(7)", "Enter((7, true))"),
        (WalkEvent::Leave(11), "Leave(11)", "Leave((11, true))"),
    ] {
        assert!(rt; debugs(rt.alloc(), &event, shown) == Ok(true));
        assert!(rt; debugs(rt.alloc(), &event.map(|value| (value, true)), mapped) == Ok(true));
    }
}

/// Tokens at an offset, from left to right.
const FOUND: [(TokenAtOffset<u8>, &[u8]); 3] = [
    (TokenAtOffset::None, &[]),
    (TokenAtOffset::Single(7), &[7]),
    (TokenAtOffset::Between(7, 11), &[7, 11]),
];

/// Whether the tokens come so, one after the other.
fn gives(mut found: TokenAtOffset<u8>, tokens: &[u8]) -> bool {
    for (index, token) in tokens.iter().enumerate() {
        if found.len() != tokens.len() - index || found.next() != Some(*token) {
            return false;
        }
    }
    found.len() == 0 && found.next().is_none() && found.next().is_none()
}

#[test]
fn tokens_come_from_left_to_right(rt: HostRuntime) {
    for (found, tokens) in FOUND {
        assert!(rt; gives(found, tokens));
    }
}

#[test]
fn a_bias_takes_one_of_two(rt: HostRuntime) -> Result<(), Fail> {
    for (found, tokens) in FOUND {
        assert!(rt; found.clone()?.left_biased() == tokens.first().copied());
        assert!(rt; found.right_biased() == tokens.last().copied());
    }
    Ok(())
}

/// Tokens at an offset, and what they show once each has the one before it.
const MAPPED: [(TokenAtOffset<u8>, &str); 3] = [
    (TokenAtOffset::None, "None"),
    (TokenAtOffset::Single(7), "Single((0, 7))"),
    (TokenAtOffset::Between(7, 11), "Between((0, 7), (7, 11))"),
];

#[test]
fn tokens_are_mapped_from_left_to_right(rt: HostRuntime) {
    for (found, shown) in MAPPED {
        let mut before = 0;
        let mapped = found.map(|token| (mem::replace(&mut before, token), token));
        assert!(rt; debugs(rt.alloc(), &mapped, shown) == Ok(true));
    }
}
