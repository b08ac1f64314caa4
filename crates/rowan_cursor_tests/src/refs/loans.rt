//! How long what is borrowed lives.
use super::shown;
use crate::fixture::{LIST, SUM, node, root_of};
use rowan_cursor::cursor::{SyntaxNode, SyntaxNodeRef, SyntaxTokenRef};
use rowan_cursor::syntax_text::SyntaxTextRef;
use rowan_green::{Fault, NodeOrToken, SyntaxKind, TextSize};
use std::alloc::{AllocError, Global};
use std::test::Fail;

/// The first list in a tree that nothing else keeps.
fn first_list(alloc: Global) -> Result<SyntaxNode, Fault> {
    let root = root_of(alloc, SUM.as_slice())?;
    match root.as_ref().first_child() {
        Some(list) => list.to_owned(),
        None => Err(Fault::NotFound),
    }
}

#[test]
fn an_owned_node_outlives_what_it_was_made_of(rt: HostRuntime) -> Result<(), Fail> {
    let list = first_list(rt.alloc())?;
    assert!(rt; shown(list.as_ref()) == (LIST, 0, 15));
    assert!(rt; node(list.parent()) == Ok(Some((0, 0, 15))));
    Ok(())
}

/// The text of the longest token, which outlives the walk that found it.
fn longest_text<'t>(node: SyntaxNodeRef<'t>) -> Option<&'t str> {
    let mut longest: Option<SyntaxTokenRef<'t>> = None;
    for element in node.descendants_with_tokens() {
        if let NodeOrToken::Token(token) = element {
            if longest.is_none_or(|found| token.text().len() > found.text().len()) {
                longest = Some(token);
            }
        }
    }
    Some(longest?.text())
}

/// The nodes of a kind, all borrowed at once.
fn nodes_of_kind<'t>(
    alloc: Global,
    root: SyntaxNodeRef<'t>,
    kind: u16,
) -> Result<Vec<SyntaxNodeRef<'t>>, AllocError> {
    let mut nodes = Vec::new(alloc);
    for node in root.descendants() {
        if node.kind() == SyntaxKind(kind) {
            nodes.push(node)?;
        }
    }
    Ok(nodes)
}

#[test]
fn many_nodes_are_borrowed_at_once(rt: HostRuntime) -> Result<(), Fail> {
    let root = root_of(rt.alloc(), SUM.as_slice())?;
    let lists = nodes_of_kind(rt.alloc(), root.as_ref(), LIST)?;
    assert!(rt; lists.len() == 2);
    assert!(rt; shown(lists[0]) == (LIST, 0, 15));
    assert!(rt; shown(lists[1]) == (LIST, 3, 11));
    Ok(())
}

/// The length of a text that is passed by value.
fn length(text: SyntaxTextRef<'_>) -> TextSize {
    text.len()
}

#[test]
fn a_text_outlives_the_walk_and_is_passed_by_value(rt: HostRuntime) -> Result<(), Fail> {
    let root = root_of(rt.alloc(), SUM.as_slice())?;
    assert!(rt; longest_text(root.as_ref()) == Some("15"));
    let text = root.as_ref().text();
    assert!(rt; length(text) == TextSize::from(15) && length(text) == text.len());
    Ok(())
}
