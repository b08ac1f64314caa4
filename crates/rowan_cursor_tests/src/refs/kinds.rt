//! Counts of children, and searches by kind.
use super::shown;
use crate::fixture::{ATOM, LIST, ROOT, SUM, Shown, WORD, root_of};
use rowan_cursor::cursor::SyntaxNodeRef;
use rowan_green::SyntaxKind;
use std::test::Fail;

/// How many children a node has that are nodes, and how many in all.
fn counts(node: SyntaxNodeRef<'_>) -> (usize, usize) {
    (node.children().count(), node.children_with_tokens().count())
}

/// How many children are of a kind.
fn count_of_kind(node: SyntaxNodeRef<'_>, kind: u16) -> usize {
    node.children().by_kind(SyntaxKind(kind)).count()
}

/// The first child of a kind, and the next sibling of that which is an atom.
fn first_and_next(list: SyntaxNodeRef<'_>, kind: u16) -> (Option<Shown>, Option<Shown>) {
    let Some(first) = list.first_child_by_kind(SyntaxKind(kind)) else {
        return (None, None);
    };
    let next = first.next_sibling_by_kind(SyntaxKind(ATOM));
    (Some(shown(first)), next.map(shown))
}

/// Kinds, how many children of the list are of each, what the first of these shows, and what the
/// next atom behind it.
const KINDS: [(u16, usize, Option<Shown>, Option<Shown>); 3] = [
    (ROOT, 0, None, None),
    (LIST, 1, Some((LIST, 3, 11)), Some((ATOM, 12, 14))),
    (ATOM, 2, Some((ATOM, 1, 2)), Some((ATOM, 12, 14))),
];

#[test]
fn children_of_a_kind_are_counted_and_found(rt: HostRuntime) -> Result<(), Fail> {
    let root = root_of(rt.alloc(), SUM.as_slice())?;
    let list = root.as_ref().first_child().ok_or("no list")?;
    for (kind, count, first, next) in KINDS {
        assert!(rt; count_of_kind(list, kind) == count);
        assert!(rt; first_and_next(list, kind) == (first, next));
    }
    Ok(())
}

/// The text of the first token among the children that is a word.
fn first_word<'t>(node: SyntaxNodeRef<'t>) -> Option<&'t str> {
    Some(node.first_token_of_kind(SyntaxKind(WORD))?.text())
}

#[test]
fn children_are_counted_and_the_first_token_is_found(rt: HostRuntime) -> Result<(), Fail> {
    let root = root_of(rt.alloc(), SUM.as_slice())?;
    let list = root.as_ref().first_child().ok_or("no list")?;
    assert!(rt; counts(root.as_ref()) == (1, 1) && counts(list) == (3, 7));
    assert!(rt; first_word(list) == Some("(") && first_word(root.as_ref()) == None);
    Ok(())
}
