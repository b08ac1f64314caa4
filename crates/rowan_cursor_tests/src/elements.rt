//! The calls of elements, in the tree `ROOT["a" LIST["b"] " " ATOM["c"]]`.
use crate::fixture::{ATOM, LIST, MIXED, ROOT, Shown, WORD, at, element, node, root_of, token};
use rowan_cursor::cursor::{ElementCalls, SyntaxElement, SyntaxNode, SyntaxToken};
use rowan_green::{Fault, GreenToken, SyntaxKind};
use std::alloc::Global;
use std::test::Fail;

/// A move from an element.
#[derive(Clone, Copy)]
enum Move {
    Next,
    Prev,
    First,
    Last,
    Parent,
}

/// What the element shows to which a move leads from the element at a path.
fn moved(root: &SyntaxNode, path: &[usize], way: Move) -> Result<Option<Shown>, Fault> {
    let from = at(root, path)?;
    match way {
        Move::Next => element(from.next_sibling_or_token()),
        Move::Prev => element(from.prev_sibling_or_token()),
        Move::First => token(from.first_token()),
        Move::Last => token(from.last_token()),
        Move::Parent => node(from.parent()),
    }
}

/// Moves from a node, from the root and from a token as elements.
const MOVES: [(&[usize], Move, Option<Shown>); 10] = [
    (&[1], Move::Next, Some((WORD, 2, 3))),
    (&[1], Move::Prev, Some((WORD, 0, 1))),
    (&[], Move::First, Some((WORD, 0, 1))),
    (&[], Move::Last, Some((WORD, 3, 4))),
    (&[], Move::Parent, None),
    (&[3, 0], Move::First, Some((WORD, 3, 4))),
    (&[3, 0], Move::Last, Some((WORD, 3, 4))),
    (&[3, 0], Move::Next, None),
    (&[3, 0], Move::Prev, None),
    (&[3, 0], Move::Parent, Some((ATOM, 3, 4))),
];

/// Whether the ancestors of the element at a path show this.
fn has_ancestors(root: &SyntaxNode, path: &[usize], expected: &[Shown]) -> Result<bool, Fault> {
    let mut ancestors = at(root, path)?.ancestors();
    for shown in expected {
        if node(ancestors.next().transpose()) != Ok(Some(*shown)) {
            return Ok(false);
        }
    }
    Ok(ancestors.next().is_none())
}

/// Paths, and the ancestors of the element there.
const ANCESTORS: [(&[usize], [Shown; 2]); 2] = [
    (&[1], [(LIST, 1, 2), (ROOT, 0, 4)]),
    (&[3, 0], [(ATOM, 3, 4), (ROOT, 0, 4)]),
];

#[test]
fn elements_move_as_nodes_and_tokens_do(rt: HostRuntime) -> Result<(), Fail> {
    let root = root_of(rt.alloc(), MIXED.as_slice())?;
    for (path, way, expected) in MOVES {
        assert!(rt; moved(&root, path, way) == Ok(expected));
    }
    for (path, expected) in ANCESTORS {
        assert!(rt; has_ancestors(&root, path, expected.as_slice()) == Ok(true));
    }
    Ok(())
}

/// The index of the element at a path, and whether the top of its tree is the root.
fn index_and_top(root: &SyntaxNode, path: &[usize]) -> Result<(usize, bool), Fault> {
    let from = at(root, path)?;
    Ok((from.index(), from.tree_top()? == *root))
}

/// Whether a token lends a green token of this text, and as an element shows this.
fn is_word(
    alloc: Global,
    found: Result<Option<SyntaxToken>, Fault>,
    text: &str,
    shown: Shown,
) -> Result<bool, Fault> {
    let Some(found) = found? else {
        return Ok(false);
    };
    let is_lent = *found.green() == GreenToken::new(alloc, SyntaxKind(WORD), text)?;
    let is_it = is_lent && found.text() == text;
    Ok(is_it && element(Ok(Some(SyntaxElement::from(found)))) == Ok(Some(shown)))
}

#[test]
fn elements_have_an_index_a_top_and_green_tokens(rt: HostRuntime) -> Result<(), Fail> {
    let root = root_of(rt.alloc(), MIXED.as_slice())?;
    assert!(rt; index_and_top(&root, &[1]) == Ok((1, true)));
    assert!(rt; index_and_top(&root, &[3, 0]) == Ok((0, true)));
    assert!(rt; is_word(rt.alloc(), root.first_token(), "a", (WORD, 0, 1)) == Ok(true));
    assert!(rt; is_word(rt.alloc(), root.last_token(), "c", (WORD, 3, 4)) == Ok(true));
    Ok(())
}
