//! Replacements in the tree of `(+ (* 15 2) 62)`.
use crate::fixture::{ATOM, LIST, ROOT, SUM, WORD, at, root_of};
use crate::green::fixture::displays;
use rowan_cursor::cursor::{SyntaxElement, SyntaxNode};
use rowan_green::{Fault, GreenNode, GreenToken, NodeOrToken, SyntaxKind};
use std::alloc::Global;
use std::test::Fail;

/// The path of the token `15`.
const FIFTEEN: [usize; 4] = [0, 3, 3, 0];

/// The path of the token `62`.
const SIXTY_TWO: [usize; 3] = [0, 5, 0];

/// The root with a token of this kind and text in place of the one at a path.
fn with_token(
    alloc: Global,
    root: &SyntaxNode,
    path: &[usize],
    kind: u16,
    text: &str,
) -> Result<GreenNode, Fault> {
    let replacement = GreenToken::new(alloc, SyntaxKind(kind), text)?;
    match at(root, path)? {
        NodeOrToken::Node(_) => Err(Fault::NotFound),
        NodeOrToken::Token(token) => token.replace_with(replacement),
    }
}

/// The root with a node of this kind, over no children, in place of the one at a path.
fn with_node(
    alloc: Global,
    root: &SyntaxNode,
    path: &[usize],
    kind: u16,
) -> Result<GreenNode, Fault> {
    let replacement = GreenNode::new(alloc, SyntaxKind(kind), [])?;
    match at(root, path)? {
        NodeOrToken::Node(node) => node.replace_with(replacement),
        NodeOrToken::Token(_) => Err(Fault::NotFound),
    }
}

/// Whether a replacement gives a tree of this text, or this refusal.
fn gives(alloc: Global, new: Result<GreenNode, Fault>, wanted: Result<&str, Fault>) -> bool {
    match new {
        Ok(new) => displays(alloc, &new, wanted.unwrap_or("refused")) == Ok(true),
        Err(fault) => wanted == Err(fault),
    }
}

/// Kinds and texts of tokens, and the text with each in place of `15`.
const TOKENS: [(u16, &str, Result<&str, Fault>); 2] = [
    (WORD, "7", Ok("(+ (* 7 2) 62)")),
    (ATOM, "7", Err(Fault::OtherKind)),
];

/// Paths, kinds of nodes, and the text with a node over no children there.
const NODES: [(&[usize], u16, Result<&str, Fault>); 4] = [
    (&[0, 3], LIST, Ok("(+  62)")),
    (&[0, 3], ATOM, Err(Fault::OtherKind)),
    (&[], LIST, Err(Fault::OtherKind)),
    (&[], ROOT, Ok("")),
];

#[test]
fn replaced_tokens_and_nodes(rt: HostRuntime) -> Result<(), Fail> {
    let alloc = rt.alloc();
    let root = root_of(alloc, SUM.as_slice())?;
    for (kind, text, wanted) in TOKENS {
        let new = with_token(alloc, &root, FIFTEEN.as_slice(), kind, text);
        assert!(rt; gives(alloc, new, wanted));
        assert!(rt; displays(alloc, root.green(), "(+ (* 15 2) 62)") == Ok(true));
    }
    for (path, kind, wanted) in NODES {
        assert!(rt; gives(alloc, with_node(alloc, &root, path, kind), wanted));
        assert!(rt; displays(alloc, root.green(), "(+ (* 15 2) 62)") == Ok(true));
    }
    Ok(())
}

/// The tree with these words in place of the tokens at these paths, one after the other.
fn with_words(alloc: Global, words: &[(&[usize], &str)]) -> Result<GreenNode, Fault> {
    let mut root = root_of(alloc, SUM.as_slice())?;
    for (path, text) in words {
        root = SyntaxNode::new_root(alloc, with_token(alloc, &root, path, WORD, text)?)?;
    }
    Ok(root.green().clone()?)
}

#[test]
fn separate_replacements(rt: HostRuntime) -> Result<(), Fail> {
    let seven: (&[usize], &str) = (&FIFTEEN, "7");
    let hundred: (&[usize], &str) = (&SIXTY_TWO, "100");
    let one = with_words(rt.alloc(), &[seven, hundred])?;
    assert!(rt; displays(rt.alloc(), &one, "(+ (* 7 2) 100)") == Ok(true));
    assert!(rt; with_words(rt.alloc(), &[hundred, seven]) == Ok(one));
    Ok(())
}

/// The root with the green value of an element in place of the element.
fn with_itself(element: &SyntaxElement) -> Result<GreenNode, Fault> {
    match element {
        NodeOrToken::Node(node) => node.replace_with(node.green().clone()?),
        NodeOrToken::Token(token) => token.replace_with(token.green().clone()?),
    }
}

/// Whether the root is as it was with the green value of the element at a path in its place.
fn is_replaced_by_itself(root: &SyntaxNode, path: &[usize]) -> Result<bool, Fault> {
    Ok(with_itself(&at(root, path)?)? == *root.green())
}

/// Paths of nodes and tokens.
const PATHS: [&[usize]; 5] = [&[], &[0], &[0, 3], &[0, 3, 3, 0], &[0, 6]];

#[test]
fn replacements_by_the_own_value_and_of_the_root(rt: HostRuntime) -> Result<(), Fail> {
    let root = root_of(rt.alloc(), SUM.as_slice())?;
    for path in PATHS {
        assert!(rt; is_replaced_by_itself(&root, path) == Ok(true));
    }
    let new = with_node(rt.alloc(), &root, &[], ROOT)?;
    assert!(rt; GreenNode::new(rt.alloc(), SyntaxKind(ROOT), []) == Ok(new));
    Ok(())
}
