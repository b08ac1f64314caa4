//! What cursors display: the text below them.
use crate::fixture::{MIXED, at, root_of};
use crate::green::fixture::displays;
use rowan_cursor::cursor::SyntaxNode;
use rowan_green::{Fault, NodeOrToken};
use std::alloc::Global;
use std::test::Fail;

/// Whether the element at a path, and the node or token that it is, display this text.
fn displays_at(
    alloc: Global,
    root: &SyntaxNode,
    path: &[usize],
    text: &str,
) -> Result<bool, Fault> {
    let element = at(root, path)?;
    let is_shown = match &element {
        NodeOrToken::Node(node) => displays(alloc, node, text),
        NodeOrToken::Token(token) => displays(alloc, token, text),
    };
    Ok(is_shown == Ok(true) && displays(alloc, &element, text) == Ok(true))
}

/// Paths, and the text there.
const TEXTS: [(&[usize], &str); 4] = [(&[], "ab c"), (&[1], "b"), (&[2], " "), (&[3, 0], "c")];

#[test]
fn cursors_display_their_text(rt: HostRuntime) -> Result<(), Fail> {
    let root = root_of(rt.alloc(), MIXED.as_slice())?;
    for (path, text) in TEXTS {
        assert!(rt; displays_at(rt.alloc(), &root, path, text) == Ok(true));
    }
    Ok(())
}
