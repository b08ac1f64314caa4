//! Replacements by nodes whose text is as long as a text may be, which takes little room, since
//! they share their children.
use crate::fixture::{ATOM, Call, LIST, ROOT, at, root_of};
use crate::green::fixture::displays;
use crate::green::limits::longest;
use rowan_cursor::cursor::SyntaxNode;
use rowan_green::{Fault, GreenNode, NodeOrToken};
use std::alloc::Global;

/// The length of a node's text, or why it was refused.
pub fn length(node: Result<GreenNode, Fault>) -> Result<u32, Fault> {
    Ok(u32::from(node?.text_len()))
}

/// How long the text is with the longest node of this kind in place of the first child.
fn len_with_longest(alloc: Global, root: &SyntaxNode, kind: u16) -> Result<u32, Fault> {
    match at(root, &[0])? {
        NodeOrToken::Node(node) => length(node.replace_with(longest(alloc, kind)?)),
        NodeOrToken::Token(_) => Err(Fault::NotFound),
    }
}

/// Whether that is so long, and the tree that was there displays this text still.
fn is_replaced(
    alloc: Global,
    calls: &[Call],
    kind: u16,
    len: Result<u32, Fault>,
    text: &str,
) -> Result<bool, Fault> {
    let root = root_of(alloc, calls)?;
    let is_wanted = len_with_longest(alloc, &root, kind) == len;
    Ok(is_wanted && displays(alloc, root.green(), text) == Ok(true))
}

/// `ROOT[LIST["a"] "b"]`
const BESIDE: [Call; 6] = [
    Call::Open(ROOT),
    Call::Open(LIST),
    Call::Word("a"),
    Call::Close,
    Call::Word("b"),
    Call::Close,
];

/// `ROOT[LIST["a"]]`
const ALONE: [Call; 5] = [
    Call::Open(ROOT),
    Call::Open(LIST),
    Call::Word("a"),
    Call::Close,
    Call::Close,
];

/// Nothing is replaced past the limit, the limit is reached, and the kind is looked at before it.
#[test]
fn replacements_keep_to_the_limit(rt: HostRuntime) {
    for (calls, kind, len, text) in [
        (BESIDE.as_slice(), LIST, Err(Fault::TextTooLong), "ab"),
        (ALONE.as_slice(), LIST, Ok(4_294_967_295), "a"),
        (BESIDE.as_slice(), ATOM, Err(Fault::OtherKind), "ab"),
    ] {
        assert!(rt; is_replaced(rt.alloc(), calls, kind, len, text) == Ok(true));
    }
}
