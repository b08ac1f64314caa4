//! Searches at ranges and offsets.
use crate::fixture::{ATOM, Call, LIST, ROOT, SUM, Shown, WORD, element, root_of, token};
use rowan_cursor::cursor::{SyntaxNode, SyntaxToken};
use rowan_green::{Fault, TextRange, TextSize, TokenAtOffset};
use std::alloc::Global;
use std::test::Fail;

/// `ROOT["ab" LIST[] "cd"]`
const AROUND_A_NODE: [Call; 6] = [
    Call::Open(ROOT),
    Call::Word("ab"),
    Call::Open(LIST),
    Call::Close,
    Call::Word("cd"),
    Call::Close,
];

/// `ROOT["ab" "" "cd"]`
const AROUND_A_TOKEN: [Call; 5] = [
    Call::Open(ROOT),
    Call::Word("ab"),
    Call::Word(""),
    Call::Word("cd"),
    Call::Close,
];

fn range(start: u32, len: u32) -> Result<TextRange, Fault> {
    let start = TextSize::from(start);
    match start.checked_add(TextSize::from(len)) {
        Some(end) => Ok(TextRange::new(start, end)),
        None => Err(Fault::TextTooLong),
    }
}

/// Where a range starts and how long it is, and the child there.
const CHILDREN: [(u32, u32, Option<Shown>); 7] = [
    (0, 0, Some((WORD, 0, 2))),
    (1, 0, Some((WORD, 0, 2))),
    (2, 0, Some((LIST, 2, 2))),
    (4, 0, Some((WORD, 2, 4))),
    (2, 2, Some((WORD, 2, 4))),
    (1, 2, None),
    (3, 6, None),
];

/// What the child shows whose range is this, if there is one.
fn child_at(node: &SyntaxNode, start: u32, len: u32) -> Result<Option<Shown>, Fault> {
    element(node.child_or_token_at_range(range(start, len)?))
}

#[test]
fn children_at_ranges(rt: HostRuntime) -> Result<(), Fail> {
    let root = root_of(rt.alloc(), AROUND_A_NODE.as_slice())?;
    for (start, len, expected) in CHILDREN {
        assert!(rt; child_at(&root, start, len) == Ok(expected));
    }
    Ok(())
}

/// What covers a range, or a refusal where the range does not lie in the node.
fn covering(node: &SyntaxNode, range: TextRange) -> Result<Option<Shown>, Fault> {
    if !node.text_range().contains_range(range) {
        return Err(Fault::NotFound);
    }
    element(node.covering_element(range).map(Some))
}

/// The same in the tree that the calls build.
fn covering_in(alloc: Global, calls: &[Call], range: TextRange) -> Result<Option<Shown>, Fault> {
    covering(&root_of(alloc, calls)?, range)
}

#[test]
fn what_covers_a_range(rt: HostRuntime) -> Result<(), Fail> {
    for (calls, start, len, expected) in [
        (AROUND_A_NODE.as_slice(), 2, 0, (LIST, 2, 2)),
        (SUM.as_slice(), 6, 3, (LIST, 3, 11)),
    ] {
        let range = range(start, len)?;
        assert!(rt; covering_in(rt.alloc(), calls, range) == Ok(Some(expected)));
    }
    Ok(())
}

/// What the next two tokens show.
fn next_two(found: &mut TokenAtOffset<SyntaxToken>) -> Result<[Option<Shown>; 2], Fault> {
    let first = token(Ok(found.next()))?;
    let second = token(Ok(found.next()))?;
    Ok([first, second])
}

/// What the tokens at an offset show, or a refusal where the offset does not lie in the node.
fn tokens(node: &SyntaxNode, offset: u32) -> Result<[Option<Shown>; 2], Fault> {
    let offset = TextSize::from(offset);
    if !node.text_range().contains_inclusive(offset) {
        return Err(Fault::NotFound);
    }
    next_two(&mut node.token_at_offset(offset)?)
}

/// Offsets, and the tokens there.
const TOKENS: [(u32, [Option<Shown>; 2]); 4] = [
    (3, [Some((WORD, 2, 3)), Some((WORD, 3, 4))]),
    (7, [Some((WORD, 6, 8)), None]),
    (0, [Some((WORD, 0, 1)), None]),
    (15, [Some((WORD, 14, 15)), None]),
];

#[test]
fn tokens_at_offsets(rt: HostRuntime) -> Result<(), Fail> {
    let root = root_of(rt.alloc(), SUM.as_slice())?;
    for (offset, expected) in TOKENS {
        assert!(rt; tokens(&root, offset) == Ok(expected));
    }
    Ok(())
}

#[test]
fn empty_tokens_touch_no_offset(rt: HostRuntime) -> Result<(), Fail> {
    let root = root_of(rt.alloc(), AROUND_A_TOKEN.as_slice())?;
    assert!(rt; tokens(&root, 2) == Ok([Some((WORD, 0, 2)), Some((WORD, 2, 4))]));
    Ok(())
}
