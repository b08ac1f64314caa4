//! Walks with tokens through the tree `ROOT[LIST["a"] "b"]`.
use crate::fixture::{Call, LIST, ROOT, Shown, WORD, element, root_of};
use rowan_cursor::cursor::{PreorderWithTokens, SyntaxElement};
use rowan_green::{Fault, WalkEvent};
use std::test::Fail;

const TREE: [Call; 6] = [
    Call::Open(ROOT),
    Call::Open(LIST),
    Call::Word("a"),
    Call::Close,
    Call::Word("b"),
    Call::Close,
];

/// An event: whether it enters, and what its element shows.
type Event = (bool, Shown);

const EVENTS: [Event; 8] = [
    (true, (ROOT, 0, 2)),
    (true, (LIST, 0, 1)),
    (true, (WORD, 0, 1)),
    (false, (WORD, 0, 1)),
    (false, (LIST, 0, 1)),
    (true, (WORD, 1, 2)),
    (false, (WORD, 1, 2)),
    (false, (ROOT, 0, 2)),
];

fn element_of(event: WalkEvent<SyntaxElement>) -> Result<(bool, Option<Shown>), Fault> {
    match event {
        WalkEvent::Enter(entered) => Ok((true, element(Ok(Some(entered)))?)),
        WalkEvent::Leave(left) => Ok((false, element(Ok(Some(left)))?)),
    }
}

/// Whether these events come next.
fn gives(walk: &mut PreorderWithTokens, events: &[Event]) -> Result<bool, Fault> {
    for (enters, expected) in events {
        let Some(event) = walk.next() else {
            return Ok(false);
        };
        if element_of(event?)? != (*enters, Some(*expected)) {
            return Ok(false);
        }
    }
    Ok(true)
}

#[test]
fn a_skip_leads_to_the_next_leave(rt: HostRuntime) -> Result<(), Fail> {
    let root = root_of(rt.alloc(), TREE.as_slice())?;
    let mut walk = root.preorder_with_tokens();
    assert!(rt; gives(&mut walk, &EVENTS[..2]) == Ok(true));
    walk.skip_subtree();
    assert!(rt; gives(&mut walk, &EVENTS[4..5]) == Ok(true));
    walk.skip_subtree();
    walk.skip_subtree();
    assert!(rt; gives(&mut walk, &EVENTS[7..]) == Ok(true));
    assert!(rt; walk.next().is_none());
    Ok(())
}

#[test]
fn a_skip_before_the_start_does_nothing(rt: HostRuntime) -> Result<(), Fail> {
    let root = root_of(rt.alloc(), TREE.as_slice())?;
    let mut walk = root.preorder_with_tokens();
    walk.skip_subtree();
    assert!(rt; gives(&mut walk, EVENTS.as_slice()) == Ok(true));
    walk.skip_subtree();
    assert!(rt; walk.next().is_none());
    Ok(())
}

#[test]
fn a_cloned_walk_gives_the_same_rest(rt: HostRuntime) -> Result<(), Fail> {
    let root = root_of(rt.alloc(), TREE.as_slice())?;
    let mut walk = root.preorder_with_tokens();
    assert!(rt; gives(&mut walk, &EVENTS[..3]) == Ok(true));
    let mut copy = walk.clone()?;
    assert!(rt; gives(&mut walk, &EVENTS[3..]) == Ok(true));
    assert!(rt; gives(&mut copy, &EVENTS[3..]) == Ok(true));
    assert!(rt; copy.next().is_none());
    Ok(())
}
