//! Walks with skips in their loop.
use crate::fixture::{LIST, SUM, root_of};
use rowan_cursor::cursor::SyntaxNodeRef;
use rowan_green::{SyntaxKind, WalkEvent};
use std::test::Fail;

/// How many nodes are entered, where nothing below a node of this kind is.
fn count_outside(root: SyntaxNodeRef<'_>, kind: u16) -> usize {
    let mut count = 0usize;
    let mut walk = root.preorder();
    for _ in 0..u64::MAX {
        let Some(event) = walk.next() else {
            break;
        };
        if let WalkEvent::Enter(node) = event {
            count = count.saturating_add(1);
            if node.kind() == SyntaxKind(kind) {
                walk.skip_subtree();
            }
        }
    }
    count
}

#[test]
fn skips_in_a_loop(rt: HostRuntime) -> Result<(), Fail> {
    let root = root_of(rt.alloc(), SUM.as_slice())?;
    let list = root.as_ref().first_child().ok_or("no list")?;
    assert!(rt; count_outside(root.as_ref(), LIST) == 2);
    assert!(rt; count_outside(list, 9) == 7);
    Ok(())
}
