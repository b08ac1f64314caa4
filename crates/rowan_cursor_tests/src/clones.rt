//! Clones of iterators over cursors.
use crate::fixture::{ATOM, LIST, MIXED, node, root_of};
use rowan_cursor::cursor::SyntaxNodeChildren;
use std::test::Fail;

/// Whether one atom is all that is left.
fn gives_the_atom(mut children: SyntaxNodeChildren) -> bool {
    node(children.next().transpose()) == Ok(Some((ATOM, 3, 4))) && children.next().is_none()
}

#[test]
fn cloned_children_give_the_same_rest(rt: HostRuntime) -> Result<(), Fail> {
    let root = root_of(rt.alloc(), MIXED.as_slice())?;
    let mut children = root.children();
    assert!(rt; node(children.next().transpose()) == Ok(Some((LIST, 1, 2))));
    let rest = children.clone()?;
    assert!(rt; gives_the_atom(children) && gives_the_atom(rest));
    Ok(())
}
