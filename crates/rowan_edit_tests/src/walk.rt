//! A walk over all elements.
use crate::fixture::tree;
use crate::plain::advance;
use rowan::cursor::{ElementCalls, SyntaxElement, SyntaxNode};
use rowan::{TextRange, TextSize};
use rowan_edit::TreeCursor;
use std::test::Fail;

/// The way back, by the calls that the walk does not make.
#[test]
fn ways_back_and_to_a_range(rt: HostRuntime) -> Result<(), Fail> {
    let green = tree(rt.alloc())?;
    let mut cursor = TreeCursor::new(rt.alloc(), &green);
    assert!(rt; cursor.goto_last_child() == Ok(true) && cursor.index() == 3);
    assert!(rt; cursor.goto_previous_sibling() && cursor.goto_previous_sibling());
    let inner = TextRange::at(TextSize::from(2), TextSize::from(2));
    assert!(rt; cursor.goto_child_at_range(inner) == Ok(true) && cursor.depth() == 2);
    assert!(rt; cursor.text_range() == inner && cursor.index() == 2);
    assert!(rt; cursor.goto_parent() && cursor.goto_parent() && !cursor.goto_parent());
    Ok(())
}

fn is_at(cursor: &TreeCursor<'_>, element: &SyntaxElement) -> bool {
    cursor.kind() == element.kind() && cursor.text_range() == element.text_range()
}

/// Whether a cursor at the root is led to all elements of the table.
fn is_led_beside(cursor: &mut TreeCursor<'_>, root: &SyntaxNode) -> bool {
    let mut same = true;
    let mut moved = Ok(true);
    for element in root.descendants_with_tokens() {
        let is_here = match element {
            Ok(element) => is_at(cursor, &element),
            Err(_) => false,
        };
        same = same && moved == Ok(true) && is_here;
        moved = advance(cursor);
    }
    same && moved == Ok(false)
}

#[test]
fn walk_beside_the_table(rt: HostRuntime) -> Result<(), Fail> {
    let green = tree(rt.alloc())?;
    let root = SyntaxNode::new_root(rt.alloc(), green.clone()?)?;
    let mut cursor = TreeCursor::new(rt.alloc(), &green);
    assert!(rt; is_led_beside(&mut cursor, &root));
    Ok(())
}
