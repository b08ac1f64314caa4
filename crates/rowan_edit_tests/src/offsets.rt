//! The way down to an offset and to a range, and the way as a list.
use crate::fixture::{range, tree};
use rowan::{GreenNode, TextSize};
use rowan_edit::TreeCursor;
use std::alloc::Global;
use std::test::Fail;

/// At each offset of the text `abcde`: the path of the token with the byte there.
const PATHS: [(u32, &[usize]); 5] = [
    (0, &[0]),
    (1, &[1, 0]),
    (2, &[1, 2]),
    (3, &[1, 2]),
    (4, &[3]),
];

/// The path of the list over the bytes 1 to 4.
const LIST: &[usize] = &[1];

fn is_at(alloc: Global, cursor: &TreeCursor<'_>, path: &[usize]) -> bool {
    match cursor.path(alloc) {
        Ok(found) => found.as_slice() == path,
        Err(_) => false,
    }
}

/// Whether the token with the byte at an offset stands at a path.
fn leads_to(alloc: Global, green: &GreenNode, offset: u32, path: &[usize]) -> bool {
    let mut cursor = TreeCursor::new(alloc, green);
    cursor.goto_offset(TextSize::from(offset)) == Ok(true) && is_at(alloc, &cursor, path)
}

#[test]
fn token_with_the_byte(rt: HostRuntime) -> Result<(), Fail> {
    let green = tree(rt.alloc())?;
    for (offset, path) in PATHS {
        assert!(rt; leads_to(rt.alloc(), &green, offset, path));
    }
    let mut cursor = TreeCursor::new(rt.alloc(), &green);
    assert!(rt; cursor.goto_offset(TextSize::from(5)) == Ok(false) && cursor.depth() == 0);
    Ok(())
}

#[test]
fn element_over_a_range(rt: HostRuntime) -> Result<(), Fail> {
    let green = tree(rt.alloc())?;
    let mut cursor = TreeCursor::new(rt.alloc(), &green);
    assert!(rt; cursor.goto_covering_element(range(1, 3)) == Ok(()));
    assert!(rt; is_at(rt.alloc(), &cursor, LIST));
    assert!(rt; cursor.goto_covering_element(range(0, 3)) == Ok(()) && cursor.depth() == 1);
    assert!(rt; cursor.goto_offset(TextSize::from(0)) == Ok(false) && cursor.depth() == 1);
    Ok(())
}
