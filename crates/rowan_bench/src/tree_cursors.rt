//! Cursors over green trees, which cost no table: a walk, and a list parsed anew where it was found.

use crate::cursors::Visited;
use rowan::{Fault, GreenElement, GreenNode, NodeOrToken, TextSize};
use rowan_edit::TreeCursor;
use rowan_tool::sexp;
use std::alloc::Global;

/// Walks from a root to each node and token, from parent to first child, and from sibling to sibling.
pub fn walk(alloc: Global, root: &GreenNode) -> Result<Visited, Fault> {
    let mut cursor = TreeCursor::new(alloc, root);
    let mut places: u64 = 0;
    let mut last = TextSize::from(0);
    for _ in 0..u64::MAX {
        places = places.wrapping_add(1);
        if cursor.goto_first_child()? || cursor.goto_next_sibling() {
            continue;
        }
        last = cursor.text_range().start();
        if !climb(&mut cursor) {
            break;
        }
    }
    Ok(Visited { places, last })
}

/// Goes to the next sibling of the nearest node above that has one, if there is one.
fn climb(cursor: &mut TreeCursor<'_>) -> bool {
    for _ in 0..u64::MAX {
        if !cursor.goto_parent() {
            return false;
        }
        if cursor.goto_next_sibling() {
            return true;
        }
    }
    false
}

/// Goes to the innermost node of at least so many bytes around the token at an offset.
fn goto_node(cursor: &mut TreeCursor<'_>, offset: TextSize, least: u32) -> Result<(), Fault> {
    cursor.goto_offset(offset)?;
    for _ in 0..u64::MAX {
        if u32::from(cursor.text_range().len()) >= least || !cursor.goto_parent() {
            break;
        }
    }
    Ok(())
}

/// The tree with another list in place of the innermost one of at least so many bytes around an offset, parsed of a text.
pub fn parse_anew(
    alloc: Global,
    root: &GreenNode,
    offset: TextSize,
    least: u32,
    text: &str,
) -> Result<GreenNode, Fault> {
    let mut cursor = TreeCursor::new(alloc, root);
    goto_node(&mut cursor, offset, least)?;
    let parse = sexp::parse(alloc, text)?;
    match parse.green().child_ref(0) {
        Some((_, NodeOrToken::Node(list))) => cursor.replace(GreenElement::from(list.clone()?)),
        _ => Err(Fault::NotFound),
    }
}
