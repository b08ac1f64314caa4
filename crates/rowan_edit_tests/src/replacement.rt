//! A replacement, from a place below the root.
use crate::fixture::{has_text, new_word, tree};
use rowan::{Fault, GreenNode};
use rowan_edit::TreeCursor;
use std::alloc::Global;
use std::test::Fail;

/// The root with a word in place of the last child of the second child.
fn with_word(alloc: Global, green: &GreenNode, text: &str) -> Result<GreenNode, Fault> {
    let new = new_word(alloc, text)?;
    let mut cursor = TreeCursor::new(alloc, green);
    if cursor.goto_child_at_index(1) == Ok(true) && cursor.goto_last_child() == Ok(true) {
        cursor.replace(new)
    } else {
        Err(Fault::NotFound)
    }
}

#[test]
fn word_in_a_list(rt: HostRuntime) -> Result<(), Fail> {
    let alloc = rt.alloc();
    let green = tree(alloc)?;
    let new = with_word(alloc, &green, "new")?;
    assert!(rt; has_text(alloc, &new, "abnewe"));
    assert!(rt; has_text(alloc, &green, "abcde"));
    Ok(())
}
