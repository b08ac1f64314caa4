//! The comparisons of the search for the child at a range, in nodes with many children.
use crate::fixture::{ROOT, WORD, element};
use crate::green::fixture::{copies, leaf};
use rowan_cursor::cursor::{ElementCalls, SyntaxNode};
use rowan_green::{Fault, Steps, TextRange, TextSize};
use std::alloc::Global;
use std::test::Fail;

/// A root over tokens of one byte each.
fn bytes(alloc: Global, count: usize) -> Result<SyntaxNode, Fault> {
    let green = copies(alloc, ROOT, count, &leaf(alloc, WORD, "a")?)?;
    SyntaxNode::new_root(alloc, green)
}

/// Whether the child at a range of one byte is found with one comparison at least, and with no more
/// than `most`.
fn is_found_within(root: &SyntaxNode, place: u32, most: u64) -> Result<bool, Fault> {
    let mut steps = Steps::new();
    let range = TextRange::at(TextSize::from(place.min(1_000_000)), TextSize::from(1));
    let Some(child) = root.child_or_token_at_range_counted(range, &mut steps)? else {
        return Ok(false);
    };
    let comparisons = steps.comparisons();
    let is_it = (child.index(), child.text_range()) == (place as usize, range);
    Ok(is_it && 1 <= comparisons && comparisons <= most)
}

/// Counts of children, the distance between the ranges that are searched, and the binary digits of
/// the count.
const SIZES: [(u32, usize, u64); 3] = [(1, 1, 1), (1_000, 1, 10), (1_000_000, 2, 20)];

// A search from the first child on takes too long for a test, whether it counts its comparisons or
// not. `rt try --test` is slow at this, and wants `--seconds 200`.
#[test]
fn search_in_a_million_tokens(rt: HostRuntime) -> Result<(), Fail> {
    for (count, distance, digits) in SIZES {
        let root = bytes(rt.alloc(), count as usize)?;
        for place in (0..count).step_by(distance) {
            assert!(rt; is_found_within(&root, place, digits) == Ok(true));
        }
    }
    Ok(())
}

#[test]
fn nothing_is_compared_without_children(rt: HostRuntime) -> Result<(), Fail> {
    let root = bytes(rt.alloc(), 0)?;
    let mut steps = Steps::new();
    let range = TextRange::at(TextSize::from(0), TextSize::from(0));
    let found = root.child_or_token_at_range_counted(range, &mut steps);
    assert!(rt; element(found) == Ok(None) && steps.comparisons() == 0);
    Ok(())
}
