//! The steps of the search for the child at a range.
use crate::green::fixture::{copies, leaf};
use rowan_green::{Fault, GreenNode, Steps, TextRange, TextSize};
use std::alloc::Global;
use std::test::Fail;

/// A node over tokens of one byte each.
fn bytes(alloc: Global, count: usize) -> Result<GreenNode, Fault> {
    copies(alloc, 9, count, &leaf(alloc, 1, "a")?)
}

/// Place and offset of the child at a range of one byte, with the number of comparisons.
fn search(node: &GreenNode, start: u32) -> (Option<(usize, u32)>, u64) {
    let mut steps = Steps::new();
    let range = TextRange::at(TextSize::from(start.min(1_000_000)), TextSize::from(1));
    let found = match node.child_at_range(range, &mut steps) {
        Some((index, offset, _)) => Some((index, u32::from(offset))),
        None => None,
    };
    (found, steps.comparisons())
}

/// Whether the child at a place is found with one comparison at least and not more than this many.
fn is_found_within(node: &GreenNode, place: u32, most: u64) -> bool {
    let (found, comparisons) = search(node, place);
    found == Some((place as usize, place)) && 1 <= comparisons && comparisons <= most
}

/// Counts of children, the distance between the ranges that are searched, and the binary digits of the count.
const SIZES: [(u32, usize, u64); 3] = [(1, 1, 1), (1_000, 1, 10), (1_000_000, 10, 20)];

#[test]
fn search_in_thousand_tokens(rt: HostRuntime) -> Result<(), Fail> {
    for (count, distance, digits) in SIZES {
        let root = bytes(rt.alloc(), count as usize)?;
        for place in (0..count).step_by(distance) {
            assert!(rt; is_found_within(&root, place, digits));
        }
    }
    Ok(())
}

#[test]
fn nothing_is_compared_without_children(rt: HostRuntime) -> Result<(), Fail> {
    let empty = bytes(rt.alloc(), 0)?;
    assert!(rt; search(&empty, 0) == (None, 0));
    Ok(())
}

#[test]
fn steps_add_up(rt: HostRuntime) -> Result<(), Fail> {
    let root = bytes(rt.alloc(), 1)?;
    let mut steps = Steps::new();
    assert!(rt; (steps.comparisons(), steps.visits()) == (0, 0));
    for start in [0, 1, 2] {
        let range = TextRange::at(TextSize::from(start), TextSize::from(0));
        let _ = root.child_at_range(range, &mut steps);
    }
    assert!(rt; (steps.comparisons(), steps.visits()) == (3, 0));
    steps.visit();
    assert!(rt; (steps.comparisons(), steps.visits()) == (3, 1));
    Ok(())
}
