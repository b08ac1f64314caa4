//! Trees that have more nodes and tokens than there are numbers of 32 bits. They take little room,
//! since they share their children, and are refused before there are entries for many of them.
use crate::fixture::{ROOT, WORD};
use crate::green::fixture::{copies, leaf, levels_of_copies};
use rowan_cursor::cursor::SyntaxNode;
use rowan_green::{Fault, GreenNode};
use std::alloc::Global;

/// A root over one child, again and again, and so on for so many levels, down to empty tokens.
fn shared(alloc: Global, levels: u32, count: usize) -> Result<GreenNode, Fault> {
    let below = levels.saturating_sub(1);
    let child = levels_of_copies(alloc, below, count, leaf(alloc, WORD, "")?)?;
    copies(alloc, ROOT, count, &child)
}

/// What a tree is refused for at a new root.
fn refusal(alloc: Global, levels: u32, count: usize) -> Result<Option<Fault>, Fault> {
    let tree = shared(alloc, levels, count)?;
    Ok(SyntaxNode::new_root(alloc, tree).err())
}

/// Levels, and how many children each node has: 65,536 nodes of 65,536 tokens each, and 1,000 nodes
/// of 1,000 nodes of 1,000 nodes of 1,000 tokens each.
const TREES: [(u32, usize); 2] = [(2, 65_536), (4, 1_000)];

#[test]
fn more_than_the_numbers_of_32_bits(rt: HostRuntime) {
    for (levels, count) in TREES {
        assert!(rt; refusal(rt.alloc(), levels, count) == Ok(Some(Fault::Memory)));
    }
}
