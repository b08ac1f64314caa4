//! What a table has for a node or token.
use rowan_green::link::Link;
use rowan_green::text::TextSize;
use std::mem::size_of;

/// A node or token of a tree: where its text starts, the number of its parent, and its number among
/// the nodes, or none of a token. The root is its own parent.
#[derive(Clone, Copy)]
pub struct Entry {
    pub start: TextSize,
    pub parent: u32,
    pub node: Link,
}

// A table is made of the whole tree, so it has to be small.
const _: () = prove!(size_of::<Entry>() == 12);
