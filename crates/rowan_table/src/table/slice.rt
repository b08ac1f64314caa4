//! A slice of the text of a node, by numbers alone.
ghost use Rattle.std.specs.Prelude.{◌≡◌, ◌<◌};
ghost use Rattle.rowan_table.specs.Chunks.{IsWalk, remaining_chunks, slice_of, IsSliceOf};
ghost use Rattle.rowan_table.specs.Chunks.{walk_at, WalksOver};
ghost use Rattle.rowan_table.specs.SyntaxText.{chunks, slice_len, part_of, CanCut};
ghost use Rattle.rowan_table.specs.TableView.{IsWithin};

use super::Table;
use super::chunks::ChunkWalk;
use rowan_green::text::{TextRange, TextSize};

/// The number of a node, and where a range in its text starts and ends, in bytes of the root's.
/// The ends are bare numbers, so that a struct that borrows and holds a slice is passed by value.
#[derive(Clone, Copy)]
pub struct Slice {
    pub node: usize,
    pub start: u32,
    pub end: u32,
}

impl Slice {
    /// A range of the root's text, in that of the node with a number.
    pub fn new(node: usize, range: TextRange) -> Slice
        ensures { result ≡ record { node = node; start = range.start; end = range.end } }
    {
        Slice {
            node,
            start: u32::from(range.start()),
            end: u32::from(range.end()),
        }
    }

    /// A walk over the chunks of a slice of a node's text.
    pub fn chunk_walk(&self, table: &Table) -> ChunkWalk
        requires { IsSliceOf table.now self.now }
        ensures walk { IsWalk table.now result }
        ensures chunks { remaining_chunks table.now result ≡ chunks (slice_of table.now self.now) }
    {
        let first = table.skip_to(self.node, TextSize::from(self.start));
        self.walk_at(table, first)
    }

    /// The walk over the chunks of a slice, from that on which has the byte at an offset. The offset
    /// is counted from the start of the slice.
    pub fn walk_over(&self, table: &Table, offset: TextSize) -> ChunkWalk
        requires slice { IsSliceOf table.now self.now }
        requires within { offset < slice_len (slice_of table.now self.now) }
        ensures walk { IsWalk table.now result }
        ensures over { WalksOver table.now self.now offset result }
    {
        let behind = self.start + u32::from(offset) + 1;
        let first = table.skip_to(self.node, TextSize::from(behind));
        self.walk_at(table, first)
    }

    // The walk over the chunks of a slice, from an element on.
    fn walk_at(&self, table: &Table, first: usize) -> ChunkWalk
        requires { IsWithin table.now first }
        ensures { result ≡ walk_at table.now self.now first }
    {
        ChunkWalk {
            slice: *self,
            next: Some(first),
            at: u32::from(table.start(first)),
        }
    }

    /// A part of a slice, from one offset to another, counted from the start of the slice.
    pub fn part(&self, table: &Table, start: TextSize, end: TextSize) -> Slice
        requires slice { IsSliceOf table.now self.now }
        requires part { CanCut (slice_of table.now self.now) start end }
        ensures part { slice_of table.now result
            ≡ part_of (slice_of table.now self.now) start end }
        ensures slice { IsSliceOf table.now result }
    {
        let from = self.start;
        let first = u32::from(start);
        let last = u32::from(end);
        Slice {
            node: self.node,
            start: from + first,
            end: from + last,
        }
    }
}
