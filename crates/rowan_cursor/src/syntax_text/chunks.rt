//! The chunks of a text, one after the other.
ghost use Rattle.rowan_table.specs.Chunks.{IsWalk, IsWalk-prop};

use rowan_table::table::{ChunkWalk, Table};
use std::fmt;
use std::rc::Rc;

/// The chunks of a text in their order, lent for as long as the tree is: for each token that meets
/// the text, the bytes that both have.
#[derive(Clone, Copy)]
pub struct SyntaxTextChunks<'tree> {
    table: &'tree Rc<Table>,
    walk: ChunkWalk,
    ghost fits: { IsWalk table.now.value walk } by { IsWalk-prop _ _ },
}

impl<'tree> SyntaxTextChunks<'tree> {
    ghost use Rattle.std.specs.Prelude.{◌≡◌};
    ghost use Rattle.rowan_table.specs.Chunks.{IsWalk, remaining_chunks};
    ghost use Rattle.rowan_cursor.specs.RefTexts.{rest_of_chunks};

    pub(super) fn new(table: &'tree Rc<Table>, walk: ChunkWalk) -> SyntaxTextChunks<'tree>
        requires { IsWalk table.now.value walk }
        ensures { rest_of_chunks result ≡ remaining_chunks table.now.value walk }
    {
        SyntaxTextChunks { table, walk }
    }
}

impl<'tree> Iterator for SyntaxTextChunks<'tree> {
    type Item = &'tree str;

    ghost use Rattle.std.specs.Iterator.{YieldsFirstBy, item_count};
    ghost use Rattle.rowan_cursor.specs.RefTexts.{rest_of_chunks};

    ghost next_gives = { YieldsFirstBy (λ chunk. chunk.now) rest_of_chunks };

    ghost remaining = { item_count rest_of_chunks };

    fn next(&mut self) -> Option<&'tree str> {
        let table = self.table;
        table.next_chunk(&mut self.walk)
    }
}

impl fmt::Debug for SyntaxTextChunks<'_> {
    fn fmt<W: fmt::Write>(&self, f: &mut fmt::Formatter<W>) -> fmt::Result {
        f.write_str("SyntaxTextChunks")
    }
}
