//! The children of a node that are nodes, borrowed, one after the other; and siblings.
ghost use Rattle.rowan_cursor.specs.Walks.{HasRow};

use crate::cursor::row::Row;
use crate::cursor::{NodesByKindRef, SyntaxNodeRef};
use rowan_green::green::SyntaxKind;
use rowan_table::table::Table;
use std::fmt;
use std::rc::Rc;

/// The children of a node that are nodes, from the first on; or, as [`SiblingsRef`], a node and its
/// siblings in one direction.
#[derive(Clone, Copy)]
pub struct SyntaxNodeChildrenRef<'tree> {
    table: &'tree Rc<Table>,
    row: Row,
    ghost fits: { HasRow table.now.value row },
}

/// A node and its siblings in one direction that are nodes, from the node itself on.
pub type SiblingsRef<'tree> = SyntaxNodeChildrenRef<'tree>;

impl<'tree> SyntaxNodeChildrenRef<'tree> {
    ghost use Rattle.std.specs.Prelude.{◌≡◌, ◌^◌, ◌<◌, ◌≤◌, length};
    ghost use Rattle.std.specs.Iterator.{YieldsFirstBy};
    ghost use Rattle.std.specs.Option.{option_map};
    ghost use Rattle.rowan_cursor.specs.Kinds.{first_of_kind, those_of_kind};
    ghost use Rattle.rowan_cursor.specs.Refs.{node_place, rest_of_nodes, rest_of_kind};
    ghost use Rattle.rowan_cursor.specs.Walks.{row_nodes, HasRow};

    pub(super) fn new(table: &'tree Rc<Table>, row: Row) -> SyntaxNodeChildrenRef<'tree>
        requires { HasRow table.now.value row }
        ensures list { rest_of_nodes result ≡ row_nodes table.now.value row }
        ensures count { length (rest_of_nodes result) < 2 ^ 64 }
    {
        SyntaxNodeChildrenRef { table, row }
    }

    /// Those of a kind.
    pub fn by_kind(self, kind: SyntaxKind) -> NodesByKindRef<'tree>
        ensures list { rest_of_kind result ≡ those_of_kind kind.0 (rest_of_nodes self.entry) }
        ensures count { length (rest_of_kind result) ≤ length (rest_of_nodes self.entry) }
    {
        NodesByKindRef::new(self, kind)
    }

    // The next of them that is of a kind.
    pub(super) fn next_by_kind(&mut self, kind: SyntaxKind) -> Option<SyntaxNodeRef<'tree>>
        ensures first { option_map node_place result
            ≡ first_of_kind kind.0 (rest_of_nodes self.old) }
        ensures steps { YieldsFirstBy node_place
            (λ nodes. those_of_kind kind.0 (rest_of_nodes nodes)) self.old result self.new }
    {
        while let Some(node) = self.next() {
            if node.kind() == kind {
                return Some(node);
            }
        }
        None
    }
}

impl<'tree> Iterator for SyntaxNodeChildrenRef<'tree> {
    type Item = SyntaxNodeRef<'tree>;

    ghost use Rattle.std.specs.Iterator.{YieldsFirstBy, item_count};
    ghost use Rattle.rowan_cursor.specs.Refs.{node_place, rest_of_nodes};

    ghost next_gives = { YieldsFirstBy node_place rest_of_nodes };

    ghost remaining = { item_count rest_of_nodes };

    fn next(&mut self) -> Option<SyntaxNodeRef<'tree>> {
        let table = self.table;
        match self.row.next_node(table) {
            Some(number) => Some(SyntaxNodeRef::at(table, number)),
            None => None,
        }
    }
}

impl fmt::Debug for SyntaxNodeChildrenRef<'_> {
    fn fmt<W: fmt::Write>(&self, f: &mut fmt::Formatter<W>) -> fmt::Result {
        f.write_str("SyntaxNodeChildrenRef")
    }
}
