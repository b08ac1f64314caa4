//! The nodes from one on up to the root, borrowed, one after the other.
ghost use Rattle.std.proofs.Props.{props};
ghost use Rattle.rowan_cursor.specs.Walks.{HasClimb};

use crate::cursor::SyntaxNodeRef;
use crate::cursor::climb::Climb;
use rowan_table::table::Table;
use std::fmt;
use std::rc::Rc;

/// The nodes from one on up to the root.
#[derive(Clone, Copy)]
pub struct AncestorsRef<'tree> {
    table: &'tree Rc<Table>,
    climb: Climb,
    ghost fits: { HasClimb table.now.value climb } by { Prim.hlevel props },
}

impl<'tree> AncestorsRef<'tree> {
    ghost use Rattle.std.specs.Prelude.{◌≡◌};
    ghost use Rattle.rowan_cursor.specs.Refs.{rest_of_ancestors};
    ghost use Rattle.rowan_cursor.specs.Walks.{climb_nodes, HasClimb};

    pub(super) fn new(table: &'tree Rc<Table>, climb: Climb) -> AncestorsRef<'tree>
        requires { HasClimb table.now.value climb }
        ensures { rest_of_ancestors result ≡ climb_nodes table.now.value climb }
    {
        AncestorsRef { table, climb }
    }
}

impl<'tree> Iterator for AncestorsRef<'tree> {
    type Item = SyntaxNodeRef<'tree>;

    ghost use Rattle.std.specs.Iterator.{YieldsFirstBy, item_count};
    ghost use Rattle.rowan_cursor.specs.Refs.{node_place, rest_of_ancestors};

    ghost next_gives = { YieldsFirstBy node_place rest_of_ancestors };

    ghost remaining = { item_count rest_of_ancestors };

    fn next(&mut self) -> Option<SyntaxNodeRef<'tree>> {
        let table = self.table;
        match self.climb.next(table) {
            Some(number) => Some(SyntaxNodeRef::at(table, number)),
            None => None,
        }
    }
}

impl fmt::Debug for AncestorsRef<'_> {
    fn fmt<W: fmt::Write>(&self, f: &mut fmt::Formatter<W>) -> fmt::Result {
        f.write_str("AncestorsRef")
    }
}
