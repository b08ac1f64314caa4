//! Those of some borrowed nodes that are of one kind.
use crate::cursor::{SyntaxNodeChildrenRef, SyntaxNodeRef};
use rowan_green::green::SyntaxKind;
use std::fmt;

/// Of the children of a node, or of its siblings, those of one kind.
#[derive(Clone, Copy)]
pub struct NodesByKindRef<'tree> {
    nodes: SyntaxNodeChildrenRef<'tree>,
    kind: SyntaxKind,
}

impl<'tree> NodesByKindRef<'tree> {
    ghost use Rattle.std.specs.Prelude.{◌≡◌};
    ghost use Rattle.rowan_cursor.specs.Kinds.{those_of_kind};
    ghost use Rattle.rowan_cursor.specs.Refs.{rest_of_nodes, rest_of_kind};

    pub(super) fn new(
        nodes: SyntaxNodeChildrenRef<'tree>,
        kind: SyntaxKind,
    ) -> NodesByKindRef<'tree>
        ensures { rest_of_kind result ≡ those_of_kind kind.0 (rest_of_nodes nodes.entry) }
    {
        NodesByKindRef { nodes, kind }
    }
}

impl<'tree> Iterator for NodesByKindRef<'tree> {
    type Item = SyntaxNodeRef<'tree>;

    ghost use Rattle.std.specs.Iterator.{YieldsFirstBy, item_count};
    ghost use Rattle.rowan_cursor.specs.Refs.{node_place, rest_of_kind};

    ghost next_gives = { YieldsFirstBy node_place rest_of_kind };

    ghost remaining = { item_count rest_of_kind };

    fn next(&mut self) -> Option<SyntaxNodeRef<'tree>> {
        self.nodes.next_by_kind(self.kind)
    }
}

impl fmt::Debug for NodesByKindRef<'_> {
    fn fmt<W: fmt::Write>(&self, f: &mut fmt::Formatter<W>) -> fmt::Result {
        f.write_str("NodesByKindRef")
    }
}
