//! Those nodes of a list that have a kind.
use crate::api::nodes_ref::{NodesRef, TypedNodesRef};
use crate::api::{Language, SyntaxNodeRef};
use std::fmt;

/// Of a list of nodes that are borrowed from their tree, those of one kind.
#[derive_where(Clone, Copy; I, K)]
pub struct NodesByKindRef<'tree, L, I, K = <L as Language>::Kind> {
    nodes: TypedNodesRef<'tree, L, I>,
    kind: K,
}

impl<'tree, L: Language, I: NodesRef<'tree>> NodesByKindRef<'tree, L, I> {
    ghost use Rattle.std.specs.Prelude.{◌≡◌, filter};
    ghost use Rattle.rowan_api.specs.Kinds.{has_kind};
    ghost use Rattle.rowan_api.specs.Refs.{rest_of_kind};

    pub(super) fn new(
        nodes: TypedNodesRef<'tree, L, I>,
        kind: L::Kind,
    ) -> NodesByKindRef<'tree, L, I>
        ensures { rest_of_kind I.rest L.meaning L.Kind.eq result
            ≡ filter (has_kind L.meaning L.Kind.eq kind) (I.rest nodes.entry.raw) }
    {
        NodesByKindRef { nodes, kind }
    }
}

impl<'tree, L: Language, I: NodesRef<'tree>> Iterator for NodesByKindRef<'tree, L, I> {
    type Item = SyntaxNodeRef<'tree, L>;

    ghost use Rattle.std.specs.Iterator.{YieldsFirstBy, item_count};
    ghost use Rattle.rowan_api.specs.Refs.{node_place, rest_of_kind};

    ghost next_gives = { YieldsFirstBy node_place (rest_of_kind I.rest L.meaning L.Kind.eq) };

    ghost remaining = { item_count (rest_of_kind I.rest L.meaning L.Kind.eq) };

    fn next(&mut self) -> Option<SyntaxNodeRef<'tree, L>> {
        while let Some(node) = self.nodes.next() {
            if node.kind() == self.kind {
                return Some(node);
            }
        }
        None
    }

    fn size_hint(&self) -> (usize, Option<usize>) {
        (0, None)
    }
}

impl<'tree, L: Language, I> fmt::Debug for NodesByKindRef<'tree, L, I> {
    fn fmt<W: fmt::Write>(&self, f: &mut fmt::Formatter<W>) -> fmt::Result {
        f.write_str("NodesByKindRef")
    }
}
