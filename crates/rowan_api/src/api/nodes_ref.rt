//! Lists of nodes of a language that are borrowed from their tree.
ghost use Rattle.std.specs.Prelude.{List};
ghost use Rattle.std.specs.Iterator.{YieldsFirstBy};
ghost use Rattle.rowan_table.specs.Cursor.{Cursor};
ghost use Rattle.rowan_cursor.specs.Refs.{node_place as raw_place};

use crate::api::{Language, NodesByKindRef, SyntaxNodeRef};
use rowan_cursor::cursor;
use std::fmt;
use std::marker::PhantomData;

/// A raw list of nodes that are borrowed from their tree.
pub trait NodesRef<'tree>: Drop {
    ghost rest: { Self → List Cursor };

    /// The next node.
    fn next_node(&mut self) -> Option<cursor::SyntaxNodeRef<'tree>>
        ensures { YieldsFirstBy raw_place rest self.old result self.new };
}

impl<'tree> NodesRef<'tree> for cursor::SyntaxNodeChildrenRef<'tree> {
    ghost use Rattle.rowan_cursor.specs.Refs.{rest_of_nodes};

    ghost rest = { rest_of_nodes };

    fn next_node(&mut self) -> Option<cursor::SyntaxNodeRef<'tree>> {
        self.next()
    }
}

impl<'tree> NodesRef<'tree> for cursor::AncestorsRef<'tree> {
    ghost use Rattle.rowan_cursor.specs.Refs.{rest_of_ancestors};

    ghost rest = { rest_of_ancestors };

    fn next_node(&mut self) -> Option<cursor::SyntaxNodeRef<'tree>> {
        self.next()
    }
}

impl<'tree> NodesRef<'tree> for cursor::DescendantsRef<'tree> {
    ghost use Rattle.rowan_cursor.specs.RefWalks.{rest_of_descendants};

    ghost rest = { rest_of_descendants };

    fn next_node(&mut self) -> Option<cursor::SyntaxNodeRef<'tree>> {
        self.next()
    }
}

/// The nodes of a raw list, with the kinds of a language.
#[derive_where(Clone, Copy; I)]
pub struct TypedNodesRef<'tree, L, I> {
    raw: I,
    language: PhantomData<L>,
    tree: PhantomData<&'tree ()>,
}

/// The children of a node that are nodes, from the first on.
pub type SyntaxNodeChildrenRef<'tree, L> = TypedNodesRef<
    'tree,
    L,
    cursor::SyntaxNodeChildrenRef<'tree>,
>;

/// A node and its siblings in one direction that are nodes, from the node itself on.
pub type SiblingsRef<'tree, L> = TypedNodesRef<'tree, L, cursor::SiblingsRef<'tree>>;

/// The nodes from one on up to the root.
pub type AncestorsRef<'tree, L> = TypedNodesRef<'tree, L, cursor::AncestorsRef<'tree>>;

/// A node and the nodes below it, in the order of the tree: each before those below it.
pub type DescendantsRef<'tree, L> = TypedNodesRef<'tree, L, cursor::DescendantsRef<'tree>>;

impl<'tree, L, I> TypedNodesRef<'tree, L, I> {
    ghost use Rattle.std.specs.Prelude.{◌≡◌};

    pub(super) fn new(raw: I) -> TypedNodesRef<'tree, L, I>
        ensures { result.raw ≡ raw }
    {
        TypedNodesRef {
            raw,
            language: PhantomData,
            tree: PhantomData,
        }
    }
}

impl<'tree, L: Language, I: NodesRef<'tree>> TypedNodesRef<'tree, L, I> {
    ghost use Rattle.std.specs.Prelude.{◌≡◌, ◌≤◌, filter, length};
    ghost use Rattle.std.specs.List.{find};
    ghost use Rattle.std.specs.Option.{option_map};
    ghost use Rattle.rowan_api.specs.Kinds.{has_kind};
    ghost use Rattle.rowan_api.specs.Refs.{node_place, rest_of_kind};

    /// Those of them that have a kind.
    pub fn by_kind(self, kind: L::Kind) -> NodesByKindRef<'tree, L, I>
        ensures list { rest_of_kind I.rest L.meaning L.Kind.eq result
            ≡ filter (has_kind L.meaning L.Kind.eq kind) (I.rest self.entry.raw) }
        ensures count { length (rest_of_kind I.rest L.meaning L.Kind.eq result)
            ≤ length (I.rest self.entry.raw) }
    {
        NodesByKindRef::new(self, kind)
    }

    // The first of them that has a kind.
    pub(super) fn first_by_kind(self, kind: L::Kind) -> Option<SyntaxNodeRef<'tree, L>>
        ensures { option_map node_place result
            ≡ find (has_kind L.meaning L.Kind.eq kind) (I.rest self.entry.raw) }
    {
        self.by_kind(kind).next()
    }
}

impl<'tree, L, I: NodesRef<'tree>> Iterator for TypedNodesRef<'tree, L, I> {
    type Item = SyntaxNodeRef<'tree, L>;

    ghost use Rattle.std.specs.Iterator.{YieldsFirstBy, item_count};
    ghost use Rattle.rowan_api.specs.Refs.{node_place};

    ghost next_gives = { YieldsFirstBy node_place (λ list. I.rest list.raw) };

    ghost remaining = { item_count (λ list. I.rest list.raw) };

    fn next(&mut self) -> Option<SyntaxNodeRef<'tree, L>> {
        match self.raw.next_node() {
            Some(raw) => Some(SyntaxNodeRef::from(raw)),
            None => None,
        }
    }

    fn size_hint(&self) -> (usize, Option<usize>) {
        (0, None)
    }
}

impl<'tree, L, I: fmt::Debug> fmt::Debug for TypedNodesRef<'tree, L, I> {
    fn fmt<W: fmt::Write>(&self, f: &mut fmt::Formatter<W>) -> fmt::Result {
        self.raw.fmt(f)
    }
}
