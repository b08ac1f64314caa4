//! What stands above, below and beside a borrowed node, one after the other.
ghost use Rattle.std.specs.Prelude.{◌≡◌, ◌^◌, ◌<◌, length};
ghost use Rattle.rowan_table.specs.Moves.{ancestors, children, children_with_tokens, siblings};
ghost use Rattle.rowan_table.specs.Moves.{siblings_with_tokens};
ghost use Rattle.rowan_api.specs.Refs.{node_place, rest_of_ancestors, rest_of_elements};
ghost use Rattle.rowan_api.specs.Refs.{rest_of_nodes};

use super::SyntaxNodeRef;
use crate::api::elements_ref::TypedElementsRef;
use crate::api::nodes_ref::TypedNodesRef;
use crate::api::{
    AncestorsRef, SiblingsRef, SiblingsWithTokensRef, SyntaxElementChildrenRef,
    SyntaxNodeChildrenRef,
};
use rowan_green::utility_types::Direction;

impl<'tree, L> SyntaxNodeRef<'tree, L> {
    /// The node and the nodes above it, up to the root.
    pub fn ancestors(&self) -> AncestorsRef<'tree, L>
        ensures { rest_of_ancestors result ≡ ancestors (node_place self.now) }
    {
        TypedNodesRef::new(self.raw.ancestors())
    }

    /// The children that are nodes.
    pub fn children(&self) -> SyntaxNodeChildrenRef<'tree, L>
        ensures list { rest_of_nodes result ≡ children (node_place self.now) }
        ensures count { length (rest_of_nodes result) < 2 ^ 64 }
    {
        TypedNodesRef::new(self.raw.children())
    }

    /// The children.
    pub fn children_with_tokens(&self) -> SyntaxElementChildrenRef<'tree, L>
        ensures list { rest_of_elements result ≡ children_with_tokens (node_place self.now) }
        ensures count { length (rest_of_elements result) < 2 ^ 64 }
    {
        TypedElementsRef::new(self.raw.children_with_tokens())
    }

    /// The node, and then its siblings in a direction that are nodes, nearest first. A root has
    /// none.
    pub fn siblings(&self, direction: Direction) -> SiblingsRef<'tree, L>
        ensures list { rest_of_nodes result ≡ siblings direction (node_place self.now) }
        ensures count { length (rest_of_nodes result) < 2 ^ 64 }
    {
        TypedNodesRef::new(self.raw.siblings(direction))
    }

    /// The node, and then its siblings in a direction, nearest first. A root has none.
    pub fn siblings_with_tokens(&self, direction: Direction) -> SiblingsWithTokensRef<'tree, L>
        ensures list { rest_of_elements result
            ≡ siblings_with_tokens direction (node_place self.now) }
        ensures count { length (rest_of_elements result) < 2 ^ 64 }
    {
        TypedElementsRef::new(self.raw.siblings_with_tokens(direction))
    }
}
