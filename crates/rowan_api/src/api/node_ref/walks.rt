//! Walks from a borrowed node.
ghost use Rattle.std.specs.Prelude.{◌≡◌};
ghost use Rattle.rowan_table.specs.Preorder.{preorder, preorder_with_tokens, descendants};
ghost use Rattle.rowan_table.specs.Preorder.{descendants_with_tokens};
ghost use Rattle.rowan_api.specs.Refs.{node_place, rest_of_node_events, rest_of_events};
ghost use Rattle.rowan_api.specs.Refs.{rest_of_descendants, rest_of_all_descendants};

use super::SyntaxNodeRef;
use crate::api::elements_ref::TypedElementsRef;
use crate::api::nodes_ref::TypedNodesRef;
use crate::api::{DescendantsRef, DescendantsWithTokensRef, PreorderRef, PreorderWithTokensRef};

impl<'tree, L> SyntaxNodeRef<'tree, L> {
    /// A walk through the node and the nodes below it: each is entered before those below it, and
    /// left after.
    pub fn preorder(&self) -> PreorderRef<'tree, L>
        ensures { rest_of_node_events result ≡ preorder (node_place self.now) }
    {
        PreorderRef::new(self.raw.preorder())
    }

    /// A walk through the node and all that is below it: each element is entered before what is
    /// below it, and left after.
    pub fn preorder_with_tokens(&self) -> PreorderWithTokensRef<'tree, L>
        ensures { rest_of_events result ≡ preorder_with_tokens (node_place self.now) }
    {
        PreorderWithTokensRef::new(self.raw.preorder_with_tokens())
    }

    /// The node and the nodes below it, each before those below it.
    pub fn descendants(&self) -> DescendantsRef<'tree, L>
        ensures { rest_of_descendants result ≡ descendants (node_place self.now) }
    {
        TypedNodesRef::new(self.raw.descendants())
    }

    /// The node and all that is below it, each element before what is below it.
    pub fn descendants_with_tokens(&self) -> DescendantsWithTokensRef<'tree, L>
        ensures { rest_of_all_descendants result ≡ descendants_with_tokens (node_place self.now) }
    {
        TypedElementsRef::new(self.raw.descendants_with_tokens())
    }
}
