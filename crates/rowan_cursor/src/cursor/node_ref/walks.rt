//! Walks from a borrowed node.
ghost use Rattle.std.specs.Prelude.{◌≡◌};
ghost use Rattle.rowan_table.specs.Preorder.{preorder, preorder_with_tokens, descendants};
ghost use Rattle.rowan_table.specs.Preorder.{descendants_with_tokens};

use super::SyntaxNodeRef;
use crate::cursor::traversal::Traversal;
use crate::cursor::{DescendantsRef, DescendantsWithTokensRef, PreorderRef, PreorderWithTokensRef};

impl<'tree> SyntaxNodeRef<'tree> {
    ghost use Rattle.rowan_cursor.specs.Refs.{node_place};
    ghost use Rattle.rowan_cursor.specs.RefWalks.{rest_of_node_events, rest_of_events};
    ghost use Rattle.rowan_cursor.specs.RefWalks.{rest_of_descendants, rest_of_all_descendants};

    /// A walk through the node and the nodes below it: each is entered before those below it, and
    /// left after.
    pub fn preorder(&self) -> PreorderRef<'tree>
        ensures { rest_of_node_events result ≡ preorder (node_place self.now) }
    {
        PreorderRef::new(self.table, Traversal::new(self.number))
    }

    /// A walk through the node and all that is below it: each element is entered before what is
    /// below it, and left after.
    pub fn preorder_with_tokens(&self) -> PreorderWithTokensRef<'tree>
        ensures { rest_of_events result ≡ preorder_with_tokens (node_place self.now) }
    {
        PreorderWithTokensRef::new(self.table, Traversal::new(self.number))
    }

    /// The node and the nodes below it, each before those below it.
    pub fn descendants(&self) -> DescendantsRef<'tree>
        ensures { rest_of_descendants result ≡ descendants (node_place self.now) }
    {
        DescendantsRef::new(self.table, Traversal::new(self.number))
    }

    /// The node and all that is below it, each element before what is below it.
    pub fn descendants_with_tokens(&self) -> DescendantsWithTokensRef<'tree>
        ensures { rest_of_all_descendants result ≡ descendants_with_tokens (node_place self.now) }
    {
        DescendantsWithTokensRef::new(self.table, Traversal::new(self.number))
    }
}
