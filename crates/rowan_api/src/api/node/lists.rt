//! What stands above, below and beside a node, one after the other.
ghost use Rattle.std.specs.Prelude.{◌≡◌, IfOk, IfErr};
ghost use Rattle.rowan_table.specs.Moves.{ancestors, children, children_with_tokens, siblings};
ghost use Rattle.rowan_table.specs.Moves.{siblings_with_tokens};

use super::SyntaxNode;
use crate::api::typed_elements::TypedElements;
use crate::api::typed_nodes::TypedNodes;
use crate::api::{
    Ancestors, Siblings, SiblingsWithTokens, SyntaxElementChildren, SyntaxNodeChildren,
};
use rowan_green::fault::Fault;
use rowan_green::utility_types::Direction;

impl<L> SyntaxNode<L> {
    /// The node and the nodes above it, up to the root.
    pub fn ancestors(&self) -> Ancestors<L>
        ensures ok { IfOk result (λ list. list ≡ ancestors self.now) }
        ensures err { IfErr result (λ e. e ≡ Fault.Memory) }
    {
        TypedNodes::new(self.raw.ancestors())
    }

    /// The children that are nodes.
    pub fn children(&self) -> SyntaxNodeChildren<L>
        ensures ok { IfOk result (λ list. list ≡ children self.now) }
        ensures err { IfErr result (λ e. e ≡ Fault.Memory) }
    {
        TypedNodes::new(self.raw.children())
    }

    /// The children.
    pub fn children_with_tokens(&self) -> SyntaxElementChildren<L>
        ensures ok { IfOk result (λ list. list ≡ children_with_tokens self.now) }
        ensures err { IfErr result (λ e. e ≡ Fault.Memory) }
    {
        TypedElements::new(self.raw.children_with_tokens())
    }

    /// The node, and then its siblings in a direction that are nodes, nearest first. A root has
    /// none.
    pub fn siblings(&self, direction: Direction) -> Siblings<L>
        ensures ok { IfOk result (λ list. list ≡ siblings direction self.now) }
        ensures err { IfErr result (λ e. e ≡ Fault.Memory) }
    {
        TypedNodes::new(self.raw.siblings(direction))
    }

    /// The node, and then its siblings in a direction, nearest first. A root has none.
    pub fn siblings_with_tokens(&self, direction: Direction) -> SiblingsWithTokens<L>
        ensures ok { IfOk result (λ list. list ≡ siblings_with_tokens direction self.now) }
        ensures err { IfErr result (λ e. e ≡ Fault.Memory) }
    {
        TypedElements::new(self.raw.siblings_with_tokens(direction))
    }
}
