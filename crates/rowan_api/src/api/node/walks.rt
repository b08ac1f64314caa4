//! Walks from a node.
ghost use Rattle.std.specs.Prelude.{◌≡◌, IfOk, IfErr};
ghost use Rattle.rowan_table.specs.Preorder.{preorder, preorder_with_tokens, descendants};
ghost use Rattle.rowan_table.specs.Preorder.{descendants_with_tokens};

use super::SyntaxNode;
use crate::api::typed_elements::TypedElements;
use crate::api::typed_nodes::TypedNodes;
use crate::api::{Descendants, DescendantsWithTokens, Preorder, PreorderWithTokens};
use rowan_green::fault::Fault;

impl<L> SyntaxNode<L> {
    /// A walk through the node and the nodes below it: each is entered before those below it, and
    /// left after.
    pub fn preorder(&self) -> Preorder<L>
        ensures ok { IfOk result (λ list. list ≡ preorder self.now) }
        ensures err { IfErr result (λ e. e ≡ Fault.Memory) }
    {
        Preorder::new(self.raw.preorder())
    }

    /// A walk through the node and all that is below it: each element is entered before what is
    /// below it, and left after.
    pub fn preorder_with_tokens(&self) -> PreorderWithTokens<L>
        ensures ok { IfOk result (λ list. list ≡ preorder_with_tokens self.now) }
        ensures err { IfErr result (λ e. e ≡ Fault.Memory) }
    {
        PreorderWithTokens::new(self.raw.preorder_with_tokens())
    }

    /// The node and the nodes below it, each before those below it.
    pub fn descendants(&self) -> Descendants<L>
        ensures ok { IfOk result (λ list. list ≡ descendants self.now) }
        ensures err { IfErr result (λ e. e ≡ Fault.Memory) }
    {
        TypedNodes::new(self.raw.descendants())
    }

    /// The node and all that is below it, each element before what is below it.
    pub fn descendants_with_tokens(&self) -> DescendantsWithTokens<L>
        ensures ok { IfOk result (λ list. list ≡ descendants_with_tokens self.now) }
        ensures err { IfErr result (λ e. e ≡ Fault.Memory) }
    {
        TypedElements::new(self.raw.descendants_with_tokens())
    }
}
