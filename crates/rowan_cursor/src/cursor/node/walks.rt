//! Walks from a node.
ghost use Rattle.std.specs.Prelude.{◌≡◌, IfOk, IfErr};
ghost use Rattle.rowan_table.specs.Preorder.{preorder, preorder_with_tokens, descendants};
ghost use Rattle.rowan_table.specs.Preorder.{descendants_with_tokens};

use super::SyntaxNode;
use crate::cursor::traversal::Traversal;
use crate::cursor::{Descendants, DescendantsWithTokens, Preorder, PreorderWithTokens};
use rowan_green::fault::Fault;

impl SyntaxNode {
    /// A walk through the node and the nodes below it: each is entered before those below it, and
    /// left after.
    pub fn preorder(&self) -> Preorder
        ensures ok { IfOk result (λ list. list ≡ preorder self.now) }
        ensures err { IfErr result (λ e. e ≡ Fault.Memory) }
    {
        Preorder::new(&self.table, Traversal::new(self.number))
    }

    /// A walk through the node and all that is below it: each element is entered before what is
    /// below it, and left after.
    pub fn preorder_with_tokens(&self) -> PreorderWithTokens
        ensures ok { IfOk result (λ list. list ≡ preorder_with_tokens self.now) }
        ensures err { IfErr result (λ e. e ≡ Fault.Memory) }
    {
        PreorderWithTokens::new(&self.table, Traversal::new(self.number))
    }

    /// The node and the nodes below it, each before those below it.
    pub fn descendants(&self) -> Descendants
        ensures ok { IfOk result (λ list. list ≡ descendants self.now) }
        ensures err { IfErr result (λ e. e ≡ Fault.Memory) }
    {
        Descendants::new(&self.table, Traversal::new(self.number))
    }

    /// The node and all that is below it, each element before what is below it.
    pub fn descendants_with_tokens(&self) -> DescendantsWithTokens
        ensures ok { IfOk result (λ list. list ≡ descendants_with_tokens self.now) }
        ensures err { IfErr result (λ e. e ≡ Fault.Memory) }
    {
        DescendantsWithTokens::new(&self.table, Traversal::new(self.number))
    }
}
