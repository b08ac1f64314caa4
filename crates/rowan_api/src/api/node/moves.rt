//! Moves from a node, and lists of what stands beside, above and below it.
ghost use Rattle.std.specs.Prelude.{◌≡◌, IfOk, IfErr};
ghost use Rattle.rowan_table.specs.Moves.{tree_top, parent, first_child, last_child};
ghost use Rattle.rowan_table.specs.Moves.{first_child_or_token, last_child_or_token};
ghost use Rattle.rowan_table.specs.Moves.{child_or_token_at_index, next_sibling, prev_sibling};
ghost use Rattle.rowan_table.specs.Moves.{next_sibling_or_token, prev_sibling_or_token};
ghost use Rattle.rowan_table.specs.Moves.{first_token, last_token};

use crate::api::{SyntaxElement, SyntaxNode, SyntaxToken, element};
use rowan_green::fault::Fault;

impl<L> SyntaxNode<L> {
    /// The root of the tree.
    pub fn tree_top(&self) -> Result<SyntaxNode<L>, Fault>
        ensures ok { IfOk result (λ n. n ≡ tree_top self.now) }
        ensures err { IfErr result (λ e. e ≡ Fault.Memory) }
    {
        Ok(SyntaxNode::from(self.raw.tree_top()?))
    }

    /// The parent, or `None` of a root.
    pub fn parent(&self) -> Result<Option<SyntaxNode<L>>, Fault>
        ensures ok { IfOk result (λ found. found ≡ parent self.now) }
        ensures err { IfErr result (λ e. e ≡ Fault.Memory) }
    {
        Ok(SyntaxNode::from_answer(self.raw.parent()?))
    }

    /// The first child that is a node.
    pub fn first_child(&self) -> Result<Option<SyntaxNode<L>>, Fault>
        ensures ok { IfOk result (λ found. found ≡ first_child self.now) }
        ensures err { IfErr result (λ e. e ≡ Fault.Memory) }
    {
        Ok(SyntaxNode::from_answer(self.raw.first_child()?))
    }

    /// The last child that is a node.
    pub fn last_child(&self) -> Result<Option<SyntaxNode<L>>, Fault>
        ensures ok { IfOk result (λ found. found ≡ last_child self.now) }
        ensures err { IfErr result (λ e. e ≡ Fault.Memory) }
    {
        Ok(SyntaxNode::from_answer(self.raw.last_child()?))
    }

    /// The first child.
    pub fn first_child_or_token(&self) -> Result<Option<SyntaxElement<L>>, Fault>
        ensures ok { IfOk result (λ found. found ≡ first_child_or_token self.now) }
        ensures err { IfErr result (λ e. e ≡ Fault.Memory) }
    {
        Ok(element::from_answer(self.raw.first_child_or_token()?))
    }

    /// The last child.
    pub fn last_child_or_token(&self) -> Result<Option<SyntaxElement<L>>, Fault>
        ensures ok { IfOk result (λ found. found ≡ last_child_or_token self.now) }
        ensures err { IfErr result (λ e. e ≡ Fault.Memory) }
    {
        Ok(element::from_answer(self.raw.last_child_or_token()?))
    }

    /// The child at an index among all children, or `None` past the last one.
    pub fn child_or_token_at_index(&self, index: usize) -> Result<Option<SyntaxElement<L>>, Fault>
        ensures ok { IfOk result (λ found. found ≡ child_or_token_at_index self.now index) }
        ensures err { IfErr result (λ e. e ≡ Fault.Memory) }
    {
        Ok(element::from_answer(self.raw.child_or_token_at_index(index)?))
    }

    /// The next sibling that is a node.
    pub fn next_sibling(&self) -> Result<Option<SyntaxNode<L>>, Fault>
        ensures ok { IfOk result (λ found. found ≡ next_sibling self.now) }
        ensures err { IfErr result (λ e. e ≡ Fault.Memory) }
    {
        Ok(SyntaxNode::from_answer(self.raw.next_sibling()?))
    }

    /// The nearest sibling before this one that is a node.
    pub fn prev_sibling(&self) -> Result<Option<SyntaxNode<L>>, Fault>
        ensures ok { IfOk result (λ found. found ≡ prev_sibling self.now) }
        ensures err { IfErr result (λ e. e ≡ Fault.Memory) }
    {
        Ok(SyntaxNode::from_answer(self.raw.prev_sibling()?))
    }

    /// The next sibling.
    pub fn next_sibling_or_token(&self) -> Result<Option<SyntaxElement<L>>, Fault>
        ensures ok { IfOk result (λ found. found ≡ next_sibling_or_token self.now) }
        ensures err { IfErr result (λ e. e ≡ Fault.Memory) }
    {
        Ok(element::from_answer(self.raw.next_sibling_or_token()?))
    }

    /// The sibling before this one.
    pub fn prev_sibling_or_token(&self) -> Result<Option<SyntaxElement<L>>, Fault>
        ensures ok { IfOk result (λ found. found ≡ prev_sibling_or_token self.now) }
        ensures err { IfErr result (λ e. e ≡ Fault.Memory) }
    {
        Ok(element::from_answer(self.raw.prev_sibling_or_token()?))
    }

    /// The first token of all that are in this node, also an empty one.
    pub fn first_token(&self) -> Result<Option<SyntaxToken<L>>, Fault>
        ensures ok { IfOk result (λ found. found ≡ first_token self.now) }
        ensures err { IfErr result (λ e. e ≡ Fault.Memory) }
    {
        Ok(SyntaxToken::from_answer(self.raw.first_token()?))
    }

    /// The last token of all that are in this node, also an empty one.
    pub fn last_token(&self) -> Result<Option<SyntaxToken<L>>, Fault>
        ensures ok { IfOk result (λ found. found ≡ last_token self.now) }
        ensures err { IfErr result (λ e. e ≡ Fault.Memory) }
    {
        Ok(SyntaxToken::from_answer(self.raw.last_token()?))
    }
}
