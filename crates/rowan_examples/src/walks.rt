//! Walks through a tree.
ghost use Rattle.std.specs.Prelude.{◌≡◌, IfOk};
ghost use Rattle.rowan.specs.Preorder.{descendants, preorder, skip_rest};
ghost use Rattle.rowan.specs.Yields.{YieldsOrRefuses};

use crate::kinds::Lists;
use rowan::api::{Descendants, Preorder};
use rowan::{Fault, SyntaxNode, WalkEvent};

/// A walk through a node and all nodes below it.
pub fn walk(node: &SyntaxNode<Lists>) -> Preorder<Lists>
    ensures { IfOk result (λ events. events ≡ preorder node.now) }
{
    node.preorder()
}

/// Leaves out what is below the node that was entered last.
pub fn skip(walk: &mut Preorder<Lists>)
    ensures { walk.new ≡ skip_rest walk.old }
{
    walk.skip_subtree();
}

/// A node and all nodes below it.
pub fn nodes(node: &SyntaxNode<Lists>) -> Descendants<Lists>
    ensures { IfOk result (λ nodes. nodes ≡ descendants node.now) }
{
    node.descendants()
}

/// The next event of a walk.
pub fn next_event(walk: &mut Preorder<Lists>) -> Option<Result<WalkEvent<SyntaxNode<Lists>>, Fault>>
    ensures { YieldsOrRefuses walk.old result walk.new }
{
    walk.next()
}
