//! Replacements at a cursor.
ghost use Rattle.std.specs.Prelude.{◌≡◌, IfOk, IfErr};
ghost use Rattle.rowan.specs.Replacement.{IsReplacement, WhyNoReplacement};
ghost use Rattle.rowan.specs.Types.NodeOrToken.TheVariants.{Node};

use crate::kinds::Lists;
use rowan::{Fault, GreenNode, SyntaxNode};

/// The tree with another node at a cursor.
pub fn replace(node: &SyntaxNode<Lists>, new: GreenNode) -> Result<GreenNode, Fault>
    ensures ok { IfOk result (IsReplacement node.now (Node new)) }
    ensures err { IfErr result (WhyNoReplacement node.now (Node new)) }
{
    node.replace_with(new)
}

/// The tree with a node put in its own place: the same tree.
pub fn put_back(node: &SyntaxNode<Lists>) -> Result<GreenNode, Fault>
    ensures { IfOk result (λ tree. tree ≡ node.now.root) }
{
    let own = node.green().clone()?;
    node.replace_with(own)
}
