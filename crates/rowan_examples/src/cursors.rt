//! Cursors with and without a language, and moves.
ghost use Rattle.std.specs.Prelude.{◌≡◌, IfOk, []};
ghost use Rattle.std.specs.Option.{option_and_then};
ghost use Rattle.rowan.specs.Cursor.{text_at};
ghost use Rattle.rowan.specs.Equal.{same_place};
ghost use Rattle.rowan.specs.Moves.{cursor_at, parent};

use crate::kinds::Lists;
use rowan::{Fault, GreenNode, SyntaxNode, SyntaxToken, cursor};
use std::alloc::Global;

/// The cursor at the root of a tree.
pub fn root_of(alloc: Global, tree: GreenNode) -> Result<SyntaxNode<Lists>, Fault>
    ensures { IfOk result (λ root. root ≡ cursor_at tree []) }
{
    SyntaxNode::new_root(alloc, tree)
}

/// The cursor with a language.
pub fn typed_node(raw: cursor::SyntaxNode) -> SyntaxNode<Lists>
    ensures { result ≡ raw }
{
    SyntaxNode::from(raw)
}

/// The parent of the parent.
pub fn grandparent(node: &SyntaxNode<Lists>) -> Result<Option<SyntaxNode<Lists>>, Fault>
    ensures { IfOk result (λ found. found ≡ option_and_then parent (parent node.now)) }
{
    match node.parent()? {
        Some(parent) => parent.parent(),
        None => Ok(None),
    }
}

/// The text of a token.
pub fn text(token: &SyntaxToken<Lists>) -> &str
    ensures { result.now ≡ text_at token.now }
{
    token.text()
}

/// Whether two cursors stand at equal nodes that start at one offset.
pub fn are_equal(node: &SyntaxNode<Lists>, other: &SyntaxNode<Lists>) -> bool
    ensures { result ≡ same_place node.now other.now }
{
    node == other
}
