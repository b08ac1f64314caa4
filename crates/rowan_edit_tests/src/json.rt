//! JSON texts as trees.
use json_syntax::Json;
use rowan::{Fault, SyntaxNode, SyntaxNodeRef};
use rowan_edit::{EditError, SyntaxEditor};
use std::alloc::Global;

pub type Node<'tree> = SyntaxNodeRef<'tree, Json>;

pub type Editor = SyntaxEditor<Json>;

/// What an editor answers to an edit.
pub type Answer = Result<(), EditError>;

pub fn root_of(alloc: Global, text: &str) -> Result<SyntaxNode<Json>, Fault> {
    json_syntax::parse(alloc, text)?.syntax(alloc)
}
