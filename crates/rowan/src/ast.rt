//! Wrappers of nodes, and pointers to nodes.
//!
//! A tree is made when it is wanted and let go when it is not, since a cursor keeps its whole tree.
//! What has to last longer than a tree is a [`SyntaxNodePtr`]: the kind of a node and where its
//! text lies. It is resolved in the tree of a later text, and `after_edit` carries it over an edit.
//! An [`AstNode`] wraps the nodes of some kinds; a pointer to one is an [`AstPtr`].
//!
//! A call that gives a node or a token shares its tree once more. Where that is refused, since the
//! tree's reference count is full, the answer is `Err(Fault::Memory)`. What is borrowed from a tree
//! shares nothing: calls whose names end in `_ref` or `_of` take it and, where they can, give it.
pub mod algo;
mod alike;
mod ancestors_at_offset;
mod ast_ptr;
mod children;
mod children_ref;
mod node;
mod node_of;
mod node_of_ref;
mod node_ref;
mod nodes_ref;
pub mod support;
mod syntax_node_ptr;
mod token;

pub use ast_ptr::AstPtr;
pub use children::AstChildren;
pub use children_ref::AstChildrenRef;
pub use node::AstNode;
pub use node_of::NodeOf;
pub use node_of_ref::NodeOfRef;
pub use node_ref::AstNodeRef;
pub use nodes_ref::AstNodesRef;
pub use syntax_node_ptr::SyntaxNodePtr;
pub use token::{AstToken, AstTokenRef};
