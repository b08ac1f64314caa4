//! Languages, and the cursors of their trees.
//!
//! A typed cursor is a raw one of `cursor`, with the kinds of a [`Language`]. To contracts both are
//! the same value, a root and a path, and `From` turns each into the other without a change, as
//! `from_raw` and `into_raw` do for elements. So each call of a typed cursor has the clauses of the
//! raw call of its name, and what is proved of the raw cursors holds of the typed ones of every
//! language. Only `kind` answers otherwise: the kind that the raw kind means. A typed cursor takes
//! no more memory than the raw one, and a typed call does no more than the raw call and this
//! reading of its answer.

// The same expression over the node or the token that an element is.
macro_rules! for_both {
    ($element:expr, $it:ident => $answer:expr) => {
        match $element {
            NodeOrToken::Node($it) => $answer,
            NodeOrToken::Token($it) => $answer,
        }
    };
}

mod element;
mod element_ref;
mod elements_ref;
mod node;
mod node_ref;
mod nodes_by_kind_ref;
mod nodes_ref;
mod preorder;
mod preorder_ref;
mod preorder_with_tokens;
mod preorder_with_tokens_ref;
mod token;
mod token_ref;
mod typed_elements;
mod typed_nodes;

pub use element::{SyntaxElement, TypedElementCalls};
pub use element_ref::{SyntaxElementRef, TypedElementRefCalls};
pub use elements_ref::{
    DescendantsWithTokensRef, SiblingsWithTokensRef, SyntaxElementChildrenRef, TypedElementsRef,
};
pub use node::SyntaxNode;
pub use node_ref::SyntaxNodeRef;
pub use nodes_by_kind_ref::NodesByKindRef;
pub use nodes_ref::{
    AncestorsRef, DescendantsRef, SiblingsRef, SyntaxNodeChildrenRef, TypedNodesRef,
};
pub use preorder::Preorder;
pub use preorder_ref::PreorderRef;
pub use preorder_with_tokens::PreorderWithTokens;
pub use preorder_with_tokens_ref::PreorderWithTokensRef;
pub use rowan_print::Language;
pub use token::SyntaxToken;
pub use token_ref::SyntaxTokenRef;
pub use typed_elements::{
    DescendantsWithTokens, SiblingsWithTokens, SyntaxElementChildren, TypedElements,
};
pub use typed_nodes::{Ancestors, Descendants, Siblings, SyntaxNodeChildren, TypedNodes};
