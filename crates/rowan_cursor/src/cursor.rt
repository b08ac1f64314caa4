//! Cursors over green trees, without the kinds of a language.
//!
//! # Errors
//!
//! All cursors of one tree share it, and a cursor that a call answers is one more owner. So each
//! call that answers a cursor or a text is refused where the count of the tree's owners is full,
//! and then the answer is `Err(Fault::Memory)`. It asks for no memory. An iterator gives that `Err`
//! as its item, and then it ends. What else a call may refuse stands at the call.
//!
//! What is borrowed from a tree, by `as_ref`, is no owner: its moves, lists, walks and searches
//! have plain answers.

// The same expression over the node or the token that an element is.
macro_rules! for_both {
    ($element:expr, $it:ident => $answer:expr) => {
        match $element {
            NodeOrToken::Node($it) => $answer,
            NodeOrToken::Token($it) => $answer,
        }
    };
}

mod ancestors_ref;
mod climb;
mod descendants_ref;
mod element;
mod element_children_ref;
mod element_ref;
mod iter;
mod node;
mod node_children_ref;
mod node_ref;
mod nodes_by_kind_ref;
mod preorder_ref;
mod remainder;
mod row;
mod token;
mod token_ref;
mod traversal;

pub use ancestors_ref::AncestorsRef;
pub use descendants_ref::{DescendantsRef, DescendantsWithTokensRef};
pub use element::{ElementCalls, SyntaxElement};
pub use element_children_ref::{SiblingsWithTokensRef, SyntaxElementChildrenRef};
pub use element_ref::{ElementRefCalls, SyntaxElementRef};
pub use iter::{
    Ancestors, Descendants, DescendantsWithTokens, Iter, Preorder, PreorderWithTokens, Siblings,
    SiblingsWithTokens, SyntaxElementChildren, SyntaxNodeChildren,
};
pub use node::SyntaxNode;
pub use node_children_ref::{SiblingsRef, SyntaxNodeChildrenRef};
pub use node_ref::SyntaxNodeRef;
pub use nodes_by_kind_ref::NodesByKindRef;
pub use preorder_ref::{PreorderRef, PreorderWithTokensRef};
pub use token::SyntaxToken;
pub use token_ref::SyntaxTokenRef;
