//! Lossless syntax trees, proved: what a parser, a formatter or a linter uses.
//!
//! A parser makes a [`GreenNode`] by the calls of a [`GreenNodeBuilder`], and names its kinds by a
//! [`Language`]. A [`SyntaxNode`] is a place in the tree, and so are a [`SyntaxToken`] and a
//! [`SyntaxElement`], which is either. Their calls lead to other places, and answer kinds of the
//! language; those of `cursor` are the same without a language.
//!
//! A crate that uses this one lists `rowan` alone: the types, traits and functions of the crates
//! below are here, and the words of their contracts in `Rattle.rowan.specs`.
#![tactic(auto)]

pub mod ast;
pub mod laws;

pub use api::{
    Language, SyntaxElement, SyntaxElementChildren, SyntaxElementChildrenRef, SyntaxElementRef,
    SyntaxNode, SyntaxNodeChildren, SyntaxNodeChildrenRef, SyntaxNodeRef, SyntaxToken,
    SyntaxTokenRef, TypedElementCalls, TypedElementRefCalls,
};
pub use builder::{CacheHome, Checkpoint, GreenNodeBuilder, OwnedCache, Unfinished};
pub use cursor::{ElementCalls, ElementRefCalls};
pub use fault::Fault;
pub use green::{
    Children, GreenElement, GreenElementRef, GreenNode, GreenNodeData, GreenToken, GreenTokenData,
    SyntaxKind,
};
pub use node_cache::NodeCache;
pub use rowan_api::api;
pub use rowan_builder::{builder, node_cache};
pub use rowan_cursor::{cursor, syntax_text};
pub use rowan_green::{fault, green, steps, text, utility_types};
pub use rowan_script::script;
pub use serde_json;
pub use steps::Steps;
pub use syntax_text::{SyntaxText, SyntaxTextRef};
pub use text::{TextLen, TextRange, TextSize};
pub use utility_types::{Direction, NodeOrToken, TokenAtOffset, WalkEvent};
