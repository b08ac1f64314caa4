//! The tokens of a tree, rewritten in one pass. `rowan_edit` gives it on.
#![tactic(auto)]

pub mod rewriting;

pub use rewriting::{Rewrite, Rewritten, TokenAt, rewrite_tokens};
