//! The kinds of a language whose nodes have parts that are alike, and wrappers of its nodes, all of
//! it written by `rowan_grammar`.
#![tactic(auto)]

pub mod kinds;
pub mod nodes;

pub use kinds::{Kind, Small};
