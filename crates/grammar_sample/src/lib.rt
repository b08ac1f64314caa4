//! The kinds of a language like TOML, and wrappers of its nodes, all of it written by
//! `rowan_grammar`.
#![tactic(auto)]

pub mod kinds;
pub mod nodes;

pub use kinds::{Kind, Sample};
