//! How trees are printed, as lines and as JSON, and by which names: the kinds of a `Language`.
//! `rowan_api` has the calls.
#![tactic(auto)]

pub mod json_text;
pub mod json_value;
pub mod language;
mod open_node;
pub mod printed;

pub use language::Language;
