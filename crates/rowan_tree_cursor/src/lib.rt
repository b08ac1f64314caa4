//! A cursor without a table of its tree, which replaces what stands at it. `rowan_edit` gives it on.
#![tactic(auto)]

pub mod tree_cursor;

pub use tree_cursor::TreeCursor;
