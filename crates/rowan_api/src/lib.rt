//! Cursors with the kinds of a language.
#![tactic(auto)]

pub mod api;
pub mod laws;

pub use rowan_cursor::cursor;
