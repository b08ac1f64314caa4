//! What a grammar says: tokens, nodes and choices, their names, and places in its text.
#![tactic(auto)]

pub mod forms;
pub mod grammar;
pub mod names;
pub mod parser_lines;
pub mod place;
