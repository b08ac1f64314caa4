//! From the text of a grammar to what it says.
#![tactic(auto)]

mod from_text;
mod lexer;
mod parser;
mod parser_head;
pub mod problems;
mod reader;
mod rules;
mod syntax;
mod wraps;

pub use from_text::{Reading, read};
