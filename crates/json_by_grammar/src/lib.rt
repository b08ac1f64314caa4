//! JSON, whose kinds and parser are written from `json.ungram`. By hand is the lexer alone.
#![tactic(auto)]

pub mod kinds;
mod lexer;
pub mod parser;

pub use kinds::{Json, Kind};
pub use lexer::StrictLexer;
pub use parser::JsonParser;
