//! A small programming language, whose kinds and parser are written from `little.ungram`. By hand is
//! the lexer alone.
#![tactic(auto)]

pub mod kinds;
mod lexer;
pub mod parser;

pub use kinds::{Kind, Little};
pub use lexer::next_token;
pub use parser::LittleParser;
