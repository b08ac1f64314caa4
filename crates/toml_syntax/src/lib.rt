//! TOML: a lexer, and kinds, wrappers and a parser that are written from `toml.ungram`.
#![tactic(auto)]

pub mod kinds;
pub mod lexer;
pub mod nodes;
pub mod parser;
mod scanning;
mod shapes;

pub use kinds::{Kind, Toml};
pub use lexer::TomlLexer;
pub use parser::TomlParser;
