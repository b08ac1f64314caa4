//! S-expressions: their kinds, their lexer, their parser, the wrappers of their nodes, and what
//! they read as numbers.
pub mod ast;
pub mod balance;
pub mod eval;
pub mod lang;
pub mod lexer;
pub mod parsed;
pub mod parser;

pub use ast::{Atom, List, Root, Sexp};
pub use balance::is_balanced;
pub use lang::{Lang, SyntaxKind};
pub use lexer::{Token, lex};
pub use parsed::Parse;
pub use parser::{parse, parse_with};
