//! What a grammar works with: the lexer's tokens, and a parser that notes events and complaints.
//! `rowan_parser` makes trees of them, and gives all of this on.
#![tactic(auto)]

pub mod event;
pub mod lexer;
pub mod parser;
pub mod running;
pub mod token_set;

pub use event::Event;
pub use lexer::{LexError, Lexed, Lexeme, Lexer, Token, lex};
pub use parser::{CompletedMarker, Marker, Parser};
pub use token_set::{Brackets, TokenSet};
