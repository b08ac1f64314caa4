//! Parsers by markers and events: a lexer says where tokens end, a grammar says where nodes begin
//! and end, and the library keeps every byte of the text.
#![tactic(auto)]

pub mod laws;
pub mod parsed;
pub mod parsing;
pub mod places;
pub mod tree;

pub use parsed::Parse;
pub use parsing::{Ran, parse, parse_with, run};
pub use places::{lexer_errors, nth_range, token_ranges};
pub use rowan_events::{
    Brackets, CompletedMarker, Event, LexError, Lexed, Lexeme, Lexer, Marker, Parser, Token,
    TokenSet, event, lex, lexer, parser, running, token_set,
};
pub use rowan_lines::{
    LineColumn, LineIndex, Renderer, Severity, SyntaxError, line_index, render, render_up_to,
    rendering,
};
pub use tree::{Source, Trivia, build_tree, build_tree_with};

/// The set of some kinds of a language whose raw kinds are the numbers of its variants.
#[macro_export]
macro_rules! token_set {
    ($($kind:expr),* $(,)?) => {
        $crate::TokenSet(0 $(| (1 << ($kind as u128)))*)
    };
}
