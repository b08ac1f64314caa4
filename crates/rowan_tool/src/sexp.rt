//! S-expressions: all of `rowan_sexp`, and lists that are parsed anew in place.
pub mod laws;
mod reparse;

pub use reparse::{reparse_all, reparse_list};
pub use rowan_sexp::sexp::{
    Atom, Lang, List, Parse, Root, Sexp, SyntaxKind, Token, is_balanced, lex, parse, parse_with,
};
