//! The tokens of JSON: signs by the texts that the grammar has for them, the rest as `json_syntax`
//! cuts it.
use crate::kinds::{Json, Kind};
use json_syntax::{JsonLexer, Options};
use rowan::Language;
use rowan_parser::{Lexeme, Lexer};

/// The lexer of strict JSON.
#[derive(Clone, Copy)]
pub struct StrictLexer;

impl Lexer for StrictLexer {
    ghost is_ready = { λ _. Unit {0} };

    ghost says = { λ _ _ _ _. Unit {0} };

    fn next(&mut self, rest: &str) -> Lexeme {
        match Kind::from_start(rest) {
            Some((kind, len)) => Lexeme {
                kind: Json::kind_to_raw(kind),
                len,
                message: None,
            },
            None => other_token(rest),
        }
    }
}

/// What is no sign. A word has to be one of three.
fn other_token(rest: &str) -> Lexeme {
    let mut lexer = JsonLexer {
        options: Options::strict(),
    };
    let first = lexer.next(rest);
    if first.kind == Json::kind_to_raw(Kind::Word) {
        return word(rest, first);
    }
    first
}

fn word(rest: &str, first: Lexeme) -> Lexeme {
    match rest.get(..first.len) {
        Some("true" | "false" | "null") => first,
        _ => Lexeme {
            message: Some("expected `true`, `false` or `null`"),
            ..first
        },
    }
}
