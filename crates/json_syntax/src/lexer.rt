//! The tokens of JSON.
use crate::dialect::Options;
use crate::kinds::{Json, Kind};
use crate::numerals::scan_number;
use crate::strings::scan_string;
use rowan::{Language, SyntaxKind};
use rowan_parser::{Lexeme, Lexer};

/// The lexer of JSON. The options decide which tokens are errors, and never where tokens end.
#[derive(Clone, Copy)]
pub struct JsonLexer {
    pub options: Options,
}

impl Lexer for JsonLexer {
    ghost is_ready = { λ _. Unit {0} };

    ghost says = { λ _ _ _ _. Unit {0} };

    fn next(&mut self, rest: &str) -> Lexeme {
        match rest.bytes().next() {
            Some(b'{') => valid(Kind::LBrace, 1),
            Some(b'}') => valid(Kind::RBrace, 1),
            Some(b'[') => valid(Kind::LBracket, 1),
            Some(b']') => valid(Kind::RBracket, 1),
            Some(b',') => valid(Kind::Comma, 1),
            Some(b':') => valid(Kind::Colon, 1),
            Some(b'"') => self.string(rest),
            Some(b'-' | b'0'..=b'9') => {
                let number = scan_number(rest);
                lexeme(Kind::Number, number.len, number.message)
            }
            Some(b'/') => self.comment(rest),
            Some(b'a'..=b'z' | b'A'..=b'Z' | b'_') => {
                valid(Kind::Word, rest.bytes().take_while(is_in_word).count())
            }
            Some(b' ' | b'\t' | b'\n' | b'\r') => {
                valid(Kind::Whitespace, rest.bytes().take_while(is_space).count())
            }
            Some(b'\x0c') => form_feeds(rest),
            _ => valid(Kind::Unknown, 1),
        }
    }
}

impl JsonLexer {
    /// A string, or the line from a quote on where no other one ends it.
    fn string(&self, rest: &str) -> Lexeme {
        match scan_string(rest, self.options.allows_lone_surrogates) {
            Some(string) => lexeme(Kind::String, string.len, string.message),
            None => valid(Kind::Unknown, line_len(rest)),
        }
    }

    /// A comment, or what begins with `/` and is none.
    fn comment(&self, rest: &str) -> Lexeme {
        let len = if rest.starts_with("//") {
            line_len(rest)
        } else if let Some(len) = block_len(rest) {
            len
        } else if rest.starts_with("/*") {
            return valid(Kind::Unknown, rest.len());
        } else {
            return valid(Kind::Unknown, 1);
        };
        if self.options.allows_comments {
            valid(Kind::Comment, len)
        } else {
            lexeme(Kind::Comment, len, Some("expected no comment"))
        }
    }
}

/// The kind of the first token of a text, and its length in bytes.
pub fn next_token(text: &str) -> (SyntaxKind, usize) {
    let mut lexer = JsonLexer {
        options: Options::default(),
    };
    let first = lexer.next(text);
    (first.kind, first.len)
}

fn valid(kind: Kind, len: usize) -> Lexeme {
    lexeme(kind, len, None)
}

fn lexeme(kind: Kind, len: usize, message: Option<&'static str>) -> Lexeme {
    Lexeme {
        kind: Json::kind_to_raw(kind),
        len,
        message,
    }
}

fn form_feeds(rest: &str) -> Lexeme {
    let len = rest.bytes().take_while(|byte| *byte == b'\x0c').count();
    lexeme(Kind::Whitespace, len, Some("expected no form feed"))
}

fn line_len(text: &str) -> usize {
    text.find(['\r', '\n']).unwrap_or(text.len())
}

fn block_len(text: &str) -> Option<usize> {
    text.strip_prefix("/*")?.find("*/")?.checked_add(4)
}

fn is_space(byte: &u8) -> bool {
    matches!(byte, b' ' | b'\t' | b'\n' | b'\r')
}

/// Whether a word or a number goes on with this byte.
pub fn is_in_word(byte: &u8) -> bool {
    byte.is_ascii_alphanumeric() || matches!(byte, b'_' | b'+' | b'-' | b'.')
}
