//! The tokens of the language: words and signs by the texts that the grammar has for them.
use crate::kinds::{Kind, Little};
use rowan::{Language, SyntaxKind};

/// The kind of the first token of a text, and its length in bytes.
pub fn next_token(text: &str) -> (SyntaxKind, usize) {
    let (kind, len) = match text.bytes().next() {
        Some(b' ' | b'\t' | b'\n' | b'\r') => (
            Kind::Whitespace,
            text.bytes().take_while(u8::is_ascii_whitespace).count(),
        ),
        Some(b'0'..=b'9') => (
            Kind::Number,
            text.bytes().take_while(u8::is_ascii_digit).count(),
        ),
        Some(b'a'..=b'z' | b'A'..=b'Z' | b'_') => word(text),
        Some(b'/') if text.starts_with("//") => {
            (Kind::Comment, text.find('\n').unwrap_or(text.len()))
        }
        _ => Kind::from_start(text).unwrap_or((Kind::Unknown, 1)),
    };
    (Little::kind_to_raw(kind), len)
}

/// A word of the language, or a name.
fn word(text: &str) -> (Kind, usize) {
    let len = text.bytes().take_while(is_in_word).count();
    let word = text.get(..len).unwrap_or("");
    (Kind::from_keyword(word).unwrap_or(Kind::Name), len)
}

fn is_in_word(byte: &u8) -> bool {
    byte.is_ascii_alphanumeric() || *byte == b'_'
}
