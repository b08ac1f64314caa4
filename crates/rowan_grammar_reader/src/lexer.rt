//! The tokens of a grammar.
use crate::syntax::{Grammars, Kind};
use rowan::{Language, SyntaxKind};

/// The kind of the first token of a text, and its length in bytes.
pub fn next_token(text: &str) -> (SyntaxKind, usize) {
    let (kind, len) = match text.chars().next() {
        Some('/') if text.starts_with("///") => (Kind::Doc, line_len(text)),
        Some('/') if text.starts_with("//") => (Kind::Comment, line_len(text)),
        Some('\'') => literal(text),
        Some('=') => (Kind::Equals, 1),
        Some('|') => (Kind::Bar, 1),
        Some('*') => (Kind::Star, 1),
        Some('?') => (Kind::Question, 1),
        Some('(') => (Kind::Open, 1),
        Some(')') => (Kind::Close, 1),
        Some(':') => (Kind::Colon, 1),
        Some(first) if first.is_whitespace() => (Kind::Whitespace, spaces_len(text)),
        Some(first) if is_of_name(first) => (Kind::Word, name_len(text)),
        _ => (Kind::Unknown, 1),
    };
    (Grammars::kind_to_raw(kind), len)
}

fn line_len(text: &str) -> usize {
    text.find('\n').unwrap_or(text.len())
}

fn spaces_len(text: &str) -> usize {
    text.find(|character: char| !character.is_whitespace())
        .unwrap_or(text.len())
}

fn is_of_name(character: char) -> bool {
    character.is_ascii_alphanumeric() || character == '_'
}

fn name_len(text: &str) -> usize {
    text.find(|character: char| !is_of_name(character))
        .unwrap_or(text.len())
}

/// A text in quotes; a backslash stands before a quote or a backslash in it.
fn literal(text: &str) -> (Kind, usize) {
    let mut is_escaped = false;
    for (index, character) in text.char_indices().skip(1) {
        if character == '\n' {
            return (Kind::Unclosed, index);
        }
        if character == '\'' && !is_escaped {
            return (Kind::Literal, index.saturating_add(1));
        }
        is_escaped = character == '\\' && !is_escaped;
    }
    (Kind::Unclosed, text.len())
}
