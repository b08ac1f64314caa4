//! The tokens of settings. What a character begins depends on whether it stands at the start of its
//! line.
use crate::kinds::{Kind, Settings};
use rowan::Language;
use rowan_parser::{Lexeme, Lexer};

/// A lexer with two modes: at the start of a line, where nothing but spaces stood in it so far, and
/// behind that.
#[derive(Clone, Copy)]
pub struct Lines {
    is_at_start: bool,
}

/// The lexer at the start of a text.
pub const LINES: Lines = Lines { is_at_start: true };

impl Lexer for Lines {
    ghost is_ready = { λ _. Unit {0} };

    ghost says = { λ _ _ _ _. Unit {0} };

    fn next(&mut self, rest: &str) -> Lexeme {
        let (kind, len) = if self.is_at_start {
            at_start(rest)
        } else {
            in_line(rest)
        };
        self.is_at_start = match kind {
            Kind::Newline => true,
            Kind::Whitespace | Kind::Comment => self.is_at_start,
            _ => false,
        };
        Lexeme {
            kind: Settings::kind_to_raw(kind),
            len,
            message: complaint(kind, rest),
        }
    }
}

/// What is wrong with a token, where only the lexer can say it.
fn complaint(kind: Kind, rest: &str) -> Option<&'static str> {
    if kind == Kind::Unknown && rest.starts_with('"') {
        return Some("this text has no closing quote");
    }
    None
}

/// The first token at the start of a line.
fn at_start(text: &str) -> (Kind, usize) {
    let spaces = text.bytes().take_while(is_space).count();
    match text.as_bytes().get(spaces) {
        Some(b'\n') => (Kind::Whitespace, spaces.saturating_add(1)),
        _ if spaces > 0 => (Kind::Whitespace, spaces),
        Some(b'#') => (Kind::Comment, line_len(text).saturating_add(1)),
        Some(b'[') => (Kind::Open, 1),
        Some(b'a'..=b'z' | b'A'..=b'Z' | b'_') => (Kind::Key, word_len(text)),
        _ => in_line(text),
    }
}

/// The first token behind something else in its line.
fn in_line(text: &str) -> (Kind, usize) {
    match text.bytes().next() {
        Some(b'\n') => (Kind::Newline, 1),
        Some(b' ' | b'\t' | b'\r') => {
            (Kind::Whitespace, text.bytes().take_while(is_space).count())
        },
        Some(b'#') => (Kind::Comment, line_len(text)),
        Some(b'"') => in_quotes(text),
        Some(b'0'..=b'9' | b'-') => {
            (Kind::Number, text.bytes().take_while(is_in_number).count())
        },
        Some(b'a'..=b'z' | b'A'..=b'Z' | b'_') => word(text),
        Some(b'=') => (Kind::Equals, 1),
        Some(b']') => (Kind::Close, 1),
        _ => (Kind::Unknown, 1),
    }
}

/// A text with its quotes, or the rest of the line where it has no end there.
fn in_quotes(text: &str) -> (Kind, usize) {
    let line = text.get(..line_len(text)).unwrap_or("");
    match line.get(1..).unwrap_or("").find('"') {
        Some(len) => (Kind::Text, len.saturating_add(2)),
        None => (Kind::Unknown, line.len()),
    }
}

/// A word of the language, or a name.
fn word(text: &str) -> (Kind, usize) {
    let len = word_len(text);
    let word = text.get(..len).unwrap_or("");
    (Kind::from_keyword(word).unwrap_or(Kind::Name), len)
}

/// Whether a text may be a key.
pub fn is_key(text: &str) -> bool {
    let (kind, len) = at_start(text);
    kind == Kind::Key && len == text.len()
}

fn word_len(text: &str) -> usize {
    text.bytes().take_while(is_in_word).count()
}

fn line_len(text: &str) -> usize {
    text.find('\n').unwrap_or(text.len())
}

fn is_space(byte: &u8) -> bool {
    matches!(byte, b' ' | b'\t' | b'\r')
}

fn is_in_word(byte: &u8) -> bool {
    byte.is_ascii_alphanumeric() || matches!(byte, b'_' | b'-')
}

fn is_in_number(byte: &u8) -> bool {
    byte.is_ascii_digit() || matches!(byte, b'-' | b'.')
}
