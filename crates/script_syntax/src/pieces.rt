//! How a text begins, in code and in a string.
use crate::kinds::Kind;

/// A token before the lexer's mode is looked at.
#[derive(Clone, Copy)]
pub(crate) struct Piece {
    pub kind: Kind,
    /// In bytes.
    pub len: usize,
    pub message: Option<&'static str>,
}

impl Piece {
    fn new(kind: Kind, len: usize) -> Piece {
        Piece {
            kind,
            len,
            message: None,
        }
    }

    pub fn with_kind(self, kind: Kind) -> Piece {
        Piece { kind, ..self }
    }

    pub fn with_message(self, message: &'static str) -> Piece {
        Piece {
            message: Some(message),
            ..self
        }
    }
}

pub(crate) fn code_piece(text: &str) -> Piece {
    match first(text) {
        b' ' | b'\t' | b'\r' | b'\n' => Piece::new(Kind::Whitespace, white_len(text)),
        b'0'..=b'9' => Piece::new(Kind::Number, word_len(text)),
        b'a'..=b'z' | b'A'..=b'Z' | b'_' => word(text, word_len(text)),
        b'/' if text.starts_with("//") => Piece::new(Kind::Comment, line_len(text)),
        byte => Piece::new(sign(byte), 1),
    }
}

fn word(text: &str, len: usize) -> Piece {
    let keyword = Kind::from_keyword(text.get(..len).unwrap_or(""));
    Piece::new(keyword.unwrap_or(Kind::Name), len)
}

fn sign(byte: u8) -> Kind {
    match byte {
        b'>' => Kind::Gt,
        b'<' => Kind::Lt,
        b'=' => Kind::Eq,
        b'+' => Kind::Plus,
        b'-' => Kind::Minus,
        b'*' => Kind::Star,
        b'/' => Kind::Slash,
        b',' => Kind::Comma,
        b':' => Kind::Colon,
        b';' => Kind::Semicolon,
        b'(' => Kind::LParen,
        b')' => Kind::RParen,
        b'{' => Kind::LBrace,
        b'}' => Kind::RBrace,
        b'"' => Kind::OpenQuote,
        _ => Kind::Unknown,
    }
}

pub(crate) fn string_piece(text: &str) -> Piece {
    match first(text) {
        b'"' => Piece::new(Kind::CloseQuote, 1),
        b'\\' => escape(text),
        b'$' if text.starts_with("${") => Piece::new(Kind::HoleOpen, 2),
        _ => Piece::new(Kind::StringText, text_len(text)),
    }
}

/// A backslash and the character behind it in the line.
fn escape(text: &str) -> Piece {
    match text.chars().nth(1) {
        Some('n' | 'r' | 't' | '0' | '\\' | '"' | '$') => Piece::new(Kind::Escape, 2),
        Some('\r' | '\n') | None => Piece::new(Kind::Escape, 1),
        Some(other) => {
            let len = 1 + other.len_utf8();
            Piece::new(Kind::Escape, len).with_message("there is no such escape")
        }
    }
}

/// The length up to a quote, a backslash, `${`, or the end of the line.
fn text_len(text: &str) -> usize {
    let mut dollar = None;
    for (place, byte) in text.bytes().enumerate() {
        match byte {
            b'"' | b'\\' | b'\r' | b'\n' => return place,
            b'{' if let Some(dollar) = dollar => return dollar,
            _ => {}
        }
        dollar = (byte == b'$').then_some(place);
    }
    text.len()
}

fn line_len(text: &str) -> usize {
    text.find(['\r', '\n']).unwrap_or(text.len())
}

/// Whether a line ends in the first bytes of a text.
pub(crate) fn has_line_end(text: &str, len: usize) -> bool {
    text.bytes().take(len).any(is_line_end)
}

/// Whether the line ends behind so many bytes of a text.
pub(crate) fn ends_in_line(text: &str, len: usize) -> bool {
    match text.as_bytes().get(len) {
        Some(byte) => is_line_end(*byte),
        None => true,
    }
}

fn first(text: &str) -> u8 {
    text.bytes().next().unwrap_or(0)
}

fn white_len(text: &str) -> usize {
    text.bytes().take_while(is_white).count()
}

fn word_len(text: &str) -> usize {
    text.bytes().take_while(is_in_word).count()
}

fn is_white(byte: &u8) -> bool {
    matches!(byte, b' ' | b'\t' | b'\r' | b'\n')
}

fn is_in_word(byte: &u8) -> bool {
    byte.is_ascii_alphanumeric() || *byte == b'_'
}

fn is_line_end(byte: u8) -> bool {
    matches!(byte, b'\r' | b'\n')
}
