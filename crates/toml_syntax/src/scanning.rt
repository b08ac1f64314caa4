//! How far tokens reach. All lengths are in bytes.
use crate::kinds::Kind;
use crate::lexer::{lexeme, valid};
use rowan_parser::Lexeme;

/// Of a line end with which a text begins: `\n` or `\r\n`. Else 0.
pub(crate) fn line_end_len(text: &str) -> usize {
    if text.starts_with('\n') {
        1
    } else if text.starts_with("\r\n") {
        2
    } else {
        0
    }
}

pub(crate) fn blanks_len(text: &str) -> usize {
    text.bytes().take_while(is_blank).count()
}

fn is_blank(byte: &u8) -> bool {
    matches!(byte, b' ' | b'\t')
}

/// Of all blanks and line ends.
pub(crate) fn white_len(text: &str) -> usize {
    let mut len: usize = 0;
    for _part in 0..text.len() {
        let rest = text.get(len..).unwrap_or("");
        let part = blanks_len(rest).max(line_end_len(rest));
        if part == 0 {
            break;
        }
        len = len.saturating_add(part);
    }
    len
}

/// Of the line with which a text begins, without its end.
pub(crate) fn line_len(text: &str) -> usize {
    let len = text.find('\n').unwrap_or(text.len());
    without_return(text, len)
}

/// A length without the carriage return of the line end behind it.
fn without_return(text: &str, len: usize) -> usize {
    match (text.get(..len), text.get(len..)) {
        (Some(line), Some(rest)) if line.ends_with('\r') && rest.starts_with('\n') => {
            len.saturating_sub(1)
        }
        _ => len,
    }
}

/// Of a comment, without the blanks at its end.
pub(crate) fn comment_len(text: &str) -> usize {
    let line = text.get(..line_len(text)).unwrap_or("");
    line.trim_end_matches([' ', '\t']).len()
}

/// Of a bare key.
pub(crate) fn key_len(text: &str) -> usize {
    text.bytes().take_while(is_in_key).count()
}

fn is_in_key(byte: &u8) -> bool {
    byte.is_ascii_alphanumeric() || matches!(byte, b'_' | b'-')
}

/// Of all up to a blank, a comment or the line's end.
pub(crate) fn word_len(text: &str) -> usize {
    let len = text.find([' ', '\t', '#', '\n']).unwrap_or(text.len());
    without_return(text, len)
}

/// A string, if a text begins with a quote. Without its end it is the rest of its line, or of the
/// text if it may have several lines.
pub(crate) fn string_at(text: &str) -> Option<Lexeme> {
    if let Some(inner) = text.strip_prefix("\"\"\"") {
        let len = lines_len(inner, "\"\"\"", true);
        return Some(string(text, Kind::MultiLineBasicString, len, 3));
    }
    if let Some(inner) = text.strip_prefix("'''") {
        let len = lines_len(inner, "'''", false);
        return Some(string(text, Kind::MultiLineLiteralString, len, 3));
    }
    if let Some(inner) = text.strip_prefix('"') {
        let len = quoted_len(inner, b'"', true);
        return Some(string(text, Kind::BasicString, len, 1));
    }
    let inner = text.strip_prefix('\'')?;
    let len = quoted_len(inner, b'\'', false);
    Some(string(text, Kind::LiteralString, len, 1))
}

/// A string with so many bytes between its quotes, or without its end.
fn string(text: &str, kind: Kind, inner: Option<usize>, quote: usize) -> Lexeme {
    match inner {
        Some(len) => valid(kind, len.saturating_add(quote).saturating_add(quote)),
        None => {
            let len = match quote {
                1 => line_len(text),
                _ => text.len(),
            };
            lexeme(kind, len, Some("the string has no end"))
        }
    }
}

/// Of what stands before the quote that ends a string of one line.
fn quoted_len(text: &str, quote: u8, has_escapes: bool) -> Option<usize> {
    let mut is_escaped = false;
    for (len, byte) in text.bytes().enumerate() {
        match byte {
            b'\n' => return None,
            b'\\' if has_escapes && !is_escaped => is_escaped = true,
            _ if byte == quote && !is_escaped => return Some(len),
            _ => is_escaped = false,
        }
    }
    None
}

/// Of what stands before the three quotes that end a string of several lines. One or two quotes
/// before these three are in the string.
fn lines_len(text: &str, quotes: &str, has_escapes: bool) -> Option<usize> {
    let quote = quotes.bytes().next()?;
    let mut is_escaped = false;
    let mut before: usize = 0;
    for (len, byte) in text.bytes().enumerate() {
        if before >= 3 && (byte != quote || before >= 5) {
            return Some(len.saturating_sub(3));
        }
        if byte == quote && !is_escaped {
            before = before.saturating_add(1);
        } else {
            before = 0;
        }
        is_escaped = byte == b'\\' && has_escapes && !is_escaped;
    }
    match before {
        3.. => Some(text.len().saturating_sub(3)),
        _ => None,
    }
}
