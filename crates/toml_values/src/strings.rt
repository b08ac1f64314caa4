//! Strings, keys and comments: what they mean, and what is wrong in them.
ghost use Rattle.std.specs.Prelude.{◌≡◌, IfOk, string_bytes, true};
ghost use Rattle.toml_parser.specs.Strings.{starts_string};
ghost use Rattle.toml_values.specs.Strings.{HasNoText, IsMeant, decoded};

use crate::problem::{Problem, ProblemKind, Version};
use rowan_green::{TextRange, TextSize};
use std::alloc::{AllocError, Global};
use toml_parser::{ErrorKind, ParseError, quoted, starts_string};

/// A token, and where its problems are noted.
#[derive(Drop)]
pub struct Token<'a> {
    pub text: &'a str,
    pub range: TextRange,
    pub version: Version,
    pub problems: &'a mut Vec<Problem>,
}

impl Token<'_> {
    /// Notes what is wrong with the bytes of the token from one to another.
    pub fn note(&mut self, kind: ProblemKind, from: usize, to: usize) -> Result<(), AllocError> {
        self.problems.push(Problem {
            kind,
            range: part_of(self.range, from, to),
            first: None,
        })?;
        Ok(())
    }

    /// Notes what is wrong with the token.
    pub fn note_all(&mut self, kind: ProblemKind) -> Result<(), AllocError> {
        self.note(kind, 0, self.text.len())
    }

    /// The text that a key or a string stands for. Where it stands for none, that is noted, and the
    /// text is the token's.
    pub fn decoded(&mut self, alloc: Global) -> Result<String, AllocError>
        ensures { IfOk result (λ meant. string_bytes meant ≡ decoded self.old.text.now) }
    {
        let text = self.text;
        if !starts_string(text) {
            return String::from_str(alloc, text);
        }
        self.note_new_escapes()?;
        match decoded_string(alloc, text)? {
            Decoded::Text(decoded) => Ok(decoded),
            Decoded::Wrong(kind, from, to) => {
                self.note(kind, from, to)?;
                String::from_str(alloc, text)
            }
            Decoded::Open => String::from_str(alloc, text),
        }
    }

    /// Notes escapes that TOML 1.0 has not.
    fn note_new_escapes(&mut self) -> Result<(), AllocError> {
        if self.version != Version::V1_0 || !self.text.starts_with('"') {
            return Ok(());
        }
        let text = self.text;
        let mut is_escape = false;
        for (place, byte) in text.bytes().enumerate() {
            if is_escape && matches!(byte, b'e' | b'x') {
                let start = place.saturating_sub(1);
                self.note(ProblemKind::NewEscape, start, place.saturating_add(1))?;
            }
            is_escape = byte == b'\\' && !is_escape;
        }
        Ok(())
    }

    /// Notes a control character in a comment.
    pub fn check_comment(&mut self) -> Result<(), AllocError> {
        if let Some(place) = self.text.bytes().position(is_control) {
            let end = place.saturating_add(1);
            self.note(ProblemKind::ControlInComment, place, end)?;
        }
        Ok(())
    }
}

/// The part of a token's range from one byte of the token to another.
fn part_of(range: TextRange, from: usize, to: usize) -> TextRange {
    let start = offset_in(range, from);
    let end = offset_in(range, to);
    if start <= end {
        TextRange::new(start, end)
    } else {
        range
    }
}

/// The offset so many bytes behind the start of a range, and at most its end.
fn offset_in(range: TextRange, bytes: usize) -> TextSize {
    let bytes = u32::try_from(bytes).unwrap_or(u32::MAX);
    match range.start().checked_add(TextSize::from(bytes)) {
        Some(offset) if offset <= range.end() => offset,
        _ => range.end(),
    }
}

/// Whether a byte is a control character that may stand in no comment.
fn is_control(byte: u8) -> bool {
    byte < 0x20 && byte != b'\t' || byte == 0x7f
}

/// What a string stands for.
#[derive(Drop)]
enum Decoded {
    Text(String),
    /// What is wrong, and from which byte of the token to which.
    Wrong(ProblemKind, usize, usize),
    /// It has no end, of which the parser has complained.
    Open,
}

fn decoded_string(alloc: Global, text: &str) -> Result<Decoded, AllocError>
    requires { starts_string text.now ≡ true }
    ensures { IfOk result (λ found. IsMeant text.now found) }
{
    match quoted(alloc, text) {
        Ok((string, _)) => Ok(Decoded::Text(string)),
        Err(ParseError::OutOfMemory) => Err(AllocError),
        Err(ParseError::At(kind, left, _)) => Ok(wrong_at(kind, text, left)),
    }
}

/// What is wrong so many bytes before the end of a string.
fn wrong_at(kind: ErrorKind, text: &str, left: usize) -> Decoded
    ensures { HasNoText result }
{
    let place = text.len().saturating_sub(left);
    let Some(next) = text.get(place..).and_then(first_char) else {
        return Decoded::Open;
    };
    let end = place.saturating_add(next.len_utf8());
    match kind {
        ErrorKind::Escape => Decoded::Wrong(ProblemKind::Escape, place.saturating_sub(1), end),
        _ => Decoded::Wrong(ProblemKind::ControlInString, place, end),
    }
}

fn first_char(text: &str) -> Option<char> {
    text.chars().next()
}
