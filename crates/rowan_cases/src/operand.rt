//! The operands of instructions: words, numbers, kinds and texts.

use anyhow::{Context, Result, bail, ensure};
use rowan::{Direction, Language, SyntaxKind, TextRange, TextSize};
use rowan_tool::sexp::{self, Lang};
use serde_json::Value;
use std::alloc::{AllocError, Global};

/// Two operands with a space between. The second has all that is behind the space.
pub fn pair(operands: &str) -> Result<(&str, &str)> {
    operands.split_once(' ').context("an operand is missing")
}

/// A number up to 4294967295.
pub fn number(word: &str) -> Result<u32> {
    word.parse::<u32>()
        .context(format_args!("`{word}` is no number up to {}", u32::MAX))
}

/// An offset of a text, in bytes.
pub fn offset(word: &str) -> Result<TextSize> {
    Ok(TextSize::from(number(word)?))
}

/// Two numbers with two points between, in any order.
pub fn bounds(word: &str) -> Result<(u32, u32)> {
    let (start, end) = word
        .split_once("..")
        .context(format_args!("`{word}` is no range"))?;
    Ok((number(start)?, number(end)?))
}

/// A range of text.
pub fn range(word: &str) -> Result<TextRange> {
    let (start, end) = bounds(word)?;
    ensure!(start <= end, "`{word}` ends before it starts");
    Ok(TextRange::new(TextSize::from(start), TextSize::from(end)))
}

/// Indexes of children with points between; `-` is the empty path.
pub fn path(alloc: Global, word: &str) -> Result<Vec<usize>> {
    let mut path = Vec::new(alloc);
    if word != "-" {
        for index in word.split('.') {
            path.push(number(index)? as usize)?;
        }
    }
    Ok(path)
}

/// The way along siblings.
pub fn direction(word: &str) -> Result<Direction> {
    match word {
        "next" => Ok(Direction::Next),
        "prev" => Ok(Direction::Prev),
        _ => bail!("`{word}` is no direction"),
    }
}

/// A raw kind, a number up to 65535.
pub fn kind(word: &str) -> Result<SyntaxKind> {
    let raw = word
        .parse::<u16>()
        .context(format_args!("`{word}` is no kind"))?;
    Ok(SyntaxKind(raw))
}

/// The kind of an s-expression that is called so.
pub fn kind_by_name(word: &str) -> Result<sexp::SyntaxKind> {
    for raw in 0..8u16 {
        let kind = Lang::kind_from_raw(SyntaxKind(raw));
        if Lang::kind_name(kind) == word {
            return Ok(kind);
        }
    }
    bail!("`{word}` is no kind")
}

/// A text that is written as a JSON string.
pub fn text(alloc: Global, quoted: &str) -> Result<String> {
    ensure!(
        quoted.starts_with('"') && quoted.ends_with('"'),
        "{quoted} is no text in quotes"
    );
    match Value::from_str(alloc, quoted)? {
        Value::String(text) => Ok(text),
        _ => bail!("{quoted} is no text in quotes"),
    }
}

/// A text of one character.
pub fn character(alloc: Global, quoted: &str) -> Result<char> {
    let text = text(alloc, quoted)?;
    let mut characters = text.as_str().chars();
    match (characters.next(), characters.next()) {
        (Some(character), None) => Ok(character),
        _ => bail!("{quoted} is not one character"),
    }
}

/// A text as a JSON string.
pub fn quote(alloc: Global, text: &str) -> Result<String, AllocError> {
    Value::String(String::from_str(alloc, text)?).to_string(alloc)
}
