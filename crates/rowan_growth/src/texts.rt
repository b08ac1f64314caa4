//! Calls of texts.
use crate::trees::Tree;
use rowan::{Fault, SyntaxText, TextSize};

pub fn make(call: &str, tree: &Tree) -> Result<Option<u64>, Fault> {
    let text = tree.root.text()?;
    let number = match call {
        "to_text" => to_text(&text),
        "find_char" => find_char(&text),
        "find_char_at_start" => find_char_at_start(&text),
        "contains_char" => contains_char(&text),
        "contains_char_at_start" => contains_char_at_start(&text),
        "char_at" => char_at(&text),
        "char_at_start" => char_at_start(&text),
        "is_border" => is_border(&text),
        "slice" => slice(&text),
        "eq_str" => eq_str(&text, tree),
        "text_eq" => text_eq(&text, tree),
        "for_each_chunk" => for_each_chunk(&text),
        "first_chunk" => first_chunk(&text),
        "chunks" => chunks(&text),
        _ => return Ok(None),
    };
    Ok(Some(number?))
}

fn to_text(text: &SyntaxText) -> Result<u64, Fault> {
    let text = text.to_text()?;
    Ok(text.len() as u64)
}

fn offset_of(found: Option<TextSize>) -> Result<u64, Fault> {
    match found {
        Some(offset) => Ok(u64::from(u32::from(offset))),
        None => Ok(0),
    }
}

fn find_char(text: &SyntaxText) -> Result<u64, Fault> {
    offset_of(text.find_char('?'))
}

fn find_char_at_start(text: &SyntaxText) -> Result<u64, Fault> {
    offset_of(text.find_char('w'))
}

fn contains_char(text: &SyntaxText) -> Result<u64, Fault> {
    Ok(u64::from(text.contains_char('?')))
}

fn contains_char_at_start(text: &SyntaxText) -> Result<u64, Fault> {
    Ok(u64::from(text.contains_char('w')))
}

fn char_at_start(text: &SyntaxText) -> Result<u64, Fault> {
    Ok(u64::from(text.char_at(TextSize::from(0)).is_some()))
}

fn eq_str(text: &SyntaxText, tree: &Tree) -> Result<u64, Fault> {
    let other = tree.green.to_string(tree.alloc)?;
    Ok(u64::from(text.eq_str(other.as_str())))
}

fn text_eq(text: &SyntaxText, tree: &Tree) -> Result<u64, Fault> {
    let twin = tree.twin_root.text()?;
    Ok(u64::from(*text == twin))
}

/// The character at each fourth byte, where tokens begin.
fn char_at(text: &SyntaxText) -> Result<u64, Fault> {
    let mut found: u64 = 0;
    for offset in (0..u32::from(text.len())).step_by(4) {
        if text.char_at(TextSize::from(offset)).is_some() {
            found = found.wrapping_add(1);
        }
    }
    Ok(found)
}

/// Whether each fourth byte is where a character begins.
fn is_border(text: &SyntaxText) -> Result<u64, Fault> {
    let mut borders: u64 = 0;
    for offset in (0..u32::from(text.len())).step_by(4) {
        borders = borders.wrapping_add(u64::from(text.is_border(TextSize::from(offset))));
    }
    Ok(borders)
}

/// What begins at each fourth byte.
fn slice(text: &SyntaxText) -> Result<u64, Fault> {
    let mut sum: u64 = 0;
    for offset in (0..u32::from(text.len())).step_by(4) {
        sum = sum.wrapping_add(len_from(text, TextSize::from(offset))?);
    }
    Ok(sum)
}

fn len_from(text: &SyntaxText, start: TextSize) -> Result<u64, Fault> {
    if text.is_border(start) && text.is_border(text.len()) {
        return Ok(u64::from(u32::from(text.slice(start..)?.len())));
    }
    Ok(0)
}

fn for_each_chunk(text: &SyntaxText) -> Result<u64, Fault> {
    let mut bytes: u64 = 0;
    text.for_each_chunk(|chunk| bytes = bytes.wrapping_add(chunk.len() as u64));
    Ok(bytes)
}

/// Ends at the first chunk.
fn first_chunk(text: &SyntaxText) -> Result<u64, Fault> {
    let stopped: Result<(), u64> = text.try_for_each_chunk(|chunk| Err(chunk.len() as u64));
    match stopped {
        Ok(()) => Ok(0),
        Err(bytes) => Ok(bytes),
    }
}

fn chunks(text: &SyntaxText) -> Result<u64, Fault> {
    let mut bytes: u64 = 0;
    for chunk in text.as_ref().chunks() {
        bytes = bytes.wrapping_add(chunk.len() as u64);
    }
    Ok(bytes)
}
