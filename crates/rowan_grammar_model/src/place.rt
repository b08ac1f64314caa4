//! Places in the text of a grammar.
use rowan_green::{TextRange, TextSize};

/// The place of problems that have none.
pub fn top() -> TextRange {
    TextRange::new(TextSize::from(0), TextSize::from(0))
}

/// The range from the start of one range to the end of another, or the first where the other ends
/// before it.
pub fn cover(one: TextRange, other: TextRange) -> TextRange {
    if one.start() <= other.end() {
        TextRange::new(one.start(), other.end())
    } else {
        one
    }
}

/// The part of a text; nothing where it has no such part.
pub fn text_at(text: &str, range: TextRange) -> &str {
    let start = u32::from(range.start()) as usize;
    let end = u32::from(range.end()) as usize;
    text.get(start..end).unwrap_or("")
}

/// The part of a text that has been found; nothing where none was.
pub fn part_of(text: &str, range: Option<TextRange>) -> &str {
    match range {
        Some(range) => text_at(text, range),
        None => "",
    }
}
