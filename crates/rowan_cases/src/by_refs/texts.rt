//! Texts that are borrowed.

use super::written;
use crate::answer::{Answer, length_text};
use crate::instruction::{Question, Slice};
use rowan::cursor::SyntaxElementRef;
use rowan::syntax_text::SyntaxTextRef;
use rowan::{Fault, NodeOrToken};
use std::alloc::{AllocError, Global};

/// Reads the text of a node.
pub fn read(alloc: Global, from: SyntaxElementRef<'_>) -> Result<String, Fault> {
    match from {
        NodeOrToken::Node(node) => whole(alloc, &node.text()),
        NodeOrToken::Token(_) => Ok(written::nowhere(alloc)?),
    }
}

/// Reads a slice of a text.
pub fn slice(alloc: Global, text: &SyntaxTextRef<'_>, slice: Slice) -> Result<String, Fault> {
    match slice.of_ref(text) {
        Some(part) => whole(alloc, &part),
        None => Ok(written::nowhere(alloc)?),
    }
}

fn whole(alloc: Global, text: &SyntaxTextRef<'_>) -> Result<String, Fault> {
    let bytes = text.to_text()?;
    Ok(length_text(alloc, text.len(), bytes.as_str())?)
}

/// Asks a text.
pub fn ask(
    alloc: Global,
    text: &SyntaxTextRef<'_>,
    question: &Question,
) -> Result<String, AllocError> {
    let answer = match question {
        Question::Chunks => Answer::Chunks(chunks(alloc, text)?),
        Question::FoldChunks(limit) => Answer::Fold(count_chunks(text, *limit)),
        Question::FindChar(character) => Answer::Found(text.find_char(*character)),
        Question::ContainsChar(character) => Answer::truth(text.contains_char(*character)),
        Question::CharAt(offset) => Answer::Char(text.char_at(*offset)),
        Question::IsBorder(offset) => Answer::truth(text.is_border(*offset)),
        Question::EqStr(other) => Answer::equality(text.eq_str(other.as_str())),
    };
    answer.text(alloc)
}

fn chunks(alloc: Global, text: &SyntaxTextRef<'_>) -> Result<Vec<String>, AllocError> {
    let mut chunks = Vec::new(alloc);
    for chunk in text.chunks() {
        chunks.push(String::from_str(alloc, chunk)?)?;
    }
    Ok(chunks)
}

/// How many chunks there are, or this limit as an error where there are so many.
fn count_chunks(text: &SyntaxTextRef<'_>, limit: u32) -> Result<u32, u32> {
    text.try_fold_chunks(0u32, |count: u32, _chunk: &str| -> Result<u32, u32> {
        let count = count.saturating_add(1);
        if count == limit {
            Err(count)
        } else {
            Ok(count)
        }
    })
}
