//! The texts of a case.

use crate::answer::Answer;
use crate::by_refs;
use crate::instruction::{Question, Slice};
use rowan::cursor::SyntaxElement;
use rowan::{Fault, NodeOrToken, SyntaxText};
use std::alloc::{AllocError, Global};
use std::collections::BTreeMap;

/// The current text of a case, and those that are kept.
#[derive(Drop)]
pub struct Texts {
    current: Option<SyntaxText>,
    /// The texts that are kept, by the numbers of their slots.
    kept: BTreeMap<u32, SyntaxText>,
}

impl Texts {
    /// No text, and none kept.
    pub fn new(alloc: Global) -> Texts {
        Texts {
            current: None,
            kept: BTreeMap::new(alloc),
        }
    }

    /// The text of a node becomes current.
    pub fn read<'a>(&mut self, element: &SyntaxElement) -> Result<Answer<'a>, Fault> {
        match element {
            NodeOrToken::Node(node) => self.take(node.text()?),
            NodeOrToken::Token(_) => Ok(Answer::Nowhere),
        }
    }

    /// A slice of the current text becomes current.
    pub fn slice<'a>(&mut self, slice: Slice) -> Result<Answer<'a>, Fault> {
        let Some(text) = &self.current else {
            return Ok(Answer::Nowhere);
        };
        match slice.make(text)? {
            Some(part) => self.take(part),
            None => Ok(Answer::Nowhere),
        }
    }

    fn take<'a>(&mut self, text: SyntaxText) -> Result<Answer<'a>, Fault> {
        let answer = Answer::Text(text.len(), text.to_text()?);
        self.current = Some(text);
        Ok(answer)
    }

    /// Asks the current text.
    pub fn ask<'a>(&self, alloc: Global, question: &Question) -> Result<Answer<'a>, Fault> {
        match &self.current {
            Some(text) => ask(alloc, text, question),
            None => Ok(Answer::Nowhere),
        }
    }

    /// A slice of the current text, borrowed. It does not become current.
    pub fn slice_by_ref(&self, alloc: Global, slice: Slice) -> Result<String, Fault> {
        match &self.current {
            Some(text) => by_refs::texts::slice(alloc, &text.as_ref(), slice),
            None => Ok(Answer::Nowhere.text(alloc)?),
        }
    }

    /// Asks the current text, borrowed.
    pub fn ask_by_ref(&self, alloc: Global, question: &Question) -> Result<String, Fault> {
        match &self.current {
            Some(text) => Ok(by_refs::texts::ask(alloc, &text.as_ref(), question)?),
            None => Ok(Answer::Nowhere.text(alloc)?),
        }
    }

    /// Keeps the current text.
    pub fn keep<'a>(&mut self, slot: u32) -> Result<Answer<'a>, Fault> {
        let Some(text) = &self.current else {
            return Ok(Answer::Nowhere);
        };
        let text = text.clone()?;
        self.kept.insert(slot, text)?;
        Ok(Answer::Saved)
    }

    /// Compares the current and a kept text.
    pub fn compare<'a>(&self, slot: u32) -> Answer<'a> {
        match (&self.current, self.kept.get(&slot)) {
            (Some(current), Some(kept)) => Answer::equality(current == kept),
            _ => Answer::Nowhere,
        }
    }

    /// Compares them, borrowed.
    pub fn compare_by_refs<'a>(&self, slot: u32) -> Answer<'a> {
        match (&self.current, self.kept.get(&slot)) {
            (Some(current), Some(kept)) => Answer::equality(current.as_ref() == kept.as_ref()),
            _ => Answer::Nowhere,
        }
    }
}

fn ask<'a>(alloc: Global, text: &SyntaxText, question: &Question) -> Result<Answer<'a>, Fault> {
    Ok(match question {
        Question::Chunks => Answer::Chunks(chunks(alloc, text)?),
        Question::FoldChunks(limit) => Answer::Fold(count_chunks(text, *limit)),
        Question::FindChar(character) => Answer::Found(text.find_char(*character)),
        Question::ContainsChar(character) => Answer::truth(text.contains_char(*character)),
        Question::CharAt(offset) => Answer::Char(text.char_at(*offset)),
        Question::IsBorder(offset) => Answer::truth(text.is_border(*offset)),
        Question::EqStr(other) => Answer::equality(text.eq_str(other.as_str())),
    })
}

fn chunks(alloc: Global, text: &SyntaxText) -> Result<Vec<String>, AllocError> {
    text.try_fold_chunks(
        Vec::new(alloc),
        |mut chunks: Vec<String>, chunk: &str| -> Result<Vec<String>, AllocError> {
            chunks.push(String::from_str(alloc, chunk)?)?;
            Ok(chunks)
        },
    )
}

/// How many chunks there are, or this limit as an error where there are so many.
fn count_chunks(text: &SyntaxText, limit: u32) -> Result<u32, u32> {
    text.try_fold_chunks(0u32, |count: u32, _chunk: &str| -> Result<u32, u32> {
        let count = count.saturating_add(1);
        if count == limit {
            Err(count)
        } else {
            Ok(count)
        }
    })
}
