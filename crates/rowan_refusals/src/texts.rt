//! Texts, and slices of them.

use crate::refs::tell_all;
use crate::searches::range;
use rowan::syntax_text::{SyntaxTextRange, SyntaxTextRef};
use rowan::{Fault, SyntaxText, TextRange, TextSize};
use rowan_transcript::{Stop, Transcript};

/// A part of a text, by a range of each kind. Offsets count from the start of the text.
#[derive(Clone, Copy)]
pub enum Slice {
    Range(u32, u32),
    TextRange(u32, u32),
    From(u32),
    To(u32),
    Full,
}

impl Slice {
    /// The part. `NotFound` where the range is out of order, leaves the text or cuts a character.
    pub fn cut(self, text: &SyntaxText) -> Result<SyntaxText, Fault> {
        match self {
            Slice::Range(start, end) => cut(text, TextSize::from(start)..TextSize::from(end)),
            Slice::TextRange(start, end) if start <= end => {
                cut(
                    text,
                    TextRange::new(TextSize::from(start), TextSize::from(end)),
                )
            }
            Slice::TextRange(_, _) => Err(Fault::NotFound),
            Slice::From(start) => cut(text, TextSize::from(start)..),
            Slice::To(end) => cut(text, ..TextSize::from(end)),
            Slice::Full => cut(text, ..),
        }
    }
}

fn cut<R: SyntaxTextRange>(text: &SyntaxText, range: R) -> Result<SyntaxText, Fault>
where
    R: Drop,
{
    let start = range.start().unwrap_or(TextSize::from(0));
    let end = range.end().unwrap_or(text.len());
    if start <= end && text.is_border(start) && text.is_border(end) {
        text.slice(range)
    } else {
        Err(Fault::NotFound)
    }
}

impl Slice {
    /// The part of a borrowed text. `NotFound` as of an owned one.
    pub fn cut_ref<'t>(self, text: &SyntaxTextRef<'t>) -> Result<SyntaxTextRef<'t>, Fault> {
        match self {
            Slice::Range(start, end) => cut_ref(text, TextSize::from(start)..TextSize::from(end)),
            Slice::TextRange(start, end) => cut_ref(text, range(start, end)?),
            Slice::From(start) => cut_ref(text, TextSize::from(start)..),
            Slice::To(end) => cut_ref(text, ..TextSize::from(end)),
            Slice::Full => cut_ref(text, ..),
        }
    }
}

fn cut_ref<'t, R: SyntaxTextRange>(
    text: &SyntaxTextRef<'t>,
    range: R,
) -> Result<SyntaxTextRef<'t>, Fault>
where
    R: Drop,
{
    let start = range.start().unwrap_or(TextSize::from(0));
    let end = range.end().unwrap_or(text.len());
    if start <= end && text.is_border(start) && text.is_border(end) {
        Ok(text.slice(range))
    } else {
        Err(Fault::NotFound)
    }
}

/// What a text is asked.
#[derive(Clone, Copy)]
pub enum Question {
    /// How long it is.
    Len,
    /// The text itself, and that of a clone.
    Shown,
    /// The chunks.
    Chunks,
    /// How many chunks there are, or this number as a refusal where there are so many.
    Count(usize),
    IsBorder(u32),
    CharAt(u32),
    FindChar(char),
    /// Whether it is this one.
    Is(&'static str),
}

impl Question {
    /// Says what the text answers, and what it answers borrowed.
    pub fn tell(self, log: &Transcript<'_>, text: &SyntaxText) -> Result<(), Stop> {
        self.tell_owned(log, text)?;
        self.tell_borrowed(log, &text.as_ref())
    }

    fn tell_owned(self, log: &Transcript<'_>, text: &SyntaxText) -> Result<(), Stop> {
        match self {
            Question::Len => log.tell("len", &(text.len(), text.is_empty())),
            Question::Shown => {
                log.show("shown", text)?;
                log.show("clone", &text.clone()?)
            }
            Question::Chunks => tell_chunks(log, text),
            Question::Count(limit) => log.tell("try_fold_chunks", &count(text, limit)),
            Question::IsBorder(offset) => {
                log.tell("is_border", &text.is_border(TextSize::from(offset)))
            }
            Question::CharAt(offset) => log.tell("char_at", &text.char_at(TextSize::from(offset))),
            Question::FindChar(c) => log.tell("find_char", &text.find_char(c)),
            Question::Is(other) => log.tell("eq_str", &text.eq_str(other)),
        }
    }
}

impl Question {
    fn tell_borrowed(self, log: &Transcript<'_>, text: &SyntaxTextRef<'_>) -> Result<(), Stop> {
        match self {
            Question::Len => log.tell("by ref", &(text.len(), text.is_empty())),
            Question::Shown => log.show("by ref", text),
            Question::Chunks => tell_all(log, text.chunks()),
            Question::Count(limit) => log.tell("by ref", &count_borrowed(text, limit)),
            Question::IsBorder(offset) => {
                log.tell("by ref", &text.is_border(TextSize::from(offset)))
            }
            Question::CharAt(offset) => log.tell("by ref", &text.char_at(TextSize::from(offset))),
            Question::FindChar(c) => log.tell("by ref", &text.find_char(c)),
            Question::Is(other) => log.tell("by ref", &text.eq_str(other)),
        }
    }
}

fn tell_chunks(log: &Transcript<'_>, text: &SyntaxText) -> Result<(), Stop> {
    text.try_for_each_chunk(|chunk: &str| -> Result<(), Stop> { log.tell("chunk", &chunk) })
}

fn count(text: &SyntaxText, limit: usize) -> Result<usize, usize> {
    text.try_fold_chunks(
        0usize,
        |count: usize, _chunk: &str| -> Result<usize, usize> {
            let count = count.saturating_add(1);
            if count == limit {
                Err(count)
            } else {
                Ok(count)
            }
        },
    )
}

fn count_borrowed(text: &SyntaxTextRef<'_>, limit: usize) -> Result<usize, usize> {
    text.try_fold_chunks(
        0usize,
        |count: usize, _chunk: &str| -> Result<usize, usize> {
            let count = count.saturating_add(1);
            if count == limit {
                Err(count)
            } else {
                Ok(count)
            }
        },
    )
}
