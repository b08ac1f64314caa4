//! The slices of texts, by ranges of each kind.

use crate::operand;
use anyhow::Result;
use rowan::syntax_text::{SyntaxTextRange, SyntaxTextRef};
use rowan::{Fault, SyntaxText, TextRange, TextSize};

/// A slice of a text. Offsets count from the start of the text.
#[derive(Clone, Copy)]
pub enum Slice {
    /// By a range of numbers, which may end before it starts.
    Range(TextSize, TextSize),
    TextRange(TextRange),
    From(TextSize),
    To(TextSize),
    Full,
}

impl Slice {
    /// Reads a slice. Nothing where the name is that of none.
    pub fn parse(name: &str, operands: &str) -> Result<Option<Slice>> {
        Ok(Some(match (name, operands) {
            ("Slice", _) => {
                let (start, end) = operand::bounds(operands)?;
                Slice::Range(TextSize::from(start), TextSize::from(end))
            }
            ("SliceRange", _) => Slice::TextRange(operand::range(operands)?),
            ("SliceFrom", _) => Slice::From(operand::offset(operands)?),
            ("SliceTo", _) => Slice::To(operand::offset(operands)?),
            ("SliceFull", "") => Slice::Full,
            _ => return Ok(None),
        }))
    }

    /// The slice. `None` where the range is out of order, leaves the text or cuts a character.
    pub fn make(self, text: &SyntaxText) -> Result<Option<SyntaxText>, Fault> {
        match self {
            Slice::Range(start, end) => cut(text, start..end),
            Slice::TextRange(range) => cut(text, range),
            Slice::From(start) => cut(text, start..),
            Slice::To(end) => cut(text, ..end),
            Slice::Full => cut(text, ..),
        }
    }

    /// The slice of a borrowed text. `None` as of an owned one.
    pub fn of_ref<'t>(self, text: &SyntaxTextRef<'t>) -> Option<SyntaxTextRef<'t>> {
        match self {
            Slice::Range(start, end) => cut_ref(text, start..end),
            Slice::TextRange(range) => cut_ref(text, range),
            Slice::From(start) => cut_ref(text, start..),
            Slice::To(end) => cut_ref(text, ..end),
            Slice::Full => cut_ref(text, ..),
        }
    }
}

fn cut<R: SyntaxTextRange>(text: &SyntaxText, range: R) -> Result<Option<SyntaxText>, Fault>
where
    R: Drop,
{
    let start = range.start().unwrap_or(TextSize::from(0));
    let end = range.end().unwrap_or(text.len());
    if start <= end && text.is_border(start) && text.is_border(end) {
        return Ok(Some(text.slice(range)?));
    }
    Ok(None)
}

fn cut_ref<'t, R: SyntaxTextRange>(text: &SyntaxTextRef<'t>, range: R) -> Option<SyntaxTextRef<'t>>
where
    R: Drop,
{
    let start = range.start().unwrap_or(TextSize::from(0));
    let end = range.end().unwrap_or(text.len());
    if start <= end && text.is_border(start) && text.is_border(end) {
        Some(text.slice(range))
    } else {
        None
    }
}
