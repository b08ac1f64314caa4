//! Walks, searches by place, and texts, over a tree that is there.
ghost use Rattle.std.specs.Prelude.{◌≤◌};

use crate::draws::Draws;
use anyhow::Result;
use rowan::cursor::{ElementCalls, SyntaxNode};
use rowan::{Fault, TextRange, TextSize};
use std::alloc::{AllocError, Global};
use std::time::{Duration, Instant};

/// How many searches are made in one turn.
const SEARCHES: usize = 10_000;

/// A range whose covering element is searched is shorter than this many bytes.
const RANGE_LIMIT: usize = 64;

/// A character that no text here has.
const ABSENT: char = '\u{1}';

/// What is timed, in each of many turns.
#[derive(Clone, Copy)]
pub enum Operation {
    /// All events of a walk with tokens are gone through.
    Events,
    /// The tokens at offsets that are drawn are searched.
    Offset,
    /// The elements that cover ranges that are drawn are searched.
    Cover,
    /// The text is copied.
    Copy,
    /// A character is searched that the text has not.
    Find,
    /// The text is compared with an equal one.
    Equal,
}

impl Operation {
    /// The operation of that name.
    pub fn from_word(word: &str) -> Option<Operation> {
        match word {
            "events" => Some(Operation::Events),
            "offset" => Some(Operation::Offset),
            "cover" => Some(Operation::Cover),
            "copy" => Some(Operation::Copy),
            "find" => Some(Operation::Find),
            "equal" => Some(Operation::Equal),
            _ => None,
        }
    }
}

/// The offsets of a turn, in a text of so many bytes.
pub fn drawn_offsets(alloc: Global, len: u32) -> Result<Vec<TextSize>, AllocError> {
    let mut draws = Draws::new();
    let mut offsets = Vec::with_capacity(alloc, SEARCHES)?;
    for _ in 0..SEARCHES {
        offsets.push(TextSize::from(draws.below(len as usize + 1) as u32))?;
    }
    Ok(offsets)
}

/// The ranges of a turn, in a text of so many bytes.
fn drawn_ranges(alloc: Global, len: u32) -> Result<Vec<TextRange>, AllocError> {
    let mut draws = Draws::new();
    let mut ranges = Vec::with_capacity(alloc, SEARCHES)?;
    for _ in 0..SEARCHES {
        let start = draws.below(len as usize + 1) as u32;
        let bytes = (draws.below(RANGE_LIMIT) as u32).min(len - start);
        ranges.push(TextRange::at(TextSize::from(start), TextSize::from(bytes)))?;
    }
    Ok(ranges)
}

/// Walks through all that is at and below a node, and answers how many events there are.
fn count_events(root: &SyntaxNode) -> Result<u64, Fault> {
    let mut events: u64 = 0;
    for event in root.preorder_with_tokens() {
        let _event = event?;
        events = events.wrapping_add(1);
    }
    Ok(events)
}

/// Searches the token at each offset, and answers the sum of their indexes. Of two tokens it takes the right one.
fn search_offsets(root: &SyntaxNode, offsets: &[TextSize]) -> Result<u64, Fault> {
    let whole = root.text_range();
    let mut sum: u64 = 0;
    for offset in offsets {
        if whole.contains_inclusive(*offset) {
            if let Some(token) = root.token_at_offset(*offset)?.right_biased() {
                sum = sum.wrapping_add(token.index() as u64);
            }
        }
    }
    Ok(sum)
}

/// Searches the element that covers each range, and answers the sum of their indexes.
fn search_ranges(root: &SyntaxNode, ranges: &[TextRange]) -> Result<u64, Fault> {
    let whole = root.text_range();
    let mut sum: u64 = 0;
    for range in ranges {
        if whole.contains_range(*range) {
            sum = sum.wrapping_add(root.covering_element(*range)?.index() as u64);
        }
    }
    Ok(sum)
}

/// What a turn of an operation needs, which is made before the time is taken.
#[derive(Drop)]
enum Turn<'a> {
    Events,
    Offset(Vec<TextSize>),
    Cover(Vec<TextRange>),
    Copy,
    Find,
    Equal(&'a str),
}

/// What a turn made: a number, which is the same in every implementation, or a text.
#[derive(Drop)]
enum Made {
    Number(u64),
    Text(String),
}

impl Made {
    /// The number, or the length of the text.
    fn number(&self) -> u64 {
        match self {
            Made::Number(number) => *number,
            Made::Text(text) => text.len() as u64,
        }
    }
}

impl<'a> Turn<'a> {
    fn new(
        alloc: Global,
        text: &'a str,
        len: u32,
        operation: Operation,
    ) -> Result<Turn<'a>, Fault> {
        match operation {
            Operation::Events => Ok(Turn::Events),
            Operation::Offset => Ok(Turn::Offset(drawn_offsets(alloc, len)?)),
            Operation::Cover => Ok(Turn::Cover(drawn_ranges(alloc, len)?)),
            Operation::Copy => Ok(Turn::Copy),
            Operation::Find => Ok(Turn::Find),
            Operation::Equal => Ok(Turn::Equal(text)),
        }
    }

    fn take(&self, root: &SyntaxNode) -> Result<Made, Fault> {
        match self {
            Turn::Events => Ok(Made::Number(count_events(root)?)),
            Turn::Offset(offsets) => Ok(Made::Number(search_offsets(root, offsets.as_slice())?)),
            Turn::Cover(ranges) => Ok(Made::Number(search_ranges(root, ranges.as_slice())?)),
            Turn::Copy => Ok(Made::Text(root.text()?.to_text()?)),
            Turn::Find => Ok(Made::Number(u64::from(root.text()?.find_char(ABSENT).is_some()))),
            Turn::Equal(text) => Ok(Made::Number(u64::from(root.text()?.eq_str(text)))),
        }
    }
}

/// Times an operation over the tree of a text, and answers the time of all turns and the number of the last one. What a turn makes
/// is dropped after its time was taken.
pub fn time(
    rt: &HostRuntime,
    root: &SyntaxNode,
    text: &str,
    operation: Operation,
    turns: usize,
) -> Result<(Duration, u64)> {
    let len = u32::from(root.text_range().len());
    let turn = Turn::new(rt.alloc(), text, len, operation)?;
    let mut total = Duration::ZERO;
    let mut number: u64 = 0;
    for _ in 0..turns {
        let start = Instant::now(rt)?;
        let made = turn.take(root)?;
        total = total.saturating_add(start.elapsed(rt)?);
        number = made.number();
    }
    Ok((total, number))
}
