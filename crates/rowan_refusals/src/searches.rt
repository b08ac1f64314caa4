//! Searches by place, in green nodes and from cursors.

use crate::{refs, typed_refs};
use rowan::cursor::{SyntaxElement, SyntaxNode};
use rowan::{Fault, GreenNode, NodeOrToken, Steps, TextRange, TextSize};
use rowan_tool::sexp::Lang;
use rowan_transcript::{Stop, Transcript};

type TypedNode = rowan::SyntaxNode<Lang>;

type TypedElement = rowan::SyntaxElement<Lang>;

/// Says how long the text of each child is, in bytes, and that of the first child, shared once
/// more.
pub fn tell_lengths(log: &Transcript<'_>, node: &GreenNode) -> Result<(), Stop> {
    for child in node.children() {
        let child = child.map_err(Stop::Refused)?;
        log.tell("child", &child.text_len())?;
    }
    match node.child_ref(0) {
        Some((_, first)) => log.tell("to_owned", &first.to_owned()?.text_len()),
        None => Ok(()),
    }
}

/// The index of the child at a range. There is none where the range ends before it starts.
pub fn index_at(node: &GreenNode, start: u32, end: u32) -> Option<usize> {
    if end < start {
        return None;
    }
    let range = TextRange::new(TextSize::from(start), TextSize::from(end));
    match node.child_at_range(range, &mut Steps::new()) {
        Some((index, _, _)) => Some(index),
        None => None,
    }
}

/// A search from a node. Offsets count from the start of the root's text.
#[derive(Clone, Copy)]
pub enum Search {
    ChildAt(u32, u32),
    Covering(u32, u32),
    TokensAt(u32),
}

impl Search {
    /// Says what is found. Where the range or the offset does not lie in the node nothing is
    /// searched.
    pub fn tell(self, log: &Transcript<'_>, from: &SyntaxElement) -> Result<(), Stop> {
        let NodeOrToken::Node(node) = from else {
            return Err(Stop::Refused(Fault::NotFound));
        };
        match self {
            Search::ChildAt(start, end) => tell_child(log, node, range(start, end)?)?,
            Search::Covering(start, end) => tell_covering(log, node, range(start, end)?)?,
            Search::TokensAt(offset) => tell_tokens(log, node, TextSize::from(offset))?,
        }
        refs::tell_search(log, self, node.as_ref())
    }
}

impl Search {
    /// Says what is found by the calls of a typed node.
    pub fn tell_typed(self, log: &Transcript<'_>, from: &TypedElement) -> Result<(), Stop> {
        let NodeOrToken::Node(node) = from else {
            return Err(Stop::Refused(Fault::NotFound));
        };
        match self {
            Search::ChildAt(start, end) => tell_typed_child(log, node, range(start, end)?)?,
            Search::Covering(start, end) => tell_typed_covering(log, node, range(start, end)?)?,
            Search::TokensAt(offset) => tell_typed_tokens(log, node, TextSize::from(offset))?,
        }
        typed_refs::tell_search(log, self, node.as_ref())
    }
}

fn tell_typed_child(log: &Transcript<'_>, node: &TypedNode, range: TextRange) -> Result<(), Stop> {
    log.tell(
        "child_or_token_at_range",
        &node.child_or_token_at_range(range),
    )?;
    let mut steps = Steps::new();
    let found = node.child_or_token_at_range_counted(range, &mut steps)?;
    log.tell("comparisons", &(found.is_some(), steps.comparisons()))
}

fn tell_typed_covering(
    log: &Transcript<'_>,
    node: &TypedNode,
    range: TextRange,
) -> Result<(), Stop> {
    if !node.text_range().contains_range(range) {
        return Err(Stop::Refused(Fault::NotFound));
    }
    log.tell("covering_element", &node.covering_element(range))
}

fn tell_typed_tokens(log: &Transcript<'_>, node: &TypedNode, offset: TextSize) -> Result<(), Stop> {
    if !node.text_range().contains_inclusive(offset) {
        return Err(Stop::Refused(Fault::NotFound));
    }
    log.tell("token_at_offset", &node.token_at_offset(offset))
}

/// The range with these ends. `NotFound` where they are out of order.
pub fn range(start: u32, end: u32) -> Result<TextRange, Fault> {
    if end < start {
        return Err(Fault::NotFound);
    }
    Ok(TextRange::new(TextSize::from(start), TextSize::from(end)))
}

/// Says what is the child at a range, and how many comparisons found it.
fn tell_child(log: &Transcript<'_>, node: &SyntaxNode, range: TextRange) -> Result<(), Stop> {
    log.tell(
        "child_or_token_at_range",
        &node.child_or_token_at_range(range),
    )?;
    let mut steps = Steps::new();
    let found = node.child_or_token_at_range_counted(range, &mut steps)?;
    log.tell("comparisons", &(found.is_some(), steps.comparisons()))
}

fn tell_covering(log: &Transcript<'_>, node: &SyntaxNode, range: TextRange) -> Result<(), Stop> {
    if !node.text_range().contains_range(range) {
        return Err(Stop::Refused(Fault::NotFound));
    }
    log.tell("covering_element", &node.covering_element(range))
}

fn tell_tokens(log: &Transcript<'_>, node: &SyntaxNode, offset: TextSize) -> Result<(), Stop> {
    if !node.text_range().contains_inclusive(offset) {
        return Err(Stop::Refused(Fault::NotFound));
    }
    log.tell("token_at_offset", &node.token_at_offset(offset))
}
