//! The answers to the lines of a case file.

use crate::instruction::Event;
use crate::{cursor, operand, tree};
use rowan::ast::SyntaxNodePtr;
use rowan::cursor::{SyntaxElement, SyntaxNode};
use rowan::{
    Fault, GreenElement, GreenNode, Language, NodeCache, TextSize, TokenAtOffset, WalkEvent,
};
use rowan_tool::sexp::Lang;
use std::alloc::{AllocError, Global};

/// The answer to one line.
#[derive(Drop)]
pub enum Answer<'a> {
    /// A case begins.
    Case(&'a str),
    Accepted,
    Refused(Fault),
    /// The number of a checkpoint.
    Marked(usize),
    Finished(GreenNode),
    /// How many tokens and how many nodes a cache keeps.
    Counts(usize, usize),
    /// A child of a green node: its index, its offset from the node's start, and itself.
    Child(usize, TextSize, GreenElement),
    /// The green node that an edit made.
    Green(GreenNode),
    /// The element where a step went.
    Moved(SyntaxElement),
    /// The root of the new tree.
    Replaced(SyntaxNode),
    /// An element that leaves the cursor where it is.
    Element(SyntaxElement),
    /// The elements that a step lists.
    Elements(Vec<SyntaxElement>),
    /// The tokens at an offset.
    Tokens(TokenAtOffset<SyntaxElement>),
    /// What `next` of a walk answered, call by call.
    Events(Vec<Event>),
    /// The text that a step made current, and its length.
    Text(TextSize, String),
    Chunks(Vec<String>),
    /// How many chunks were counted, or as an error at which number the count gave up.
    Fold(Result<u32, u32>),
    /// Where a character first begins.
    Found(Option<TextSize>),
    /// The character at an offset.
    Char(Option<char>),
    /// Borrowed cursors go astray from now on.
    Astray,
    /// The pointer that is kept now.
    Pointer(SyntaxNodePtr<Lang>),
    /// A pointer did not outlive an edit.
    Gone,
    /// How many nodes were visited, and the node to which a pointer leads.
    Resolved(u64, Option<SyntaxElement>),
    /// The number that an expression reads.
    Value(Option<i64>),
    /// The line of an element.
    Line(String),
    /// The text of a JSON value.
    Json(String),
    /// The printed tree.
    Lines(String),
    Yes,
    No,
    /// The current cursor or text is kept.
    Saved,
    /// The current cursor or text is equal to another one.
    Equal,
    Different,
    /// A step found nothing, or names what is not there.
    Nowhere,
    /// A step before a tree is finished.
    NoTree,
    /// A building instruction after a tree is finished.
    NoBuilder,
}

/// An answer, and the number of the line that it is to.
#[derive(Drop)]
pub struct Answered<'a> {
    pub line: usize,
    pub answer: Answer<'a>,
    /// What borrowed cursors answer, if they have the call.
    pub by_refs: Option<String>,
}

impl Answered<'_> {
    /// The line that is written. Where borrowed cursors answer otherwise it says that, too, so that
    /// it is no stored line.
    pub fn text(&self, alloc: Global) -> Result<String, AllocError> {
        let text = self.answer.text(alloc)?;
        match &self.by_refs {
            Some(other) if other.as_str() != text.as_str() => {
                format!(in alloc; "{text}, but by refs: {other}")
            }
            _ => Ok(text),
        }
    }
}

impl<'a> Answer<'a> {
    /// The answer that tells what a cache keeps.
    pub fn counts(cache: &NodeCache) -> Answer<'a> {
        Answer::Counts(cache.token_count(), cache.node_count())
    }

    /// The answer to a question by yes or no.
    pub fn truth(is_true: bool) -> Answer<'a> {
        if is_true { Answer::Yes } else { Answer::No }
    }

    /// The answer that tells whether two are equal.
    pub fn equality(is_equal: bool) -> Answer<'a> {
        if is_equal {
            Answer::Equal
        } else {
            Answer::Different
        }
    }

    /// The line that is written.
    pub fn text(&self, alloc: Global) -> Result<String, AllocError> {
        match self {
            Answer::Case(name) => format!(in alloc; "case {name}"),
            Answer::Refused(fault) => format!(in alloc; "Refused {fault:?}"),
            Answer::Marked(number) => format!(in alloc; "Marked {number}"),
            Answer::Counts(tokens, nodes) => format!(in alloc; "Counts {tokens} {nodes}"),
            Answer::Finished(root) => with_node(alloc, "Finished ", root),
            Answer::Green(node) => with_node(alloc, "Green ", node),
            Answer::Child(index, offset, child) => child_text(alloc, *index, *offset, child),
            Answer::Moved(element) => element_text(alloc, "Moved ", element),
            Answer::Replaced(root) => replaced_text(alloc, root),
            Answer::Element(element) => element_text(alloc, "Element ", element),
            Answer::Elements(elements) => list_text(alloc, elements.as_slice()),
            Answer::Tokens(tokens) => tokens_text(alloc, tokens),
            Answer::Events(events) => events_text(alloc, events.as_slice()),
            Answer::Text(len, text) => length_text(alloc, *len, text.as_str()),
            Answer::Chunks(chunks) => chunks_text(alloc, chunks.as_slice()),
            Answer::Fold(Ok(count)) => format!(in alloc; "Fold Ok {count}"),
            Answer::Fold(Err(limit)) => format!(in alloc; "Fold Err {limit}"),
            Answer::Found(Some(offset)) => format!(in alloc; "Found {offset:?}"),
            Answer::Found(None) => String::from_str(alloc, "NotFound"),
            Answer::Char(found) => char_text(alloc, *found),
            Answer::Pointer(pointer) => pointer_text(alloc, pointer),
            Answer::Gone => String::from_str(alloc, "Gone"),
            Answer::Astray => String::from_str(alloc, "Astray"),
            Answer::Value(Some(number)) => format!(in alloc; "Value {number}"),
            Answer::Value(None) => String::from_str(alloc, "None"),
            Answer::Line(line) => quoted_text(alloc, "Line ", line.as_str()),
            Answer::Json(value) => format!(in alloc; "Json {value}"),
            Answer::Lines(lines) => quoted_text(alloc, "Lines ", lines.as_str()),
            Answer::Resolved(visits, None) => format!(in alloc; "Unresolved {visits}"),
            Answer::Resolved(visits, Some(node)) => resolved_text(alloc, *visits, node),
            Answer::Yes => String::from_str(alloc, "Yes"),
            Answer::No => String::from_str(alloc, "No"),
            Answer::Accepted => String::from_str(alloc, "Accepted"),
            Answer::Saved => String::from_str(alloc, "Saved"),
            Answer::Equal => String::from_str(alloc, "Equal"),
            Answer::Different => String::from_str(alloc, "Different"),
            Answer::Nowhere => String::from_str(alloc, "Nowhere"),
            Answer::NoTree => String::from_str(alloc, "NoTree"),
            Answer::NoBuilder => String::from_str(alloc, "NoBuilder"),
        }
    }
}

fn with_node(alloc: Global, word: &str, node: &GreenNode) -> Result<String, AllocError> {
    let mut text = String::from_str(alloc, word)?;
    tree::push_node(alloc, &mut text, node)?;
    Ok(text)
}

fn child_text(
    alloc: Global,
    index: usize,
    offset: TextSize,
    child: &GreenElement,
) -> Result<String, AllocError> {
    let mut text = format!(in alloc; "Child {index} {offset:?} ")?;
    tree::push_element(alloc, &mut text, child)?;
    Ok(text)
}

fn element_text(alloc: Global, word: &str, element: &SyntaxElement) -> Result<String, AllocError> {
    let mut text = String::new(alloc);
    push_element(alloc, &mut text, word, element)?;
    Ok(text)
}

fn replaced_text(alloc: Global, root: &SyntaxNode) -> Result<String, AllocError> {
    let range = root.text_range();
    let mut text = format!(in alloc; "Replaced {range:?} ")?;
    tree::push_node(alloc, &mut text, root.green())?;
    Ok(text)
}

fn pointer_text(alloc: Global, pointer: &SyntaxNodePtr<Lang>) -> Result<String, AllocError> {
    let (name, range) = (Lang::kind_name(pointer.kind()), pointer.text_range());
    format!(in alloc; "Ptr {name} {range:?}")
}

fn resolved_text(alloc: Global, visits: u64, node: &SyntaxElement) -> Result<String, AllocError> {
    let mut text = format!(in alloc; "Resolved {visits} ")?;
    cursor::push_element(alloc, &mut text, node)?;
    Ok(text)
}

fn list_text(alloc: Global, elements: &[SyntaxElement]) -> Result<String, AllocError> {
    let mut text = String::from_str(alloc, "List")?;
    for element in elements {
        push_element(alloc, &mut text, "; ", element)?;
    }
    Ok(text)
}

fn tokens_text(alloc: Global, tokens: &TokenAtOffset<SyntaxElement>) -> Result<String, AllocError> {
    let mut text = String::new(alloc);
    match tokens {
        TokenAtOffset::None => text.push_str("None")?,
        TokenAtOffset::Single(token) => push_element(alloc, &mut text, "Single; ", token)?,
        TokenAtOffset::Between(left, right) => {
            push_element(alloc, &mut text, "Between; ", left)?;
            push_element(alloc, &mut text, "; ", right)?;
        }
    }
    Ok(text)
}

fn events_text(alloc: Global, events: &[Event]) -> Result<String, AllocError> {
    let mut text = String::from_str(alloc, "Events")?;
    for event in events {
        match event {
            Some(WalkEvent::Enter(element)) => {
                push_element(alloc, &mut text, "; enter ", element)?;
            }
            Some(WalkEvent::Leave(element)) => {
                push_element(alloc, &mut text, "; leave ", element)?;
            }
            None => text.push_str("; end")?,
        }
    }
    Ok(text)
}

/// Writes an element behind a word.
fn push_element(
    alloc: Global,
    text: &mut String,
    word: &str,
    element: &SyntaxElement,
) -> Result<(), AllocError> {
    text.push_str(word)?;
    cursor::push_element(alloc, text, element)
}

/// What a text of so many bytes is told as.
pub fn length_text(alloc: Global, len: TextSize, text: &str) -> Result<String, AllocError> {
    let quoted = operand::quote(alloc, text)?;
    format!(in alloc; "Text {len:?} {quoted}")
}

fn chunks_text(alloc: Global, chunks: &[String]) -> Result<String, AllocError> {
    let mut text = String::from_str(alloc, "Chunks")?;
    for chunk in chunks {
        text.push_str("; ")?;
        text.push_str(operand::quote(alloc, chunk.as_str())?.as_str())?;
    }
    Ok(text)
}

fn quoted_text(alloc: Global, word: &str, text: &str) -> Result<String, AllocError> {
    let quoted = operand::quote(alloc, text)?;
    format!(in alloc; "{word}{quoted}")
}

fn char_text(alloc: Global, found: Option<char>) -> Result<String, AllocError> {
    let Some(character) = found else {
        return String::from_str(alloc, "NoChar");
    };
    let mut text = String::new(alloc);
    text.push(character)?;
    let quoted = operand::quote(alloc, text.as_str())?;
    format!(in alloc; "Char {quoted}")
}
