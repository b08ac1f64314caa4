//! The trees of the tests, what makes and edits them, and what looks at what edits made.
use rowan::{
    Fault, GreenElement, GreenNode, GreenNodeBuilder, GreenToken, NodeOrToken, SyntaxKind,
    TextRange, TextSize,
};
use rowan_edit::{Changes, EditError, Edited, GreenEditor, Piece};
use std::alloc::Global;

pub const ROOT: SyntaxKind = SyntaxKind(0);

pub const LIST: SyntaxKind = SyntaxKind(1);

pub const WORD: SyntaxKind = SyntaxKind(2);

/// A call of a builder.
#[derive(Clone, Copy)]
pub enum Call {
    /// Opens a node of a kind.
    Open(SyntaxKind),
    /// Adds a word.
    Word(&'static str),
    /// Closes the innermost open node.
    Close,
}

use Call::{Close, Open, Word};

pub const TREE: [Call; 11] = [
    Open(ROOT),
    Word("a"),
    Open(LIST),
    Word("b"),
    Open(LIST),
    Close,
    Word("cd"),
    Close,
    Word(""),
    Word("e"),
    Close,
];

pub const NESTED: [Call; 9] = [
    Open(ROOT),
    Word("a"),
    Open(LIST),
    Open(LIST),
    Word("bcd"),
    Close,
    Close,
    Word("e"),
    Close,
];

/// The tree that calls of a builder make.
pub fn built(alloc: Global, calls: &[Call]) -> Result<GreenNode, Fault> {
    let mut builder = GreenNodeBuilder::new(alloc);
    for call in calls {
        let added = match call {
            Open(kind) => builder.start_node(*kind),
            Word(text) => builder.token(WORD, text),
            Close => builder.finish_node(),
        };
        added?;
    }
    Ok(builder.finish()?)
}

/// `ROOT["a" LIST["b" LIST[] "cd"] "" "e"]`
pub fn tree(alloc: Global) -> Result<GreenNode, Fault> {
    built(alloc, &TREE)
}

/// `ROOT["a" LIST[LIST["bcd"]] "e"]`
pub fn nested(alloc: Global) -> Result<GreenNode, Fault> {
    built(alloc, &NESTED)
}

pub fn new_word(alloc: Global, text: &str) -> Result<GreenElement, Fault> {
    GreenToken::new(alloc, WORD, text).map(NodeOrToken::Token)
}

/// A word for each text.
pub fn words(alloc: Global, texts: &[&str]) -> Result<Vec<GreenElement>, Fault> {
    let mut all = Vec::new(alloc);
    for text in texts {
        all.push(new_word(alloc, text)?)?;
    }
    Ok(all)
}

/// A new element: a word, or a list of words.
#[derive(Clone, Copy)]
pub enum New {
    Word(&'static str),
    List(&'static [&'static str]),
}

pub fn elements(alloc: Global, new: &[New]) -> Result<Vec<GreenElement>, Fault> {
    let mut all = Vec::new(alloc);
    for element in new {
        let made = match element {
            New::Word(text) => new_word(alloc, text),
            New::List(texts) => list_of(alloc, texts),
        };
        all.push(made?)?;
    }
    Ok(all)
}

fn list_of(alloc: Global, texts: &[&str]) -> Result<GreenElement, Fault> {
    GreenNode::new(alloc, LIST, words(alloc, texts)?).map(NodeOrToken::Node)
}

/// The children at these indexes, for other children of a node.
pub fn old_pieces(alloc: Global, indexes: &[usize]) -> Result<Vec<Piece>, Fault> {
    let mut pieces = Vec::new(alloc);
    for index in indexes {
        pieces.push(Piece::Old(*index))?;
    }
    Ok(pieces)
}

/// An edit by a path: in the node there, words in place of the children from one index to another.
#[derive(Clone, Copy)]
pub struct Splice(
    pub &'static [usize],
    pub usize,
    pub usize,
    pub &'static [&'static str],
);

/// What edits make of a tree.
pub fn spliced(alloc: Global, green: &GreenNode, edits: &[Splice]) -> Result<Edited, EditError> {
    let mut editor = GreenEditor::new(alloc, green)?;
    for Splice(parent, start, end, texts) in edits {
        let new = words(alloc, texts)?;
        editor.splice(parent, *start..*end, new)?;
    }
    Ok(editor.finish()?)
}

pub fn has_text(alloc: Global, green: &GreenNode, text: &str) -> bool {
    match green.to_string(alloc) {
        Ok(printed) => printed.as_str() == text,
        Err(_) => false,
    }
}

/// The range from a start to an end, and an empty one where the end lies before the start.
pub fn range(start: u32, end: u32) -> TextRange {
    let start = TextSize::from(start);
    let end = TextSize::from(end);
    if start <= end {
        TextRange::new(start, end)
    } else {
        TextRange::new(start, start)
    }
}

/// The start and the end of a range, and those of the range to which it is moved.
pub type Moving = ((u32, u32), Option<(u32, u32)>);

pub fn moves(changes: &Changes, moving: Moving) -> bool {
    let (old, new) = moving;
    match (changes.moved(range(old.0, old.1)), new) {
        (Some(moved), Some(new)) => moved == range(new.0, new.1),
        (None, None) => true,
        _ => false,
    }
}

/// Whether changes are those of ranges with these starts and ends, and with so many new bytes.
pub fn are_changes(changes: &Changes, all: &[(u32, u32, u32)]) -> bool {
    let changes = changes.as_slice();
    for (change, expected) in changes.iter().zip(all) {
        let (start, end, new_len) = *expected;
        if change.range != range(start, end) || u32::from(change.new_len) != new_len {
            return false;
        }
    }
    changes.len() == all.len()
}
