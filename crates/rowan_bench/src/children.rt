//! Searches in nodes with many children, and edits of them.
ghost use Rattle.std.specs.Prelude.{◌<◌, length};
ghost use Rattle.rowan_green.specs.Term.{node_children};

use crate::draws::Draws;
use rowan::cursor::SyntaxNode;
use rowan::{Fault, GreenElement, GreenNode, GreenToken, Steps, SyntaxKind, TextRange, TextSize};
use std::alloc::Global;

const ROOT: SyntaxKind = SyntaxKind(7);

const WORD: SyntaxKind = SyntaxKind(2);

/// The texts of tokens.
const TEXTS: [&str; 8] = [
    "a", "ab", "abc", "abcd", "abcde", "abcdef", "abcdefg", "abcdefgh",
];

/// A range that is searched is shorter than this many bytes.
const RANGE_LIMIT: usize = 4;

/// Where the tokens of a node are.
#[derive(Clone, Copy)]
pub enum Memory {
    /// Equal ones are one token, as a cache makes them.
    Shared,
    /// Each has memory of its own.
    Own,
}

impl Memory {
    /// The memory of that name.
    pub fn from_word(word: &str) -> Option<Memory> {
        match word {
            "shared" => Some(Memory::Shared),
            "own" => Some(Memory::Own),
            _ => None,
        }
    }

    /// That many tokens, whose texts are drawn.
    pub fn tokens(self, alloc: Global, count: usize) -> Result<Vec<GreenElement>, Fault> {
        let mut shared: Vec<GreenElement> = Vec::new(alloc);
        for text in TEXTS {
            shared.push(token(alloc, text)?)?;
        }
        let mut draws = Draws::new();
        let mut tokens = Vec::with_capacity(alloc, count)?;
        for _ in 0..count {
            let drawn = draws.below(TEXTS.len());
            let token = match (self, shared.get(drawn)) {
                (Memory::Shared, Some(token)) => token.clone()?,
                _ => token(alloc, TEXTS[drawn])?,
            };
            tokens.push(token)?;
        }
        Ok(tokens)
    }
}

fn token(alloc: Global, text: &str) -> Result<GreenElement, Fault> {
    Ok(GreenElement::from(GreenToken::new(alloc, WORD, text)?))
}

/// The node over these children.
pub fn node(alloc: Global, children: Vec<GreenElement>) -> Result<GreenNode, Fault> {
    GreenNode::new(alloc, ROOT, children)
}

/// That many short ranges in the text of a node, which are drawn. In an empty text there are none.
pub fn ranges(alloc: Global, node: &GreenNode, count: usize) -> Result<Vec<TextRange>, Fault> {
    let mut ranges = Vec::with_capacity(alloc, count)?;
    let text_len = u32::from(node.text_len()) as usize;
    if text_len == 0 {
        return Ok(ranges);
    }
    let mut draws = Draws::new();
    for _ in 0..count {
        let start = draws.below(text_len);
        let len = draws.below(RANGE_LIMIT).min(text_len - start);
        ranges.push(TextRange::at(TextSize::from(start as u32), TextSize::from(len as u32)))?;
    }
    Ok(ranges)
}

/// Searches the child at each of these ranges, and answers how many there are.
pub fn search(node: &GreenNode, ranges: &[TextRange], steps: &mut Steps) -> usize {
    let mut found = 0usize;
    for range in ranges {
        if node.child_at_range(*range, steps).is_some() {
            found = found.saturating_add(1);
        }
    }
    found
}

/// Searches the child at each of these ranges, by a cursor at the node, and answers how many there are.
pub fn reach(root: &SyntaxNode, ranges: &[TextRange]) -> Result<usize, Fault> {
    let whole = root.text_range();
    let mut found = 0usize;
    for range in ranges {
        if whole.contains_range(*range) && root.child_or_token_at_range(*range)?.is_some() {
            found = found.saturating_add(1);
        }
    }
    Ok(found)
}

/// An edit of a node at one of its children.
#[derive(Clone, Copy)]
pub enum Edit {
    Replace,
    Insert,
    Remove,
    /// Two tokens come in place of the child.
    Splice,
}

impl Edit {
    pub const ALL: [Edit; 4] = [Edit::Replace, Edit::Insert, Edit::Remove, Edit::Splice];

    pub fn word(self) -> &'static str {
        match self {
            Edit::Replace => "replace",
            Edit::Insert => "insert",
            Edit::Remove => "remove",
            Edit::Splice => "splice",
        }
    }

    /// Makes the edit so often, at places that are drawn, and drops each node that it made.
    pub fn make_often(self, alloc: Global, node: &GreenNode, times: usize) -> Result<(), Fault> {
        let new_child = token(alloc, "new")?;
        let count = node.children().len();
        if count == 0 {
            return Ok(());
        }
        let mut draws = Draws::new();
        for _ in 0..times {
            let _edited = self.make(node, draws.below(count), &new_child)?;
        }
        Ok(())
    }

    fn make(
        self,
        node: &GreenNode,
        place: usize,
        new_child: &GreenElement,
    ) -> Result<GreenNode, Fault>
        requires { place < length (node_children node.now) }
    {
        match self {
            Edit::Replace => node.replace_child(place, new_child.clone()?),
            Edit::Insert => node.insert_child(place, new_child.clone()?),
            Edit::Remove => node.remove_child(place),
            Edit::Splice => {
                let new_children = [new_child.clone()?, new_child.clone()?];
                node.splice_children(place..place.saturating_add(1), new_children)
            }
        }
    }
}

/// Clones a list of handles so often, and drops each clone.
pub fn copy_often(handles: &Vec<GreenElement>, times: usize) -> Result<(), Fault> {
    for _ in 0..times {
        let _copy = handles.clone()?;
    }
    Ok(())
}
