//! Walks that read kinds, with and without a language, and pointers.
use crate::walks;
use anyhow::Result;
use rowan::ast::SyntaxNodePtr;
use rowan::cursor::ElementCalls;
use rowan::{
    Fault, GreenNode, SyntaxKind, SyntaxNode, TextSize, TypedElementCalls, WalkEvent, cursor,
};
use rowan_tool::sexp::{self, Lang};
use std::alloc::Global;
use std::time::{Duration, Instant};

/// The kind of words, without a language.
const WORD: SyntaxKind = SyntaxKind(2);

/// What is timed, in each of many turns.
#[derive(Clone, Copy)]
pub enum Operation {
    /// Words are counted in a walk with tokens, by their numbers.
    Raw,
    /// Words are counted in a walk with tokens, by their kinds in the language.
    Walk,
    /// Pointers to nodes at offsets that are drawn are resolved.
    Pointers,
}

impl Operation {
    /// The operation of that name.
    pub fn from_word(word: &str) -> Option<Operation> {
        match word {
            "raw" => Some(Operation::Raw),
            "walk" => Some(Operation::Walk),
            "pointers" => Some(Operation::Pointers),
            _ => None,
        }
    }
}

/// Counts the words in a walk, by their numbers.
fn count_raw_words(root: &cursor::SyntaxNode) -> Result<u64, Fault> {
    let mut words: u64 = 0;
    for event in root.preorder_with_tokens() {
        if let WalkEvent::Enter(element) = event? {
            if ElementCalls::kind(&element) == WORD {
                words = words.wrapping_add(1);
            }
        }
    }
    Ok(words)
}

/// Counts the words in a walk, by their kinds.
fn count_words(root: &SyntaxNode<Lang>) -> Result<u64, Fault> {
    let mut words: u64 = 0;
    for event in root.preorder_with_tokens() {
        if let WalkEvent::Enter(element) = event? {
            if TypedElementCalls::kind(&element) == sexp::SyntaxKind::WORD {
                words = words.wrapping_add(1);
            }
        }
    }
    Ok(words)
}

/// The node above the token at an offset, of two the right one.
fn node_at(root: &SyntaxNode<Lang>, offset: TextSize) -> Result<Option<SyntaxNode<Lang>>, Fault> {
    if !root.text_range().contains_inclusive(offset) {
        return Ok(None);
    }
    match root.token_at_offset(offset)?.right_biased() {
        Some(token) => token.parent(),
        None => Ok(None),
    }
}

/// The pointers of a turn.
fn drawn_pointers(
    alloc: Global,
    root: &SyntaxNode<Lang>,
) -> Result<Vec<SyntaxNodePtr<Lang>>, Fault> {
    let offsets = walks::drawn_offsets(alloc, u32::from(root.text_range().len()))?;
    let mut pointers = Vec::with_capacity(alloc, offsets.len())?;
    for offset in offsets.as_slice() {
        if let Some(node) = node_at(root, *offset)? {
            pointers.push(SyntaxNodePtr::new(&node))?;
        }
    }
    Ok(pointers)
}

/// Resolves each pointer, and answers the sum of the indexes of the nodes.
fn resolve(root: &SyntaxNode<Lang>, pointers: &[SyntaxNodePtr<Lang>]) -> Result<u64, Fault> {
    let mut sum: u64 = 0;
    for pointer in pointers {
        if let Some(node) = pointer.try_to_node(root)? {
            sum = sum.wrapping_add(node.index() as u64);
        }
    }
    Ok(sum)
}

/// What a turn of an operation needs, which is made before the time is taken.
#[derive(Drop)]
enum Turn {
    Raw(cursor::SyntaxNode),
    Walk(SyntaxNode<Lang>),
    Pointers(SyntaxNode<Lang>, Vec<SyntaxNodePtr<Lang>>),
}

impl Turn {
    fn new(alloc: Global, tree: &GreenNode, operation: Operation) -> Result<Turn, Fault> {
        if let Operation::Raw = operation {
            return Ok(Turn::Raw(cursor::SyntaxNode::new_root(alloc, tree.clone()?)?));
        }
        let root = SyntaxNode::new_root(alloc, tree.clone()?)?;
        if let Operation::Walk = operation {
            return Ok(Turn::Walk(root));
        }
        let pointers = drawn_pointers(alloc, &root)?;
        Ok(Turn::Pointers(root, pointers))
    }

    fn take(&self) -> Result<u64, Fault> {
        match self {
            Turn::Raw(root) => count_raw_words(root),
            Turn::Walk(root) => count_words(root),
            Turn::Pointers(root, pointers) => resolve(root, pointers.as_slice()),
        }
    }
}

/// Times an operation over a tree, and answers the time of all turns and the number of the last one.
pub fn time(
    rt: &HostRuntime,
    tree: &GreenNode,
    operation: Operation,
    turns: usize,
) -> Result<(Duration, u64)> {
    let turn = Turn::new(rt.alloc(), tree, operation)?;
    let mut number: u64 = 0;
    let start = Instant::now(rt)?;
    for _ in 0..turns {
        number = turn.take()?;
    }
    Ok((start.elapsed(rt)?, number))
}
