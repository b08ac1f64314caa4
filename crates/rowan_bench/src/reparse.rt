//! A list in the middle of a text, parsed anew.
use crate::{tree_cursors, turns};
use anyhow::Result;
use rowan::ast::AstNode;
use rowan::{Fault, GreenNode, SyntaxNode, TextSize};
use rowan_tool::sexp::{self, Lang, List};
use std::alloc::{AllocError, Global};
use std::time::Duration;

/// How often the list is parsed anew in one turn, where the cursor at it is there.
const TIMES: usize = 1_000;

/// How many trees are made in one turn, each from the one before.
const TREES: usize = 10;

/// The list has at least so many bytes.
const LEAST: u32 = 100;

/// What is timed, in each of many turns.
#[derive(Clone, Copy)]
pub enum Operation {
    /// The list is parsed anew, by a cursor that is there.
    List,
    /// The list is found, and parsed anew, and a cursor is made at the new root.
    Table,
    /// The list is found, parsed anew and found in the new tree, without a table.
    TreeCursor,
    /// The whole text is parsed anew.
    Whole,
}

impl Operation {
    /// The operation of that name.
    pub fn from_word(word: &str) -> Option<Operation> {
        match word {
            "list" => Some(Operation::List),
            "table" => Some(Operation::Table),
            "tree_cursor" => Some(Operation::TreeCursor),
            "whole" => Some(Operation::Whole),
            _ => None,
        }
    }
}

/// The innermost list of `LEAST` bytes or more around the token at an offset, of two the right one.
fn list_at(root: &SyntaxNode<Lang>, offset: TextSize) -> Result<Option<List>, Fault> {
    if !root.text_range().contains_inclusive(offset) {
        return Ok(None);
    }
    let Some(token) = root.token_at_offset(offset)?.right_biased() else {
        return Ok(None);
    };
    for node in token.parent_ancestors() {
        let node = node?;
        if u32::from(node.text_range().len()) >= LEAST {
            if let Some(list) = List::cast(node) {
                return Ok(Some(list));
            }
        }
    }
    Ok(None)
}

/// The text of a list, with a mark in the place of each hyphen. It is a list, too, and as long.
fn marked(alloc: Global, list: &List) -> Result<String, Fault> {
    let text = list.syntax().text()?.to_text()?;
    let mut marked = String::with_capacity(alloc, text.len())?;
    for character in text.chars() {
        marked.push(if character == '-' { '#' } else { character })?;
    }
    Ok(marked)
}

/// Parses the list anew so often, and answers the last tree.
fn parse_often(alloc: Global, list: &List, text: &str) -> Result<GreenNode, Fault> {
    let mut tree = sexp::reparse_list(alloc, list, text)?;
    for _ in 1..TIMES {
        tree = sexp::reparse_list(alloc, list, text)?;
    }
    Ok(tree)
}

/// Finds the list at an offset, parses it anew and makes a cursor at the new root, in each tree that comes of the one before.
/// Answers the last one.
fn parse_in_each(
    alloc: Global,
    root: &SyntaxNode<Lang>,
    offset: TextSize,
    text: &str,
) -> Result<GreenNode, Fault> {
    let mut root = root.clone()?;
    for _ in 0..TREES {
        if let Some(list) = list_at(&root, offset)? {
            let tree = sexp::reparse_list(alloc, &list, text)?;
            root = SyntaxNode::new_root(alloc, tree)?;
        }
    }
    Ok(root.green().clone()?)
}

/// The same by cursors that cost no table.
fn parse_by_tree_cursors(
    alloc: Global,
    root: &GreenNode,
    offset: TextSize,
    text: &str,
) -> Result<GreenNode, Fault> {
    let mut tree = root.clone()?;
    for _ in 0..TREES {
        tree = tree_cursors::parse_anew(alloc, &tree, offset, LEAST, text)?;
    }
    Ok(tree)
}

/// What a turn of an operation needs, which is made before the time is taken.
#[derive(Drop)]
enum Turn {
    Nothing,
    List(List, String),
    Table(SyntaxNode<Lang>, TextSize, String),
    TreeCursor(GreenNode, TextSize, String),
    Whole(String),
}

impl Turn {
    fn new(alloc: Global, tree: &GreenNode, operation: Operation) -> Result<Turn, Fault> {
        let root = SyntaxNode::new_root(alloc, tree.clone()?)?;
        let offset = TextSize::from(u32::from(root.text_range().len()) / 2);
        let Some(list) = list_at(&root, offset)? else {
            return Ok(Turn::Nothing);
        };
        let text = marked(alloc, &list)?;
        match operation {
            Operation::List => Ok(Turn::List(list, text)),
            Operation::Table => Ok(Turn::Table(root, offset, text)),
            Operation::TreeCursor => Ok(Turn::TreeCursor(tree.clone()?, offset, text)),
            Operation::Whole => {
                let tree = sexp::reparse_list(alloc, &list, text.as_str())?;
                Ok(Turn::Whole(text_of(alloc, &tree)?))
            }
        }
    }
}

impl turns::Turn for Turn {
    fn take(&self, alloc: Global) -> Result<Option<GreenNode>, Fault> {
        match self {
            Turn::Nothing => Ok(None),
            Turn::List(list, text) => Ok(Some(parse_often(alloc, list, text.as_str())?)),
            Turn::Table(root, offset, text) => {
                Ok(Some(parse_in_each(alloc, root, *offset, text.as_str())?))
            }
            Turn::TreeCursor(tree, offset, text) => {
                Ok(Some(parse_by_tree_cursors(alloc, tree, *offset, text.as_str())?))
            }
            Turn::Whole(text) => Ok(Some(sexp::parse(alloc, text.as_str())?.green().clone()?)),
        }
    }
}

fn text_of(alloc: Global, tree: &GreenNode) -> Result<String, AllocError> {
    format!(in alloc; "{tree}")
}

/// Times an operation over a tree, and answers the time of all turns and how many marks the last tree has.
pub fn time(
    rt: &HostRuntime,
    tree: &GreenNode,
    operation: Operation,
    turns: usize,
) -> Result<(Duration, usize)> {
    let turn = Turn::new(rt.alloc(), tree, operation)?;
    turns::time(rt, &turn, turns)
}
