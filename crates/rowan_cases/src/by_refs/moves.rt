//! Moves, searches and replacements by borrowed cursors.

use super::written;
use crate::tree;
use rowan::cursor::{SyntaxElementRef, SyntaxNodeRef, SyntaxTokenRef};
use rowan::script::Step;
use rowan::{Fault, GreenNode, NodeOrToken, TextRange, TextSize, TokenAtOffset};
use rowan_moves::{Move, raw_refs};
use std::alloc::{AllocError, Global};

/// Makes a step of a script.
pub fn step(alloc: Global, from: SyntaxElementRef<'_>, step: &Step) -> Result<String, Fault> {
    match (from, step) {
        (NodeOrToken::Node(node), Step::ReplaceNode(new)) => {
            replaced(alloc, node.replace_with(new.clone()?))
        }
        (NodeOrToken::Token(token), Step::ReplaceToken(new)) => {
            replaced(alloc, token.replace_with(new.clone()?))
        }
        (_, _) => Ok(written::moved(alloc, target(from, step))?),
    }
}

fn replaced(alloc: Global, made: Result<GreenNode, Fault>) -> Result<String, Fault> {
    match made {
        Ok(root) => {
            let range = TextRange::new(TextSize::from(0), root.text_len());
            let mut text = format!(in alloc; "Replaced {range:?} ")?;
            tree::push_node(alloc, &mut text, &root)?;
            Ok(text)
        }
        Err(fault) => Ok(format!(in alloc; "Refused {fault:?}")?),
    }
}

/// Where a step leads, if anywhere.
fn target<'t>(from: SyntaxElementRef<'t>, step: &Step) -> Option<SyntaxElementRef<'t>> {
    match move_of(step) {
        Some(way) => raw_refs::target_of_element(way, from),
        None => found(from.into_node()?, step),
    }
}

/// The move that a step is.
fn move_of(step: &Step) -> Option<Move> {
    Some(match step {
        Step::Parent => Move::Parent,
        Step::TreeTop => Move::TreeTop,
        Step::FirstChild => Move::FirstChild,
        Step::LastChild => Move::LastChild,
        Step::FirstChildOrToken => Move::FirstChildOrToken,
        Step::LastChildOrToken => Move::LastChildOrToken,
        Step::NextSibling => Move::NextSibling,
        Step::PrevSibling => Move::PrevSibling,
        Step::NextSiblingOrToken => Move::NextSiblingOrToken,
        Step::PrevSiblingOrToken => Move::PrevSiblingOrToken,
        Step::FirstToken => Move::FirstToken,
        Step::LastToken => Move::LastToken,
        Step::NextToken => Move::NextToken,
        Step::PrevToken => Move::PrevToken,
        _ => return None,
    })
}

/// What a search finds in a node.
fn found<'t>(from: SyntaxNodeRef<'t>, step: &Step) -> Option<SyntaxElementRef<'t>> {
    match step {
        Step::ChildAtRange(range) => from.child_or_token_at_range(*range),
        Step::Covering(range) => covering(from, *range),
        Step::LeftTokenAt(offset) => token(tokens_at(from, *offset)?.left_biased()),
        Step::RightTokenAt(offset) => token(tokens_at(from, *offset)?.right_biased()),
        _ => None,
    }
}

/// A token that was found, as an element.
fn token<'t>(found: Option<SyntaxTokenRef<'t>>) -> Option<SyntaxElementRef<'t>> {
    Some(NodeOrToken::Token(found?))
}

fn covering<'t>(node: SyntaxNodeRef<'t>, range: TextRange) -> Option<SyntaxElementRef<'t>> {
    if node.text_range().contains_range(range) {
        Some(node.covering_element(range))
    } else {
        None
    }
}

fn tokens_at<'t>(
    node: SyntaxNodeRef<'t>,
    offset: TextSize,
) -> Option<TokenAtOffset<SyntaxTokenRef<'t>>> {
    if node.text_range().contains_inclusive(offset) {
        Some(node.token_at_offset(offset))
    } else {
        None
    }
}

/// Goes down by indexes of children.
pub fn element_at(
    alloc: Global,
    from: SyntaxElementRef<'_>,
    path: &[usize],
) -> Result<String, AllocError> {
    let NodeOrToken::Node(_) = from else {
        return written::nowhere(alloc);
    };
    let mut here = Some(from);
    for index in path {
        here = match here {
            Some(NodeOrToken::Node(node)) => node.child_or_token_at_index(*index),
            _ => None,
        };
    }
    written::moved(alloc, here)
}

/// Goes to the root of a new tree.
pub fn clone_subtree(alloc: Global, from: SyntaxElementRef<'_>) -> Result<String, Fault> {
    let NodeOrToken::Node(node) = from else {
        return Ok(written::nowhere(alloc)?);
    };
    let root = node.clone_subtree()?;
    Ok(written::moved(alloc, Some(NodeOrToken::Node(root.as_ref())))?)
}

/// Asks for the tokens at an offset.
pub fn tokens(
    alloc: Global,
    from: SyntaxElementRef<'_>,
    offset: TextSize,
) -> Result<String, AllocError> {
    let NodeOrToken::Node(node) = from else {
        return written::nowhere(alloc);
    };
    let mut text = String::new(alloc);
    match tokens_at(node, offset) {
        None => return written::nowhere(alloc),
        Some(TokenAtOffset::None) => text.push_str("None")?,
        Some(TokenAtOffset::Single(token)) => {
            written::push(alloc, &mut text, "Single; ", NodeOrToken::Token(token))?;
        }
        Some(TokenAtOffset::Between(left, right)) => {
            written::push(alloc, &mut text, "Between; ", NodeOrToken::Token(left))?;
            written::push(alloc, &mut text, "; ", NodeOrToken::Token(right))?;
        }
    }
    Ok(text)
}
