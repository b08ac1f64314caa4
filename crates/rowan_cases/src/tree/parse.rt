//! Reads trees.
ghost use Rattle.std.specs.Prelude.{◌<◌, ◌≤◌, length, IfOk, IfSome};

use crate::operand;
use anyhow::{Context, Result, bail, ensure};
use rowan::{GreenElement, GreenNode, GreenNodeBuilder, GreenToken, NodeOrToken, SyntaxKind};
use std::alloc::Global;

// The kind of the node that holds what is read.
const HOLDER: SyntaxKind = SyntaxKind(0);

/// Reads a node.
pub fn node(alloc: Global, text: &str) -> Result<GreenNode> {
    match element(alloc, text)? {
        NodeOrToken::Node(node) => Ok(node),
        NodeOrToken::Token(_) => bail!("{text} is a token"),
    }
}

/// Reads a token.
pub fn token(alloc: Global, text: &str) -> Result<GreenToken> {
    match element(alloc, text)? {
        NodeOrToken::Node(_) => bail!("{text} is a node"),
        NodeOrToken::Token(token) => Ok(token),
    }
}

/// Reads a node or a token.
pub fn element(alloc: Global, text: &str) -> Result<GreenElement> {
    let holder = holder_of(alloc, text)?;
    let mut elements = holder.children();
    ensure!(elements.len() == 1, "{text} is not one tree");
    let element = elements.next().context("no tree")??;
    Ok(element)
}

/// Reads trees in brackets.
pub fn list(alloc: Global, text: &str) -> Result<Vec<GreenElement>> {
    let inside = text
        .strip_prefix('[')
        .and_then(|rest| rest.strip_suffix(']'))
        .context("trees in brackets are missing")?;
    let mut elements = Vec::new(alloc);
    for element in holder_of(alloc, inside)?.children() {
        elements.push(element?)?;
    }
    Ok(elements)
}

/// A piece of a text of trees.
#[derive(Clone, Copy)]
enum Piece<'a> {
    Blank,
    /// A node of this kind begins.
    Open(SyntaxKind),
    /// A node ends.
    Close,
    /// A token of this kind, and its text in quotes.
    Token(SyntaxKind, &'a str),
}

/// A node that holds all trees of a text, which stand with a space between.
fn holder_of(alloc: Global, text: &str) -> Result<GreenNode> {
    let mut builder = GreenNodeBuilder::new(alloc);
    builder.start_node(HOLDER)?;
    let mut open_nodes = 0usize;
    let mut rest = text;
    while !rest.is_empty() {
        let (piece, behind) = split_piece(rest)?;
        match piece {
            Piece::Blank => (),
            Piece::Open(kind) => {
                open_nodes = open_nodes.saturating_add(1);
                builder.start_node(kind)?;
            }
            Piece::Close => {
                ensure!(open_nodes > 0, "a bracket that closes no node");
                open_nodes -= 1;
                builder.finish_node()?;
            }
            Piece::Token(kind, quoted) => {
                builder.token(kind, operand::text(alloc, quoted)?.as_str())?;
            }
        }
        rest = behind;
    }
    ensure!(open_nodes == 0, "a bracket is not closed");
    builder.finish_node()?;
    match builder.finish() {
        Ok(holder) => Ok(holder),
        Err(unfinished) => Err(unfinished.fault().into()),
    }
}

/// The piece that a text begins with, and what stands behind it.
fn split_piece(text: &str) -> Result<(Piece<'_>, &str)>
    ensures { IfOk result (λ r. length r.1.now < length text.now) }
{
    if let Some(behind) = behind(text, b' ') {
        return Ok((Piece::Blank, behind));
    }
    if let Some(behind) = behind(text, b']') {
        return Ok((Piece::Close, behind));
    }
    let (kind, body) = split_kind(text)?;
    if let Some(behind) = behind(body, b'[') {
        return Ok((Piece::Open(kind), behind));
    }
    let (quoted, behind) = split_quoted(body)?;
    Ok((Piece::Token(kind, quoted), behind))
}

/// What stands behind the first character, where that is this one.
fn behind(text: &str, first: u8) -> Option<&str>
    ensures { IfSome result (λ rest. length rest.now < length text.now) }
{
    if text.as_bytes().first().copied() != Some(first) {
        return None;
    }
    let (_, rest) = text.split_at_checked(1)?;
    Some(rest)
}

/// The kind that a text begins with, and what stands behind it.
fn split_kind(text: &str) -> Result<(SyntaxKind, &str)>
    ensures { IfOk result (λ r. length r.1.now ≤ length text.now) }
{
    let digits = match text.find(|c: char| !c.is_ascii_digit()) {
        Some(digits) => digits,
        None => text.len(),
    };
    let (kind, rest) = text.split_at_checked(digits).context("a kind is missing")?;
    Ok((operand::kind(kind)?, rest))
}

/// The text in quotes that a text begins with, and what stands behind it.
fn split_quoted(text: &str) -> Result<(&str, &str)>
    ensures { IfOk result (λ r. length r.1.now < length text.now) }
{
    let mut is_escaped = false;
    for (place, byte) in text.bytes().enumerate().skip(1) {
        if byte == b'"' && !is_escaped {
            return text
                .split_at_checked(place.saturating_add(1))
                .context("a text in quotes is missing");
        }
        is_escaped = byte == b'\\' && !is_escaped;
    }
    bail!("a text in quotes is missing")
}
