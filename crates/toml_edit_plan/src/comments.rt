//! Comments above and behind entries and headers.

use crate::error::{Cause, TomlEditError};
use crate::places::{Node, behind_comment, child_count, indent, text_at, token_at, white_before};
use crate::runs::push_token;
use crate::splice::Splice;
use rowan::{Fault, GreenElement};
use std::alloc::Global;
use toml_syntax::Kind;

/// Which comments of an entry or a header are meant.
#[derive(Clone, Copy, PartialEq, Eq, Debug, Hash)]
pub enum Side {
    /// Those on the lines right above it.
    Above,
    /// That behind it, in its line.
    Behind,
}

/// Children of a node, from one index on and before another one.
#[derive(Clone, Copy)]
struct Part<'tree> {
    parent: Node<'tree>,
    start: usize,
    end: usize,
}

/// The comments of an entry or a header in order, each without its `#` and the blank behind that.
///
/// Errors: `Failed(Memory)` if an allocation failed.
pub fn comments_of(
    alloc: Global,
    owner: Node<'_>,
    side: Side,
) -> Result<Vec<String>, TomlEditError> {
    let part = part_of(owner, side);
    let mut comments = Vec::new(alloc);
    for index in part.start..part.end {
        if let Some(text) = text_at(part.parent, index, Kind::Comment) {
            comments.push(String::from_str(alloc, inner(text))?)?;
        }
    }
    Ok(comments)
}

/// What a comment says: the text behind its `#` and one blank.
fn inner(comment: &str) -> &str {
    let text = comment.strip_prefix('#').unwrap_or(comment);
    text.strip_prefix(' ').unwrap_or(text)
}

/// Puts a comment in the place of those that an entry or a header has on a side. Its text has no `#`
/// yet; without a text none is put there.
///
/// Errors: `Refused` with `BadComment` where the text has a line end or another control character;
/// `Failed` where it is too long or an allocation failed.
pub fn comment_splices<'tree>(
    alloc: Global,
    owner: Node<'tree>,
    side: Side,
    text: Option<&str>,
    line_end: &str,
) -> Result<Splice<'tree>, TomlEditError> {
    let part = part_of(owner, side);
    let new = match (text, side) {
        (None, _) => Vec::new(alloc),
        (Some(text), _) if !is_comment(text) => {
            return Err(TomlEditError::nowhere(Cause::BadComment));
        }
        (Some(text), Side::Above) => {
            let space = owner
                .parent()
                .and_then(|above| white_before(above, owner.index()));
            above(
                alloc,
                text,
                line_end,
                space.map_or("", |white| indent(white)),
            )?
        }
        (Some(text), Side::Behind) => behind(alloc, text)?,
    };
    Ok(Splice {
        parent: part.parent,
        start: part.start,
        end: part.end,
        new,
    })
}

/// Whether a text can stand in one line of a comment.
fn is_comment(text: &str) -> bool {
    !text
        .chars()
        .any(|character| character.is_control() && character != '\t')
}

fn above(
    alloc: Global,
    text: &str,
    line_end: &str,
    space: &str,
) -> Result<Vec<GreenElement>, Fault> {
    let comment = comment(alloc, text)?;
    let white = format!(in alloc; "{line_end}{space}")?;
    let mut new = Vec::new(alloc);
    push_token(&mut new, Kind::Comment, &comment)?;
    push_token(&mut new, Kind::Whitespace, &white)?;
    Ok(new)
}

fn behind(alloc: Global, text: &str) -> Result<Vec<GreenElement>, Fault> {
    let comment = comment(alloc, text)?;
    let mut new = Vec::new(alloc);
    push_token(&mut new, Kind::Whitespace, " ")?;
    push_token(&mut new, Kind::Comment, &comment)?;
    Ok(new)
}

/// A comment with its `#`. Blanks at its end would stand behind it.
fn comment(alloc: Global, text: &str) -> Result<String, Fault> {
    let text = text.trim_end();
    match text.is_empty() {
        true => Ok(format!(in alloc; "#")?),
        false => Ok(format!(in alloc; "# {text}")?),
    }
}

/// Where the comments on a side stand.
fn part_of<'tree>(owner: Node<'tree>, side: Side) -> Part<'tree> {
    match side {
        Side::Above => Part {
            parent: owner,
            start: 0,
            end: head_of(owner),
        },
        Side::Behind => part_behind(owner),
    }
}

/// The index of the first child that is no white space and no comment.
fn head_of(owner: Node<'_>) -> usize {
    for index in 0..child_count(owner) {
        match token_at(owner, index).map(|token| token.kind()) {
            Some(Kind::Whitespace | Kind::Comment) => {}
            _ => return index,
        }
    }
    0
}

/// What stands between an entry or a header and the end of its line. Where the document ends with it,
/// a comment is none of its children.
fn part_behind<'tree>(owner: Node<'tree>) -> Part<'tree> {
    let last = last_sign(owner);
    let start = last.saturating_add(1);
    let end = behind_comment(owner, last);
    if end == start && end == child_count(owner) {
        if let Some(part) = part_outside(outermost(owner)) {
            return part;
        }
    }
    Part {
        parent: owner,
        start,
        end,
    }
}

/// The table at whose end an entry stands, and else the entry.
fn outermost<'tree>(owner: Node<'tree>) -> Node<'tree> {
    match owner.parent() {
        Some(parent) if parent.kind() != Kind::Document => {
            let is_last = owner.index().saturating_add(1) == child_count(parent);
            if is_last { parent } else { owner }
        }
        _ => owner,
    }
}

/// The comment in the line behind a node, with the blanks before it.
fn part_outside<'tree>(node: Node<'tree>) -> Option<Part<'tree>> {
    let parent = node.parent()?;
    let start = node.index().saturating_add(1);
    let end = behind_comment(parent, node.index());
    if start == end {
        return None;
    }
    Some(Part { parent, start, end })
}

/// The index of the value of an entry, or of the bracket that ends a header.
fn last_sign(owner: Node<'_>) -> usize {
    if owner.kind() == Kind::Entry {
        return owner.last_child().map_or(0, |value| value.index());
    }
    for index in 0..child_count(owner) {
        match token_at(owner, index).map(|token| token.kind()) {
            Some(Kind::RBracket | Kind::RBrackets) => return index,
            _ => {}
        }
    }
    0
}
