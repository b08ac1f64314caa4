//! Where things stand in the tree of a document.
ghost use Rattle.std.specs.Prelude.{◌≡◌, IfSome};
ghost use Rattle.rowan.specs.Cursor.{text_range};
ghost use Rattle.rowan.specs.Refs.{node_place};

use crate::maker::VALUES;
use rowan::{
    NodeOrToken, SyntaxElementRef, SyntaxNodeRef, SyntaxTokenRef, TextRange, TypedElementRefCalls,
};
use toml_syntax::{Kind, Toml};

/// A node of a document.
pub type Node<'tree> = SyntaxNodeRef<'tree, Toml>;

/// The value at a range.
pub fn value_at<'tree>(root: Node<'tree>, range: TextRange) -> Option<Node<'tree>>
    ensures { IfSome result (λ n. text_range (node_place n) ≡ range) }
{
    let value = around(root, range, VALUES)?;
    if value.text_range() != range {
        return None;
    }
    Some(value)
}

/// The part of a key at a range.
pub fn key_part_at<'tree>(root: Node<'tree>, range: TextRange) -> Option<Node<'tree>> {
    around(root, range, &[Kind::KeyPart])
}

/// The entry, table or element of an array of tables with a part of its key at a range.
pub fn owner_at<'tree>(root: Node<'tree>, range: TextRange) -> Option<Node<'tree>> {
    around(root, range, &[Kind::Entry, Kind::Table, Kind::ArrayTable])
}

/// The table or element of an array of tables around a range.
pub fn section_at<'tree>(root: Node<'tree>, range: TextRange) -> Option<Node<'tree>> {
    around(root, range, &[Kind::Table, Kind::ArrayTable])
}

/// The innermost node of some kinds that has all bytes of a range.
fn around<'tree>(root: Node<'tree>, range: TextRange, kinds: &[Kind]) -> Option<Node<'tree>> {
    if !root.text_range().contains_range(range) {
        return None;
    }
    let element = root.covering_element(range);
    element
        .ancestors()
        .find(|node| kinds.contains(&node.kind()))
}

/// How the first line of a document ends.
pub fn line_end_of(root: Node<'_>) -> &'static str {
    let mut elements = root.descendants_with_tokens();
    match elements.find_map(|element| text_before_end(element)) {
        Some(text) if text.ends_with('\r') => "\r\n",
        _ => "\n",
    }
}

/// The text before the first line end in a token.
fn text_before_end<'tree>(element: SyntaxElementRef<'tree, Toml>) -> Option<&'tree str> {
    let text = element.into_token()?.text();
    let (before, _) = text.split_once('\n')?;
    Some(before)
}

/// How many children a node has, tokens counted.
pub(crate) fn child_count(parent: Node<'_>) -> usize {
    parent.green().children().len()
}

/// The token at an index among all children.
pub(crate) fn token_at<'tree>(
    parent: Node<'tree>,
    index: usize,
) -> Option<SyntaxTokenRef<'tree, Toml>> {
    match parent.child_or_token_at_index(index)? {
        NodeOrToken::Token(token) => Some(token),
        NodeOrToken::Node(_) => None,
    }
}

/// The text of the token of a kind at an index, if there is one.
pub(crate) fn text_at<'tree>(parent: Node<'tree>, index: usize, kind: Kind) -> Option<&'tree str> {
    let token = token_at(parent, index)?;
    if token.kind() != kind {
        return None;
    }
    Some(token.text())
}

/// The white space at an index, if there is some.
pub(crate) fn white_at<'tree>(parent: Node<'tree>, index: usize) -> Option<&'tree str> {
    text_at(parent, index, Kind::Whitespace)
}

/// The white space before an index, if there is some.
pub(crate) fn white_before<'tree>(parent: Node<'tree>, index: usize) -> Option<&'tree str> {
    white_at(parent, index.checked_sub(1)?)
}

/// The last line end of white space and what is behind it, if it has one.
pub(crate) fn last_line(white: &str) -> Option<&str> {
    let end = white.rfind('\n')?;
    let before = white.get(..end)?;
    match before.strip_suffix('\r') {
        Some(start) => white.get(start.len()..),
        None => white.get(end..),
    }
}

/// What is behind the last line end of white space.
pub(crate) fn indent(white: &str) -> &str {
    match white.rsplit_once('\n') {
        Some((_, indent)) => indent,
        None => white,
    }
}

/// Whether a text ends a line or more.
pub(crate) fn has_line_end(text: &str) -> bool {
    text.contains('\n')
}

/// The index behind the comment in the line of the child at an index; without one that behind the
/// child.
pub(crate) fn behind_comment(parent: Node<'_>, index: usize) -> usize {
    let next = index.saturating_add(1);
    let comment = match white_at(parent, next) {
        Some(white) if !has_line_end(white) => next.saturating_add(1),
        _ => next,
    };
    match text_at(parent, comment, Kind::Comment) {
        Some(_) => comment.saturating_add(1),
        None => next,
    }
}
