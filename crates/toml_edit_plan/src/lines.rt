//! Entries and tables, which have lines of their own.
ghost use Rattle.std.specs.Prelude.{◌≡◌, [], IfOk};
ghost use Rattle.std.specs.List.{AllByRecursion};
ghost use Rattle.toml_edit_plan.specs.Splices.{Adds, nodes_put, others_put};

use crate::lists::one;
use crate::places::{Node, child_count, has_line_end, indent, text_at, white_at, white_before};
use crate::runs::{Sign, run};
use crate::splice::Splice;
use rowan::{Fault, GreenNode, SyntaxTokenRef};
use std::alloc::Global;
use toml_syntax::{Kind, Toml};

/// New entries behind the last one of a table, of an element of an array of tables, or of the
/// document before its tables.
///
/// Errors: `Memory` if an allocation failed.
pub(crate) fn entry_splices<'tree>(
    alloc: Global,
    root: Node<'tree>,
    section: Node<'tree>,
    pieces: Vec<GreenNode>,
    line_end: &'static str,
) -> Result<Vec<Splice<'tree>>, Fault>
    ensures adds { IfOk result (λ splices. AllByRecursion Adds splices.items) }
    ensures put { IfOk result (λ splices. nodes_put splices.items ≡ pieces.items) }
    ensures beside { IfOk result (λ splices. others_put splices.items ≡ []) }
{
    let last = last_entry(section);
    let is_document = section.kind() == Kind::Document;
    if last.is_none() && is_document {
        return first_entries(alloc, root, pieces, line_end);
    }
    let white = last.and_then(|entry| white_before(section, entry.index()));
    let space = white.map_or("", |white| indent(white));
    if is_last(root, section) && is_open(root) {
        let between = &[Sign::White(space)];
        let new = run(alloc, &[Sign::White(line_end)], pieces, between, &[])?;
        return one(alloc, root, child_count(root), new);
    }
    let gap = match last {
        Some(entry) if is_document => entry.index().saturating_add(1),
        _ => child_count(section),
    };
    let new = run(
        alloc,
        &[Sign::White(space)],
        pieces,
        &[Sign::White(space)],
        &[],
    )?;
    one(alloc, section, gap, new)
}

/// New entries of a document that has none before its tables.
fn first_entries<'tree>(
    alloc: Global,
    root: Node<'tree>,
    pieces: Vec<GreenNode>,
    line_end: &'static str,
) -> Result<Vec<Splice<'tree>>, Fault>
    ensures adds { IfOk result (λ splices. AllByRecursion Adds splices.items) }
    ensures put { IfOk result (λ splices. nodes_put splices.items ≡ pieces.items) }
    ensures beside { IfOk result (λ splices. others_put splices.items ≡ []) }
{
    match root.first_child() {
        Some(section) => {
            let new = run(alloc, &[], pieces, &[], &[Sign::White(line_end)])?;
            one(alloc, root, section.index(), new)
        }
        None => {
            let lines = line_ends(line_end, line_ends_wanted(root, false));
            let new = run(alloc, &[Sign::White(lines)], pieces, &[], &[])?;
            one(alloc, root, child_count(root), new)
        }
    }
}

/// New tables at the end of the document, each with a blank line above it. `is_behind_entries` says
/// that new entries come before them there.
///
/// Errors: `Memory` if an allocation failed.
pub(crate) fn section_splices<'tree>(
    alloc: Global,
    root: Node<'tree>,
    pieces: Vec<GreenNode>,
    line_end: &'static str,
    is_behind_entries: bool,
) -> Result<Vec<Splice<'tree>>, Fault>
    ensures adds { IfOk result (λ splices. AllByRecursion Adds splices.items) }
    ensures put { IfOk result (λ splices. nodes_put splices.items ≡ pieces.items) }
    ensures beside { IfOk result (λ splices. others_put splices.items ≡ []) }
{
    let count = if is_behind_entries {
        1
    } else {
        line_ends_wanted(root, true)
    };
    let before = line_ends(line_end, count);
    let new = run(
        alloc,
        &[Sign::White(before)],
        pieces,
        &[Sign::White(line_end)],
        &[],
    )?;
    one(alloc, root, child_count(root), new)
}

/// New tables between others, with a blank line on one side of each.
///
/// Errors: `Memory` if an allocation failed.
pub(crate) fn table_splices<'tree>(
    alloc: Global,
    root: Node<'tree>,
    gap: usize,
    pieces: Vec<GreenNode>,
    line_end: &'static str,
    is_below: bool,
) -> Result<Vec<Splice<'tree>>, Fault>
    ensures adds { IfOk result (λ splices. AllByRecursion Adds splices.items) }
    ensures put { IfOk result (λ splices. nodes_put splices.items ≡ pieces.items) }
    ensures beside { IfOk result (λ splices. others_put splices.items ≡ []) }
{
    let before = if is_below { line_end } else { "" };
    let after = if is_below { "" } else { line_end };
    let between = &[Sign::White(line_end)];
    let new = run(
        alloc,
        &[Sign::White(before)],
        pieces,
        between,
        &[Sign::White(after)],
    )?;
    one(alloc, root, gap, new)
}

/// The last entry among the children of a node.
fn last_entry<'tree>(section: Node<'tree>) -> Option<Node<'tree>> {
    section
        .children()
        .filter(|node| node.kind() == Kind::Entry)
        .last()
}

/// Whether nothing but entries of this one stands at the end of a document.
fn is_last(root: Node<'_>, section: Node<'_>) -> bool {
    match section.kind() {
        Kind::Document => root
            .last_child()
            .is_none_or(|node| node.kind() == Kind::Entry),
        _ => section.next_sibling().is_none(),
    }
}

/// Whether the last line of a document has no end.
fn is_open(root: Node<'_>) -> bool {
    root.last_token()
        .is_some_and(|token| !token.text().ends_with('\n'))
}

/// How many line ends have to stand before what comes behind a document, so that it begins a line,
/// and no comment belongs to it. A table wants a blank line above it.
fn line_ends_wanted(root: Node<'_>, is_table: bool) -> usize {
    let Some(last) = root.last_token() else {
        return 0;
    };
    if !last.text().ends_with('\n') {
        return if is_table || last.kind() == Kind::Comment {
            2
        } else {
            1
        };
    }
    match last.kind() {
        Kind::Newline => usize::from(is_table),
        _ => usize::from(ends_comment(last)),
    }
}

/// Whether white space is the end of a comment's line, and no blank line.
fn ends_comment(white: SyntaxTokenRef<'_, Toml>) -> bool {
    let lines = white.text().bytes().filter(|byte| *byte == b'\n').count();
    let is_behind = white
        .prev_token()
        .is_some_and(|before| before.kind() == Kind::Comment);
    is_behind && lines < 2
}

/// So many line ends, two at most.
fn line_ends(line_end: &str, count: usize) -> &'static str {
    match (line_end, count) {
        (_, 0) => "",
        ("\r\n", 1) => "\r\n",
        ("\r\n", _) => "\r\n\r\n",
        (_, 1) => "\n",
        _ => "\n\n",
    }
}

/// The range of lines with the white space on one side of it, so that neither indents nor blank lines
/// add up.
pub(crate) fn trimmed_lines(parent: Node<'_>, start: usize, end: usize) -> (usize, usize) {
    let before = start.saturating_sub(1);
    match (white_before(parent, start), white_at(parent, end)) {
        (Some(_), Some(behind)) if has_line_end(behind) && !is_behind_comment(parent, before) => {
            (before, end)
        }
        (Some(_), Some(_)) => (start, end.saturating_add(1)),
        (Some(white), None) if !has_line_end(white) => (before, end),
        (Some(_), None) if is_end(parent, end) && !is_behind_comment(parent, before) => {
            (before, end)
        }
        (None, Some(_)) if start == 0 => (start, end.saturating_add(1)),
        _ => (start, end),
    }
}

fn is_behind_comment(parent: Node<'_>, index: usize) -> bool {
    match index.checked_sub(1) {
        Some(before) => text_at(parent, before, Kind::Comment).is_some(),
        None => false,
    }
}

/// Whether an index is that behind all of a document.
fn is_end(parent: Node<'_>, index: usize) -> bool {
    parent.kind() == Kind::Document && index == child_count(parent)
}
