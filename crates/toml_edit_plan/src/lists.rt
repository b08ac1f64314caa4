//! Elements of arrays and entries of inline tables, which have commas between them.
ghost use Rattle.std.specs.Prelude.{◌≡◌, [], IfOk, IfSome};
ghost use Rattle.std.specs.List.{AllByRecursion};
ghost use Rattle.toml_edit_plan.specs.Runs.{nodes_in, others_in};
ghost use Rattle.toml_edit_plan.specs.Splices.{Adds, Takes, nodes_put, others_put};

use crate::counts::{Sort, count_of};
use crate::error::{Cause, TomlEditError};
use crate::lines::trimmed_lines;
use crate::places::{
    Node, behind_comment, child_count, has_line_end, last_line, text_at, token_at, white_at,
    white_before,
};
use crate::runs::{Sign, run};
use crate::splice::Splice;
use rowan::{Fault, GreenElement, GreenNode, TypedElementRefCalls};
use std::alloc::{AllocError, Global};
use toml_syntax::Kind;

/// The indexes of the nodes among all children of a node.
pub(crate) fn items_of(alloc: Global, parent: Node<'_>) -> Result<Vec<usize>, AllocError> {
    let mut items = Vec::new(alloc);
    for node in parent.children() {
        items.push(node.index())?;
    }
    Ok(items)
}

/// New elements before the one with a number, in the way in which the list is laid out: in one line,
/// or with a line for each. Past the last one they come behind that.
///
/// Errors: `Memory` if an allocation failed.
pub(crate) fn grown<'tree>(
    alloc: Global,
    list: Node<'tree>,
    at: usize,
    pieces: Vec<GreenNode>,
    line_end: &str,
) -> Result<Vec<Splice<'tree>>, Fault>
    ensures adds { IfOk result (λ splices. AllByRecursion Adds splices.items) }
    ensures put { IfOk result (λ splices. nodes_put splices.items ≡ pieces.items) }
    ensures beside { IfOk result (λ splices. others_put splices.items ≡ []) }
{
    let items = items_of(alloc, list)?;
    let Some(first) = items.as_slice().first().copied() else {
        return only(alloc, list, pieces, line_end);
    };
    let before = at.min(items.len()).checked_sub(1);
    match before.and_then(|number| items.as_slice().get(number).copied()) {
        Some(item) => behind(alloc, list, item, pieces, line_end),
        None => in_front(alloc, list, first, pieces),
    }
}

/// New elements of a list that has none.
fn only<'tree>(
    alloc: Global,
    list: Node<'tree>,
    pieces: Vec<GreenNode>,
    line_end: &str,
) -> Result<Vec<Splice<'tree>>, Fault>
    ensures adds { IfOk result (λ splices. AllByRecursion Adds splices.items) }
    ensures put { IfOk result (λ splices. nodes_put splices.items ≡ pieces.items) }
    ensures beside { IfOk result (λ splices. others_put splices.items ≡ []) }
{
    let close = child_count(list).saturating_sub(1);
    if let Some(line) = line_of_comment(list, line_end) {
        let between = &[Sign::Comma, Sign::White(line)];
        let gap = match white_before(list, close) {
            Some(_) => close.saturating_sub(1),
            None => close,
        };
        let new = run(alloc, &[Sign::White(line)], pieces, between, &[])?;
        return one(alloc, list, gap, new);
    }
    let is_table = list.kind() == Kind::InlineTable;
    let before = if is_table { " " } else { "" };
    let after = if is_table && close == 1 { " " } else { "" };
    let between = &[Sign::Comma, Sign::White(" ")];
    let new = run(
        alloc,
        &[Sign::White(before)],
        pieces,
        between,
        &[Sign::White(after)],
    )?;
    one(alloc, list, 1, new)
}

/// The line end and the indent before the first comment in a list, if there is one.
fn line_of_comment<'a>(list: Node<'a>, line_end: &'a str) -> Option<&'a str> {
    let mut children = list.children_with_tokens();
    let comment = children.find(|child| child.kind() == Kind::Comment)?;
    let white = white_before(list, comment.index())?;
    Some(last_line(white).unwrap_or(line_end))
}

/// New elements in front of the first one.
fn in_front<'tree>(
    alloc: Global,
    list: Node<'tree>,
    first: usize,
    pieces: Vec<GreenNode>,
) -> Result<Vec<Splice<'tree>>, Fault>
    ensures adds { IfOk result (λ splices. AllByRecursion Adds splices.items) }
    ensures put { IfOk result (λ splices. nodes_put splices.items ≡ pieces.items) }
    ensures beside { IfOk result (λ splices. others_put splices.items ≡ []) }
{
    match white_before(list, first).and_then(|white| last_line(white)) {
        Some(line) => {
            let between = &[Sign::Comma, Sign::White(line)];
            let new = run(alloc, &[Sign::White(line)], pieces, between, &[Sign::Comma])?;
            one(alloc, list, behind_comment(list, 0), new)
        }
        None => {
            let between = &[Sign::Comma, Sign::White(" ")];
            let new = run(alloc, &[], pieces, between, between)?;
            one(alloc, list, first, new)
        }
    }
}

/// New elements behind the one at an index.
fn behind<'tree>(
    alloc: Global,
    list: Node<'tree>,
    item: usize,
    pieces: Vec<GreenNode>,
    line_end: &str,
) -> Result<Vec<Splice<'tree>>, Fault>
    ensures adds { IfOk result (λ splices. AllByRecursion Adds splices.items) }
    ensures put { IfOk result (λ splices. nodes_put splices.items ≡ pieces.items) }
    ensures beside { IfOk result (λ splices. others_put splices.items ≡ []) }
{
    let comma = comma_behind(list, item);
    let last = comma.unwrap_or(item);
    let gap = behind_comment(list, last);
    let has_comment = gap != last.saturating_add(1);
    let line = white_before(list, item).and_then(|white| last_line(white));
    let space = match line {
        Some(line) => line,
        None if has_comment => line_end,
        None => " ",
    };
    let between = &[Sign::Comma, Sign::White(space)];
    match comma {
        Some(_) => {
            let new = run(
                alloc,
                &[Sign::White(space)],
                pieces,
                between,
                &[Sign::Comma],
            )?;
            one(alloc, list, gap, new)
        }
        None if has_comment => {
            let new = run(alloc, &[Sign::White(space)], pieces, between, &[])?;
            with_comma(alloc, list, item, gap, new)
        }
        None => {
            let new = run(alloc, between, pieces, between, &[])?;
            one(alloc, list, gap, new)
        }
    }
}

/// A comma behind an item, and elements in a gap behind the comment that follows it.
fn with_comma<'tree>(
    alloc: Global,
    list: Node<'tree>,
    item: usize,
    gap: usize,
    new: Vec<GreenElement>,
) -> Result<Vec<Splice<'tree>>, Fault>
    ensures adds { IfOk result (λ splices. AllByRecursion Adds splices.items) }
    ensures put { IfOk result (λ splices. nodes_put splices.items ≡ nodes_in new.items) }
    ensures beside { IfOk result (λ splices. others_put splices.items ≡ others_in new.items) }
{
    let comma = run(alloc, &[Sign::Comma], Vec::new(alloc), &[], &[])?;
    let next = item.saturating_add(1);
    let mut splices = one(alloc, list, next, comma)?;
    splices.push(Splice {
        parent: list,
        start: gap,
        end: gap,
        new,
    })?;
    Ok(splices)
}

/// One splice that puts elements into a gap.
pub(crate) fn one<'tree>(
    alloc: Global,
    parent: Node<'tree>,
    gap: usize,
    new: Vec<GreenElement>,
) -> Result<Vec<Splice<'tree>>, Fault>
    ensures adds { IfOk result (λ splices. AllByRecursion Adds splices.items) }
    ensures put { IfOk result (λ splices. nodes_put splices.items ≡ nodes_in new.items) }
    ensures beside { IfOk result (λ splices. others_put splices.items ≡ others_in new.items) }
{
    let splice = Splice {
        parent,
        start: gap,
        end: gap,
        new,
    };
    Ok(vec![in alloc; splice]?)
}

/// The index of the comma behind the item at an index, if there is one.
fn comma_behind(list: Node<'_>, item: usize) -> Option<usize> {
    for index in item.saturating_add(1)..child_count(list) {
        match token_at(list, index)?.kind() {
            Kind::Comma => return Some(index),
            Kind::Whitespace | Kind::Comment => {}
            _ => return None,
        }
    }
    None
}

/// Takes nodes away, which are the children at some indexes in order: entries and tables with their
/// lines; elements of an array and entries of an inline table with one comma each, and the comment in
/// their line.
///
/// Errors: `Refused` with `Conflict` where more commas would go than nodes, as errors of syntax may
/// have it; `Failed(Memory)` if an allocation failed.
pub fn dropped<'tree>(
    alloc: Global,
    parent: Node<'tree>,
    indexes: &[usize],
) -> Result<Vec<Splice<'tree>>, TomlEditError>
    ensures { IfOk result (λ splices. AllByRecursion Takes splices.items) }
{
    let items = items_of(alloc, parent)?;
    let runs = runs_of(alloc, &items, indexes)?;
    let mut splices = Vec::new(alloc);
    for run in runs.iter() {
        match without(alloc, parent, &items, *run) {
            Some(splice) => splices.push(splice)?,
            None => return Err(TomlEditError::nowhere(Cause::Conflict)),
        }
    }
    Ok(splices)
}

/// The first and the last number of items that stand side by side.
type Run = (usize, usize);

/// The runs of the items at some indexes.
fn runs_of(alloc: Global, items: &[usize], indexes: &[usize]) -> Result<Vec<Run>, AllocError> {
    let mut runs: Vec<Run> = Vec::new(alloc);
    for index in indexes {
        let number = items.binary_search(index).unwrap_or(0);
        match runs.last_mut() {
            Some(run) if run.1.saturating_add(1) == number => run.1 = number,
            _ => runs.push((number, number))?,
        }
    }
    Ok(runs)
}

/// Takes a run of nodes away, if no more commas go with them than they are.
fn without<'tree>(
    alloc: Global,
    parent: Node<'tree>,
    items: &[usize],
    run: Run,
) -> Option<Splice<'tree>>
    ensures { IfSome result Takes }
{
    let (start, end) = match parent.kind() {
        Kind::Array | Kind::InlineTable => extent(parent, items, run.0, run.1),
        _ => lines_of(parent, items, run.0, run.1),
    };
    let commas = count_of(parent.green(), start, end, Sort::Comma);
    let nodes = count_of(parent.green(), start, end, Sort::Node);
    if commas > nodes {
        return None;
    }
    Some(Splice {
        parent,
        start,
        end,
        new: Vec::new(alloc),
    })
}

fn lines_of(parent: Node<'_>, items: &[usize], first: usize, last: usize) -> (usize, usize) {
    let start = items.get(first).copied().unwrap_or(0);
    let end = items.get(last).copied().unwrap_or(start);
    trimmed_lines(parent, start, end.saturating_add(1))
}

/// The indexes from which and before which elements with one comma less than they are stand: the
/// comma behind the last of them, or, where there is none, that before the first.
fn extent(list: Node<'_>, items: &[usize], first: usize, last: usize) -> (usize, usize) {
    let start = items.get(first).copied().unwrap_or(0);
    let end = items.get(last).copied().unwrap_or(start);
    if let Some(comma) = comma_behind(list, end) {
        return trimmed(list, start, behind_comment(list, comma));
    }
    let before = first
        .checked_sub(1)
        .and_then(|number| items.get(number).copied());
    let start = match before.and_then(|item| comma_behind(list, item)) {
        Some(comma) if !has_comment(list, comma, start) => comma,
        _ => start,
    };
    trimmed(list, start, behind_comment(list, end))
}

/// Whether a comment stands between two indexes.
fn has_comment(list: Node<'_>, start: usize, end: usize) -> bool {
    (start..end).any(|index| text_at(list, index, Kind::Comment).is_some())
}

/// The range with the white space on one side of it, where there is some on both. It stays where it
/// ends a comment or stands before a bracket or a comment.
fn trimmed(list: Node<'_>, start: usize, end: usize) -> (usize, usize) {
    let next = end.saturating_add(1);
    match (white_before(list, start), white_at(list, end)) {
        (Some(_), Some(behind)) if has_line_end(behind) && is_before_end(list, next) => {
            (start.saturating_sub(1), end)
        }
        (Some(_), Some(_)) => (start, next),
        (Some(before), None) if !has_line_end(before) => (start.saturating_sub(1), end),
        (None, Some(behind)) if start == 1 && !has_line_end(behind) => (start, next),
        _ => (start, end),
    }
}

/// Whether a comment or the bracket at the end stands at an index.
fn is_before_end(list: Node<'_>, index: usize) -> bool {
    match token_at(list, index) {
        Some(token) => {
            token.kind() == Kind::Comment || index.saturating_add(1) == child_count(list)
        }
        None => false,
    }
}
