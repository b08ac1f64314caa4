//! What is taken away with the value to which a path leads.
ghost use Rattle.std.specs.Prelude.{◌≡◌, IfOk};
ghost use Rattle.std.specs.List.{AllByRecursion};
ghost use Rattle.toml_edit_plan.specs.Splices.{Takes};

use crate::adding::refused;
use crate::ways::{value_behind, way_of};
use rowan::TextRange;
use std::alloc::{AllocError, Global};
use toml_document::{Made, Value, ValueRef, Values};
use toml_edit_plan::{Cause, Maker, Node, Splice, TomlEditError, dropped, owner_at, value_at};
use toml_path::{Path, Step};

/// The nodes that are taken away with what a path leads to.
pub(crate) fn dropped_at<'tree>(
    maker: Maker<'_>,
    values: &Values,
    root: Node<'tree>,
    path: &Path,
) -> Result<Vec<Node<'tree>>, TomlEditError> {
    let alloc = maker.alloc;
    let way = way_of(values, path);
    if way.steps != path.steps.len() {
        return Err(refused(Cause::NotFound, way.value));
    }
    match path.steps.as_slice().last() {
        None => Err(refused(Cause::NotFound, way.value)),
        Some(Step::Key(_)) => Ok(owners(alloc, root, &way.value.key_ranges(alloc)?)?),
        Some(Step::Index(_)) if way.value.made() == Made::Value => {
            let Some(node) = value_at(root, way.value.range()) else {
                return Err(refused(Cause::NotFound, way.value));
            };
            Ok(vec![in alloc; node]?)
        }
        Some(Step::Index(_)) => {
            let ranges = ranges_of(alloc, values, path, way.value)?;
            Ok(owners(alloc, root, &ranges)?)
        }
    }
}

/// The entries and tables with parts of their keys at ranges.
fn owners<'tree>(
    alloc: Global,
    root: Node<'tree>,
    ranges: &[TextRange],
) -> Result<Vec<Node<'tree>>, AllocError> {
    let mut nodes = Vec::new(alloc);
    for range in ranges {
        if let Some(node) = owner_at(root, *range) {
            nodes.push(node)?;
        }
    }
    Ok(nodes)
}

/// Where the keys stand that lead to an element of an array of tables: from its header on up to the
/// one of the next element.
fn ranges_of(
    alloc: Global,
    values: &Values,
    path: &Path,
    table: ValueRef<'_>,
) -> Result<Vec<TextRange>, AllocError> {
    let mut ranges = Vec::new(alloc);
    let Some((array, end)) = array_around(values, path) else {
        return Ok(ranges);
    };
    let start = table.range().start();
    for range in array.key_ranges(alloc)?.iter() {
        let is_before = end.is_none_or(|end| range.start() < end.start());
        if start <= range.start() && is_before {
            ranges.push(*range)?;
        }
    }
    Ok(ranges)
}

/// The array of whose tables a path leads to one, and where the next one stands.
fn array_around<'a>(values: &'a Values, path: &Path) -> Option<(ValueRef<'a>, Option<TextRange>)> {
    let (last, above) = path.steps.as_slice().split_last()?;
    let mut array = values.root();
    for step in above {
        array = value_behind(array, step)?;
    }
    match (array.value(), last) {
        (Value::Array(tables), Step::Index(index)) => {
            let next = tables.at(index.saturating_add(1));
            Some((array, next.map(|next| next.range())))
        }
        _ => None,
    }
}

/// A node that is taken away: where its parent starts, the kind of that, and its index there.
#[derive(Clone, Copy)]
struct Gone<'tree> {
    parent: Node<'tree>,
    key: (u32, u16),
    index: usize,
}

/// Takes nodes away, those of one parent together.
pub(crate) fn dropped_splices<'tree>(
    alloc: Global,
    nodes: &[Node<'tree>],
) -> Result<Vec<Splice<'tree>>, TomlEditError>
    ensures { IfOk result (λ splices. AllByRecursion Takes splices.items) }
{
    let gone = sorted(alloc, nodes)?;
    let mut splices = Vec::new(alloc);
    let mut start: usize = 0;
    for end in 1..=gone.len() {
        if !is_border(&gone, end) {
            continue;
        }
        let (before, _) = gone.as_slice().split_at(end);
        let (_, siblings) = before.split_at(start.min(end));
        splices.append(&mut dropped_siblings(alloc, siblings)?)?;
        start = end;
    }
    Ok(splices)
}

/// Whether another parent begins at a place, or none.
fn is_border(gone: &[Gone<'_>], place: usize) -> bool {
    match (gone.get(place.saturating_sub(1)), gone.get(place)) {
        (Some(before), Some(next)) => before.key != next.key,
        _ => true,
    }
}

fn sorted<'tree>(alloc: Global, nodes: &[Node<'tree>]) -> Result<Vec<Gone<'tree>>, AllocError> {
    let mut gone = Vec::new(alloc);
    for node in nodes {
        if let Some(parent) = node.parent() {
            gone.push(Gone {
                parent,
                key: place_key(parent),
                index: node.index(),
            })?;
        }
    }
    gone.sort_by_key(|one: &Gone<'_>| (one.key, one.index))?;
    Ok(gone)
}

/// Where a node starts, and its kind. No two nodes that have children taken away share both.
pub(crate) fn place_key(node: Node<'_>) -> (u32, u16) {
    (u32::from(node.text_range().start()), node.kind() as u16)
}

fn dropped_siblings<'tree>(
    alloc: Global,
    gone: &[Gone<'tree>],
) -> Result<Vec<Splice<'tree>>, TomlEditError>
    ensures { IfOk result (λ splices. AllByRecursion Takes splices.items) }
{
    let Some(first) = gone.first() else {
        return Ok(Vec::new(alloc));
    };
    let mut indexes = Vec::new(alloc);
    for one in gone {
        indexes.push(one.index)?;
    }
    dropped(alloc, first.parent, &indexes)
}
