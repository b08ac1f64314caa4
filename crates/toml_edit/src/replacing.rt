//! Values, keys and comments that give way to others.
ghost use Rattle.std.specs.Prelude.{◌≡◌, ◌+◌, [], ◌∷◌, Some, IfOk, IfSome, slice_get};
ghost use Rattle.rowan.specs.Cursor.{index};
ghost use Rattle.rowan.specs.Moves.{parent};
ghost use Rattle.rowan.specs.Refs.{node_place};
ghost use Rattle.rowan.specs.Types.NodeOrToken.TheVariants.{Node};
ghost use Rattle.std.specs.List.{AllByRecursion};
ghost use Rattle.toml_edit.specs.Edits.{IsPut, IsRenamed, IsReplaced, PutsThis};

use crate::adding::refused;
use crate::ways::{value_behind, way_of};
use rowan::{Fault, GreenElement, GreenNode, TextRange};
use rowan_edit::Edited;
use std::alloc::Global;
use toml_document::{Made, Value, ValueRef, Values};
use toml_edit_plan::{
    Cause, Maker, NewValue, Node, Side, Splice, TomlEditError, comment_splices, key_part_at,
    key_text, line_end_of, made, owner_at, section_at, value_at, value_text,
};
use toml_path::{Path, Step};
use toml_syntax::Kind;

/// The tree with a value in the place of another one.
pub(crate) fn replaced(
    maker: Maker<'_>,
    root: Node<'_>,
    old: ValueRef<'_>,
    new: NewValue<'_>,
) -> Result<Edited, TomlEditError>
    ensures { let slots = old.entry.values.now.slots.items in
        IfOk result (λ e. IfSome (slice_get slots old.entry.place) (λ slot.
        IsReplaced (node_place root.entry).root slot.origin.range new.entry e)) }
{
    let splice = put_at(maker, root, old, new)?;
    made(maker.alloc, root, vec![in maker.alloc; splice]?)
}

/// A value in the place of another one.
pub(crate) fn put_at<'tree>(
    maker: Maker<'_>,
    root: Node<'tree>,
    old: ValueRef<'_>,
    new: NewValue<'_>,
) -> Result<Splice<'tree>, TomlEditError>
    ensures { let slots = old.entry.values.now.slots.items in
        IfOk result (λ s. IfSome (slice_get slots old.entry.place) (λ slot.
        IsPut slot.origin.range new.entry s)) }
{
    if is_table(old) {
        return Err(refused(Cause::IsTable, old));
    }
    let Some(node) = value_at(root, old.range()) else {
        return Err(refused(Cause::NotFound, old));
    };
    let text = value_text(maker.alloc, new)?;
    let piece = maker.value(&text)?;
    in_place(maker.alloc, node, piece)
}

/// A node in the place of another one.
fn in_place<'tree>(
    alloc: Global,
    node: Node<'tree>,
    piece: GreenNode,
) -> Result<Splice<'tree>, TomlEditError>
    ensures above { IfOk result (λ s.
        parent (node_place node.entry) ≡ Some (node_place s.parent)) }
    ensures start { IfOk result (λ s. s.start ≡ index (node_place node.entry)) }
    ensures end { IfOk result (λ s. s.end ≡ s.start + 1) }
    ensures new { IfOk result (λ s. s.new.items ≡ Node piece ∷ []) }
{
    let Some(parent) = node.parent() else {
        return Err(TomlEditError::nowhere(Cause::NotFound));
    };
    let start = node.index();
    // No node has so many children that there is no next index.
    let Some(end) = start.checked_add(1) else {
        return Err(TomlEditError::Failed(Fault::Memory));
    };
    let new = vec![in alloc; GreenElement::from(piece)]?;
    Ok(Splice {
        parent,
        start,
        end,
        new,
    })
}

/// Whether a value is a table or an array that headers or dotted keys make.
fn is_table(value: ValueRef<'_>) -> bool {
    value.made() != Made::Value && matches!(value.value(), Value::Table(_) | Value::Array(_))
}

/// The tree with another key in each place in which one is written.
pub(crate) fn renamed(
    maker: Maker<'_>,
    values: &Values,
    root: Node<'_>,
    path: &Path,
    key: &str,
) -> Result<Edited, TomlEditError>
    ensures { IfOk result (IsRenamed (node_place root.entry).root) }
{
    let new = new_name(maker, key)?;
    let ranges = named(values, path, key)?.key_ranges(maker.alloc)?;
    let splices = keys_at(maker.alloc, root, &ranges, &new)?;
    made(maker.alloc, root, splices)
}

/// Another key, in each place in which one is written.
pub(crate) fn key_splices<'tree>(
    maker: Maker<'_>,
    values: &Values,
    root: Node<'tree>,
    path: &Path,
    key: &str,
) -> Result<Vec<Splice<'tree>>, TomlEditError> {
    let new = new_name(maker, key)?;
    let ranges = named(values, path, key)?.key_ranges(maker.alloc)?;
    keys_at(maker.alloc, root, &ranges, &new)
}

/// The part of a key that a decoded key is written as.
fn new_name(maker: Maker<'_>, key: &str) -> Result<GreenNode, TomlEditError> {
    let step = Step::Key(String::from_str(maker.alloc, key)?);
    let text = key_text(maker.alloc, &[step])?;
    maker.key_part(&text)
}

/// A node in the place of the parts of keys at some ranges.
fn keys_at<'tree>(
    alloc: Global,
    root: Node<'tree>,
    ranges: &[TextRange],
    new: &GreenNode,
) -> Result<Vec<Splice<'tree>>, TomlEditError>
    ensures { IfOk result (λ splices. AllByRecursion (PutsThis new.now) splices.items) }
{
    let mut splices = Vec::new(alloc);
    for range in ranges {
        if let Some(part) = key_part_at(root, *range) {
            splices.push(in_place(alloc, part, new.clone()?)?)?;
        }
    }
    Ok(splices)
}

/// What a path leads to, if it may get another key.
fn named<'a>(values: &'a Values, path: &Path, key: &str) -> Result<ValueRef<'a>, TomlEditError> {
    let way = way_of(values, path);
    if way.steps != path.steps.len() {
        return Err(refused(Cause::NotFound, way.value));
    }
    let Some(Step::Key(_)) = path.steps.as_slice().last() else {
        return Err(refused(Cause::NotTable, way.value));
    };
    match sibling(values, path, key) {
        Some(other) if other.place != way.value.place => Err(TomlEditError::Refused(
            Cause::KeyExists,
            other.key_range(),
        )),
        _ => Ok(way.value),
    }
}

/// The value of another key in the table to whose value a path leads.
fn sibling<'a>(values: &'a Values, path: &Path, key: &str) -> Option<ValueRef<'a>> {
    let mut table = values.root();
    let (above, _) = path
        .steps
        .as_slice()
        .split_at(path.steps.len().saturating_sub(1));
    for step in above {
        table = value_behind(table, step)?;
    }
    match table.value() {
        Value::Table(table) => table.get(key),
        _ => None,
    }
}

/// A comment in the place of those of what a path leads to.
pub(crate) fn comment_at<'tree>(
    alloc: Global,
    values: &Values,
    root: Node<'tree>,
    path: &Path,
    side: Side,
    text: Option<&str>,
) -> Result<Splice<'tree>, TomlEditError> {
    match owner_of(values, root, path) {
        Ok(owner) => comment_splices(alloc, owner, side, text, line_end_of(root)),
        Err(error) => Err(error),
    }
}

/// The entry or the table to which comments belong of what a path leads to.
pub(crate) fn owner_of<'tree>(
    values: &Values,
    root: Node<'tree>,
    path: &Path,
) -> Result<Node<'tree>, TomlEditError> {
    let way = way_of(values, path);
    if way.steps != path.steps.len() {
        return Err(refused(Cause::NotFound, way.value));
    }
    let owner = match (way.value.made(), path.steps.as_slice().last()) {
        (_, None) | (Made::OnTheWay, _) => None,
        (Made::Header, Some(Step::Index(_))) => section_at(root, way.value.range()),
        (_, Some(Step::Index(_))) => None,
        (_, Some(Step::Key(_))) => owner_at(root, way.value.key_range()),
    };
    match owner {
        Some(owner) if is_in_line(owner) => Ok(owner),
        _ => Err(refused(Cause::BadComment, way.value)),
    }
}

/// Whether an entry or a table has a line of its own.
fn is_in_line(owner: Node<'_>) -> bool {
    owner
        .parent()
        .is_some_and(|parent| parent.kind() != Kind::InlineTable)
}
