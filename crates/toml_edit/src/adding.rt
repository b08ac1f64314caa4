//! New keys and elements: where they go, and their texts.
ghost use Rattle.std.specs.Prelude.{◌≡◌, ◌++◌, IfOk, string_bytes};
ghost use Rattle.rowan.specs.Term.{node_text};
ghost use Rattle.toml_edit.specs.Additions.{addition_text};
ghost use Rattle.toml_edit.specs.Holding.{Holds, HoldsValue};
ghost use Rattle.toml_edit_plan.specs.Written.{IsTextOf};

use crate::ways::{Way, way_of};
use rowan::{GreenNode, SyntaxNode, TextRange};
use std::alloc::Global;
use toml_document::{Made, Value, ValueRef, Values};
use toml_edit_plan::{
    Cause, Maker, NewValue, Node, Place, TomlEditError, key_part_at, key_text, line_end_of,
    owner_at, section_at, value_at, value_text,
};
use toml_path::{Path, Step};
use toml_syntax::{Kind, Toml};

/// A new node: where it goes, and its text.
#[derive(Drop)]
pub(crate) struct Addition<'tree> {
    pub(crate) place: Place<'tree>,
    /// The header of a new table with its line end, without one of an entry or a value.
    pub(crate) header: Option<String>,
    pub(crate) text: String,
}

impl Addition<'_> {
    /// The new node.
    pub(crate) fn piece(&self, maker: Maker<'_>) -> Result<GreenNode, TomlEditError>
        ensures { IfOk result (λ n. node_text n ≡ addition_text self.now) }
    {
        match &self.header {
            Some(header) => section_of(maker, header, &self.text),
            None => entry_or_value(maker, self.place, &self.text),
        }
    }
}

fn section_of(maker: Maker<'_>, header: &str, text: &str) -> Result<GreenNode, TomlEditError>
    ensures { IfOk result (λ n. node_text n ≡ header.now ++ text.now) }
{
    let all = format!(in maker.alloc; "{header}{text}")?;
    maker.section(&all)
}

fn entry_or_value(
    maker: Maker<'_>,
    place: Place<'_>,
    text: &str,
) -> Result<GreenNode, TomlEditError>
    ensures { IfOk result (λ n. node_text n ≡ text.now) }
{
    match place {
        Place::Item(list, _) if list.kind() == Kind::Array => maker.value(text),
        _ => maker.entry(text),
    }
}

/// A refusal where a value stands.
pub(crate) fn refused(cause: Cause, value: ValueRef<'_>) -> TomlEditError {
    TomlEditError::Refused(cause, value.range())
}

/// The text of a new value, which is tried.
pub(crate) fn tried(maker: Maker<'_>, value: NewValue<'_>) -> Result<String, TomlEditError>
    ensures { IfOk result (λ text. IsTextOf value.entry (string_bytes text)) }
{
    let text = value_text(maker.alloc, value)?;
    maker.value(&text)?;
    Ok(text)
}

/// A new key, behind the last value to which its path leads.
pub(crate) fn new_key<'tree>(
    maker: Maker<'_>,
    root: Node<'tree>,
    way: Way<'_>,
    path: &Path,
    value: NewValue<'_>,
) -> Result<Addition<'tree>, TomlEditError>
    ensures { IfOk result (λ a. HoldsValue value.entry (string_bytes a.text)) }
{
    let steps = path.steps.as_slice();
    let (known, rest) = steps.split_at(way.steps.min(steps.len()));
    if let Some(cause) = why_no_key(way.value, rest) {
        return Err(refused(cause, way.value));
    }
    let text = tried(maker, value)?;
    placed(maker, root, way.value, known, rest, text.as_str())
}

/// A new key with the text of its value: from the value to which the known steps lead, the rest of
/// the path goes on.
fn placed<'tree>(
    maker: Maker<'_>,
    root: Node<'tree>,
    table: ValueRef<'_>,
    known: &[Step],
    rest: &[Step],
    value: &str,
) -> Result<Addition<'tree>, TomlEditError>
    ensures { IfOk result (λ a. Holds (string_bytes a.text) value.now) }
{
    match table.made() {
        Made::Value => member(maker, root, table, rest, value),
        Made::Dotted => dotted(maker, root, table, rest, value),
        made if rest.len() == 1 || known.iter().any(|step| is_index(step)) => match made {
            Made::Header => entry(maker, root, table, rest, value),
            _ => table_above(maker, root, table, known, rest, value),
        },
        _ => table_at_end(maker, root, known, rest, value),
    }
}

fn is_index(step: &Step) -> bool {
    matches!(step, Step::Index(_))
}

/// Why what is left of a path can make no new key, if it can't.
fn why_no_key(value: ValueRef<'_>, rest: &[Step]) -> Option<Cause> {
    match (value.value(), rest.first()) {
        (Value::Array(_), Some(Step::Index(_))) => Some(Cause::NoElement),
        (_, Some(Step::Index(_))) => Some(Cause::NotArray),
        (Value::Table(_), _) if rest.iter().any(|step| is_index(step)) => Some(Cause::NoElement),
        (Value::Table(_), _) => None,
        _ => Some(Cause::NotTable),
    }
}

/// The text of an entry.
fn entry_text(
    alloc: Global,
    before: &str,
    rest: &[Step],
    value: &str,
    line_end: &str,
) -> Result<String, TomlEditError>
    ensures { IfOk result (λ text. Holds (string_bytes text) value.now) }
{
    let key = key_text(alloc, rest)?;
    let start = format!(in alloc; "{before}{key} = ")?;
    joined(start, value, line_end)
}

/// A text with two more behind it.
fn joined(start: String, value: &str, line_end: &str) -> Result<String, TomlEditError>
    ensures { IfOk result (λ text. Holds (string_bytes text) value.now) }
{
    let mut text = start;
    text.push_str(value)?;
    text.push_str(line_end)?;
    Ok(text)
}

/// A new entry of an inline table.
fn member<'tree>(
    maker: Maker<'_>,
    root: Node<'tree>,
    table: ValueRef<'_>,
    rest: &[Step],
    value: &str,
) -> Result<Addition<'tree>, TomlEditError>
    ensures { IfOk result (λ a. Holds (string_bytes a.text) value.now) }
{
    let Some(list) = value_at(root, table.range()) else {
        return Err(refused(Cause::NotFound, table));
    };
    let text = entry_text(maker.alloc, "", rest, value, "")?;
    Ok(Addition {
        place: Place::Item(list, usize::MAX),
        header: None,
        text,
    })
}

/// A new entry of a table with a header, or of the document.
fn entry<'tree>(
    maker: Maker<'_>,
    root: Node<'tree>,
    table: ValueRef<'_>,
    rest: &[Step],
    value: &str,
) -> Result<Addition<'tree>, TomlEditError>
    ensures { IfOk result (λ a. Holds (string_bytes a.text) value.now) }
{
    let section = match table.place {
        0 => root,
        _ => section_at(root, table.range()).unwrap_or(root),
    };
    let text = entry_text(maker.alloc, "", rest, value, line_end_of(root))?;
    Ok(Addition {
        place: Place::Entry(section),
        header: None,
        text,
    })
}

/// A new entry of a table that dotted keys make: its key begins as the last of these.
fn dotted<'tree>(
    maker: Maker<'_>,
    root: Node<'tree>,
    table: ValueRef<'_>,
    rest: &[Step],
    value: &str,
) -> Result<Addition<'tree>, TomlEditError>
    ensures { IfOk result (λ a. Holds (string_bytes a.text) value.now) }
{
    let alloc = maker.alloc;
    let ranges = table.key_ranges(alloc)?;
    let part = ranges
        .as_slice()
        .first()
        .and_then(|range| key_part_at(root, *range));
    let Some(part) = part else {
        return Err(refused(Cause::NotFound, table));
    };
    let before = prefix(alloc, part)?;
    match section_around(part) {
        Some(list) if list.kind() == Kind::InlineTable => Ok(Addition {
            place: Place::Item(list, usize::MAX),
            header: None,
            text: entry_text(alloc, &before, rest, value, "")?,
        }),
        Some(section) => Ok(Addition {
            place: Place::Entry(section),
            header: None,
            text: entry_text(alloc, &before, rest, value, line_end_of(root))?,
        }),
        None => Err(refused(Cause::NotFound, table)),
    }
}

/// What the entry is in whose key a part stands.
fn section_around<'tree>(part: Node<'tree>) -> Option<Node<'tree>> {
    part.parent()?.parent()?.parent()
}

/// The text of a key up to a part, with a dot behind it.
fn prefix(alloc: Global, part: Node<'_>) -> Result<String, TomlEditError> {
    let mut text = String::new(alloc);
    if let Some(key) = part.parent() {
        for index in 0..part.index() {
            if let Some(child) = key.child_or_token_at_index(index) {
                text.push_str(&format!(in alloc; "{child}")?)?;
            }
        }
    }
    text.push_str(&format!(in alloc; "{part}.")?)?;
    Ok(text)
}

/// A new table with a header above the first of those that lead through it.
fn table_above<'tree>(
    maker: Maker<'_>,
    root: Node<'tree>,
    table: ValueRef<'_>,
    known: &[Step],
    rest: &[Step],
    value: &str,
) -> Result<Addition<'tree>, TomlEditError>
    ensures { IfOk result (λ a. Holds (string_bytes a.text) value.now) }
{
    let Some(section) = section_at(root, table.key_range()) else {
        return Err(refused(Cause::NotFound, table));
    };
    let line_end = line_end_of(root);
    let key = key_text(maker.alloc, known)?;
    let header = format!(in maker.alloc; "[{key}]{line_end}")?;
    Ok(Addition {
        place: Place::Above(section),
        header: Some(header),
        text: entry_text(maker.alloc, "", rest, value, line_end)?,
    })
}

/// A new table at the end of the document.
fn table_at_end<'tree>(
    maker: Maker<'_>,
    root: Node<'tree>,
    known: &[Step],
    rest: &[Step],
    value: &str,
) -> Result<Addition<'tree>, TomlEditError>
    ensures { IfOk result (λ a. Holds (string_bytes a.text) value.now) }
{
    let line_end = line_end_of(root);
    let (above, last) = rest.split_at(rest.len().saturating_sub(1));
    let key = header_key(maker.alloc, known, above)?;
    let header = format!(in maker.alloc; "[{key}]{line_end}")?;
    Ok(Addition {
        place: Place::End(false),
        header: Some(header),
        text: entry_text(maker.alloc, "", last, value, line_end)?,
    })
}

/// The text of a dotted key of steps and of some more.
fn header_key(alloc: Global, known: &[Step], rest: &[Step]) -> Result<String, TomlEditError> {
    let known = key_text(alloc, known)?;
    let rest = key_text(alloc, rest)?;
    match known.is_empty() || rest.is_empty() {
        true => Ok(format!(in alloc; "{known}{rest}")?),
        false => Ok(format!(in alloc; "{known}.{rest}")?),
    }
}

/// A new last element of the array to which a path leads.
pub(crate) fn pushed<'tree>(
    maker: Maker<'_>,
    values: &Values,
    root: Node<'tree>,
    path: &Path,
    value: NewValue<'_>,
) -> Result<Addition<'tree>, TomlEditError> {
    let way = way_of(values, path);
    if way.steps != path.steps.len() {
        return Err(refused(Cause::NotFound, way.value));
    }
    match way.value.value() {
        Value::Array(array) => element(maker, root, way.value, path, array.len(), value),
        _ => Err(refused(Cause::NotArray, way.value)),
    }
}

/// A new element of the array to which a path leads, before the one with an index.
pub(crate) fn inserted<'tree>(
    maker: Maker<'_>,
    values: &Values,
    root: Node<'tree>,
    path: &Path,
    index: usize,
    value: NewValue<'_>,
) -> Result<Addition<'tree>, TomlEditError> {
    let way = way_of(values, path);
    if way.steps != path.steps.len() {
        return Err(refused(Cause::NotFound, way.value));
    }
    match way.value.value() {
        Value::Array(array) if index > array.len() => Err(refused(Cause::NoElement, way.value)),
        Value::Array(_) => element(maker, root, way.value, path, index, value),
        _ => Err(refused(Cause::NotArray, way.value)),
    }
}

fn element<'tree>(
    maker: Maker<'_>,
    root: Node<'tree>,
    array: ValueRef<'_>,
    path: &Path,
    index: usize,
    value: NewValue<'_>,
) -> Result<Addition<'tree>, TomlEditError> {
    let text = tried(maker, value)?;
    if array.made() != Made::Value {
        return table_of(maker, root, array, path, index, &text);
    }
    let Some(list) = value_at(root, array.range()) else {
        return Err(refused(Cause::NotFound, array));
    };
    Ok(Addition {
        place: Place::Item(list, index),
        header: None,
        text,
    })
}

/// A new element of an array of tables.
fn table_of<'tree>(
    maker: Maker<'_>,
    root: Node<'tree>,
    array: ValueRef<'_>,
    path: &Path,
    index: usize,
    value: &str,
) -> Result<Addition<'tree>, TomlEditError> {
    let line_end = line_end_of(root);
    let Some(text) = lines_of(maker, value, line_end)? else {
        return Err(refused(Cause::BadValue, array));
    };
    let ranges = array.key_ranges(maker.alloc)?;
    let Some(place) = place_in_tables(root, array, index, &ranges) else {
        return Err(refused(Cause::NotFound, array));
    };
    let key = key_text(maker.alloc, path.steps.as_slice())?;
    let header = format!(in maker.alloc; "[[{key}]]{line_end}")?;
    Ok(Addition {
        place,
        header: Some(header),
        text,
    })
}

/// Where the table with an index goes: above the one that has the index, or below all of them. The
/// ranges are those of the keys that lead to the array, the last one first.
fn place_in_tables<'tree>(
    root: Node<'tree>,
    array: ValueRef<'_>,
    index: usize,
    ranges: &[TextRange],
) -> Option<Place<'tree>> {
    let next = match array.value() {
        Value::Array(tables) => tables.at(index),
        _ => None,
    };
    match next {
        Some(next) => Some(Place::Above(section_at(root, next.range())?)),
        None => Some(Place::Below(owner_at(root, *ranges.first()?)?)),
    }
}

/// The entries of an inline table as lines, or `None` of another value.
fn lines_of(
    maker: Maker<'_>,
    value: &str,
    line_end: &str,
) -> Result<Option<String>, TomlEditError> {
    let alloc = maker.alloc;
    let green = maker.value(value)?;
    let table: SyntaxNode<Toml> = SyntaxNode::new_root(alloc, green)?;
    let table = table.as_ref();
    if table.kind() != Kind::InlineTable {
        return Ok(None);
    }
    let mut lines = String::new(alloc);
    for entry in table.children() {
        lines.push_str(&format!(in alloc; "{entry}{line_end}")?)?;
    }
    Ok(Some(lines))
}
