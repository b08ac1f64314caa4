//! Several edits of one document, which see each other.
use crate::adding::{Addition, inserted, new_key, pushed};
use crate::edit::Edit;
use crate::removing::{dropped_at, dropped_splices, place_key};
use crate::replacing::{comment_at, key_splices, put_at};
use crate::ways::way_of;
use indexmap::IndexMap;
use rowan::GreenNode;
use std::alloc::Global;
use toml_document::Values;
use toml_edit_plan::{Cause, Maker, NewValue, Node, Place, Splice, TomlEditError, added};
use toml_path::{Path, Step};
use toml_syntax::Kind;

/// Edits that were planned.
#[derive(Drop)]
pub(crate) struct Batch<'p, 'tree> {
    maker: Maker<'p>,
    root: Node<'tree>,
    splices: Vec<Splice<'tree>>,
    additions: Vec<Addition<'tree>>,
    dropped: Vec<Node<'tree>>,
    /// The paths of new keys and of new tables, and whether they are of keys with a value.
    new: IndexMap<String, bool>,
    /// The places of additions with a header among all of them.
    headers: IndexMap<String, usize>,
}

/// Where an addition goes, in the order in which they are made.
type Key = (u32, u16, usize);

fn key_of(place: Place<'_>) -> Key {
    match place {
        Place::Item(list, at) => with_number(place_key(list), at),
        Place::Entry(section) => with_number(place_key(section), 0),
        Place::Above(section) => with_number(place_key(section), 1),
        Place::Below(section) => with_number(place_key(section), 2),
        Place::End(_) => (u32::MAX, 0, 0),
    }
}

fn with_number(key: (u32, u16), number: usize) -> Key {
    (key.0, key.1, number)
}

impl<'p, 'tree> Batch<'p, 'tree> {
    pub(crate) fn new(maker: Maker<'p>, root: Node<'tree>) -> Batch<'p, 'tree> {
        let alloc = maker.alloc;
        Batch {
            maker,
            root,
            splices: Vec::new(alloc),
            additions: Vec::new(alloc),
            dropped: Vec::new(alloc),
            new: IndexMap::new(alloc),
            headers: IndexMap::new(alloc),
        }
    }

    /// Plans one more edit.
    pub(crate) fn add(&mut self, values: &Values, edit: Edit<'_>) -> Result<(), TomlEditError> {
        match edit {
            Edit::Set(path, value) => self.set(values, path, value),
            Edit::Push(path, value) => {
                let addition = pushed(self.maker, values, self.root, path, value)?;
                self.addition(addition)
            }
            Edit::Insert(path, index, value) => {
                let addition = inserted(self.maker, values, self.root, path, index, value)?;
                self.addition(addition)
            }
            Edit::Remove(path) => {
                let mut nodes = dropped_at(self.maker, values, self.root, path)?;
                Ok(self.dropped.append(&mut nodes)?)
            }
            Edit::Rename(path, key) => self.rename(values, path, key),
            Edit::Comment(path, side, text) => {
                let alloc = self.maker.alloc;
                let splice = comment_at(alloc, values, self.root, path, side, text)?;
                Ok(self.splices.push(splice)?)
            }
        }
    }

    fn set(
        &mut self,
        values: &Values,
        path: &Path,
        value: NewValue<'_>,
    ) -> Result<(), TomlEditError> {
        let way = way_of(values, path);
        if way.steps == path.steps.len() {
            let splice = put_at(self.maker, self.root, way.value, value)?;
            return Ok(self.splices.push(splice)?);
        }
        let addition = new_key(self.maker, self.root, way, path, value)?;
        self.claim(path.steps.as_slice(), way.steps)?;
        self.addition(addition)
    }

    fn rename(&mut self, values: &Values, path: &Path, key: &str) -> Result<(), TomlEditError> {
        let mut splices = key_splices(self.maker, values, self.root, path, key)?;
        self.splices.append(&mut splices)?;
        let above = path.steps.len().saturating_sub(1);
        let mut text = String::new(self.maker.alloc);
        for step in path.steps.iter().take(above) {
            push_step(&mut text, step)?;
        }
        push_key(&mut text, key)?;
        self.claim_text(text, true)
    }

    /// Notes a new key and the new tables above it.
    fn claim(&mut self, steps: &[Step], known: usize) -> Result<(), TomlEditError> {
        let mut text = String::new(self.maker.alloc);
        let mut count: usize = 0;
        for step in steps {
            push_step(&mut text, step)?;
            count = count.saturating_add(1);
            if count > known {
                self.claim_text(text.clone()?, count == steps.len())?;
            }
        }
        Ok(())
    }

    fn claim_text(&mut self, text: String, is_value: bool) -> Result<(), TomlEditError> {
        let Some(known) = self.new.get(text.as_str()).copied() else {
            self.new.insert(text, is_value)?;
            return Ok(());
        };
        match known || is_value {
            true => Err(TomlEditError::nowhere(Cause::Conflict)),
            false => Ok(()),
        }
    }

    /// Plans an addition. One to a new table that is planned already goes into that.
    fn addition(&mut self, addition: Addition<'tree>) -> Result<(), TomlEditError> {
        let number = self.additions.len();
        let (offset, kind, _) = key_of(addition.place);
        if let Some(header) = &addition.header {
            if !header.starts_with("[[") {
                let name = format!(in self.maker.alloc; "{offset} {kind} {header}")?;
                if let Some(place) = self.headers.get(name.as_str()).copied() {
                    return self.add_text(place, &addition.text);
                }
                self.headers.insert(name, number)?;
            }
        }
        Ok(self.additions.push(addition)?)
    }

    fn add_text(&mut self, place: usize, text: &str) -> Result<(), TomlEditError> {
        if let Some(addition) = self.additions.get_mut(place) {
            addition.text.push_str(text)?;
        }
        Ok(())
    }

    /// All splices.
    pub(crate) fn splices(self) -> Result<Vec<Splice<'tree>>, TomlEditError> {
        let Batch {
            maker,
            root,
            mut splices,
            mut additions,
            dropped,
            new: _,
            headers: _,
        } = self;
        additions.sort_by_key(|addition: &Addition<'_>| key_of(addition.place))?;
        add_all(maker, root, &additions, &mut splices)?;
        let has_conflict = have_one_list(maker.alloc, &additions, &dropped)?;
        if has_conflict {
            return Err(TomlEditError::nowhere(Cause::Conflict));
        }
        splices.append(&mut dropped_splices(maker.alloc, &dropped)?)?;
        Ok(splices)
    }
}

/// Adds the splices of all additions, those at one place together.
fn add_all<'tree>(
    maker: Maker<'_>,
    root: Node<'tree>,
    additions: &[Addition<'tree>],
    splices: &mut Vec<Splice<'tree>>,
) -> Result<(), TomlEditError> {
    let mut last: Option<Key> = None;
    for (index, addition) in additions.iter().enumerate() {
        let key = key_of(addition.place);
        if last == Some(key) {
            continue;
        }
        last = Some(key);
        let (_, rest) = additions.split_at(index);
        let pieces = pieces_at(maker, rest, key)?;
        let place = match addition.place {
            Place::End(_) => Place::End(has_end(root, splices)),
            place => place,
        };
        splices.append(&mut added(maker.alloc, root, place, pieces)?)?;
    }
    Ok(())
}

/// Whether something was put to the end of the document.
fn has_end(root: Node<'_>, splices: &[Splice<'_>]) -> bool {
    let count = root.green().children().len();
    splices.iter().any(|splice| splice.start == count && splice.parent.kind() == Kind::Document)
}

/// The nodes of the first additions, as far as they go to one place.
fn pieces_at(
    maker: Maker<'_>,
    additions: &[Addition<'_>],
    key: Key,
) -> Result<Vec<GreenNode>, TomlEditError> {
    let mut pieces = Vec::new(maker.alloc);
    for addition in additions {
        if key_of(addition.place) != key {
            break;
        }
        pieces.push(addition.piece(maker)?)?;
    }
    Ok(pieces)
}

/// Whether elements come to a list of which others are taken away.
fn have_one_list(
    alloc: Global,
    additions: &[Addition<'_>],
    dropped: &[Node<'_>],
) -> Result<bool, TomlEditError> {
    let mut lists: IndexMap<(u32, u16), ()> = IndexMap::new(alloc);
    for addition in additions {
        if let Place::Item(list, _) = addition.place {
            lists.insert(place_key(list), ())?;
        }
    }
    for node in dropped {
        if let Some(parent) = node.parent() {
            if lists.contains_key(&place_key(parent)) {
                return Ok(true);
            }
        }
    }
    Ok(false)
}

/// Adds a step to the text of a path, each key in quotes.
fn push_step(text: &mut String, step: &Step) -> Result<(), TomlEditError> {
    match step {
        Step::Key(key) => push_key(text, key.as_str()),
        Step::Index(index) => {
            text.push_str(&format!(in *text.allocator(); "[{index}]")?)?;
            Ok(())
        }
    }
}

fn push_key(text: &mut String, key: &str) -> Result<(), TomlEditError> {
    toml_document::push_quoted(text, key)?;
    Ok(())
}
