//! Documents, and their edits one by one.
ghost use Rattle.std.specs.Prelude.{◌≡◌, ℕ, List, [], IfOk};
ghost use Rattle.rowan.specs.Refs.{node_place};
ghost use Rattle.rowan.specs.Term.{node_text};
ghost use Rattle.toml_edit.specs.Additions.{addition_text};
ghost use Rattle.toml_edit.specs.Edits.{IsGrown, IsRenamed, IsSet, IsSetAnew, IsShrunk, IsSpliced};

use crate::adding::{Addition, inserted, new_key, pushed};
use crate::batch::Batch;
use crate::edit::Edit;
use crate::removing::{dropped_at, dropped_splices};
use crate::replacing::{comment_at, owner_of, renamed, replaced};
use crate::ways::way_of;
use rowan::{Fault, GreenNode, SyntaxNode};
use rowan_edit::Edited;
use std::alloc::Global;
use toml_document::{Reading, Values, read};
use toml_edit_plan::{
    Maker, NewValue, Node, Side, Splice, TomlEditError, added, comments_of, made,
};
use toml_path::Path;
use toml_syntax::Toml;

/// A document of TOML: its tree, and its values with their places. Edits leave it as it is, and answer
/// the new tree.
#[derive(Drop)]
pub struct Document<'p> {
    pub maker: Maker<'p>,
    pub green: GreenNode,
    pub values: Values,
    /// Whether nothing is wrong with it. Else edits go by what could be read.
    pub is_right: bool,
}

impl<'p> Document<'p> {
    /// The document of a text.
    ///
    /// Errors: `TextTooLong` past 4,294,967,295 bytes; `TooManyChildren` past as many children of a
    /// node; `Memory` if an allocation failed.
    pub fn parse(maker: Maker<'p>, text: &str) -> Result<Document<'p>, Fault>
        ensures { IfOk result (λ d. node_text d.green ≡ text.now) }
    {
        let parse = maker.parser.parse(maker.alloc, text)?;
        let has_errors = !parse.errors.is_empty();
        Document::read(maker, parse.green, has_errors)
    }

    /// The document of a tree, as an edit answers one.
    ///
    /// Errors: `Memory` if an allocation failed.
    pub fn new(maker: Maker<'p>, green: GreenNode) -> Result<Document<'p>, Fault>
        ensures { IfOk result (λ d. d.green ≡ green) }
    {
        Document::read(maker, green, false)
    }

    fn read(maker: Maker<'p>, green: GreenNode, has_errors: bool) -> Result<Document<'p>, Fault>
        ensures { IfOk result (λ d. d.green ≡ green) }
    {
        let root = root_of(maker.alloc, &green)?;
        let Reading { values, problems } = read(maker.alloc, root.as_ref(), maker.version)?;
        let is_right = !has_errors && problems.is_empty();
        Ok(Document {
            maker,
            green,
            values,
            is_right,
        })
    }

    /// Gives the key or the element at a path a value. Where the key is there, its value is replaced;
    /// else the key comes to the end of its table, and where there is none, a table to the end of the
    /// text.
    ///
    /// Errors: `Refused` with `IsTable` of a table or an array of tables that headers or dotted keys
    /// make; `NotTable` and `NotArray` where the path goes on from what is none; `NoElement` of an
    /// element that is not there; `BadValue` where the text is not one value. `Failed` where the new
    /// tree would pass a limit or an allocation failed.
    pub fn set(&self, path: &Path, value: NewValue<'_>) -> Result<Edited, TomlEditError>
        ensures { IfOk result (IsSet self.now.green self.now.values path.now value.entry) }
    {
        let root = root_of(self.maker.alloc, &self.green)?;
        match self.values.find(path) {
            Some(found) => replaced(self.maker, root.as_ref(), found, value),
            None => self.with_new_key(root.as_ref(), path, value),
        }
    }

    /// A new key.
    fn with_new_key(
        &self,
        root: Node<'_>,
        path: &Path,
        value: NewValue<'_>,
    ) -> Result<Edited, TomlEditError>
        ensures { IfOk result (IsSetAnew (node_place root.entry).root value.entry) }
    {
        let way = way_of(&self.values, path);
        let addition = new_key(self.maker, root, way, path, value)?;
        grown(self.maker, root, &addition)
    }

    /// Puts a value behind the last element of an array, or a table behind that of an array of tables.
    ///
    /// Errors: `Refused` with `NotFound` where the path leads to nothing, `NotArray` where it leads to
    /// something else, `BadValue` where the text is not one value, or no table for an array of tables;
    /// `Failed` as `set`.
    pub fn push(&self, path: &Path, value: NewValue<'_>) -> Result<Edited, TomlEditError>
        ensures { IfOk result (λ e. (text : List ℕ) × IsGrown self.now.green text e) }
    {
        let root = root_of(self.maker.alloc, &self.green)?;
        let addition = pushed(self.maker, &self.values, root.as_ref(), path, value)?;
        grown(self.maker, root.as_ref(), &addition)
    }

    /// Puts a value before the element of an array with an index, or behind the last one.
    ///
    /// Errors: `Refused` with `NoElement` past the last element, and else as `push`.
    pub fn insert(
        &self,
        path: &Path,
        index: usize,
        value: NewValue<'_>,
    ) -> Result<Edited, TomlEditError>
        ensures { IfOk result (λ e. (text : List ℕ) × IsGrown self.now.green text e) }
    {
        let root = root_of(self.maker.alloc, &self.green)?;
        let addition = inserted(self.maker, &self.values, root.as_ref(), path, index, value)?;
        grown(self.maker, root.as_ref(), &addition)
    }

    /// Takes an entry away with its line and its comments, an element with a comma, or a table with all
    /// of its headers, entries and dotted keys.
    ///
    /// Errors: `Refused` with `NotFound` where the path leads to nothing, or to the document; `Failed`
    /// as `set`.
    pub fn remove(&self, path: &Path) -> Result<Edited, TomlEditError>
        ensures { IfOk result (IsShrunk self.now.green) }
    {
        let alloc = self.maker.alloc;
        let root = root_of(alloc, &self.green)?;
        let nodes = dropped_at(self.maker, &self.values, root.as_ref(), path)?;
        let splices = dropped_splices(alloc, &nodes)?;
        made(alloc, root.as_ref(), splices)
    }

    /// Gives what a path leads to another key, in each place in which its key is written. The new key is
    /// decoded: quotes are put where it needs them.
    ///
    /// Errors: `Refused` with `NotFound` where the path leads to nothing, `NotTable` of an element of
    /// an array, `KeyExists` where the table has the new key; `Failed` as `set`.
    pub fn rename(&self, path: &Path, key: &str) -> Result<Edited, TomlEditError>
        ensures { IfOk result (IsRenamed self.now.green) }
    {
        let root = root_of(self.maker.alloc, &self.green)?;
        renamed(self.maker, &self.values, root.as_ref(), path, key)
    }

    /// Puts a comment in the place of those above or behind what a path leads to. The text is without
    /// `#`; `None` takes them away.
    ///
    /// Errors: `Refused` with `NotFound` where the path leads to nothing, and `BadComment` where it
    /// leads to what is in brackets or has no place of its own, and of a text with a line end or
    /// another control character; `Failed` as `set`.
    pub fn set_comment(
        &self,
        path: &Path,
        side: Side,
        text: Option<&str>,
    ) -> Result<Edited, TomlEditError>
        ensures { IfOk result (IsSpliced self.now.green) }
    {
        let alloc = self.maker.alloc;
        let root = root_of(alloc, &self.green)?;
        let splice = comment_at(alloc, &self.values, root.as_ref(), path, side, text)?;
        made(alloc, root.as_ref(), vec![in alloc; splice]?)
    }

    /// The comments above or behind what a path leads to, each without its `#` and the blank behind it.
    ///
    /// Errors: as `set_comment`.
    pub fn comments(&self, path: &Path, side: Side) -> Result<Vec<String>, TomlEditError> {
        let root = root_of(self.maker.alloc, &self.green)?;
        match owner_of(&self.values, root.as_ref(), path) {
            Ok(owner) => comments_of(self.maker.alloc, owner, side),
            Err(error) => Err(error),
        }
    }

    /// Makes several edits together. All paths are those of this document, whatever else is edited. New
    /// keys and elements at one place come in the order of the list.
    ///
    /// Errors: as those of each edit; and `Refused` with `Conflict` where two of them don't go
    /// together, as two values of one key.
    pub fn edit(&self, edits: &[Edit<'_>]) -> Result<Edited, TomlEditError>
        ensures { IfOk result (IsSpliced self.now.green) }
    {
        let alloc = self.maker.alloc;
        let root = root_of(alloc, &self.green)?;
        let splices = self.all_splices(root.as_ref(), edits)?;
        made(alloc, root.as_ref(), splices)
    }

    fn all_splices<'tree>(
        &self,
        root: Node<'tree>,
        edits: &[Edit<'_>],
    ) -> Result<Vec<Splice<'tree>>, TomlEditError> {
        let mut batch = Batch::new(self.maker, root);
        for edit in edits {
            batch.add(&self.values, *edit)?;
        }
        batch.splices()
    }
}

/// A new node.
fn grown(maker: Maker<'_>, root: Node<'_>, addition: &Addition<'_>) -> Result<Edited, TomlEditError>
    ensures { IfOk result (IsGrown (node_place root.entry).root (addition_text addition.now)) }
{
    let piece = addition.piece(maker)?;
    let pieces = vec![in maker.alloc; piece]?;
    let splices = added(maker.alloc, root, addition.place, pieces)?;
    made(maker.alloc, root, splices)
}

/// The cursor at the root of a tree.
fn root_of(alloc: Global, green: &GreenNode) -> Result<SyntaxNode<Toml>, Fault>
    ensures { IfOk result (λ n. n ≡ record { root = green.now; path = [] }) }
{
    SyntaxNode::new_root(alloc, green.clone()?)
}
