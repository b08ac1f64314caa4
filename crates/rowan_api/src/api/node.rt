mod lists;
mod moves;
mod search;
mod walks;

ghost use Rattle.std.specs.Prelude.{◌≡◌, [], IfOk, IfErr, Some, string_bytes};
ghost use Rattle.std.specs.Option.{option_map};
ghost use Rattle.rowan_green.specs.declared.utility_types.NodeOrToken.TheVariants.{Node};
ghost use Rattle.serde_json.specs.View.{view};
ghost use Rattle.serde_json.specs.Written.{compact_text};
ghost use Rattle.rowan_table.specs.Cursor.{StandsAt, index, kind, text_range};
ghost use Rattle.rowan_table.specs.Replacement.{IsReplacement, KeepsTheRest, WhyNoReplacement};
ghost use Rattle.rowan_table.specs.SyntaxText.{whole_text};
ghost use Rattle.rowan_print.specs.Printed.{raw_name, tree_json, IsDebugLine, IsDebugTree};
ghost use Rattle.rowan_api.specs.Refs.{node_place};

use crate::api::{Language, SyntaxNodeRef};
use rowan_cursor::cursor;
use rowan_cursor::syntax_text::SyntaxText;
use rowan_green::fault::Fault;
use rowan_green::green::GreenNode;
use rowan_green::text::{TextRange, TextSize};
use rowan_print::{json_text, json_value, printed};
use serde_json::Value;
use std::alloc::{AllocError, Global};
use std::fmt;
use std::hash::{Hash, Hasher};
use std::marker::{Model, PhantomData};

/// A node in a tree of a language: a root, and the way from it to the node.
///
/// It is the raw node of `cursor`, and its calls answer as that one's do, with kinds by the
/// language. `From` turns each into the other. All cursors of one tree share it, and it lives as
/// long as one of them. A move asks for no memory, but its answer shares the tree once more. Where
/// the reference count of the tree is full it is refused, as `Err(Fault::Memory)`; an iterator
/// gives that as an item, and then ends. Two nodes are equal if they have equal green nodes and
/// their texts start at the same offset.
#[derive(Drop)]
pub struct SyntaxNode<L> {
    raw: cursor::SyntaxNode,
    language: PhantomData<L>,
}

impl<L> Model for SyntaxNode<L> {
    ghost use Rattle.rowan_table.specs.Cursor.{Cursor};
    ghost use Rattle.rowan_cursor.specs.CursorCode.{coded_cursor};

    ghost Value = { Cursor };

    ghost coded = { coded_cursor };

    ghost view = { λ n. n.raw };

    ghost inverse = { λ c. record { raw = c; language = record {} } };
}

impl<L> SyntaxNode<L> {
    // The node that a move of the raw cursor found, if it found one.
    pub(super) fn from_answer(raw: Option<cursor::SyntaxNode>) -> Option<SyntaxNode<L>>
        ensures { result ≡ raw }
    {
        match raw {
            Some(raw) => Some(SyntaxNode::from(raw)),
            None => None,
        }
    }

    /// The cursor at the root of a green tree. It visits each node and token once.
    /// `Err(Fault::Memory)` for want of memory, and where the tree has more than 4,294,967,295
    /// nodes and tokens.
    pub fn new_root(alloc: Global, green: GreenNode) -> Result<SyntaxNode<L>, Fault>
        ensures ok { IfOk result (λ n. n ≡ record { root = green; path = [] }) }
        ensures err { IfErr result (λ e. e ≡ Fault.Memory) }
    {
        Ok(SyntaxNode::from(cursor::SyntaxNode::new_root(alloc, green)?))
    }

    /// The node, borrowed from its tree: its moves cannot fail.
    pub fn as_ref(&self) -> SyntaxNodeRef<'_, L>
        ensures { node_place result ≡ self.now }
    {
        SyntaxNodeRef::from(self.raw.as_ref())
    }

    /// The root of a new tree, which has the green node of this one. It visits each node and token
    /// below this one once. `Err(Fault::Memory)` for want of memory.
    pub fn clone_subtree(&self) -> Result<SyntaxNode<L>, Fault>
        ensures ok { IfOk result (λ n. StandsAt self.now n.root) }
        ensures top { IfOk result (λ n. n.path ≡ []) }
        ensures err { IfErr result (λ e. e ≡ Fault.Memory) }
    {
        Ok(SyntaxNode::from(self.raw.clone_subtree()?))
    }

    /// The root of a new tree: of the tree of this cursor, with another green node in place of the
    /// one at this cursor. For each ancestor one new node is made, and all other children are
    /// shared. Nothing is changed in place: this tree and all its cursors answer as before. For a
    /// root it is the replacement itself.
    ///
    /// `Err(Fault::OtherKind)` where the replacement has another raw kind, also one that means the
    /// same kind of the language; this is looked at before all else. `Err(Fault::TextTooLong)`
    /// where a node of the new tree would have more than 4,294,967,295 bytes of text;
    /// `Err(Fault::Memory)` for want of memory.
    pub fn replace_with(&self, replacement: GreenNode) -> Result<GreenNode, Fault>
        ensures ok { IfOk result (IsReplacement self.now (Node replacement)) }
        ensures rest { IfOk result (KeepsTheRest self.now (Node replacement)) }
        ensures own { StandsAt self.now replacement → IfOk result (λ n. n ≡ self.now.root) }
        ensures err { IfErr result (WhyNoReplacement self.now (Node replacement)) }
    {
        self.raw.replace_with(replacement)
    }

    /// Where the node's text lies in the text of the root, in bytes.
    pub fn text_range(&self) -> TextRange
        ensures { result ≡ text_range self.now }
    {
        self.raw.text_range()
    }

    /// The place of the node among all children of its parent, tokens counted; 0 for a root.
    pub fn index(&self) -> usize
        ensures { result ≡ index self.now }
    {
        self.raw.index()
    }

    /// The green node at this place.
    pub fn green(&self) -> &GreenNode
        ensures { StandsAt self.now result.now }
    {
        self.raw.green()
    }

    /// The text of the node.
    pub fn text(&self) -> Result<SyntaxText, Fault>
        ensures ok { IfOk result (λ text. text ≡ whole_text self.now) }
        ensures err { IfErr result (λ e. e ≡ Fault.Memory) }
    {
        self.raw.text()
    }
}

impl<L: Language> SyntaxNode<L> {
    /// The kind of the node.
    pub fn kind(&self) -> L::Kind
        ensures { option_map L.meaning (kind self.now) ≡ Some result }
    {
        L::kind_from_raw(self.raw.kind())
    }

    /// The node as a line, `KIND@start..end`: the name of the kind, and the range with offsets in
    /// the root. `Err(Fault::Memory)` for want of memory.
    pub fn debug_line(&self, alloc: Global) -> Result<String, Fault>
        ensures ok { IfOk result (λ s.
            IsDebugLine (raw_name L.name L.meaning) self.now (string_bytes s)) }
        ensures err { IfErr result (λ e. e ≡ Fault.Memory) }
    {
        Ok(printed::node_line::<L>(alloc, self.raw.as_ref())?)
    }

    /// The node and all that is in it as text, a line for each node and token in the order of the
    /// source. A line has two spaces for each level below this node, what `debug_line` gives of the
    /// node or token, and a newline. `Err(Fault::Memory)` for want of memory.
    pub fn debug_tree(&self, alloc: Global) -> Result<String, Fault>
        ensures ok { IfOk result (λ s.
            IsDebugTree (raw_name L.name L.meaning) self.now (string_bytes s)) }
        ensures err { IfErr result (λ e. e ≡ Fault.Memory) }
    {
        Ok(printed::tree::<L>(alloc, self.green(), self.text_range())?)
    }

    /// The lines of a tree without a cursor: what `debug_tree` gives of a cursor at its root.
    /// `Err(Fault::Memory)` for want of memory.
    pub fn debug_tree_of(alloc: Global, root: &GreenNode) -> Result<String, Fault>
        ensures ok { IfOk result (λ s. IsDebugTree (raw_name L.name L.meaning)
            (record { root = root.now; path = [] }) (string_bytes s)) }
        ensures err { IfErr result (λ e. e ≡ Fault.Memory) }
    {
        let range = TextRange::at(TextSize::from(0), root.text_len());
        Ok(printed::tree::<L>(alloc, root, range)?)
    }

    /// The node and all that is in it as JSON. A node is a map of `children`, the list of the
    /// values of its children, tokens too; `kind`, the name of the kind; and `text_range`, a list
    /// of the start and the end, with offsets in the root. A token has `text` in place of
    /// `children`. `Err(Fault::Memory)` for want of memory.
    ///
    /// It is made by a loop, so a deep tree needs no deep stack; to drop or to print the value of a
    /// deep tree does.
    pub fn to_json(&self, alloc: Global) -> Result<Value, Fault>
        ensures ok { IfOk result (λ v. view v ≡ tree_json (raw_name L.name L.meaning) self.now) }
        ensures err { IfErr result (λ e. e ≡ Fault.Memory) }
    {
        Ok(json_value::node_json::<L>(alloc, self.raw.as_ref())?)
    }

    /// The JSON of the node and of all that is in it as text, with no space: the text of the value
    /// of `to_json`, which is not made for it. `Err(Fault::Memory)` for want of memory.
    ///
    /// It is made by a loop, so a deep tree needs no deep stack.
    pub fn to_json_string(&self, alloc: Global) -> Result<String, Fault>
        ensures ok { IfOk result (λ s.
            string_bytes s ≡ compact_text (tree_json (raw_name L.name L.meaning) self.now)) }
        ensures err { IfErr result (λ e. e ≡ Fault.Memory) }
    {
        Ok(json_text::tree_text::<L>(alloc, self.green(), self.text_range())?)
    }

    /// The JSON of a tree as text without a cursor: what `to_json_string` gives of a cursor at its
    /// root. `Err(Fault::Memory)` for want of memory.
    pub fn to_json_string_of(alloc: Global, root: &GreenNode) -> Result<String, Fault>
        ensures ok { IfOk result (λ s. string_bytes s ≡ compact_text
            (tree_json (raw_name L.name L.meaning) (record { root = root.now; path = [] }))) }
        ensures err { IfErr result (λ e. e ≡ Fault.Memory) }
    {
        let range = TextRange::at(TextSize::from(0), root.text_len());
        Ok(json_text::tree_text::<L>(alloc, root, range)?)
    }
}

impl<L> From<cursor::SyntaxNode> for SyntaxNode<L> {
    ghost from_gives = { λ raw node. node ≡ raw };

    fn from(raw: cursor::SyntaxNode) -> SyntaxNode<L> {
        SyntaxNode {
            raw,
            language: PhantomData,
        }
    }
}

impl<L> From<SyntaxNode<L>> for cursor::SyntaxNode {
    ghost from_gives = { λ node raw. raw ≡ node };

    fn from(node: SyntaxNode<L>) -> cursor::SyntaxNode {
        node.raw
    }
}

impl<L> Clone for SyntaxNode<L> {
    ghost is_clone = { λ node copy. copy ≡ node };

    fn clone(&self) -> Result<SyntaxNode<L>, AllocError> {
        let raw = self.raw.clone()?;
        Ok(SyntaxNode {
            raw,
            language: PhantomData,
        })
    }
}

impl<L> PartialEq for SyntaxNode<L> {
    ghost use Rattle.std.specs.Cmp.{partial_equiv_from_equiv};
    ghost use Rattle.rowan_table.specs.Equal.{same_place, same_place-laws};

    ghost eq = { same_place };

    ghost laws = { partial_equiv_from_equiv same_place-laws };

    fn eq(&self, other: &SyntaxNode<L>) -> bool {
        self.raw == other.raw
    }
}

impl<L> Eq for SyntaxNode<L> {
    ghost use Rattle.rowan_table.specs.Equal.{same_place-laws};

    ghost laws = { same_place-laws };
}

impl<L> Hash for SyntaxNode<L> {
    ghost use Rattle.rowan_table.specs.Equal.{fed_place, fed_place-same};

    ghost hash_input = { fed_place };

    ghost respects_eq = { fed_place-same };

    fn hash<H: Hasher>(&self, state: &mut H) {
        self.raw.hash(state);
    }
}

impl<L> fmt::Display for SyntaxNode<L> {
    ghost use Rattle.rowan_table.specs.Cursor.{text_at};

    ghost output = { λ n. Some (text_at n) };

    fn fmt<W: fmt::Write>(&self, f: &mut fmt::Formatter<W>) -> fmt::Result {
        self.raw.fmt(f)
    }
}

impl<L: Language> fmt::Debug for SyntaxNode<L> {
    fn fmt<W: fmt::Write>(&self, f: &mut fmt::Formatter<W>) -> fmt::Result {
        fmt::Debug::fmt(&self.as_ref(), f)
    }
}
