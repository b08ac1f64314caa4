//! Nodes of a language that are borrowed from their tree.
mod lists;
mod moves;
mod search;
mod walks;

ghost use Rattle.std.specs.Prelude.{◌≡◌, [], IfOk, IfErr, Some, string_bytes};
ghost use Rattle.std.specs.Option.{option_map};
ghost use Rattle.rowan_green.specs.declared.utility_types.NodeOrToken.TheVariants.{Node};
ghost use Rattle.serde_json.specs.View.{view};
ghost use Rattle.serde_json.specs.Written.{compact_text};
ghost use Rattle.rowan_table.specs.Cursor.{StandsAt, index, kind, text_range};
ghost use Rattle.rowan_cursor.specs.Refs.{node_place as raw_place};
ghost use Rattle.rowan_cursor.specs.RefTexts.{text_slice};
ghost use Rattle.rowan_table.specs.Replacement.{IsReplacement, KeepsTheRest, WhyNoReplacement};
ghost use Rattle.rowan_table.specs.SyntaxText.{whole_text};
ghost use Rattle.rowan_print.specs.Printed.{raw_name, tree_json, IsDebugLine, IsDebugTree};
ghost use Rattle.rowan_api.specs.Refs.{node_place};

use crate::api::{Language, SyntaxNode};
use rowan_cursor::cursor;
use rowan_cursor::syntax_text::SyntaxTextRef;
use rowan_green::fault::Fault;
use rowan_green::green::GreenNode;
use rowan_green::text::TextRange;
use rowan_print::{json_text, json_value, printed};
use serde_json::Value;
use std::alloc::Global;
use std::fmt;
use std::hash::{Hash, Hasher};
use std::marker::PhantomData;

/// A node of a language that is borrowed from its tree: what [`SyntaxNode`] is, for as long as
/// another cursor keeps the tree.
///
/// It is the raw one of `cursor`, and its calls answer as that one's do, with kinds by the
/// language. `From` turns each into the other. It is copied at will, a move has a plain answer, and
/// no call asks for memory but those that answer something owned. Two nodes are equal if they have
/// equal green nodes and their texts start at the same offset.
#[derive_where(Clone, Copy)]
pub struct SyntaxNodeRef<'tree, L> {
    raw: cursor::SyntaxNodeRef<'tree>,
    language: PhantomData<L>,
}

impl<'tree, L> SyntaxNodeRef<'tree, L> {
    // The node that a move of the raw one found, if it found one.
    pub(super) fn from_answer(
        raw: Option<cursor::SyntaxNodeRef<'tree>>,
    ) -> Option<SyntaxNodeRef<'tree, L>>
        ensures { option_map node_place result ≡ option_map raw_place raw.entry }
    {
        match raw {
            Some(raw) => Some(SyntaxNodeRef::from(raw)),
            None => None,
        }
    }

    /// The node as a cursor that keeps the tree. `Err(Fault::Memory)` where the count of the tree's
    /// owners is full.
    pub fn to_owned(&self) -> Result<SyntaxNode<L>, Fault>
        ensures ok { IfOk result (λ n. n ≡ node_place self.now) }
        ensures err { IfErr result (λ e. e ≡ Fault.Memory) }
    {
        Ok(SyntaxNode::from(self.raw.to_owned()?))
    }

    /// The root of a new tree, which has the green node of this one. It visits each node and token
    /// below this one once. `Err(Fault::Memory)` for want of memory.
    pub fn clone_subtree(&self) -> Result<SyntaxNode<L>, Fault>
        ensures ok { IfOk result (λ n. StandsAt (node_place self.now) n.root) }
        ensures top { IfOk result (λ n. n.path ≡ []) }
        ensures err { IfErr result (λ e. e ≡ Fault.Memory) }
    {
        Ok(SyntaxNode::from(self.raw.clone_subtree()?))
    }

    /// The root of a new tree: of the tree of this node, with another green node in its place. For
    /// each ancestor one new node is made, and all other children are shared. Nothing is changed in
    /// place: this tree and all its cursors answer as before. For a root it is the replacement
    /// itself.
    ///
    /// `Err(Fault::OtherKind)` where the replacement has another raw kind, also one that means the
    /// same kind of the language; this is looked at before all else. `Err(Fault::TextTooLong)`
    /// where a node of the new tree would have more than 4,294,967,295 bytes of text;
    /// `Err(Fault::Memory)` for want of memory.
    pub fn replace_with(&self, replacement: GreenNode) -> Result<GreenNode, Fault>
        ensures ok { IfOk result (IsReplacement (node_place self.now) (Node replacement)) }
        ensures rest { IfOk result (KeepsTheRest (node_place self.now) (Node replacement)) }
        ensures own { StandsAt (node_place self.now) replacement
            → IfOk result (λ n. n ≡ (node_place self.now).root) }
        ensures err { IfErr result (WhyNoReplacement (node_place self.now) (Node replacement)) }
    {
        self.raw.replace_with(replacement)
    }

    /// Where the node's text lies in the text of the root, in bytes.
    pub fn text_range(&self) -> TextRange
        ensures { result ≡ text_range (node_place self.now) }
    {
        self.raw.text_range()
    }

    /// The place of the node among all children of its parent, tokens counted; 0 for a root.
    pub fn index(&self) -> usize
        ensures { result ≡ index (node_place self.now) }
    {
        self.raw.index()
    }

    /// The green node at this place, lent for as long as the tree is.
    pub fn green(&self) -> &'tree GreenNode
        ensures { StandsAt (node_place self.now) result.now }
    {
        self.raw.green()
    }

    /// The text of the node, borrowed from the tree.
    pub fn text(&self) -> SyntaxTextRef<'tree>
        ensures { text_slice result ≡ whole_text (node_place self.now) }
    {
        self.raw.text()
    }
}

impl<'tree, L: Language> SyntaxNodeRef<'tree, L> {
    /// The kind of the node.
    pub fn kind(&self) -> L::Kind
        ensures { option_map L.meaning (kind (node_place self.now)) ≡ Some result }
    {
        L::kind_from_raw(self.raw.kind())
    }

    /// The node as a line, as that of a [`SyntaxNode`] is. `Err(Fault::Memory)` for want of memory.
    pub fn debug_line(&self, alloc: Global) -> Result<String, Fault>
        ensures ok { IfOk result (λ s. IsDebugLine (raw_name L.name L.meaning)
            (node_place self.now) (string_bytes s)) }
        ensures err { IfErr result (λ e. e ≡ Fault.Memory) }
    {
        Ok(printed::node_line::<L>(alloc, self.raw)?)
    }

    /// The node and all that is in it as text, as that of a [`SyntaxNode`] is.
    /// `Err(Fault::Memory)` for want of memory.
    pub fn debug_tree(&self, alloc: Global) -> Result<String, Fault>
        ensures ok { IfOk result (λ s. IsDebugTree (raw_name L.name L.meaning)
            (node_place self.now) (string_bytes s)) }
        ensures err { IfErr result (λ e. e ≡ Fault.Memory) }
    {
        Ok(printed::tree::<L>(alloc, self.green(), self.text_range())?)
    }

    /// The node and all that is in it as JSON, as that of a [`SyntaxNode`] is.
    /// `Err(Fault::Memory)` for want of memory.
    pub fn to_json(&self, alloc: Global) -> Result<Value, Fault>
        ensures ok { IfOk result (λ v.
            view v ≡ tree_json (raw_name L.name L.meaning) (node_place self.now)) }
        ensures err { IfErr result (λ e. e ≡ Fault.Memory) }
    {
        Ok(json_value::node_json::<L>(alloc, self.raw)?)
    }

    /// The JSON of the node and of all that is in it as text, with no space.
    /// `Err(Fault::Memory)` for want of memory.
    pub fn to_json_string(&self, alloc: Global) -> Result<String, Fault>
        ensures ok { IfOk result (λ s. string_bytes s
            ≡ compact_text (tree_json (raw_name L.name L.meaning) (node_place self.now))) }
        ensures err { IfErr result (λ e. e ≡ Fault.Memory) }
    {
        Ok(json_text::tree_text::<L>(alloc, self.green(), self.text_range())?)
    }
}

impl<'tree, L> From<cursor::SyntaxNodeRef<'tree>> for SyntaxNodeRef<'tree, L> {
    ghost from_gives = { λ raw node. node_place node ≡ raw_place raw };

    fn from(raw: cursor::SyntaxNodeRef<'tree>) -> SyntaxNodeRef<'tree, L> {
        SyntaxNodeRef {
            raw,
            language: PhantomData,
        }
    }
}

impl<'tree, L> From<SyntaxNodeRef<'tree, L>> for cursor::SyntaxNodeRef<'tree> {
    ghost from_gives = { λ node raw. raw_place raw ≡ node_place node };

    fn from(node: SyntaxNodeRef<'tree, L>) -> cursor::SyntaxNodeRef<'tree> {
        node.raw
    }
}

impl<'tree, L> PartialEq for SyntaxNodeRef<'tree, L> {
    ghost use Rattle.std.specs.Cmp.{partial_equiv_from_equiv, on_equiv};
    ghost use Rattle.rowan_table.specs.Equal.{same_place, same_place-laws};
    ghost use Rattle.rowan_api.specs.Refs.{node_place};

    ghost eq = { λ m n. same_place (node_place m) (node_place n) };

    ghost laws = { partial_equiv_from_equiv (on_equiv node_place same_place-laws) };

    fn eq(&self, other: &SyntaxNodeRef<'tree, L>) -> bool {
        self.raw == other.raw
    }
}

impl<'tree, L> Eq for SyntaxNodeRef<'tree, L> {
    ghost use Rattle.std.specs.Cmp.{on_equiv};
    ghost use Rattle.rowan_table.specs.Equal.{same_place-laws};
    ghost use Rattle.rowan_api.specs.Refs.{node_place};

    ghost laws = { on_equiv node_place same_place-laws };
}

impl<'tree, L> Hash for SyntaxNodeRef<'tree, L> {
    ghost use Rattle.rowan_table.specs.Equal.{fed_place, fed_place-same};
    ghost use Rattle.rowan_api.specs.Refs.{node_place};

    ghost hash_input = { λ n. fed_place (node_place n) };

    ghost respects_eq = { λ m n. fed_place-same (node_place m) (node_place n) };

    fn hash<H: Hasher>(&self, state: &mut H) {
        self.raw.hash(state);
    }
}

impl<'tree, L> fmt::Display for SyntaxNodeRef<'tree, L> {
    ghost use Rattle.rowan_table.specs.Cursor.{text_at};
    ghost use Rattle.rowan_api.specs.Refs.{node_place};

    ghost output = { λ n. Some (text_at (node_place n)) };

    fn fmt<W: fmt::Write>(&self, f: &mut fmt::Formatter<W>) -> fmt::Result {
        self.raw.fmt(f)
    }
}

/// Prints as a [`SyntaxNode`] does.
impl<'tree, L: Language> fmt::Debug for SyntaxNodeRef<'tree, L> {
    fn fmt<W: fmt::Write>(&self, f: &mut fmt::Formatter<W>) -> fmt::Result {
        f.debug_struct("SyntaxNode")
            .field("kind", &self.kind())
            .field("text_range", &self.text_range())
            .finish()
    }
}
