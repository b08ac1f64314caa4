//! Tokens of a language that are borrowed from their tree.
ghost use Rattle.std.specs.Prelude.{◌≡◌, ◌^◌, ◌<◌, length, IfOk, IfErr, Some, string_bytes};
ghost use Rattle.std.specs.Option.{option_map};
ghost use Rattle.rowan_green.specs.declared.utility_types.NodeOrToken.TheVariants.{Token};
ghost use Rattle.serde_json.specs.View.{view};
ghost use Rattle.serde_json.specs.Written.{compact_text};
ghost use Rattle.rowan_table.specs.Cursor.{StandsAtToken, index, kind, text_range, text_at};
ghost use Rattle.rowan_table.specs.Moves.{tree_top, parent, next_sibling_or_token};
ghost use Rattle.rowan_table.specs.Moves.{prev_sibling_or_token, next_token, prev_token};
ghost use Rattle.rowan_table.specs.Moves.{parent_ancestors, siblings_with_tokens};
ghost use Rattle.rowan_cursor.specs.Refs.{token_place as raw_place};
ghost use Rattle.rowan_table.specs.Replacement.{IsReplacement, KeepsTheRest, WhyNoReplacement};
ghost use Rattle.rowan_print.specs.Printed.{raw_name, tree_json, IsDebugLine};
ghost use Rattle.rowan_api.specs.Refs.{node_place, token_place, element_place};
ghost use Rattle.rowan_api.specs.Refs.{rest_of_ancestors, rest_of_elements};

use crate::api::elements_ref::TypedElementsRef;
use crate::api::nodes_ref::TypedNodesRef;
use crate::api::{
    AncestorsRef, Language, SiblingsWithTokensRef, SyntaxElementRef, SyntaxNodeRef, SyntaxToken,
    element_ref,
};
use rowan_cursor::cursor;
use rowan_green::fault::Fault;
use rowan_green::green::{GreenNode, GreenToken};
use rowan_green::text::TextRange;
use rowan_green::utility_types::Direction;
use rowan_print::{json_text, json_value, printed};
use serde_json::Value;
use std::alloc::Global;
use std::fmt;
use std::hash::{Hash, Hasher};
use std::marker::PhantomData;

/// A token of a language that is borrowed from its tree: what [`SyntaxToken`] is, for as long as
/// another cursor keeps the tree.
///
/// It is the raw one of `cursor`, and its calls answer as that one's do, with kinds by the
/// language. `From` turns each into the other. It is copied at will, a move has a plain answer, and
/// no call asks for memory but those that answer something owned. Two tokens are equal if they have
/// equal green tokens and their texts start at the same offset.
#[derive_where(Clone, Copy)]
pub struct SyntaxTokenRef<'tree, L> {
    raw: cursor::SyntaxTokenRef<'tree>,
    language: PhantomData<L>,
}

impl<'tree, L> SyntaxTokenRef<'tree, L> {
    // The token that a move of the raw one found, if it found one.
    pub(super) fn from_answer(
        raw: Option<cursor::SyntaxTokenRef<'tree>>,
    ) -> Option<SyntaxTokenRef<'tree, L>>
        ensures { option_map token_place result ≡ option_map raw_place raw.entry }
    {
        match raw {
            Some(raw) => Some(SyntaxTokenRef::from(raw)),
            None => None,
        }
    }

    /// The token as a cursor that keeps the tree. `Err(Fault::Memory)` where the count of the
    /// tree's owners is full.
    pub fn to_owned(&self) -> Result<SyntaxToken<L>, Fault>
        ensures ok { IfOk result (λ t. t ≡ token_place self.now) }
        ensures err { IfErr result (λ e. e ≡ Fault.Memory) }
    {
        Ok(SyntaxToken::from(self.raw.to_owned()?))
    }

    /// The root of a new tree: of the tree of this token, with another green token in its place.
    /// For each ancestor one new node is made, and all other children are shared. Nothing is
    /// changed in place: this tree and all its cursors answer as before.
    ///
    /// `Err(Fault::OtherKind)` where the replacement has another raw kind, also one that means the
    /// same kind of the language; this is looked at before all else. `Err(Fault::TextTooLong)`
    /// where a node of the new tree would have more than 4,294,967,295 bytes of text;
    /// `Err(Fault::Memory)` for want of memory.
    pub fn replace_with(&self, replacement: GreenToken) -> Result<GreenNode, Fault>
        ensures ok { IfOk result (IsReplacement (token_place self.now) (Token replacement)) }
        ensures rest { IfOk result (KeepsTheRest (token_place self.now) (Token replacement)) }
        ensures own { StandsAtToken (token_place self.now) replacement
            → IfOk result (λ n. n ≡ (token_place self.now).root) }
        ensures err { IfErr result (WhyNoReplacement (token_place self.now) (Token replacement)) }
    {
        self.raw.replace_with(replacement)
    }

    /// Where the token's text lies in the text of the root, in bytes.
    pub fn text_range(&self) -> TextRange
        ensures { result ≡ text_range (token_place self.now) }
    {
        self.raw.text_range()
    }

    /// The place of the token among all children of its parent.
    pub fn index(&self) -> usize
        ensures { result ≡ index (token_place self.now) }
    {
        self.raw.index()
    }

    /// The text of the token, lent for as long as the tree is.
    pub fn text(&self) -> &'tree str
        ensures { result.now ≡ text_at (token_place self.now) }
    {
        self.raw.text()
    }

    /// The green token at this place, lent for as long as the tree is.
    pub fn green(&self) -> &'tree GreenToken
        ensures { StandsAtToken (token_place self.now) result.now }
    {
        self.raw.green()
    }

    /// The root of the tree.
    pub fn tree_top(&self) -> SyntaxNodeRef<'tree, L>
        ensures { node_place result ≡ tree_top (token_place self.now) }
    {
        SyntaxNodeRef::from(self.raw.tree_top())
    }

    /// The parent.
    pub fn parent(&self) -> Option<SyntaxNodeRef<'tree, L>>
        ensures { option_map node_place result ≡ parent (token_place self.now) }
    {
        SyntaxNodeRef::from_answer(self.raw.parent())
    }

    /// The next sibling.
    pub fn next_sibling_or_token(&self) -> Option<SyntaxElementRef<'tree, L>>
        ensures { option_map element_place result ≡ next_sibling_or_token (token_place self.now) }
    {
        element_ref::from_answer(self.raw.next_sibling_or_token())
    }

    /// The sibling before this one.
    pub fn prev_sibling_or_token(&self) -> Option<SyntaxElementRef<'tree, L>>
        ensures { option_map element_place result ≡ prev_sibling_or_token (token_place self.now) }
    {
        element_ref::from_answer(self.raw.prev_sibling_or_token())
    }

    /// The next token of the tree, also an empty one, whatever node it is in.
    pub fn next_token(&self) -> Option<SyntaxTokenRef<'tree, L>>
        ensures { option_map token_place result ≡ next_token (token_place self.now) }
    {
        SyntaxTokenRef::from_answer(self.raw.next_token())
    }

    /// The token of the tree before this one, also an empty one, whatever node it is in.
    pub fn prev_token(&self) -> Option<SyntaxTokenRef<'tree, L>>
        ensures { option_map token_place result ≡ prev_token (token_place self.now) }
    {
        SyntaxTokenRef::from_answer(self.raw.prev_token())
    }

    /// The nodes above the token: its parent, and so on up to the root.
    pub fn parent_ancestors(&self) -> AncestorsRef<'tree, L>
        ensures { rest_of_ancestors result ≡ parent_ancestors (token_place self.now) }
    {
        TypedNodesRef::new(self.raw.ancestors())
    }

    /// The token, and then its siblings in a direction, nearest first.
    pub fn siblings_with_tokens(&self, direction: Direction) -> SiblingsWithTokensRef<'tree, L>
        ensures list { rest_of_elements result
            ≡ siblings_with_tokens direction (token_place self.now) }
        ensures count { length (rest_of_elements result) < 2 ^ 64 }
    {
        TypedElementsRef::new(self.raw.siblings_with_tokens(direction))
    }
}

impl<'tree, L: Language> SyntaxTokenRef<'tree, L> {
    /// The kind of the token.
    pub fn kind(&self) -> L::Kind
        ensures { option_map L.meaning (kind (token_place self.now)) ≡ Some result }
    {
        L::kind_from_raw(self.raw.kind())
    }

    /// The token as a line, as that of a [`SyntaxToken`] is. `Err(Fault::Memory)` for want of
    /// memory.
    pub fn debug_line(&self, alloc: Global) -> Result<String, Fault>
        ensures ok { IfOk result (λ s. IsDebugLine (raw_name L.name L.meaning)
            (token_place self.now) (string_bytes s)) }
        ensures err { IfErr result (λ e. e ≡ Fault.Memory) }
    {
        Ok(printed::token_line::<L>(alloc, self.raw)?)
    }

    /// The token as JSON, as that of a [`SyntaxToken`] is. `Err(Fault::Memory)` for want of memory.
    pub fn to_json(&self, alloc: Global) -> Result<Value, Fault>
        ensures ok { IfOk result (λ v.
            view v ≡ tree_json (raw_name L.name L.meaning) (token_place self.now)) }
        ensures err { IfErr result (λ e. e ≡ Fault.Memory) }
    {
        Ok(json_value::token_json::<L>(alloc, self.raw)?)
    }

    /// The JSON of the token as text, with no space. `Err(Fault::Memory)` for want of memory.
    pub fn to_json_string(&self, alloc: Global) -> Result<String, Fault>
        ensures ok { IfOk result (λ s. string_bytes s
            ≡ compact_text (tree_json (raw_name L.name L.meaning) (token_place self.now))) }
        ensures err { IfErr result (λ e. e ≡ Fault.Memory) }
    {
        Ok(json_text::token_text::<L>(alloc, self.raw)?)
    }
}

impl<'tree, L> From<cursor::SyntaxTokenRef<'tree>> for SyntaxTokenRef<'tree, L> {
    ghost from_gives = { λ raw token. token_place token ≡ raw_place raw };

    fn from(raw: cursor::SyntaxTokenRef<'tree>) -> SyntaxTokenRef<'tree, L> {
        SyntaxTokenRef {
            raw,
            language: PhantomData,
        }
    }
}

impl<'tree, L> From<SyntaxTokenRef<'tree, L>> for cursor::SyntaxTokenRef<'tree> {
    ghost from_gives = { λ token raw. raw_place raw ≡ token_place token };

    fn from(token: SyntaxTokenRef<'tree, L>) -> cursor::SyntaxTokenRef<'tree> {
        token.raw
    }
}

impl<'tree, L> PartialEq for SyntaxTokenRef<'tree, L> {
    ghost use Rattle.std.specs.Cmp.{partial_equiv_from_equiv, on_equiv};
    ghost use Rattle.rowan_table.specs.Equal.{same_place, same_place-laws};
    ghost use Rattle.rowan_api.specs.Refs.{token_place};

    ghost eq = { λ s t. same_place (token_place s) (token_place t) };

    ghost laws = { partial_equiv_from_equiv (on_equiv token_place same_place-laws) };

    fn eq(&self, other: &SyntaxTokenRef<'tree, L>) -> bool {
        self.raw == other.raw
    }
}

impl<'tree, L> Eq for SyntaxTokenRef<'tree, L> {
    ghost use Rattle.std.specs.Cmp.{on_equiv};
    ghost use Rattle.rowan_table.specs.Equal.{same_place-laws};
    ghost use Rattle.rowan_api.specs.Refs.{token_place};

    ghost laws = { on_equiv token_place same_place-laws };
}

impl<'tree, L> Hash for SyntaxTokenRef<'tree, L> {
    ghost use Rattle.rowan_table.specs.Equal.{fed_place, fed_place-same};
    ghost use Rattle.rowan_api.specs.Refs.{token_place};

    ghost hash_input = { λ t. fed_place (token_place t) };

    ghost respects_eq = { λ s t. fed_place-same (token_place s) (token_place t) };

    fn hash<H: Hasher>(&self, state: &mut H) {
        self.raw.hash(state);
    }
}

impl<'tree, L> fmt::Display for SyntaxTokenRef<'tree, L> {
    ghost use Rattle.rowan_table.specs.Cursor.{text_at};
    ghost use Rattle.rowan_api.specs.Refs.{token_place};

    ghost output = { λ t. Some (text_at (token_place t)) };

    fn fmt<W: fmt::Write>(&self, f: &mut fmt::Formatter<W>) -> fmt::Result {
        self.raw.fmt(f)
    }
}

/// Prints as a [`SyntaxToken`] does.
impl<'tree, L: Language> fmt::Debug for SyntaxTokenRef<'tree, L> {
    fn fmt<W: fmt::Write>(&self, f: &mut fmt::Formatter<W>) -> fmt::Result {
        f.debug_struct("SyntaxToken")
            .field("kind", &self.kind())
            .field("text_range", &self.text_range())
            .finish()
    }
}
