ghost use Rattle.std.specs.Prelude.{◌≡◌, IfOk, IfErr, Some, string_bytes};
ghost use Rattle.std.specs.Option.{option_map};
ghost use Rattle.rowan_green.specs.declared.utility_types.NodeOrToken.TheVariants.{Token};
ghost use Rattle.serde_json.specs.View.{view};
ghost use Rattle.serde_json.specs.Written.{compact_text};
ghost use Rattle.rowan_table.specs.Cursor.{StandsAtToken, index, kind, text_range, text_at};
ghost use Rattle.rowan_table.specs.Moves.{tree_top, parent, next_sibling_or_token};
ghost use Rattle.rowan_table.specs.Moves.{prev_sibling_or_token, next_token, prev_token};
ghost use Rattle.rowan_table.specs.Moves.{parent_ancestors, siblings_with_tokens};
ghost use Rattle.rowan_table.specs.Replacement.{IsReplacement, KeepsTheRest, WhyNoReplacement};
ghost use Rattle.rowan_print.specs.Printed.{raw_name, tree_json, IsDebugLine};
ghost use Rattle.rowan_api.specs.Refs.{token_place};

use crate::api::typed_elements::TypedElements;
use crate::api::typed_nodes::TypedNodes;
use crate::api::{
    Ancestors, Language, SiblingsWithTokens, SyntaxElement, SyntaxNode, SyntaxTokenRef, element,
};
use rowan_cursor::cursor;
use rowan_green::fault::Fault;
use rowan_green::green::{GreenNode, GreenToken};
use rowan_green::text::TextRange;
use rowan_green::utility_types::Direction;
use rowan_print::{json_text, json_value, printed};
use serde_json::Value;
use std::alloc::{AllocError, Global};
use std::fmt;
use std::hash::{Hash, Hasher};
use std::marker::{Model, PhantomData};

/// A token in a tree of a language: a root, and the way from it to the token.
///
/// It is the raw token of `cursor`, and its calls answer as that one's do, with kinds by the
/// language. `From` turns each into the other. A move asks for no memory, but its answer shares the
/// tree once more. Where the reference count of the tree is full it is refused, as
/// `Err(Fault::Memory)`; an iterator gives that as an item, and then ends. Two tokens are equal if
/// they have equal green tokens and their texts start at the same offset.
#[derive(Drop)]
pub struct SyntaxToken<L> {
    raw: cursor::SyntaxToken,
    language: PhantomData<L>,
}

impl<L> Model for SyntaxToken<L> {
    ghost use Rattle.rowan_table.specs.Cursor.{Cursor};
    ghost use Rattle.rowan_cursor.specs.CursorCode.{coded_cursor};

    ghost Value = { Cursor };

    ghost coded = { coded_cursor };

    ghost view = { λ t. t.raw };

    ghost inverse = { λ c. record { raw = c; language = record {} } };
}

impl<L> SyntaxToken<L> {
    // The token that a move of the raw cursor found, if it found one.
    pub(super) fn from_answer(raw: Option<cursor::SyntaxToken>) -> Option<SyntaxToken<L>>
        ensures { result ≡ raw }
    {
        match raw {
            Some(raw) => Some(SyntaxToken::from(raw)),
            None => None,
        }
    }

    /// The token, borrowed from its tree: its moves cannot fail.
    pub fn as_ref(&self) -> SyntaxTokenRef<'_, L>
        ensures { token_place result ≡ self.now }
    {
        SyntaxTokenRef::from(self.raw.as_ref())
    }

    /// The root of a new tree: of the tree of this cursor, with another green token in place of the
    /// one at this cursor. For each ancestor one new node is made, and all other children are
    /// shared. Nothing is changed in place: this tree and all its cursors answer as before.
    ///
    /// `Err(Fault::OtherKind)` where the replacement has another raw kind, also one that means the
    /// same kind of the language; this is looked at before all else. `Err(Fault::TextTooLong)`
    /// where a node of the new tree would have more than 4,294,967,295 bytes of text;
    /// `Err(Fault::Memory)` for want of memory.
    pub fn replace_with(&self, replacement: GreenToken) -> Result<GreenNode, Fault>
        ensures ok { IfOk result (IsReplacement self.now (Token replacement)) }
        ensures rest { IfOk result (KeepsTheRest self.now (Token replacement)) }
        ensures own { StandsAtToken self.now replacement → IfOk result (λ n. n ≡ self.now.root) }
        ensures err { IfErr result (WhyNoReplacement self.now (Token replacement)) }
    {
        self.raw.replace_with(replacement)
    }

    /// Where the token's text lies in the text of the root, in bytes.
    pub fn text_range(&self) -> TextRange
        ensures { result ≡ text_range self.now }
    {
        self.raw.text_range()
    }

    /// The place of the token among all children of its parent.
    pub fn index(&self) -> usize
        ensures { result ≡ index self.now }
    {
        self.raw.index()
    }

    /// The text of the token.
    pub fn text(&self) -> &str
        ensures { result.now ≡ text_at self.now }
    {
        self.raw.text()
    }

    /// The green token at this place.
    pub fn green(&self) -> &GreenToken
        ensures { StandsAtToken self.now result.now }
    {
        self.raw.green()
    }

    /// The root of the tree.
    pub fn tree_top(&self) -> Result<SyntaxNode<L>, Fault>
        ensures ok { IfOk result (λ n. n ≡ tree_top self.now) }
        ensures err { IfErr result (λ e. e ≡ Fault.Memory) }
    {
        Ok(SyntaxNode::from(self.raw.tree_top()?))
    }

    /// The parent.
    pub fn parent(&self) -> Result<Option<SyntaxNode<L>>, Fault>
        ensures ok { IfOk result (λ found. found ≡ parent self.now) }
        ensures err { IfErr result (λ e. e ≡ Fault.Memory) }
    {
        Ok(SyntaxNode::from_answer(self.raw.parent()?))
    }

    /// The next sibling.
    pub fn next_sibling_or_token(&self) -> Result<Option<SyntaxElement<L>>, Fault>
        ensures ok { IfOk result (λ found. found ≡ next_sibling_or_token self.now) }
        ensures err { IfErr result (λ e. e ≡ Fault.Memory) }
    {
        Ok(element::from_answer(self.raw.next_sibling_or_token()?))
    }

    /// The sibling before this one.
    pub fn prev_sibling_or_token(&self) -> Result<Option<SyntaxElement<L>>, Fault>
        ensures ok { IfOk result (λ found. found ≡ prev_sibling_or_token self.now) }
        ensures err { IfErr result (λ e. e ≡ Fault.Memory) }
    {
        Ok(element::from_answer(self.raw.prev_sibling_or_token()?))
    }

    /// The next token of the tree, also an empty one, whatever node it is in.
    pub fn next_token(&self) -> Result<Option<SyntaxToken<L>>, Fault>
        ensures ok { IfOk result (λ found. found ≡ next_token self.now) }
        ensures err { IfErr result (λ e. e ≡ Fault.Memory) }
    {
        Ok(SyntaxToken::from_answer(self.raw.next_token()?))
    }

    /// The token of the tree before this one, also an empty one, whatever node it is in.
    pub fn prev_token(&self) -> Result<Option<SyntaxToken<L>>, Fault>
        ensures ok { IfOk result (λ found. found ≡ prev_token self.now) }
        ensures err { IfErr result (λ e. e ≡ Fault.Memory) }
    {
        Ok(SyntaxToken::from_answer(self.raw.prev_token()?))
    }

    /// The nodes above the token, as [`SyntaxToken::parent_ancestors`] gives them.
    #[deprecated(note = "call `parent_ancestors`, since a token is not among its ancestors")]
    pub fn ancestors(&self) -> Ancestors<L>
        ensures ok { IfOk result (λ list. list ≡ parent_ancestors self.now) }
        ensures err { IfErr result (λ e. e ≡ Fault.Memory) }
    {
        self.parent_ancestors()
    }

    /// The nodes above the token: its parent, and so on up to the root.
    pub fn parent_ancestors(&self) -> Ancestors<L>
        ensures ok { IfOk result (λ list. list ≡ parent_ancestors self.now) }
        ensures err { IfErr result (λ e. e ≡ Fault.Memory) }
    {
        TypedNodes::new(self.raw.ancestors())
    }

    /// The token, and then its siblings in a direction, nearest first.
    pub fn siblings_with_tokens(&self, direction: Direction) -> SiblingsWithTokens<L>
        ensures ok { IfOk result (λ list. list ≡ siblings_with_tokens direction self.now) }
        ensures err { IfErr result (λ e. e ≡ Fault.Memory) }
    {
        TypedElements::new(self.raw.siblings_with_tokens(direction))
    }
}

impl<L: Language> SyntaxToken<L> {
    /// The kind of the token.
    pub fn kind(&self) -> L::Kind
        ensures { option_map L.meaning (kind self.now) ≡ Some result }
    {
        L::kind_from_raw(self.raw.kind())
    }

    /// The token as a line, `KIND@start..end "text"`: the name of the kind, the range with offsets
    /// in the root, and the text in quotes, as `{:?}` writes it. Of a text of 25 bytes or more only
    /// the part before the first border of characters at byte 21 or later stands in quotes,
    /// followed by a space and three points. `Err(Fault::Memory)` for want of memory.
    ///
    /// A character past ASCII stands as itself, or as `\u{..}` where it does not print or extends
    /// the character before it. The contract leaves open which characters those are.
    pub fn debug_line(&self, alloc: Global) -> Result<String, Fault>
        ensures ok { IfOk result (λ s.
            IsDebugLine (raw_name L.name L.meaning) self.now (string_bytes s)) }
        ensures err { IfErr result (λ e. e ≡ Fault.Memory) }
    {
        Ok(printed::token_line::<L>(alloc, self.raw.as_ref())?)
    }

    /// The token as JSON: a map of `kind`, the name of the kind; `text`; and `text_range`, a list
    /// of the start and the end, with offsets in the root. `Err(Fault::Memory)` for want of memory.
    pub fn to_json(&self, alloc: Global) -> Result<Value, Fault>
        ensures ok { IfOk result (λ v. view v ≡ tree_json (raw_name L.name L.meaning) self.now) }
        ensures err { IfErr result (λ e. e ≡ Fault.Memory) }
    {
        Ok(json_value::token_json::<L>(alloc, self.raw.as_ref())?)
    }

    /// The JSON of the token as text, with no space: the text of the value of `to_json`, which is
    /// not made for it. `Err(Fault::Memory)` for want of memory.
    pub fn to_json_string(&self, alloc: Global) -> Result<String, Fault>
        ensures ok { IfOk result (λ s.
            string_bytes s ≡ compact_text (tree_json (raw_name L.name L.meaning) self.now)) }
        ensures err { IfErr result (λ e. e ≡ Fault.Memory) }
    {
        Ok(json_text::token_text::<L>(alloc, self.raw.as_ref())?)
    }
}

impl<L> From<cursor::SyntaxToken> for SyntaxToken<L> {
    ghost from_gives = { λ raw token. token ≡ raw };

    fn from(raw: cursor::SyntaxToken) -> SyntaxToken<L> {
        SyntaxToken {
            raw,
            language: PhantomData,
        }
    }
}

impl<L> From<SyntaxToken<L>> for cursor::SyntaxToken {
    ghost from_gives = { λ token raw. raw ≡ token };

    fn from(token: SyntaxToken<L>) -> cursor::SyntaxToken {
        token.raw
    }
}

impl<L> Clone for SyntaxToken<L> {
    ghost is_clone = { λ token copy. copy ≡ token };

    fn clone(&self) -> Result<SyntaxToken<L>, AllocError> {
        let raw = self.raw.clone()?;
        Ok(SyntaxToken {
            raw,
            language: PhantomData,
        })
    }
}

impl<L> PartialEq for SyntaxToken<L> {
    ghost use Rattle.std.specs.Cmp.{partial_equiv_from_equiv};
    ghost use Rattle.rowan_table.specs.Equal.{same_place, same_place-laws};

    ghost eq = { same_place };

    ghost laws = { partial_equiv_from_equiv same_place-laws };

    fn eq(&self, other: &SyntaxToken<L>) -> bool {
        self.raw == other.raw
    }
}

impl<L> Eq for SyntaxToken<L> {
    ghost use Rattle.rowan_table.specs.Equal.{same_place-laws};

    ghost laws = { same_place-laws };
}

impl<L> Hash for SyntaxToken<L> {
    ghost use Rattle.rowan_table.specs.Equal.{fed_place, fed_place-same};

    ghost hash_input = { fed_place };

    ghost respects_eq = { fed_place-same };

    fn hash<H: Hasher>(&self, state: &mut H) {
        self.raw.hash(state);
    }
}

impl<L> fmt::Display for SyntaxToken<L> {
    ghost use Rattle.rowan_table.specs.Cursor.{text_at};

    ghost output = { λ t. Some (text_at t) };

    fn fmt<W: fmt::Write>(&self, f: &mut fmt::Formatter<W>) -> fmt::Result {
        self.raw.fmt(f)
    }
}

impl<L: Language> fmt::Debug for SyntaxToken<L> {
    fn fmt<W: fmt::Write>(&self, f: &mut fmt::Formatter<W>) -> fmt::Result {
        fmt::Debug::fmt(&self.as_ref(), f)
    }
}
