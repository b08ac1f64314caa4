//! Tokens of a tree, as cursors, and their moves.
ghost use Rattle.std.specs.Prelude.{◌≡◌, IfOk, IfErr, IfSome, Some};
ghost use Rattle.std.specs.Option.{option_map};
ghost use Rattle.rowan_green.specs.declared.utility_types.NodeOrToken.TheVariants.{Token};
ghost use Rattle.rowan_table.specs.Cursor.{StandsAtToken, index, kind, text_range, text_at};
ghost use Rattle.rowan_table.specs.TableView.{cursor_of, IsTokenIn};
ghost use Rattle.rowan_table.specs.Moves.{tree_top, parent, next_sibling_or_token};
ghost use Rattle.rowan_table.specs.Moves.{prev_sibling_or_token, first_token, last_token};
ghost use Rattle.rowan_table.specs.Moves.{next_token, prev_token, siblings_with_tokens};
ghost use Rattle.rowan_table.specs.Moves.{parent_ancestors};
ghost use Rattle.rowan_cursor.specs.Refs.{token_place};
ghost use Rattle.rowan_table.specs.Replacement.{IsReplacement, KeepsTheRest, WhyNoReplacement};

use crate::cursor::climb::Climb;
use crate::cursor::row::Row;
use crate::cursor::{
    Ancestors, SiblingsWithTokens, SyntaxElement, SyntaxNode, SyntaxTokenRef, element,
};
use rowan_green::fault::Fault;
use rowan_green::green::{GreenNode, GreenToken, SyntaxKind};
use rowan_green::text::TextRange;
use rowan_green::utility_types::Direction;
use rowan_table::table::Table;
use std::alloc::AllocError;
use std::fmt;
use std::hash::{Hash, Hasher};
use std::marker::Model;
use std::rc::Rc;

/// A token in a tree: a root, and the way from it to the token.
///
/// All cursors of one tree share it, and it lives as long as one of them. Two tokens are equal if
/// they have equal green tokens and their texts start at the same offset.
///
/// # Errors
///
/// A move answers `Err(Fault::Memory)` where the count of the tree's owners is full. An iterator
/// gives that `Err` as an item, and then it ends.
#[derive(Drop)]
pub struct SyntaxToken {
    table: Rc<Table>,
    number: usize,
}

impl Model for SyntaxToken {
    ghost use Rattle.rowan_table.specs.Cursor.{Cursor};
    ghost use Rattle.rowan_cursor.specs.CursorCode.{coded_cursor};

    ghost Value = { Cursor };

    ghost coded = { coded_cursor };

    ghost use Rattle.rowan_table.specs.TableView.{cursor_of, IsTokenIn};

    ghost view = { λ t. cursor_of t.table.value t.number };

    ghost invariant = { λ t. IsTokenIn t.table.value t.number };
}

impl SyntaxToken {
    // The cursor at the token with a number.
    pub(super) fn at(table: &Rc<Table>, number: usize) -> Result<SyntaxToken, AllocError>
        requires { IsTokenIn table.now.value number }
        ensures { IfOk result (λ token. token ≡ cursor_of table.now.value number) }
    {
        let table = table.clone()?;
        Ok(SyntaxToken { table, number })
    }

    // The cursor at the token with the number that a move found, if it found one.
    pub(super) fn option_at(
        table: &Rc<Table>,
        number: Option<usize>,
    ) -> Result<Option<SyntaxToken>, AllocError>
        requires { IfSome number (IsTokenIn table.now.value) }
        ensures { IfOk result (λ found. found ≡ option_map (cursor_of table.now.value) number) }
    {
        match number {
            Some(number) => Ok(Some(SyntaxToken::at(table, number)?)),
            None => Ok(None),
        }
    }

    /// The token, borrowed from its tree: its moves are refused for nothing.
    pub fn as_ref(&self) -> SyntaxTokenRef<'_>
        ensures { token_place result ≡ self.now }
    {
        SyntaxTokenRef::at(&self.table, self.number)
    }

    /// The root of a new tree: of the tree of this cursor, with another green token in place of the
    /// one at this cursor. For each ancestor one new node is made, and all other children are
    /// shared. Nothing is changed in place: this tree and all its cursors answer as before.
    ///
    /// `Err(Fault::OtherKind)` where the replacement is of another kind, which is looked at before
    /// all else; `Err(Fault::TextTooLong)` where a node of the new tree would have more than
    /// 4,294,967,295 bytes of text; `Err(Fault::Memory)` for want of memory.
    pub fn replace_with(&self, replacement: GreenToken) -> Result<GreenNode, Fault>
        ensures ok { IfOk result (IsReplacement self.now (Token replacement)) }
        ensures rest { IfOk result (KeepsTheRest self.now (Token replacement)) }
        ensures own { StandsAtToken self.now replacement → IfOk result (λ n. n ≡ self.now.root) }
        ensures err { IfErr result (WhyNoReplacement self.now (Token replacement)) }
    {
        self.as_ref().replace_with(replacement)
    }

    /// The kind of the token.
    pub fn kind(&self) -> SyntaxKind
        ensures { kind self.now ≡ Some result.0 }
    {
        self.green().kind()
    }

    /// Where the token's text lies in the text of the root, in bytes.
    pub fn text_range(&self) -> TextRange
        ensures { result ≡ text_range self.now }
    {
        self.table.text_range(self.number)
    }

    /// The place of the token among all children of its parent.
    pub fn index(&self) -> usize
        ensures { result ≡ index self.now }
    {
        self.table.index(self.number)
    }

    /// The text of the token.
    pub fn text(&self) -> &str
        ensures { result.now ≡ text_at self.now }
    {
        self.green().text()
    }

    /// The green token at this place.
    pub fn green(&self) -> &GreenToken
        ensures { StandsAtToken self.now result.now }
    {
        self.table.token(self.number)
    }

    /// The root of the tree.
    pub fn tree_top(&self) -> Result<SyntaxNode, Fault>
        ensures ok { IfOk result (λ n. n ≡ tree_top self.now) }
        ensures err { IfErr result (λ e. e ≡ Fault.Memory) }
    {
        Ok(SyntaxNode::at(&self.table, 0)?)
    }

    /// The parent.
    pub fn parent(&self) -> Result<Option<SyntaxNode>, Fault>
        ensures ok { IfOk result (λ found. found ≡ parent self.now) }
        ensures err { IfErr result (λ e. e ≡ Fault.Memory) }
    {
        Ok(SyntaxNode::option_at(&self.table, self.table.parent(self.number))?)
    }

    /// The next sibling.
    pub fn next_sibling_or_token(&self) -> Result<Option<SyntaxElement>, Fault>
        ensures ok { IfOk result (λ found. found ≡ next_sibling_or_token self.now) }
        ensures err { IfErr result (λ e. e ≡ Fault.Memory) }
    {
        Ok(element::option_at(&self.table, self.table.next_sibling_or_token(self.number))?)
    }

    /// The sibling before this one.
    pub fn prev_sibling_or_token(&self) -> Result<Option<SyntaxElement>, Fault>
        ensures ok { IfOk result (λ found. found ≡ prev_sibling_or_token self.now) }
        ensures err { IfErr result (λ e. e ≡ Fault.Memory) }
    {
        Ok(element::option_at(&self.table, self.table.prev_sibling_or_token(self.number))?)
    }

    /// The next token of the tree, also an empty one, whatever node it is in.
    pub fn next_token(&self) -> Result<Option<SyntaxToken>, Fault>
        ensures ok { IfOk result (λ found. found ≡ next_token self.now) }
        ensures err { IfErr result (λ e. e ≡ Fault.Memory) }
    {
        Ok(SyntaxToken::option_at(&self.table, self.table.next_token(self.number))?)
    }

    /// The token of the tree before this one, also an empty one, whatever node it is in.
    pub fn prev_token(&self) -> Result<Option<SyntaxToken>, Fault>
        ensures ok { IfOk result (λ found. found ≡ prev_token self.now) }
        ensures err { IfErr result (λ e. e ≡ Fault.Memory) }
    {
        Ok(SyntaxToken::option_at(&self.table, self.table.prev_token(self.number))?)
    }

    // The token itself.
    pub(super) fn first_token(&self) -> Result<Option<SyntaxToken>, Fault>
        ensures ok { IfOk result (λ found. found ≡ first_token self.now) }
        ensures err { IfErr result (λ e. e ≡ Fault.Memory) }
    {
        Ok(SyntaxToken::option_at(&self.table, self.table.first_token(self.number))?)
    }

    // The token itself.
    pub(super) fn last_token(&self) -> Result<Option<SyntaxToken>, Fault>
        ensures ok { IfOk result (λ found. found ≡ last_token self.now) }
        ensures err { IfErr result (λ e. e ≡ Fault.Memory) }
    {
        Ok(SyntaxToken::option_at(&self.table, self.table.last_token(self.number))?)
    }

    /// The nodes above the token: its parent, and so on up to the root.
    pub fn ancestors(&self) -> Ancestors
        ensures ok { IfOk result (λ list. list ≡ parent_ancestors self.now) }
        ensures err { IfErr result (λ e. e ≡ Fault.Memory) }
    {
        Ancestors::new(&self.table, Climb::new(self.table.parent(self.number)))
    }

    /// The token, and then its siblings in a direction, nearest first.
    pub fn siblings_with_tokens(&self, direction: Direction) -> SiblingsWithTokens
        ensures ok { IfOk result (λ list. list ≡ siblings_with_tokens direction self.now) }
        ensures err { IfErr result (λ e. e ≡ Fault.Memory) }
    {
        SiblingsWithTokens::new(
            &self.table,
            Row::siblings(&self.table, self.number, direction),
        )
    }
}

impl Clone for SyntaxToken {
    ghost is_clone = { λ token copy. copy ≡ token };

    fn clone(&self) -> Result<SyntaxToken, AllocError> {
        let table = self.table.clone()?;
        Ok(SyntaxToken {
            table,
            number: self.number,
        })
    }
}

impl PartialEq for SyntaxToken {
    ghost use Rattle.std.specs.Cmp.{partial_equiv_from_equiv};
    ghost use Rattle.rowan_table.specs.Equal.{same_place, same_place-laws};

    ghost eq = { same_place };

    ghost laws = { partial_equiv_from_equiv same_place-laws };

    fn eq(&self, other: &SyntaxToken) -> bool {
        self.as_ref() == other.as_ref()
    }
}

impl Eq for SyntaxToken {
    ghost use Rattle.rowan_table.specs.Equal.{same_place-laws};

    ghost laws = { same_place-laws };
}

impl Hash for SyntaxToken {
    ghost use Rattle.rowan_table.specs.Equal.{fed_place, fed_place-same};

    ghost hash_input = { fed_place };

    ghost respects_eq = { fed_place-same };

    fn hash<H: Hasher>(&self, state: &mut H) {
        self.as_ref().hash(state);
    }
}

impl fmt::Display for SyntaxToken {
    ghost use Rattle.rowan_table.specs.Cursor.{text_at};

    ghost output = { λ t. Some (text_at t) };

    fn fmt<W: fmt::Write>(&self, f: &mut fmt::Formatter<W>) -> fmt::Result {
        self.green().fmt(f)
    }
}

impl fmt::Debug for SyntaxToken {
    fn fmt<W: fmt::Write>(&self, f: &mut fmt::Formatter<W>) -> fmt::Result {
        self.table.show_element(self.number, "SyntaxToken", f)
    }
}
