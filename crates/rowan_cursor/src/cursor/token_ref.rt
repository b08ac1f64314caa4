//! Tokens that are borrowed from their tree, and their moves.
mod equal;

ghost use Rattle.rowan_table.specs.TableView.{IsTokenIn};

use crate::cursor::climb::Climb;
use crate::cursor::row::Row;
use crate::cursor::{
    AncestorsRef, SiblingsWithTokensRef, SyntaxElementRef, SyntaxNodeRef, SyntaxToken, element_ref,
};
use rowan_green::fault::Fault;
use rowan_green::green::{GreenNode, GreenToken, SyntaxKind};
use rowan_green::text::TextRange;
use rowan_green::utility_types::Direction;
use rowan_table::table::Table;
use std::rc::Rc;

/// A token that is borrowed from its tree: what [`SyntaxToken`] is, for as long as another cursor
/// keeps the tree. It is copied at will, a move has a plain answer, and no call asks for memory but
/// those that answer something owned.
#[derive(Clone, Copy)]
pub struct SyntaxTokenRef<'tree> {
    table: &'tree Rc<Table>,
    number: usize,
    ghost stands: { IsTokenIn table.now.value number },
}

impl<'tree> SyntaxTokenRef<'tree> {
    ghost use Rattle.std.specs.Prelude.{◌≡◌, ◌^◌, ◌<◌, length, IfOk, IfErr, IfSome, Some};
    ghost use Rattle.std.specs.Option.{option_map};
    ghost use Rattle.rowan_green.specs.declared.utility_types.NodeOrToken.TheVariants.{Token};
    ghost use Rattle.rowan_table.specs.Cursor.{StandsAtToken, index, kind, text_range, text_at};
    ghost use Rattle.rowan_table.specs.TableView.{cursor_of, IsTokenIn};
    ghost use Rattle.rowan_table.specs.Moves.{tree_top, parent, next_sibling_or_token};
    ghost use Rattle.rowan_table.specs.Moves.{prev_sibling_or_token, first_token, last_token};
    ghost use Rattle.rowan_table.specs.Moves.{next_token, prev_token, siblings_with_tokens};
    ghost use Rattle.rowan_table.specs.Moves.{parent_ancestors};
    ghost use Rattle.rowan_cursor.specs.Refs.{node_place, token_place, element_place};
    ghost use Rattle.rowan_cursor.specs.Refs.{rest_of_elements, rest_of_ancestors};
    ghost use Rattle.rowan_table.specs.Replacement.{IsReplacement, KeepsTheRest, WhyNoReplacement};

    // The token with a number.
    pub(super) fn at(table: &'tree Rc<Table>, number: usize) -> SyntaxTokenRef<'tree>
        requires { IsTokenIn table.now.value number }
        ensures { token_place result ≡ cursor_of table.now.value number }
    {
        SyntaxTokenRef { table, number }
    }

    // The token with the number that a move found, if it found one.
    pub(super) fn found(
        table: &'tree Rc<Table>,
        number: Option<usize>,
    ) -> Option<SyntaxTokenRef<'tree>>
        requires { IfSome number (IsTokenIn table.now.value) }
        ensures { option_map token_place result ≡ option_map (cursor_of table.now.value) number }
    {
        match number {
            Some(number) => Some(SyntaxTokenRef::at(table, number)),
            None => None,
        }
    }

    /// The token as a cursor that keeps the tree. `Err(Fault::Memory)` where the count of the
    /// tree's owners is full.
    pub fn to_owned(&self) -> Result<SyntaxToken, Fault>
        ensures ok { IfOk result (λ t. t ≡ token_place self.now) }
        ensures err { IfErr result (λ e. e ≡ Fault.Memory) }
    {
        Ok(SyntaxToken::at(self.table, self.number)?)
    }

    /// The root of a new tree: of the tree of this token, with another green token in its place.
    /// For each ancestor one new node is made, and all other children are shared. Nothing is
    /// changed in place: this tree and all its cursors answer as before.
    ///
    /// `Err(Fault::OtherKind)` where the replacement is of another kind, which is looked at before
    /// all else; `Err(Fault::TextTooLong)` where a node of the new tree would have more than
    /// 4,294,967,295 bytes of text; `Err(Fault::Memory)` for want of memory.
    pub fn replace_with(&self, replacement: GreenToken) -> Result<GreenNode, Fault>
        ensures ok { IfOk result (IsReplacement (token_place self.now) (Token replacement)) }
        ensures rest { IfOk result (KeepsTheRest (token_place self.now) (Token replacement)) }
        ensures own { StandsAtToken (token_place self.now) replacement
            → IfOk result (λ n. n ≡ (token_place self.now).root) }
        ensures err { IfErr result (WhyNoReplacement (token_place self.now) (Token replacement)) }
    {
        if replacement.kind() != self.kind() {
            return Err(Fault::OtherKind);
        }
        self.table.replace_token(self.number, replacement)
    }

    /// The kind of the token.
    pub fn kind(&self) -> SyntaxKind
        ensures { kind (token_place self.now) ≡ Some result.0 }
    {
        self.green().kind()
    }

    /// Where the token's text lies in the text of the root, in bytes.
    pub fn text_range(&self) -> TextRange
        ensures { result ≡ text_range (token_place self.now) }
    {
        self.table.text_range(self.number)
    }

    /// The place of the token among all children of its parent.
    pub fn index(&self) -> usize
        ensures { result ≡ index (token_place self.now) }
    {
        self.table.index(self.number)
    }

    /// The text of the token, lent for as long as the tree is.
    pub fn text(&self) -> &'tree str
        ensures { result.now ≡ text_at (token_place self.now) }
    {
        self.green().text()
    }

    /// The green token at this place, lent for as long as the tree is.
    pub fn green(&self) -> &'tree GreenToken
        ensures { StandsAtToken (token_place self.now) result.now }
    {
        self.table.token(self.number)
    }

    /// The root of the tree.
    pub fn tree_top(&self) -> SyntaxNodeRef<'tree>
        ensures { node_place result ≡ tree_top (token_place self.now) }
    {
        SyntaxNodeRef::at(self.table, 0)
    }

    /// The parent.
    pub fn parent(&self) -> Option<SyntaxNodeRef<'tree>>
        ensures { option_map node_place result ≡ parent (token_place self.now) }
    {
        SyntaxNodeRef::found(self.table, self.table.parent(self.number))
    }

    /// The next sibling.
    pub fn next_sibling_or_token(&self) -> Option<SyntaxElementRef<'tree>>
        ensures { option_map element_place result ≡ next_sibling_or_token (token_place self.now) }
    {
        element_ref::found(self.table, self.table.next_sibling_or_token(self.number))
    }

    /// The sibling before this one.
    pub fn prev_sibling_or_token(&self) -> Option<SyntaxElementRef<'tree>>
        ensures { option_map element_place result ≡ prev_sibling_or_token (token_place self.now) }
    {
        element_ref::found(self.table, self.table.prev_sibling_or_token(self.number))
    }

    /// The next token of the tree, also an empty one, whatever node it is in.
    pub fn next_token(&self) -> Option<SyntaxTokenRef<'tree>>
        ensures { option_map token_place result ≡ next_token (token_place self.now) }
    {
        SyntaxTokenRef::found(self.table, self.table.next_token(self.number))
    }

    /// The token of the tree before this one, also an empty one, whatever node it is in.
    pub fn prev_token(&self) -> Option<SyntaxTokenRef<'tree>>
        ensures { option_map token_place result ≡ prev_token (token_place self.now) }
    {
        SyntaxTokenRef::found(self.table, self.table.prev_token(self.number))
    }

    // The token itself.
    pub(super) fn first_token(&self) -> Option<SyntaxTokenRef<'tree>>
        ensures { option_map token_place result ≡ first_token (token_place self.now) }
    {
        SyntaxTokenRef::found(self.table, self.table.first_token(self.number))
    }

    // The token itself.
    pub(super) fn last_token(&self) -> Option<SyntaxTokenRef<'tree>>
        ensures { option_map token_place result ≡ last_token (token_place self.now) }
    {
        SyntaxTokenRef::found(self.table, self.table.last_token(self.number))
    }

    /// The nodes above the token: its parent, and so on up to the root.
    pub fn ancestors(&self) -> AncestorsRef<'tree>
        ensures { rest_of_ancestors result ≡ parent_ancestors (token_place self.now) }
    {
        AncestorsRef::new(self.table, Climb::new(self.table.parent(self.number)))
    }

    /// The token, and then its siblings in a direction, nearest first.
    pub fn siblings_with_tokens(&self, direction: Direction) -> SiblingsWithTokensRef<'tree>
        ensures list { rest_of_elements result
            ≡ siblings_with_tokens direction (token_place self.now) }
        ensures count { length (rest_of_elements result) < 2 ^ 64 }
    {
        SiblingsWithTokensRef::new(
            self.table,
            Row::siblings(self.table, self.number, direction),
        )
    }
}
