//! The children of a node, borrowed, one after the other; and siblings.
ghost use Rattle.rowan_cursor.specs.Walks.{HasRow};

use crate::cursor::row::Row;
use crate::cursor::{SyntaxElementRef, SyntaxTokenRef, element_ref};
use rowan_green::green::SyntaxKind;
use rowan_green::utility_types::NodeOrToken;
use rowan_table::table::Table;
use std::fmt;
use std::rc::Rc;

/// The children of a node, from the first on; or, as [`SiblingsWithTokensRef`], an element and its
/// siblings in one direction.
#[derive(Clone, Copy)]
pub struct SyntaxElementChildrenRef<'tree> {
    table: &'tree Rc<Table>,
    row: Row,
    ghost fits: { HasRow table.now.value row },
}

/// A node or token and its siblings in one direction, from itself on.
pub type SiblingsWithTokensRef<'tree> = SyntaxElementChildrenRef<'tree>;

impl<'tree> SyntaxElementChildrenRef<'tree> {
    ghost use Rattle.std.specs.Prelude.{◌≡◌, ◌^◌, ◌<◌, length};
    ghost use Rattle.std.specs.Option.{option_map};
    ghost use Rattle.rowan_cursor.specs.Kinds.{first_of_kind, tokens_in};
    ghost use Rattle.rowan_cursor.specs.Refs.{token_place, rest_of_elements};
    ghost use Rattle.rowan_cursor.specs.Walks.{row_elements, HasRow};

    pub(super) fn new(table: &'tree Rc<Table>, row: Row) -> SyntaxElementChildrenRef<'tree>
        requires { HasRow table.now.value row }
        ensures list { rest_of_elements result ≡ row_elements table.now.value row }
        ensures count { length (rest_of_elements result) < 2 ^ 64 }
    {
        SyntaxElementChildrenRef { table, row }
    }

    // The first of them that is a token of a kind.
    pub(super) fn first_token_by_kind(mut self, kind: SyntaxKind) -> Option<SyntaxTokenRef<'tree>>
        ensures { option_map token_place result
            ≡ first_of_kind kind.0 (tokens_in (rest_of_elements self.entry)) }
    {
        while let Some(element) = self.next() {
            if let NodeOrToken::Token(token) = element
                && token.kind() == kind
            {
                return Some(token);
            }
        }
        None
    }
}

impl<'tree> Iterator for SyntaxElementChildrenRef<'tree> {
    type Item = SyntaxElementRef<'tree>;

    ghost use Rattle.std.specs.Iterator.{YieldsFirstBy, item_count};
    ghost use Rattle.rowan_cursor.specs.Refs.{element_place, rest_of_elements};

    ghost next_gives = { YieldsFirstBy element_place rest_of_elements };

    ghost remaining = { item_count rest_of_elements };

    fn next(&mut self) -> Option<SyntaxElementRef<'tree>> {
        let table = self.table;
        match self.row.next() {
            Some(number) => Some(element_ref::at(table, number)),
            None => None,
        }
    }
}

impl fmt::Debug for SyntaxElementChildrenRef<'_> {
    fn fmt<W: fmt::Write>(&self, f: &mut fmt::Formatter<W>) -> fmt::Result {
        f.write_str("SyntaxElementChildrenRef")
    }
}
