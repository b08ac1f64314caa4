//! Nodes and tokens that are borrowed from their tree as one type, and the calls that both have.
ghost use Rattle.std.specs.Prelude.{◌≡◌, IfOk, IfErr, IfSome, Some};
ghost use Rattle.std.specs.Option.{option_map};
ghost use Rattle.rowan_table.specs.Cursor.{index, kind, text_range};
ghost use Rattle.rowan_table.specs.TableView.{IsWithin, element_of};
ghost use Rattle.rowan_table.specs.Moves.{Element, place_of, tree_top, parent};
ghost use Rattle.rowan_table.specs.Moves.{next_sibling_or_token, prev_sibling_or_token};
ghost use Rattle.rowan_table.specs.Moves.{first_token, last_token, element_ancestors};
ghost use Rattle.rowan_cursor.specs.Refs.{node_place, token_place, element_place};
ghost use Rattle.rowan_cursor.specs.Refs.{rest_of_ancestors};

use crate::cursor::{AncestorsRef, SyntaxElement, SyntaxNodeRef, SyntaxTokenRef};
use rowan_green::fault::Fault;
use rowan_green::green::SyntaxKind;
use rowan_green::text::TextRange;
use rowan_green::utility_types::NodeOrToken;
use rowan_table::table::Table;
use std::rc::Rc;

/// A node or a token that is borrowed from its tree. Its calls are those of [`ElementRefCalls`].
pub type SyntaxElementRef<'tree> = NodeOrToken<SyntaxNodeRef<'tree>, SyntaxTokenRef<'tree>>;

// The element with a number.
pub(super) fn at<'tree>(table: &'tree Rc<Table>, number: usize) -> SyntaxElementRef<'tree>
    requires { IsWithin table.now.value number }
    ensures { element_place result ≡ element_of table.now.value number }
{
    if table.is_node(number) {
        NodeOrToken::Node(SyntaxNodeRef::at(table, number))
    } else {
        NodeOrToken::Token(SyntaxTokenRef::at(table, number))
    }
}

// The element with the number that a move found, if it found one.
pub(super) fn found<'tree>(
    table: &'tree Rc<Table>,
    number: Option<usize>,
) -> Option<SyntaxElementRef<'tree>>
    requires { IfSome number (IsWithin table.now.value) }
    ensures { option_map element_place result ≡ option_map (element_of table.now.value) number }
{
    match number {
        Some(number) => Some(at(table, number)),
        None => None,
    }
}

/// The calls of a [`SyntaxElementRef`]. It is a trait since the type of elements is that of another
/// crate.
pub trait ElementRefCalls<'tree>: Copy {
    ghost borrowed: { Self → Element };

    /// The element as a cursor that keeps the tree. `Err(Fault::Memory)` where the count of the
    /// tree's owners is full.
    fn into_owned(self) -> Result<SyntaxElement, Fault>
        ensures ok { IfOk result (λ e. e ≡ borrowed self) }
        ensures err { IfErr result (λ e. e ≡ Fault.Memory) };

    /// Where the element's text lies in the text of the root, in bytes.
    fn text_range(&self) -> TextRange
        ensures { result ≡ text_range (place_of (borrowed self.now)) };

    /// The place of the element among all children of its parent; 0 for a root.
    fn index(&self) -> usize
        ensures { result ≡ index (place_of (borrowed self.now)) };

    /// The kind of the element.
    fn kind(&self) -> SyntaxKind
        ensures { kind (place_of (borrowed self.now)) ≡ Some result.0 };

    /// The parent, or `None` of a root.
    fn parent(&self) -> Option<SyntaxNodeRef<'tree>>
        ensures { option_map node_place result ≡ parent (place_of (borrowed self.now)) };

    /// The root of the tree.
    fn tree_top(&self) -> SyntaxNodeRef<'tree>
        ensures { node_place result ≡ tree_top (place_of (borrowed self.now)) };

    /// The first token of all that are in a node, also an empty one; a token itself.
    fn first_token(&self) -> Option<SyntaxTokenRef<'tree>>
        ensures { option_map token_place result ≡ first_token (place_of (borrowed self.now)) };

    /// The last token of all that are in a node, also an empty one; a token itself.
    fn last_token(&self) -> Option<SyntaxTokenRef<'tree>>
        ensures { option_map token_place result ≡ last_token (place_of (borrowed self.now)) };

    /// The next sibling.
    fn next_sibling_or_token(&self) -> Option<SyntaxElementRef<'tree>>
        ensures { option_map element_place result
            ≡ next_sibling_or_token (place_of (borrowed self.now)) };

    /// The sibling before this one.
    fn prev_sibling_or_token(&self) -> Option<SyntaxElementRef<'tree>>
        ensures { option_map element_place result
            ≡ prev_sibling_or_token (place_of (borrowed self.now)) };

    /// A node and the nodes above it, up to the root; of a token the nodes above it.
    fn ancestors(&self) -> AncestorsRef<'tree>
        ensures { rest_of_ancestors result ≡ element_ancestors (borrowed self.now) };
}

impl<'tree> ElementRefCalls<'tree> for SyntaxElementRef<'tree> {
    ghost use Rattle.rowan_cursor.specs.Refs.{element_place};

    ghost borrowed = { element_place };

    fn into_owned(self) -> Result<SyntaxElement, Fault> {
        match self {
            NodeOrToken::Node(node) => Ok(NodeOrToken::Node(node.to_owned()?)),
            NodeOrToken::Token(token) => Ok(NodeOrToken::Token(token.to_owned()?)),
        }
    }

    fn text_range(&self) -> TextRange {
        for_both!(self, it => it.text_range())
    }

    fn index(&self) -> usize {
        for_both!(self, it => it.index())
    }

    fn kind(&self) -> SyntaxKind {
        for_both!(self, it => it.kind())
    }

    fn parent(&self) -> Option<SyntaxNodeRef<'tree>> {
        for_both!(self, it => it.parent())
    }

    fn tree_top(&self) -> SyntaxNodeRef<'tree> {
        for_both!(self, it => it.tree_top())
    }

    fn first_token(&self) -> Option<SyntaxTokenRef<'tree>> {
        for_both!(self, it => it.first_token())
    }

    fn last_token(&self) -> Option<SyntaxTokenRef<'tree>> {
        for_both!(self, it => it.last_token())
    }

    fn next_sibling_or_token(&self) -> Option<SyntaxElementRef<'tree>> {
        for_both!(self, it => it.next_sibling_or_token())
    }

    fn prev_sibling_or_token(&self) -> Option<SyntaxElementRef<'tree>> {
        for_both!(self, it => it.prev_sibling_or_token())
    }

    fn ancestors(&self) -> AncestorsRef<'tree> {
        for_both!(self, it => it.ancestors())
    }
}
