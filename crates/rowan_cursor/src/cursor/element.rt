//! Nodes and tokens of a tree as one type, and the calls that both have.
ghost use Rattle.std.specs.Prelude.{◌≡◌, IfOk, IfErr, IfSome, Some};
ghost use Rattle.std.specs.Option.{option_map};
ghost use Rattle.rowan_table.specs.Cursor.{index, kind, text_range};
ghost use Rattle.rowan_table.specs.TableView.{IsWithin, element_of};
ghost use Rattle.rowan_table.specs.Moves.{Element, place_of, tree_top, parent};
ghost use Rattle.rowan_table.specs.Moves.{next_sibling_or_token, prev_sibling_or_token};
ghost use Rattle.rowan_table.specs.Moves.{first_token, last_token, element_ancestors};

use crate::cursor::{Ancestors, SyntaxNode, SyntaxToken};
use rowan_green::fault::Fault;
use rowan_green::green::SyntaxKind;
use rowan_green::text::TextRange;
use rowan_green::utility_types::NodeOrToken;
use rowan_table::table::Table;
use std::alloc::AllocError;
use std::rc::Rc;

/// A node or a token in a tree. Its calls are those of [`ElementCalls`].
pub type SyntaxElement = NodeOrToken<SyntaxNode, SyntaxToken>;

// The element with a number.
pub(super) fn at(table: &Rc<Table>, number: usize) -> Result<SyntaxElement, AllocError>
    requires { IsWithin table.now.value number }
    ensures { IfOk result (λ element. element ≡ element_of table.now.value number) }
{
    if table.is_node(number) {
        Ok(NodeOrToken::Node(SyntaxNode::at(table, number)?))
    } else {
        Ok(NodeOrToken::Token(SyntaxToken::at(table, number)?))
    }
}

// The element with the number that a move found, if it found one.
pub(super) fn option_at(
    table: &Rc<Table>,
    number: Option<usize>,
) -> Result<Option<SyntaxElement>, AllocError>
    requires { IfSome number (IsWithin table.now.value) }
    ensures { IfOk result (λ found. found ≡ option_map (element_of table.now.value) number) }
{
    match number {
        Some(number) => Ok(Some(at(table, number)?)),
        None => Ok(None),
    }
}

/// The calls of a [`SyntaxElement`]. It is a trait since the type of elements is that of another
/// crate. A move is refused as that of a [`SyntaxNode`] is.
pub trait ElementCalls {
    ghost element: { Self → Element };

    /// Where the element's text lies in the text of the root, in bytes.
    fn text_range(&self) -> TextRange
        ensures { result ≡ text_range (place_of (element self.now)) };

    /// The place of the element among all children of its parent; 0 for a root.
    fn index(&self) -> usize
        ensures { result ≡ index (place_of (element self.now)) };

    /// The kind of the element.
    fn kind(&self) -> SyntaxKind
        ensures { kind (place_of (element self.now)) ≡ Some result.0 };

    /// The parent, or `None` of a root.
    fn parent(&self) -> Result<Option<SyntaxNode>, Fault>
        ensures ok { IfOk result (λ found. found ≡ parent (place_of (element self.now))) }
        ensures err { IfErr result (λ e. e ≡ Fault.Memory) };

    /// The root of the tree.
    fn tree_top(&self) -> Result<SyntaxNode, Fault>
        ensures ok { IfOk result (λ n. n ≡ tree_top (place_of (element self.now))) }
        ensures err { IfErr result (λ e. e ≡ Fault.Memory) };

    /// The first token of all that are in a node, also an empty one; a token itself.
    fn first_token(&self) -> Result<Option<SyntaxToken>, Fault>
        ensures ok { IfOk result (λ found. found ≡ first_token (place_of (element self.now))) }
        ensures err { IfErr result (λ e. e ≡ Fault.Memory) };

    /// The last token of all that are in a node, also an empty one; a token itself.
    fn last_token(&self) -> Result<Option<SyntaxToken>, Fault>
        ensures ok { IfOk result (λ found. found ≡ last_token (place_of (element self.now))) }
        ensures err { IfErr result (λ e. e ≡ Fault.Memory) };

    /// The next sibling.
    fn next_sibling_or_token(&self) -> Result<Option<SyntaxElement>, Fault>
        ensures ok { IfOk result (λ found.
            found ≡ next_sibling_or_token (place_of (element self.now))) }
        ensures err { IfErr result (λ e. e ≡ Fault.Memory) };

    /// The sibling before this one.
    fn prev_sibling_or_token(&self) -> Result<Option<SyntaxElement>, Fault>
        ensures ok { IfOk result (λ found.
            found ≡ prev_sibling_or_token (place_of (element self.now))) }
        ensures err { IfErr result (λ e. e ≡ Fault.Memory) };

    /// A node and the nodes above it, up to the root; of a token the nodes above it.
    fn ancestors(&self) -> Ancestors
        ensures ok { IfOk result (λ list. list ≡ element_ancestors (element self.now)) }
        ensures err { IfErr result (λ e. e ≡ Fault.Memory) };
}

impl ElementCalls for SyntaxElement {
    ghost element = { λ e. e };

    fn text_range(&self) -> TextRange {
        for_both!(self, it => it.text_range())
    }

    fn index(&self) -> usize {
        for_both!(self, it => it.index())
    }

    fn kind(&self) -> SyntaxKind {
        for_both!(self, it => it.kind())
    }

    fn parent(&self) -> Result<Option<SyntaxNode>, Fault> {
        for_both!(self, it => it.parent())
    }

    fn tree_top(&self) -> Result<SyntaxNode, Fault> {
        for_both!(self, it => it.tree_top())
    }

    fn first_token(&self) -> Result<Option<SyntaxToken>, Fault> {
        for_both!(self, it => it.first_token())
    }

    fn last_token(&self) -> Result<Option<SyntaxToken>, Fault> {
        for_both!(self, it => it.last_token())
    }

    fn next_sibling_or_token(&self) -> Result<Option<SyntaxElement>, Fault> {
        for_both!(self, it => it.next_sibling_or_token())
    }

    fn prev_sibling_or_token(&self) -> Result<Option<SyntaxElement>, Fault> {
        for_both!(self, it => it.prev_sibling_or_token())
    }

    fn ancestors(&self) -> Ancestors {
        for_both!(self, it => it.ancestors())
    }
}

impl From<SyntaxNode> for SyntaxElement {
    ghost use Rattle.rowan_green.specs.declared.utility_types.NodeOrToken.TheVariants.{Node};

    ghost from_gives = { λ node element. element ≡ Node node };

    fn from(node: SyntaxNode) -> SyntaxElement {
        NodeOrToken::Node(node)
    }
}

impl From<SyntaxToken> for SyntaxElement {
    ghost use Rattle.rowan_green.specs.declared.utility_types.NodeOrToken.TheVariants.{Token};

    ghost from_gives = { λ token element. element ≡ Token token };

    fn from(token: SyntaxToken) -> SyntaxElement {
        NodeOrToken::Token(token)
    }
}
