ghost use Rattle.std.specs.Prelude.{◌≡◌, IfOk, IfErr, Some};
ghost use Rattle.std.specs.Option.{option_map};
ghost use Rattle.rowan_table.specs.Cursor.{index, kind, text_range};
ghost use Rattle.rowan_table.specs.Moves.{Element, place_of, tree_top, parent};
ghost use Rattle.rowan_table.specs.Moves.{next_sibling_or_token, prev_sibling_or_token};
ghost use Rattle.rowan_table.specs.Moves.{element_ancestors};

use crate::api::{Ancestors, Language, SyntaxNode, SyntaxToken};
use rowan_cursor::cursor;
use rowan_green::fault::Fault;
use rowan_green::text::TextRange;
use rowan_green::utility_types::NodeOrToken;

/// A node or a token in a tree of a language. Its calls are those of [`TypedElementCalls`].
pub type SyntaxElement<L> = NodeOrToken<SyntaxNode<L>, SyntaxToken<L>>;

// The raw element, with the kinds of a language.
pub(super) fn give_kinds<L>(raw: cursor::SyntaxElement) -> SyntaxElement<L>
    ensures { result ≡ raw }
{
    match raw {
        NodeOrToken::Node(node) => NodeOrToken::Node(SyntaxNode::from(node)),
        NodeOrToken::Token(token) => NodeOrToken::Token(SyntaxToken::from(token)),
    }
}

// The element that a move of the raw cursor found, if it found one.
pub(super) fn from_answer<L>(raw: Option<cursor::SyntaxElement>) -> Option<SyntaxElement<L>>
    ensures { result ≡ raw }
{
    match raw {
        Some(raw) => Some(give_kinds(raw)),
        None => None,
    }
}

/// The calls of a [`SyntaxElement`]. It is a trait since the type of elements is that of another
/// crate. A move is refused as that of a [`SyntaxNode`] is.
pub trait TypedElementCalls<L: Language> {
    ghost element: { Self → Element };

    /// The raw element, with the kinds of the language.
    fn from_raw(raw: cursor::SyntaxElement) -> Self
        ensures { element result ≡ raw };

    /// The element without the kinds of the language.
    fn into_raw(self) -> cursor::SyntaxElement
        ensures { result ≡ element self };

    /// Where the element's text lies in the text of the root, in bytes.
    fn text_range(&self) -> TextRange
        ensures { result ≡ text_range (place_of (element self.now)) };

    /// The place of the element among all children of its parent; 0 for a root.
    fn index(&self) -> usize
        ensures { result ≡ index (place_of (element self.now)) };

    /// The kind of the element.
    fn kind(&self) -> L::Kind
        ensures { option_map L.meaning (kind (place_of (element self.now))) ≡ Some result };

    /// The parent, or `None` of a root.
    fn parent(&self) -> Result<Option<SyntaxNode<L>>, Fault>
        ensures ok { IfOk result (λ found. found ≡ parent (place_of (element self.now))) }
        ensures err { IfErr result (λ e. e ≡ Fault.Memory) };

    /// The root of the tree.
    fn tree_top(&self) -> Result<SyntaxNode<L>, Fault>
        ensures ok { IfOk result (λ n. n ≡ tree_top (place_of (element self.now))) }
        ensures err { IfErr result (λ e. e ≡ Fault.Memory) };

    /// The next sibling.
    fn next_sibling_or_token(&self) -> Result<Option<SyntaxElement<L>>, Fault>
        ensures ok { IfOk result (λ found.
            found ≡ next_sibling_or_token (place_of (element self.now))) }
        ensures err { IfErr result (λ e. e ≡ Fault.Memory) };

    /// The sibling before this one.
    fn prev_sibling_or_token(&self) -> Result<Option<SyntaxElement<L>>, Fault>
        ensures ok { IfOk result (λ found.
            found ≡ prev_sibling_or_token (place_of (element self.now))) }
        ensures err { IfErr result (λ e. e ≡ Fault.Memory) };

    /// A node and the nodes above it, up to the root; of a token the nodes above it.
    fn ancestors(&self) -> Ancestors<L>
        ensures ok { IfOk result (λ list. list ≡ element_ancestors (element self.now)) }
        ensures err { IfErr result (λ e. e ≡ Fault.Memory) };
}

impl<L: Language> TypedElementCalls<L> for SyntaxElement<L> {
    ghost element = { λ e. e };

    fn from_raw(raw: cursor::SyntaxElement) -> SyntaxElement<L> {
        give_kinds(raw)
    }

    fn into_raw(self) -> cursor::SyntaxElement {
        match self {
            NodeOrToken::Node(node) => NodeOrToken::Node(node.into()),
            NodeOrToken::Token(token) => NodeOrToken::Token(token.into()),
        }
    }

    fn text_range(&self) -> TextRange {
        for_both!(self, it => it.text_range())
    }

    fn index(&self) -> usize {
        for_both!(self, it => it.index())
    }

    fn kind(&self) -> L::Kind {
        for_both!(self, it => it.kind())
    }

    fn parent(&self) -> Result<Option<SyntaxNode<L>>, Fault> {
        for_both!(self, it => it.parent())
    }

    fn tree_top(&self) -> Result<SyntaxNode<L>, Fault> {
        for_both!(self, it => it.tree_top())
    }

    fn next_sibling_or_token(&self) -> Result<Option<SyntaxElement<L>>, Fault> {
        for_both!(self, it => it.next_sibling_or_token())
    }

    fn prev_sibling_or_token(&self) -> Result<Option<SyntaxElement<L>>, Fault> {
        for_both!(self, it => it.prev_sibling_or_token())
    }

    fn ancestors(&self) -> Ancestors<L> {
        match self {
            NodeOrToken::Node(node) => node.ancestors(),
            NodeOrToken::Token(token) => token.parent_ancestors(),
        }
    }
}

impl<L> From<SyntaxNode<L>> for SyntaxElement<L> {
    ghost use Rattle.rowan_green.specs.declared.utility_types.NodeOrToken.TheVariants.{Node};

    ghost from_gives = { λ node element. element ≡ Node node };

    fn from(node: SyntaxNode<L>) -> SyntaxElement<L> {
        NodeOrToken::Node(node)
    }
}

impl<L> From<SyntaxToken<L>> for SyntaxElement<L> {
    ghost use Rattle.rowan_green.specs.declared.utility_types.NodeOrToken.TheVariants.{Token};

    ghost from_gives = { λ token element. element ≡ Token token };

    fn from(token: SyntaxToken<L>) -> SyntaxElement<L> {
        NodeOrToken::Token(token)
    }
}
