//! Nodes and tokens of a language that are borrowed from their tree as one type, and the calls that
//! both have.
ghost use Rattle.std.specs.Prelude.{◌≡◌, IfOk, IfErr, Some};
ghost use Rattle.std.specs.Option.{option_map};
ghost use Rattle.rowan_table.specs.Cursor.{index, kind, text_range};
ghost use Rattle.rowan_table.specs.Moves.{Element, place_of, tree_top, parent};
ghost use Rattle.rowan_table.specs.Moves.{next_sibling_or_token, prev_sibling_or_token};
ghost use Rattle.rowan_table.specs.Moves.{element_ancestors};
ghost use Rattle.rowan_cursor.specs.Refs.{element_place as raw_place};
ghost use Rattle.rowan_api.specs.Refs.{node_place, element_place, rest_of_ancestors};

use crate::api::{AncestorsRef, Language, SyntaxElement, SyntaxNodeRef, SyntaxTokenRef};
use rowan_cursor::cursor;
use rowan_green::fault::Fault;
use rowan_green::text::TextRange;
use rowan_green::utility_types::NodeOrToken;

/// A node or a token of a language that is borrowed from its tree. Its calls are those of
/// [`TypedElementRefCalls`].
pub type SyntaxElementRef<'tree, L> = NodeOrToken<
    SyntaxNodeRef<'tree, L>,
    SyntaxTokenRef<'tree, L>,
>;

// The raw element, with the kinds of a language.
pub(super) fn give_kinds<'tree, L>(
    raw: cursor::SyntaxElementRef<'tree>,
) -> SyntaxElementRef<'tree, L>
    ensures { element_place result ≡ raw_place raw.entry }
{
    match raw {
        NodeOrToken::Node(node) => NodeOrToken::Node(SyntaxNodeRef::from(node)),
        NodeOrToken::Token(token) => NodeOrToken::Token(SyntaxTokenRef::from(token)),
    }
}

// The element that a move of the raw one found, if it found one.
pub(super) fn from_answer<'tree, L>(
    raw: Option<cursor::SyntaxElementRef<'tree>>,
) -> Option<SyntaxElementRef<'tree, L>>
    ensures { option_map element_place result ≡ option_map raw_place raw.entry }
{
    match raw {
        Some(raw) => Some(give_kinds(raw)),
        None => None,
    }
}

/// The calls of a [`SyntaxElementRef`]. It is a trait since the type of elements is that of another
/// crate.
pub trait TypedElementRefCalls<'tree, L: Language> {
    ghost borrowed: { Self → Element };

    /// The raw element, with the kinds of the language.
    fn from_raw(raw: cursor::SyntaxElementRef<'tree>) -> Self
        ensures { borrowed result ≡ raw_place raw.entry };

    /// The element without the kinds of the language.
    fn into_raw(self) -> cursor::SyntaxElementRef<'tree>
        ensures { raw_place result ≡ borrowed self };

    /// The element as a cursor that keeps the tree. `Err(Fault::Memory)` where the count of the
    /// tree's owners is full.
    fn into_owned(self) -> Result<SyntaxElement<L>, Fault>
        ensures ok { IfOk result (λ e. e ≡ borrowed self) }
        ensures err { IfErr result (λ e. e ≡ Fault.Memory) };

    /// Where the element's text lies in the text of the root, in bytes.
    fn text_range(&self) -> TextRange
        ensures { result ≡ text_range (place_of (borrowed self.now)) };

    /// The place of the element among all children of its parent; 0 for a root.
    fn index(&self) -> usize
        ensures { result ≡ index (place_of (borrowed self.now)) };

    /// The kind of the element.
    fn kind(&self) -> L::Kind
        ensures { option_map L.meaning (kind (place_of (borrowed self.now))) ≡ Some result };

    /// The parent, or `None` of a root.
    fn parent(&self) -> Option<SyntaxNodeRef<'tree, L>>
        ensures { option_map node_place result ≡ parent (place_of (borrowed self.now)) };

    /// The root of the tree.
    fn tree_top(&self) -> SyntaxNodeRef<'tree, L>
        ensures { node_place result ≡ tree_top (place_of (borrowed self.now)) };

    /// The next sibling.
    fn next_sibling_or_token(&self) -> Option<SyntaxElementRef<'tree, L>>
        ensures { option_map element_place result
            ≡ next_sibling_or_token (place_of (borrowed self.now)) };

    /// The sibling before this one.
    fn prev_sibling_or_token(&self) -> Option<SyntaxElementRef<'tree, L>>
        ensures { option_map element_place result
            ≡ prev_sibling_or_token (place_of (borrowed self.now)) };

    /// A node and the nodes above it, up to the root; of a token the nodes above it.
    fn ancestors(&self) -> AncestorsRef<'tree, L>
        ensures { rest_of_ancestors result ≡ element_ancestors (borrowed self.now) };
}

impl<'tree, L: Language> TypedElementRefCalls<'tree, L> for SyntaxElementRef<'tree, L> {
    ghost use Rattle.rowan_api.specs.Refs.{element_place};

    ghost borrowed = { element_place };

    fn from_raw(raw: cursor::SyntaxElementRef<'tree>) -> SyntaxElementRef<'tree, L> {
        give_kinds(raw)
    }

    fn into_raw(self) -> cursor::SyntaxElementRef<'tree> {
        match self {
            NodeOrToken::Node(node) => NodeOrToken::Node(node.into()),
            NodeOrToken::Token(token) => NodeOrToken::Token(token.into()),
        }
    }

    fn into_owned(self) -> Result<SyntaxElement<L>, Fault> {
        match self {
            NodeOrToken::Node(node) => Ok(NodeOrToken::Node(node.to_owned()?)),
            NodeOrToken::Token(token) => Ok(NodeOrToken::Token(token.to_owned()?)),
        }
    }

    fn text_range(&self) -> TextRange {
        for_both!(self, it => it.text_range())
    }

    fn index(&self) -> usize {
        for_both!(self, it => it.index())
    }

    fn kind(&self) -> L::Kind {
        for_both!(self, it => it.kind())
    }

    fn parent(&self) -> Option<SyntaxNodeRef<'tree, L>> {
        for_both!(self, it => it.parent())
    }

    fn tree_top(&self) -> SyntaxNodeRef<'tree, L> {
        for_both!(self, it => it.tree_top())
    }

    fn next_sibling_or_token(&self) -> Option<SyntaxElementRef<'tree, L>> {
        for_both!(self, it => it.next_sibling_or_token())
    }

    fn prev_sibling_or_token(&self) -> Option<SyntaxElementRef<'tree, L>> {
        for_both!(self, it => it.prev_sibling_or_token())
    }

    fn ancestors(&self) -> AncestorsRef<'tree, L> {
        match self {
            NodeOrToken::Node(node) => node.ancestors(),
            NodeOrToken::Token(token) => token.parent_ancestors(),
        }
    }
}

impl<'tree, L> From<SyntaxNodeRef<'tree, L>> for SyntaxElementRef<'tree, L> {
    ghost use Rattle.rowan_green.specs.declared.utility_types.NodeOrToken.TheVariants.{Node};

    ghost from_gives = { λ node element. element ≡ Node node };

    fn from(node: SyntaxNodeRef<'tree, L>) -> SyntaxElementRef<'tree, L> {
        NodeOrToken::Node(node)
    }
}

impl<'tree, L> From<SyntaxTokenRef<'tree, L>> for SyntaxElementRef<'tree, L> {
    ghost use Rattle.rowan_green.specs.declared.utility_types.NodeOrToken.TheVariants.{Token};

    ghost from_gives = { λ token element. element ≡ Token token };

    fn from(token: SyntaxTokenRef<'tree, L>) -> SyntaxElementRef<'tree, L> {
        NodeOrToken::Token(token)
    }
}
