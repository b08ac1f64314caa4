//! Lists of elements of a language that are borrowed from their tree.
ghost use Rattle.std.specs.Prelude.{List};
ghost use Rattle.std.specs.Iterator.{YieldsFirstBy};
ghost use Rattle.rowan_table.specs.Moves.{Element};
ghost use Rattle.rowan_cursor.specs.Refs.{element_place as raw_place};

use crate::api::{Language, SyntaxElementRef, SyntaxTokenRef, element_ref};
use rowan_cursor::cursor;
use rowan_green::utility_types::NodeOrToken;
use std::fmt;
use std::marker::PhantomData;

/// A raw list of elements that are borrowed from their tree.
pub trait ElementsRef<'tree>: Drop {
    ghost rest: { Self → List Element };

    /// The next element.
    fn next_element(&mut self) -> Option<cursor::SyntaxElementRef<'tree>>
        ensures { YieldsFirstBy raw_place rest self.old result self.new };
}

impl<'tree> ElementsRef<'tree> for cursor::SyntaxElementChildrenRef<'tree> {
    ghost use Rattle.rowan_cursor.specs.Refs.{rest_of_elements};

    ghost rest = { rest_of_elements };

    fn next_element(&mut self) -> Option<cursor::SyntaxElementRef<'tree>> {
        self.next()
    }
}

impl<'tree> ElementsRef<'tree> for cursor::DescendantsWithTokensRef<'tree> {
    ghost use Rattle.rowan_cursor.specs.RefWalks.{rest_of_all_descendants};

    ghost rest = { rest_of_all_descendants };

    fn next_element(&mut self) -> Option<cursor::SyntaxElementRef<'tree>> {
        self.next()
    }
}

/// The elements of a raw list, with the kinds of a language.
#[derive_where(Clone, Copy; I)]
pub struct TypedElementsRef<'tree, L, I> {
    raw: I,
    language: PhantomData<L>,
    tree: PhantomData<&'tree ()>,
}

/// The children of a node, from the first on.
pub type SyntaxElementChildrenRef<'tree, L> = TypedElementsRef<
    'tree,
    L,
    cursor::SyntaxElementChildrenRef<'tree>,
>;

/// A node or token and its siblings in one direction, from itself on.
pub type SiblingsWithTokensRef<'tree, L> = TypedElementsRef<
    'tree,
    L,
    cursor::SiblingsWithTokensRef<'tree>,
>;

/// A node and all that is below it, in the order of the tree: each element before what is below it.
pub type DescendantsWithTokensRef<'tree, L> = TypedElementsRef<
    'tree,
    L,
    cursor::DescendantsWithTokensRef<'tree>,
>;

impl<'tree, L, I> TypedElementsRef<'tree, L, I> {
    ghost use Rattle.std.specs.Prelude.{◌≡◌};

    pub(super) fn new(raw: I) -> TypedElementsRef<'tree, L, I>
        ensures { result.raw ≡ raw }
    {
        TypedElementsRef {
            raw,
            language: PhantomData,
            tree: PhantomData,
        }
    }
}

impl<'tree, L: Language, I: ElementsRef<'tree>> TypedElementsRef<'tree, L, I> {
    ghost use Rattle.std.specs.Prelude.{◌≡◌};
    ghost use Rattle.std.specs.List.{find};
    ghost use Rattle.std.specs.Option.{option_map};
    ghost use Rattle.rowan_cursor.specs.Kinds.{tokens_in};
    ghost use Rattle.rowan_api.specs.Kinds.{has_kind};
    ghost use Rattle.rowan_api.specs.Refs.{token_place};

    // The first of them that is a token of a kind.
    pub(super) fn first_token_by_kind(mut self, kind: L::Kind) -> Option<SyntaxTokenRef<'tree, L>>
        ensures { option_map token_place result
            ≡ find (has_kind L.meaning L.Kind.eq kind) (tokens_in (I.rest self.entry.raw)) }
    {
        while let Some(element) = self.next() {
            if let NodeOrToken::Token(token) = element
                && token.kind() == kind
            {
                return Some(token);
            }
        }
        None
    }
}

impl<'tree, L, I: ElementsRef<'tree>> Iterator for TypedElementsRef<'tree, L, I> {
    type Item = SyntaxElementRef<'tree, L>;

    ghost use Rattle.std.specs.Iterator.{YieldsFirstBy, item_count};
    ghost use Rattle.rowan_api.specs.Refs.{element_place};

    ghost next_gives = { YieldsFirstBy element_place (λ list. I.rest list.raw) };

    ghost remaining = { item_count (λ list. I.rest list.raw) };

    fn next(&mut self) -> Option<SyntaxElementRef<'tree, L>> {
        match self.raw.next_element() {
            Some(raw) => Some(element_ref::give_kinds(raw)),
            None => None,
        }
    }

    fn size_hint(&self) -> (usize, Option<usize>) {
        (0, None)
    }
}

impl<'tree, L, I: fmt::Debug> fmt::Debug for TypedElementsRef<'tree, L, I> {
    fn fmt<W: fmt::Write>(&self, f: &mut fmt::Formatter<W>) -> fmt::Result {
        self.raw.fmt(f)
    }
}
