//! Moves from a borrowed node.
ghost use Rattle.std.specs.Prelude.{◌≡◌};
ghost use Rattle.std.specs.List.{find};
ghost use Rattle.std.specs.Option.{option_map};
ghost use Rattle.rowan_cursor.specs.Kinds.{nodes_behind, tokens_in};
ghost use Rattle.rowan_table.specs.Moves.{tree_top, parent, first_child, last_child};
ghost use Rattle.rowan_table.specs.Moves.{first_child_or_token, last_child_or_token};
ghost use Rattle.rowan_table.specs.Moves.{child_or_token_at_index, next_sibling, prev_sibling};
ghost use Rattle.rowan_table.specs.Moves.{next_sibling_or_token, prev_sibling_or_token};
ghost use Rattle.rowan_table.specs.Moves.{first_token, last_token, children, children_with_tokens};
ghost use Rattle.rowan_api.specs.Kinds.{has_kind};
ghost use Rattle.rowan_api.specs.Refs.{node_place, token_place, element_place};

use super::SyntaxNodeRef;
use crate::api::{Language, SyntaxElementRef, SyntaxTokenRef, element_ref};
use rowan_green::utility_types::Direction;

impl<'tree, L> SyntaxNodeRef<'tree, L> {
    /// The root of the tree.
    pub fn tree_top(&self) -> SyntaxNodeRef<'tree, L>
        ensures { node_place result ≡ tree_top (node_place self.now) }
    {
        SyntaxNodeRef::from(self.raw.tree_top())
    }

    /// The parent, or `None` of a root.
    pub fn parent(&self) -> Option<SyntaxNodeRef<'tree, L>>
        ensures { option_map node_place result ≡ parent (node_place self.now) }
    {
        SyntaxNodeRef::from_answer(self.raw.parent())
    }

    /// The first child that is a node.
    pub fn first_child(&self) -> Option<SyntaxNodeRef<'tree, L>>
        ensures { option_map node_place result ≡ first_child (node_place self.now) }
    {
        SyntaxNodeRef::from_answer(self.raw.first_child())
    }

    /// The last child that is a node.
    pub fn last_child(&self) -> Option<SyntaxNodeRef<'tree, L>>
        ensures { option_map node_place result ≡ last_child (node_place self.now) }
    {
        SyntaxNodeRef::from_answer(self.raw.last_child())
    }

    /// The first child.
    pub fn first_child_or_token(&self) -> Option<SyntaxElementRef<'tree, L>>
        ensures { option_map element_place result ≡ first_child_or_token (node_place self.now) }
    {
        element_ref::from_answer(self.raw.first_child_or_token())
    }

    /// The last child.
    pub fn last_child_or_token(&self) -> Option<SyntaxElementRef<'tree, L>>
        ensures { option_map element_place result ≡ last_child_or_token (node_place self.now) }
    {
        element_ref::from_answer(self.raw.last_child_or_token())
    }

    /// The child at an index among all children, or `None` past the last one.
    pub fn child_or_token_at_index(&self, index: usize) -> Option<SyntaxElementRef<'tree, L>>
        ensures { option_map element_place result
            ≡ child_or_token_at_index (node_place self.now) index }
    {
        element_ref::from_answer(self.raw.child_or_token_at_index(index))
    }

    /// The next sibling that is a node.
    pub fn next_sibling(&self) -> Option<SyntaxNodeRef<'tree, L>>
        ensures { option_map node_place result ≡ next_sibling (node_place self.now) }
    {
        SyntaxNodeRef::from_answer(self.raw.next_sibling())
    }

    /// The nearest sibling before this one that is a node.
    pub fn prev_sibling(&self) -> Option<SyntaxNodeRef<'tree, L>>
        ensures { option_map node_place result ≡ prev_sibling (node_place self.now) }
    {
        SyntaxNodeRef::from_answer(self.raw.prev_sibling())
    }

    /// The next sibling.
    pub fn next_sibling_or_token(&self) -> Option<SyntaxElementRef<'tree, L>>
        ensures { option_map element_place result ≡ next_sibling_or_token (node_place self.now) }
    {
        element_ref::from_answer(self.raw.next_sibling_or_token())
    }

    /// The sibling before this one.
    pub fn prev_sibling_or_token(&self) -> Option<SyntaxElementRef<'tree, L>>
        ensures { option_map element_place result ≡ prev_sibling_or_token (node_place self.now) }
    {
        element_ref::from_answer(self.raw.prev_sibling_or_token())
    }

    /// The first token of all that are in this node, also an empty one.
    pub fn first_token(&self) -> Option<SyntaxTokenRef<'tree, L>>
        ensures { option_map token_place result ≡ first_token (node_place self.now) }
    {
        SyntaxTokenRef::from_answer(self.raw.first_token())
    }

    /// The last token of all that are in this node, also an empty one.
    pub fn last_token(&self) -> Option<SyntaxTokenRef<'tree, L>>
        ensures { option_map token_place result ≡ last_token (node_place self.now) }
    {
        SyntaxTokenRef::from_answer(self.raw.last_token())
    }
}

impl<'tree, L: Language> SyntaxNodeRef<'tree, L> {
    /// The first child that is a node of a kind.
    pub fn first_child_by_kind(&self, kind: L::Kind) -> Option<SyntaxNodeRef<'tree, L>>
        ensures { option_map node_place result
            ≡ find (has_kind L.meaning L.Kind.eq kind) (children (node_place self.now)) }
    {
        self.children().first_by_kind(kind)
    }

    /// The next sibling that is a node of a kind.
    pub fn next_sibling_by_kind(&self, kind: L::Kind) -> Option<SyntaxNodeRef<'tree, L>>
        ensures { option_map node_place result
            ≡ find (has_kind L.meaning L.Kind.eq kind) (nodes_behind (node_place self.now)) }
    {
        let mut siblings = self.siblings(Direction::Next);
        siblings.next();
        siblings.first_by_kind(kind)
    }

    /// The first child that is a token of a kind.
    pub fn first_token_of_kind(&self, kind: L::Kind) -> Option<SyntaxTokenRef<'tree, L>>
        ensures { option_map token_place result
            ≡ find (has_kind L.meaning L.Kind.eq kind)
            (tokens_in (children_with_tokens (node_place self.now))) }
    {
        self.children_with_tokens().first_token_by_kind(kind)
    }
}
