//! The wrapper of the nodes of one kind, for every language.
ghost use Rattle.std.specs.Prelude.{◌≡◌};

use super::{AstNode, NodeOfRef};
use crate::api::{Language, SyntaxNode};
use rowan_green::green::SyntaxKind;
use std::alloc::AllocError;
use std::fmt;
use std::hash::{Hash, Hasher};
use std::marker::Model;

/// A node of the kind that a raw kind means. The number of the raw kind is part of the type, so a
/// wrapper is an alias:
///
/// ```rust
/// pub type Item = NodeOf<Lists, 3>;
/// pub type ItemRef<'tree> = NodeOfRef<'tree, Lists, 3>;
/// ```
///
/// A node casts where its kind equals that one, also by another raw kind that means it. Contracts
/// see the node. Two wrappers are equal if their nodes are.
#[derive(Drop)]
pub struct NodeOf<L: Language, const KIND: u16> {
    syntax: SyntaxNode<L>,
}

impl<L: Language, const KIND: u16> Model for NodeOf<L, KIND> {
    ghost use Rattle.std.specs.Prelude.{◌≡◌, true};
    ghost use Rattle.rowan_table.specs.Cursor.{Cursor};
    ghost use Rattle.rowan_cursor.specs.CursorCode.{coded_cursor};
    ghost use Rattle.rowan.specs.Ast.{casts_at, is_meaning};

    ghost Value = { Cursor };

    ghost coded = { coded_cursor };

    ghost view = { λ wrapper. wrapper.syntax };

    ghost inverse = { λ node. record { syntax = node } };

    ghost invariant = { λ wrapper.
        casts_at L.meaning (is_meaning L.meaning L.Kind.eq KIND) wrapper.syntax ≡ true };
}

impl<L: Language, const KIND: u16> AstNode for NodeOf<L, KIND> {
    type Language = L;

    ghost use Rattle.std.specs.Prelude.{◌≡◌};
    ghost use Rattle.std.specs.Option.{option_map};
    ghost use Rattle.rowan.specs.Ast.{casts_at, if_casts, is_meaning};

    ghost casts = { is_meaning L.meaning L.Kind.eq KIND };

    ghost node_of = { λ wrapper. wrapper };

    fn can_cast(kind: L::Kind) -> bool {
        kind == L::kind_from_raw(SyntaxKind(KIND))
    }

    fn cast(syntax: SyntaxNode<L>) -> Option<NodeOf<L, KIND>>
        ensures { let casting = casts_at L.meaning (is_meaning L.meaning L.Kind.eq KIND) in
            option_map (λ wrapper. wrapper) result ≡ if_casts casting syntax }
    {
        if Self::can_cast(syntax.kind()) {
            Some(NodeOf { syntax })
        } else {
            None
        }
    }

    fn syntax(&self) -> &SyntaxNode<L> {
        &self.syntax
    }

    ghost equal_kinds = { λ a b same. L.Kind.Eq.laws.congr a b (L.meaning KIND) same };
}

impl<L: Language, const KIND: u16> NodeOf<L, KIND> {
    ghost use Rattle.std.specs.Prelude.{◌≡◌, true};
    ghost use Rattle.rowan.specs.Ast.{casts_at, is_meaning};
    ghost use Rattle.rowan.specs.NodeIn.{place_in};

    /// The wrapper of a node whose kind casts.
    pub(super) fn of(syntax: SyntaxNode<L>) -> NodeOf<L, KIND>
        requires { casts_at L.meaning (is_meaning L.meaning L.Kind.eq KIND) syntax ≡ true }
        ensures { result ≡ syntax }
    {
        NodeOf { syntax }
    }

    /// The same node, borrowed from its tree.
    pub fn as_ref(&self) -> NodeOfRef<'_, L, KIND>
        ensures { place_in result ≡ self.now }
    {
        NodeOfRef::of(self.syntax.as_ref())
    }
}

impl<L: Language, const KIND: u16> Clone for NodeOf<L, KIND> {
    ghost is_clone = { λ wrapper copy. copy ≡ wrapper };

    fn clone(&self) -> Result<NodeOf<L, KIND>, AllocError> {
        let syntax = self.syntax.clone()?;
        Ok(NodeOf { syntax })
    }
}

impl<L: Language, const KIND: u16> PartialEq for NodeOf<L, KIND> {
    ghost use Rattle.std.specs.Cmp.{partial_equiv_from_equiv};
    ghost use Rattle.rowan_table.specs.Equal.{same_place, same_place-laws};

    ghost eq = { same_place };

    ghost laws = { partial_equiv_from_equiv same_place-laws };

    fn eq(&self, other: &NodeOf<L, KIND>) -> bool {
        self.syntax == other.syntax
    }
}

impl<L: Language, const KIND: u16> Eq for NodeOf<L, KIND> {
    ghost use Rattle.rowan_table.specs.Equal.{same_place-laws};

    ghost laws = { same_place-laws };
}

impl<L: Language, const KIND: u16> Hash for NodeOf<L, KIND> {
    ghost use Rattle.rowan_table.specs.Equal.{fed_place, fed_place-same};

    ghost hash_input = { fed_place };

    ghost respects_eq = { fed_place-same };

    fn hash<H: Hasher>(&self, state: &mut H) {
        self.syntax.hash(state);
    }
}

/// Prints as its node does.
impl<L: Language, const KIND: u16> fmt::Debug for NodeOf<L, KIND> {
    fn fmt<W: fmt::Write>(&self, f: &mut fmt::Formatter<W>) -> fmt::Result {
        self.syntax.fmt(f)
    }
}
