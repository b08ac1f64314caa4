//! The borrowed wrapper of the nodes of one kind, for every language.
ghost use Rattle.std.specs.Prelude.{◌≡◌, true};
ghost use Rattle.rowan_api.specs.Refs.{node_place};
ghost use Rattle.rowan.specs.Ast.{casts_at, is_meaning};

use super::{AstNodeRef, NodeOf};
use crate::api::{Language, SyntaxNodeRef};
use crate::fault::Fault;
use rowan_green::green::SyntaxKind;
use std::alloc::AllocError;
use std::fmt;
use std::hash::{Hash, Hasher};

/// A node of the kind that a raw kind means, borrowed from its tree: what [`NodeOf`] is, for as
/// long as another cursor keeps the tree.
pub struct NodeOfRef<'tree, L: Language, const KIND: u16> {
    syntax: SyntaxNodeRef<'tree, L>,
    ghost casts: { casts_at L.meaning (is_meaning L.meaning L.Kind.eq KIND) (node_place syntax) ≡ true },
}

impl<'tree, L: Language, const KIND: u16> AstNodeRef<'tree> for NodeOfRef<'tree, L, KIND> {
    type Language = L;

    ghost use Rattle.std.specs.Prelude.{◌≡◌, true};
    ghost use Rattle.std.specs.Option.{option_map};
    ghost use Rattle.rowan_api.specs.Refs.{node_place};
    ghost use Rattle.rowan.specs.Ast.{casts_at, if_casts, is_meaning};
    ghost use Rattle.rowan.specs.NodeIn.{place_in};

    ghost casts = { is_meaning L.meaning L.Kind.eq KIND };

    ghost node_of = { place_in };

    fn can_cast(kind: L::Kind) -> bool
        ensures { result ≡ is_meaning L.meaning L.Kind.eq KIND kind }
    {
        kind == L::kind_from_raw(SyntaxKind(KIND))
    }

    fn cast(syntax: SyntaxNodeRef<'tree, L>) -> Option<NodeOfRef<'tree, L, KIND>>
        ensures { let casting = casts_at L.meaning (is_meaning L.meaning L.Kind.eq KIND) in
            option_map place_in result ≡ if_casts casting (node_place syntax.entry) }
    {
        if Self::can_cast(syntax.kind()) {
            Some(NodeOfRef { syntax })
        } else {
            None
        }
    }

    fn syntax(&self) -> SyntaxNodeRef<'tree, L>
        ensures node { node_place result ≡ place_in self.now }
        ensures casts { let casting = casts_at L.meaning (is_meaning L.meaning L.Kind.eq KIND) in
            casting (node_place result) ≡ true }
    {
        self.syntax
    }
}

impl<'tree, L: Language, const KIND: u16> NodeOfRef<'tree, L, KIND> {
    ghost use Rattle.std.specs.Prelude.{◌≡◌, true, IfOk, IfErr};
    ghost use Rattle.rowan_api.specs.Refs.{node_place};
    ghost use Rattle.rowan.specs.Ast.{casts_at, is_meaning};
    ghost use Rattle.rowan.specs.NodeIn.{place_in};

    /// The wrapper of a node whose kind casts.
    pub(super) fn of(syntax: SyntaxNodeRef<'tree, L>) -> NodeOfRef<'tree, L, KIND>
        requires { let casting = casts_at L.meaning (is_meaning L.meaning L.Kind.eq KIND) in
            casting (node_place syntax) ≡ true }
        ensures { place_in result ≡ node_place syntax.entry }
    {
        NodeOfRef { syntax }
    }

    /// The same node in a wrapper that keeps the tree. Refused with `Memory` alone.
    pub fn to_owned(&self) -> Result<NodeOf<L, KIND>, Fault>
        ensures ok { IfOk result (λ owned. owned ≡ place_in self.now) }
        ensures err { IfErr result (λ e. e ≡ Fault.Memory) }
    {
        let syntax = self.syntax.to_owned()?;
        Ok(NodeOf::of(syntax))
    }
}

impl<'tree, L: Language, const KIND: u16> Clone for NodeOfRef<'tree, L, KIND> {
    ghost is_clone = { λ wrapper copy. copy ≡ wrapper };

    fn clone(&self) -> Result<NodeOfRef<'tree, L, KIND>, AllocError> {
        Ok(*self)
    }
}

impl<'tree, L: Language, const KIND: u16> Copy for NodeOfRef<'tree, L, KIND> {}

impl<'tree, L: Language, const KIND: u16> PartialEq for NodeOfRef<'tree, L, KIND> {
    ghost use Rattle.std.specs.Cmp.{partial_equiv_from_equiv, on_equiv};
    ghost use Rattle.rowan_table.specs.Equal.{same_place, same_place-laws};
    ghost use Rattle.rowan.specs.NodeIn.{place_in};

    ghost eq = { λ m n. same_place (place_in m) (place_in n) };

    ghost laws = { partial_equiv_from_equiv (on_equiv place_in same_place-laws) };

    fn eq(&self, other: &NodeOfRef<'tree, L, KIND>) -> bool {
        self.syntax == other.syntax
    }
}

impl<'tree, L: Language, const KIND: u16> Eq for NodeOfRef<'tree, L, KIND> {
    ghost use Rattle.std.specs.Cmp.{on_equiv};
    ghost use Rattle.rowan_table.specs.Equal.{same_place-laws};
    ghost use Rattle.rowan.specs.NodeIn.{place_in};

    ghost laws = { on_equiv place_in same_place-laws };
}

impl<'tree, L: Language, const KIND: u16> Hash for NodeOfRef<'tree, L, KIND> {
    ghost use Rattle.rowan_table.specs.Equal.{fed_place, fed_place-same};
    ghost use Rattle.rowan.specs.NodeIn.{place_in};

    ghost hash_input = { λ n. fed_place (place_in n) };

    ghost respects_eq = { λ m n. fed_place-same (place_in m) (place_in n) };

    fn hash<H: Hasher>(&self, state: &mut H) {
        self.syntax.hash(state);
    }
}

/// Prints as its node does.
impl<'tree, L: Language, const KIND: u16> fmt::Debug for NodeOfRef<'tree, L, KIND> {
    fn fmt<W: fmt::Write>(&self, f: &mut fmt::Formatter<W>) -> fmt::Result {
        self.syntax.fmt(f)
    }
}
