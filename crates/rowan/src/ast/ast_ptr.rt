//! Pointers to nodes that cast to a wrapper.
use super::{AstNode, SyntaxNodePtr};
use crate::api::{Language, SyntaxNode, SyntaxNodeRef};
use crate::fault::Fault;
use std::alloc::AllocError;
use std::marker::Model;

/// A pointer to a node that casts to a wrapper: a [`SyntaxNodePtr`] with a kind that casts. So it
/// leads to a wrapper wherever that one leads to a node.
#[derive(Drop)]
#[derive_where(PartialEq, Eq, Hash, Debug)]
pub struct AstPtr<N: AstNode> {
    raw: SyntaxNodePtr<N::Language>,
}

impl<N: AstNode> Model for AstPtr<N> {
    ghost use Rattle.std.specs.Prelude.{◌≡◌, true};
    ghost use Rattle.rowan.specs.Pointer.{Pointer};

    ghost Value = { Pointer N.Language.Kind };

    ghost view = { λ p. p.raw };

    ghost inverse = { λ p. record { raw = p } };

    ghost invariant = { λ p. N.casts p.raw.kind ≡ true };
}

impl<N: AstNode> AstPtr<N> {
    ghost use Rattle.std.specs.Prelude.{◌≡◌, ◌≢◌, true, if◌then◌else◌, IfOk, IfErr, Some, None};
    ghost use Rattle.std.specs.Option.{option_map};
    ghost use Rattle.rowan_green.specs.declared.fault.Fault.TheVariants.{Memory, NotFound};
    ghost use Rattle.rowan_api.specs.Refs.{node_place};
    ghost use Rattle.rowan.specs.Pointer.{pointer_to, means_kind, Resolves};

    /// The pointer to the node in a wrapper.
    pub fn new(node: &N) -> AstPtr<N>
        ensures { pointer_to N.Language.meaning (N.node_of node.now) ≡ Some result }
    {
        AstPtr {
            raw: SyntaxNodePtr::new(node.syntax()),
        }
    }

    /// The wrapper of the node to which the pointer leads in a tree, as
    /// `SyntaxNodePtr::try_to_node` finds it; `None` where that finds none. Refused with `Memory`
    /// alone.
    pub fn try_to_node(&self, root: &SyntaxNode<N::Language>) -> Result<Option<N>, Fault>
        ensures ok { let means = means_kind N.Language.meaning N.Language.Kind.eq self.now.kind in
            IfOk result (λ found.
            Resolves means self.now.range root.now (option_map N.node_of found)) }
        ensures err { IfErr result (λ e. e ≡ Memory) }
    {
        self.try_to_node_of(root.as_ref())
    }

    /// Answers as `try_to_node` does, in a borrowed tree.
    pub fn try_to_node_of(&self, root: SyntaxNodeRef<'_, N::Language>) -> Result<Option<N>, Fault>
        ensures ok { let means = means_kind N.Language.meaning N.Language.Kind.eq self.now.kind in
            IfOk result (λ found.
            Resolves means self.now.range (node_place root.entry) (option_map N.node_of found)) }
        ensures err { IfErr result (λ e. e ≡ Memory) }
    {
        match self.raw.try_to_node_ref(root) {
            Some(node) => Ok(N::cast(node.to_owned()?)),
            None => Ok(None),
        }
    }

    /// Answers as `try_to_node` does, with `Err(Fault::NotFound)` in place of `None`.
    pub fn to_node(&self, root: &SyntaxNode<N::Language>) -> Result<N, Fault>
        ensures ok { let means = means_kind N.Language.meaning N.Language.Kind.eq self.now.kind in
            IfOk result (λ node. Resolves means self.now.range root.now (Some (N.node_of node))) }
        ensures err { let means = means_kind N.Language.meaning N.Language.Kind.eq self.now.kind in
            IfErr result (λ e. e ≢ Memory
            → (e ≡ NotFound) × Resolves means self.now.range root.now None) }
    {
        self.to_node_of(root.as_ref())
    }

    /// Answers as `to_node` does, in a borrowed tree.
    pub fn to_node_of(&self, root: SyntaxNodeRef<'_, N::Language>) -> Result<N, Fault>
        ensures ok { let means = means_kind N.Language.meaning N.Language.Kind.eq self.now.kind in
            IfOk result (λ node.
            Resolves means self.now.range (node_place root.entry) (Some (N.node_of node))) }
        ensures err { let means = means_kind N.Language.meaning N.Language.Kind.eq self.now.kind in
            IfErr result (λ e. e ≢ Memory
            → (e ≡ NotFound) × Resolves means self.now.range (node_place root.entry) None) }
    {
        match self.try_to_node_of(root)? {
            Some(node) => Ok(node),
            None => Err(Fault::NotFound),
        }
    }

    /// The pointer to the node itself.
    pub fn syntax_node_ptr(&self) -> SyntaxNodePtr<N::Language>
        ensures { result ≡ self.now }
    {
        self.raw
    }

    /// The pointer as one to another wrapper, or `None` where its kind does not cast to that.
    pub fn cast<U: AstNode<Language = N::Language>>(self) -> Option<AstPtr<U>>
        ensures { result ≡ (if U.casts self.kind then Some self else None) }
    {
        self.raw.cast()
    }
}

impl<L: Language> SyntaxNodePtr<L> {
    ghost use Rattle.std.specs.Prelude.{◌≡◌, if◌then◌else◌, Some, None};

    /// The pointer as one to a wrapper, or `None` where its kind does not cast to that.
    pub fn cast<N: AstNode<Language = L>>(self) -> Option<AstPtr<N>>
        ensures { result ≡ (if N.casts self.kind then Some self else None) }
    {
        if N::can_cast(self.kind()) {
            Some(AstPtr { raw: self })
        } else {
            None
        }
    }
}

impl<N: AstNode> From<AstPtr<N>> for SyntaxNodePtr<N::Language> {
    ghost use Rattle.std.specs.Prelude.{◌≡◌};

    ghost from_gives = { λ typed raw. raw ≡ typed };

    fn from(ptr: AstPtr<N>) -> SyntaxNodePtr<N::Language> {
        ptr.raw
    }
}

impl<N: AstNode> Clone for AstPtr<N> {
    ghost use Rattle.std.specs.Prelude.{◌≡◌};

    ghost is_clone = { λ ptr copy. copy ≡ ptr };

    fn clone(&self) -> Result<AstPtr<N>, AllocError> {
        Ok(AstPtr { raw: self.raw })
    }
}
