//! The trait of wrappers.
ghost use Rattle.std.specs.Prelude.{◌≡◌, Bool, true, [], IfOk, IfErr};
ghost use Rattle.std.specs.Option.{option_map};
ghost use Rattle.rowan_table.specs.Cursor.{Cursor, StandsAt};
ghost use Rattle.rowan.specs.Ast.{casts_at, if_casts};

use crate::api::{Language, SyntaxNode};
use crate::fault::Fault;

/// A wrapper of the nodes of some kinds of a language. It is as cheap as the node itself.
///
/// The ghost members are what contracts see: `casts`, which kinds cast to the wrapper, and
/// `node_of`, the node in it. Kinds that `==` holds equal cast alike.
pub trait AstNode {
    /// The language of the nodes.
    type Language: Language;

    ghost casts: { Self.Language.Kind → Bool };

    ghost node_of: { Self → Cursor };

    /// Whether nodes of this kind cast.
    fn can_cast(kind: <Self::Language as Language>::Kind) -> bool
        ensures { result ≡ casts kind };

    /// The wrapper of a node, or `None` where its kind does not cast.
    fn cast(node: SyntaxNode<Self::Language>) -> Option<Self>
        ensures { let casting = casts_at Self.Language.meaning casts in
            option_map node_of result ≡ if_casts casting node };

    /// The node in it, whose kind casts.
    fn syntax(&self) -> &SyntaxNode<Self::Language>
        ensures node { result.now ≡ node_of self.now }
        ensures casts { casts_at Self.Language.meaning casts result.now ≡ true };

    /// A wrapper of the same node in a tree of its own, where it is the root. It visits each node
    /// and token below it once. Refused with `Memory` alone.
    fn clone_subtree(&self) -> Result<Self, Fault>
        ensures ok { IfOk result (λ copy. StandsAt (node_of self.now) (node_of copy).root) }
        ensures top { IfOk result (λ copy. (node_of copy).path ≡ []) }
        ensures err { IfErr result (λ e. e ≡ Fault.Memory) }
    {
        let root = self.syntax().clone_subtree()?;
        Ok(Self::cast(root).unwrap())
    }

    ghost equal_kinds: { (a b : Self.Language.Kind)
        → Self.Language.Kind.eq a b ≡ true → casts a ≡ casts b };
}
