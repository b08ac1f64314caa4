//! The trait of wrappers of borrowed nodes.
ghost use Rattle.std.specs.Prelude.{◌≡◌, Bool, true};
ghost use Rattle.std.specs.Option.{option_map};
ghost use Rattle.rowan_api.specs.Refs.{node_place};
ghost use Rattle.rowan_table.specs.Cursor.{Cursor};
ghost use Rattle.rowan.specs.Ast.{casts_at, if_casts};

use crate::api::{Language, SyntaxNodeRef};

/// A wrapper of the nodes of some kinds of a language, which are borrowed from their tree. It is
/// two words and `Copy`, and what it gives shares nothing, so its calls cannot fail.
///
/// The ghost members are what contracts see: `casts`, which kinds cast to the wrapper, and
/// `node_of`, the node in it.
pub trait AstNodeRef<'tree>: Copy {
    /// The language of the nodes.
    type Language: Language;

    ghost casts: { Self.Language.Kind → Bool };

    ghost node_of: { Self → Cursor };

    /// Whether nodes of this kind cast.
    fn can_cast(kind: <Self::Language as Language>::Kind) -> bool
        ensures { result ≡ casts kind };

    /// The wrapper of a node, or `None` where its kind does not cast.
    fn cast(node: SyntaxNodeRef<'tree, Self::Language>) -> Option<Self>
        ensures { let casting = casts_at Self.Language.meaning casts in
            option_map node_of result ≡ if_casts casting (node_place node.entry) };

    /// The node in it, whose kind casts.
    fn syntax(&self) -> SyntaxNodeRef<'tree, Self::Language>
        ensures node { node_place result ≡ node_of self.now }
        ensures casts { casts_at Self.Language.meaning casts (node_place result) ≡ true };
}
