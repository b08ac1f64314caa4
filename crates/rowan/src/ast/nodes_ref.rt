//! The children of a borrowed node, each in a borrowed wrapper.
ghost use Rattle.std.specs.Prelude.{◌≡◌, filter};
ghost use Rattle.std.specs.List.{find};
ghost use Rattle.std.specs.Option.{option_map};
ghost use Rattle.rowan_table.specs.Moves.{children};
ghost use Rattle.rowan_api.specs.Refs.{node_place};
ghost use Rattle.rowan.specs.Ast.{casts_at, rest_that_casts};

use super::AstNodeRef;
use crate::api::{SyntaxNodeChildrenRef, SyntaxNodeRef};
use std::fmt;
use std::marker::PhantomData;

/// The children of a borrowed node that cast to a borrowed wrapper, from the first on.
#[derive_where(Clone, Copy)]
pub struct AstNodesRef<'tree, N, L = <N as AstNodeRef<'tree>>::Language> {
    nodes: SyntaxNodeChildrenRef<'tree, L>,
    wrapper: PhantomData<N>,
}

impl<'tree, N: AstNodeRef<'tree>> AstNodesRef<'tree, N> {
    ghost use Rattle.std.specs.Prelude.{◌≡◌, filter};
    ghost use Rattle.rowan_table.specs.Moves.{children};
    ghost use Rattle.rowan_api.specs.Refs.{node_place};
    ghost use Rattle.rowan.specs.Ast.{casts_at, rest_that_casts};

    pub(super) fn new(parent: SyntaxNodeRef<'tree, N::Language>) -> AstNodesRef<'tree, N>
        ensures { let casts = casts_at N.Language.meaning N.casts in
            rest_that_casts casts result ≡ filter casts (children (node_place parent.entry)) }
    {
        AstNodesRef {
            nodes: parent.children(),
            wrapper: PhantomData,
        }
    }
}

impl<'tree, N: AstNodeRef<'tree>> Iterator for AstNodesRef<'tree, N> {
    type Item = N;

    ghost use Rattle.std.specs.Iterator.{YieldsFirstBy, item_count};
    ghost use Rattle.rowan.specs.Ast.{casts_at, rest_that_casts};

    ghost next_gives = { YieldsFirstBy N.node_of
        (rest_that_casts (casts_at N.Language.meaning N.casts)) };

    ghost remaining = { item_count (rest_that_casts (casts_at N.Language.meaning N.casts)) };

    fn next(&mut self) -> Option<N> {
        while let Some(node) = self.nodes.next() {
            if N::can_cast(node.kind()) {
                return N::cast(node);
            }
        }
        None
    }

    fn size_hint(&self) -> (usize, Option<usize>) {
        (0, None)
    }
}

impl<'tree, N, L> fmt::Debug for AstNodesRef<'tree, N, L> {
    fn fmt<W: fmt::Write>(&self, f: &mut fmt::Formatter<W>) -> fmt::Result {
        f.write_str("AstNodesRef")
    }
}

/// The first child of a borrowed node that casts, in a borrowed wrapper.
pub fn child_ref<'tree, N: AstNodeRef<'tree>>(
    parent: SyntaxNodeRef<'tree, N::Language>,
) -> Option<N>
    ensures { let casts = casts_at N.Language.meaning N.casts in
        option_map N.node_of result ≡ find casts (children (node_place parent.entry)) }
{
    let mut nodes = parent.children();
    while let Some(node) = nodes.next() {
        if N::can_cast(node.kind()) {
            return N::cast(node);
        }
    }
    None
}

/// The children of a borrowed node that cast, in order, in borrowed wrappers.
pub fn children_ref<'tree, N: AstNodeRef<'tree>>(
    parent: SyntaxNodeRef<'tree, N::Language>,
) -> AstNodesRef<'tree, N>
    ensures { let casts = casts_at N.Language.meaning N.casts in
        rest_that_casts casts result ≡ filter casts (children (node_place parent.entry)) }
{
    AstNodesRef::new(parent)
}
