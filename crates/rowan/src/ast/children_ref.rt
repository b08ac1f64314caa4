//! The children of a borrowed node that cast to a wrapper, one after the other.
use super::AstNode;
use crate::api::{SyntaxNodeChildrenRef, SyntaxNodeRef};
use crate::fault::Fault;
use std::fmt;
use std::marker::PhantomData;

/// The children of a borrowed node that cast to a wrapper, from the first on. Each item shares the
/// tree once more. Where that is refused, the item is `Err(Fault::Memory)`, and then the iterator
/// ends.
#[derive_where(Clone, Copy)]
pub struct AstChildrenRef<'tree, N, L = <N as AstNode>::Language> {
    nodes: SyntaxNodeChildrenRef<'tree, L>,
    // Whether an item was refused: then no more come.
    was_refused: bool,
    wrapper: PhantomData<N>,
}

impl<'tree, N: AstNode> AstChildrenRef<'tree, N> {
    ghost use Rattle.std.specs.Prelude.{◌≡◌};
    ghost use Rattle.rowan_table.specs.Moves.{children};
    ghost use Rattle.rowan_api.specs.Refs.{node_place};
    ghost use Rattle.rowan.specs.Ast.{rest_of_children};

    pub(super) fn new(parent: SyntaxNodeRef<'tree, N::Language>) -> AstChildrenRef<'tree, N>
        ensures { rest_of_children result ≡ children (node_place parent.entry) }
    {
        AstChildrenRef {
            nodes: parent.children(),
            was_refused: false,
            wrapper: PhantomData,
        }
    }
}

impl<'tree, N: AstNode> Iterator for AstChildrenRef<'tree, N> {
    type Item = Result<N, Fault>;

    ghost use Rattle.std.specs.Prelude.{length};
    ghost use Rattle.std.specs.Iterator.{at_most};
    ghost use Rattle.rowan.specs.Ast.{casts_at, rest_of_children, WrapsNext};

    ghost next_gives = { λ s r t. WrapsNext (casts_at N.Language.meaning N.casts) N.node_of
        (rest_of_children s) r (rest_of_children t) };

    ghost remaining = { λ s. at_most (length (rest_of_children s)) };

    fn next(&mut self) -> Option<Result<N, Fault>> {
        if self.was_refused {
            return None;
        }
        while let Some(node) = self.nodes.next() {
            if N::can_cast(node.kind()) {
                return match node.to_owned() {
                    Ok(node) => Some(Ok(N::cast(node).unwrap())),
                    Err(fault) => {
                        self.was_refused = true;
                        Some(Err(fault))
                    }
                };
            }
        }
        None
    }

    fn size_hint(&self) -> (usize, Option<usize>) {
        (0, None)
    }
}

impl<'tree, N, L> fmt::Debug for AstChildrenRef<'tree, N, L> {
    fn fmt<W: fmt::Write>(&self, f: &mut fmt::Formatter<W>) -> fmt::Result {
        f.write_str("AstChildrenRef")
    }
}
