//! The children of a node that cast to a wrapper, one after the other.
use super::AstNode;
use crate::api::{Language, SyntaxNode, SyntaxNodeChildren};
use crate::fault::Fault;
use std::alloc::AllocError;
use std::fmt;
use std::marker::{Model, PhantomData};

/// The children of a node that cast to a wrapper, from the first on. Each item shares the tree once
/// more. Where that is refused, the item is `Err(Fault::Memory)`, and then the iterator ends.
#[derive(Drop)]
pub struct AstChildren<N, L = <N as AstNode>::Language> {
    nodes: SyntaxNodeChildren<L>,
    wrapper: PhantomData<N>,
}

impl<N, L> Model for AstChildren<N, L> {
    ghost use Rattle.rowan_table.specs.Cursor.{Cursor};
    ghost use Rattle.rowan_table.specs.Yields.{Rest};
    ghost use Rattle.rowan_cursor.specs.YieldsCode.{coded_rest_of_cursors};

    ghost Value = { Rest Cursor };

    ghost coded = { coded_rest_of_cursors };

    ghost view = { λ c. c.nodes };
}

impl<N: AstNode> AstChildren<N> {
    ghost use Rattle.std.specs.Prelude.{◌≡◌, IfOk, IfErr};
    ghost use Rattle.rowan_green.specs.declared.fault.Fault.TheVariants.{Memory};
    ghost use Rattle.rowan_table.specs.Moves.{children};

    pub(super) fn new(parent: &SyntaxNode<N::Language>) -> AstChildren<N>
        ensures ok { IfOk result (λ nodes. nodes ≡ children parent.now) }
        ensures err { IfErr result (λ e. e ≡ Memory) }
    {
        AstChildren {
            nodes: parent.children(),
            wrapper: PhantomData,
        }
    }
}

impl<N: AstNode> Iterator for AstChildren<N> {
    type Item = Result<N, Fault>;

    ghost use Rattle.std.specs.Iterator.{at_most};
    ghost use Rattle.rowan_table.specs.Yields.{count_of};
    ghost use Rattle.rowan.specs.Ast.{casts_at, YieldsWrappers};

    ghost next_gives = { λ s r t.
        YieldsWrappers (casts_at N.Language.meaning N.casts) N.node_of s r t };

    ghost remaining = { λ s. at_most (count_of s) };

    fn next(&mut self) -> Option<Result<N, Fault>> {
        while let Some(node) = self.nodes.next() {
            match node {
                Ok(node) => match N::cast(node) {
                    Some(wrapper) => return Some(Ok(wrapper)),
                    None => {}
                },
                Err(fault) => return Some(Err(fault)),
            }
        }
        None
    }
}

impl<N, L> Clone for AstChildren<N, L> {
    ghost use Rattle.std.specs.Prelude.{◌≡◌};

    ghost is_clone = { λ rest copy. copy ≡ rest };

    fn clone(&self) -> Result<AstChildren<N, L>, AllocError> {
        let nodes = self.nodes.clone()?;
        Ok(AstChildren {
            nodes,
            wrapper: PhantomData,
        })
    }
}

impl<N, L> fmt::Debug for AstChildren<N, L> {
    fn fmt<W: fmt::Write>(&self, f: &mut fmt::Formatter<W>) -> fmt::Result {
        f.write_str("AstChildren")
    }
}
