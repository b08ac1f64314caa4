//! A pass over the tokens of a tree, which has a stack of its own.
ghost use Rattle.std.specs.Prelude.{◌≡◌, ◌≢◌, ◌+◌, ◌≤◌, [], List, Some, None, IfOk, IfErr};
ghost use Rattle.std.specs.Prelude.{MatchOption};
ghost use Rattle.rowan_green.specs.declared.utility_types.NodeOrToken.TheVariants.{Node, Token};
ghost use Rattle.rowan_green.specs.Fits.{byte_limit};
ghost use Rattle.rowan_green.specs.Lent.{pointee};
ghost use Rattle.rowan_terms.specs.Path.{leaves};
ghost use Rattle.rowan_green.specs.Term.{TokenTerm, token_len};
ghost use Rattle.rowan_rewrite.specs.declared.rewriting.Rewrite.{Rewrite};
ghost use Rattle.rowan_rewrite.specs.Drafts.{IsPass, child_of, left_of, tree_of, Continues, Takes};
ghost use Rattle.rowan_rewrite.specs.Drafts.{Ends, Leaves, root_of};
ghost use Rattle.rowan_rewrite.specs.Rewriting.{rewritten, HasNodePast};

use super::Rewrite;
use super::draft::Draft;
use super::token_at::TokenAt;
use rowan_green::fault::Fault;
use rowan_green::green::{GreenElementRef, GreenNode, GreenToken};
use rowan_green::text::TextSize;
use std::alloc::Global;

/// The node whose children have their turn, and those above it, the root first.
#[derive(Drop)]
pub(crate) struct Pass<'tree> {
    pub(crate) above: Vec<Draft<'tree>>,
    pub(crate) inner: Draft<'tree>,
}

/// Where a pass goes when a node is done.
#[derive(Drop)]
pub(crate) enum Left<'tree> {
    /// To the node above.
    ToParent(Pass<'tree>),
    /// The root is done.
    Tree(GreenNode),
}

impl<'tree> Pass<'tree> {
    /// At the first child of the root.
    pub(crate) fn new(alloc: Global, root: &'tree GreenNode) -> Pass<'tree>
        ensures pass { IsPass result }
        ensures root { root_of result ≡ root.now }
        ensures left { left_of result ≡ leaves (Node root.now) }
        ensures tree { (more : List Rewrite) → tree_of result more ≡ rewritten root.now more }
    {
        Pass {
            above: Vec::new(alloc),
            inner: Draft::new(alloc, root),
        }
    }

    /// The child whose turn it is, of the node where the pass is.
    pub(crate) fn child(&self) -> Option<GreenElementRef<'tree>>
        ensures { MatchOption result (child_of self.now ≡ None)
            (λ c. child_of self.now ≡ Some (pointee c)) }
    {
        self.inner.child()
    }

    /// The child, a token whose text starts at an offset, where it stands in the tree.
    pub(crate) fn token_at(&self, token: &'tree GreenToken, start: TextSize) -> TokenAt<'tree>
        requires child { child_of self.now ≡ Some (Token token.now) }
        requires fits { start + token_len token.now ≤ byte_limit }
        ensures token { result.token.now ≡ token.now }
        ensures parent { result.parent.now ≡ self.now.inner.node.now }
        ensures index { result.index ≡ self.now.inner.next }
        ensures start { result.start ≡ start }
    {
        TokenAt::new(token, self.inner.node, self.inner.next, start)
    }

    /// Goes into the child, a node.
    pub(crate) fn enter(self, alloc: Global, node: &'tree GreenNode) -> Result<Pass<'tree>, Fault>
        requires pass { IsPass self }
        requires child { child_of self ≡ Some (Node node.now) }
        ensures ok { IfOk result (Continues self.entry) }
        ensures err { IfErr result (λ e. e ≡ Fault.Memory) }
    {
        let Pass { mut above, inner } = self;
        above.push(inner)?;
        Ok(Pass {
            above,
            inner: Draft::new(alloc, node),
        })
    }

    /// Takes what becomes of the child, a token.
    pub(crate) fn answer(self, alloc: Global, answer: Rewrite) -> Result<Pass<'tree>, Fault>
        requires pass { IsPass self }
        requires child { (t : TokenTerm) × (child_of self ≡ Some (Token t)) }
        ensures ok { (t : TokenTerm) → child_of self.entry ≡ Some (Token t)
            → IfOk result (Takes t answer self.entry) }
        ensures err { IfErr result (λ e. e ≡ Fault.Memory) }
    {
        let Pass { above, inner } = self;
        match answer {
            Rewrite::Keep => Ok(Pass {
                above,
                inner: inner.keep()?,
            }),
            Rewrite::KeepBehind(elements) => Ok(Pass {
                above,
                inner: inner.put_before(alloc, elements)?.keep()?,
            }),
            Rewrite::Remove => Ok(Pass {
                above,
                inner: inner.put(alloc, Vec::new(alloc))?,
            }),
            Rewrite::Replace(elements) => Ok(Pass {
                above,
                inner: inner.put(alloc, elements)?,
            }),
        }
    }

    /// Goes on from a node that is done.
    pub(crate) fn leave(self, alloc: Global) -> Result<Left<'tree>, Fault>
        requires pass { IsPass self }
        requires child { child_of self ≡ None }
        ensures ok { IfOk result (Leaves self.entry) }
        ensures err { IfErr result (λ e. e ≢ Fault.Memory
            → HasNodePast (tree_of self.entry []) e) }
    {
        let Pass { mut above, inner } = self;
        match above.pop() {
            Some(parent) => {
                let new = inner.close(alloc)?;
                Ok(Left::ToParent(Pass {
                    above,
                    inner: parent.put_closed(alloc, new)?,
                }))
            }
            None => Ok(Left::Tree(inner.close_root(alloc)?)),
        }
    }
}
