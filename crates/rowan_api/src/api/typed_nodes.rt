//! The nodes that a raw iterator gives, with the kinds of a language.
use crate::api::SyntaxNode;
use rowan_cursor::cursor;
use rowan_green::fault::Fault;
use std::alloc::AllocError;
use std::fmt;
use std::marker::{Model, PhantomData};

/// The nodes that a raw iterator gives, with the kinds of a language. Where the raw one gives
/// `Err(Fault::Memory)`, so does this one, and then it ends.
#[derive(Drop)]
pub struct TypedNodes<L, I> {
    raw: I,
    language: PhantomData<L>,
}

/// The children of a node that are nodes, from the first on.
pub type SyntaxNodeChildren<L> = TypedNodes<L, cursor::SyntaxNodeChildren>;

/// A node and its siblings in one direction that are nodes, from the node itself on.
pub type Siblings<L> = TypedNodes<L, cursor::Siblings>;

/// The nodes from one on up to the root.
pub type Ancestors<L> = TypedNodes<L, cursor::Ancestors>;

/// A node and the nodes below it, in the order of the tree: each before those below it.
pub type Descendants<L> = TypedNodes<L, cursor::Descendants>;

impl<L, I> Model for TypedNodes<L, I> {
    ghost Value = { I };

    ghost view = { λ i. i.raw };
}

impl<L, I> TypedNodes<L, I> {
    ghost use Rattle.std.specs.Prelude.{◌≡◌};

    pub(super) fn new(raw: I) -> TypedNodes<L, I>
        ensures { result ≡ raw }
    {
        TypedNodes {
            raw,
            language: PhantomData,
        }
    }
}

impl<L, I: Iterator<Item = Result<cursor::SyntaxNode, Fault>>> Iterator for TypedNodes<L, I> {
    type Item = Result<SyntaxNode<L>, Fault>;

    ghost can_next = { I.can_next };

    ghost next_gives = { I.next_gives };

    ghost remaining = { I.remaining };

    fn next(&mut self) -> Option<Result<SyntaxNode<L>, Fault>> {
        match self.raw.next()? {
            Ok(node) => Some(Ok(SyntaxNode::from(node))),
            Err(fault) => Some(Err(fault)),
        }
    }
}

impl<L, I: Clone> Clone for TypedNodes<L, I> {
    ghost is_clone = { I.is_clone };

    fn clone(&self) -> Result<TypedNodes<L, I>, AllocError> {
        let raw = self.raw.clone()?;
        Ok(TypedNodes::new(raw))
    }
}

impl<L, I: fmt::Debug> fmt::Debug for TypedNodes<L, I> {
    fn fmt<W: fmt::Write>(&self, f: &mut fmt::Formatter<W>) -> fmt::Result {
        self.raw.fmt(f)
    }
}
