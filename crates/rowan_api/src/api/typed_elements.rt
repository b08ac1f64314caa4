//! The elements that a raw iterator gives, with the kinds of a language.
use crate::api::{SyntaxElement, element};
use rowan_cursor::cursor;
use rowan_green::fault::Fault;
use std::alloc::AllocError;
use std::fmt;
use std::marker::{Model, PhantomData};

/// The elements that a raw iterator gives, with the kinds of a language. Where the raw one gives
/// `Err(Fault::Memory)`, so does this one, and then it ends.
#[derive(Drop)]
pub struct TypedElements<L, I> {
    raw: I,
    language: PhantomData<L>,
}

/// The children of a node, from the first on.
pub type SyntaxElementChildren<L> = TypedElements<L, cursor::SyntaxElementChildren>;

/// A node or token and its siblings in one direction, from itself on.
pub type SiblingsWithTokens<L> = TypedElements<L, cursor::SiblingsWithTokens>;

/// A node and all that is below it, in the order of the tree: each element before what is below it.
pub type DescendantsWithTokens<L> = TypedElements<L, cursor::DescendantsWithTokens>;

impl<L, I> Model for TypedElements<L, I> {
    ghost Value = { I };

    ghost view = { λ i. i.raw };
}

impl<L, I> TypedElements<L, I> {
    ghost use Rattle.std.specs.Prelude.{◌≡◌};

    pub(super) fn new(raw: I) -> TypedElements<L, I>
        ensures { result ≡ raw }
    {
        TypedElements {
            raw,
            language: PhantomData,
        }
    }
}

impl<L, I: Iterator<Item = Result<cursor::SyntaxElement, Fault>>> Iterator for TypedElements<L, I> {
    type Item = Result<SyntaxElement<L>, Fault>;

    ghost can_next = { I.can_next };

    ghost next_gives = { I.next_gives };

    ghost remaining = { I.remaining };

    fn next(&mut self) -> Option<Result<SyntaxElement<L>, Fault>> {
        match self.raw.next()? {
            Ok(element) => Some(Ok(element::give_kinds(element))),
            Err(fault) => Some(Err(fault)),
        }
    }
}

impl<L, I: Clone> Clone for TypedElements<L, I> {
    ghost is_clone = { I.is_clone };

    fn clone(&self) -> Result<TypedElements<L, I>, AllocError> {
        let raw = self.raw.clone()?;
        Ok(TypedElements::new(raw))
    }
}

impl<L, I: fmt::Debug> fmt::Debug for TypedElements<L, I> {
    fn fmt<W: fmt::Write>(&self, f: &mut fmt::Formatter<W>) -> fmt::Result {
        self.raw.fmt(f)
    }
}
