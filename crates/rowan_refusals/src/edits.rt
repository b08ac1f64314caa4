//! Edits of green nodes.

use rowan::{Fault, GreenElement, GreenNode, GreenToken};
use std::alloc::Global;
use std::iter;

/// An edit of the children of a node. What is put in is a token.
#[derive(Clone, Copy)]
pub enum Edit {
    Replace(usize),
    Insert(usize),
    Remove(usize),
    /// Puts the token twice in place of the children from the first index up to the second.
    Splice(usize, usize),
    /// Puts the children of an iterator, which does not say exactly how many they are, before all.
    SpliceSome(Source),
}

/// Where children to be put in come from.
#[derive(Clone, Copy)]
pub enum Source {
    /// An iterator that promises so many, and gives none.
    Boaster(usize),
    /// The token so many times, and at least once: the first, and then those of the others that
    /// pass a test, which all do.
    Chain(usize),
}

/// Promises so many children more, and gives none.
#[derive(Drop)]
struct Boaster {
    promised: usize,
}

impl Iterator for Boaster {
    type Item = GreenElement;

    ghost use Rattle.std.specs.Iterator.{at_most};

    ghost remaining = { λ s. at_most s.promised };

    fn next(&mut self) -> Option<GreenElement> {
        None
    }

    fn size_hint(&self) -> (usize, Option<usize>) {
        (self.promised, None)
    }
}

/// A token, as a child.
pub fn leaf(token: &GreenToken) -> Result<GreenElement, Fault> {
    Ok(GreenElement::from(token.clone()?))
}

impl Edit {
    /// The node after the edit. `NotFound` where it has no such children; only a replacement may
    /// name one past the last.
    pub fn make(
        self,
        alloc: Global,
        node: &GreenNode,
        token: &GreenToken,
    ) -> Result<GreenNode, Fault> {
        let count = node.children().len();
        match self {
            Edit::Replace(index) => node.replace_child(index, leaf(token)?),
            Edit::Insert(index) if index <= count => node.insert_child(index, leaf(token)?),
            Edit::Remove(index) if index < count => node.remove_child(index),
            Edit::Splice(start, end) if start <= end && end <= count => {
                let children = vec![in alloc; leaf(token)?, leaf(token)?]?;
                node.splice_children(start..end, children)
            }
            Edit::SpliceSome(source) => source.splice(alloc, node, token),
            _ => Err(Fault::NotFound),
        }
    }
}

impl Source {
    /// The node with these children before its own.
    fn splice(
        self,
        alloc: Global,
        node: &GreenNode,
        token: &GreenToken,
    ) -> Result<GreenNode, Fault> {
        match self {
            Source::Boaster(promised) => node.splice_children(0..0, Boaster { promised }),
            Source::Chain(count) => {
                let mut others = Vec::with_capacity(alloc, count)?;
                for _ in 1..count {
                    others.push(leaf(token)?)?;
                }
                let others = others
                    .into_iter()
                    .filter(|child| child.kind() == token.kind());
                node.splice_children(0..0, iter::once(leaf(token)?).chain(others))
            }
        }
    }
}
