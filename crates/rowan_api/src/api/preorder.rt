//! A walk through a node and the nodes below it, event by event.
use crate::api::SyntaxNode;
use rowan_cursor::cursor;
use rowan_green::fault::Fault;
use rowan_green::utility_types::WalkEvent;
use std::alloc::AllocError;
use std::fmt;
use std::marker::{Model, PhantomData};

/// A walk through a node and the nodes below it: each is entered before the nodes below it, and
/// left after. Each item shares the tree once more. Where that is refused for want of memory, the
/// item is `Err(Fault::Memory)`, and then the iterator ends.
#[derive(Drop)]
pub struct Preorder<L> {
    raw: cursor::Preorder,
    language: PhantomData<L>,
}

impl<L> Model for Preorder<L> {
    ghost use Rattle.rowan_green.specs.declared.utility_types.WalkEvent.{WalkEvent};
    ghost use Rattle.rowan_table.specs.Cursor.{Cursor};
    ghost use Rattle.rowan_cursor.specs.EventCode.{coded_rest_of_node_events};
    ghost use Rattle.rowan_table.specs.Yields.{Rest};

    ghost Value = { Rest (WalkEvent Cursor) };

    ghost coded = { coded_rest_of_node_events };

    ghost view = { λ i. i.raw };
}

impl<L> Preorder<L> {
    ghost use Rattle.std.specs.Prelude.{◌≡◌};
    ghost use Rattle.rowan_table.specs.Preorder.{skip_rest};

    pub(super) fn new(raw: cursor::Preorder) -> Preorder<L>
        ensures { result ≡ raw }
    {
        Preorder {
            raw,
            language: PhantomData,
        }
    }

    /// Drops what is left before the next Leave of a node that was entered. So after an Enter that
    /// node's Leave comes next, and after a Leave that of the parent. Several calls before one
    /// `next` are one. Before the first `next` and at the end nothing is dropped.
    pub fn skip_subtree(&mut self)
        ensures { self.new ≡ skip_rest self.old }
    {
        self.raw.skip_subtree();
    }
}

impl<L> Iterator for Preorder<L> {
    type Item = Result<WalkEvent<SyntaxNode<L>>, Fault>;

    ghost use Rattle.std.specs.Iterator.{at_most};
    ghost use Rattle.rowan_table.specs.Yields.{YieldsOrRefuses, count_of};

    ghost next_gives = { λ s r t. YieldsOrRefuses s r t };

    ghost remaining = { λ s. at_most (count_of s) };

    fn next(&mut self) -> Option<Result<WalkEvent<SyntaxNode<L>>, Fault>> {
        match self.raw.next()? {
            Ok(WalkEvent::Enter(node)) => Some(Ok(WalkEvent::Enter(SyntaxNode::from(node)))),
            Ok(WalkEvent::Leave(node)) => Some(Ok(WalkEvent::Leave(SyntaxNode::from(node)))),
            Err(fault) => Some(Err(fault)),
        }
    }
}

impl<L> Clone for Preorder<L> {
    ghost use Rattle.std.specs.Prelude.{◌≡◌};

    ghost is_clone = { λ rest copy. copy ≡ rest };

    fn clone(&self) -> Result<Preorder<L>, AllocError> {
        let raw = self.raw.clone()?;
        Ok(Preorder::new(raw))
    }
}

impl<L> fmt::Debug for Preorder<L> {
    fn fmt<W: fmt::Write>(&self, f: &mut fmt::Formatter<W>) -> fmt::Result {
        self.raw.fmt(f)
    }
}
