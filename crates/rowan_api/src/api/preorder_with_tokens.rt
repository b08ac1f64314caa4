//! A walk through a node and all that is below it, event by event.
use crate::api::{SyntaxElement, element};
use rowan_cursor::cursor;
use rowan_green::fault::Fault;
use rowan_green::utility_types::WalkEvent;
use std::alloc::AllocError;
use std::fmt;
use std::marker::{Model, PhantomData};

/// A walk through a node and all that is below it: each element is entered before what is below it,
/// and left after; a token is entered and left at once. Each item shares the tree once more. Where
/// that is refused for want of memory, the item is `Err(Fault::Memory)`, and then the iterator
/// ends.
#[derive(Drop)]
pub struct PreorderWithTokens<L> {
    raw: cursor::PreorderWithTokens,
    language: PhantomData<L>,
}

impl<L> Model for PreorderWithTokens<L> {
    ghost use Rattle.rowan_green.specs.declared.utility_types.WalkEvent.{WalkEvent};
    ghost use Rattle.rowan_cursor.specs.EventCode.{coded_rest_of_events};
    ghost use Rattle.rowan_table.specs.Moves.{Element};
    ghost use Rattle.rowan_table.specs.Yields.{Rest};

    ghost Value = { Rest (WalkEvent Element) };

    ghost coded = { coded_rest_of_events };

    ghost view = { λ i. i.raw };
}

impl<L> PreorderWithTokens<L> {
    ghost use Rattle.std.specs.Prelude.{◌≡◌};
    ghost use Rattle.rowan_table.specs.Preorder.{skip_rest};

    pub(super) fn new(raw: cursor::PreorderWithTokens) -> PreorderWithTokens<L>
        ensures { result ≡ raw }
    {
        PreorderWithTokens {
            raw,
            language: PhantomData,
        }
    }

    /// Drops what is left before the next Leave of an element that was entered. So after an Enter
    /// that element's Leave comes next, and after a Leave that of the parent. Several calls before
    /// one `next` are one. Before the first `next` and at the end nothing is dropped.
    pub fn skip_subtree(&mut self)
        ensures { self.new ≡ skip_rest self.old }
    {
        self.raw.skip_subtree();
    }
}

impl<L> Iterator for PreorderWithTokens<L> {
    type Item = Result<WalkEvent<SyntaxElement<L>>, Fault>;

    ghost use Rattle.std.specs.Iterator.{at_most};
    ghost use Rattle.rowan_table.specs.Yields.{YieldsOrRefuses, count_of};

    ghost next_gives = { λ s r t. YieldsOrRefuses s r t };

    ghost remaining = { λ s. at_most (count_of s) };

    fn next(&mut self) -> Option<Result<WalkEvent<SyntaxElement<L>>, Fault>> {
        match self.raw.next()? {
            Ok(WalkEvent::Enter(element)) => Some(Ok(WalkEvent::Enter(element::give_kinds(
                element,
            )))),
            Ok(WalkEvent::Leave(element)) => Some(Ok(WalkEvent::Leave(element::give_kinds(
                element,
            )))),
            Err(fault) => Some(Err(fault)),
        }
    }
}

impl<L> Clone for PreorderWithTokens<L> {
    ghost use Rattle.std.specs.Prelude.{◌≡◌};

    ghost is_clone = { λ rest copy. copy ≡ rest };

    fn clone(&self) -> Result<PreorderWithTokens<L>, AllocError> {
        let raw = self.raw.clone()?;
        Ok(PreorderWithTokens::new(raw))
    }
}

impl<L> fmt::Debug for PreorderWithTokens<L> {
    fn fmt<W: fmt::Write>(&self, f: &mut fmt::Formatter<W>) -> fmt::Result {
        self.raw.fmt(f)
    }
}
