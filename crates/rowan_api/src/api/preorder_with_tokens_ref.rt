//! A walk through a node of a language and all that is below it, borrowed from the tree.
use crate::api::{SyntaxElementRef, element_ref};
use rowan_cursor::cursor;
use rowan_green::utility_types::WalkEvent;
use std::fmt;
use std::marker::PhantomData;

/// A walk through a node and all that is below it, borrowed from the tree: each element is entered
/// before what is below it, and left after; a token is entered and left at once.
#[derive_where(Clone, Copy)]
pub struct PreorderWithTokensRef<'tree, L> {
    raw: cursor::PreorderWithTokensRef<'tree>,
    language: PhantomData<L>,
}

impl<'tree, L> PreorderWithTokensRef<'tree, L> {
    ghost use Rattle.std.specs.Prelude.{◌≡◌};
    ghost use Rattle.rowan_table.specs.Preorder.{skip};
    ghost use Rattle.rowan_cursor.specs.RefWalks.{rest_of_events as raw_rest};
    ghost use Rattle.rowan_api.specs.Refs.{rest_of_events};

    pub(super) fn new(raw: cursor::PreorderWithTokensRef<'tree>) -> PreorderWithTokensRef<'tree, L>
        ensures { rest_of_events result ≡ raw_rest raw.entry }
    {
        PreorderWithTokensRef {
            raw,
            language: PhantomData,
        }
    }

    /// Drops what is left before the next Leave of an element that was entered. So after an Enter
    /// that element's Leave comes next, and after a Leave that of the parent. Several calls before
    /// one `next` are one. Before the first `next` and at the end nothing is dropped.
    pub fn skip_subtree(&mut self)
        ensures { rest_of_events self.new ≡ skip (rest_of_events self.old) }
    {
        self.raw.skip_subtree();
    }
}

impl<'tree, L> Iterator for PreorderWithTokensRef<'tree, L> {
    type Item = WalkEvent<SyntaxElementRef<'tree, L>>;

    ghost use Rattle.std.specs.Iterator.{YieldsFirstBy, item_count};
    ghost use Rattle.rowan_api.specs.Refs.{element_event, rest_of_events};

    ghost next_gives = { YieldsFirstBy element_event rest_of_events };

    ghost remaining = { item_count rest_of_events };

    fn next(&mut self) -> Option<WalkEvent<SyntaxElementRef<'tree, L>>> {
        match self.raw.next() {
            Some(WalkEvent::Enter(raw)) => Some(WalkEvent::Enter(element_ref::give_kinds(raw))),
            Some(WalkEvent::Leave(raw)) => Some(WalkEvent::Leave(element_ref::give_kinds(raw))),
            None => None,
        }
    }
}

impl<'tree, L> fmt::Debug for PreorderWithTokensRef<'tree, L> {
    fn fmt<W: fmt::Write>(&self, f: &mut fmt::Formatter<W>) -> fmt::Result {
        self.raw.fmt(f)
    }
}
