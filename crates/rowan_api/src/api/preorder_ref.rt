//! A walk through a node of a language and the nodes below it, borrowed from the tree.
use crate::api::SyntaxNodeRef;
use rowan_cursor::cursor;
use rowan_green::utility_types::WalkEvent;
use std::fmt;
use std::marker::PhantomData;

/// A walk through a node and the nodes below it, borrowed from the tree: each is entered before the
/// nodes below it, and left after.
#[derive_where(Clone, Copy)]
pub struct PreorderRef<'tree, L> {
    raw: cursor::PreorderRef<'tree>,
    language: PhantomData<L>,
}

impl<'tree, L> PreorderRef<'tree, L> {
    ghost use Rattle.std.specs.Prelude.{◌≡◌};
    ghost use Rattle.rowan_table.specs.Preorder.{skip};
    ghost use Rattle.rowan_cursor.specs.RefWalks.{rest_of_node_events as raw_rest};
    ghost use Rattle.rowan_api.specs.Refs.{rest_of_node_events};

    pub(super) fn new(raw: cursor::PreorderRef<'tree>) -> PreorderRef<'tree, L>
        ensures { rest_of_node_events result ≡ raw_rest raw.entry }
    {
        PreorderRef {
            raw,
            language: PhantomData,
        }
    }

    /// Drops what is left before the next Leave of a node that was entered. So after an Enter that
    /// node's Leave comes next, and after a Leave that of the parent. Several calls before one
    /// `next` are one. Before the first `next` and at the end nothing is dropped.
    pub fn skip_subtree(&mut self)
        ensures { rest_of_node_events self.new ≡ skip (rest_of_node_events self.old) }
    {
        self.raw.skip_subtree();
    }
}

impl<'tree, L> Iterator for PreorderRef<'tree, L> {
    type Item = WalkEvent<SyntaxNodeRef<'tree, L>>;

    ghost use Rattle.std.specs.Iterator.{YieldsFirstBy, item_count};
    ghost use Rattle.rowan_api.specs.Refs.{node_event, rest_of_node_events};

    ghost next_gives = { YieldsFirstBy node_event rest_of_node_events };

    ghost remaining = { item_count rest_of_node_events };

    fn next(&mut self) -> Option<WalkEvent<SyntaxNodeRef<'tree, L>>> {
        match self.raw.next() {
            Some(WalkEvent::Enter(raw)) => Some(WalkEvent::Enter(SyntaxNodeRef::from(raw))),
            Some(WalkEvent::Leave(raw)) => Some(WalkEvent::Leave(SyntaxNodeRef::from(raw))),
            None => None,
        }
    }
}

impl<'tree, L> fmt::Debug for PreorderRef<'tree, L> {
    fn fmt<W: fmt::Write>(&self, f: &mut fmt::Formatter<W>) -> fmt::Result {
        self.raw.fmt(f)
    }
}
