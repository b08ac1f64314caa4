//! Walks through what is at and below a node, event by event, borrowed from the tree.
ghost use Rattle.rowan_cursor.specs.TraversalView.{HasTraversal, HasTraversal-prop};
ghost use Rattle.rowan_cursor.specs.TraversalView.{HasNodeTraversal, HasNodeTraversal-prop};

use crate::cursor::traversal::Traversal;
use crate::cursor::{SyntaxElementRef, SyntaxNodeRef, element_ref};
use rowan_green::utility_types::WalkEvent;
use rowan_table::table::Table;
use std::fmt;
use std::rc::Rc;

/// A walk through a node and the nodes below it, borrowed from the tree: each is entered before the
/// nodes below it, and left after.
#[derive(Clone, Copy)]
pub struct PreorderRef<'tree> {
    table: &'tree Rc<Table>,
    traversal: Traversal,
    ghost fits: { HasNodeTraversal table.now.value traversal } by { HasNodeTraversal-prop _ _ },
}

impl<'tree> PreorderRef<'tree> {
    ghost use Rattle.std.specs.Prelude.{◌≡◌, ◌≤◌, length};
    ghost use Rattle.rowan_table.specs.Preorder.{skip};
    ghost use Rattle.rowan_cursor.specs.RefWalks.{rest_of_node_events};
    ghost use Rattle.rowan_cursor.specs.TraversalView.{traversal_node_events};

    pub(super) fn new(table: &'tree Rc<Table>, traversal: Traversal) -> PreorderRef<'tree>
        requires { HasNodeTraversal table.now.value traversal }
        ensures { rest_of_node_events result ≡ traversal_node_events table.now.value traversal }
    {
        PreorderRef { table, traversal }
    }

    /// Drops what is left before the next Leave of a node that was entered. So after an Enter that
    /// node's Leave comes next, and after a Leave that of the parent. Several calls before one
    /// `next` are one. Before the first `next` and at the end nothing is dropped.
    pub fn skip_subtree(&mut self)
        ensures events { rest_of_node_events self.new ≡ skip (rest_of_node_events self.old) }
        ensures fewer { length (rest_of_node_events self.new)
            ≤ length (rest_of_node_events self.old) }
    {
        let table = self.table;
        self.traversal.skip_subtree(table);
    }
}

impl<'tree> Iterator for PreorderRef<'tree> {
    type Item = WalkEvent<SyntaxNodeRef<'tree>>;

    ghost use Rattle.std.specs.Iterator.{YieldsFirstBy, item_count};
    ghost use Rattle.rowan_cursor.specs.RefWalks.{node_event, rest_of_node_events};

    ghost next_gives = { YieldsFirstBy node_event rest_of_node_events };

    ghost remaining = { item_count rest_of_node_events };

    fn next(&mut self) -> Option<WalkEvent<SyntaxNodeRef<'tree>>> {
        let table = self.table;
        match self.traversal.next_node_event(table) {
            Some(event) => Some(event.map(|number| SyntaxNodeRef::at(table, number))),
            None => None,
        }
    }
}

impl fmt::Debug for PreorderRef<'_> {
    fn fmt<W: fmt::Write>(&self, f: &mut fmt::Formatter<W>) -> fmt::Result {
        f.write_str("PreorderRef")
    }
}

/// A walk through a node and all that is below it, borrowed from the tree: each element is entered
/// before what is below it, and left after; a token is entered and left at once.
#[derive(Clone, Copy)]
pub struct PreorderWithTokensRef<'tree> {
    table: &'tree Rc<Table>,
    traversal: Traversal,
    ghost fits: { HasTraversal table.now.value traversal } by { HasTraversal-prop _ _ },
}

impl<'tree> PreorderWithTokensRef<'tree> {
    ghost use Rattle.std.specs.Prelude.{◌≡◌, ◌≤◌, length};
    ghost use Rattle.rowan_table.specs.Preorder.{skip};
    ghost use Rattle.rowan_cursor.specs.RefWalks.{rest_of_events};
    ghost use Rattle.rowan_cursor.specs.TraversalView.{traversal_events};

    pub(super) fn new(table: &'tree Rc<Table>, traversal: Traversal) -> PreorderWithTokensRef<'tree>
        requires { HasTraversal table.now.value traversal }
        ensures { rest_of_events result ≡ traversal_events table.now.value traversal }
    {
        PreorderWithTokensRef { table, traversal }
    }

    /// Drops what is left before the next Leave of an element that was entered. So after an Enter
    /// that element's Leave comes next, and after a Leave that of the parent. Several calls before
    /// one `next` are one. Before the first `next` and at the end nothing is dropped.
    pub fn skip_subtree(&mut self)
        ensures events { rest_of_events self.new ≡ skip (rest_of_events self.old) }
        ensures fewer { length (rest_of_events self.new) ≤ length (rest_of_events self.old) }
    {
        let table = self.table;
        self.traversal.skip_subtree(table);
    }
}

impl<'tree> Iterator for PreorderWithTokensRef<'tree> {
    type Item = WalkEvent<SyntaxElementRef<'tree>>;

    ghost use Rattle.std.specs.Iterator.{YieldsFirstBy, item_count};
    ghost use Rattle.rowan_cursor.specs.RefWalks.{element_event, rest_of_events};

    ghost next_gives = { YieldsFirstBy element_event rest_of_events };

    ghost remaining = { item_count rest_of_events };

    fn next(&mut self) -> Option<WalkEvent<SyntaxElementRef<'tree>>> {
        let table = self.table;
        match self.traversal.next_event(table) {
            Some(event) => Some(event.map(|number| element_ref::at(table, number))),
            None => None,
        }
    }
}

impl fmt::Debug for PreorderWithTokensRef<'_> {
    fn fmt<W: fmt::Write>(&self, f: &mut fmt::Formatter<W>) -> fmt::Result {
        f.write_str("PreorderWithTokensRef")
    }
}
