//! A node and what is below it, one after the other, borrowed from the tree.
ghost use Rattle.rowan_cursor.specs.TraversalView.{HasTraversal, HasTraversal-prop};

use crate::cursor::traversal::Traversal;
use crate::cursor::{SyntaxElementRef, SyntaxNodeRef, element_ref};
use rowan_table::table::Table;
use std::fmt;
use std::rc::Rc;

/// A node and the nodes below it, borrowed from the tree, in its order: each before those below it.
#[derive(Clone, Copy)]
pub struct DescendantsRef<'tree> {
    table: &'tree Rc<Table>,
    traversal: Traversal,
    ghost fits: { HasTraversal table.now.value traversal } by { HasTraversal-prop _ _ },
}

impl<'tree> DescendantsRef<'tree> {
    ghost use Rattle.std.specs.Prelude.{◌≡◌};
    ghost use Rattle.rowan_cursor.specs.RefWalks.{rest_of_descendants};
    ghost use Rattle.rowan_cursor.specs.TraversalView.{traversal_nodes};

    pub(super) fn new(table: &'tree Rc<Table>, traversal: Traversal) -> DescendantsRef<'tree>
        requires { HasTraversal table.now.value traversal }
        ensures { rest_of_descendants result ≡ traversal_nodes table.now.value traversal }
    {
        DescendantsRef { table, traversal }
    }
}

impl<'tree> Iterator for DescendantsRef<'tree> {
    type Item = SyntaxNodeRef<'tree>;

    ghost use Rattle.std.specs.Iterator.{YieldsFirstBy, item_count};
    ghost use Rattle.rowan_cursor.specs.Refs.{node_place};
    ghost use Rattle.rowan_cursor.specs.RefWalks.{rest_of_descendants};

    ghost next_gives = { YieldsFirstBy node_place rest_of_descendants };

    ghost remaining = { item_count rest_of_descendants };

    fn next(&mut self) -> Option<SyntaxNodeRef<'tree>> {
        let table = self.table;
        match self.traversal.enter_node(table) {
            Some(number) => Some(SyntaxNodeRef::at(table, number)),
            None => None,
        }
    }
}

impl fmt::Debug for DescendantsRef<'_> {
    fn fmt<W: fmt::Write>(&self, f: &mut fmt::Formatter<W>) -> fmt::Result {
        f.write_str("DescendantsRef")
    }
}

/// A node and all that is below it, borrowed from the tree, in its order: each element before what
/// is below it.
#[derive(Clone, Copy)]
pub struct DescendantsWithTokensRef<'tree> {
    table: &'tree Rc<Table>,
    traversal: Traversal,
    ghost fits: { HasTraversal table.now.value traversal } by { HasTraversal-prop _ _ },
}

impl<'tree> DescendantsWithTokensRef<'tree> {
    ghost use Rattle.std.specs.Prelude.{◌≡◌};
    ghost use Rattle.rowan_cursor.specs.RefWalks.{rest_of_all_descendants};
    ghost use Rattle.rowan_cursor.specs.TraversalView.{traversal_elements};

    pub(super) fn new(
        table: &'tree Rc<Table>,
        traversal: Traversal,
    ) -> DescendantsWithTokensRef<'tree>
        requires { HasTraversal table.now.value traversal }
        ensures { rest_of_all_descendants result ≡ traversal_elements table.now.value traversal }
    {
        DescendantsWithTokensRef { table, traversal }
    }
}

impl<'tree> Iterator for DescendantsWithTokensRef<'tree> {
    type Item = SyntaxElementRef<'tree>;

    ghost use Rattle.std.specs.Iterator.{YieldsFirstBy, item_count};
    ghost use Rattle.rowan_cursor.specs.Refs.{element_place};
    ghost use Rattle.rowan_cursor.specs.RefWalks.{rest_of_all_descendants};

    ghost next_gives = { YieldsFirstBy element_place rest_of_all_descendants };

    ghost remaining = { item_count rest_of_all_descendants };

    fn next(&mut self) -> Option<SyntaxElementRef<'tree>> {
        let table = self.table;
        match self.traversal.enter(table) {
            Some(number) => Some(element_ref::at(table, number)),
            None => None,
        }
    }
}

impl fmt::Debug for DescendantsWithTokensRef<'_> {
    fn fmt<W: fmt::Write>(&self, f: &mut fmt::Formatter<W>) -> fmt::Result {
        f.write_str("DescendantsWithTokensRef")
    }
}
