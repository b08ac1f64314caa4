//! A walk through what is at and below a node, event by event.
ghost use Rattle.std.specs.Prelude.{◌≡◌, IfOk};
ghost use Rattle.rowan_green.specs.WalkEvent.{event_value};
ghost use Rattle.rowan_table.specs.Preorder.{event_map};
ghost use Rattle.rowan_table.specs.TableView.{cursor_of, element_of, IsWithin, IsNodeIn};

use crate::cursor::remainder::{Remainder, Walk};
use crate::cursor::{SyntaxElement, SyntaxNode, element};
use rowan_green::utility_types::WalkEvent;
use rowan_table::table::Table;
use std::alloc::AllocError;
use std::rc::Rc;

/// The node from which the walk started, and the event that comes next, each by the number of its
/// entry. `None` is behind the last event.
#[derive(Clone, Copy)]
pub struct Traversal {
    start: usize,
    next: Option<WalkEvent<usize>>,
}

impl Traversal {
    ghost use Rattle.std.specs.Prelude.{[], ◌∷◌, true, None, IfNone, IfSome};
    ghost use Rattle.rowan_table.specs.Events.{LeavesNoToken, event_of};
    ghost use Rattle.rowan_table.specs.Preorder.{preorder, preorder_with_tokens, descendants};
    ghost use Rattle.rowan_table.specs.Preorder.{descendants_with_tokens, skip};
    ghost use Rattle.rowan_table.specs.TableView.{path_at, stands_for_node};
    ghost use Rattle.rowan_cursor.specs.TraversalView.{remaining_path_events};
    ghost use Rattle.rowan_cursor.specs.TraversalView.{remaining_node_path_events, paths_entered};
    ghost use Rattle.rowan_cursor.specs.TraversalView.{node_paths_entered, traversal_events};
    ghost use Rattle.rowan_cursor.specs.TraversalView.{traversal_node_events, traversal_elements};
    ghost use Rattle.rowan_cursor.specs.TraversalView.{traversal_nodes, HasTraversal};
    ghost use Rattle.rowan_cursor.specs.TraversalView.{HasNodeTraversal};
    ghost use Rattle.rowan_table.specs.declared.table.Table.{Table};

    /// The whole walk from a node.
    pub(super) fn new(start: usize) -> Traversal
        ensures fits { (t : Table) → IsNodeIn t start → HasNodeTraversal t result }

        // what each iterator shows of it
        ensures events { (t : Table) → IsNodeIn t start →
            traversal_events t result ≡ preorder_with_tokens (cursor_of t start) }
        ensures node_events { (t : Table) → IsNodeIn t start →
            traversal_node_events t result ≡ preorder (cursor_of t start) }
        ensures elements { (t : Table) → IsNodeIn t start →
            traversal_elements t result ≡ descendants_with_tokens (cursor_of t start) }
        ensures nodes { (t : Table) → IsNodeIn t start →
            traversal_nodes t result ≡ descendants (cursor_of t start) }
    {
        Traversal {
            start,
            next: Some(WalkEvent::Enter(start)),
        }
    }

    /// The next event.
    pub(super) fn next_event(&mut self, table: &Table) -> Option<WalkEvent<usize>>
        requires { HasTraversal table.now self.old }
        ensures fits { HasTraversal table.now self.new }
        ensures none { IfNone result (remaining_path_events table.now self.old ≡ []) }
        ensures left { IfNone result (remaining_path_events table.now self.new ≡ []) }
        ensures some { IfSome result (λ e. remaining_path_events table.now self.old
            ≡ event_of table.now e ∷ remaining_path_events table.now self.new) }
        ensures within { IfSome result (λ e. IsWithin table.now (event_value e)) }

        // after the event of a node no token is still to be left
        ensures node { IfSome result (λ e. stands_for_node table.now (event_value e) ≡ true
            → LeavesNoToken table.now self.new.next) }
        ensures end { IfNone result (self.new.next ≡ None) }
    {
        let event = self.next?;
        self.next = table.event_after(event, self.start);
        Some(event)
    }

    /// The next event of a node.
    pub(super) fn next_node_event(&mut self, table: &Table) -> Option<WalkEvent<usize>>
        requires { HasTraversal table.now self.old }
        ensures fits { HasTraversal table.now self.new }
        ensures none { IfNone result (remaining_node_path_events table.now self.old ≡ []) }
        ensures left { IfNone result (remaining_node_path_events table.now self.new ≡ []) }
        ensures some { IfSome result (λ e. remaining_node_path_events table.now self.old
            ≡ event_of table.now e ∷ remaining_node_path_events table.now self.new) }
        ensures node { IfSome result (λ e. IsNodeIn table.now (event_value e)) }

        // no token is still to be left after it
        ensures tokens { IfSome result (λ e. LeavesNoToken table.now self.new.next) }
        ensures end { IfNone result (LeavesNoToken table.now self.new.next) }
    {
        while let Some(event) = self.next_event(table) {
            let number = match event {
                WalkEvent::Enter(number) => number,
                WalkEvent::Leave(number) => number,
            };
            if table.is_node(number) {
                return Some(event);
            }
        }
        None
    }

    /// The next element that is entered.
    pub(super) fn enter(&mut self, table: &Table) -> Option<usize>
        requires { HasTraversal table.now self.old }
        ensures fits { HasTraversal table.now self.new }
        ensures none { IfNone result (paths_entered table.now self.old ≡ []) }
        ensures left { IfNone result (paths_entered table.now self.new ≡ []) }
        ensures some { IfSome result (λ n. paths_entered table.now self.old
            ≡ path_at table.now n ∷ paths_entered table.now self.new) }
        ensures within { IfSome result (IsWithin table.now) }
    {
        while let Some(event) = self.next_event(table) {
            if let WalkEvent::Enter(number) = event {
                return Some(number);
            }
        }
        None
    }

    /// The next node that is entered.
    pub(super) fn enter_node(&mut self, table: &Table) -> Option<usize>
        requires { HasTraversal table.now self.old }
        ensures fits { HasTraversal table.now self.new }
        ensures none { IfNone result (node_paths_entered table.now self.old ≡ []) }
        ensures left { IfNone result (node_paths_entered table.now self.new ≡ []) }
        ensures some { IfSome result (λ n. node_paths_entered table.now self.old
            ≡ path_at table.now n ∷ node_paths_entered table.now self.new) }
        ensures node { IfSome result (IsNodeIn table.now) }
    {
        while let Some(number) = self.enter(table) {
            if table.is_node(number) {
                return Some(number);
            }
        }
        None
    }

    /// Drops what is left before the next Leave of an element that was entered.
    pub(super) fn skip_subtree(&mut self, table: &Table)
        requires { HasTraversal table.now self.old }
        ensures fits { HasTraversal table.now self.new }
        ensures events { traversal_events table.now self.new
            ≡ skip (traversal_events table.now self.old) }
        ensures node_events { LeavesNoToken table.now self.old.next
            → traversal_node_events table.now self.new
            ≡ skip (traversal_node_events table.now self.old) }
        ensures tokens { LeavesNoToken table.now self.old.next
            → LeavesNoToken table.now self.new.next }
    {
        let Some(event) = self.next else {
            return;
        };
        let WalkEvent::Enter(number) = event else {
            return;
        };
        // Before its start nothing was entered.
        if number == self.start {
            return;
        }
        if let Some(parent) = table.parent(number) {
            self.next = Some(WalkEvent::Leave(parent));
        }
    }
}

impl Walk<WalkEvent<SyntaxElement>> for Traversal {
    ghost use Rattle.rowan_cursor.specs.TraversalView.{traversal_events, HasTraversal};

    ghost fits = { HasTraversal };

    ghost items = { traversal_events };

    const NAME: &'static str = "PreorderWithTokens";

    fn step(&mut self, table: &Rc<Table>) -> Result<Option<WalkEvent<SyntaxElement>>, AllocError> {
        match self.next_event(table) {
            Some(event) => Ok(Some(element_event(table, event)?)),
            None => Ok(None),
        }
    }
}

impl Walk<WalkEvent<SyntaxNode>> for Traversal {
    ghost use Rattle.rowan_cursor.specs.TraversalView.{traversal_node_events, HasNodeTraversal};

    ghost fits = { HasNodeTraversal };

    ghost items = { traversal_node_events };

    const NAME: &'static str = "Preorder";

    fn step(&mut self, table: &Rc<Table>) -> Result<Option<WalkEvent<SyntaxNode>>, AllocError> {
        match self.next_node_event(table) {
            Some(event) => Ok(Some(node_event(table, event)?)),
            None => Ok(None),
        }
    }
}

impl Walk<SyntaxElement> for Traversal {
    ghost use Rattle.rowan_cursor.specs.TraversalView.{traversal_elements, HasTraversal};

    ghost fits = { HasTraversal };

    ghost items = { traversal_elements };

    const NAME: &'static str = "DescendantsWithTokens";

    fn step(&mut self, table: &Rc<Table>) -> Result<Option<SyntaxElement>, AllocError> {
        match self.enter(table) {
            Some(number) => Ok(Some(element::at(table, number)?)),
            None => Ok(None),
        }
    }
}

impl Walk<SyntaxNode> for Traversal {
    ghost use Rattle.rowan_cursor.specs.TraversalView.{traversal_nodes, HasTraversal};

    ghost fits = { HasTraversal };

    ghost items = { traversal_nodes };

    const NAME: &'static str = "Descendants";

    fn step(&mut self, table: &Rc<Table>) -> Result<Option<SyntaxNode>, AllocError> {
        match self.enter_node(table) {
            Some(number) => Ok(Some(SyntaxNode::at(table, number)?)),
            None => Ok(None),
        }
    }
}

// The event of a number as that of an element.
fn element_event(
    table: &Rc<Table>,
    event: WalkEvent<usize>,
) -> Result<WalkEvent<SyntaxElement>, AllocError>
    requires { IsWithin table.now.value (event_value event) }
    ensures { IfOk result (λ e. e ≡ event_map (element_of table.now.value) event) }
{
    Ok(match event {
        WalkEvent::Enter(number) => WalkEvent::Enter(element::at(table, number)?),
        WalkEvent::Leave(number) => WalkEvent::Leave(element::at(table, number)?),
    })
}

// The event of a number as that of a node.
fn node_event(
    table: &Rc<Table>,
    event: WalkEvent<usize>,
) -> Result<WalkEvent<SyntaxNode>, AllocError>
    requires { IsNodeIn table.now.value (event_value event) }
    ensures { IfOk result (λ e. e ≡ event_map (cursor_of table.now.value) event) }
{
    Ok(match event {
        WalkEvent::Enter(number) => WalkEvent::Enter(SyntaxNode::at(table, number)?),
        WalkEvent::Leave(number) => WalkEvent::Leave(SyntaxNode::at(table, number)?),
    })
}

impl Remainder<Traversal> {
    ghost use Rattle.rowan_table.specs.Preorder.{skip_rest};
    ghost use Rattle.rowan_cursor.specs.TraversalView.{traversal_events, traversal_node_events};
    ghost use Rattle.rowan_cursor.specs.TraversalView.{HasTraversal, HasNodeTraversal};
    ghost use Rattle.rowan_cursor.specs.Walks.{rest_of, IfWalk};

    /// Drops what is left before the next Leave of an element that was entered.
    pub(super) fn skip_subtree(&mut self)
        requires { IfWalk HasTraversal self.old }
        ensures fits { IfWalk HasTraversal self.new }
        ensures events { rest_of traversal_events self.new
            ≡ skip_rest (rest_of traversal_events self.old) }

        // in a walk through nodes
        ensures node_fits { IfWalk HasNodeTraversal self.old → IfWalk HasNodeTraversal self.new }
        ensures node_events { IfWalk HasNodeTraversal self.old
            → rest_of traversal_node_events self.new
            ≡ skip_rest (rest_of traversal_node_events self.old) }
    {
        if let Remainder::Walk(table, walk) = self {
            walk.skip_subtree(table);
        }
    }
}
