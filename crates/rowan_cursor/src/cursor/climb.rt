//! The way up from an element to the root.
use crate::cursor::SyntaxNode;
use crate::cursor::remainder::Walk;
use rowan_table::table::Table;
use std::alloc::AllocError;
use std::rc::Rc;

/// The number of the node that comes next, and then its ancestors'.
#[derive(Clone, Copy)]
pub struct Climb {
    next: Option<usize>,
}

impl Climb {
    ghost use Rattle.std.specs.Prelude.{◌≡◌, [], ◌∷◌, IfNone, IfSome};
    ghost use Rattle.rowan_table.specs.TableView.{cursor_of, IsNodeIn};
    ghost use Rattle.rowan_cursor.specs.Walks.{climb_nodes, HasClimb};

    /// The way up from a node, where there is one.
    pub(super) fn new(start: Option<usize>) -> Climb
        ensures { result.next ≡ start }
    {
        Climb { next: start }
    }

    /// The number of the next node.
    pub(super) fn next(&mut self, table: &Table) -> Option<usize>
        requires { HasClimb table.now self.old }
        ensures fits { HasClimb table.now self.new }
        ensures none { IfNone result (climb_nodes table.now self.old ≡ []) }
        ensures left { IfNone result (climb_nodes table.now self.new ≡ []) }
        ensures some { IfSome result (λ n.
            climb_nodes table.now self.old
            ≡ cursor_of table.now n ∷ climb_nodes table.now self.new) }
        ensures node { IfSome result (IsNodeIn table.now) }
    {
        let Some(number) = self.next else {
            return None;
        };
        self.next = table.parent(number);
        Some(number)
    }
}

impl Walk<SyntaxNode> for Climb {
    ghost use Rattle.rowan_cursor.specs.Walks.{climb_nodes, HasClimb};

    ghost fits = { HasClimb };

    ghost items = { climb_nodes };

    const NAME: &'static str = "Ancestors";

    fn step(&mut self, table: &Rc<Table>) -> Result<Option<SyntaxNode>, AllocError> {
        match self.next(table) {
            Some(number) => Ok(Some(SyntaxNode::at(table, number)?)),
            None => Ok(None),
        }
    }
}
