//! Elements that stand side by side: the children of a node, or siblings.
use crate::cursor::remainder::Walk;
use crate::cursor::{SyntaxElement, SyntaxNode, element};
use rowan_green::utility_types::Direction;
use rowan_table::table::Table;
use std::alloc::AllocError;
use std::ops::Range;
use std::rc::Rc;

/// The entries from a start to an end, or from the end back to the start.
#[derive(Clone, Copy)]
pub struct Row {
    start: usize,
    end: usize,
    direction: Direction,
}

impl Row {
    ghost use Rattle.std.specs.Prelude.{◌≡◌, ◌<◌, ◌≤◌, [], ◌∷◌, IfNone, IfSome};
    ghost use Rattle.rowan_table.specs.Moves.{children, children_with_tokens, siblings};
    ghost use Rattle.rowan_table.specs.Moves.{siblings_with_tokens};
    ghost use Rattle.rowan_cursor.specs.Kinds.{nodes_behind};
    ghost use Rattle.rowan_table.specs.TableView.{cursor_of, IsWithin, IsNodeIn};
    ghost use Rattle.rowan_cursor.specs.Walks.{row_elements, row_nodes, row_numbers, node_numbers};
    ghost use Rattle.rowan_cursor.specs.Walks.{numbers_between, HasRow};

    // The entries of a range, in a direction.
    fn new(range: Range<usize>, direction: Direction) -> Row
        ensures numbers { row_numbers result ≡ numbers_between range.start range.end direction }
        ensures end { result.end ≡ range.end }
    {
        Row {
            start: range.start,
            end: range.end,
            direction,
        }
    }

    /// All children; a token has none.
    pub(super) fn children(table: &Table, number: usize) -> Row
        requires { IsWithin table.now number }
        ensures fits { HasRow table.now result }
        ensures elements { row_elements table.now result
            ≡ children_with_tokens (cursor_of table.now number) }
        ensures nodes { row_nodes table.now result ≡ children (cursor_of table.now number) }
    {
        Row::new(table.child_numbers(number), Direction::Next)
    }

    /// The siblings behind an element.
    pub(super) fn following(table: &Table, number: usize) -> Row
        requires { IsWithin table.now number }
        ensures fits { HasRow table.now result }
        ensures nodes { row_nodes table.now result
            ≡ nodes_behind (cursor_of table.now number) }
    {
        Row::new(table.following_numbers(number), Direction::Next)
    }

    /// An element and its siblings in one direction.
    pub(super) fn siblings(table: &Table, number: usize, direction: Direction) -> Row
        requires { IsWithin table.now number }
        ensures fits { HasRow table.now result }
        ensures elements { row_elements table.now result
            ≡ siblings_with_tokens direction (cursor_of table.now number) }
        ensures nodes { row_nodes table.now result
            ≡ siblings direction (cursor_of table.now number) }
    {
        match direction {
            Direction::Next => Row::new(number..table.following_numbers(number).end, direction),
            Direction::Prev => {
                Row::new(table.preceding_numbers(number).start..number + 1, direction)
            }
        }
    }

    /// The number of the next entry.
    pub(super) fn next(&mut self) -> Option<usize>
        ensures none { IfNone result (row_numbers self.old ≡ []) }
        ensures left { IfNone result (row_numbers self.new ≡ []) }
        ensures some { IfSome result (λ n. row_numbers self.old ≡ n ∷ row_numbers self.new) }
        ensures within { IfSome result (λ n. n < self.old.end) }
        ensures end { self.new.end ≤ self.old.end }
    {
        if self.start >= self.end {
            return None;
        }
        match self.direction {
            Direction::Next => {
                let number = self.start;
                self.start += 1;
                Some(number)
            }
            Direction::Prev => {
                self.end -= 1;
                Some(self.end)
            }
        }
    }

    /// The number of the next entry of a node.
    pub(super) fn next_node(&mut self, table: &Table) -> Option<usize>
        requires { HasRow table.now self.old }
        ensures fits { HasRow table.now self.new }
        ensures none { IfNone result (node_numbers table.now self.old ≡ []) }
        ensures left { IfNone result (node_numbers table.now self.new ≡ []) }
        ensures some { IfSome result (λ n.
            node_numbers table.now self.old ≡ n ∷ node_numbers table.now self.new) }
        ensures node { IfSome result (IsNodeIn table.now) }
    {
        while let Some(number) = self.next() {
            if table.is_node(number) {
                return Some(number);
            }
        }
        None
    }
}

impl Walk<SyntaxElement> for Row {
    ghost use Rattle.rowan_cursor.specs.Walks.{row_elements, HasRow};

    ghost fits = { HasRow };

    ghost items = { row_elements };

    const NAME: &'static str = "SyntaxElementChildren";

    fn step(&mut self, table: &Rc<Table>) -> Result<Option<SyntaxElement>, AllocError> {
        match self.next() {
            Some(number) => Ok(Some(element::at(table, number)?)),
            None => Ok(None),
        }
    }
}

impl Walk<SyntaxNode> for Row {
    ghost use Rattle.rowan_cursor.specs.Walks.{row_nodes, HasRow};

    ghost fits = { HasRow };

    ghost items = { row_nodes };

    const NAME: &'static str = "SyntaxNodeChildren";

    fn step(&mut self, table: &Rc<Table>) -> Result<Option<SyntaxNode>, AllocError> {
        match self.next_node(table) {
            Some(number) => Ok(Some(SyntaxNode::at(table, number)?)),
            None => Ok(None),
        }
    }
}
