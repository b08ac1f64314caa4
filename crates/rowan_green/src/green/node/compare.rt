//! When two green nodes are equal: where they have the same kind and equal children.
ghost use Rattle.std.specs.Prelude.{◌≡◌, ◌+◌, ◌≤◌, ◌&&◌, [], length, map, true, false};
ghost use Rattle.std.specs.Prelude.{IfSome, IsNone};
ghost use lib.Pointwise.{pointwise};
ghost use Rattle.rowan_green.specs.View.{child_term};
ghost use Rattle.rowan_green.specs.Same.{same_node, same_term};
ghost use Rattle.rowan_green.specs.Sizes.{children_size, term_size};
ghost use Rattle.rowan_green.specs.Unread.{same_row, same_rows, row_size, rows_size};

use super::{GreenChild, GreenNode, MAX_RECURSION};
use crate::utility_types::NodeOrToken;

/// Children of two nodes, from a place on, that are still to be compared.
type Row<'a> = (&'a [GreenChild], &'a [GreenChild]);

impl PartialEq for GreenNode {
    ghost use Rattle.rowan_green.specs.Same.{same_node, same_node-laws};
    ghost use Rattle.std.specs.Cmp.{partial_equiv_from_equiv};

    ghost eq = { same_node };

    ghost laws = { partial_equiv_from_equiv same_node-laws };

    #[cycle(eq)]
    fn eq(&self, other: &GreenNode) -> bool {
        let mut rest = Vec::new(self.allocator());
        self.is_same_within(other, MAX_RECURSION, &mut rest)
    }
}

impl GreenNode {
    ghost use Rattle.rowan_green.specs.Term.{node_kind, node_size};

    // Whether both are one block.
    fn is_shared_with(&self, other: &GreenNode) -> bool
        ensures { result ≡ true → self.now ≡ other.now }
    {
        self.data.same_block(&other.data)
    }

    // Whether two nodes are the same, where that is seen without their children. Where it is not,
    // they have the same kind.
    #[inline(always)]
    fn is_same_at_once(&self, other: &GreenNode) -> Option<bool>
        ensures told { IfSome result (λ same. same ≡ same_node self.now other.now) }
        ensures kinds { IsNone result → node_kind self.now ≡ node_kind other.now }
    {
        if self.is_shared_with(other) {
            return Some(true);
        }
        if self.kind() != other.kind() {
            return Some(false);
        }
        if self.text_len() != other.text_len() {
            return Some(false);
        }
        None
    }

    // Compares two nodes, by recursion for `levels` levels and below by the list, which is empty.
    #[cycle(eq)]
    fn is_same_within<'a>(
        &'a self,
        other: &'a GreenNode,
        levels: u32,
        rest: &mut Vec<Row<'a>>,
    ) -> bool
        requires { rest.old.items ≡ [] }
        ensures same { result ≡ same_node self.now other.now }
        ensures empty { result ≡ true → rest.new.items ≡ [] }
    {
        if let Some(same) = self.is_same_at_once(other) {
            return same;
        }
        let children = self.child_slice();
        let others = other.child_slice();
        match levels.checked_sub(1) {
            Some(levels) => GreenChild::are_same_within(children, others, levels, rest),
            None => GreenChild::are_same_by_list(children, others, rest),
        }
    }

    // Compares two nodes, or puts their children on the list, above those behind the nodes. Then
    // the answer is `None`. Where the memory for the list is refused, it compares the nodes.
    #[cycle(eq)]
    fn is_same_or_listed<'a>(
        &'a self,
        other: &'a GreenNode,
        behind: Row<'a>,
        rest: &mut Vec<Row<'a>>,
    ) -> Option<bool>
        requires { length behind.0.now ≡ length behind.1.now }
        ensures told { IfSome result (λ same. same ≡ same_node self.now other.now) }
        ensures left { IfSome result (λ _. rest.new.items ≡ rest.old.items) }
        ensures listed { IsNone result → same_rows rest.new.items
            ≡ (same_node self.now other.now
            && (same_row behind.entry && same_rows rest.old.items)) }
        ensures smaller { IsNone result → rows_size rest.new.items
            ≤ rows_size rest.old.items + node_size self.now + row_size behind.entry }
    {
        if let Some(same) = self.is_same_at_once(other) {
            return Some(same);
        }
        let row = (self.child_slice(), other.child_slice());
        if put_rows(row, behind, rest) {
            return None;
        }
        Some(*self == *other)
    }
}

impl Eq for GreenNode {
    ghost use Rattle.rowan_green.specs.Same.{same_node-laws};

    ghost laws = { same_node-laws };
}

// Puts two rows on the list, the second below the first, and not at all if it is empty. The answer
// is false, and the list as it was, if the memory for them is refused.
fn put_rows<'a>(row: Row<'a>, behind: Row<'a>, rest: &mut Vec<Row<'a>>) -> bool
    requires { length behind.0.now ≡ length behind.1.now }
    ensures same { result ≡ true → same_rows rest.new.items
        ≡ (same_row row.entry && (same_row behind.entry && same_rows rest.old.items)) }
    ensures smaller { result ≡ true → rows_size rest.new.items
        ≤ rows_size rest.old.items + row_size row.entry + row_size behind.entry }
    ensures refused { result ≡ false → rest.new.items ≡ rest.old.items }
{
    if rest.reserve(2).is_err() {
        return false;
    }
    if behind.0.is_empty() {
        rest.push_reserved(row);
        return true;
    }
    rest.push_reserved(behind);
    rest.push_reserved(row);
    true
}

impl GreenChild {
    // The same for two children. Inlined, it leaves a call for each node, and none for a token.
    #[cycle(eq)]
    #[inline(always)]
    fn is_same_within<'a>(
        &'a self,
        other: &'a GreenChild,
        levels: u32,
        rest: &mut Vec<Row<'a>>,
    ) -> bool
        requires { rest.old.items ≡ [] }
        ensures same { result ≡ same_term (child_term self.now) (child_term other.now) }
        ensures empty { result ≡ true → rest.new.items ≡ [] }
    {
        match (self.as_ref(), other.as_ref()) {
            (NodeOrToken::Node(node), NodeOrToken::Node(other)) => {
                node.is_same_within(other, levels, rest)
            }
            (NodeOrToken::Token(token), NodeOrToken::Token(other)) => *token == *other,
            _ => false,
        }
    }

    #[cycle(eq)]
    fn are_same_within<'a>(
        children: &'a [GreenChild],
        others: &'a [GreenChild],
        levels: u32,
        rest: &mut Vec<Row<'a>>,
    ) -> bool
        requires { rest.old.items ≡ [] }
        ensures same { let terms = map child_term in
            result ≡ pointwise same_term (terms children.now) (terms others.now) }
        ensures empty { result ≡ true → rest.new.items ≡ [] }
    {
        if children.len() != others.len() {
            return false;
        }
        for i in 0..children.len() {
            if !children[i].is_same_within(&others[i], levels, rest) {
                return false;
            }
        }
        true
    }

    // Compares children by a loop over the list, which is empty. It has the rows of the nodes on
    // the way to the children that come next, those of the innermost node last.
    #[cycle(eq)]
    fn are_same_by_list<'a>(
        children: &'a [GreenChild],
        others: &'a [GreenChild],
        rest: &mut Vec<Row<'a>>,
    ) -> bool
        requires { rest.old.items ≡ [] }
        ensures same { let terms = map child_term in
            result ≡ pointwise same_term (terms children.now) (terms others.now) }
        ensures empty { result ≡ true → rest.new.items ≡ [] }
    {
        if !GreenChild::are_same_or_listed(children, others, rest) {
            return false;
        }
        while let Some(row) = rest.pop() {
            if !GreenChild::are_same_or_listed(row.0, row.1, rest) {
                return false;
            }
        }
        true
    }

    // Compares children up to two nodes whose children are to be compared. These are put on the
    // list, above those behind the nodes, and all are the same if the answer is true and each row
    // on the list is the same too.
    #[cycle(eq)]
    fn are_same_or_listed<'a>(
        children: &'a [GreenChild],
        others: &'a [GreenChild],
        rest: &mut Vec<Row<'a>>,
    ) -> bool
        ensures same { let terms = map child_term in (result && same_rows rest.new.items)
            ≡ (pointwise same_term (terms children.now) (terms others.now)
            && same_rows rest.old.items) }
        ensures smaller { rows_size rest.new.items
            ≤ rows_size rest.old.items + children_size children.now }
    {
        if others.len() != children.len() {
            return false;
        }
        for i in 0..children.len() {
            let behind = (children.split_at(i + 1).1, others.split_at(i + 1).1);
            let Some(same) = children[i].is_same_or_listed(&others[i], behind, rest) else {
                return true;
            };
            if !same {
                return false;
            }
        }
        true
    }

    // The same as for two nodes.
    #[cycle(eq)]
    #[inline(always)]
    fn is_same_or_listed<'a>(
        &'a self,
        other: &'a GreenChild,
        behind: Row<'a>,
        rest: &mut Vec<Row<'a>>,
    ) -> Option<bool>
        requires { length behind.0.now ≡ length behind.1.now }
        ensures told { IfSome result (λ same.
            same ≡ same_term (child_term self.now) (child_term other.now)) }
        ensures left { IfSome result (λ _. rest.new.items ≡ rest.old.items) }
        ensures listed { IsNone result → same_rows rest.new.items
            ≡ (same_term (child_term self.now) (child_term other.now)
            && (same_row behind.entry && same_rows rest.old.items)) }
        ensures smaller { IsNone result → rows_size rest.new.items
            ≤ rows_size rest.old.items + term_size (child_term self.now)
            + children_size behind.entry.0.now }
    {
        match (self.as_ref(), other.as_ref()) {
            (NodeOrToken::Node(node), NodeOrToken::Node(other)) => {
                node.is_same_or_listed(other, behind, rest)
            }
            (NodeOrToken::Token(token), NodeOrToken::Token(other)) => Some(*token == *other),
            _ => Some(false),
        }
    }
}
