//! How many nodes and commas stand among the children of a node.
ghost use Rattle.std.specs.Prelude.{◌≡◌, ◌≤◌, ◌-◌, false, slice_get};
ghost use Rattle.std.specs.Option.{option_map_or};
ghost use Rattle.rowan.specs.Term.{node_children};
ghost use Rattle.toml_edit_plan.specs.Counts.{bit, count_of, is_sort, part};

use rowan::{GreenNode, NodeOrToken};
use toml_syntax::Kind;

/// What is counted.
#[derive(Clone, Copy, PartialEq, Eq)]
pub(crate) enum Sort {
    Node,
    Comma,
}

/// How many children of a sort a node has from one index on and before another one.
pub(crate) fn count_of(list: &GreenNode, start: usize, end: usize, sort: Sort) -> usize
    ensures { result ≡ count_of sort (part start (end - start) (node_children list.now)) }
{
    let mut count: usize = 0;
    for index in start..end {
        count += bit_at(list, index, sort);
    }
    count
}

/// 1 where the child at an index is of a sort, and else 0.
fn bit_at(list: &GreenNode, index: usize, sort: Sort) -> usize
    ensures same { let child = slice_get (node_children list.now) index in
        result ≡ bit (option_map_or (is_sort sort) child false) }
    ensures most { result ≤ 1 }
{
    let Some(child) = list.child_ref(index) else {
        return 0;
    };
    let is_sort = match child.1 {
        NodeOrToken::Node(_) => sort == Sort::Node,
        NodeOrToken::Token(token) => sort == Sort::Comma && token.kind().0 == Kind::Comma as u16,
    };
    if is_sort { 1 } else { 0 }
}
