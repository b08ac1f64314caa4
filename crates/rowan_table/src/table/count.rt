//! Counting the nodes and tokens of a tree, level by level, without a table of them.
ghost use Rattle.std.specs.Prelude.{◌≡◌, ◌+◌, ◌<◌, ◌≤◌, ◌++◌, ◌∷◌, [], length, IfOk, OnOk, IsTrue};
ghost use Rattle.rowan_green.specs.Term.{node_children};
ghost use Rattle.rowan_table.specs.Count.{entries_below, entries_deeper, met_deeper};
ghost use Rattle.rowan_table.specs.TableView.{entry_limit};

use super::draft::MAX_ENTRIES;
use rowan_green::green::GreenNode;
use rowan_green::utility_types::NodeOrToken;
use std::alloc::{AllocError, Global};
use std::collections::VecDeque;

/// A count of a tree, level by level.
#[derive(Drop)]
struct Count<'a> {
    // How many nodes and tokens are known of: the root, and the children of each node that was met.
    known: usize,
    // The nodes that were met, and whose children were not.
    met: VecDeque<&'a GreenNode>,
}

impl<'a> Count<'a> {
    // Meets a node: its children are known of from then on.
    fn meet(&mut self, node: &'a GreenNode) -> Result<(), AllocError>
        ensures known { self.new.known ≤ self.old.known + length (node_children node.now) }
        ensures met { OnOk result (self.new.met.items ≡ self.old.met.items ++ node.entry ∷ []) }
    {
        self.known = self.known.saturating_add(node.children().len());
        self.met.push_back(node)?;
        Ok(())
    }

    // Meets those that are nodes among the first children of a node, so many of them at most.
    fn meet_children(&mut self, node: &'a GreenNode, most: usize) -> Result<(), AllocError>
        ensures { OnOk result (self.new.known + met_deeper self.new
            ≤ self.old.known + met_deeper self.old + entries_deeper node.now) }
    {
        let count = node.children().len();
        for index in 0..count.min(most) {
            let Some(found) = node.child_ref(index) else {
                unreachable!();
            };
            match found.1 {
                NodeOrToken::Node(child) => self.meet(child)?,
                NodeOrToken::Token(_) => {}
            }
        }
        Ok(())
    }
}

/// Whether a tree has more nodes and tokens than a table has numbers, as far as a walk level by
/// level finds out in so many steps, one for each node and token. A level that has many of them is
/// known of before they are gone through, so this can take far fewer steps than the tree has nodes.
#[cold]
#[inline(never)]
pub(super) fn is_past_numbers(
    alloc: Global,
    root: &GreenNode,
    steps: usize,
) -> Result<bool, AllocError>
    ensures { IfOk result (λ past. IsTrue past → entry_limit < entries_below root.now + 1) }
{
    let mut count = Count {
        known: 1,
        met: VecDeque::new(alloc),
    };
    count.meet(root)?;
    let mut left = steps;
    while let Some(node) = count.met.pop_front() {
        let children = node.children().len();
        count.meet_children(node, left)?;
        if count.known > MAX_ENTRIES {
            return Ok(true);
        }
        if left <= children {
            return Ok(false);
        }
        left -= children + 1;
    }
    Ok(false)
}
