//! A tree that is being edited, from its last place to its first.
ghost use Rattle.std.specs.Prelude.{◌≡◌, ◌≤◌, ◌+◌, [], ◌∷◌, ◌++◌, length, take, true, IfOk, IfErr};
ghost use Rattle.std.specs.Prelude.{◌≢◌, ℕ, ◌<◌, Some, slice_get};
ghost use Rattle.rowan_green.specs.declared.utility_types.NodeOrToken.TheVariants.{Node};
ghost use Rattle.rowan_green.specs.Fits.{FitsNode};
ghost use Rattle.rowan_changes.specs.Edit.{edited_once, lies_before};
ghost use Rattle.rowan_changes.specs.Limits.{PassesLimitIn};
ghost use Rattle.rowan_green.specs.Term.{NodeTerm, node_children};

use crate::open_node::OpenNode;
use rowan_green::fault::Fault;
use rowan_green::green::{GreenElement, GreenNode};
use std::alloc::Global;

/// The node where the editing has come, and those above it, the root first. What stands behind the
/// place of the zipper is done.
#[derive(Drop)]
pub struct Zipper<'tree> {
    pub root: &'tree GreenNode,
    pub above: Vec<OpenNode<'tree>>,
    pub inner: OpenNode<'tree>,
}

impl<'tree> Zipper<'tree> {
    ghost use Rattle.rowan_changes.specs.Zipper.{tree_of, path_of, place_of, IsStanding, HasPlace};
    ghost use Rattle.rowan_changes.specs.Zipper.{Fork, WhyNotClosed};

    /// A zipper behind the last child of the root.
    pub fn new(alloc: Global, root: &'tree GreenNode) -> Zipper<'tree>
        ensures root { result.root.now ≡ root.now }
        ensures tree { tree_of result ≡ Node root.now }
        ensures place { place_of result ≡ length (node_children root.now) ∷ [] }
        ensures standing { IsStanding result }
    {
        Zipper {
            root,
            above: Vec::new(alloc),
            inner: OpenNode::new(alloc, root),
        }
    }

    /// How many nodes above lie on the way to a path.
    fn shared(&self, path: &[usize]) -> usize
        ensures path { result ≤ length path.now }
        ensures above { result ≤ length self.now.above.items }
        ensures fork { Fork (path_of self.now) path.now result }
    {
        for (count, index) in path.iter().enumerate() {
            let Some(node) = self.above.get(count) else {
                return count;
            };
            if node.kept != *index {
                return count;
            }
        }
        path.len()
    }

    /// Closes nodes until as many are left above.
    fn close_to(self, count: usize) -> Result<Zipper<'tree>, Fault>
        requires above { count ≤ length self.above.items }
        requires standing { IsStanding self }
        ensures root { IfOk result (λ z. z.root.now ≡ self.entry.root.now) }
        ensures tree { IfOk result (λ z. tree_of z ≡ tree_of self.entry) }
        ensures count { IfOk result (λ z. length z.above.items ≡ count) }
        ensures place { IfOk result (λ z. place_of z ≡ take (count + 1) (place_of self.entry)) }
        ensures standing { IfOk result IsStanding }
        ensures err { IfErr result (WhyNotClosed self.entry count) }
    {
        let Zipper {
            root,
            mut above,
            mut inner,
        } = self;
        while above.len() > count {
            let Some(outer) = above.pop() else {
                unreachable!();
            };
            inner = outer.put(inner.close()?)?;
        }
        Ok(Zipper { root, above, inner })
    }

    /// Opens the child at an index, which is a node before the place of the zipper.
    fn open(self, alloc: Global, index: usize) -> Result<Zipper<'tree>, Fault>
        requires before { index < self.inner.kept }
        requires node { (child : NodeTerm)
            × (slice_get (node_children self.inner.node.now) index ≡ Some (Node child)) }
        requires standing { IsStanding self }
        ensures root { IfOk result (λ z. z.root.now ≡ self.entry.root.now) }
        ensures tree { IfOk result (λ z. tree_of z ≡ tree_of self.entry) }
        ensures path { IfOk result (λ z. path_of z ≡ path_of self.entry ++ index ∷ []) }
        ensures child { IfOk result (λ z.
            slice_get (node_children self.entry.inner.node.now) index
            ≡ Some (Node z.inner.node.now)) }
        ensures room { IfOk result (λ z.
            z.inner.kept ≡ length (node_children z.inner.node.now)) }
        ensures standing { IfOk result IsStanding }
        ensures err { IfErr result (λ e. e ≡ Fault.Memory) }
    {
        let Zipper {
            root,
            mut above,
            inner,
        } = self;
        let opened = inner.open(alloc, index)?;
        above.push(opened.0)?;
        Ok(Zipper {
            root,
            above,
            inner: opened.1,
        })
    }

    /// Goes to the node at a path, of which the children up to an index lie before the place of the
    /// zipper.
    pub fn go_to(self, alloc: Global, path: &[usize], end: usize) -> Result<Zipper<'tree>, Fault>
        requires standing { IsStanding self }
        requires there { HasPlace self.root.now path.now end }
        requires before { lies_before path.now end (place_of self) ≡ true }
        ensures root { IfOk result (λ z. z.root.now ≡ self.entry.root.now) }
        ensures tree { IfOk result (λ z. tree_of z ≡ tree_of self.entry) }
        ensures path { IfOk result (λ z. path_of z ≡ path.now) }
        ensures room { IfOk result (λ z. end ≤ z.inner.kept) }
        ensures standing { IfOk result IsStanding }
        ensures err { let z = self.entry in IfErr result (λ e. (count : ℕ)
            × Fork (path_of z) path.now count × WhyNotClosed z count e) }
    {
        let count = self.shared(path);
        let mut zipper = self.close_to(count)?;
        for depth in count..path.len() {
            zipper = zipper.open(alloc, path[depth])?;
        }
        Ok(zipper)
    }

    /// Puts elements in place of the children of the innermost node from one index to another.
    pub fn splice(
        self,
        start: usize,
        end: usize,
        new: Vec<GreenElement>,
    ) -> Result<Zipper<'tree>, Fault>
        requires order { start ≤ end }
        requires before { end ≤ self.inner.kept }
        requires standing { IsStanding self }
        ensures root { IfOk result (λ z. z.root.now ≡ self.entry.root.now) }
        ensures tree { IfOk result (λ z. tree_of z ≡ edited_once (tree_of self.entry)
            (record { parent = path_of self.entry; start = start; end = end; new = new.items })) }
        ensures place { IfOk result (λ z. place_of z ≡ path_of self.entry ++ start ∷ []) }
        ensures standing { IfOk result IsStanding }
        ensures err { IfErr result (λ e. e ≡ Fault.Memory) }
    {
        let Zipper { root, above, inner } = self;
        let inner = inner.splice(start, end, new)?;
        Ok(Zipper { root, above, inner })
    }

    /// The whole tree.
    pub fn close(self) -> Result<GreenNode, Fault>
        requires { IsStanding self }
        ensures ok { IfOk result (λ n. Node n ≡ tree_of self.entry) }
        ensures fits { IfOk result FitsNode }
        ensures err { IfErr result (λ e. e ≢ Fault.Memory → PassesLimitIn (tree_of self.entry) e) }
    {
        let Zipper {
            root: _,
            above: _,
            inner,
        } = self.close_to(0)?;
        inner.close()
    }
}
