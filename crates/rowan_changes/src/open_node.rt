//! A node that is being edited.
ghost use Rattle.std.specs.Prelude.{◌≡◌, ◌≤◌, ◌<◌, ◌+◌, [], length, IfOk, IfErr, Some, slice_get};
ghost use Rattle.rowan_green.specs.declared.utility_types.NodeOrToken.TheVariants.{Node};
ghost use Rattle.rowan_green.specs.Edits.{spliced};
ghost use Rattle.rowan_green.specs.Fits.{FitsNode, WhyNoNode};
ghost use Rattle.rowan_green.specs.Term.{NodeTerm, node_children};

use rowan_green::fault::Fault;
use rowan_green::green::{GreenElement, GreenNode};
use rowan_green::utility_types::NodeOrToken;
use std::alloc::Global;

/// A node that is being edited, from its last child to its first. The children before `kept` are
/// those of the node. Behind them come those that are done, of which the last one stands first.
#[derive(Drop)]
pub struct OpenNode<'tree> {
    pub node: &'tree GreenNode,
    pub kept: usize,
    pub done: Vec<GreenElement>,
    pub ghost in_range: { kept ≤ length (node_children node.now) },
}

impl<'tree> OpenNode<'tree> {
    ghost use Rattle.rowan_changes.specs.OpenNode.{closed, closed_children, around};

    /// A node of which nothing is edited so far.
    pub fn new(alloc: Global, node: &'tree GreenNode) -> OpenNode<'tree>
        ensures node { result.node.now ≡ node.now }
        ensures kept { result.kept ≡ length (node_children node.now) }
        ensures closed { closed result ≡ node.now }
    {
        OpenNode {
            node,
            kept: node.children().len(),
            done: Vec::new(alloc),
        }
    }

    /// Takes the children from an index on as they are.
    fn keep_before(self, index: usize) -> Result<OpenNode<'tree>, Fault>
        requires { index ≤ self.kept }
        ensures node { IfOk result (λ f. f.node.now ≡ self.entry.node.now) }
        ensures kept { IfOk result (λ f. f.kept ≡ index) }
        ensures closed { IfOk result (λ f. closed_children f ≡ closed_children self.entry) }
        ensures err { IfErr result (λ e. e ≡ Fault.Memory) }
    {
        let OpenNode {
            node,
            mut kept,
            mut done,
        } = self;
        done.reserve(kept - index)?;
        while kept > index {
            kept -= 1;
            let Some((_, child)) = node.child_ref(kept) else {
                unreachable!();
            };
            done.push(child.to_owned()?)?;
        }
        Ok(OpenNode { node, kept, done })
    }

    /// Puts elements in place of the children from one index to another.
    pub fn splice(
        self,
        start: usize,
        end: usize,
        new: Vec<GreenElement>,
    ) -> Result<OpenNode<'tree>, Fault>
        requires order { start ≤ end }
        requires before { end ≤ self.kept }
        ensures node { IfOk result (λ f. f.node.now ≡ self.entry.node.now) }
        ensures kept { IfOk result (λ f. f.kept ≡ start) }
        ensures closed { IfOk result (λ f.
            closed_children f ≡ spliced (closed_children self.entry) start end new.items) }
        ensures err { IfErr result (λ e. e ≡ Fault.Memory) }
    {
        let OpenNode {
            node,
            kept: _,
            mut done,
        } = self.keep_before(end)?;
        let mut new = new;
        while let Some(element) = new.pop() {
            done.push(element)?;
        }
        Ok(OpenNode {
            node,
            kept: start,
            done,
        })
    }

    /// The node around one of its children that is a node, and that child, which is opened.
    pub fn open(
        self,
        alloc: Global,
        index: usize,
    ) -> Result<(OpenNode<'tree>, OpenNode<'tree>), Fault>
        requires before { index < self.kept }
        requires node { (child : NodeTerm)
            × (slice_get (node_children self.node.now) index ≡ Some (Node child)) }
        ensures node { IfOk result (λ p. p.0.node.now ≡ self.entry.node.now) }
        ensures kept { IfOk result (λ p. p.0.kept ≡ index) }
        ensures child { IfOk result (λ p.
            slice_get (node_children self.entry.node.now) index ≡ Some (Node p.1.node.now)) }
        ensures room { IfOk result (λ p. p.1.kept ≡ length (node_children p.1.node.now)) }
        ensures same { IfOk result (λ p.
            around p.0 (Node (closed p.1)) ≡ Node (closed self.entry)) }
        ensures err { IfErr result (λ e. e ≡ Fault.Memory) }
    {
        let OpenNode {
            node,
            kept: _,
            done,
        } = self.keep_before(index + 1)?;
        let Some((_, NodeOrToken::Node(child))) = node.child_ref(index) else {
            unreachable!();
        };
        let outer = OpenNode {
            node,
            kept: index,
            done,
        };
        Ok((outer, OpenNode::new(alloc, child)))
    }

    /// Puts a node in place of the child that was opened, before those that are done.
    pub fn put(self, child: GreenNode) -> Result<OpenNode<'tree>, Fault>
        ensures node { IfOk result (λ f. f.node.now ≡ self.entry.node.now) }
        ensures kept { IfOk result (λ f. f.kept ≡ self.entry.kept) }
        ensures closed { IfOk result (λ f. Node (closed f) ≡ around self.entry (Node child)) }
        ensures err { IfErr result (λ e. e ≡ Fault.Memory) }
    {
        let OpenNode {
            node,
            kept,
            mut done,
        } = self;
        done.push(NodeOrToken::Node(child))?;
        Ok(OpenNode { node, kept, done })
    }

    /// The node with its new children.
    pub fn close(self) -> Result<GreenNode, Fault>
        ensures ok { IfOk result (λ n. n ≡ closed self.entry) }
        ensures fits { IfOk result FitsNode }
        ensures err { IfErr result (WhyNoNode (closed_children self.entry)) }
    {
        let OpenNode {
            node,
            kept,
            mut done,
        } = self;
        done.reverse();
        let closed = node.splice_children(kept..node.children().len(), done)?;
        // A node is within the limits.
        let _text_len = closed.text_len();
        Ok(closed)
    }
}
