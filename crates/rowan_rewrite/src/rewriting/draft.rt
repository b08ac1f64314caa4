//! A node whose tokens are rewritten, one child after the other.
ghost use Rattle.std.specs.Prelude.{◌≡◌, ◌≢◌, ◌+◌, ◌≤◌, [], ◌∷◌, ◌++◌, Some, length, take};
ghost use Rattle.std.specs.Prelude.{None, slice_get, IfOk, IfErr, MatchOption};
ghost use Rattle.rowan_green.specs.declared.utility_types.NodeOrToken.TheVariants.{Node};
ghost use Rattle.rowan_green.specs.Fits.{PassesLimit, WhyNoNode};
ghost use Rattle.rowan_green.specs.Lent.{pointee};
ghost use Rattle.rowan_green.specs.Term.{NodeTerm, Term, node_of, node_kind, node_children};
ghost use Rattle.rowan_rewrite.specs.Drafts.{done, closed, items_or, lead_with, inside_with};
ghost use Rattle.rowan_rewrite.specs.Rewriting.{with_front};

use rowan_green::fault::Fault;
use rowan_green::green::{GreenElement, GreenElementRef, GreenNode};
use rowan_green::utility_types::NodeOrToken;
use std::alloc::Global;

/// A node, and the index of the child whose turn it is. `lead` is what its first child leads with,
/// which comes before the node, too. `changed` is what came in place of the children before the
/// index: `None` as long as all of them were kept.
#[derive(Drop)]
pub(crate) struct Draft<'tree> {
    pub(crate) node: &'tree GreenNode,
    pub(crate) next: usize,
    pub(crate) lead: Vec<GreenElement>,
    pub(crate) changed: Option<Vec<GreenElement>>,
}

/// What came of a node: what it leads with, and the new node. `None` where all children were kept.
#[derive(Drop)]
pub(crate) struct Closed {
    pub(crate) lead: Vec<GreenElement>,
    pub(crate) node: Option<GreenNode>,
}

impl<'tree> Draft<'tree> {
    /// A node of which nothing is rewritten so far.
    pub(crate) fn new(alloc: Global, node: &'tree GreenNode) -> Draft<'tree>
        ensures node { result.node.now ≡ node.now }
        ensures next { result.next ≡ 0 }
        ensures lead { result.lead.items ≡ [] }
        ensures done { done result ≡ [] }
    {
        Draft {
            node,
            next: 0,
            lead: Vec::new(alloc),
            changed: None,
        }
    }

    /// The child whose turn it is.
    pub(crate) fn child(&self) -> Option<GreenElementRef<'tree>>
        ensures { let found = slice_get (node_children self.now.node.now) self.now.next in
            MatchOption result (found ≡ None) (λ c. found ≡ Some (pointee c)) }
    {
        let Some(found) = self.node.child_ref(self.next) else {
            return None;
        };
        Some(found.1)
    }

    // The place behind the child whose turn it is.
    fn place_behind(&self) -> usize
        requires { self.now.next + 1 ≤ length (node_children self.now.node.now) }
        ensures { result ≡ self.now.next + 1 }
    {
        // A node is within the limits, and with it each place among its children.
        let _children = self.node.children();
        self.next + 1
    }

    /// Keeps the child.
    pub(crate) fn keep(self) -> Result<Draft<'tree>, Fault>
        requires { self.next + 1 ≤ length (node_children self.node.now) }
        ensures node { IfOk result (λ d. d.node.now ≡ self.entry.node.now) }
        ensures next { IfOk result (λ d. d.next ≡ self.entry.next + 1) }
        ensures lead { IfOk result (λ d. d.lead.items ≡ self.entry.lead.items) }
        ensures done { IfOk result (λ d. (t : Term)
            → slice_get (node_children self.entry.node.now) self.entry.next ≡ Some t
            → done d ≡ done self.entry ++ t ∷ []) }
        ensures err { IfErr result (λ e. e ≡ Fault.Memory) }
    {
        let Draft {
            node,
            next,
            lead,
            changed,
        } = self;
        let Some(found) = node.child_ref(next) else {
            unreachable!();
        };
        match changed {
            None => Ok(Draft {
                node,
                next: next + 1,
                lead,
                changed: None,
            }),
            Some(mut children) => {
                children.push(found.1.to_owned()?)?;
                Ok(Draft {
                    node,
                    next: next + 1,
                    lead,
                    changed: Some(children),
                })
            }
        }
    }

    /// Puts elements in place of the child.
    pub(crate) fn put(
        self,
        alloc: Global,
        mut new: Vec<GreenElement>,
    ) -> Result<Draft<'tree>, Fault>
        requires { self.next + 1 ≤ length (node_children self.node.now) }
        ensures node { IfOk result (λ d. d.node.now ≡ self.entry.node.now) }
        ensures next { IfOk result (λ d. d.next ≡ self.entry.next + 1) }
        ensures lead { IfOk result (λ d. d.lead.items ≡ self.entry.lead.items) }
        ensures done { IfOk result (λ d. done d ≡ done self.entry ++ new.items) }
        ensures err { IfErr result (λ e. e ≡ Fault.Memory) }
    {
        let behind = self.place_behind();
        let Draft {
            node,
            next,
            lead,
            changed,
        } = self;
        let mut children = children_so_far(alloc, node, next, changed)?;
        children.append(&mut new)?;
        Ok(Draft {
            node,
            next: behind,
            lead,
            changed: Some(children),
        })
    }

    /// Puts a node in place of the child.
    pub(crate) fn put_node(self, alloc: Global, new: GreenNode) -> Result<Draft<'tree>, Fault>
        requires { self.next + 1 ≤ length (node_children self.node.now) }
        ensures node { IfOk result (λ d. d.node.now ≡ self.entry.node.now) }
        ensures next { IfOk result (λ d. d.next ≡ self.entry.next + 1) }
        ensures lead { IfOk result (λ d. d.lead.items ≡ self.entry.lead.items) }
        ensures done { IfOk result (λ d. done d ≡ done self.entry ++ Node new ∷ []) }
        ensures err { IfErr result (λ e. e ≡ Fault.Memory) }
    {
        let behind = self.place_behind();
        let Draft {
            node,
            next,
            lead,
            changed,
        } = self;
        let mut children = children_so_far(alloc, node, next, changed)?;
        children.push(NodeOrToken::Node(new))?;
        Ok(Draft {
            node,
            next: behind,
            lead,
            changed: Some(children),
        })
    }

    /// Puts elements before the child: of the first one, before the node.
    pub(crate) fn put_before(
        self,
        alloc: Global,
        mut new: Vec<GreenElement>,
    ) -> Result<Draft<'tree>, Fault>
        requires { self.next ≤ length (node_children self.node.now) }
        ensures node { IfOk result (λ d. d.node.now ≡ self.entry.node.now) }
        ensures next { IfOk result (λ d. d.next ≡ self.entry.next) }
        ensures lead { IfOk result (λ d. d.lead.items ≡ lead_with self.entry new.items) }
        ensures done { IfOk result (λ d. done d
            ≡ done self.entry ++ inside_with self.entry new.items) }
        ensures err { IfErr result (λ e. e ≡ Fault.Memory) }
    {
        if new.is_empty() && self.next != 0 {
            return Ok(self);
        }
        let Draft {
            node,
            next,
            lead,
            changed,
        } = self;
        if next == 0 {
            return Ok(Draft {
                node,
                next,
                lead: new,
                changed,
            });
        }
        let mut children = children_so_far(alloc, node, next, changed)?;
        children.append(&mut new)?;
        Ok(Draft {
            node,
            next,
            lead,
            changed: Some(children),
        })
    }

    /// Puts what came of the child, a node, in its place: what it leads with, and the new node, or
    /// the node itself where none is new.
    pub(crate) fn put_closed(self, alloc: Global, new: Closed) -> Result<Draft<'tree>, Fault>
        requires { self.next + 1 ≤ length (node_children self.node.now) }
        ensures node { IfOk result (λ d. d.node.now ≡ self.entry.node.now) }
        ensures next { IfOk result (λ d. d.next ≡ self.entry.next + 1) }
        ensures lead { IfOk result (λ d. d.lead.items ≡ lead_with self.entry new.lead.items) }
        ensures done { IfOk result (λ d. (n : NodeTerm)
            → slice_get (node_children self.entry.node.now) self.entry.next ≡ Some (Node n)
            → done d ≡ done self.entry
            ++ (inside_with self.entry new.lead.items ++ Node (closed n new.node) ∷ [])) }
        ensures err { IfErr result (λ e. e ≡ Fault.Memory) }
    {
        let Closed { lead, node } = new;
        let draft = self.put_before(alloc, lead)?;
        match node {
            Some(node) => draft.put_node(alloc, node),
            None => draft.keep(),
        }
    }

    /// The node with its new children, once no child is left.
    pub(crate) fn close(self, alloc: Global) -> Result<Closed, Fault>
        requires { length (node_children self.node.now) ≤ self.next }
        ensures node { IfOk result (λ c. closed self.entry.node.now c.node
            ≡ node_of (node_kind self.entry.node.now) (done self.entry)) }
        ensures lead { IfOk result (λ c. c.lead.items ≡ self.entry.lead.items) }
        ensures err { IfErr result (WhyNoNode (done self.entry)) }
    {
        let Draft {
            node,
            next: _,
            lead,
            changed,
        } = self;
        match changed {
            None => Ok(Closed { lead, node: None }),
            Some(children) => Ok(Closed {
                lead,
                node: Some(node_with(alloc, node, children)?),
            }),
        }
    }

    /// The root with its new children, once no child is left. What it leads with comes before them.
    /// Where all were kept, the old root is shared.
    pub(crate) fn close_root(self, alloc: Global) -> Result<GreenNode, Fault>
        requires { length (node_children self.node.now) ≤ self.next }
        ensures ok { IfOk result (λ n. n ≡ node_of (node_kind self.entry.node.now)
            (self.entry.lead.items ++ done self.entry)) }
        ensures err { IfErr result (WhyNoNode (self.entry.lead.items ++ done self.entry)) }
    {
        let Draft {
            node,
            next: _,
            mut lead,
            changed,
        } = self;
        match changed {
            None => with_front(alloc, node, lead),
            Some(mut children) => {
                lead.append(&mut children)?;
                node_with(alloc, node, lead)
            }
        }
    }
}

// The node with elements before its first child: the node itself, where there are none.
fn with_front(
    alloc: Global,
    node: &GreenNode,
    mut front: Vec<GreenElement>,
) -> Result<GreenNode, Fault>
    ensures ok { IfOk result (λ n. n ≡ with_front front.items node.now) }
    ensures err { IfErr result (WhyNoNode (front.items ++ node_children node.now)) }
{
    if front.is_empty() {
        return Ok(node.clone()?);
    }
    let mut children = first_children(alloc, node, node.children().len())?;
    front.append(&mut children)?;
    node_with(alloc, node, front)
}

// The children that are done: the new ones, or else the first of the node's own.
fn children_so_far(
    alloc: Global,
    node: &GreenNode,
    count: usize,
    changed: Option<Vec<GreenElement>>,
) -> Result<Vec<GreenElement>, Fault>
    requires { count ≤ length (node_children node.now) }
    ensures ok { IfOk result (λ v. v.items
        ≡ items_or changed (take count (node_children node.now))) }
    ensures err { IfErr result (λ e. e ≡ Fault.Memory) }
{
    match changed {
        Some(children) => Ok(children),
        None => first_children(alloc, node, count),
    }
}

// The first children of a node, which are shared.
fn first_children(alloc: Global, node: &GreenNode, count: usize) -> Result<Vec<GreenElement>, Fault>
    requires { count ≤ length (node_children node.now) }
    ensures ok { IfOk result (λ v. v.items ≡ take count (node_children node.now)) }
    ensures err { IfErr result (λ e. e ≡ Fault.Memory) }
{
    let mut children = Vec::with_capacity(alloc, count)?;
    for index in 0..count {
        let Some(found) = node.child_ref(index) else {
            unreachable!();
        };
        children.push(found.1.to_owned()?)?;
    }
    Ok(children)
}

// The node of the kind of another one, and of these children.
fn node_with(
    alloc: Global,
    node: &GreenNode,
    children: Vec<GreenElement>,
) -> Result<GreenNode, Fault>
    ensures ok { IfOk result (λ n. n ≡ node_of (node_kind node.now) children.items) }
    ensures err { IfErr result (WhyNoNode children.items) }
{
    GreenNode::new(alloc, node.kind(), children)
}
