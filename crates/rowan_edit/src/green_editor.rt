//! An editor of a green tree.
ghost use Rattle.std.specs.Prelude.{◌≡◌, List, [], false, IfOk, IfErr, OnOk, OnErr};
ghost use Rattle.std.specs.Prelude.{◌≢◌, ◌≤◌, ◌+◌, true, Some, IfSome, IsNone};
ghost use Rattle.std.specs.List.{AllByRecursion};
ghost use Rattle.rowan_green.specs.declared.utility_types.NodeOrToken.TheVariants.{Node};
ghost use Rattle.rowan_green.specs.Fits.{FitsNode, byte_limit};
ghost use Rattle.rowan_terms.specs.Path.{subterm, offset};
ghost use Rattle.rowan_green.specs.Search.{child_start};
ghost use Rattle.rowan_green.specs.Term.{NodeTerm, node_children, node_len};
ghost use Rattle.rowan_edit.specs.Arrangements.{AreFree};
ghost use Rattle.rowan_edit.specs.Arrangements.{HasExcluding};
ghost use Rattle.rowan_edit.specs.ArrangementsKept.{HasChildren};
ghost use Rattle.rowan_changes.specs.Changes.{changes_of};
ghost use Rattle.rowan_changes.specs.Edit.{Edit, edited, conflicts};
ghost use Rattle.rowan_changes.specs.Plan.{with_edit, IsOf, WhyRefused, AreInOrder};
ghost use Rattle.rowan_changes.specs.GreenEditor.{edits_of, AreListed};
ghost use Rattle.rowan_edit.specs.Ranked.{IsEditIn};
ghost use Rattle.rowan_changes.specs.Limits.{WhyNotEdited};
ghost use Rattle.rowan_changes.specs.TextEdits.{IsEdited};

use crate::ranked::{Body, Rank, RankedEdits, has_edit_of, has_room, in_order};
use rowan_changes::changes::{Changes, Edited};
use rowan_changes::edit::{Splice, changes_of};
use rowan_changes::edit_sites::EditSites;
use rowan_changes::refusal::Refusal;
use rowan_changes::zipper::Zipper;
use rowan_green::fault::Fault;
use rowan_green::green::{GreenElement, GreenNode};
use rowan_green::text::{TextRange, TextSize};
use rowan_green::utility_types::NodeOrToken;
use std::alloc::Global;
use std::collections::BTreeMap;
use std::marker::Model;
use std::ops::Range;

/// Edits of one green tree, which are made together, in one pass. All places are those of the tree
/// as it was given, whatever else is edited.
///
/// The edits are kept in the order of their places, in whatever order they are added: one more is
/// compared with O(log n) of n others, and moves none of their elements.
#[derive(Drop)]
pub struct GreenEditor {
    alloc: Global,
    root: GreenNode,
    edits: RankedEdits,
}

impl Model for GreenEditor {
    ghost use Rattle.rowan_changes.specs.Plan.{Plan};
    ghost use Rattle.rowan_edit.specs.PlanCode.{coded_plan};

    ghost Value = { Plan };

    ghost coded = { coded_plan };

    ghost use Rattle.rowan_edit.specs.Ranked.{edits_in, AreKept};

    ghost view = { λ e. record { root = e.root; edits = edits_in e.edits.entries } };

    ghost invariant = { λ e. AreKept e.root e.edits.entries };
}

impl GreenEditor {
    /// An editor of a tree, which has no edits yet. Refused only for want of memory.
    pub fn new(alloc: Global, root: &GreenNode) -> Result<GreenEditor, Fault>
        ensures ok { IfOk result (λ e. e ≡ record { root = root.now; edits = [] }) }
        ensures err { IfErr result (λ e. e ≡ Fault.Memory) }
    {
        Ok(GreenEditor {
            alloc,
            root: root.clone()?,
            edits: BTreeMap::new(alloc),
        })
    }

    /// Puts elements in place of the children of a node from one index to another, the one at the
    /// end not included. The node is the one at a path: the indexes, among all children, on the way
    /// from the root down to it. Elements that come into one gap keep the order in which they are
    /// given.
    pub fn splice(
        &mut self,
        parent: &[usize],
        children: Range<usize>,
        new: Vec<GreenElement>,
    ) -> Result<(), Refusal>
        ensures ok { let edit : Edit = record {
          parent = parent.now;
          start = children.start;
          end = children.end;
          new = new.items;
        } in OnOk result (self.new ≡ with_edit self.old edit) }
        ensures place { let edit : Edit = record {
          parent = parent.now;
          start = children.start;
          end = children.end;
          new = new.items;
        } in OnOk result (IsOf self.old.root edit) }
        ensures apart { let edit : Edit = record {
          parent = parent.now;
          start = children.start;
          end = children.end;
          new = new.items;
        } in
            OnOk result (AllByRecursion (λ e. conflicts e edit ≡ false) self.old.edits) }
        ensures err { let edit : Edit = record {
          parent = parent.now;
          start = children.start;
          end = children.end;
          new = new.items;
        } in IfErr result (WhyRefused self.old edit) }
        ensures unchanged { OnErr result (self.new ≡ self.old) }
    {
        let count = self.edits.len();
        let (rank, body) = edit_in(self.alloc, &self.root, parent, children, new, count)?;
        if !has_room(&self.edits, &rank) {
            return Err(Refusal::Conflict);
        }
        self.edits.insert(rank, body)?;
        Ok(())
    }

    /// Whether the root is this node: they are shared, or equal.
    pub(crate) fn has_root(&self, node: &GreenNode) -> bool
        ensures same { result ≡ true → node.now ≡ self.now.root }
        ensures other { result ≡ false → node.now ≢ self.now.root }
    {
        *node == self.root
    }

    /// The tree with all edits made, and the change that each of them makes in the text. Refused
    /// with `TextTooLong` or `TooManyChildren` where a node of that tree would pass a limit, and
    /// else only for want of memory.
    pub fn finish(self) -> Result<Edited, Fault>
        ensures green { IfOk result (λ e. Node e.green ≡ edited (Node self.root) self.edits) }
        ensures changes { IfOk result (λ e. e.changes ≡ changes_of (Node self.root) self.edits) }
        ensures whole { IfOk result (IsEdited self.root self.edits) }
        ensures fits { IfOk result (λ e. FitsNode e.green) }
        ensures err { IfErr result (WhyNotEdited (edited (Node self.root) self.edits)) }
    {
        let alloc = self.alloc;
        let (root, edits) = self.into_splices()?;
        edited_tree(alloc, &root, edits)
    }

    /// The tree, and its edits in the order of their places. Refused only for want of memory.
    pub(crate) fn into_splices(self) -> Result<(GreenNode, Vec<Splice>), Fault>
        ensures root { IfOk result (λ p. p.0 ≡ self.root) }
        ensures edits { IfOk result (λ p. edits_of p.1.items ≡ self.edits) }
        ensures listed { IfOk result (λ p. AreListed p.0 p.1.items) }
        ensures err { IfErr result (λ e. e ≡ Fault.Memory) }
    {
        let GreenEditor { alloc, root, edits } = self;
        let edits = in_order(alloc, edits)?;
        Ok((root, edits))
    }

    /// How many children the node at a path has, if one stands there.
    pub(crate) fn child_count(&self, path: &[usize]) -> Option<usize>
        ensures some { IfSome result (λ n. HasChildren self.now.root path.now n) }
        ensures none { IsNone result → (n : NodeTerm)
            → subterm (Node self.now.root) path.now ≢ Some (Node n) }
    {
        match place_at(&self.root, path) {
            Some(place) => Some(place.node.children().len()),
            None => None,
        }
    }

    /// Whether an edit is one of the children of the node at a path, of which there are so many, or
    /// takes away the node, or something around it. Refused only for want of memory.
    pub(crate) fn has_excluding(&self, path: &[usize], count: usize) -> Result<bool, Refusal>
        requires { HasChildren self.now.root path.now count }
        ensures some { IfOk result (λ found. found ≡ true → HasExcluding self.now.edits path.now) }
        ensures none { IfOk result (λ found. found ≡ false → AreFree self.now.edits path.now) }
        ensures err { IfErr result (λ e. e ≡ Refusal.Memory) }
    {
        let edits = &self.edits;
        let nothing = Vec::new(self.alloc);
        let gap = edit_in(self.alloc, &self.root, path, 0..0, nothing, edits.len())?;
        if !has_room(edits, &gap.0) {
            return Ok(true);
        }
        let own = has_edit_of(self.alloc, edits, path, count)?;
        Ok(own)
    }
}

/// A tree with edits made, and what they change. Refused with `TextTooLong` or `TooManyChildren`
/// where a node of that tree would pass a limit, and else only for want of memory.
pub(crate) fn edited_tree(
    alloc: Global,
    root: &GreenNode,
    edits: Vec<Splice>,
) -> Result<Edited, Fault>
    requires { AreListed root.now edits.items }
    ensures whole { IfOk result (IsEdited root.now (edits_of edits.items)) }
    ensures fits { IfOk result (λ e. FitsNode e.green) }
    ensures err { IfErr result (WhyNotEdited (edited (Node root.now) (edits_of edits.items))) }
{
    let list = changes_of(alloc, &edits)?;
    let sites = EditSites::new(alloc, root, &edits)?;
    let green = new_root(alloc, root, edits)?;
    let changes = Changes::new(alloc, list)?;
    Ok(Edited {
        green,
        changes,
        sites,
    })
}

/// The root of a tree with edits made.
pub(crate) fn new_root(
    alloc: Global,
    root: &GreenNode,
    edits: Vec<Splice>,
) -> Result<GreenNode, Fault>
    requires { AreInOrder root.now (edits_of edits.items) }
    ensures ok { IfOk result (λ n. Node n ≡ edited (Node root.now) (edits_of edits.items)) }
    ensures fits { IfOk result FitsNode }
    ensures err { IfErr result (WhyNotEdited (edited (Node root.now) (edits_of edits.items))) }
{
    let mut left = edits;
    let mut zipper = Zipper::new(alloc, root);
    while let Some(edit) = left.pop() {
        let Splice {
            parent,
            start,
            end,
            range: _,
            new,
        } = edit;
        zipper = zipper.go_to(alloc, &parent, end)?;
        zipper = zipper.splice(start, end, new)?;
    }
    zipper.close()
}

/// An edit of a tree, to which so many were added before. Refused with `NotFound` where the tree
/// has no such place, and with `Memory`.
fn edit_in(
    alloc: Global,
    root: &GreenNode,
    parent: &[usize],
    children: Range<usize>,
    new: Vec<GreenElement>,
    count: usize,
) -> Result<(Rank, Body), Refusal>
    ensures ok { let edit : Edit = record {
      parent = parent.now;
      start = children.start;
      end = children.end;
      new = new.items;
    } in IfOk result (IsEditIn root.now edit count) }
    ensures err { (edits : List Edit) → let edit : Edit = record {
      parent = parent.now;
      start = children.start;
      end = children.end;
      new = new.items;
    } in IfErr result (WhyRefused (record { root = root.now; edits = edits }) edit) }
{
    let Some(place) = place_at(root, parent) else {
        return Err(Refusal::NotFound);
    };
    if children.start > children.end || children.end > place.node.children().len() {
        return Err(Refusal::NotFound);
    }
    let range = place.range_of(children.start..children.end);
    let rank = Rank::new(alloc, parent, children, count)?;
    Ok((rank, Body { range, new }))
}

/// A node of a tree, and where its text starts in that of the root.
#[derive(Clone, Copy)]
pub(crate) struct Place<'tree> {
    pub(crate) node: &'tree GreenNode,
    start: TextSize,
}

impl Place<'_> {
    /// Where the children from one index to another lie in the text of the root.
    pub(crate) fn range_of(&self, children: Range<usize>) -> TextRange
        requires order { children.start ≤ children.end }
        requires fits { self.now.start + node_len self.now.node.now ≤ byte_limit }
        ensures { let all = node_children self.now.node.now in result ≡ record {
          start = self.now.start + child_start all children.start;
          end = self.now.start + child_start all children.end;
        } }
    {
        let start = start_of_child(self.node, children.start);
        let end = start_of_child(self.node, children.end);
        TextRange::new(
            TextRange::at(self.start, start).end(),
            TextRange::at(self.start, end).end(),
        )
    }
}

/// How many bytes of a node's text stand before the child at an index: all, if none is there.
fn start_of_child(node: &GreenNode, index: usize) -> TextSize
    ensures { result ≡ child_start (node_children node.now) index }
{
    match node.child_ref(index) {
        Some(child) => child.0,
        None => node.text_len(),
    }
}

/// The node at a path.
pub(crate) fn place_at<'tree>(root: &'tree GreenNode, path: &[usize]) -> Option<Place<'tree>>
    ensures some { IfSome result (λ p. subterm (Node root.now) path.now ≡ Some (Node p.node.now)) }
    ensures start { IfSome result (λ p. p.start ≡ offset (Node root.now) path.now) }
    ensures fits { IfSome result (λ p. p.start + node_len p.node.now ≤ byte_limit) }
    ensures none { IsNone result → (n : NodeTerm)
        → subterm (Node root.now) path.now ≢ Some (Node n) }
{
    // A tree is within the limits, and with it each offset of the text.
    let _text_len = root.text_len();
    let mut node = root;
    let mut start = TextSize::from(0);
    for index in path {
        let Some(found) = node.child_ref(*index) else {
            return None;
        };
        let NodeOrToken::Node(child) = found.1 else {
            return None;
        };
        start = TextRange::at(start, found.0).end();
        node = child;
    }
    Some(Place { node, start })
}
