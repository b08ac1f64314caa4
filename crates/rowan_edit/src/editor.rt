//! An editor of the tree of a cursor.
ghost use Rattle.std.specs.Prelude.{◌≡◌, ◌≢◌, ◌+◌, ℕ, true, false, [], Some, IfOk, IfErr, OnOk};
ghost use Rattle.std.specs.Prelude.{OnErr};
ghost use Rattle.rowan_green.specs.declared.utility_types.NodeOrToken.TheVariants.{Node};
ghost use Rattle.rowan_green.specs.Fits.{FitsNode};
ghost use Rattle.rowan_terms.specs.Path.{Path};
ghost use Rattle.rowan_table.specs.Cursor.{index};
ghost use Rattle.rowan_table.specs.Moves.{place_of, parent, child_count};
ghost use Rattle.rowan_cursor.specs.Refs.{node_place, element_place};
ghost use Rattle.rowan_changes.specs.Changes.{changes_of};
ghost use Rattle.rowan_edit.specs.Cursors.{AtChild, WhyNotTaken, WhyNotTakenAt};
ghost use Rattle.rowan_changes.specs.Edit.{Edit, edited};
ghost use Rattle.rowan_changes.specs.Limits.{WhyNotEdited};
ghost use Rattle.rowan_changes.specs.Plan.{with_edit, WhyRefused};
ghost use Rattle.rowan_changes.specs.TextEdits.{IsEdited};

use crate::green_editor::GreenEditor;
use rowan_changes::changes::Edited;
use rowan_changes::refusal::Refusal;
use rowan_cursor::cursor::{
    ElementRefCalls, SyntaxElement, SyntaxElementRef, SyntaxNode, SyntaxNodeRef,
};
use rowan_green::fault::Fault;
use rowan_green::green::GreenElement;
use rowan_green::utility_types::NodeOrToken;
use std::alloc::{AllocError, Global};
use std::marker::Model;
use std::ops::Range;

/// Edits of the tree of a cursor, which are made together, in one pass. Elements are named by
/// cursors of the tree as it was given, whatever else is edited.
#[derive(Drop)]
pub struct Editor {
    alloc: Global,
    green: GreenEditor,
}

impl Model for Editor {
    ghost use Rattle.rowan_changes.specs.Plan.{Plan};
    ghost use Rattle.rowan_edit.specs.PlanCode.{coded_plan};

    ghost Value = { Plan };

    ghost coded = { coded_plan };

    ghost view = { λ e. e.green };
}

impl Editor {
    /// An editor of the whole tree that a node is in, which has no edits yet. Refused only for want
    /// of memory.
    pub fn new(alloc: Global, node: &SyntaxNode) -> Result<Editor, Fault>
        ensures ok { IfOk result (λ e. e ≡ record { root = node.now.root; edits = [] }) }
        ensures err { IfErr result (λ e. e ≡ Fault.Memory) }
    {
        let top = node.tree_top()?;
        let green = GreenEditor::new(alloc, top.green())?;
        Ok(Editor { alloc, green })
    }

    /// Puts elements in place of the children of a node from one index to another, the one at the
    /// end not included. The node is one of this tree where the two roots are shared or equal.
    ///
    /// Errors: `OtherTree` if the root of the node's tree is not equal to that of this one, which
    /// is looked at first; `NotFound` if the node has no such children; `Conflict` if the edit
    /// conflicts with one that was taken before; `Memory` if an allocation failed. A refused edit
    /// leaves the editor unchanged.
    pub fn splice(
        &mut self,
        parent: &SyntaxNode,
        children: Range<usize>,
        new: Vec<GreenElement>,
    ) -> Result<(), Refusal>
        ensures ok { let edit : Edit = record {
          parent = parent.now.path;
          start = children.start;
          end = children.end;
          new = new.items;
        } in
            OnOk result (self.new ≡ with_edit self.old edit) }
        ensures tree { OnOk result (parent.now.root ≡ self.old.root) }
        ensures err { let edit : Edit = record {
          parent = parent.now.path;
          start = children.start;
          end = children.end;
          new = new.items;
        } in
            IfErr result (WhyNotTaken self.old parent.now edit) }
        ensures unchanged { OnErr result (self.new ≡ self.old) }
    {
        let node = parent.as_ref();
        if !self.is_of_tree(node) {
            return Err(Refusal::OtherTree);
        }
        self.splice_at(node, children, new)
    }

    // The same in a node of this tree.
    fn splice_at(
        &mut self,
        parent: SyntaxNodeRef<'_>,
        children: Range<usize>,
        new: Vec<GreenElement>,
    ) -> Result<(), Refusal>
        ensures ok { let edit : Edit = record {
          parent = (node_place parent.entry).path;
          start = children.start;
          end = children.end;
          new = new.items;
        } in
            OnOk result (self.new ≡ with_edit self.old edit) }
        ensures err { let edit : Edit = record {
          parent = (node_place parent.entry).path;
          start = children.start;
          end = children.end;
          new = new.items;
        } in
            IfErr result (WhyRefused self.old edit) }
        ensures unchanged { OnErr result (self.new ≡ self.old) }
    {
        let path = path_to(self.alloc, parent)?;
        self.green.splice(&path, children, new)
    }

    // Whether a node is one of this tree.
    fn is_of_tree(&self, node: SyntaxNodeRef<'_>) -> bool
        ensures same { result ≡ true → (node_place node.entry).root ≡ self.now.root }
        ensures other { result ≡ false → (node_place node.entry).root ≢ self.now.root }
    {
        self.green.has_root(node.tree_top().green())
    }

    // The child that an element is.
    fn child_at<'tree>(&self, element: &'tree SyntaxElement) -> Result<Child<'tree>, Refusal>
        ensures tree { OnOk result ((place_of element.now).root ≡ self.now.root) }
        ensures parent { IfOk result (λ c.
            parent (place_of element.now) ≡ Some (node_place c.parent)) }
        ensures start { IfOk result (λ c. c.start ≡ index (place_of element.now)) }
        ensures end { IfOk result (λ c. c.end ≡ c.start + 1) }
        ensures err { (edit : Path → ℕ → Edit)
            → IfErr result (WhyNotTakenAt self.now (place_of element.now) edit) }
    {
        let element = borrowed(element);
        if !self.is_of_tree(element.tree_top()) {
            return Err(Refusal::OtherTree);
        }
        let Some(parent) = element.parent() else {
            return Err(Refusal::Root);
        };
        let start = element.index();
        // No node has so many children that there is no next index.
        let Some(end) = start.checked_add(1) else {
            return Err(Refusal::Memory);
        };
        Ok(Child { parent, start, end })
    }

    /// Puts elements in place of one.
    ///
    /// Errors: `OtherTree` if the root of the element's tree is not equal to that of this one,
    /// which is looked at first; `Root` if the element is the root; and else as `splice`.
    pub fn replace(
        &mut self,
        element: &SyntaxElement,
        new: Vec<GreenElement>,
    ) -> Result<(), Refusal>
        ensures ok { OnOk result (AtChild (place_of element.now) (λ path i.
            self.new ≡ with_edit self.old
            (record { parent = path; start = i; end = i + 1; new = new.items }))) }
        ensures tree { OnOk result ((place_of element.now).root ≡ self.old.root) }
        ensures err { IfErr result (WhyNotTakenAt self.old (place_of element.now) (λ path i.
            record { parent = path; start = i; end = i + 1; new = new.items })) }
        ensures unchanged { OnErr result (self.new ≡ self.old) }
    {
        let child = self.child_at(element)?;
        self.splice_at(child.parent, child.start..child.end, new)
    }

    /// Takes an element away. Errors: as `replace`.
    pub fn delete(&mut self, element: &SyntaxElement) -> Result<(), Refusal>
        ensures ok { OnOk result (AtChild (place_of element.now) (λ path i.
            self.new ≡ with_edit self.old
            (record { parent = path; start = i; end = i + 1; new = [] }))) }
        ensures tree { OnOk result ((place_of element.now).root ≡ self.old.root) }
        ensures err { IfErr result (WhyNotTakenAt self.old (place_of element.now) (λ path i.
            record { parent = path; start = i; end = i + 1; new = [] })) }
        ensures unchanged { OnErr result (self.new ≡ self.old) }
    {
        self.replace(element, Vec::new(self.alloc))
    }

    /// Puts elements before one, behind those that were put there earlier. Errors: as `replace`.
    pub fn insert_before(
        &mut self,
        element: &SyntaxElement,
        new: Vec<GreenElement>,
    ) -> Result<(), Refusal>
        ensures ok { OnOk result (AtChild (place_of element.now) (λ path i.
            self.new ≡ with_edit self.old
            (record { parent = path; start = i; end = i; new = new.items }))) }
        ensures tree { OnOk result ((place_of element.now).root ≡ self.old.root) }
        ensures err { IfErr result (WhyNotTakenAt self.old (place_of element.now) (λ path i.
            record { parent = path; start = i; end = i; new = new.items })) }
        ensures unchanged { OnErr result (self.new ≡ self.old) }
    {
        let child = self.child_at(element)?;
        self.splice_at(child.parent, child.start..child.start, new)
    }

    /// Puts elements behind one, and behind those that were put there earlier. Errors: as `replace`.
    pub fn insert_after(
        &mut self,
        element: &SyntaxElement,
        new: Vec<GreenElement>,
    ) -> Result<(), Refusal>
        ensures ok { OnOk result (AtChild (place_of element.now) (λ path i.
            self.new ≡ with_edit self.old
            (record { parent = path; start = i + 1; end = i + 1; new = new.items }))) }
        ensures tree { OnOk result ((place_of element.now).root ≡ self.old.root) }
        ensures err { IfErr result (WhyNotTakenAt self.old (place_of element.now) (λ path i.
            record { parent = path; start = i + 1; end = i + 1; new = new.items })) }
        ensures unchanged { OnErr result (self.new ≡ self.old) }
    {
        let child = self.child_at(element)?;
        self.splice_at(child.parent, child.end..child.end, new)
    }

    /// Puts elements before the first child of a node. Errors: as `splice`.
    pub fn prepend(&mut self, parent: &SyntaxNode, new: Vec<GreenElement>) -> Result<(), Refusal>
        ensures ok { let edit : Edit = record {
          parent = parent.now.path;
          start = 0;
          end = 0;
          new = new.items;
        } in OnOk result (self.new ≡ with_edit self.old edit) }
        ensures tree { OnOk result (parent.now.root ≡ self.old.root) }
        ensures err { let edit : Edit = record {
          parent = parent.now.path;
          start = 0;
          end = 0;
          new = new.items;
        } in IfErr result (WhyNotTaken self.old parent.now edit) }
        ensures unchanged { OnErr result (self.new ≡ self.old) }
    {
        self.splice(parent, 0..0, new)
    }

    /// Puts elements behind the last child of a node. Errors: as `splice`.
    pub fn append(&mut self, parent: &SyntaxNode, new: Vec<GreenElement>) -> Result<(), Refusal>
        ensures ok { let count = child_count parent.now.root parent.now.path in
            let edit : Edit = record {
              parent = parent.now.path;
              start = count;
              end = count;
              new = new.items;
            } in OnOk result (self.new ≡ with_edit self.old edit) }
        ensures tree { OnOk result (parent.now.root ≡ self.old.root) }
        ensures err { let count = child_count parent.now.root parent.now.path in
            let edit : Edit = record {
              parent = parent.now.path;
              start = count;
              end = count;
              new = new.items;
            } in IfErr result (WhyNotTaken self.old parent.now edit) }
        ensures unchanged { OnErr result (self.new ≡ self.old) }
    {
        let count = parent.green().children().len();
        self.splice(parent, count..count, new)
    }

    /// The tree with all edits made, and the change that each of them makes in the text. Refused
    /// with `TextTooLong` or `TooManyChildren` where a node of that tree would pass a limit, and
    /// else only for want of memory.
    pub fn finish(self) -> Result<Edited, Fault>
        ensures green { IfOk result (λ e. Node e.green ≡ edited (Node self.root) self.edits) }
        ensures changes { IfOk result (λ e. e.changes ≡ changes_of (Node self.root) self.edits) }
        ensures whole { IfOk result (IsEdited self.root self.edits) }
        ensures fits { IfOk result (λ e. FitsNode e.green) }
        ensures err { IfErr result (WhyNotEdited (edited (Node self.root) self.edits)) }
    {
        self.green.finish()
    }
}

/// A child by its parent and the indexes before and behind it.
#[derive(Clone, Copy)]
struct Child<'tree> {
    parent: SyntaxNodeRef<'tree>,
    start: usize,
    end: usize,
}

/// An element, borrowed from its tree.
fn borrowed(element: &SyntaxElement) -> SyntaxElementRef<'_>
    ensures { element_place result ≡ element.now }
{
    match element {
        NodeOrToken::Node(node) => NodeOrToken::Node(node.as_ref()),
        NodeOrToken::Token(token) => NodeOrToken::Token(token.as_ref()),
    }
}

/// The path of a node: the indexes on the way down to it.
fn path_to(alloc: Global, node: SyntaxNodeRef<'_>) -> Result<Vec<usize>, AllocError>
    ensures { IfOk result (λ path. path.items ≡ (node_place node.entry).path) }
{
    let mut path = Vec::new(alloc);
    let mut at = node;
    while let Some(parent) = at.parent() {
        path.push(at.index())?;
        at = parent;
    }
    path.reverse();
    Ok(path)
}
