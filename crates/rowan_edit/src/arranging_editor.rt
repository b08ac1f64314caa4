//! An editor of a green tree that gives nodes other children, too.
ghost use Rattle.std.specs.Prelude.{◌≡◌, ◌≢◌, true, false, [], ◌∷◌, ◌++◌, IfOk, IfErr, OnOk, OnErr};
ghost use Rattle.std.specs.Prelude.{List};
ghost use Rattle.std.specs.Cmp.Lexicographic.{slice_cmp};
ghost use Rattle.std.specs.List.{AllByRecursion};
ghost use Rattle.std.specs.Ordering.{nat_cmp};
ghost use Rattle.std.specs.declared.cmp.Ordering.TheVariants.{Less};
ghost use Rattle.rowan_green.specs.Fits.{FitsNode};
ghost use Rattle.rowan_green.specs.Term.{Term};
ghost use Rattle.rowan_edit.specs.ArrangedLimits.{WhyNotMade};
ghost use Rattle.rowan_edit.specs.ArrangedTree.{IsPlanned};
ghost use Rattle.rowan_edit.specs.Arrangements.{with_edit, with_arrangement, plain_edits};
ghost use Rattle.rowan_edit.specs.Arrangements.{Excludes, HasExcluded, WhyRefused, WhyNotArranged};
ghost use Rattle.rowan_edit.specs.ArrangementsKept.{arrangements_in, HasBetween, HasNoneBetween};
ghost use Rattle.rowan_edit.specs.Edges.{range_edit};
ghost use Rattle.rowan_changes.specs.TextEdits.{IsEdited};

use crate::green_editor::{GreenEditor, edited_tree};
use crate::pieces::{Piece, are_within};
use crate::plain_edits::{Arrangements, plain_edits};
use rowan_changes::changes::Edited;
use rowan_changes::refusal::Refusal;
use rowan_green::fault::Fault;
use rowan_green::green::{GreenElement, GreenNode};
use std::alloc::{AllocError, Global};
use std::collections::BTreeMap;
use std::marker::Model;
use std::ops::Range;

/// Edits of one green tree and other children of its nodes, which are made together.
#[derive(Drop)]
pub(crate) struct ArrangingEditor {
    alloc: Global,
    green: GreenEditor,
    arrangements: Arrangements,
}

impl Model for ArrangingEditor {
    ghost use Rattle.rowan_edit.specs.Arrangements.{ArrangedPlan};
    ghost use Rattle.rowan_edit.specs.ArrangedCode.{coded_arranged_plan};

    ghost Value = { ArrangedPlan };

    ghost coded = { coded_arranged_plan };

    ghost use Rattle.rowan_edit.specs.ArrangementsKept.{arrangements_in, AreClear};

    ghost view = { λ e. record {
      root = e.green.root;
      edits = e.green.edits;
      arrangements = arrangements_in e.arrangements.entries;
    } };

    ghost invariant = { λ e.
        AreClear e.green.root e.green.edits (arrangements_in e.arrangements.entries) };
}

impl ArrangingEditor {
    /// An editor of a tree, which has no edits yet. Refused only for want of memory.
    pub(crate) fn new(alloc: Global, root: &GreenNode) -> Result<ArrangingEditor, Fault>
        ensures ok { IfOk result (λ e.
            e ≡ record { root = root.now; edits = []; arrangements = [] }) }
        ensures err { IfErr result (λ e. e ≡ Fault.Memory) }
    {
        Ok(ArrangingEditor {
            alloc,
            green: GreenEditor::new(alloc, root)?,
            arrangements: BTreeMap::new(alloc),
        })
    }

    /// Puts elements in place of children, as `GreenEditor::splice` does.
    pub(crate) fn splice(
        &mut self,
        parent: &[usize],
        children: Range<usize>,
        new: Vec<GreenElement>,
    ) -> Result<(), Refusal>
        ensures ok { OnOk result (self.new ≡ with_edit self.old
            (range_edit parent.now new.items children.start children.end)) }
        ensures err { IfErr result (WhyRefused self.old
            (range_edit parent.now new.items children.start children.end)) }
        ensures unchanged { OnErr result (self.new ≡ self.old) }
    {
        let arrangements = &self.arrangements;
        let (start, end) = (children.start, children.end);
        let excluded = has_excluded(self.alloc, arrangements, parent, start, end)?;
        if excluded {
            return Err(Refusal::Conflict);
        }
        self.green.splice(parent, children, new)
    }

    /// Gives the node at a path these children.
    pub(crate) fn replace_children(
        &mut self,
        parent: Vec<usize>,
        pieces: Vec<Piece>,
    ) -> Result<(), Refusal>
        ensures ok { OnOk result (self.new ≡ with_arrangement self.old
            (record { path = parent.items; pieces = pieces.items })) }
        ensures err { IfErr result (WhyNotArranged self.old
            (record { path = parent.items; pieces = pieces.items })) }
        ensures unchanged { OnErr result (self.new ≡ self.old) }
    {
        let Some(count) = self.green.child_count(&parent) else {
            return Err(Refusal::NotFound);
        };
        if !are_within(&pieces, count) {
            return Err(Refusal::NotFound);
        }
        if self.arrangements.contains_key(&parent) {
            return Err(Refusal::Conflict);
        }
        let excluded = self.green.has_excluding(&parent, count)?;
        if excluded {
            return Err(Refusal::Conflict);
        }
        self.arrangements.insert(parent, pieces)?;
        Ok(())
    }

    /// Whether the root is this node: they are shared, or equal.
    pub(crate) fn has_root(&self, node: &GreenNode) -> bool
        ensures same { result ≡ true → node.now ≡ self.now.root }
        ensures other { result ≡ false → node.now ≢ self.now.root }
    {
        self.green.has_root(node)
    }

    /// The tree with all edits made and all nodes arranged, and the change that each edit and each
    /// arrangement makes in the text.
    pub(crate) fn finish(self) -> Result<Edited, Fault>
        ensures whole { IfOk result (IsEdited self.root (plain_edits self)) }
        ensures planned { OnOk result (IsPlanned self) }
        ensures fits { IfOk result (λ e. FitsNode e.green) }
        ensures err { IfErr result (WhyNotMade self) }
    {
        let ArrangingEditor {
            alloc,
            green,
            arrangements,
        } = self;
        let (root, edits) = green.into_splices()?;
        let edits = plain_edits(alloc, &root, edits, arrangements)?;
        edited_tree(alloc, &root, edits)
    }
}

/// Whether an edit of the children of a node excludes an arrangement: that of the node, or one of a
/// node that it takes away, or of one inside of such a node.
fn has_excluded(
    alloc: Global,
    arrangements: &Arrangements,
    parent: &[usize],
    start: usize,
    end: usize,
) -> Result<bool, AllocError>
    ensures some { (new : List Term) → IfOk result (λ found. found ≡ true
        → HasExcluded (arrangements_in arrangements.now.entries)
        (range_edit parent.now new start end)) }
    ensures none { (new : List Term) → IfOk result (λ found. found ≡ false
        → AllByRecursion (λ a. ¬ Excludes (range_edit parent.now new start end) a.path)
        (arrangements_in arrangements.now.entries)) }
{
    if arrangements.is_empty() {
        return Ok(false);
    }
    if arrangements.contains_key(parent) {
        return Ok(true);
    }
    if start >= end {
        return Ok(false);
    }
    let first = child_path(alloc, parent, start)?;
    let past = child_path(alloc, parent, end)?;
    Ok(has_between(arrangements, &first, &past))
}

/// Whether there is an arrangement from a path on and before another one.
fn has_between(arrangements: &Arrangements, first: &Vec<usize>, past: &Vec<usize>) -> bool
    requires { slice_cmp nat_cmp first.now.items past.now.items ≡ Less }
    ensures some { result ≡ true → HasBetween first.now.items past.now.items
        (arrangements_in arrangements.now.entries) }
    ensures none { result ≡ false → HasNoneBetween first.now.items past.now.items
        (arrangements_in arrangements.now.entries) }
{
    match arrangements.range(first..past).next() {
        Some(_) => true,
        None => false,
    }
}

/// The path of a child.
fn child_path(alloc: Global, parent: &[usize], index: usize) -> Result<Vec<usize>, AllocError>
    ensures { IfOk result (λ path. path.items ≡ parent.now ++ index ∷ []) }
{
    let mut path = Vec::new(alloc);
    path.reserve_exact(parent.len() + 1)?;
    path.extend_from_slice(parent)?;
    path.push(index)?;
    Ok(path)
}
