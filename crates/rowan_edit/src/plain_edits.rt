//! Edits and other orders of children, as edits.
ghost use Rattle.std.specs.Prelude.{◌≡◌, ◌≢◌, [], ◌∷◌, ◌++◌, IfOk, IfErr, OnOk};
ghost use Rattle.std.specs.Cmp.Lexicographic.{slice_cmp};
ghost use Rattle.std.specs.Ordering.{nat_cmp};
ghost use Rattle.std.specs.declared.cmp.Ordering.TheVariants.{Less};
ghost use Rattle.rowan_green.specs.declared.utility_types.NodeOrToken.TheVariants.{Node};
ghost use Rattle.rowan_terms.specs.Path.{Path};
ghost use Rattle.rowan_edit.specs.ArrangedLimits.{PassesLimitOf, PassesLimitBefore};
ghost use Rattle.rowan_edit.specs.ArrangedTree.{AreInPathOrder};
ghost use Rattle.rowan_edit.specs.Arrangements.{as_edit, arranged, all_arranged, edited_at};
ghost use Rattle.rowan_edit.specs.Arrangements.{IsArrangementOf};
ghost use Rattle.rowan_edit.specs.ArrangementsKept.{arrangements_in, splices_in, AreClear};
ghost use Rattle.rowan_edit.specs.ArrangementsKept.{AreReady, IsAt, IsParted, AreEditsAt};
ghost use Rattle.rowan_changes.specs.Changes.{range_of};
ghost use Rattle.rowan_changes.specs.GreenEditor.{edit_of, edits_of, AreListed};
ghost use Rattle.rowan_edit.specs.Inside.{rest_behind, edits_inside};
ghost use Rattle.rowan_changes.specs.Sites.{items_in};

use crate::green_editor::{new_root, place_at};
use crate::pieces::{Piece, named_in};
use rowan_changes::edit::{Splice, lies_before};
use rowan_changes::edit_sites::shared_len;
use rowan_green::fault::Fault;
use rowan_green::green::GreenNode;
use std::alloc::{AllocError, Global};
use std::collections::BTreeMap;

/// The new children of nodes, by their paths.
pub(crate) type Arrangements = BTreeMap<Vec<usize>, Vec<Piece>, Global>;

/// Edits in the order of their places: those in front of a place, and those behind it, of which the
/// first one stands last.
#[derive(Drop)]
pub(crate) struct Halves {
    front: Vec<Splice>,
    behind: Vec<Splice>,
}

/// Edits of the children of a node and of what is in them, with paths from that node on, and the
/// other edits.
#[derive(Drop)]
struct Parted {
    inside: Vec<Splice>,
    others: Halves,
}

/// The edits that edits and arrangements come to. Each edit is moved at most twice.
pub(crate) fn plain_edits(
    alloc: Global,
    root: &GreenNode,
    edits: Vec<Splice>,
    arrangements: Arrangements,
) -> Result<Vec<Splice>, Fault>
    requires listed { AreListed root.now edits.items }
    requires clear { AreClear root.now (edits_of edits.items)
        (arrangements_in arrangements.entries) }
    ensures listed { IfOk result (λ list. AreListed root.now list.items) }
    ensures order { OnOk result (AreInPathOrder (arrangements_in arrangements.entries)) }
    ensures ok { IfOk result (λ list. edits_of list.items ≡ all_arranged root.now
        (edits_of edits.items) (arrangements_in arrangements.entries)) }
    ensures err { IfErr result (λ e. e ≢ Fault.Memory → PassesLimitBefore root.now
        (edits_of edits.items) (arrangements_in arrangements.entries) e) }
{
    let mut left = arrangements;
    let mut behind = Vec::new(alloc);
    behind.reserve(left.len())?;
    let mut halves = Halves {
        front: edits,
        behind,
    };
    while let Some((path, pieces)) = left.pop_last() {
        halves = halves.arrange(alloc, root, path, pieces)?;
    }
    Ok(halves.join()?)
}

impl Halves {
    /// The edits with the arrangement of a node, whose first child comes before those behind.
    fn arrange(
        self,
        alloc: Global,
        root: &GreenNode,
        path: Vec<usize>,
        pieces: Vec<Piece>,
    ) -> Result<Halves, Fault>
        requires ready { AreReady root.now self path.items }
        requires node { IsArrangementOf root.now
            (record { path = path.items; pieces = pieces.items }) }
        ensures listed { IfOk result (λ h. AreListed root.now (splices_in h)) }
        ensures edits { IfOk result (λ h. edits_of (splices_in h)
            ≡ arranged root.now (edits_of (splices_in self))
            (record { path = path.items; pieces = pieces.items })) }
        ensures ready { (q : Path) → AreReady root.now self q
            → slice_cmp nat_cmp q path.items ≡ Less → IfOk result (λ h. AreReady root.now h q) }
        ensures err { let inside = edits_inside path.items (edits_of (splices_in self)) in
            IfErr result (λ e. e ≢ Fault.Memory
            → PassesLimitOf (edited_at root.now path.items inside) e) }
    {
        let halves = self.go_to(&path)?;
        let Parted { inside, others } = halves.part(alloc, &path)?;
        let splice = arranged_splice(alloc, root, path, pieces, inside)?;
        Ok(others.with(splice)?)
    }

    /// Moves those that do not end before the first child of the node at a path.
    fn go_to(self, path: &[usize]) -> Result<Halves, AllocError>
        ensures { IfOk result (IsAt path.now self) }
    {
        let Halves {
            mut front,
            mut behind,
        } = self;
        while let Some(last) = front.pop() {
            if lies_before(&last.parent, last.end, path, 0) {
                front.push(last)?;
                return Ok(Halves { front, behind });
            }
            behind.push(last)?;
        }
        Ok(Halves { front, behind })
    }

    /// Takes the first ones of those behind out that are inside of the node at a path.
    fn part(self, alloc: Global, path: &[usize]) -> Result<Parted, AllocError>
        ensures { IfOk result (IsParted path.now self) }
    {
        let Halves { front, mut behind } = self;
        let mut inside = Vec::new(alloc);
        while let Some(first) = behind.pop() {
            let Some(parent) = below(alloc, path, &first.parent)? else {
                behind.push(first)?;
                let others = Halves { front, behind };
                return Ok(Parted { inside, others });
            };
            inside.push(Splice { parent, ..first })?;
        }
        let others = Halves { front, behind };
        Ok(Parted { inside, others })
    }

    /// The edits with one more, between those in front and those behind.
    fn with(self, splice: Splice) -> Result<Halves, AllocError>
        ensures front { IfOk result (λ h. h.front.items ≡ self.front.items) }
        ensures behind { IfOk result (λ h. h.behind.items ≡ self.behind.items ++ splice ∷ []) }
    {
        let Halves { front, mut behind } = self;
        behind.push(splice)?;
        Ok(Halves { front, behind })
    }

    /// All edits.
    fn join(self) -> Result<Vec<Splice>, AllocError>
        ensures { IfOk result (λ list. list.items ≡ splices_in self) }
    {
        let Halves {
            mut front,
            mut behind,
        } = self;
        while let Some(first) = behind.pop() {
            front.push(first)?;
        }
        Ok(front)
    }
}

/// How a path goes on behind another one, if it begins with that.
fn below(alloc: Global, path: &[usize], other: &[usize]) -> Result<Option<Vec<usize>>, AllocError>
    ensures { IfOk result (λ rest. items_in rest ≡ rest_behind path.now other.now) }
{
    let shared = shared_len(path, other);
    if shared < path.len() {
        return Ok(None);
    }
    Ok(Some(Vec::from_slice(alloc, other.split_at(shared).1)?))
}

/// The splice that puts pieces in place of all children of a node, once edits are made in it.
fn arranged_splice(
    alloc: Global,
    root: &GreenNode,
    path: Vec<usize>,
    pieces: Vec<Piece>,
    inside: Vec<Splice>,
) -> Result<Splice, Fault>
    requires { AreEditsAt root.now path.items (edits_of inside.items) }
    ensures edit { IfOk result (λ s. edit_of s ≡ as_edit root.now (edits_of inside.items)
        (record { path = path.items; pieces = pieces.items })) }
    ensures range { IfOk result (λ s. s.range ≡ range_of (Node root.now) (edit_of s)) }
    ensures err { IfErr result (λ e. e ≢ Fault.Memory
        → PassesLimitOf (edited_at root.now path.items (edits_of inside.items)) e) }
{
    let Some(place) = place_at(root, &path) else {
        unreachable!();
    };
    let end = place.node.children().len();
    let range = place.range_of(0..end);
    let node = new_root(alloc, place.node, inside)?;
    let new = named_in(alloc, &node, pieces)?;
    Ok(Splice {
        parent: path,
        start: 0,
        end,
        range,
        new,
    })
}
