//! Where the edits of a tree were made, in the old tree and in the new one.
ghost use Rattle.std.specs.Prelude.{◌≡◌, ℕ, ◌+◌, ◌<◌, ◌≤◌, [], ◌∷◌, ◌++◌, false, length, take, drop};
ghost use Rattle.std.specs.Prelude.{IfOk, IfErr, IfSome, IsNone, slice_get};
ghost use Rattle.std.specs.List.{AllByRecursion};
ghost use Rattle.std.specs.Option.{option_map};
ghost use Rattle.rowan_green.specs.declared.utility_types.NodeOrToken.TheVariants.{Node};
ghost use Rattle.rowan_green.specs.Lent.{pointee};
ghost use Rattle.rowan_terms.specs.Path.{Path, subterm};
ghost use Rattle.rowan_changes.specs.Edit.{lies_before, place};
ghost use Rattle.rowan_changes.specs.GreenEditor.{edit_of, edits_of};
ghost use Rattle.rowan_changes.specs.Plan.{EndInTurn};
ghost use Rattle.rowan_changes.specs.Sites.{site_of, sites_of, is_taken_at, moved_over};
ghost use Rattle.rowan_changes.specs.Sites.{path_after, items_in, ArePutAt};
ghost use Rattle.rowan_changes.specs.SitesKept.{site_in, sites_in, EndsBefore, StandInTurn, IsPlaced};
ghost use Rattle.rowan_changes.specs.SitesKept.{IsTakenBy, ArePlaced, carried};
ghost use Rattle.rowan_changes.specs.Zipper.{Fork};

use crate::edit::Splice;
use rowan_green::fault::Fault;
use rowan_green::green::{GreenElementRef, GreenNode};
use rowan_green::utility_types::NodeOrToken;
use std::alloc::Global;
use std::marker::Model;
use std::ops::Range;

/// An edit that was made: which children of a node of the old tree gave way, how many elements came
/// in their place, and where these stand in the new tree.
#[derive(Drop)]
struct PlacedEdit {
    parent: Vec<usize>,
    start: usize,
    end: usize,
    count: usize,
    /// The path of the node in the new tree, and then the index of the first new element.
    new_place: Vec<usize>,
    /// The index behind the last new element.
    new_end: usize,
}

/// The elements that an edit put into a tree: the children of a node from one index to another,
/// the one at the end not included. There are none where it only took elements away.
#[derive(Debug, Drop)]
pub struct Placed<'a> {
    /// The path of the node in the new tree.
    pub parent: &'a [usize],
    /// The indexes of the elements among all children of the node.
    pub children: Range<usize>,
}

/// The tree as it was, and where its edits were made, in the order of their places.
#[derive(Drop)]
pub struct EditSites {
    root: GreenNode,
    list: Vec<PlacedEdit>,
}

impl Model for EditSites {
    ghost use Rattle.rowan_changes.specs.Sites.{EditedPlaces};
    ghost use Rattle.rowan_changes.specs.SitesCode.{coded_places};

    ghost Value = { EditedPlaces };

    ghost coded = { coded_places };

    ghost use Rattle.rowan_changes.specs.SitesKept.{sites_in, ArePlaced};

    ghost view = { λ s. record { root = s.root; sites = sites_in s.list.items } };

    ghost invariant = { λ s. ArePlaced s.list.items };
}

impl EditSites {
    /// The sites of edits, which stand in order. Refused only for want of memory.
    #[doc(hidden)]
    pub fn new(alloc: Global, root: &GreenNode, edits: &[Splice]) -> Result<EditSites, Fault>
        requires { EndInTurn (edits_of edits.now) }
        ensures ok { IfOk result (λ s.
            s ≡ record { root = root.now; sites = sites_of (edits_of edits.now) }) }
        ensures err { IfErr result (λ e. e ≡ Fault.Memory) }
    {
        let root = root.clone()?;
        let mut list = Vec::new(alloc);
        list.reserve(edits.len())?;
        for edit in edits {
            let placed = placed_behind(alloc, &list, edit)?;
            list.push(placed)?;
        }
        Ok(EditSites { root, list })
    }

    /// The tree as it was.
    pub fn root(&self) -> &GreenNode
        ensures { result.now ≡ self.now.root }
    {
        &self.root
    }

    /// How many edits were made.
    pub fn len(&self) -> usize
        ensures { result ≡ length self.now.sites }
    {
        self.list.len()
    }

    /// Where the elements of an edit stand in the new tree. `None` past the last edit.
    #[doc(hidden)]
    pub fn placed(&self, index: usize) -> Option<Placed<'_>>
        ensures some { IfSome result (λ p.
            ArePutAt self.now.sites index p.parent.now p.children.start p.children.end) }
        ensures none { IsNone result → length self.now.sites ≤ index }
    {
        let edit = self.list.get(index)?;
        let (start, parent) = edit.new_place.split_last()?;
        Some(Placed {
            parent,
            children: *start..edit.new_end,
        })
    }

    /// Where the element at a path is in the new tree. Refused only for want of memory.
    #[doc(hidden)]
    pub fn moved_path(&self, alloc: Global, path: &[usize]) -> Result<Option<Vec<usize>>, Fault>
        ensures ok { IfOk result (λ found. items_in found ≡ path_after self.now path.now) }
        ensures err { IfErr result (λ e. e ≡ Fault.Memory) }
    {
        if element_at(&self.root, path).is_none() {
            return Ok(None);
        }
        let list = self.list.as_slice();
        let count = count_before(list, path);
        if is_taken_by(list, count, path) {
            return Ok(None);
        }
        let before = list.split_at(count).0;
        let moved = moved_by_all(alloc, before, path)?;
        Ok(Some(moved))
    }
}

/// The element at a path of a tree.
#[doc(hidden)]
pub fn element_at<'tree>(root: &'tree GreenNode, path: &[usize]) -> Option<GreenElementRef<'tree>>
    ensures { option_map pointee result ≡ subterm (Node root.now) path.now }
{
    let mut element = NodeOrToken::Node(root);
    for index in path {
        let NodeOrToken::Node(node) = element else {
            return None;
        };
        let Some(child) = node.child_ref(*index) else {
            return None;
        };
        element = child.1;
    }
    Some(element)
}

/// How many of the edits end before the element at a path, which they are asked by binary search.
fn count_before(list: &[PlacedEdit], path: &[usize]) -> usize
    requires { StandInTurn (sites_in list.now) }
    ensures within { result ≤ length list.now }
    ensures before { AllByRecursion (EndsBefore path.now) (sites_in (take result list.now)) }
    ensures others { AllByRecursion (λ s. lies_before s.parent s.end path.now ≡ false)
        (sites_in (drop result list.now)) }
{
    list.partition_point(|edit| edit.ends_before(path))
}

/// Whether there is an edit with an index, and it takes away what stands at a path, or something
/// around it.
fn is_taken_by(list: &[PlacedEdit], index: usize, path: &[usize]) -> bool
    ensures { IsTakenBy (slice_get list.now index) path.now result }
{
    match list.get(index) {
        Some(edit) => edit.takes(path),
        None => false,
    }
}

/// An edit that comes behind others. Refused only for want of memory.
fn placed_behind(alloc: Global, before: &[PlacedEdit], edit: &Splice) -> Result<PlacedEdit, Fault>
    requires placed { ArePlaced before.now }
    requires before { AllByRecursion (EndsBefore (place (edit_of edit.now))) (sites_in before.now) }
    ensures site { IfOk result (λ e. site_in e ≡ site_of (edit_of edit.now)) }
    ensures place { IfOk result (IsPlaced (sites_in before.now)) }
    ensures err { IfErr result (λ e. e ≡ Fault.Memory) }
{
    let parent = Vec::from_slice(alloc, &edit.parent)?;
    let mut place = Vec::from_slice(alloc, &edit.parent)?;
    place.push(edit.start)?;
    let new_place = moved_by_all(alloc, before, &place)?;
    let new_end = end_behind(&new_place, edit.new.len())?;
    Ok(PlacedEdit {
        parent,
        start: edit.start,
        end: edit.end,
        count: edit.new.len(),
        new_place,
        new_end,
    })
}

/// The index so many children behind the last index of a path. No node has so many children that
/// there is none: it would be refused as `Memory`.
fn end_behind(place: &[usize], count: usize) -> Result<usize, Fault>
    ensures ok { IfOk result (λ end. (p : Path) (k : ℕ) → place.now ≡ p ++ k ∷ [] → end ≡ k + count) }
    ensures err { IfErr result (λ e. e ≡ Fault.Memory) }
{
    let Some(start) = place.last() else {
        return Err(Fault::Memory);
    };
    let Some(end) = start.checked_add(count) else {
        return Err(Fault::Memory);
    };
    Ok(end)
}

/// Where edits move what lies behind all of them. Refused only for want of memory.
fn moved_by_all(alloc: Global, edits: &[PlacedEdit], path: &[usize]) -> Result<Vec<usize>, Fault>
    requires placed { ArePlaced edits.now }
    requires before { AllByRecursion (EndsBefore path.now) (sites_in edits.now) }
    ensures ok { IfOk result (λ moved. moved.items ≡ moved_over (sites_in edits.now) path.now) }
    ensures err { IfErr result (λ e. e ≡ Fault.Memory) }
{
    let Some(last) = edits.len().checked_sub(1) else {
        return Ok(Vec::from_slice(alloc, path)?);
    };
    edits[last].carry(alloc, path)
}

impl PlacedEdit {
    /// Whether the edit ends before the element at a path.
    fn ends_before(&self, path: &[usize]) -> bool
        ensures { let s = site_in self.now in result ≡ lies_before s.parent s.end path.now }
    {
        let parent = self.parent.as_slice();
        let shared = shared_len(parent, path);
        let Some(index) = path.get(shared) else {
            return false;
        };
        match parent.get(shared) {
            Some(before) => *before < *index,
            None => self.end <= *index,
        }
    }

    /// Whether the edit takes away what stands at a path, or something around it.
    fn takes(&self, path: &[usize]) -> bool
        ensures { result ≡ is_taken_at path.now (site_in self.now) }
    {
        let parent = self.parent.as_slice();
        let shared = shared_len(parent, path);
        if shared < parent.len() {
            return false;
        }
        match path.get(shared) {
            Some(index) => self.start <= *index && *index < self.end,
            None => false,
        }
    }

    /// Where the edit and those before it move what lies behind it, as long as it is the last of
    /// them that lies before: the way that is the edit's own is the edit's own in the new tree; the
    /// next index moves with the edit, and the indexes behind it stay. Refused only for want of
    /// memory.
    fn carry(&self, alloc: Global, path: &[usize]) -> Result<Vec<usize>, Fault>
        requires before { EndsBefore path.now (site_in self.now) }
        requires len { length self.now.new_place.items ≡ length self.now.parent.items + 1 }
        ensures ok { let e = self.now in IfOk result (λ moved.
            moved.items ≡ carried e.parent.items e.end e.new_end e.new_place.items path.now) }
        ensures err { IfErr result (λ e. e ≡ Fault.Memory) }
    {
        let shared = shared_len(self.parent.as_slice(), path);
        let index = self.moved_index(path, shared)?;
        let own = self.new_place.as_slice().split_at(shared).0;
        let rest = path.split_at(shared + 1).1;
        let mut moved = Vec::with_capacity(alloc, path.len())?;
        moved.extend_from_slice(own)?;
        moved.push(index)?;
        moved.extend_from_slice(rest)?;
        Ok(moved)
    }

    /// The index in the new tree where a path parts from that of the edit. No node has so many
    /// children that there is none: it would be refused as `Memory`.
    fn moved_index(&self, path: &[usize], shared: usize) -> Result<usize, Fault>
        requires fork { Fork self.now.parent.items path.now shared }
        requires before { EndsBefore path.now (site_in self.now) }
        requires len { length self.now.new_place.items ≡ length self.now.parent.items + 1 }
        requires within { shared < length path.now }
        ensures ok { let e = self.now in IfOk result (λ index.
            carried e.parent.items e.end e.new_end e.new_place.items path.now
            ≡ take shared e.new_place.items ++ index ∷ drop (shared + 1) path.now) }
        ensures err { IfErr result (λ e. e ≡ Fault.Memory) }
    {
        let index = path[shared];
        let place = self.new_place.as_slice();
        let Some(before) = self.parent.as_slice().get(shared) else {
            return index_sum(index - self.end, self.new_end);
        };
        index_sum(index - *before, place[shared])
    }
}

/// The sum of two indexes. Refused as `Memory` where there is none.
fn index_sum(index: usize, more: usize) -> Result<usize, Fault>
    ensures ok { IfOk result (λ n. n ≡ index + more) }
    ensures err { IfErr result (λ e. e ≡ Fault.Memory) }
{
    match index.checked_add(more) {
        Some(sum) => Ok(sum),
        None => Err(Fault::Memory),
    }
}

/// How many indexes two paths share, up to where they part or one of them ends.
#[doc(hidden)]
pub fn shared_len(path: &[usize], other: &[usize]) -> usize
    ensures { Fork path.now other.now result }
{
    for (depth, index) in path.iter().enumerate() {
        let Some(there) = other.get(depth) else {
            return depth;
        };
        if *there != *index {
            return depth;
        }
    }
    path.len()
}
