//! Edits in the order of their places, as an editor keeps them.
ghost use Rattle.std.specs.Prelude.{◌≡◌, ◌<◌, ◌≤◌, ℕ, true, false, [], ◌∷◌, ◌++◌, length, IfOk, IfErr};
ghost use Rattle.std.specs.List.{AllByRecursion};
ghost use Rattle.rowan_changes.specs.Plan.{HasConflict};
ghost use Rattle.rowan_edit.specs.Ranked.{edit_in, edits_in, ends_first, IsRanked, IsNext, Cut};
ghost use Rattle.rowan_edit.specs.Ranked.{HasRoom, HasEditAt, HasNoEditAt};
ghost use Rattle.rowan_edit.specs.Ranked.{IsSpliceOf, AreSplicesOf};

use rowan_changes::edit::{Splice, lies_before};
use rowan_green::fault::Fault;
use rowan_green::green::GreenElement;
use rowan_green::text::TextRange;
use std::alloc::{AllocError, Global};
use std::collections::BTreeMap;
use std::ops::Range;

/// Where an edit stands among others: those that begin earlier come first, then those that end
/// earlier, and then those that were added earlier.
#[derive(PartialEq, Eq, PartialOrd, Ord, Drop)]
pub(crate) struct Rank {
    /// The path of the edit's node, and then the index where the edit begins.
    place: Vec<usize>,
    end: usize,
    /// How many edits were added before.
    count: usize,
}

/// What is kept of an edit beside its rank.
#[derive(Drop)]
pub(crate) struct Body {
    pub(crate) range: TextRange,
    pub(crate) new: Vec<GreenElement>,
}

/// Edits by their ranks.
pub(crate) type RankedEdits = BTreeMap<Rank, Body, Global>;

impl Rank {
    /// The rank of an edit of the children from one index to another of the node at a path.
    pub(crate) fn new(
        alloc: Global,
        parent: &[usize],
        children: Range<usize>,
        count: usize,
    ) -> Result<Rank, AllocError>
        ensures place { IfOk result (λ r. r.place.items ≡ parent.now ++ children.start ∷ []) }
        ensures end { IfOk result (λ r. r.end ≡ children.end) }
        ensures count { IfOk result (λ r. r.count ≡ count) }
    {
        let mut place = Vec::new(alloc);
        place.reserve_exact(parent.len() + 1)?;
        place.extend_from_slice(parent)?;
        place.push(children.start)?;
        Ok(Rank {
            place,
            end: children.end,
            count,
        })
    }

    /// Whether the edit ends before another one begins.
    fn ends_before(&self, next: &Rank) -> bool
        requires { 0 < length self.now.place.items }
        ensures { result ≡ ends_first self.now next.now }
    {
        let Some((_, parent)) = self.place.split_last() else {
            return false;
        };
        let Some((start, other)) = next.place.split_last() else {
            return false;
        };
        lies_before(parent, self.end, other, *start)
    }
}

/// Whether the edits in front of another one end before it. Only the last of them is asked, since
/// each of the others ends before that one.
fn is_behind(edits: &RankedEdits, rank: &Rank) -> bool
    requires { IsNext edits.now.entries rank.now }
    ensures cut { Cut edits.now.entries rank.now }
    ensures behind { result ≡ true → (c : Cut edits.now.entries rank.now)
        → AllByRecursion (λ e. ends_first e.0 rank.now ≡ true) c.front }
    ensures conflict { result ≡ false → (b : Body)
        → HasConflict (edits_in edits.now.entries) (edit_in (rank.now, b)) }
{
    match edits.range(..rank).next_back() {
        Some((last, _)) => last.ends_before(rank),
        None => true,
    }
}

/// Whether an edit ends before those behind it. Only the first of them is asked.
fn is_before(edits: &RankedEdits, rank: &Rank) -> bool
    requires { IsNext edits.now.entries rank.now }
    ensures before { result ≡ true → (c : Cut edits.now.entries rank.now)
        → AllByRecursion (λ e. ends_first rank.now e.0 ≡ true) c.behind }
    ensures conflict { result ≡ false → (b : Body)
        → HasConflict (edits_in edits.now.entries) (edit_in (rank.now, b)) }
{
    match edits.range(rank..).next() {
        Some((next, _)) => rank.ends_before(next),
        None => true,
    }
}

/// Whether one more edit conflicts with none of those that were added before.
pub(crate) fn has_room(edits: &RankedEdits, rank: &Rank) -> bool
    requires { IsNext edits.now.entries rank.now }
    ensures room { result ≡ true → HasRoom edits.now.entries rank.now }
    ensures conflict { result ≡ false → (b : Body)
        → HasConflict (edits_in edits.now.entries) (edit_in (rank.now, b)) }
{
    if !is_behind(edits, rank) {
        return false;
    }
    is_before(edits, rank)
}

/// Whether an edit begins at the place of a rank, which is the least of those at its place.
fn has_edit_at(edits: &RankedEdits, rank: &Rank) -> bool
    requires end { rank.now.end ≡ 0 }
    requires count { rank.now.count ≡ 0 }
    ensures some { result ≡ true → HasEditAt edits.now.entries rank.now.place.items }
    ensures none { result ≡ false → HasNoEditAt edits.now.entries rank.now.place.items }
{
    match edits.range(rank..).next() {
        Some((next, _)) => next.place == rank.place,
        None => false,
    }
}

/// Whether an edit begins at one of the children of the node at a path, of which there are so many,
/// or behind the last one.
pub(crate) fn has_edit_of(
    alloc: Global,
    edits: &RankedEdits,
    path: &[usize],
    count: usize,
) -> Result<bool, AllocError>
    ensures some { IfOk result (λ found. found ≡ true → (k : ℕ)
        × HasEditAt edits.now.entries (path.now ++ k ∷ [])) }
    ensures none { IfOk result (λ found. found ≡ false → (k : ℕ) → k ≤ count
        → HasNoEditAt edits.now.entries (path.now ++ k ∷ [])) }
{
    let mut rank = Rank::new(alloc, path, 0..0, 0)?;
    for index in 0..count {
        if has_edit_at(edits, &rank) {
            return Ok(true);
        }
        rank.place[path.len()] = index + 1;
    }
    Ok(has_edit_at(edits, &rank))
}

/// An edit out of its rank and the rest of it.
fn splice_of(rank: Rank, body: Body) -> Splice
    requires { 0 < length rank.place.items }
    ensures { IsSpliceOf (rank, body) result }
{
    let Rank {
        place,
        end,
        count: _,
    } = rank;
    let Body { range, new } = body;
    let mut parent = place;
    let start = parent.pop().unwrap();
    Splice {
        parent,
        start,
        end,
        range,
        new,
    }
}

/// The edits in a list, in the order of their places. Refused only for want of memory.
pub(crate) fn in_order(alloc: Global, edits: RankedEdits) -> Result<Vec<Splice>, Fault>
    requires { AllByRecursion IsRanked edits.entries }
    ensures ok { IfOk result (λ list. AreSplicesOf edits.entries list.items) }
    ensures err { IfErr result (λ e. e ≡ Fault.Memory) }
{
    let mut list = Vec::new(alloc);
    list.reserve_exact(edits.len())?;
    for (rank, body) in edits {
        list.push(splice_of(rank, body))?;
    }
    Ok(list)
}
