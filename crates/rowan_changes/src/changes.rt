//! The changes that edits make to a text, and where ranges of the old text lie in the new one.
ghost use Rattle.std.specs.Prelude.{◌≡◌, ◌+◌, ◌-◌, ◌≤◌, ◌<◌, true, false, length, take, drop};
ghost use Rattle.std.specs.Prelude.{IfOk, IfErr, IfSome, IsNone};
ghost use Rattle.std.specs.List.{AllByRecursion, list_any};
ghost use Rattle.std.specs.Option.{option_map};
ghost use Rattle.rowan_green.specs.Fits.{byte_limit};
ghost use Rattle.rowan_green.specs.Term.{sum_of_lens};
ghost use Rattle.rowan_changes.specs.Changes.{old_bytes, new_bytes, overlaps, moved_through};
ghost use Rattle.rowan_changes.specs.Changes.{within_limit};
ghost use Rattle.rowan_changes.specs.ChangesKept.{Follow, last_end, AreEnds, IsFront, behind_front};

use crate::edit_sites::EditSites;
use rowan::ast::SyntaxNodePtr;
use rowan::{Language, TextRange, TextSize};
use rowan_green::fault::Fault;
use rowan_green::green::GreenNode;
use std::alloc::Global;
use std::marker::Model;

/// An edited tree, and what the edits changed in its text.
#[derive(Drop)]
pub struct Edited {
    /// The root of the new tree.
    pub green: GreenNode,
    /// One change for each edit, in the order of the text.
    pub changes: Changes,
    /// The tree as it was, and where the edits were made.
    pub sites: EditSites,
}

/// One change of a text.
#[derive(Clone, Copy, PartialEq, Eq, Debug)]
pub struct Change {
    /// The range of the old text that gave way, in bytes. It is empty where text was put between
    /// two bytes.
    pub range: TextRange,
    /// How many bytes stand there in the new text.
    pub new_len: TextSize,
}

/// The changes of an edited text, in order: each ends before the next one starts, or where it
/// starts. `ends` says where the text of each ends in the new text.
#[derive(Drop)]
pub struct Changes {
    list: Vec<Change>,
    ends: Vec<TextSize>,
}

impl Model for Changes {
    ghost use Rattle.std.specs.Prelude.{List};
    ghost use Rattle.rowan_changes.specs.declared.changes.Change.{Change};
    ghost use Rattle.rowan_changes.specs.ChangesCode.{coded_changes};

    ghost Value = { List Change };

    ghost coded = { coded_changes };

    ghost use Rattle.rowan_changes.specs.ChangesKept.{AreKept};

    ghost view = { λ c. c.list.items };

    ghost invariant = { λ c. AreKept c.list.items c.ends.items };
}

impl Changes {
    /// The changes in a list, which stand in order. Refused only for want of memory.
    #[doc(hidden)]
    pub fn new(alloc: Global, list: Vec<Change>) -> Result<Changes, Fault>
        requires follow { Follow 0 list.items }
        requires fits { last_end 0 list.items + new_bytes list.items
            ≤ byte_limit + old_bytes list.items }
        ensures ok { IfOk result (λ c. c ≡ list.items) }
        ensures err { IfErr result (λ e. e ≡ Fault.Memory) }
    {
        let ends = ends_of(alloc, &list)?;
        Ok(Changes { list, ends })
    }

    /// The changes as a list, in the order of the text.
    pub fn as_slice(&self) -> &[Change]
        ensures { result.now ≡ self.now }
    {
        self.list.as_slice()
    }

    /// Where a range of the old text lies in the new one: moved by as many bytes as the changes
    /// ahead of it make the text longer or shorter. `None` where it overlaps a change, which may be
    /// text that was put between its first byte and its last one, and where it would end past
    /// 4,294,967,295 bytes.
    ///
    /// A range that only touches a change does not overlap it. An empty range stays before text
    /// that was put at its place, as a pointer does by `after_edit`; inside of a range that gave
    /// way it is nowhere.
    pub fn moved(&self, range: TextRange) -> Option<TextRange>
        ensures { result ≡ moved_through self.now range }
    {
        match self.front_of(range) {
            Some(front) => range_behind(front, range),
            None => None,
        }
    }

    /// The pointer with its range moved as `moved` does. `None` where that is.
    ///
    /// It goes by ranges alone: a node inside of which an edit was made has another range, and at
    /// the range to which this moves another node may be found, or none. `Edited::moved_pointer`
    /// answers a pointer of the node itself.
    pub fn moved_pointer<L: Language>(&self, pointer: SyntaxNodePtr<L>) -> Option<SyntaxNodePtr<L>>
        ensures { result ≡ option_map (λ range. record { kind = pointer.kind; range = range })
            (moved_through self.now pointer.range) }
    {
        match self.front_of(pointer.text_range()) {
            Some(front) => pointer.after_edit(front.range, front.new_len),
            None => None,
        }
    }

    /// The changes ahead of a range as one, which begins with the text and ends with the last of
    /// them. `None` where a change overlaps the range.
    fn front_of(&self, range: TextRange) -> Option<Change>
        ensures some { IfSome result (IsFront self.now range) }
        ensures none { IsNone result → list_any (overlaps range) self.now ≡ true }
    {
        let zero = TextSize::from(0);
        let count = count_before(&self.list, range.end());
        let Some(index) = count.checked_sub(1) else {
            return Some(Change {
                range: TextRange::new(zero, zero),
                new_len: zero,
            });
        };
        let end = self.list[index].range.end();
        if range.start() < end {
            return None;
        }
        Some(Change {
            range: TextRange::new(zero, end),
            new_len: self.ends[index],
        })
    }
}

/// Where a range behind a change with which the text begins lies in the new text, if that is within
/// the limit.
fn range_behind(front: Change, range: TextRange) -> Option<TextRange>
    requires { front.range.end ≤ range.start }
    ensures { result ≡ within_limit (behind_front front range) }
{
    let gap = range.start().checked_sub(front.range.end())?;
    let start = front.new_len.checked_add(gap)?;
    let end = start.checked_add(range.len())?;
    Some(TextRange::new(start, end))
}

/// How many changes start before an offset, which they are asked by halves.
fn count_before(list: &[Change], offset: TextSize) -> usize
    requires { Follow 0 list.now }
    ensures within { result ≤ length list.now }
    ensures before { AllByRecursion (λ c. c.range.start < offset) (take result list.now) }
    ensures behind { AllByRecursion (λ c. offset ≤ c.range.start) (drop result list.now) }
{
    list.partition_point(|change| change.range.start() < offset)
}

/// Where the text of each change ends in the new text.
fn ends_of(alloc: Global, list: &[Change]) -> Result<Vec<TextSize>, Fault>
    requires follow { Follow 0 list.now }
    requires fits { last_end 0 list.now + new_bytes list.now ≤ byte_limit + old_bytes list.now }
    ensures ok { IfOk result (λ ends. AreEnds 0 0 list.now ends.items) }
    ensures err { IfErr result (λ e. e ≡ Fault.Memory) }
{
    let zero = TextSize::from(0);
    let mut ends = Vec::new(alloc);
    let mut old_end = zero;
    let mut new_end = zero;
    for change in list {
        new_end = end_behind(*change, old_end, new_end);
        ends.push(new_end)?;
        old_end = change.range.end();
    }
    Ok(ends)
}

/// Where the text of a change ends in the new text, if that of the change before it ends at
/// `new_end`, and that one's range at `old_end`.
fn end_behind(change: Change, old_end: TextSize, new_end: TextSize) -> TextSize
    requires before { old_end ≤ change.range.start }
    requires fits { new_end + (change.range.start - old_end) + change.new_len ≤ byte_limit }
    ensures { result ≡ new_end + (change.range.start - old_end) + change.new_len }
{
    let gap = u32::from(change.range.start()) - u32::from(old_end);
    let start = u32::from(new_end) + gap;
    TextSize::from(start + u32::from(change.new_len))
}
