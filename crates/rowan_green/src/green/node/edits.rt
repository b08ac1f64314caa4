//! Edits: nodes like another one but for some children. The children that stay are shared, and
//! nothing is copied of their text.
ghost use Rattle.std.specs.Prelude.{◌≡◌, ◌≢◌, ◌<◌, ◌≤◌, [], ◌++◌, length, take, drop, map, IfOk, IfErr};
ghost use Rattle.std.specs.Prelude.{OnOk};
ghost use Rattle.std.specs.Iterator.{IsFiniteIterable};
ghost use Rattle.rowan_green.specs.Edits.{replaced, inserted, removed, spliced, spliced_so_far};
ghost use Rattle.rowan_green.specs.Edits.{IsEditOf};
ghost use Rattle.rowan_green.specs.Fits.{FitsNode, AreWithin, PassesLimit, WhyNoNode};
ghost use Rattle.rowan_green.specs.Runs.{IteratesAll, IteratesSome};
ghost use Rattle.rowan_green.specs.Term.{node_children};

use super::block::ChildBlock;
use super::{GreenChild, GreenNode, NodeDraft};
use crate::fault::Fault;
use crate::green::{GreenElement, MAX_CHILDREN};
use std::alloc::AllocError;
use std::ops::Range;

impl NodeDraft {
    ghost use Rattle.rowan_green.specs.View.{child_term};

    // Adds children that stay where they are, too.
    pub(super) fn push_shared(&mut self, children: &[GreenChild]) -> Result<(), Fault>
        ensures ok { OnOk result (self.new ≡ self.old ++ map child_term children.now) }
        ensures err { IfErr result (WhyNoNode (self.old ++ map child_term children.now)) }
    {
        for child in children {
            self.push(child.as_ref().to_owned()?)?;
        }
        Ok(())
    }
}

impl GreenNode {
    /// The node with another child in place of the one at an index. Past the last child it is an
    /// equal node, and the new child is dropped. Refused with `TextTooLong` where its text would
    /// have more than 4,294,967,295 bytes, and else only for want of memory.
    pub fn replace_child(&self, index: usize, new_child: GreenElement) -> Result<GreenNode, Fault>
        ensures ok { IfOk result (IsEditOf self.now (λ ts. replaced ts index new_child)) }
        ensures fits { IfOk result FitsNode }
        ensures err { IfErr result (WhyNoNode (replaced (node_children self.now) index new_child)) }
        ensures text { IfErr result (λ e. e ≢ Fault.Memory → e ≡ Fault.TextTooLong) }
    {
        if index >= self.child_count() {
            return Ok(self.clone()?);
        }
        let mut draft = self.draft_before(index, self.child_count())?;
        draft.push(new_child)?;
        self.finish_after(draft, index + 1)
    }

    /// The node with one more child, before the one at an index or at the end. It is refused as
    /// `GreenNode::new` is.
    pub fn insert_child(&self, index: usize, new_child: GreenElement) -> Result<GreenNode, Fault>
        requires { index ≤ length (node_children self.now) }
        ensures ok { IfOk result (IsEditOf self.now (λ ts. inserted ts index new_child)) }
        ensures err { IfErr result (WhyNoNode (inserted (node_children self.now) index new_child)) }
    {
        // A block cannot have more room, and `push` says what is wrong with a child too many.
        let room = (self.child_count() + 1).min(MAX_CHILDREN);
        let mut draft = self.draft_before(index, room)?;
        draft.push(new_child)?;
        self.finish_after(draft, index)
    }

    /// The node without the child at an index. It is refused only for want of memory.
    pub fn remove_child(&self, index: usize) -> Result<GreenNode, Fault>
        requires { index < length (node_children self.now) }
        ensures ok { IfOk result (IsEditOf self.now (λ ts. removed ts index)) }
        ensures within { AreWithin (removed (node_children self.now) index) }
        ensures err { IfErr result (λ e. e ≡ Fault.Memory) }
    {
        let draft = self.draft_before(index, self.child_count() - 1)?;
        self.finish_after(draft, index + 1)
    }

    /// The node with the children that an iterator gives in place of those of a range. The first
    /// child at which a limit is passed decides how it is refused, as for `GreenNode::new`; the
    /// children behind the range count once the iterator has ended.
    pub fn splice_children<I: IntoIterator<Item = GreenElement>>(
        &self,
        range: Range<usize>,
        replace_with: I,
    ) -> Result<GreenNode, Fault>
    where
        I::IntoIter: Drop,
        requires in_order { range.start ≤ range.end }
        requires in_range { range.end ≤ length (node_children self.now) }
        requires ends { IsFiniteIterable I.into_iter_gives I.IntoIter.can_next
            I.IntoIter.remaining replace_with }

        // The node is that of all items, or else the items that were taken pass a limit.
        ensures ok { IfOk result (λ n.
            IteratesAll I.into_iter_gives I.IntoIter.next_gives replace_with
            (λ p. IsEditOf self.now (λ ts. spliced ts range.start range.end p.items) n)) }
        ensures err { let ts = node_children self.now in IfErr result (λ e. e ≢ Fault.Memory →
            IteratesSome I.into_iter_gives I.IntoIter.next_gives replace_with
            (λ p. PassesLimit (spliced_so_far ts range.start range.end p.items p.whole) e)) }
    {
        let new_children = replace_with.into_iter();
        let kept = self.child_count() - (range.end - range.start);
        let block = self.block_for(kept, new_children.size_hint())?;
        let mut draft = self.draft_in(block, range.start)?;
        for element in new_children {
            draft.push(element)?;
        }
        self.finish_after(draft, range.end)
    }

    fn child_count(&self) -> usize
        ensures count { result ≡ length (node_children self.now) }
        ensures within { AreWithin (node_children self.now) }
        ensures fits { FitsNode self.now }
    {
        self.child_slice().len()
    }

    // A block with room for the children that stay, and for the new ones if the size hint of their
    // iterator is exact: at most the room that growing once would give. If that allocation fails,
    // the block has room for the children that stay. Where an iterator gives fewer children than an
    // exact hint says, `close` allocates once more.
    fn block_for(&self, kept: usize, new: (usize, Option<usize>)) -> Result<ChildBlock, AllocError>
        ensures { IfOk result (λ b. b.block.list.items ≡ []) }
    {
        let new = match new {
            (least, Some(most)) if least == most => most.min(kept),
            _ => 0,
        };
        let room = kept.saturating_add(new).min(MAX_CHILDREN);
        if kept < room {
            if let Ok(block) = ChildBlock::with_capacity(self.allocator(), room) {
                return Ok(block);
            }
        }
        ChildBlock::with_capacity(self.allocator(), kept)
    }

    // A draft of the children before an index, with room for this many children.
    fn draft_before(&self, index: usize, room: usize) -> Result<NodeDraft, AllocError>
        requires { index ≤ length (node_children self.now) }
        ensures { IfOk result (λ d. d ≡ take index (node_children self.now)) }
    {
        self.draft_in(ChildBlock::with_capacity(self.allocator(), room)?, index)
    }

    // A draft of the children before an index, in a block that has none yet.
    fn draft_in(&self, mut children: ChildBlock, index: usize) -> Result<NodeDraft, AllocError>
        requires empty { children.block.list.items ≡ [] }
        requires index { index ≤ length (node_children self.now) }
        ensures { IfOk result (λ d. d ≡ take index (node_children self.now)) }
    {
        let shared = self.child_slice();
        for child in shared.split_at(index).0 {
            children.push(child.clone()?)?;
        }
        let text_len = match shared.get(index) {
            Some(next) => next.rel_offset(),
            None => self.text_len(),
        };
        Ok(NodeDraft { text_len, children })
    }

    // The node of a draft and the children from an index on.
    fn finish_after(&self, mut draft: NodeDraft, index: usize) -> Result<GreenNode, Fault>
        requires { index ≤ length (node_children self.now) }
        ensures ok { IfOk result (IsEditOf self.now (λ ts. draft ++ drop index ts)) }
        ensures fits { IfOk result FitsNode }
        ensures err { IfErr result (WhyNoNode (draft ++ drop index (node_children self.now))) }
    {
        let (_, behind) = self.child_slice().split_at(index);
        draft.push_shared(behind)?;
        Ok(draft.finish(self.kind())?)
    }
}
