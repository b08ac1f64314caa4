//! The block of a node that is being made, whose children go straight into the memory that the node
//! will have, and how a block is dropped.
ghost use base.Stored.{Gv};
ghost use Rattle.std.specs.Prelude.{◌≡◌, ◌<◌, ◌≤◌, [], ◌∷◌, ◌++◌, length, take, max, OnOk, OnErr};
ghost use Rattle.std.specs.Prelude.{IfOk, IfSome, IsNone, IsSome};
ghost use Rattle.std.specs.Vec.{vec_len, vec_capacity};
ghost use Rattle.rowan_green.specs.NodeBlock.{front_words, child_words};
ghost use Rattle.rowan_thin_rc.specs.Shape.{IsOpen, IsHeaded, head_of, items_of, room_of};

use super::{CHILD_WORDS, FRONT_WORDS, GreenChild, GreenNodeHead};
use crate::green::MAX_CHILDREN;
use rowan_thin_rc::{Open, ThinRc};
use std::alloc::{AllocError, AllocFailed, Global};
use std::mem::ManuallyDrop;

/// The children of a node that has no head yet, those that wait for their nodes, or those that the
/// last owner of a node left.
#[doc(hidden)]
pub struct ChildBlock {
    pub block: Open<GreenNodeHead, GreenChild, Global>,
    pub ghost shape: { IsOpen front_words child_words block },
}

// A loop over a list of the blocks that are still to be dropped, so that a deep tree does not run
// out of stack. The list has at most one block a level of the tree, and a block asks for no memory
// where no child node of its last owner has nodes of its own. It stands apart, so that a node's drop
// stays small where it is inlined.
impl Drop for ChildBlock {
    #[cycle(drop)]
    #[inline(never)]
    fn drop(self) {
        let mut rest = Vec::new(self.block.alloc);
        self.drop_into(&mut rest);
        while let Some(block) = rest.pop() {
            ManuallyDrop::into_inner(block).drop_into(&mut rest);
        }
    }
}

impl ChildBlock {
    ghost use Rattle.std.specs.Prelude.{◌+◌};
    ghost use Rattle.rowan_green.specs.Sizes.{children_size, kept_size};

    // Drops the block with its children, the last one first. Where that was the last owner of a node
    // with nodes of its own, these come first, and what is left of the block goes to the list.
    #[cycle(drop)]
    fn drop_into(self, rest: &mut Vec<ManuallyDrop<ChildBlock>>)
        ensures { kept_size rest.new.items
            ≤ kept_size rest.old.items + children_size self.block.list.items }
    {
        let mut block = self;
        while let Some(child) = block.pop() {
            match child {
                GreenChild::Node { node, .. } => {
                    if let Some(children) = node.release() {
                        if let Some(inner) = children.drop_tokens() {
                            block = block.wait_for(inner, rest);
                        }
                    }
                }
                GreenChild::Token { token, .. } => drop(token),
            }
        }
        block.free();
    }

    // Drops the tokens behind the last node, and the block itself where no child is a node.
    fn drop_tokens(self) -> Option<ChildBlock>
        ensures { IfSome result (λ b. children_size b.block.list.items
            ≤ children_size self.block.list.items) }
    {
        let mut block = self;
        while let Some(child) = block.pop() {
            match child {
                GreenChild::Token { token, .. } => drop(token),
                node => {
                    block.push_reserved(node);
                    return Some(block);
                }
            }
        }
        block.free();
        None
    }

    // Frees a block with no children in it.
    fn free(self)
        requires { self.block.list.items ≡ [] }
    {
        let ChildBlock { block } = self;
        block.free(FRONT_WORDS, CHILD_WORDS);
    }

    // Puts the block at the end of the list, unless only tokens are left in it, and answers the
    // block of one of its nodes, which is dropped before it. Where the memory for the list is
    // refused, that one is dropped at once.
    #[cycle(drop)]
    fn wait_for(self, inner: ChildBlock, rest: &mut Vec<ManuallyDrop<ChildBlock>>) -> ChildBlock
        ensures within { children_size result.block.list.items
            ≤ children_size self.block.list.items + children_size inner.block.list.items }
        ensures smaller { kept_size rest.new.items + children_size result.block.list.items
            ≤ kept_size rest.old.items + children_size self.block.list.items + 1
            + children_size inner.block.list.items }
    {
        let Some(left) = self.drop_tokens() else {
            return inner;
        };
        // What waits is dropped when its turn comes.
        let waiting = unsafe { ManuallyDrop::new_unchecked(left) };
        match rest.push(waiting) {
            Ok(()) => inner,
            Err(refused) => {
                let AllocFailed { value } = refused;
                drop(inner);
                ManuallyDrop::into_inner(value)
            }
        }
    }
}

impl ChildBlock {
    // No children yet, and room for so many, or for one where that is none.
    pub(crate) fn with_capacity(alloc: Global, room: usize) -> Result<ChildBlock, AllocError>
        ensures items { IfOk result (λ b. b.block.list.items ≡ []) }
        ensures room { IfOk result (λ b. vec_len b.block.list < vec_capacity b.block.list) }
    {
        match Open::with_capacity(alloc, room, FRONT_WORDS, CHILD_WORDS) {
            Some(block) => Ok(ChildBlock { block }),
            None => Err(AllocError),
        }
    }

    pub(crate) fn len(&self) -> usize
        ensures { result ≡ length self.now.block.list.items }
    {
        self.block.list.len()
    }

    pub(crate) fn as_slice(&self) -> &[GreenChild]
        ensures { result.now ≡ self.now.block.list.items }
    {
        self.block.list.as_slice()
    }

    // Makes room for one more child.
    #[inline(always)]
    pub(crate) fn reserve(&mut self) -> Result<(), AllocError>
        ensures items { self.new.block.list.items ≡ self.old.block.list.items }
        ensures room { let list = self.new.block.list in
            OnOk result (vec_len list < vec_capacity list) }
    {
        if self.block.list.len() < self.block.list.capacity() {
            return Ok(());
        }
        self.grow()
    }

    // Adds a child, for which there is room.
    #[inline(always)]
    pub(crate) fn push_reserved(&mut self, child: GreenChild)
        requires { vec_len self.old.block.list < vec_capacity self.old.block.list }
        ensures { self.new.block.list.items ≡ self.old.block.list.items ++ child ∷ [] }
    {
        self.block.list.push_reserved(child);
    }

    // The last child, which leaves.
    pub(crate) fn pop(&mut self) -> Option<GreenChild>
        ensures some { IfSome result (λ child.
            self.old.block.list.items ≡ self.new.block.list.items ++ child ∷ []) }
        ensures none { IsNone result → self.old.block.list.items ≡ [] }
        ensures empty { IsNone result → self.new.block.list.items ≡ [] }
        ensures room { IsSome result
            → vec_len self.new.block.list < vec_capacity self.new.block.list }
    {
        if self.block.list.len() == 0 {
            return None;
        }
        Some(self.block.list.take_last())
    }

    // Drops the children from a place on.
    pub(crate) fn truncate(&mut self, place: usize)
        ensures items { self.new.block.list.items ≡ take place self.old.block.list.items }
        ensures room { vec_len self.old.block.list < vec_capacity self.old.block.list
            → vec_len self.new.block.list < vec_capacity self.new.block.list }
    {
        while self.block.list.len() > place {
            drop(self.block.list.take_last());
        }
    }

    // Adds a child, or drops it where the memory for it is refused.
    #[inline(always)]
    pub(super) fn push(&mut self, child: GreenChild) -> Result<(), AllocError>
        ensures ok { let items = self.old.block.list.items in
            OnOk result (self.new.block.list.items ≡ items ++ child ∷ []) }
        ensures err { OnErr result (self.new.block.list.items ≡ self.old.block.list.items) }
    {
        self.reserve()?;
        self.push_reserved(child);
        Ok(())
    }

    // Makes room for as many children again. It stands apart, so that what `reserve` inlines stays
    // small.
    #[inline(never)]
    fn grow(&mut self) -> Result<(), AllocError>
        ensures items { self.new.block.list.items ≡ self.old.block.list.items }
        ensures room { let list = self.new.block.list in
            OnOk result (vec_len list < vec_capacity list) }
    {
        if self.len() >= MAX_CHILDREN {
            return Err(AllocError);
        }
        let room = self.len().max(2) * 2;
        self.block
            .resize(room.min(MAX_CHILDREN), FRONT_WORDS, CHILD_WORDS)
    }

    // The first owner of the block, with a head before the children. The block is made as large as
    // they are, and that may be refused.
    pub(super) fn close(
        mut self,
        head: GreenNodeHead,
    ) -> Result<ThinRc<GreenNodeHead, GreenChild, Global>, AllocError>
        ghost label: { Gv }
        ensures shape { IfOk result (IsHeaded front_words child_words) }
        ensures label { IfOk result (λ c. c.label ≡ label) }
        ensures parts { IfOk result (λ c. (head_of c ≡ head)
            × (items_of c ≡ self.block.list.items)) }
    {
        let room = self.len().max(1);
        if self.block.list.capacity() != room {
            self.block.resize(room, FRONT_WORDS, CHILD_WORDS)?;
        }
        let ChildBlock { block } = self;
        Ok(block.close(head, FRONT_WORDS, CHILD_WORDS))
    }
}
