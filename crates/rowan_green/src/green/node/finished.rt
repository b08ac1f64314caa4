//! Nodes over the elements that a builder has finished.
ghost use Rattle.std.specs.Prelude.{◌≡◌, ◌<◌, ◌≤◌, length, map, take, drop, IfOk, IfErr, OnOk};
ghost use Rattle.std.specs.Prelude.{OnErr, vec_len};
ghost use Rattle.rowan_green.specs.Fits.{AreWithin, PassesLimit, WhyNoNode};
ghost use Rattle.rowan_green.specs.Term.{node_of};
ghost use Rattle.rowan_green.specs.View.{child_term, child_offset, AreSound};
ghost use Rattle.rowan_green.specs.Waiting.{HasSpare};
ghost use Rattle.rowan_thin_rc.specs.Shape.{IsInPlace};

use crate::fault::Fault;
use crate::green::node::block::ChildBlock;
use crate::green::node::{
    CHILD_WORDS, FRONT_WORDS, GreenChild, GreenNode, GreenNodeHead, NodeDraft,
};
use crate::green::{MAX_CHILDREN, SyntaxKind};
use crate::text::TextSize;
use rowan_thin_rc::HeaderSlice;
use std::alloc::Global;
use std_alloc::vec::Lodged;

impl GreenNode {
    // The node of a kind and these elements, which stay with the caller too.
    #[doc(hidden)]
    pub fn from_shared(
        alloc: Global,
        kind: SyntaxKind,
        elements: &[GreenChild],
    ) -> Result<GreenNode, Fault>
        ensures ok { IfOk result (λ n. n ≡ node_of kind.0 (map child_term elements.now)) }
        ensures within { OnOk result (AreWithin (map child_term elements.now)) }
        ensures err { IfErr result (WhyNoNode (map child_term elements.now)) }
    {
        let mut draft = NodeDraft::new(ChildBlock::with_capacity(alloc, elements.len())?);
        draft.push_shared(elements)?;
        Ok(draft.finish(kind)?)
    }

    // The node of a kind and the elements in a block from a place on, which move into it as one run
    // of memory. A refused call leaves them in the block.
    pub(crate) fn from_last(
        alloc: Global,
        kind: SyntaxKind,
        elements: &mut ChildBlock,
        first: usize,
    ) -> Result<GreenNode, Fault>
        requires { first ≤ length elements.old.block.list.items }

        // The node, or why there is none.
        ensures ok { let ts = map child_term elements.old.block.list.items in
            IfOk result (λ n. n ≡ node_of kind.0 (drop first ts)) }
        ensures within { let ts = map child_term elements.old.block.list.items in
            OnOk result (AreWithin (drop first ts)) }
        ensures err { let ts = map child_term elements.old.block.list.items in
            IfErr result (WhyNoNode (drop first ts)) }

        // What is left in the block.
        ensures rest { let terms = map child_term in
            OnOk result (terms elements.new.block.list.items
            ≡ take first (terms elements.old.block.list.items)) }
        ensures unchanged { let terms = map child_term in OnErr result
            (terms elements.new.block.list.items ≡ terms elements.old.block.list.items) }
        ensures room { HasSpare elements.old → HasSpare elements.new }
    {
        let text_len = GreenChild::place(&mut elements.block.list, first)?;
        let head = GreenNodeHead { kind, text_len };
        let list = &mut elements.block.list;
        match HeaderSlice::from_last(alloc, head, list, first, FRONT_WORDS, CHILD_WORDS) {
            Ok(data) => Ok(GreenNode { data }),
            Err(_head) => Err(Fault::Memory),
        }
    }
}

impl GreenChild {
    // Gives each child of a list from a place on its offset, and says how long their text is, or
    // which limit they pass.
    fn place(children: &mut Vec<GreenChild, Lodged>, first: usize) -> Result<TextSize, Fault>
        requires { first ≤ length children.old.items }
        ensures ok { IfOk result (λ len. AreSound len (drop first children.new.items)) }
        ensures err { IfErr result (PassesLimit (drop first (map child_term children.old.items))) }
        ensures same { map child_term children.new.items ≡ map child_term children.old.items }
        ensures len { vec_len children.new ≡ vec_len children.old }
        ensures in_place { IsInPlace children.old children.new }
    {
        let mut text_len = TextSize::from(0);
        for index in first..children.len() {
            let len = u32::from(children[index].as_ref().text_len());
            if index - first >= MAX_CHILDREN {
                return Err(Fault::TooManyChildren);
            }
            let Some(end) = u32::from(text_len).checked_add(len) else {
                return Err(Fault::TextTooLong);
            };
            children[index].set_rel_offset(text_len);
            text_len = TextSize::from(end);
        }
        Ok(text_len)
    }

    fn set_rel_offset(&mut self, offset: TextSize)
        ensures offset { child_offset self.new ≡ offset }
        ensures term { child_term self.new ≡ child_term self.old }
    {
        match self {
            GreenChild::Node { rel_offset, .. } => *rel_offset = offset,
            GreenChild::Token { rel_offset, .. } => *rel_offset = offset,
        }
    }
}
