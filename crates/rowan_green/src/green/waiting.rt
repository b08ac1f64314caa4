//! What a builder has finished, while it waits for its node.
ghost use Rattle.std.specs.Prelude.{◌≡◌, ◌≤◌, [], ◌++◌, ◌∷◌, length, drop, map, IfOk, IfErr};
ghost use Rattle.std.specs.Prelude.{IfSome, IsNone, OnOk, OnErr};
ghost use Rattle.rowan_green.specs.Fits.{AreWithin, WhyNoNode};
ghost use Rattle.rowan_green.specs.Term.{node_of};
ghost use Rattle.rowan_green.specs.View.{child_term};
ghost use Rattle.rowan_green.specs.Waiting.{elements, numbers_of, HasRoom, IsSame, IsCutAt};

use crate::fault::Fault;
use crate::green::{ChildBlock, GreenChild, GreenElement, GreenNode, SyntaxKind};
use crate::text::TextSize;
use std::alloc::{AllocError, Global};

/// An element of a tree that is being built, with its number in the cache where the cache keeps it.
#[derive(Drop)]
pub struct Interned {
    pub number: Option<u32>,
    pub element: GreenElement,
}

// The number of elements for which there is room at first.
const FIRST_ROOM: usize = 4;

// The elements that wait for the node that will have them, and beside them their numbers in the
// cache. The elements lie as a node has them, in a block, so that they move into one as one run of
// memory; their offsets are not known yet. Before the first one comes there is no block, and no
// memory is taken.
#[derive(Drop)]
pub struct FinishedElements {
    pub alloc: Global,
    pub block: Option<ChildBlock>,
    pub numbers: Vec<Option<u32>>,
}

impl FinishedElements {
    pub fn new(alloc: Global) -> FinishedElements
        ensures elements { elements result ≡ [] }
        ensures numbers { numbers_of result ≡ [] }
    {
        FinishedElements {
            alloc,
            block: None,
            numbers: Vec::new(alloc),
        }
    }

    pub fn len(&self) -> usize
        ensures { result ≡ length (elements self.now) }
    {
        match &self.block {
            Some(block) => block.len(),
            None => 0,
        }
    }

    pub fn elements_from(&self, place: usize) -> &[GreenChild]
        requires { place ≤ length (elements self.now) }
        ensures { map child_term result.now ≡ drop place (elements self.now) }
    {
        match &self.block {
            Some(block) => block.as_slice().split_at(place).1,
            None => &[],
        }
    }

    pub fn numbers_from(&self, place: usize) -> &[Option<u32>]
        requires { place ≤ length (numbers_of self.now) }
        ensures { result.now ≡ drop place (numbers_of self.now) }
    {
        self.numbers.as_slice().split_at(place).1
    }

    // Makes room for one more.
    #[inline(always)]
    pub fn reserve(&mut self) -> Result<(), AllocError>
        ensures same { IsSame self.old self.new }
        ensures room { OnOk result (HasRoom self.new) }
    {
        match &mut self.block {
            Some(block) => block.reserve()?,
            None => self.block = Some(ChildBlock::with_capacity(self.alloc, FIRST_ROOM)?),
        }
        if self.numbers.len() < self.numbers.capacity() {
            return Ok(());
        }
        self.numbers.reserve(1)
    }

    // Inlined, so that what is pushed need not be in memory first.
    #[inline(always)]
    pub fn push(&mut self, interned: Interned)
        requires { HasRoom self.old }
        ensures elements { elements self.new ≡ elements self.old ++ interned.element ∷ [] }
        ensures numbers { numbers_of self.new ≡ numbers_of self.old ++ interned.number ∷ [] }
    {
        let Interned { number, element } = interned;
        let Some(block) = &mut self.block else {
            unreachable!()
        };
        block.push_reserved(GreenChild::new(TextSize::from(0), element));
        self.numbers.push_reserved(number);
    }

    // The node of a kind and the elements from a place on, which move into it. A refused call
    // leaves all as it was.
    pub fn make_node(&mut self, kind: SyntaxKind, first: usize) -> Result<GreenNode, Fault>
        requires first { first ≤ length (elements self.old) }
        requires room { HasRoom self.old }

        // The node, or why there is none.
        ensures ok { let ts = drop first (elements self.old) in
            IfOk result (λ n. n ≡ node_of kind.0 ts) }
        ensures within { OnOk result (AreWithin (drop first (elements self.old))) }
        ensures err { IfErr result (WhyNoNode (drop first (elements self.old))) }

        // What waits on.
        ensures rest { OnOk result (IsCutAt first self.old self.new) }
        ensures all { OnErr result (IsSame self.old self.new) }
    {
        let Some(block) = &mut self.block else {
            unreachable!()
        };
        let node = GreenNode::from_last(self.alloc, kind, block, first)?;
        self.numbers.truncate(first);
        Ok(node)
    }

    pub fn truncate(&mut self, place: usize)
        ensures { IsCutAt place self.old self.new }
    {
        self.numbers.truncate(place);
        let Some(block) = &mut self.block else {
            return;
        };
        block.truncate(place);
    }

    // The last element, which leaves without its number.
    pub fn pop(&mut self) -> Option<GreenChild>
        ensures some { IfSome result (λ child.
            elements self.old ≡ elements self.new ++ child_term child ∷ []) }
        ensures none { IsNone result → elements self.old ≡ [] }
    {
        match &mut self.block {
            Some(block) => block.pop(),
            None => None,
        }
    }
}
