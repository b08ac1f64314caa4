mod block;
mod compare;
mod display;
mod edits;
mod finished;
mod hash;

ghost use Rattle.std.specs.Prelude.{◌≡◌, ◌≢◌, ℕ, ◌+◌, ◌<◌, ◌≤◌, [], ◌∷◌, ◌++◌, length, IfOk, IfErr};
ghost use Rattle.std.specs.Prelude.{OnOk, IfSome, IsNone, Some, ◌↔◌, map, take, slice_get};
ghost use Rattle.std.specs.Iterator.{IsFiniteIterable};
ghost use Rattle.rowan_green.specs.Fits.{byte_limit, FitsNode, ChildPasses, AreWithin, AllFit};
ghost use Rattle.rowan_green.specs.Fits.{PassesLimit, IsMadeOf, WhyNoNode};
ghost use Rattle.rowan_green.specs.Runs.{IteratesAll, IteratesSome};
ghost use Rattle.rowan_green.specs.Term.{node_of, node_len, node_kind, node_children, node_size};
ghost use Rattle.rowan_green.specs.Term.{sum_of_lens};
ghost use Rattle.rowan_green.specs.Lent.{pointee};
ghost use Rattle.rowan_green.specs.Search.{IsChildAt, child_start, digits};
ghost use Rattle.rowan_green.specs.Steps.{Rises};

use crate::fault::Fault;
use crate::green::{
    Children, GreenElement, GreenElementRef, GreenToken, MAX_CHILDREN, Steps, SyntaxKind,
};
use crate::text::{TextRange, TextSize};
use crate::utility_types::NodeOrToken;
#[doc(hidden)]
pub use block::ChildBlock;
use rowan_thin_rc::{CountBox, HeaderSlice, ThinRc};
use std::alloc::{AllocError, Global};
use std::marker::Model;
use std::mem::size_of;

/// An inner part of a tree: a kind and a list of children. A clone shares them, and is an `Err`
/// where the node cannot be shared once more, since the count of its owners is full.
#[cycle(green)]
pub struct GreenNode {
    data: ThinRc<GreenNodeHead, GreenChild, Global>,
}

/// What stands before the children in a node's block, behind the count of its owners and the number
/// of the children.
#[derive(Clone, Copy)]
#[doc(hidden)]
pub struct GreenNodeHead {
    kind: SyntaxKind,
    text_len: TextSize,
}

/// A child, and where its text starts in that of its parent.
#[cycle(green)]
#[derive(Drop)]
#[doc(hidden)]
pub enum GreenChild {
    Node {
        rel_offset: TextSize,
        node: GreenNode,
    },
    Token {
        rel_offset: TextSize,
        token: GreenToken,
    },
}

/// How many words of eight bytes stand before the children in a node's block: the counts and the
/// head.
pub(crate) const FRONT_WORDS: usize = 2;

/// How many words a child is. A search reads the list of children, so each takes little room in it.
pub(crate) const CHILD_WORDS: usize = 2;

const _: () = prove!(size_of::<CountBox<HeaderSlice<GreenNodeHead, GreenChild, Global>>>() == 16);

const _: () = prove!(size_of::<GreenChild>() == 16);

// A node is one word.
const _: () = prove!(size_of::<GreenNode>() == 8);

impl GreenChild {
    ghost use Rattle.rowan_green.specs.View.{child_term, child_offset};

    pub fn new(rel_offset: TextSize, element: GreenElement) -> GreenChild
        ensures offset { child_offset result ≡ rel_offset }
        ensures term { child_term result ≡ element }
    {
        match element {
            NodeOrToken::Node(node) => GreenChild::Node { rel_offset, node },
            NodeOrToken::Token(token) => GreenChild::Token { rel_offset, token },
        }
    }

    pub(super) fn rel_offset(&self) -> TextSize
        ensures { result ≡ child_offset self.now }
    {
        match self {
            GreenChild::Node { rel_offset, .. } | GreenChild::Token { rel_offset, .. } => {
                *rel_offset
            }
        }
    }

    pub fn as_ref(&self) -> GreenElementRef<'_>
        ensures { pointee result ≡ child_term self.now }
    {
        match self {
            GreenChild::Node { node, .. } => NodeOrToken::Node(node),
            GreenChild::Token { token, .. } => NodeOrToken::Token(token),
        }
    }
}

impl Clone for GreenChild {
    ghost is_clone = { λ child copy. copy ≡ child };

    fn clone(&self) -> Result<GreenChild, AllocError> {
        match self {
            GreenChild::Node { rel_offset, node } => Ok(GreenChild::Node {
                rel_offset: *rel_offset,
                node: node.clone()?,
            }),
            GreenChild::Token { rel_offset, token } => Ok(GreenChild::Token {
                rel_offset: *rel_offset,
                token: token.clone()?,
            }),
        }
    }
}

/// The children of a node that is being made, within the limits so far.
#[derive(Drop)]
struct NodeDraft {
    text_len: TextSize,
    children: ChildBlock,
}

impl Model for NodeDraft {
    ghost use Rattle.std.specs.Prelude.{List, map};
    ghost use Rattle.rowan_green.specs.Term.{Term};
    ghost use Rattle.rowan_green.specs.Coding.{coded_term};
    ghost use Rattle.std.specs.Coded.{coded_list};

    ghost Value = { List Term };

    ghost coded = { coded_list coded_term };

    ghost use Rattle.rowan_green.specs.View.{child_term, AreSound};

    ghost view = { λ d. map child_term d.children.block.list.items };

    ghost invariant = { λ d. AreSound d.text_len d.children.block.list.items };
}

impl NodeDraft {
    fn new(children: ChildBlock) -> NodeDraft
        requires { children.block.list.items ≡ [] }
        ensures { result ≡ [] }
    {
        NodeDraft {
            text_len: TextSize::from(0),
            children,
        }
    }

    // Adds a child, or says which limit it passes. The number of children is looked at first.
    // Inlined into the loops that make a node, it need not keep the draft in memory.
    #[inline(always)]
    fn push(&mut self, element: GreenElement) -> Result<(), Fault>
        ensures ok { OnOk result (self.new ≡ self.old ++ element ∷ []) }
        ensures err { IfErr result (λ e. e ≢ Fault.Memory → ChildPasses self.old element e) }
        ensures within { AreWithin self.new }
        ensures within_before { AreWithin self.old }
    {
        if self.children.len() >= MAX_CHILDREN {
            return Err(Fault::TooManyChildren);
        }
        let rel_offset = self.text_len;
        let len = u32::from(element.text_len());
        let Some(text_len) = u32::from(rel_offset).checked_add(len) else {
            return Err(Fault::TextTooLong);
        };
        self.children.push(GreenChild::new(rel_offset, element))?;
        self.text_len = TextSize::from(text_len);
        Ok(())
    }

    fn finish(self, kind: SyntaxKind) -> Result<GreenNode, AllocError>
        ensures ok { IfOk result (λ n. n ≡ node_of kind.0 self) }
        ensures within { AreWithin self }
        ensures fit { AllFit self }
    {
        let NodeDraft { text_len, children } = self;
        let data = children.close(GreenNodeHead { kind, text_len })?;
        Ok(GreenNode { data })
    }
}

/// Rust's rowan has a type of its own for what a node refers to. Here it is the node.
pub type GreenNodeData = GreenNode;

impl Model for GreenNode {
    ghost use Rattle.rowan_green.specs.Term.{NodeTerm, node_size};
    ghost use Rattle.rowan_green.specs.Coding.{coded_node};

    ghost Value = { NodeTerm };

    ghost coded = { coded_node };

    ghost use Rattle.rowan_green.specs.View.{node_view, IsSound};

    ghost view = { λ n. node_view n.data.value };

    ghost invariant = { λ n. IsSound n.data };

    ghost size = { node_size };

    ghost use Rattle.rowan_green.specs.Falls.{deep_le-node_size};

    ghost size_decreases = { λ n h. deep_le-node_size n };
}

impl GreenNode {
    /// The node of a kind and the children that an iterator gives. The first child at which a limit
    /// is passed decides how it is refused: `TooManyChildren` past 4,294,967,295 children, else
    /// `TextTooLong` past as many bytes of text; and else it is refused only for want of memory.
    pub fn new<I: IntoIterator<Item = GreenElement>>(
        alloc: Global,
        kind: SyntaxKind,
        children: I,
    ) -> Result<GreenNode, Fault>
    where
        I::IntoIter: Drop,
        requires { IsFiniteIterable I.into_iter_gives I.IntoIter.can_next
            I.IntoIter.remaining children }
        ensures ok { IfOk result (λ n. IteratesAll I.into_iter_gives I.IntoIter.next_gives children
            (λ p. IsMadeOf kind.0 p.items n)) }
        ensures err { IfErr result (λ e. e ≢ Fault.Memory →
            IteratesSome I.into_iter_gives I.IntoIter.next_gives children
            (λ p. PassesLimit p.items e)) }
    {
        let children = children.into_iter();
        let room = children.size_hint().0.min(MAX_CHILDREN);
        let mut draft = NodeDraft::new(ChildBlock::with_capacity(alloc, room)?);
        for element in children {
            draft.push(element)?;
        }
        Ok(draft.finish(kind)?)
    }

    /// The kind of the node.
    pub fn kind(&self) -> SyntaxKind
        ensures kind { result.0 ≡ node_kind self.now }
        ensures fits { FitsNode self.now }
    {
        self.data.value().head.kind
    }

    /// The number of bytes of the node's text.
    pub fn text_len(&self) -> TextSize
        ensures len { result ≡ node_len self.now }
        ensures fits { FitsNode self.now }
    {
        self.data.value().head.text_len
    }

    /// The children, in their order. Takes no memory.
    pub fn children(&self) -> Children<'_>
        ensures list { result ≡ node_children self.now }
        ensures within { AreWithin (node_children self.now) }
        ensures fits { FitsNode self.now }
    {
        Children::new(self.child_slice())
    }

    /// The child at an index with its offset in bytes, which counts from the node's own start.
    /// `None` past the last child.
    pub fn child_ref(&self, index: usize) -> Option<(TextSize, GreenElementRef<'_>)>
        ensures some { IfSome result (λ p. (p.0 ≡ sum_of_lens (take index (node_children self.now)))
            × (slice_get (node_children self.now) index ≡ Some (pointee p.1))) }
        ensures none { IsNone result ↔ length (node_children self.now) ≤ index }
        ensures within { AreWithin (node_children self.now) }
    {
        let child = self.child_slice().get(index)?;
        Some((child.rel_offset(), child.as_ref()))
    }

    /// The child at a range, with its index and its offset, where all offsets count in bytes from
    /// the node's own start: the child that has all bytes of the range. An empty range is a place
    /// between bytes, and the child there is the one with bytes on both sides of it, else the last
    /// one that ends there, else the first one, if it begins there. `None` where there is no such
    /// child. Compares at most as many children as their number has binary digits, and counts these
    /// comparisons. Takes no memory.
    pub fn child_at_range(
        &self,
        range: TextRange,
        steps: &mut Steps,
    ) -> Option<(usize, TextSize, GreenElementRef<'_>)>
        // Which child it is: the one at the range, or none.
        ensures some { let ts = node_children self.now in
            IfSome result (λ p. IsChildAt ts range.start range.end p.0
            × (p.1 ≡ child_start ts p.0) × (slice_get ts p.0 ≡ Some (pointee p.2))) }
        ensures none { let ts = node_children self.now in
            IsNone result → (k : ℕ) → ¬ IsChildAt ts range.start range.end k }

        // What is counted.
        ensures most { let count = length (node_children self.now) in
            steps.new.comparisons ≤ steps.old.comparisons + digits count }
        ensures least { 0 < length (node_children self.now)
            → Rises steps.old.comparisons steps.new.comparisons }
        ensures grows { steps.old.comparisons ≤ steps.new.comparisons }
        ensures visits { steps.new.visits ≡ steps.old.visits }
    {
        let text_len = self.text_len();
        let children = self.child_slice();
        let index = GreenChild::search(children, text_len, range, steps);
        let child = children.get(index)?;
        if !GreenChild::rel_range(children, text_len, index).contains_range(range) {
            return None;
        }
        Some((index, child.rel_offset(), child.as_ref()))
    }
}

impl GreenNode {
    ghost use Rattle.rowan_green.specs.View.{child_term, AreSound};

    // The children as they lie in the node's block.
    fn child_slice(&self) -> &[GreenChild]
        ensures terms { map child_term result.now ≡ node_children self.now }
        ensures sound { AreSound (node_len self.now) result.now }
        ensures fits { FitsNode self.now }
    {
        HeaderSlice::items(&self.data, FRONT_WORDS, CHILD_WORDS)
    }

    fn allocator(&self) -> Global {
        self.data.value().alloc
    }
}

// Where the node has other owners, this is a step of their count and no call. Else its block is
// dropped, by a loop.
impl Drop for GreenNode {
    #[inline(always)]
    fn drop(self) {
        if let Some(block) = self.release() {
            drop(block);
        }
    }
}

impl GreenNode {
    ghost use Rattle.rowan_green.specs.Sizes.{children_size};

    // Gives this owner up. The last one gets the block of the children.
    #[inline(always)]
    fn release(self) -> Option<ChildBlock>
        ensures { IfSome result (λ b. children_size b.block.list.items < node_size self) }
    {
        let GreenNode { data } = self;
        let (_head, block) = HeaderSlice::release(data, FRONT_WORDS, CHILD_WORDS)?;
        Some(ChildBlock { block })
    }
}

impl Clone for GreenNode {
    ghost is_clone = { λ node copy. copy ≡ node };

    fn clone(&self) -> Result<GreenNode, AllocError> {
        match self.data.try_clone() {
            Some(data) => Ok(GreenNode { data }),
            None => Err(AllocError),
        }
    }
}

// How many levels of a tree are compared, hashed or written by recursion, which takes no memory:
// more than most trees have. What lies deeper goes by a list, so that a deep tree does not run out
// of stack.
const MAX_RECURSION: u32 = 128;
