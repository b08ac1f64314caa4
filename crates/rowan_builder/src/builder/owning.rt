//! The builder over a cache of its own: all that a builder does to its word.
ghost use Rattle.std.specs.Prelude.{◌≡◌, ◌<◌, [], ◌++◌, ◌∷◌, length, IfOk, IfErr, OnOk, OnErr};
ghost use Rattle.rowan_green.specs.declared.utility_types.NodeOrToken.TheVariants.{Node, Token};
ghost use Rattle.rowan_builder.specs.Builder.{new_builder, adds, opens, FinishesNode, WrapsAt};
ghost use Rattle.rowan_green.specs.Fits.{byte_limit};
ghost use Rattle.rowan_builder.specs.Weave.{place_of_innermost};
ghost use Rattle.rowan_green.specs.Word.{WhyNoToken, HasNoneOpen, WhyNotClosed, HasCount, IsPast};
ghost use Rattle.rowan_green.specs.Word.{IsBeforeOpening, WhyNotWrapped, IsFinished, WhyUnfinished};
ghost use Rattle.rowan_green.specs.Word.{word_text};
ghost use Rattle.rowan_green.specs.Term.{node_text};

use crate::builder::Checkpoint;
use crate::builder::loan::HoldsCache;
use crate::node_cache::NodeCache;
use rowan_green::fault::Fault;
use rowan_green::green::{FinishedElements, GreenChild, GreenNode, MAX_TEXT_LEN, SyntaxKind};
use rowan_green::utility_types::NodeOrToken;
use std::alloc::{AllocError, Global};
use std::marker::Model;

// Where a node was opened that is not finished: its kind, and the number of elements that were
// finished before it.
#[derive(Clone, Copy)]
struct Opening {
    kind: SyntaxKind,
    first_child: usize,
}

/// A builder that has its cache by value. `GreenNodeBuilder` makes its calls.
#[doc(hidden)]
#[derive(Drop)]
pub struct OwningBuilder {
    parents: Vec<Opening>,
    finished: FinishedElements,
    cache: NodeCache,
}

impl Model for OwningBuilder {
    ghost use Rattle.std.specs.Prelude.{length};
    ghost use Rattle.rowan_builder.specs.Builder.{BuilderValue};
    ghost use Rattle.rowan_builder.specs.BuilderCoding.{coded_builder};

    ghost Value = { BuilderValue };

    ghost coded = { coded_builder };

    ghost use Rattle.rowan_builder.specs.Cache.{AreNumbered};
    ghost use Rattle.rowan_green.specs.Waiting.{elements, numbers_of};
    ghost use Rattle.rowan_green.specs.Word.{spelled};
    ghost use Rattle.rowan_builder.specs.Weave.{weave, AreInOrder};

    ghost view = { λ b. record {
      word = spelled (weave 0 b.parents.items (elements b.finished));
      cache = b.cache;
    } };

    ghost invariant = { λ b. AreInOrder 0 b.parents.items (length (elements b.finished))
        × AreNumbered b.cache (elements b.finished) (numbers_of b.finished) };
}

impl HoldsCache for OwningBuilder {
    ghost content = { λ b. b.cache };

    fn give_back(self) -> NodeCache {
        self.cache
    }
}

impl OwningBuilder {
    pub(super) fn new(alloc: Global, cache: NodeCache) -> OwningBuilder
        ensures { result ≡ new_builder cache }
    {
        OwningBuilder {
            parents: Vec::new(alloc),
            finished: FinishedElements::new(alloc),
            cache,
        }
    }

    pub(super) fn token(&mut self, kind: SyntaxKind, text: &str) -> Result<(), Fault>
        ensures ok { OnOk result
            (self.new ≡ adds self.old (record { kind = kind.0; text = text.now })) }
        ensures err { IfErr result (WhyNoToken text.now) }
        ensures too_long { byte_limit < length text.now → result ≡ Err Fault.TextTooLong }
        ensures unchanged { OnErr result (self.new ≡ self.old) }
    {
        if text.len() > MAX_TEXT_LEN {
            return Err(Fault::TextTooLong);
        }
        self.finished.reserve()?;
        let token = self.cache.token(kind, text)?;
        self.finished.push(token);
        Ok(())
    }

    pub(super) fn start_node(&mut self, kind: SyntaxKind) -> Result<(), AllocError>
        ensures ok { OnOk result (self.new ≡ opens self.old kind.0) }
        ensures unchanged { OnErr result (self.new ≡ self.old) }
    {
        let first_child = self.finished.len();
        open(&mut self.parents, Opening { kind, first_child })?;
        Ok(())
    }

    pub(super) fn finish_node(&mut self) -> Result<(), Fault>
        ensures ok { OnOk result (FinishesNode self.old self.new) }
        ensures err { IfErr result (WhyNotClosed self.old.word) }
        ensures nothing_open { HasNoneOpen self.old.word → result ≡ Err Fault.NothingOpen }
        ensures unchanged { OnErr result (self.new ≡ self.old) }
    {
        let Some(open) = self.parents.last().copied() else {
            return Err(Fault::NothingOpen);
        };
        self.finished.reserve()?;
        let node = self
            .cache
            .node(open.kind, &mut self.finished, open.first_child)?;
        self.parents.pop();
        self.finished.push(node);
        Ok(())
    }

    pub(super) fn checkpoint(&self) -> Checkpoint
        ensures { HasCount self.now.word result }
    {
        Checkpoint {
            place: self.finished.len(),
        }
    }

    pub(super) fn start_node_at(
        &mut self,
        checkpoint: Checkpoint,
        kind: SyntaxKind,
    ) -> Result<(), Fault>
        // what it opens
        ensures ok { OnOk result (WrapsAt self.old checkpoint kind.0 self.new) }

        // a refusal
        ensures err { IfErr result (WhyNotWrapped self.old.word checkpoint) }
        ensures past { IsPast self.old.word checkpoint → result ≡ Err Fault.CheckpointPast }
        ensures before { IsBeforeOpening self.old.word checkpoint
            → result ≡ Err Fault.CheckpointBefore }
        ensures unchanged { OnErr result (self.new ≡ self.old) }
    {
        let place = checkpoint.place;
        if place > self.finished.len() {
            return Err(Fault::CheckpointPast);
        }
        if place < innermost_place(self.parents.as_slice()) {
            return Err(Fault::CheckpointBefore);
        }
        let node = Opening {
            kind,
            first_child: place,
        };
        open(&mut self.parents, node)?;
        Ok(())
    }

    pub(super) fn cache(&self) -> &NodeCache
        ensures { result.now ≡ self.now.cache }
    {
        &self.cache
    }

    // The finished tree, or why there is none.
    pub(super) fn tree(&self) -> Result<&GreenNode, Fault>
        ensures ok { IfOk result (λ tree. IsFinished self.now.word tree.now) }
        ensures err { IfErr result (WhyUnfinished self.now.word) }
    {
        if self.finished.len() != 1 {
            return Err(Fault::NotOneElement);
        }
        let elements = self.finished.elements_from(0);
        match elements[0].as_ref() {
            NodeOrToken::Node(node) => Ok(node),
            NodeOrToken::Token(_) => Err(Fault::NotANode),
        }
    }

    // The finished tree and the cache; or the builder, and why it has none.
    pub(super) fn finish(self) -> Result<(GreenNode, NodeCache), (OwningBuilder, Fault)>
        ensures ok { IfOk result (λ p. IsFinished self.word p.0 × (p.1 ≡ self.cache)) }
        ensures text { IfOk result (λ p. node_text p.0 ≡ word_text self.word) }
        ensures err { IfErr result (λ p. (p.0 ≡ self) × WhyUnfinished self.word p.1) }
    {
        if let Err(fault) = self.tree() {
            return Err((self, fault));
        }
        let OwningBuilder {
            parents: _,
            mut finished,
            cache,
        } = self;
        let Some(last) = finished.pop() else {
            unreachable!()
        };
        match last {
            GreenChild::Node { node, .. } => Ok((node, cache)),
            GreenChild::Token { .. } => unreachable!(),
        }
    }
}

// Opens a node inside those that are open. A tree has many nodes, so the list is asked for room
// where it has none, and is not where it has.
#[inline(always)]
fn open(parents: &mut Vec<Opening>, node: Opening) -> Result<(), AllocError>
    ensures items { OnOk result (parents.new.items ≡ parents.old.items ++ node ∷ []) }
    ensures unchanged { OnErr result (parents.new.items ≡ parents.old.items) }
{
    if parents.len() == parents.capacity() {
        parents.reserve(1)?;
    }
    parents.push_reserved(node);
    Ok(())
}

// The place of the innermost open node, or 0.
fn innermost_place(parents: &[Opening]) -> usize
    ensures { result ≡ place_of_innermost 0 parents.now }
{
    match parents.last() {
        Some(open) => open.first_child,
        None => 0,
    }
}
