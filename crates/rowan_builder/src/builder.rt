//! The builder of green trees: calls in the order of the text, as brackets round tokens.
mod loan;
mod owning;

ghost use Rattle.std.specs.Prelude.{◌≡◌, ◌<◌, [], ◌++◌, length, IfOk, IfErr, OnOk, OnErr};
ghost use Rattle.std.specs.Borrow.{sem};
ghost use Rattle.std.specs.Fn.{FnOnceReturnsAtMut};
ghost use Rattle.rowan_builder.specs.Builder.{new_builder, adds, opens, FinishesNode, WrapsAt};
ghost use Rattle.rowan_builder.specs.Cache.{empty_cache, first_seen};
ghost use Rattle.rowan_green.specs.Fits.{byte_limit};
ghost use Rattle.rowan_green.specs.Term.{node_text};
ghost use Rattle.rowan_builder.specs.Loan.{value_of, word_of, cache_of, text_so_far, if_accepted};
ghost use Rattle.rowan_builder.specs.Loan.{loan_of, unfinished_value, fault_of, unfinished_loan};
ghost use Rattle.rowan_builder.specs.Loan.{LeavesCacheUnlessRefused, KeepsLoan, LeavesCacheOfRun};
ghost use Rattle.rowan_builder.specs.Stream.{BuildsOn};
ghost use Rattle.rowan_green.specs.Word.{WhyNoToken, HasNoneOpen, WhyNotClosed, HasCount, IsPast};
ghost use Rattle.rowan_green.specs.Word.{IsBeforeOpening, WhyNotWrapped, IsFinished, WhyUnfinished};

use crate::node_cache::NodeCache;
#[doc(hidden)]
pub use loan::{HoldsCache, NoHome};
pub use loan::{CacheHome, OwnedCache};
#[doc(hidden)]
pub use owning::OwningBuilder;
use rowan_green::fault::Fault;
use rowan_green::green::{GreenNode, SyntaxKind};
use std::alloc::Global;
use std::marker::Model;

/// A place in what a builder has: the number of elements, tokens or finished nodes, that stand
/// before it, outside of open nodes or in any of them.
///
/// A checkpoint means its number alone: an old one, or one of another builder, is accepted wherever
/// its number is allowed.
#[derive(Clone, Copy, PartialEq, Eq, Debug)]
pub struct Checkpoint {
    place: usize,
}

impl Model for Checkpoint {
    ghost use Rattle.std.specs.Prelude.{ℕ};

    ghost Value = { ℕ };

    ghost view = { λ c. c.place };

    ghost inverse = { λ n. record { place = n } };
}

/// Builds a green tree from calls in the order of the text: `start_node` opens a node, `token` adds
/// a leaf and
/// `finish_node` closes the innermost open node over all that was added since.
///
/// ```rust
/// const NAME: SyntaxKind = SyntaxKind(0);
/// const CALL: SyntaxKind = SyntaxKind(1);
///
/// fn call(alloc: Global) -> Result<GreenNode, Fault> {
///     let mut builder = GreenNodeBuilder::new(alloc);
///     builder.start_node(CALL)?;
///     builder.token(NAME, "print")?;
///     builder.token(NAME, "()")?;
///     builder.finish_node()?;
///     Ok(builder.finish()?)
/// }
/// ```
///
/// A builder has a cache: of its own, with `new`, or one that is lent, with `with_cache`. The type
/// `GreenNodeBuilder<'_>` is the one with a lent cache; one with its own cache is a
/// `GreenNodeBuilder<'_, OwnedCache>`. While a cache is lent the builder has what is in it, and the
/// drop of the builder, or `finish`, gives it back.
///
/// At most 4,294,967,295 finished elements wait for the nodes that will have them; a call that
/// would add one more answers `Memory`.
///
/// A contract sees a builder as its word, which is the accepted calls as openings, leaves and
/// closings, and the value of its cache. A refused call leaves both as they were. The text so far
/// is that of the accepted tokens, in bytes of UTF-8: the clause
/// `text` of each call says what becomes of it, and the finished tree has this text.
pub struct GreenNodeBuilder<'cache, H: CacheHome = NodeCache, B: HoldsCache = OwningBuilder> {
    home: &'cache mut H,
    inner: B,
}

impl<H: CacheHome, B: HoldsCache> Drop for GreenNodeBuilder<'_, H, B> {
    fn drop(self)
        ensures { H.receives self.exit.0.now (B.content self.entry.inner) }
    {
        let GreenNodeBuilder { home, inner } = self;
        home.leave(inner.give_back());
    }
}

impl<'cache> GreenNodeBuilder<'cache, OwnedCache> {
    /// A builder with nothing in it, and with a cache of its own, which keeps nodes of at most 3
    /// children. Takes no memory.
    pub fn new(alloc: Global) -> GreenNodeBuilder<'cache, OwnedCache>
        ensures empty { value_of result ≡ new_builder (empty_cache 3) }
        ensures text { text_so_far result ≡ [] }
    {
        // A reference that outlives the call may point to a slice of no elements, but to no other
        // value of no bytes: so the empty array is taken from an empty slice.
        let nowhere: &'cache mut [NoHome] = &mut [];
        let Some(home) = nowhere.first_chunk_mut::<0>() else {
            unreachable!()
        };
        GreenNodeBuilder {
            home,
            inner: OwningBuilder::new(alloc, NodeCache::new(alloc)),
        }
    }

    /// Gives the finished tree: the one element that stands outside of all open nodes or in any of
    /// them, which has to be a node. Nodes that were never closed are left out. Takes no memory.
    ///
    /// An `Err` with `NotOneElement` where there is no element or more than one, and with
    /// `NotANode` where the one is a token. It has the builder, with the same word and the same
    /// cache; `?` makes its `Fault` of it.
    pub fn finish(self) -> Result<GreenNode, Unfinished<'cache, OwnedCache>>
        ensures ok { IfOk result (IsFinished (word_of self.entry)) }
        ensures text { IfOk result (λ tree. node_text tree ≡ text_so_far self.entry) }
        ensures err { IfErr result (λ u. WhyUnfinished (word_of self.entry) (fault_of u)) }
        ensures unchanged { IfErr result (λ u. unfinished_value u ≡ value_of self.entry) }
    {
        let GreenNodeBuilder { home, inner } = self;
        match inner.finish() {
            Ok((node, _)) => Ok(node),
            Err((inner, fault)) => Err(Unfinished { home, inner, fault }),
        }
    }
}

impl<'cache> GreenNodeBuilder<'cache> {
    /// A builder with nothing in it, over a cache that is lent to it and has what is interned.
    /// Takes no memory.
    ///
    /// The builder takes what the cache keeps, and gives it back, with what it adds, when it is
    /// finished or dropped. A builder that is forgotten, by `mem::forget`, gives nothing back: the
    /// lent cache then keeps nothing, and has the limit that it had.
    pub fn with_cache(alloc: Global, cache: &'cache mut NodeCache) -> GreenNodeBuilder<'cache>
        ensures loan { loan_of result ≡ cache.entry.ghost_name }
        ensures empty { value_of result ≡ new_builder cache.old }
        ensures text { text_so_far result ≡ [] }
        ensures first { first_seen cache.old.limit cache.old.seen ≡ cache.old.seen }
    {
        let kept = cache.take();
        GreenNodeBuilder {
            home: cache,
            inner: OwningBuilder::new(alloc, kept),
        }
    }

    /// Gives the finished tree, and the cache back to where it was lent: the one element that
    /// stands outside of all open nodes or in any of them, which has to be a node. Nodes that were
    /// never closed are left out. Takes no memory.
    ///
    /// An `Err` with `NotOneElement` where there is no element or more than one, and with
    /// `NotANode` where the one is a token. It has the builder, with the same word and the same
    /// loan; `.map_err(Fault::from)?` makes its `Fault` of it and drops it.
    pub fn finish(self) -> Result<GreenNode, Unfinished<'cache>>
        // the cache that was lent
        ensures* rests { sem 𝓛 (LeavesCacheUnlessRefused self.entry result) }
        ensures loan { IfErr result (λ u. unfinished_loan u ≡ loan_of self.entry) }

        // the tree
        ensures ok { IfOk result (IsFinished (word_of self.entry)) }
        ensures text { IfOk result (λ tree. node_text tree ≡ text_so_far self.entry) }

        // a refusal
        ensures err { IfErr result (λ u. WhyUnfinished (word_of self.entry) (fault_of u)) }
        ensures unchanged { IfErr result (λ u. unfinished_value u ≡ value_of self.entry) }
    {
        let GreenNodeBuilder { home, inner } = self;
        match inner.finish() {
            Ok((node, cache)) => {
                *home = cache;
                Ok(node)
            }
            Err((inner, fault)) => Err(Unfinished { home, inner, fault }),
        }
    }
}

impl<H: CacheHome> GreenNodeBuilder<'_, H> {
    /// Adds a token to the innermost open node: the one of the cache where it has an equal one.
    ///
    /// An `Err` with `TextTooLong` exactly for a text of more than 4,294,967,295 bytes of UTF-8,
    /// and else only with `Memory`.
    pub fn token(&mut self, kind: SyntaxKind, text: &str) -> Result<(), Fault>
        // what it adds
        ensures ok { OnOk result (value_of self.new
            ≡ adds (value_of self.old) (record { kind = kind.0; text = text.now })) }
        ensures text { text_so_far self.new ≡ text_so_far self.old ++ if_accepted result text.now }

        // a refusal
        ensures err { IfErr result (WhyNoToken text.now) }
        ensures too_long { byte_limit < length text.now → result ≡ Err Fault.TextTooLong }
        ensures unchanged { OnErr result (value_of self.new ≡ value_of self.old) }

        // the cache
        ensures stream { BuildsOn (value_of self.old) (value_of self.new) }
        ensures loan { loan_of self.new ≡ loan_of self.old }
    {
        self.inner.token(kind, text)
    }

    /// Opens a node. What is added from now on is in it, until `finish_node` closes it.
    ///
    /// An `Err` only with `Memory`.
    pub fn start_node(&mut self, kind: SyntaxKind) -> Result<(), Fault>
        // what it opens
        ensures ok { OnOk result (value_of self.new ≡ opens (value_of self.old) kind.0) }
        ensures text { text_so_far self.new ≡ text_so_far self.old }

        // a refusal
        ensures err { IfErr result (λ e. e ≡ Fault.Memory) }
        ensures unchanged { OnErr result (value_of self.new ≡ value_of self.old) }

        // the cache
        ensures stream { BuildsOn (value_of self.old) (value_of self.new) }
        ensures loan { loan_of self.new ≡ loan_of self.old }
    {
        self.inner.start_node(kind)?;
        Ok(())
    }

    /// Closes the innermost open node over the elements that were added since it was opened. The
    /// node is the one of the cache where it has an equal one.
    ///
    /// An `Err` with `NothingOpen` exactly where no node is open, with `TooManyChildren` or
    /// `TextTooLong` where the node would have more than 4,294,967,295 children or bytes, and else
    /// only with `Memory`. The node is then open as before, with its elements.
    pub fn finish_node(&mut self) -> Result<(), Fault>
        // what it closes
        ensures ok { OnOk result (FinishesNode (value_of self.old) (value_of self.new)) }
        ensures text { text_so_far self.new ≡ text_so_far self.old }

        // a refusal
        ensures err { IfErr result (WhyNotClosed (word_of self.old)) }
        ensures nothing_open { HasNoneOpen (word_of self.old) → result ≡ Err Fault.NothingOpen }
        ensures unchanged { OnErr result (value_of self.new ≡ value_of self.old) }

        // the cache
        ensures stream { BuildsOn (value_of self.old) (value_of self.new) }
        ensures loan { loan_of self.new ≡ loan_of self.old }
    {
        self.inner.finish_node()
    }

    /// The place where the next element goes: `start_node_at` opens a node there later, around what
    /// was added meanwhile. Takes no memory.
    ///
    /// A parser that reads `1 + 2` knows only at the operator that its left operand stands in a
    /// sum. So it takes a checkpoint before each operand:
    ///
    /// ```rust
    /// let before_operand = builder.checkpoint();
    /// builder.token(NUMBER, "1")?;
    /// builder.start_node_at(before_operand, SUM)?;
    /// builder.token(PLUS, "+")?;
    /// builder.token(NUMBER, "2")?;
    /// builder.finish_node()?;
    /// ```
    pub fn checkpoint(&self) -> Checkpoint
        ensures { HasCount (word_of self.now) result }
    {
        self.inner.checkpoint()
    }

    /// Opens a node at a checkpoint, around all that was added and finished since.
    ///
    /// An `Err` with `CheckpointPast` exactly where the builder has fewer elements than the
    /// checkpoint says, with
    /// `CheckpointBefore` exactly where the innermost open node was opened behind it, and else only
    /// with `Memory`.
    pub fn start_node_at(&mut self, checkpoint: Checkpoint, kind: SyntaxKind) -> Result<(), Fault>
        // what it opens
        ensures ok { OnOk result
            (WrapsAt (value_of self.old) checkpoint kind.0 (value_of self.new)) }
        ensures text { text_so_far self.new ≡ text_so_far self.old }

        // a refusal
        ensures err { IfErr result (WhyNotWrapped (word_of self.old) checkpoint) }
        ensures past { IsPast (word_of self.old) checkpoint → result ≡ Err Fault.CheckpointPast }
        ensures before { IsBeforeOpening (word_of self.old) checkpoint
            → result ≡ Err Fault.CheckpointBefore }
        ensures unchanged { OnErr result (value_of self.new ≡ value_of self.old) }

        // the cache
        ensures stream { BuildsOn (value_of self.old) (value_of self.new) }
        ensures loan { loan_of self.new ≡ loan_of self.old }
    {
        self.inner.start_node_at(checkpoint, kind)
    }

    /// Lends the tree that `finish` would give. A function that has only a `&mut` of the builder,
    /// as in `with`, reads it by this call. Takes no memory.
    ///
    /// An `Err` with `NotOneElement` where there is no element or more than one, and with
    /// `NotANode` where the one is a token.
    pub fn tree(&self) -> Result<&GreenNode, Fault>
        ensures ok { IfOk result (λ tree. IsFinished (word_of self.now) tree.now) }
        ensures err { IfErr result (WhyUnfinished (word_of self.now)) }
    {
        self.inner.tree()
    }

    /// The cache, for its counts. Takes no memory.
    pub fn cache(&self) -> &NodeCache
        ensures { result.now ≡ cache_of self.now }
    {
        self.inner.cache()
    }

    /// Lends the builder to a closure, and drops it then. A function that takes a builder by value
    /// says through this call what the lent cache has afterwards.
    pub fn with<R, F: FnOnce(&mut GreenNodeBuilder<'_, H>) -> R>(self, work: F) -> R
        requires callable { F.IsAlwaysCallable work }
        requires keeps { KeepsLoan (F.post work) }
        ensures { LeavesCacheOfRun H.receives (FnOnceReturnsAtMut F.FnOnce work)
            (value_of self.entry) result self.exit.0.now }
    {
        let GreenNodeBuilder { home, inner } = self;
        let mut builder = GreenNodeBuilder { home, inner };
        work(&mut builder)
    }
}

/// A builder that has no finished tree to give, and why: the error of `finish`.
pub struct Unfinished<'cache, H: CacheHome = NodeCache, B: HoldsCache = OwningBuilder> {
    home: &'cache mut H,
    inner: B,
    fault: Fault,
}

impl<H: CacheHome, B: HoldsCache> Drop for Unfinished<'_, H, B> {
    fn drop(self)
        ensures { H.receives self.exit.0.now (B.content self.entry.inner) }
    {
        let Unfinished {
            home,
            inner,
            fault: _,
        } = self;
        home.leave(inner.give_back());
    }
}

impl<'cache, H: CacheHome> Unfinished<'cache, H> {
    /// Why the tree is not finished: `NotOneElement` or `NotANode`.
    pub fn fault(&self) -> Fault
        ensures { result ≡ fault_of self.now }
    {
        self.fault
    }

    /// The builder, with the word and the cache that it had before `finish`.
    pub fn into_builder(self) -> GreenNodeBuilder<'cache, H>
        ensures loan { loan_of result ≡ unfinished_loan self.entry }
        ensures value { value_of result ≡ unfinished_value self.entry }
    {
        let Unfinished {
            home,
            inner,
            fault: _,
        } = self;
        GreenNodeBuilder { home, inner }
    }
}

/// Why there is no tree. So a function that answers a `Fault` has `builder.finish()?` where the
/// cache is the builder's own, and
/// `builder.finish().map_err(Fault::from)?` where it is lent. The builder is dropped, which gives a
/// lent cache back: a contract that says what it then has takes the two cases apart by `match`.
impl<H: CacheHome> From<Unfinished<'_, H>> for Fault {
    ghost from_gives = { λ u fault. fault ≡ fault_of u };

    fn from(unfinished: Unfinished<'_, H>) -> Fault
        ensures fault { result ≡ fault_of unfinished.entry }
        ensures cache { H.receives unfinished.exit.0.now (unfinished_value unfinished.entry).cache }
    {
        unfinished.fault
    }
}
