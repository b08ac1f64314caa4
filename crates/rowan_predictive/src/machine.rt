//! The machine: a stack of what is expected, and what was done so far.
ghost use Rattle.std.specs.Prelude.{◌≡◌, ◌≤◌, ◌∷◌, ℕ, List, reverse, length, slice_get};
ghost use Rattle.std.specs.Prelude.{OnOk};
ghost use Rattle.rowan_events.specs.Seen.{has};
ghost use Rattle.rowan_predictive.specs.declared.rules.Item.{Item};
ghost use Rattle.rowan_predictive.specs.declared.rules.Item.TheVariants.{Want};
ghost use Rattle.rowan_predictive.specs.Choice.{awaits};
ghost use Rattle.rowan_predictive.specs.Machine.{is_anchor, is_told, skips, stuck_by, complained};
ghost use Rattle.rowan_predictive.specs.Machine.{with_stack, stepped, step_of};
ghost use Rattle.rowan_predictive.specs.View.{state_of, top_of, AreAnchors};

use crate::choice::{choose, first, is_begun};
use crate::rules::{Action, Complaint, Entry, Item, Move};
use rowan::SyntaxKind;
use rowan_parser::TokenSet;
use std::alloc::{AllocError, Global};

/// An item of the stack, and the tokens by which it or an item below it may go on.
#[derive(Clone, Copy)]
pub(crate) struct Frame {
    pub item: Item,
    pub anchors: TokenSet,
}

#[derive(Drop)]
pub(crate) struct Machine {
    pub stack: Vec<Frame>,
    pub actions: Vec<Action>,
    pub errors: Vec<Complaint>,
    /// The number of the next token.
    pub place: usize,
    /// The number of the token behind the last one that was taken.
    pub fresh: usize,
}

/// The kind of a token.
#[inline(always)]
fn next_token(kinds: &[u16], place: usize) -> Option<u16>
    ensures { result ≡ slice_get kinds.now place }
{
    match kinds.get(place) {
        None => None,
        Some(kind) => Some(*kind),
    }
}

/// The tokens by which an item may go on.
fn awaited(entries: &[Entry], item: Item) -> TokenSet
    ensures { (kind : ℕ) → has result.0 kind ≡ awaits entries.now kind item }
{
    match item {
        Item::End => TokenSet::EMPTY,
        Item::Leave => TokenSet::EMPTY,
        Item::Want(number) => first(entries, number),
    }
}

/// The tokens by which some item of a stack may go on.
fn anchors_of(stack: &[Frame]) -> TokenSet
    ensures { result.0 ≡ top_of (reverse stack.now) }
{
    match stack.last() {
        None => TokenSet::EMPTY,
        Some(frame) => frame.anchors,
    }
}

/// Whether something was complained of since a token was taken.
fn is_told(errors: &[Complaint], fresh: usize) -> bool
    ensures { result ≡ is_told fresh errors.now }
{
    match errors.last() {
        None => false,
        Some(error) => error.place >= fresh,
    }
}

/// Whether the next token is passed over where it does not fit a rule.
fn skips(entries: &[Entry], number: usize, anchors: TokenSet, next: Option<u16>) -> bool
    ensures { (stack : List Item)
        → ((kind : ℕ) → has anchors.0 kind ≡ is_anchor entries.now stack kind)
        → result ≡ skips entries.now number stack next }
{
    match next {
        None => false,
        Some(kind) => {
            if is_begun(entries, number, Some(kind)) {
                return true;
            }
            !anchors.contains(SyntaxKind(kind))
        }
    }
}

impl Machine {
    /// Expects an item next.
    #[inline(always)]
    pub(crate) fn expect(&mut self, entries: &[Entry], item: Item) -> Result<(), AllocError>
        requires { AreAnchors entries.now (reverse self.old.stack.items) }
        ensures state { OnOk result (state_of self.new
            ≡ with_stack (item ∷ (state_of self.old).stack) (state_of self.old)) }
        ensures anchors { OnOk result (AreAnchors entries.now (reverse self.new.stack.items)) }
    {
        let below = anchors_of(self.stack.as_slice());
        let anchors = awaited(entries, item).union(below);
        self.stack.push(Frame { item, anchors })?;
        Ok(())
    }

    /// Complains of the next token, unless something was complained of since a token was taken.
    pub(crate) fn complain(&mut self, rule: Option<usize>) -> Result<(), AllocError>
        ensures state { OnOk result (state_of self.new ≡ complained rule (state_of self.old)) }
        ensures stack { OnOk result (self.new.stack ≡ self.old.stack) }
    {
        if is_told(self.errors.as_slice(), self.fresh) {
            return Ok(());
        }
        self.errors.push(Complaint {
            rule,
            place: self.place,
        })?;
        Ok(())
    }

    /// The next token does not fit a rule that was expected.
    fn recover(&mut self, entries: &[Entry], kinds: &[u16], number: usize) -> Result<(), AllocError>
        requires place { self.old.place ≤ length kinds.now }
        requires anchors { AreAnchors entries.now (reverse self.old.stack.items) }
        ensures state { let stack = (state_of self.old).stack in OnOk result (state_of self.new
            ≡ stuck_by (skips entries.now number stack (slice_get kinds.now self.old.place))
            number stack (state_of self.old)) }
        ensures anchors { OnOk result (AreAnchors entries.now (reverse self.new.stack.items)) }
    {
        let next = next_token(kinds, self.place);
        self.complain(Some(number))?;
        if skips(entries, number, anchors_of(self.stack.as_slice()), next) {
            self.expect(entries, Item::Want(number))?;
            self.actions.push(Action::Skip)?;
            self.place += 1;
        }
        Ok(())
    }

    /// A rule is expected, and was taken from the stack.
    #[inline(always)]
    fn expand(&mut self, entries: &[Entry], kinds: &[u16], number: usize) -> Result<(), AllocError>
        requires place { self.old.place ≤ length kinds.now }
        requires anchors { AreAnchors entries.now (reverse self.old.stack.items) }
        ensures state { OnOk result (state_of self.new ≡ stepped entries.now kinds.now
            (Want number ∷ (state_of self.old).stack) (state_of self.old)) }
        ensures anchors { OnOk result (AreAnchors entries.now (reverse self.new.stack.items)) }
    {
        let next = next_token(kinds, self.place);
        match choose(entries, number, next) {
            None => self.recover(entries, kinds, number)?,
            Some(Move::Take(_)) => {
                self.actions.push(Action::Token)?;
                self.place += 1;
                self.fresh = self.place;
            }
            Some(Move::Enter(kind, inner)) => {
                self.actions.push(Action::Open(kind))?;
                self.expect(entries, Item::End)?;
                self.expect(entries, Item::Want(inner))?;
            }
            Some(Move::Begin(inner)) => {
                self.actions.push(Action::Mark)?;
                self.expect(entries, Item::Leave)?;
                self.expect(entries, Item::Want(inner))?;
            }
            Some(Move::Surround(kind, inner)) => {
                self.actions.push(Action::Around(kind))?;
                self.expect(entries, Item::End)?;
                self.expect(entries, Item::Want(inner))?;
            }
            Some(Move::Both(first, second)) => {
                self.expect(entries, Item::Want(second))?;
                self.expect(entries, Item::Want(first))?;
            }
            Some(Move::Become(other)) => self.expect(entries, Item::Want(other))?,
            Some(Move::Pass) => {}
        }
        Ok(())
    }

    /// One step. Nothing is done where nothing is expected.
    pub(crate) fn step(&mut self, entries: &[Entry], kinds: &[u16]) -> Result<(), AllocError>
        requires place { self.old.place ≤ length kinds.now }
        requires anchors { AreAnchors entries.now (reverse self.old.stack.items) }
        ensures state { OnOk result (state_of self.new
            ≡ step_of entries.now kinds.now (state_of self.old)) }
        ensures anchors { OnOk result (AreAnchors entries.now (reverse self.new.stack.items)) }
    {
        let Some(frame) = self.stack.pop() else {
            return Ok(());
        };
        match frame.item {
            Item::End => self.actions.push(Action::Close)?,
            Item::Leave => self.actions.push(Action::Done)?,
            Item::Want(number) => self.expand(entries, kinds, number)?,
        }
        Ok(())
    }
}
