//! The events of a tree, from what a parser did.
ghost use Rattle.std.specs.Prelude.{◌≡◌, IfOk, OnOk, false};
ghost use Rattle.rowan_predictive.specs.Arranging.{arranged, before, opened, with_events};
ghost use Rattle.rowan_predictive.specs.Arranging.{errors_opened, errors_closed, chain_opened};
ghost use Rattle.rowan_predictive.specs.Arranging.{around_opened, without_first, taken_before};
ghost use Rattle.rowan_predictive.specs.Arranging.{is_in_chain, is_skip, skipped_before};
ghost use Rattle.rowan_predictive.specs.Arranging.{with_skipped};
ghost use Rattle.rowan_predictive.specs.ArrangingView.{arranged_of};

use crate::rules::Action;
use rowan::SyntaxKind;
use rowan_parser::Event;
use std::alloc::{AllocError, Global};

/// What ends behind an action, and the nodes that begin where a chain does.
#[derive(Clone, Copy)]
pub(crate) enum Pending {
    Node,
    Chain,
    Around(u16),
}

/// The events of the last actions, the last one first.
#[derive(Drop)]
pub(crate) struct Arranger {
    pub events: Vec<Event>,
    /// What begins before these actions and ends in them, the innermost one last, and behind a
    /// chain the nodes around what stands in it, the first one last.
    pub pending: Vec<Pending>,
    /// The first of these actions passes over a token.
    pub is_skipping: bool,
}

impl Arranger {
    fn open(&mut self, kind: u16) -> Result<(), AllocError>
        ensures { OnOk result (arranged_of self.new
            ≡ with_events (opened kind (arranged_of self.old).events) (arranged_of self.old)) }
    {
        self.events.push(Event::Open(SyntaxKind(kind), 0))?;
        Ok(())
    }

    /// A node of errors begins before the tokens that are passed over.
    fn open_skipped(&mut self, error: u16) -> Result<(), AllocError>
        ensures { OnOk result (arranged_of self.new ≡ record {
          events = errors_opened self.old.is_skipping error (arranged_of self.old).events;
          pending = (arranged_of self.old).pending;
          is_skipping = false;
        }) }
    {
        if self.is_skipping {
            self.is_skipping = false;
            self.open(error)?;
        }
        Ok(())
    }

    /// A token that is passed over stands before the others.
    fn put_skipped(&mut self) -> Result<(), AllocError>
        ensures { OnOk result (arranged_of self.new ≡ skipped_before (arranged_of self.old)) }
    {
        if !self.is_skipping {
            self.events.push(Event::Close)?;
        }
        self.is_skipping = true;
        self.events.push(Event::Token)?;
        Ok(())
    }

    /// The nodes begin that begin where a chain does.
    fn open_chain(&mut self) -> Result<(), AllocError>
        requires { self.old.is_skipping ≡ false }
        ensures { OnOk result (arranged_of self.new
            ≡ chain_opened (arranged_of self.old).pending (arranged_of self.old).events) }
    {
        'chain: while let Some(pending) = self.pending.pop() {
            match pending {
                Pending::Around(kind) => self.open(kind)?,
                Pending::Chain => return Ok(()),
                Pending::Node => return Ok(()),
            }
        }
        Ok(())
    }

    /// Whether the innermost of what ends in these actions is a chain.
    fn is_in_chain(&self) -> bool
        ensures { result ≡ is_in_chain (arranged_of self.now).pending }
    {
        match self.pending.last() {
            None => false,
            Some(Pending::Node) => false,
            Some(Pending::Chain) => true,
            Some(Pending::Around(_)) => true,
        }
    }

    /// What ends last in these actions, which begins now, is no longer there.
    fn begin_innermost(&mut self)
        ensures { arranged_of self.new ≡ record {
          events = (arranged_of self.old).events;
          pending = without_first (arranged_of self.old).pending;
          is_skipping = self.old.is_skipping;
        } }
    {
        let _end = self.pending.pop();
    }

    /// A node begins, in a chain where that does.
    fn open_around(&mut self, kind: u16) -> Result<(), AllocError>
        requires { self.old.is_skipping ≡ false }
        ensures { OnOk result (arranged_of self.new
            ≡ around_opened kind (arranged_of self.old).pending (arranged_of self.old).events) }
    {
        if self.is_in_chain() {
            self.pending.push(Pending::Around(kind))?;
            return Ok(());
        }
        self.open(kind)
    }

    /// Puts an action before the others, which passes over no token.
    fn put_taken(&mut self, action: Action) -> Result<(), AllocError>
        requires { self.old.is_skipping ≡ false }
        ensures { OnOk result (arranged_of self.new
            ≡ taken_before action (arranged_of self.old).pending (arranged_of self.old).events) }
    {
        match action {
            Action::Open(kind) => {
                self.begin_innermost();
                self.open(kind)?;
            }
            Action::Mark => self.open_chain()?,
            Action::Around(kind) => {
                self.begin_innermost();
                self.open_around(kind)?;
            }
            Action::Close => {
                self.events.push(Event::Close)?;
                self.pending.push(Pending::Node)?;
            }
            Action::Done => self.pending.push(Pending::Chain)?,
            Action::Token => self.events.push(Event::Token)?,
            Action::Skip => {}
        }
        Ok(())
    }

    /// Puts an action before the others.
    #[inline(always)]
    fn put(&mut self, error: u16, action: Action) -> Result<(), AllocError>
        ensures { OnOk result (arranged_of self.new ≡ before error action (arranged_of self.old)) }
    {
        if is_skip(action) {
            return self.put_skipped();
        }
        self.open_skipped(error)?;
        self.put_taken(action)
    }
}

fn is_skip(action: Action) -> bool
    ensures { result ≡ is_skip action }
{
    match action {
        Action::Skip => true,
        Action::Open(_) => false,
        Action::Mark => false,
        Action::Around(_) => false,
        Action::Close => false,
        Action::Done => false,
        Action::Token => false,
    }
}

/// The events of the tree that these actions make. Nodes around what stands before them in a chain
/// begin where that does, and tokens that are passed over stand in nodes of errors.
pub(crate) fn arrange(
    alloc: Global,
    error: u16,
    actions: &[Action],
) -> Result<Vec<Event>, AllocError>
    ensures { IfOk result (λ events. events.items ≡ arranged error actions.now) }
{
    let mut arranger = Arranger {
        events: Vec::with_capacity(alloc, actions.len())?,
        pending: Vec::new(alloc),
        is_skipping: false,
    };
    let mut rest = actions;
    'actions: while let Some((action, before)) = rest.split_last() {
        arranger.put(error, *action)?;
        rest = before;
    }
    arranger.open_skipped(error)?;
    let Arranger { mut events, .. } = arranger;
    events.reverse();
    Ok(events)
}
