//! Whole runs of the machine.
ghost use Rattle.std.specs.Prelude.{◌≡◌, ◌≤◌, [], ◌++◌, List, length, reverse, IfOk, IfErr, OnOk};
ghost use Rattle.rowan_predictive.specs.declared.rules.Action.{Action};
ghost use Rattle.rowan_predictive.specs.Derivations.{Parses};
ghost use Rattle.rowan_predictive.specs.View.{state_of, entries_in, rules_in, AreAnchors};
ghost use Rattle.rowan_predictive.specs.Whole.{begun, skipped, last_errors, all_actions};
ghost use Rattle.rowan_predictive.specs.Whole.{all_errors};
ghost use Rattle.rowan_predictive.specs.Whole.{tokens_in, Leads, IsTotal, Ends, IsRun};

use crate::grammars::Grammar;
use crate::machine::Machine;
use crate::rules::{Action, Complaint, Entry, Item};
use rowan::Fault;
use std::alloc::{AllocError, Global};

/// What a parser did, and where a token did not fit.
#[derive(Drop)]
pub struct Outcome {
    pub actions: Vec<Action>,
    /// At most one complaint between two tokens that were taken.
    pub complaints: Vec<Complaint>,
}

fn begin(alloc: Global, entries: &[Entry], start: usize) -> Result<Machine, AllocError>
    ensures state { IfOk result (λ m. state_of m ≡ begun start) }
    ensures anchors { IfOk result (λ m. AreAnchors entries.now (reverse m.stack.items)) }
{
    let mut machine = Machine {
        stack: Vec::new(alloc),
        actions: Vec::new(alloc),
        errors: Vec::new(alloc),
        place: 0,
        fresh: 0,
    };
    machine.expect(entries, Item::Want(start))?;
    Ok(machine)
}

/// Passes over so many tokens.
fn skip(actions: &mut Vec<Action>, count: usize) -> Result<(), AllocError>
    ensures { OnOk result (actions.new.items ≡ actions.old.items ++ skipped count) }
{
    for _i in 0..count {
        actions.push(Action::Skip)?;
    }
    Ok(())
}

/// Complains of tokens that are left.
fn complain_of_rest(machine: &mut Machine, left: usize) -> Result<(), AllocError>
    ensures errors { OnOk result (machine.new.errors.items
        ≡ last_errors left (state_of machine.old)) }
    ensures actions { OnOk result (machine.new.actions.items ≡ machine.old.actions.items) }
{
    if left > 0 {
        machine.complain(None)?;
    }
    Ok(())
}

/// Passes over the tokens that are left, with a complaint if there are some.
fn finish(mut machine: Machine, kinds: &[u16]) -> Result<Outcome, AllocError>
    requires { machine.place ≤ length kinds.now }
    ensures actions { IfOk result (λ p.
        p.actions.items ≡ all_actions kinds.now (state_of machine)) }
    ensures complaints { IfOk result (λ p.
        p.complaints.items ≡ all_errors kinds.now (state_of machine)) }
{
    let left = kinds.len() - machine.place;
    complain_of_rest(&mut machine, left)?;
    let Machine {
        mut actions,
        errors,
        ..
    } = machine;
    skip(&mut actions, left)?;
    Ok(Outcome {
        actions,
        complaints: errors,
    })
}

impl Grammar {
    /// Steps until nothing is expected.
    fn run_to_end(&self, machine: &mut Machine, kinds: &[u16]) -> Result<(), AllocError>
        requires total { IsTotal kinds.now (state_of machine.old) }
        requires anchors { AreAnchors (entries_in self.now) (reverse machine.old.stack.items) }
        ensures { OnOk result (Ends (entries_in self.now) kinds.now
            (state_of machine.old) (state_of machine.new)) }
    {
        let entries = self.entries.as_slice();
        'steps: while !machine.stack.is_empty() {
            machine.step(entries, kinds)?;
        }
        Ok(())
    }

    fn run_machine(&self, alloc: Global, start: usize, kinds: &[u16]) -> Result<Outcome, AllocError>
        ensures { IfOk result (λ p. IsRun (entries_in self.now) start kinds.now
            p.actions.items p.complaints.items) }
    {
        let mut machine = begin(alloc, self.entries.as_slice(), start)?;
        self.run_to_end(&mut machine, kinds)?;
        let outcome = finish(machine, kinds)?;
        Ok(outcome)
    }

    /// Parses the kinds of tokens from a rule on. Each token is taken once, or passed over, and
    /// each node that begins ends. There is no complaint exactly if the tokens derive from the
    /// rule, and then the actions are those of the derivation; so there is only one.
    ///
    /// Errors: `Memory` if an allocation failed.
    pub fn run(&self, alloc: Global, start: usize, kinds: &[u16]) -> Result<Outcome, Fault>
        ensures tokens { IfOk result (λ p. tokens_in p.actions.items ≡ length kinds.now) }
        ensures nodes { IfOk result (λ p. Leads [] p.actions.items []) }
        ensures sound { IfOk result (λ p. p.complaints.items ≡ []
            → Parses (rules_in self.now) start kinds.now p.actions.items) }
        ensures complete { IfOk result (λ p. (actions : List Action)
            → Parses (rules_in self.now) start kinds.now actions
            → (p.complaints.items ≡ []) × (p.actions.items ≡ actions)) }
        ensures ran { IfOk result (λ p. IsRun (entries_in self.now) start kinds.now
            p.actions.items p.complaints.items) }
        ensures err { IfErr result (λ e. e ≡ Fault.Memory) }
    {
        let _ = &self.per_token;
        let outcome = self.run_machine(alloc, start, kinds)?;
        Ok(outcome)
    }
}
