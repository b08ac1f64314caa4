//! How many steps a parse takes at most, whatever its errors: why it ends.
ghost use Rattle.std.specs.Prelude.{◌≡◌, ◌+◌, ◌≤◌, ◌<◌, ◌^◌, IsTrue, Some, slice_get};
ghost use Rattle.rowan_predictive.specs.declared.rules.Entry.{Entry};
ghost use Rattle.rowan_predictive.specs.Costs.{idle, busy, passing, late, IsPaidBy, IsBounded};
ghost use Rattle.rowan_predictive.specs.Costs.{IsBoundedAt};

use crate::choice::may_be_empty;
use crate::rules::{Entry, Rule};
use crate::testing::is_exact;

/// Steps for a rule that the next token does not begin.
pub(crate) fn idle(entries: &[Entry], number: usize) -> u32
    ensures { result ≡ idle entries.now number }
{
    match entries.get(number) {
        None => 1,
        Some(entry) => entry.facts.idle,
    }
}

/// Steps for a rule that the next token begins, until the token is taken.
pub(crate) fn busy(entries: &[Entry], number: usize) -> u32
    ensures { result ≡ busy entries.now number }
{
    match entries.get(number) {
        None => 2,
        Some(entry) => entry.facts.busy,
    }
}

/// Steps for a rule that is empty.
fn passing(entries: &[Entry], number: usize) -> u32
    ensures { result ≡ passing entries.now number }
{
    if may_be_empty(entries, number) {
        return idle(entries, number);
    }
    0
}

/// Steps for a rule that is empty, and the one behind it.
fn late(entries: &[Entry], a: usize, b: usize) -> u64
    ensures value { result ≡ late entries.now a b }
    ensures small { result < 2 ^ 40 }
{
    if may_be_empty(entries, a) {
        return u64::from(idle(entries, a)) + u64::from(busy(entries, b));
    }
    0
}

fn suffices(needed: u64, there: u32) -> bool
    ensures { IsTrue result → needed ≤ there }
{
    needed <= u64::from(there)
}

/// Whether two steps more than those of its only part suffice for a rule.
fn is_paid_within(entries: &[Entry], i: usize, a: usize) -> bool
    ensures { IsTrue result → (2 + idle entries.now a ≤ idle entries.now i)
        × (2 + busy entries.now a ≤ busy entries.now i) }
{
    suffices(2 + u64::from(idle(entries, a)), idle(entries, i))
        && suffices(2 + u64::from(busy(entries, a)), busy(entries, i))
}

fn is_paid_by(entries: &[Entry], i: usize, rule: Rule) -> bool
    ensures { IsTrue result → IsPaidBy entries.now i rule }
{
    match rule {
        Rule::Empty => true,
        Rule::Token(_) => true,
        Rule::Node(_, a) => is_paid_within(entries, i, a),
        Rule::Chain(a) => is_paid_within(entries, i, a),
        Rule::Wrap(_, a) => is_paid_within(entries, i, a),
        Rule::Seq(a, b) => {
            let both = 1 + u64::from(idle(entries, a)) + u64::from(idle(entries, b));
            let early = 1 + u64::from(busy(entries, a)) + u64::from(idle(entries, b));
            suffices(both, idle(entries, i))
                && suffices(early, busy(entries, i))
                && suffices(1 + late(entries, a, b), busy(entries, i))
        }
        Rule::Choice(a, b) => {
            suffices(1 + u64::from(passing(entries, a)), idle(entries, i))
                && suffices(1 + u64::from(passing(entries, b)), idle(entries, i))
                && suffices(1 + u64::from(busy(entries, a)), busy(entries, i))
                && suffices(1 + u64::from(busy(entries, b)), busy(entries, i))
        }
        Rule::Optional(a) => suffices(1 + u64::from(busy(entries, a)), busy(entries, i)),
        Rule::Star(a) => {
            let again = 1 + u64::from(busy(entries, a)) + u64::from(idle(entries, i));
            suffices(again, busy(entries, i))
        }
    }
}

fn is_bounded_by(entries: &[Entry], per_token: u32, i: usize, rule: Rule) -> bool
    ensures { IsTrue result → IsBoundedAt entries.now per_token i rule }
{
    let most = u64::from(idle(entries, i)) + u64::from(per_token);
    is_exact(entries, i, rule)
        && is_paid_by(entries, i, rule)
        && idle(entries, i) >= 1
        && suffices(1 + u64::from(idle(entries, i)), busy(entries, i))
        && u64::from(busy(entries, i)) <= most
}

fn is_bounded_at(entries: &[Entry], per_token: u32, i: usize) -> bool
    ensures { IsTrue result → (entry : Entry) → slice_get entries.now i ≡ Some entry
        → IsBoundedAt entries.now per_token i entry.rule }
{
    match entries.get(i) {
        None => true,
        Some(entry) => is_bounded_by(entries, per_token, i, entry.rule),
    }
}

/// Whether the steps of each rule, and so many for each token, bound those of each parse.
pub(crate) fn is_bounded(entries: &[Entry], per_token: u32) -> bool
    ensures { IsTrue result → IsBounded entries.now per_token }
{
    if per_token == 0 {
        return false;
    }
    for i in 0..entries.len() {
        if !is_bounded_at(entries, per_token, i) {
            return false;
        }
    }
    true
}
