//! Whether the sets of a grammar show that the next token alone says what to do.
ghost use Rattle.std.specs.Prelude.{◌≡◌, ℕ, true, IsTrue, Option, Some, slice_get};
ghost use Rattle.rowan_predictive.specs.declared.rules.Entry.{Entry};
ghost use Rattle.rowan_events.specs.Seen.{has};
ghost use Rattle.rowan_predictive.specs.Predictive.{Begins, Follows, MayBeEmpty, BeginsIn};
ghost use Rattle.rowan_predictive.specs.Predictive.{FollowsIn};
ghost use Rattle.rowan_predictive.specs.Predictive.{IsBefore, IsApart, AreApart, IsAround};
ghost use Rattle.rowan_predictive.specs.Predictive.{IsJoined};
ghost use Rattle.rowan_predictive.specs.Predictive.{IsChosen, IsMaybe, IsFit, IsPredictive};
ghost use Rattle.rowan_predictive.specs.Predictive.{IsOneOf};
ghost use Rattle.rowan_predictive.specs.Costs.{IsExactBy};
ghost use Rattle.rowan_predictive.specs.declared.rules.Rule.TheVariants.{Seq};

use crate::choice::{first, follow, may_be_empty};
use crate::rules::{Entry, Rule};
use rowan::SyntaxKind;
use rowan_parser::TokenSet;

/// Whether each kind of one set is in another.
fn is_within(kinds: TokenSet, others: TokenSet) -> bool
    ensures { IsTrue result → (kind : ℕ) → has kinds.0 kind ≡ true → has others.0 kind ≡ true }
{
    kinds.union(others).0 == others.0
}

/// Whether no kind is in both sets.
fn is_apart(kinds: TokenSet, others: TokenSet) -> bool
    ensures { IsTrue result → (kind : ℕ) → has kinds.0 kind ≡ true → has others.0 kind ≡ true → ⊥ }
{
    kinds.0 & others.0 == 0
}

/// Whether what begins one rule begins the other.
fn begins_in(entries: &[Entry], a: usize, i: usize) -> bool
    ensures { IsTrue result → BeginsIn entries.now a i }
{
    is_within(first(entries, a), first(entries, i))
}

/// Whether what follows one rule follows the other.
fn follows_in(entries: &[Entry], i: usize, a: usize) -> bool
    ensures { IsTrue result → FollowsIn entries.now i a }
{
    is_within(follow(entries, i), follow(entries, a))
}

/// Whether what begins rule `b` may follow rule `a`.
fn is_before(entries: &[Entry], a: usize, b: usize) -> bool
    ensures { IsTrue result → IsBefore entries.now a b }
{
    is_within(first(entries, b), follow(entries, a))
}

/// Whether no token begins a rule and follows it.
fn is_clear(entries: &[Entry], i: usize) -> bool
    ensures { IsTrue result → IsApart entries.now i }
{
    is_apart(first(entries, i), follow(entries, i))
}

/// Whether no token begins both rules.
fn firsts_differ(entries: &[Entry], a: usize, b: usize) -> bool
    ensures { IsTrue result → (next : Option ℕ) → Begins entries.now a next
        → Begins entries.now b next → ⊥ }
{
    is_apart(first(entries, a), first(entries, b))
}

/// Whether what begins a rule begins one of two others.
fn begins_in_one(entries: &[Entry], i: usize, a: usize, b: usize) -> bool
    ensures { IsTrue result → IsOneOf entries.now i a b }
{
    is_within(
        first(entries, i),
        first(entries, a).union(first(entries, b)),
    )
}

fn is_around(entries: &[Entry], i: usize, a: usize) -> bool
    ensures { IsTrue result → IsAround entries.now i a }
{
    begins_in(entries, a, i)
        && (!may_be_empty(entries, a) || may_be_empty(entries, i))
        && follows_in(entries, i, a)
}

fn is_joined(entries: &[Entry], i: usize, a: usize, b: usize) -> bool
    ensures { IsTrue result → IsJoined entries.now i a b }
{
    begins_in(entries, a, i)
        && (!may_be_empty(entries, a) || begins_in(entries, b, i))
        && (!may_be_empty(entries, a) || !may_be_empty(entries, b) || may_be_empty(entries, i))
        && is_before(entries, a, b)
        && (!may_be_empty(entries, b) || follows_in(entries, i, a))
        && follows_in(entries, i, b)
}

fn is_chosen(entries: &[Entry], i: usize, a: usize, b: usize) -> bool
    ensures { IsTrue result → IsChosen entries.now i a b }
{
    is_around(entries, i, a)
        && is_around(entries, i, b)
        && firsts_differ(entries, a, b)
        && (!may_be_empty(entries, a) || !may_be_empty(entries, b))
        && (!may_be_empty(entries, i) || is_clear(entries, i))
}

fn is_maybe(entries: &[Entry], i: usize, a: usize) -> bool
    ensures { IsTrue result → IsMaybe entries.now i a }
{
    is_around(entries, i, a)
        && may_be_empty(entries, i)
        && !may_be_empty(entries, a)
        && is_clear(entries, i)
}

/// Whether the sets of a rule are large enough, and those of its parts apart.
pub(crate) fn is_fit(entries: &[Entry], i: usize, rule: Rule) -> bool
    ensures { IsTrue result → IsFit entries.now i rule }
{
    match rule {
        Rule::Empty => may_be_empty(entries, i),
        Rule::Token(kind) => first(entries, i).contains(SyntaxKind(kind)),
        Rule::Node(_, a) => is_around(entries, i, a),
        Rule::Chain(a) => is_around(entries, i, a),
        Rule::Wrap(_, a) => is_around(entries, i, a),
        Rule::Seq(a, b) => is_joined(entries, i, a, b),
        Rule::Choice(a, b) => is_chosen(entries, i, a, b),
        Rule::Optional(a) => is_maybe(entries, i, a),
        Rule::Star(a) => is_maybe(entries, i, a) && is_before(entries, a, i),
    }
}

fn is_inner(entries: &[Entry], i: usize, a: usize) -> bool
    ensures { IsTrue result
        → BeginsIn entries.now i a × (MayBeEmpty entries.now i → MayBeEmpty entries.now a) }
{
    begins_in(entries, i, a) && (!may_be_empty(entries, i) || may_be_empty(entries, a))
}

fn is_pair(entries: &[Entry], i: usize, a: usize, b: usize) -> bool
    ensures { IsTrue result → IsExactBy entries.now i (Seq a b) }
{
    begins_in_one(entries, i, a, b)
        && (!may_be_empty(entries, i) || may_be_empty(entries, a))
        && (!may_be_empty(entries, i) || may_be_empty(entries, b))
        && (may_be_empty(entries, a) || begins_in(entries, i, a))
}

/// Whether nothing begins a rule.
fn begins_never(entries: &[Entry], i: usize) -> bool
    ensures { IsTrue result → (next : Option ℕ) → Begins entries.now i next → ⊥ }
{
    first(entries, i).0 == 0
}

/// Whether the sets of a rule are no larger than its parts say.
pub(crate) fn is_exact(entries: &[Entry], i: usize, rule: Rule) -> bool
    ensures { IsTrue result → IsExactBy entries.now i rule }
{
    match rule {
        Rule::Empty => begins_never(entries, i),
        Rule::Token(_) => true,
        Rule::Node(_, a) => is_inner(entries, i, a),
        Rule::Chain(a) => is_inner(entries, i, a),
        Rule::Wrap(_, a) => is_inner(entries, i, a),
        Rule::Seq(a, b) => is_pair(entries, i, a, b),
        Rule::Choice(a, b) => begins_in_one(entries, i, a, b),
        Rule::Optional(a) => begins_in(entries, i, a),
        Rule::Star(a) => begins_in(entries, i, a),
    }
}

pub(crate) fn is_fit_at(entries: &[Entry], i: usize) -> bool
    ensures { IsTrue result → (entry : Entry) → slice_get entries.now i ≡ Some entry
        → IsFit entries.now i entry.rule }
{
    match entries.get(i) {
        None => true,
        Some(entry) => is_fit(entries, i, entry.rule),
    }
}

/// Whether the next token alone says what to do, by the sets of the rules.
pub(crate) fn is_predictive(entries: &[Entry]) -> bool
    ensures { IsTrue result → IsPredictive entries.now }
{
    for i in 0..entries.len() {
        if !is_fit_at(entries, i) {
            return false;
        }
    }
    true
}
