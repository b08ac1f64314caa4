//! Finds the sets of rules, and how many steps they take. `Grammar::new` tests what it finds.
ghost use Rattle.std.specs.Prelude.{◌≡◌, ◌<◌, ◌^◌, ℕ, true, List, IfSome, IfOk};
ghost use Rattle.rowan_events.specs.Seen.{has};
ghost use Rattle.rowan_predictive.specs.declared.rules.Rule.{Rule};
ghost use Rattle.rowan_predictive.specs.declared.rules.Rule.TheVariants.{Seq, Choice};
ghost use Rattle.rowan_predictive.specs.Causes.{MayFollow, IsSo, AreSo, IsBegun};
ghost use Rattle.rowan_predictive.specs.Derivations.{HasRule};

use crate::rules::{Facts, Rule};
use crate::waiting::{Users, Waiting};
use rowan::SyntaxKind;
use rowan_parser::TokenSet;
use std::alloc::{AllocError, Global};

const NOTHING: Facts = Facts {
    may_be_empty: false,
    first: TokenSet(0),
    follow: TokenSet(0),
    idle: 0,
    busy: 0,
};

pub(crate) fn facts_of(facts: &[Facts], number: usize) -> Facts
    ensures { (rules : List Rule) → AreSo rules facts.now → IsSo rules number result }
{
    match facts.get(number) {
        None => NOTHING,
        Some(found) => *found,
    }
}

/// Whether a rule may be empty and by which tokens it may begin, by what is known of its parts.
fn begun_by(facts: &[Facts], rule: Rule) -> (bool, TokenSet)
    ensures { (rules : List Rule) (i : ℕ) → AreSo rules facts.now → HasRule rules i rule
        → IsBegun rules i result.0 result.1 }
{
    match rule {
        Rule::Empty => (true, TokenSet::EMPTY),
        Rule::Token(kind) => (false, TokenSet::EMPTY.with(SyntaxKind(kind))),
        Rule::Node(_, a) => begun_as(facts, a),
        Rule::Chain(a) => begun_as(facts, a),
        Rule::Wrap(_, a) => begun_as(facts, a),
        Rule::Seq(a, b) => seq_begun(facts_of(facts, a), facts_of(facts, b)),
        Rule::Choice(a, b) => choice_begun(facts_of(facts, a), facts_of(facts, b)),
        Rule::Optional(a) => (true, facts_of(facts, a).first),
        Rule::Star(a) => (true, facts_of(facts, a).first),
    }
}

/// What is known of a part.
fn begun_as(facts: &[Facts], number: usize) -> (bool, TokenSet)
    ensures { (rules : List Rule) → AreSo rules facts.now
        → IsBegun rules number result.0 result.1 }
{
    let inner = facts_of(facts, number);
    (inner.may_be_empty, inner.first)
}

fn seq_begun(left: Facts, right: Facts) -> (bool, TokenSet)
    ensures { (rules : List Rule) (i a b : ℕ) → HasRule rules i (Seq a b)
        → IsSo rules a left → IsSo rules b right → IsBegun rules i result.0 result.1 }
{
    if left.may_be_empty {
        return (right.may_be_empty, left.first.union(right.first));
    }
    (false, left.first)
}

fn choice_begun(left: Facts, right: Facts) -> (bool, TokenSet)
    ensures { (rules : List Rule) (i a b : ℕ) → HasRule rules i (Choice a b)
        → IsSo rules a left → IsSo rules b right → IsBegun rules i result.0 result.1 }
{
    let is_empty = left.may_be_empty || right.may_be_empty;
    (is_empty, left.first.union(right.first))
}

/// Notes of a rule what is known by its parts, and says whether this is new.
fn note_begun(facts: &mut Vec<Facts>, number: usize, rule: Rule) -> bool
    ensures { (rules : List Rule) → HasRule rules number rule → AreSo rules facts.old.items
        → AreSo rules facts.new.items }
{
    let (is_empty, first) = begun_by(facts.as_slice(), rule);
    let Some(found) = facts.get_mut(number) else {
        return false;
    };
    if found.may_be_empty == is_empty && found.first.0 == first.0 {
        return false;
    }
    found.may_be_empty = is_empty;
    found.first = first;
    true
}

/// Adds tokens to those that may stand behind a rule, and says whether one is new.
fn add_follow(facts: &mut Vec<Facts>, number: usize, kinds: TokenSet) -> bool
    ensures { (rules : List Rule)
        → ((kind : ℕ) → has kinds.0 kind ≡ true → MayFollow rules kind number)
        → AreSo rules facts.old.items → AreSo rules facts.new.items }
{
    let Some(found) = facts.get_mut(number) else {
        return false;
    };
    let follow = found.follow.union(kinds);
    if follow.0 == found.follow.0 {
        return false;
    }
    found.follow = follow;
    true
}

/// Notes of the parts of a rule what may stand behind them, and says whether something is new.
fn note_follow(facts: &mut Vec<Facts>, number: usize, rule: Rule) -> bool
    ensures { (rules : List Rule) → HasRule rules number rule → AreSo rules facts.old.items
        → AreSo rules facts.new.items }
{
    let behind = facts_of(facts.as_slice(), number).follow;
    match rule {
        Rule::Empty => false,
        Rule::Token(_) => false,
        Rule::Node(_, a) => add_follow(facts, a, behind),
        Rule::Chain(a) => add_follow(facts, a, behind),
        Rule::Wrap(_, a) => add_follow(facts, a, behind),
        Rule::Optional(a) => add_follow(facts, a, behind),
        Rule::Seq(a, b) => {
            let before = before_part(facts.as_slice(), b, behind);
            let grew = add_follow(facts, a, before);
            add_follow(facts, b, behind) | grew
        }
        Rule::Choice(a, b) => {
            let grew = add_follow(facts, a, behind);
            add_follow(facts, b, behind) | grew
        }
        Rule::Star(a) => {
            let first = facts_of(facts.as_slice(), a).first;
            add_follow(facts, a, first.union(behind))
        }
    }
}

/// What may stand before a part and behind the one before it, if these tokens may stand behind it.
fn before_part(facts: &[Facts], number: usize, behind: TokenSet) -> TokenSet
    ensures { (rules : List Rule) (i a : ℕ) → HasRule rules i (Seq a number)
        → AreSo rules facts.now
        → ((kind : ℕ) → has behind.0 kind ≡ true → MayFollow rules kind i)
        → (kind : ℕ) → has result.0 kind ≡ true → MayFollow rules kind a }
{
    let right = facts_of(facts, number);
    if right.may_be_empty {
        return right.first.union(behind);
    }
    right.first
}

/// The steps that a rule needs where the next token does not begin it, or nothing where those of
/// its parts are not known yet.
fn idle_needed(facts: &[Facts], rule: Rule) -> Option<u64> {
    match rule {
        Rule::Empty | Rule::Token(_) | Rule::Optional(_) | Rule::Star(_) => Some(1),
        Rule::Node(_, a) | Rule::Wrap(_, a) | Rule::Chain(a) => {
            Some(2 + known(facts_of(facts, a).idle)?)
        }
        Rule::Seq(a, b) => {
            let left = known(facts_of(facts, a).idle)?;
            Some(1 + left + known(facts_of(facts, b).idle)?)
        }
        Rule::Choice(a, b) => {
            let left = passing_needed(facts, a)?;
            Some(1 + left.max(passing_needed(facts, b)?))
        }
    }
}

/// A number of steps, which is 0 where it is not known.
fn known(steps: u32) -> Option<u64>
    ensures { IfSome result (λ steps. steps < 2 ^ 32) }
{
    if steps == 0 {
        return None;
    }
    Some(u64::from(steps))
}

/// The steps for a rule where it is empty.
fn passing_needed(facts: &[Facts], number: usize) -> Option<u64>
    ensures { IfSome result (λ steps. steps < 2 ^ 32) }
{
    let found = facts_of(facts, number);
    if found.may_be_empty {
        return known(found.idle);
    }
    Some(0)
}

/// The steps that a rule needs where the next token begins it.
fn busy_needed(facts: &[Facts], number: usize, rule: Rule) -> Option<u64> {
    let idle = known(facts_of(facts, number).idle)?;
    let needed = match rule {
        Rule::Empty | Rule::Token(_) => 0,
        Rule::Node(_, a) | Rule::Wrap(_, a) | Rule::Chain(a) => 2 + known(facts_of(facts, a).busy)?,
        Rule::Seq(a, b) => seq_needed(facts_of(facts, a), facts_of(facts, b))?,
        Rule::Choice(a, b) => {
            let left = known(facts_of(facts, a).busy)?;
            1 + left.max(known(facts_of(facts, b).busy)?)
        }
        Rule::Optional(a) => 1 + known(facts_of(facts, a).busy)?,
        Rule::Star(a) => 1 + known(facts_of(facts, a).busy)? + idle,
    };
    Some(needed.max(1 + idle))
}

/// The steps that one part and then the other need, where the next token begins them.
fn seq_needed(left: Facts, right: Facts) -> Option<u64>
    ensures { IfSome result (λ steps. steps < 2 ^ 34) }
{
    let early = 1 + known(left.busy)? + known(right.idle)?;
    if left.may_be_empty {
        let late = 1 + known(left.idle)? + known(right.busy)?;
        return Some(early.max(late));
    }
    Some(early)
}

/// Notes the steps of a rule, where those of its parts are known, and says whether this is new.
fn note_idle(facts: &mut Vec<Facts>, number: usize, rule: Rule) -> bool
    ensures { (rules : List Rule) → AreSo rules facts.old.items → AreSo rules facts.new.items }
{
    let needed = idle_needed(facts.as_slice(), rule);
    let Some(found) = facts.get_mut(number) else {
        return false;
    };
    if found.idle != 0 {
        return false;
    }
    found.idle = small(needed);
    found.idle != 0
}

fn note_busy(facts: &mut Vec<Facts>, number: usize, rule: Rule) -> bool
    ensures { (rules : List Rule) → AreSo rules facts.old.items → AreSo rules facts.new.items }
{
    let needed = busy_needed(facts.as_slice(), number, rule);
    let Some(found) = facts.get_mut(number) else {
        return false;
    };
    if found.busy != 0 {
        return false;
    }
    found.busy = small(needed);
    found.busy != 0
}

/// A number of steps, and 0 where it is not known or too large.
fn small(steps: Option<u64>) -> u32 {
    match steps {
        None => 0,
        Some(steps) => match u32::try_from(steps) {
            Ok(steps) => steps,
            Err(_) => 0,
        },
    }
}

/// How often rules are looked at, at most: each of so many finds something new at most 129 times,
/// and then those that it names or that name it, two for each, are looked at once more.
fn most_looks(rules: &[Rule]) -> usize {
    rules.len().saturating_mul(300)
}

/// Finds by which tokens each rule may begin: from its parts, the last rule first.
fn find_firsts(
    alloc: Global,
    facts: &mut Vec<Facts>,
    rules: &[Rule],
    users: &Users,
) -> Result<(), AllocError>
    requires { AreSo rules.now facts.old.items }
    ensures { AreSo rules.now facts.new.items }
{
    let mut waiting = Waiting::all(alloc, rules.len())?;
    for _look in 0..most_looks(rules) {
        let Some(number) = waiting.next() else {
            break;
        };
        if look_begun(facts, rules, number) {
            waiting.add_all(users.of(number))?;
        }
    }
    Ok(())
}

/// Finds which tokens may stand behind each rule: from the rules that name it, the first one last.
fn find_follows(alloc: Global, facts: &mut Vec<Facts>, rules: &[Rule]) -> Result<(), AllocError>
    requires { AreSo rules.now facts.old.items }
    ensures { AreSo rules.now facts.new.items }
{
    let mut waiting = Waiting::all(alloc, rules.len())?;
    for _look in 0..most_looks(rules) {
        let Some(number) = waiting.next() else {
            break;
        };
        if look_follow(facts, rules, number) {
            waiting.add_parts(rules, number)?;
        }
    }
    Ok(())
}

/// Finds how many steps each rule takes: from its parts.
fn find_steps(
    alloc: Global,
    facts: &mut Vec<Facts>,
    rules: &[Rule],
    users: &Users,
) -> Result<(), AllocError>
    requires { AreSo rules.now facts.old.items }
    ensures { AreSo rules.now facts.new.items }
{
    let mut waiting = Waiting::all(alloc, rules.len())?;
    for _look in 0..most_looks(rules) {
        let Some(number) = waiting.next() else {
            break;
        };
        if look_steps(facts, rules, number) {
            waiting.add_all(users.of(number))?;
        }
    }
    Ok(())
}

/// Looks at a rule, and says whether something is new.
fn look_begun(facts: &mut Vec<Facts>, rules: &[Rule], number: usize) -> bool
    requires { AreSo rules.now facts.old.items }
    ensures { AreSo rules.now facts.new.items }
{
    match rules.get(number) {
        None => false,
        Some(rule) => note_begun(facts, number, *rule),
    }
}

fn look_follow(facts: &mut Vec<Facts>, rules: &[Rule], number: usize) -> bool
    requires { AreSo rules.now facts.old.items }
    ensures { AreSo rules.now facts.new.items }
{
    match rules.get(number) {
        None => false,
        Some(rule) => note_follow(facts, number, *rule),
    }
}

fn look_steps(facts: &mut Vec<Facts>, rules: &[Rule], number: usize) -> bool
    requires { AreSo rules.now facts.old.items }
    ensures { AreSo rules.now facts.new.items }
{
    match rules.get(number) {
        None => false,
        Some(rule) => {
            let is_new = note_idle(facts, number, *rule);
            note_busy(facts, number, *rule) | is_new
        }
    }
}

/// What is found of rules: first by which tokens they begin, then which may stand behind them, then
/// their steps. The work is linear in the rules, whatever their order.
pub(crate) fn find_facts(alloc: Global, rules: &[Rule]) -> Result<Vec<Facts>, AllocError>
    ensures { IfOk result (λ facts. AreSo rules.now facts.items) }
{
    let mut facts = Vec::with_capacity(alloc, rules.len())?;
    for _rule in rules {
        facts.push(NOTHING)?;
    }
    let users = Users::new(alloc, rules)?;
    find_firsts(alloc, &mut facts, rules, &users)?;
    find_follows(alloc, &mut facts, rules)?;
    find_steps(alloc, &mut facts, rules, &users)?;
    Ok(facts)
}

/// The steps for a token: the most that a rule takes until the token is taken.
pub(crate) fn steps_per_token(facts: &[Facts]) -> u32 {
    let mut most = 1;
    for found in facts {
        most = found.busy.max(most);
    }
    most
}
