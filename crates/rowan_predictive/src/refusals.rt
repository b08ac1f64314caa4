//! Why rules are no grammar, so that a message can say it.
ghost use Rattle.std.specs.Prelude.{◌≡◌, ◌≤◌, true, length, List, IsTrue, IfErr, IfOk, IfSome};
ghost use Rattle.std.specs.Prelude.{Some};
ghost use Rattle.rowan_events.specs.Seen.{has};
ghost use Rattle.rowan_predictive.specs.declared.refusals.GrammarError.TheVariants.{Memory};
ghost use Rattle.rowan_predictive.specs.declared.rules.Rule.{Rule};
ghost use Rattle.rowan_predictive.specs.declared.rules.Rule.TheVariants.{Token};
ghost use Rattle.rowan_predictive.specs.Causes.{Names, StartsWith, Needs, IsNullable, MayBegin};
ghost use Rattle.rowan_predictive.specs.Causes.{LeadsTo};
ghost use Rattle.rowan_predictive.specs.Causes.{IsKnown, way_of, IsCycle, IsEmptyTwice};
ghost use Rattle.rowan_predictive.specs.Causes.{IsBothSides};
ghost use Rattle.rowan_predictive.specs.Causes.{WhyNoGrammar};
ghost use Rattle.rowan_predictive.specs.Derivations.{HasRule};
ghost use Rattle.rowan_predictive.specs.View.{rules_of};

use crate::choice::{first, follow, may_be_empty};
use crate::rules::{Entry, Rule};
use crate::testing::is_fit;
use rowan::SyntaxKind;
use rowan_parser::TokenSet;
use std::alloc::{AllocError, Global};
use thiserror::Error;

/// Why rules are no grammar for which the next token alone says what to do.
#[derive(Debug, Drop, Error)]
pub enum GrammarError {
    /// A rule names a rule that is not there.
    #[error("rule {rule} names rule {part}, which is not there")]
    NoRule {
        rule: usize,
        part: usize,
    },
    /// A rule takes a token of a kind of 128 or more.
    #[error("rule {rule} takes a token of kind {kind}, and kinds of tokens are below 128")]
    KindTooLarge {
        rule: usize,
        kind: u16,
    },
    /// Each rule of the cycle needs the next one, and the last one the first, so that they derive
    /// no tokens at all.
    #[error("rules need each other without an end: {cycle:?}")]
    Endless {
        cycle: Vec<usize>,
    },
    /// Each rule of the cycle may begin with the next one, and the last one with the first.
    #[error("rules begin with each other: {cycle:?}")]
    LeftRecursion {
        cycle: Vec<usize>,
    },
    /// A token begins both rules of a choice.
    #[error("token {kind} begins rules {first} and {second}, and rule {rule} is one of them")]
    BeginsBoth {
        rule: usize,
        first: usize,
        second: usize,
        kind: u16,
    },
    /// A token begins a rule that may be left out, and may stand behind it.
    #[error("token {kind} begins rule {rule}, which may be left out, and may stand behind it")]
    BeginsAndFollows {
        rule: usize,
        kind: u16,
    },
    /// A rule derives nothing in two ways: both parts of a choice do, or what is optional or may
    /// stand any number of times does.
    #[error("rule {rule} may be empty in two ways")]
    EmptyTwice {
        rule: usize,
    },
    /// A rule takes more than 4,294,967,295 steps for no token.
    #[error("rule {rule} has too many parts")]
    TooLarge {
        rule: usize,
    },
    /// An allocation failed.
    #[error("out of memory")]
    Memory,
}

impl From<AllocError> for GrammarError {
    ghost from_gives = { λ _ e. e ≡ Memory };

    fn from(_error: AllocError) -> GrammarError {
        GrammarError::Memory
    }
}

/// The rules that a rule names.
pub(crate) fn parts_of(rule: Rule) -> (Option<usize>, Option<usize>)
    ensures { (rules : List Rule) → IfSome result.0 (Names rules rule)
        × IfSome result.1 (Names rules rule) }
{
    match rule {
        Rule::Empty => (None, None),
        Rule::Token(_) => (None, None),
        Rule::Node(_, a) => (Some(a), None),
        Rule::Chain(a) => (Some(a), None),
        Rule::Wrap(_, a) => (Some(a), None),
        Rule::Optional(a) => (Some(a), None),
        Rule::Star(a) => (Some(a), None),
        Rule::Seq(a, b) => (Some(a), Some(b)),
        Rule::Choice(a, b) => (Some(a), Some(b)),
    }
}

/// A part, if there is no such rule.
fn missing(rules: &[Rule], part: Option<usize>) -> Option<usize>
    ensures { IfSome result (λ j. (part ≡ Some j) × (length rules.now ≤ j)) }
{
    let part = part?;
    if part < rules.len() {
        return None;
    }
    Some(part)
}

/// The kind of the token that a rule takes, if it is in no set.
fn large_kind(rule: Rule) -> Option<u16>
    ensures { IfSome result (λ kind. (rule ≡ Token kind) × (128 ≤ kind)) }
{
    match rule {
        Rule::Token(kind) if kind >= 128 => Some(kind),
        _ => None,
    }
}

/// Refuses a rule with a part that is not there, or with a kind that is in no set.
fn check_rule(rules: &[Rule], number: usize, rule: Rule) -> Result<(), GrammarError>
    ensures { HasRule rules.now number rule → IfErr result (WhyNoGrammar rules.now) }
{
    if let Some(kind) = large_kind(rule) {
        return Err(GrammarError::KindTooLarge { rule: number, kind });
    }
    let (first, second) = parts_of(rule);
    if let Some(part) = missing(rules, first) {
        return Err(GrammarError::NoRule { rule: number, part });
    }
    if let Some(part) = missing(rules, second) {
        return Err(GrammarError::NoRule { rule: number, part });
    }
    Ok(())
}

/// Refuses rules of which one has a part that is not there, or a kind that is in no set.
pub(crate) fn check_rules(rules: &[Rule]) -> Result<(), GrammarError>
    ensures { IfErr result (WhyNoGrammar rules.now) }
{
    for (number, rule) in rules.iter().enumerate() {
        check_rule(rules, number, *rule)?;
    }
    Ok(())
}

/// A rule, if it may be empty.
fn if_empty(entries: &[Entry], number: usize) -> Option<usize>
    requires { IsKnown entries.now }
    ensures { IfSome result (λ j. (j ≡ number) × IsNullable (rules_of entries.now) number) }
{
    if may_be_empty(entries, number) {
        return Some(number);
    }
    None
}

/// The parts of a rule that are expected where the next token does not begin it.
fn needed_parts(entries: &[Entry], rule: Rule) -> (Option<usize>, Option<usize>)
    requires { IsKnown entries.now }
    ensures { IfSome result.0 (Needs (rules_of entries.now) rule)
        × IfSome result.1 (Needs (rules_of entries.now) rule) }
{
    match rule {
        Rule::Empty => (None, None),
        Rule::Token(_) => (None, None),
        Rule::Optional(_) => (None, None),
        Rule::Star(_) => (None, None),
        Rule::Node(_, a) => (Some(a), None),
        Rule::Chain(a) => (Some(a), None),
        Rule::Wrap(_, a) => (Some(a), None),
        Rule::Seq(a, b) => (Some(a), Some(b)),
        Rule::Choice(a, b) => (if_empty(entries, a), if_empty(entries, b)),
    }
}

/// The parts of a rule by which it may begin.
fn first_parts(entries: &[Entry], rule: Rule) -> (Option<usize>, Option<usize>)
    requires { IsKnown entries.now }
    ensures { IfSome result.0 (StartsWith (rules_of entries.now) rule)
        × IfSome result.1 (StartsWith (rules_of entries.now) rule) }
{
    match rule {
        Rule::Empty => (None, None),
        Rule::Token(_) => (None, None),
        Rule::Node(_, a) => (Some(a), None),
        Rule::Chain(a) => (Some(a), None),
        Rule::Wrap(_, a) => (Some(a), None),
        Rule::Optional(a) => (Some(a), None),
        Rule::Star(a) => (Some(a), None),
        Rule::Choice(a, b) => (Some(a), Some(b)),
        Rule::Seq(a, b) => (Some(a), behind_empty(entries, a, b)),
    }
}

/// A rule, if the one before it may be empty.
fn behind_empty(entries: &[Entry], before: usize, number: usize) -> Option<usize>
    requires { IsKnown entries.now }
    ensures { IfSome result (λ j. (j ≡ number) × IsNullable (rules_of entries.now) before) }
{
    if may_be_empty(entries, before) {
        return Some(number);
    }
    None
}

/// Which of two questions about steps a rule has no answer to.
#[derive(Clone, Copy)]
pub(crate) enum Steps {
    Idle,
    Busy,
}

/// Whether the steps of a rule are not known.
fn is_unknown(entries: &[Entry], steps: Steps, number: usize) -> bool {
    match entries.get(number) {
        None => false,
        Some(entry) => match steps {
            Steps::Idle => entry.facts.idle == 0,
            Steps::Busy => entry.facts.busy == 0,
        },
    }
}

/// The parts of a rule that its steps count.
fn counted_parts(entries: &[Entry], steps: Steps, rule: Rule) -> (Option<usize>, Option<usize>)
    requires { IsKnown entries.now }
    ensures { IfSome result.0 (way_of steps (rules_of entries.now) rule)
        × IfSome result.1 (way_of steps (rules_of entries.now) rule) }
{
    match steps {
        Steps::Idle => needed_parts(entries, rule),
        Steps::Busy => first_parts(entries, rule),
    }
}

/// A rule, if its steps are not known.
fn if_unknown(entries: &[Entry], steps: Steps, part: Option<usize>) -> Option<usize>
    ensures { IfSome result (λ j. part ≡ Some j) }
{
    let part = part?;
    if is_unknown(entries, steps, part) {
        return Some(part);
    }
    None
}

/// A part of a rule because of which its steps are not known.
fn unknown_part(entries: &[Entry], steps: Steps, number: usize) -> Option<usize>
    requires { IsKnown entries.now }
    ensures { IfSome result (LeadsTo (way_of steps) (rules_of entries.now) number) }
{
    let entry = entries.get(number)?;
    let (first, second) = counted_parts(entries, steps, entry.rule);
    match if_unknown(entries, steps, first) {
        Some(part) => Some(part),
        None => if_unknown(entries, steps, second),
    }
}

/// The first rule whose steps are not known.
fn first_unknown(entries: &[Entry], steps: Steps) -> Option<usize> {
    for number in 0..entries.len() {
        if is_unknown(entries, steps, number) {
            return Some(number);
        }
    }
    None
}

/// A rule whose steps are not known, as far behind this one as there are rules. It lies on a cycle,
/// if there is one.
fn rule_behind(entries: &[Entry], steps: Steps, number: usize) -> Option<usize>
    requires { IsKnown entries.now }
{
    let mut at = number;
    for _step in 0..entries.len() {
        at = unknown_part(entries, steps, at)?;
    }
    Some(at)
}

/// A cycle of rules whose steps are not known, from one of them on.
fn cycle_from(
    alloc: Global,
    entries: &[Entry],
    steps: Steps,
    first: usize,
) -> Result<Option<Vec<usize>>, AllocError>
    requires { IsKnown entries.now }
    ensures { IfOk result (λ found. IfSome found (λ cycle.
        IsCycle (way_of steps) (rules_of entries.now) cycle.items)) }
{
    let mut cycle = Vec::new(alloc);
    let mut at = first;
    for _step in 0..entries.len() {
        cycle.push(at)?;
        match unknown_part(entries, steps, at) {
            None => return Ok(None),
            Some(part) => at = part,
        }
        if at == first {
            return Ok(Some(cycle));
        }
    }
    Ok(None)
}

/// A cycle of rules whose steps are not known, which this one leads to. There is none where the
/// steps are too many, and so not known.
fn cycle_behind(
    alloc: Global,
    entries: &[Entry],
    steps: Steps,
    number: usize,
) -> Result<Option<Vec<usize>>, AllocError>
    requires { IsKnown entries.now }
    ensures { IfOk result (λ found. IfSome found (λ cycle.
        IsCycle (way_of steps) (rules_of entries.now) cycle.items)) }
{
    match rule_behind(entries, steps, number) {
        None => Ok(None),
        Some(first) => cycle_from(alloc, entries, steps, first),
    }
}

/// Why the steps of rules are not known, if those of one are not.
pub(crate) fn explain_steps(
    alloc: Global,
    entries: &[Entry],
) -> Result<Option<GrammarError>, AllocError>
    requires { IsKnown entries.now }
    ensures { IfOk result (λ found. IfSome found (WhyNoGrammar (rules_of entries.now))) }
{
    if let Some(rule) = first_unknown(entries, Steps::Idle) {
        return match cycle_behind(alloc, entries, Steps::Idle, rule)? {
            None => Ok(Some(GrammarError::TooLarge { rule })),
            Some(cycle) => Ok(Some(GrammarError::Endless { cycle })),
        };
    }
    if let Some(rule) = first_unknown(entries, Steps::Busy) {
        return match cycle_behind(alloc, entries, Steps::Busy, rule)? {
            None => Ok(Some(GrammarError::TooLarge { rule })),
            Some(cycle) => Ok(Some(GrammarError::LeftRecursion { cycle })),
        };
    }
    Ok(None)
}

/// The first kind that is in both sets.
fn shared_kind(kinds: TokenSet, others: TokenSet) -> Option<u16>
    ensures { IfSome result (λ kind. (has kinds.0 kind ≡ true) × (has others.0 kind ≡ true)) }
{
    for kind in 0..128u16 {
        if kinds.contains(SyntaxKind(kind)) && others.contains(SyntaxKind(kind)) {
            return Some(kind);
        }
    }
    None
}

/// Whether a rule derives nothing in two ways.
fn is_empty_twice(entries: &[Entry], rule: Rule) -> bool
    requires { IsKnown entries.now }
    ensures { IsTrue result → IsEmptyTwice (rules_of entries.now) rule }
{
    match rule {
        Rule::Choice(a, b) => may_be_empty(entries, a) && may_be_empty(entries, b),
        Rule::Optional(a) => may_be_empty(entries, a),
        Rule::Star(a) => may_be_empty(entries, a),
        _ => false,
    }
}

/// A token that begins both of two rules.
fn begins_both(entries: &[Entry], a: usize, b: usize) -> Option<u16>
    requires { IsKnown entries.now }
    ensures { IfSome result (λ kind. MayBegin (rules_of entries.now) kind a
        × MayBegin (rules_of entries.now) kind b) }
{
    shared_kind(first(entries, a), first(entries, b))
}

/// A token that begins a rule that may be left out, and may stand behind it.
fn begins_and_follows(entries: &[Entry], number: usize) -> Option<u16>
    requires { IsKnown entries.now }
    ensures { IfSome result (IsBothSides (rules_of entries.now) number) }
{
    if may_be_empty(entries, number) {
        return shared_kind(first(entries, number), follow(entries, number));
    }
    None
}

/// Why the next token does not say what to do at a rule.
pub(crate) fn explain_rule(entries: &[Entry], number: usize, rule: Rule) -> GrammarError
    requires { IsKnown entries.now }
    ensures { HasRule (rules_of entries.now) number rule
        → WhyNoGrammar (rules_of entries.now) result }
{
    if let Rule::Choice(a, b) = rule {
        if let Some(kind) = begins_both(entries, a, b) {
            return GrammarError::BeginsBoth {
                rule: number,
                first: a,
                second: b,
                kind,
            };
        }
    }
    if is_empty_twice(entries, rule) {
        return GrammarError::EmptyTwice { rule: number };
    }
    match begins_and_follows(entries, number) {
        Some(kind) => GrammarError::BeginsAndFollows { rule: number, kind },
        None => GrammarError::TooLarge { rule: number },
    }
}

/// Why these rules are no grammar, where a test of what was found of them said no.
pub(crate) fn explain(alloc: Global, entries: &[Entry]) -> Result<GrammarError, AllocError>
    requires { IsKnown entries.now }
    ensures { IfOk result (WhyNoGrammar (rules_of entries.now)) }
{
    if let Some(error) = explain_steps(alloc, entries)? {
        return Ok(error);
    }
    for (number, entry) in entries.iter().enumerate() {
        if !is_fit(entries, number, entry.rule) {
            return Ok(explain_rule(entries, number, entry.rule));
        }
    }
    Ok(GrammarError::TooLarge { rule: 0 })
}
