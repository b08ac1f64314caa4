//! All that is wrong with rules, for those who write grammars.
ghost use Rattle.std.specs.Prelude.{◌≡◌, [], Some, slice_get, IsNone, IfSome, IfOk, OnOk};
ghost use Rattle.std.specs.List.{All};
ghost use Rattle.rowan_predictive.specs.declared.rules.Entry.{Entry};
ghost use Rattle.rowan_predictive.specs.Causes.{IsAmong, IsConflict, IsKnown, IsPartOf, MayBegin};
ghost use Rattle.rowan_predictive.specs.Causes.{WhyNoGrammar};
ghost use Rattle.rowan_predictive.specs.Predictive.{IsFit, IsPredictive};
ghost use Rattle.rowan_predictive.specs.View.{IsGrammar, rules_of};

use crate::choice::first;
use crate::costs::is_bounded;
use crate::finding::{find_facts, steps_per_token};
use crate::making::entries_of;
use crate::refusals::{GrammarError, check_rules, explain_rule, explain_steps};
use crate::rules::{Entry, Rule};
use crate::testing::is_fit_at;
use rowan::SyntaxKind;
use std::alloc::{AllocError, Global};

/// A rule, if it may begin by this token.
fn if_begun(entries: &[Entry], number: usize, kind: u16) -> Option<usize>
    requires { IsKnown entries.now }
    ensures { IfSome result (λ j. (j ≡ number) × MayBegin (rules_of entries.now) kind number) }
{
    if first(entries, number).contains(SyntaxKind(kind)) {
        return Some(number);
    }
    None
}

/// The part of a choice that begins by this token. Of another rule there is none.
fn begun_part(entries: &[Entry], number: usize, kind: u16) -> Option<usize>
    requires { IsKnown entries.now }
    ensures { IfSome result (λ part. IsPartOf (rules_of entries.now) number part
        × MayBegin (rules_of entries.now) kind part) }
{
    let entry = entries.get(number)?;
    let Rule::Choice(a, b) = entry.rule else {
        return None;
    };
    match if_begun(entries, a, kind) {
        Some(part) => Some(part),
        None => if_begun(entries, b, kind),
    }
}

/// What is behind choices of choices where this is the next token.
fn chosen(entries: &[Entry], number: usize, kind: u16) -> usize
    requires { IsKnown entries.now }
    ensures way { IsAmong (rules_of entries.now) number result }
    ensures begins { MayBegin (rules_of entries.now) kind number
        → MayBegin (rules_of entries.now) kind result }
{
    let mut at = number;
    for _step in 0..entries.len() {
        match begun_part(entries, at, kind) {
            Some(part) => at = part,
            None => break,
        }
    }
    at
}

/// The error with what is chosen in the end in place of choices.
fn narrowed(entries: &[Entry], error: GrammarError) -> GrammarError
    requires { IsKnown entries.now }
    ensures { WhyNoGrammar (rules_of entries.now) error
        → IsConflict (rules_of entries.now) result }
{
    match error {
        GrammarError::BeginsBoth {
            rule,
            first,
            second,
            kind,
        } => GrammarError::BeginsBoth {
            rule,
            first: chosen(entries, first, kind),
            second: chosen(entries, second, kind),
            kind,
        },
        other => other,
    }
}

/// Why the next token does not say what to do at a rule, if it does not.
fn conflict_at(entries: &[Entry], number: usize) -> Option<GrammarError>
    requires { IsKnown entries.now }
    ensures none { IsNone result → (entry : Entry) → slice_get entries.now number ≡ Some entry
        → IsFit entries.now number entry.rule }
    ensures some { IfSome result (IsConflict (rules_of entries.now)) }
{
    if is_fit_at(entries, number) {
        return None;
    }
    let entry = entries.get(number)?;
    let error = explain_rule(entries, number, entry.rule);
    Some(narrowed(entries, error))
}

/// Adds what there is of that.
fn add_conflicts(found: &mut Vec<GrammarError>, entries: &[Entry]) -> Result<(), AllocError>
    requires { IsKnown entries.now }
    ensures none { OnOk result (found.new.items ≡ [] → IsPredictive entries.now) }
    ensures causes { OnOk result (All (IsConflict (rules_of entries.now)) found.old.items
        → All (IsConflict (rules_of entries.now)) found.new.items) }
{
    for number in 0..entries.len() {
        if let Some(error) = conflict_at(entries, number) {
            found.push(error)?;
        }
    }
    Ok(())
}

/// Why `Grammar::new` refuses rules: each rule at which the next token does not say what to do. The
/// rules that `BeginsBoth` names are no choices, but what is chosen in the end. Where a rule names
/// one that is not there, and where rules need each other or begin with each other, that alone is
/// told. Where nothing is told, the next token always says what to do.
///
/// Errors: `AllocError` if an allocation failed.
pub fn conflicts_of(alloc: Global, rules: &[Rule]) -> Result<Vec<GrammarError>, AllocError>
    ensures none { IfOk result (λ found. found.items ≡ [] → IsGrammar rules.now) }
    ensures causes { IfOk result (λ found. All (IsConflict rules.now) found.items) }
{
    let mut found: Vec<GrammarError> = Vec::new(alloc);
    if let Err(error) = check_rules(rules) {
        found.push(error)?;
        return Ok(found);
    }
    let facts = find_facts(alloc, rules)?;
    let entries = entries_of(alloc, rules, facts.as_slice())?;
    let entries = entries.as_slice();
    if let Some(error) = explain_steps(alloc, entries)? {
        found.push(error)?;
        return Ok(found);
    }
    add_conflicts(&mut found, entries)?;
    if found.is_empty() && !is_bounded(entries, steps_per_token(facts.as_slice())) {
        found.push(GrammarError::TooLarge { rule: 0 })?;
    }
    Ok(found)
}
