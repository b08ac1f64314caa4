//! From rules to the grammar that they are.
ghost use Rattle.std.specs.Prelude.{◌≡◌, IfOk, IfErr};
ghost use Rattle.rowan_predictive.specs.Causes.{AreSo, AreKnown, WhyNoGrammar};
ghost use Rattle.rowan_predictive.specs.View.{rules_of, rules_in};

use crate::costs::is_bounded;
use crate::finding::{facts_of, find_facts, steps_per_token};
use crate::grammars::Grammar;
use crate::refusals::{GrammarError, check_rules, explain};
use crate::rules::{Entry, Facts, Rule};
use crate::testing::is_predictive;
use std::alloc::{AllocError, Global};

/// Each rule with what was found of it.
pub(crate) fn entries_of(
    alloc: Global,
    rules: &[Rule],
    facts: &[Facts],
) -> Result<Vec<Entry>, AllocError>
    requires { AreSo rules.now facts.now }
    ensures rules { IfOk result (λ entries. rules_of entries.items ≡ rules.now) }
    ensures known { IfOk result (λ entries. AreKnown rules.now entries.items) }
{
    let mut entries = Vec::with_capacity(alloc, rules.len())?;
    for rule in rules {
        let facts = facts_of(facts, entries.len());
        entries.push(Entry { rule: *rule, facts })?;
    }
    Ok(entries)
}

impl Grammar {
    /// Finds by which tokens rules begin and which may stand behind them, and tests that the next
    /// token always says what to do.
    ///
    /// Errors: `NoRule` and `KindTooLarge` if a rule names what there is not; `Endless` and
    /// `LeftRecursion` with a cycle of rules; `BeginsBoth`, `BeginsAndFollows` and `EmptyTwice`
    /// where the next token does not say what to do; `TooLarge` if a rule has too many parts;
    /// `Memory` if an allocation failed.
    pub fn new(alloc: Global, rules: &[Rule]) -> Result<Grammar, GrammarError>
        ensures ok { IfOk result (λ grammar. rules_in grammar ≡ rules.now) }
        ensures err { IfErr result (WhyNoGrammar rules.now) }
    {
        check_rules(rules)?;
        let facts = find_facts(alloc, rules)?;
        let per_token = steps_per_token(facts.as_slice());
        let entries = entries_of(alloc, rules, facts.as_slice())?;
        if is_predictive(entries.as_slice()) && is_bounded(entries.as_slice(), per_token) {
            return Ok(Grammar { entries, per_token });
        }
        let error = explain(alloc, entries.as_slice())?;
        Err(error)
    }
}
