//! What can be wrong with kinds, with sets of tokens and with traits.
use crate::checks::Checker;
use rowan_grammar_calls::reach::set;
use rowan_grammar_calls::shared::{can_share, shared_of};
use rowan_grammar_model::forms::Forms;
use rowan_grammar_model::grammar::{Grammar, Sort, kinds_of};
use rowan_parser::Severity;
use std::alloc::AllocError;

/// How many kinds a language may have.
const MAX_KINDS: usize = 65536;

/// How many kinds a `TokenSet` takes.
pub const MAX_TOKENS: usize = 128;

impl Checker<'_> {
    /// A kind has 16 bits. A token that no `TokenSet` takes is worth a warning.
    pub fn check_kinds(&mut self, grammar: &Grammar) -> Result<(), AllocError> {
        let kinds = kinds_of(self.alloc, grammar)?;
        let count = kinds.len();
        if let Some(index) = kinds.get(MAX_KINDS) {
            let message = format!(in self.alloc;
                "a language has at most {MAX_KINDS} kinds, and this one {count}"
            )?;
            self.error(grammar.range(*index), message)?;
        }
        match kinds.get(MAX_TOKENS) {
            Some(index) if grammar.sort(*index).is_token() => {
                let message = format!(in self.alloc;
                    "a `TokenSet` takes the first {MAX_TOKENS} tokens, and not this one"
                )?;
                self.add(Severity::Warning, grammar.range(*index), message)
            }
            _ => Ok(()),
        }
    }

    /// A set has tokens that a `TokenSet` takes.
    pub fn check_sets(&mut self, grammar: &Grammar) -> Result<(), AllocError> {
        let mut is_taken: Vec<bool> = vec![in self.alloc; false; grammar.items.len()]?;
        for index in kinds_of(self.alloc, grammar)?.iter().take(MAX_TOKENS) {
            set(&mut is_taken, *index);
        }
        for item in grammar.items.iter() {
            if item.sort != Sort::Set {
                continue;
            }
            for used in item.alternatives.iter() {
                if !is_taken.get(used.item).copied().unwrap_or(false) {
                    let message = format!(in self.alloc;
                        "a `TokenSet` takes the first {MAX_TOKENS} tokens, and not this one"
                    )?;
                    self.error(used.range, message)?;
                }
            }
        }
        Ok(())
    }

    /// A trait has parts that some node has, and that no index tells apart.
    pub fn check_traits(&mut self, grammar: &Grammar) -> Result<(), AllocError> {
        self.traits = shared_of(self.alloc, grammar, self.calls.as_slice())?;
        for number in 0..self.traits.len() {
            let Some((item, is_idle)) = self.trait_at(number) else {
                break;
            };
            self.check_alike(item)?;
            if is_idle {
                let name = grammar.name(item);
                let message = format!(in self.alloc;
                    "no wrapper has all parts of `{name}`, each with a wrapper"
                )?;
                self.error(grammar.range(item), message)?;
            }
        }
        Ok(())
    }

    /// The item of the trait with this number, and whether nothing has it.
    fn trait_at(&self, number: usize) -> Option<(usize, bool)> {
        let shared = self.traits.get(number)?;
        Some((shared.item, shared.forms == Forms::NONE))
    }

    /// No part of a trait may be alike.
    fn check_alike(&mut self, item: usize) -> Result<(), AllocError> {
        let Some(calls) = self.calls.get(item) else {
            return Ok(());
        };
        let Some(call) = calls.calls.iter().find(|call| !can_share(call.gives)) else {
            return Ok(());
        };
        let range = call.range;
        let message = "parts of a trait may not be alike, nor one of several tokens";
        self.error(range, String::from_str(self.alloc, message)?)
    }
}
