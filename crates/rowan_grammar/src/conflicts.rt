//! Where the next token does not say to a parser what to do, as messages.
use crate::checks::{Checker, way_around};
use crate::rules::{Of, Rules};
use rowan::TextRange;
use rowan_grammar_calls::rings::Ring;
use rowan_grammar_model::grammar::Grammar;
use rowan_grammar_model::place::text_at;
use rowan_predictive::GrammarError;
use std::alloc::{AllocError, Global};

/// How many characters of a part a message shows.
const MAX_SHOWN: usize = 40;

impl Checker<'_> {
    /// Says what is in the way of a parser by these rules.
    pub fn tell_conflict(
        &mut self,
        grammar: &Grammar,
        kinds: &[usize],
        rules: &Rules,
        error: &GrammarError,
    ) -> Result<(), AllocError> {
        let alloc = self.alloc;
        match error {
            GrammarError::BeginsBoth {
                rule,
                first,
                second,
                kind,
            } => {
                let token = self.token(grammar, kinds, *kind)?;
                let one = self.shown(grammar, rules, *first)?;
                let other = self.shown(grammar, rules, *second)?;
                let message = format!(in alloc;
                    "{token} begins {one} and {other}: write what both begin with once, before the \
                    choice"
                )?;
                self.error(rules.origin(*rule).range, message)
            }
            GrammarError::BeginsAndFollows { rule, kind } => {
                let token = self.token(grammar, kinds, *kind)?;
                self.tell_follow(grammar, rules, *rule, token.as_str())
            }
            GrammarError::EmptyTwice { rule } => {
                let part = self.shown(grammar, rules, *rule)?;
                let message = format!(in alloc;
                    "{part} may be empty in two ways: leave a `?` or a `*` out"
                )?;
                self.error_once(rules.origin(*rule).range, message)
            }
            GrammarError::LeftRecursion { cycle } => {
                self.tell_cycle(grammar, rules, cycle, "begins with")
            }
            GrammarError::Endless { cycle } => self.tell_cycle(grammar, rules, cycle, "needs"),
            _ => self.tell_size(rules),
        }
    }

    /// An error, unless the last one says the same of the same place.
    fn error_once(&mut self, range: TextRange, message: String) -> Result<(), AllocError> {
        match self.problems.last() {
            Some(last) if last.range == range && last.message == message => Ok(()),
            _ => self.error(range, message),
        }
    }

    /// Tells a part that may be left out, or come again, before a token that begins it.
    fn tell_follow(
        &mut self,
        grammar: &Grammar,
        rules: &Rules,
        rule: usize,
        token: &str,
    ) -> Result<(), AllocError> {
        let alloc = self.alloc;
        let origin = rules.origin(rule);
        let message = match origin.of {
            Of::Operators(choice) => {
                let name = grammar.name(choice);
                format!(in alloc;
                    "{token} may go on with `{name}`, and may stand behind it: what stands right of an \
                    operator has to bind more tightly, as `rhs:Term`"
                )?
            }
            _ => {
                let part = self.shown(grammar, rules, rule)?;
                format!(in alloc;
                    "{token} begins {part}, which may be left out here, and may stand behind it: end it \
                    by another token"
                )?
            }
        };
        self.error(origin.range, message)
    }

    /// Tells rules that lead to themselves.
    fn tell_cycle(
        &mut self,
        grammar: &Grammar,
        rules: &Rules,
        cycle: &[usize],
        verb: &str,
    ) -> Result<(), AllocError> {
        let alloc = self.alloc;
        let mut others: Vec<usize> = Vec::new(alloc);
        let mut first: Option<usize> = None;
        for rule in cycle.iter() {
            let (Of::Item(item) | Of::Around(item)) = rules.origin(*rule).of else {
                continue;
            };
            match first {
                Some(_) => others.push(item)?,
                None => first = Some(item),
            }
        }
        let Some(first) = first else {
            return self.tell_size(rules);
        };
        let ring = Ring { first, others };
        let name = grammar.name(first);
        let way = way_around(alloc, grammar, &ring, verb)?;
        let message = format!(in alloc;
            "`{name}` {verb} itself: it {way}; only alternatives of a choice may, and with the choice \
            alone"
        )?;
        self.error(grammar.range(first), message)
    }

    fn tell_size(&mut self, rules: &Rules) -> Result<(), AllocError> {
        let message = String::from_str(
            self.alloc,
            "no parser can be written: the rules are too large",
        )?;
        self.error(rules.origin(0).range, message)
    }

    /// The text of a token, or its name.
    fn token(&self, grammar: &Grammar, kinds: &[usize], kind: u16) -> Result<String, AllocError> {
        match kinds.get(usize::from(kind)) {
            Some(index) => self.named(grammar, *index),
            None => Ok(String::new(self.alloc)),
        }
    }

    /// An item as messages name it.
    fn named(&self, grammar: &Grammar, index: usize) -> Result<String, AllocError> {
        let name = grammar.name(index);
        match grammar.items.get(index) {
            Some(item) => match item.literal {
                Some(range) => String::from_str(self.alloc, text_at(self.text, range)),
                None => format!(in self.alloc; "`{name}`"),
            },
            None => format!(in self.alloc; "`{name}`"),
        }
    }

    /// What a rule is of, as messages name it.
    fn shown(&self, grammar: &Grammar, rules: &Rules, rule: usize) -> Result<String, AllocError> {
        let origin = rules.origin(rule);
        match origin.of {
            Of::Item(item) | Of::Around(item) | Of::Operators(item) => self.named(grammar, item),
            Of::Part => part_text(self.alloc, self.text, origin.range),
        }
    }
}

/// A part of a grammar in one line.
fn part_text(alloc: Global, text: &str, range: TextRange) -> Result<String, AllocError> {
    let mut out = String::from_str(alloc, "`")?;
    let mut count = 0usize;
    for word in text_at(text, range).split_whitespace() {
        if count > MAX_SHOWN {
            out.push_str(" ..")?;
            break;
        }
        if count > 0 {
            out.push(' ')?;
        }
        out.push_str(word)?;
        count = count.saturating_add(word.len()).saturating_add(1);
    }
    out.push('`')?;
    Ok(out)
}
