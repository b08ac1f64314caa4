//! What can be wrong with a grammar of which a parser is to be written.
use crate::checks::Checker;
use crate::kind_checks::MAX_TOKENS;
use crate::rules::rules_of;
use rowan::TextRange;
use rowan_grammar_model::grammar::{Grammar, Item, Part, Sort, Use, kinds_of};
use rowan_grammar_model::place::{part_of, text_at};
use rowan_grammar_reader::problems::is_error;
use rowan_predictive::conflicts_of;
use std::alloc::AllocError;

impl Checker<'_> {
    /// Looks at what the head says of a parser, and, if nothing else is wrong, makes its rules.
    pub fn check_parser(&mut self, grammar: &Grammar) -> Result<(), AllocError> {
        let Some(range) = grammar.parsing.parser else {
            return self.check_without(grammar);
        };
        if text_at(self.text, range) != "predictive" {
            self.say(
                range,
                "no such parser can be written: `predictive` is wanted here",
            )?;
        }
        match &grammar.parsing.lexer {
            None => self.say(
                range,
                "a line `lexer PATH` is missing, as `lexer crate::next_token`",
            )?,
            Some(lexer) if !is_path(lexer.path.as_str()) => {
                self.say(
                    lexer.range,
                    "a path is wanted here, as `crate::lexer::next_token`",
                )?
            }
            Some(_) => {}
        }
        if part_of(self.text, grammar.kinds) == "parser" {
            let range = grammar.kinds.unwrap_or(range);
            self.say(range, "`parser` is the module of the parser")?;
        }
        self.check_tokens(grammar)?;
        if self.problems.iter().any(is_error) {
            return Ok(());
        }
        self.make_rules(grammar)
    }

    /// Without a parser no other line speaks of one.
    fn check_without(&mut self, grammar: &Grammar) -> Result<(), AllocError> {
        let message = "this needs a line `parser predictive`";
        if let Some(lexer) = &grammar.parsing.lexer {
            self.say(lexer.range, message)?;
        }
        for shown in grammar.parsing.shown.iter() {
            self.say(shown.range, message)?;
        }
        for attached in grammar.parsing.attached.iter() {
            self.say(attached.trivia.range, message)?;
        }
        Ok(())
    }

    fn say(&mut self, range: TextRange, message: &str) -> Result<(), AllocError> {
        let message = String::from_str(self.alloc, message)?;
        self.error(range, message)
    }

    /// A parser sees no trivia, and no token behind the first 128.
    fn check_tokens(&mut self, grammar: &Grammar) -> Result<(), AllocError> {
        let mut is_taken: Vec<bool> = vec![in self.alloc; false; grammar.items.len()]?;
        for index in kinds_of(self.alloc, grammar)?.iter().take(MAX_TOKENS) {
            if let Some(mark) = is_taken.get_mut(*index) {
                *mark = true;
            }
        }
        let mut uses: Vec<Use> = Vec::new(self.alloc);
        for item in grammar.items.iter() {
            if item.sort == Sort::Node {
                add_tokens(&item.body, &mut uses)?;
            }
        }
        for used in uses.iter() {
            let name = grammar.name(used.item);
            if grammar.sort(used.item) == Sort::Trivia {
                let message = format!(in self.alloc;
                    "a parser passes over `{name}`, which is trivia"
                )?;
                self.error(used.range, message)?;
            } else if !is_taken.get(used.item).copied().unwrap_or(false) {
                let message = format!(in self.alloc;
                    "a parser takes the first {MAX_TOKENS} tokens, and not `{name}`"
                )?;
                self.error(used.range, message)?;
            }
        }
        Ok(())
    }

    /// Makes the rules of a parser, and tells where the next token does not say what to do.
    fn make_rules(&mut self, grammar: &Grammar) -> Result<(), AllocError> {
        let root = part_of(self.text, grammar.root);
        let is_root = |item: &Item| item.sort == Sort::Node && item.name.as_str() == root;
        let Some(root) = grammar.items.iter().position(is_root) else {
            return Ok(());
        };
        let kinds = kinds_of(self.alloc, grammar)?;
        let rules = rules_of(self.alloc, grammar, root)?;
        for error in conflicts_of(self.alloc, rules.rules.as_slice())?.iter() {
            self.tell_conflict(grammar, kinds.as_slice(), &rules, error)?;
        }
        self.rules = Some(rules);
        Ok(())
    }
}

/// Adds the tokens that a part names.
fn add_tokens(part: &Part, uses: &mut Vec<Use>) -> Result<(), AllocError> {
    match part {
        Part::Token(used) => {
            uses.push(*used)?;
            Ok(())
        }
        Part::Node(_) => Ok(()),
        Part::Group(parts) | Part::Choice(parts) => {
            for part in parts.iter() {
                add_tokens(part, uses)?;
            }
            Ok(())
        }
        Part::Labelled(_, part) => add_tokens(part, uses),
        Part::Repeated(part) | Part::Optional(part) => add_tokens(part, uses),
    }
}

/// Whether a path names something in a module or a crate.
fn is_path(path: &str) -> bool {
    let mut count = 0usize;
    for name in path.split("::") {
        if !name.starts_with(|first: char| first.is_ascii_alphabetic() || first == '_') {
            return false;
        }
        count = count.saturating_add(1);
    }
    count > 1
}
