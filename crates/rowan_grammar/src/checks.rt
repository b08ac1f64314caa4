//! What can be wrong with a grammar whose items were read.
use crate::rules::Rules;
use rowan::TextRange;
use rowan_grammar_calls::calls::{Call, Calls, Clash, calls_of};
use rowan_grammar_calls::reach::{Looker, count_arms, doubtful_choices, leads_to, set};
use rowan_grammar_calls::rings::{Ring, Want, rings};
use rowan_grammar_calls::shared::Shared;
use rowan_grammar_model::grammar::{Grammar, Item, Sort};
use rowan_grammar_model::names::{
    is_call_name, why_no_crate, why_no_language, why_no_module, why_no_set, why_no_trait,
    why_no_type,
};
use rowan_grammar_model::place::{part_of, text_at, top};
use rowan_grammar_reader::problems::Problem;
use rowan_parser::Severity;
use std::alloc::{AllocError, Global};
use std::collections::HashMap;

/// To how many nodes all choices together may lead.
const MAX_ARMS: usize = 1_000_000;

/// How many items of a ring are named between its first and its last one.
const MAX_SHOWN: usize = 8;

/// What is looked at, and what was found.
#[derive(Drop)]
pub struct Checker<'t> {
    pub alloc: Global,
    pub text: &'t str,
    pub problems: Vec<Problem>,
    pub looker: Looker,
    /// The calls of each item; none of those that are neither nodes nor traits.
    pub calls: Vec<Calls>,
    pub traits: Vec<Shared>,
    /// The rules of the parser, where one is asked for and nothing is in its way.
    pub rules: Option<Rules>,
}

impl Checker<'_> {
    pub fn add(
        &mut self,
        severity: Severity,
        range: TextRange,
        message: String,
    ) -> Result<(), AllocError> {
        self.problems.push(Problem {
            severity,
            range,
            message,
        })?;
        Ok(())
    }

    pub fn error(&mut self, range: TextRange, message: String) -> Result<(), AllocError> {
        self.add(Severity::Error, range, message)
    }

    /// Looks at all of it, and makes the calls of its nodes.
    pub fn check(&mut self, grammar: &Grammar) -> Result<(), AllocError> {
        self.check_head(grammar)?;
        self.check_names(grammar)?;
        self.check_literals(grammar)?;
        self.check_root(grammar)?;
        self.check_kinds(grammar)?;
        self.check_choices(grammar)?;
        self.check_ends(grammar)?;
        self.check_calls(grammar)?;
        self.check_sets(grammar)?;
        self.check_traits(grammar)?;
        self.check_uses(grammar)?;
        self.check_parser(grammar)
    }

    /// The language, its crate and the root have to be named, and one item has to be the error
    /// kind.
    fn check_head(&mut self, grammar: &Grammar) -> Result<(), AllocError> {
        let language = part_of(self.text, grammar.language);
        let crate_name = part_of(self.text, grammar.crate_name);
        self.check_line(grammar.language, "language", why_no_language(language))?;
        self.check_line(grammar.crate_name, "crate", why_no_crate(crate_name))?;
        self.check_line(grammar.root, "root", None)?;
        if let Some(range) = grammar.kinds {
            let module = text_at(self.text, range);
            self.check_name(range, module, why_no_module(module))?;
        }
        let errors = grammar.items.iter().filter(|item| item.sort == Sort::Error);
        let count = errors.count();
        if count != 1 {
            let message = format!(in self.alloc; "one line `error NAME` is wanted, not {count}")?;
            self.error(top(), message)?;
        }
        Ok(())
    }

    /// A line of the head with this word has to be there, and nothing to be wrong with its name.
    fn check_line(
        &mut self,
        range: Option<TextRange>,
        word: &str,
        why: Option<&str>,
    ) -> Result<(), AllocError> {
        match range {
            Some(range) => self.check_name(range, text_at(self.text, range), why),
            None => {
                let message = format!(in self.alloc; "a line `{word} NAME` is missing")?;
                self.error(top(), message)
            }
        }
    }

    fn check_name(
        &mut self,
        range: TextRange,
        name: &str,
        why: Option<&str>,
    ) -> Result<(), AllocError> {
        match why {
            Some(why) => {
                let message = format!(in self.alloc; "`{name}` {why}")?;
                self.error(range, message)
            }
            None => Ok(()),
        }
    }

    /// No two names may differ in case alone, and each has to be spelled as a type's.
    fn check_names(&mut self, grammar: &Grammar) -> Result<(), AllocError> {
        let mut folded: HashMap<String, usize> = HashMap::new(self.alloc);
        let language = part_of(self.text, grammar.language);
        for (index, item) in grammar.items.iter().enumerate() {
            let name = item.name.as_str();
            let why = match item.sort {
                _ if name == language => Some("is the name of the language"),
                Sort::Set => why_no_set(name),
                Sort::Trait => why_no_trait(name),
                _ => why_no_type(name),
            };
            self.check_name(item.range, name, why)?;
            let mut key = item.name.clone()?;
            key.make_ascii_lowercase();
            if let Some(earlier) = folded.get(key.as_str()) {
                let other = grammar.name(*earlier);
                let message = match other == name {
                    true => format!(in self.alloc; "`{name}` is there already")?,
                    false => format!(in self.alloc; "`{name}` and `{other}` differ in case alone")?,
                };
                self.error(item.range, message)?;
            } else {
                folded.insert(key, index)?;
            }
        }
        Ok(())
    }

    /// No two tokens may always have one text.
    fn check_literals(&mut self, grammar: &Grammar) -> Result<(), AllocError> {
        let mut literals: HashMap<String, usize> = HashMap::new(self.alloc);
        for (index, item) in grammar.items.iter().enumerate() {
            let Some(range) = item.literal else {
                continue;
            };
            let literal = text_at(self.text, range);
            if literals.contains_key(literal) {
                let message = format!(in self.alloc; "another token has the text {literal}")?;
                self.error(range, message)?;
            } else {
                literals.insert(String::from_str(self.alloc, literal)?, index)?;
            }
        }
        Ok(())
    }

    fn check_root(&mut self, grammar: &Grammar) -> Result<(), AllocError> {
        let Some(range) = grammar.root else {
            return Ok(());
        };
        let name = text_at(self.text, range);
        let is_node = |item: &Item| item.sort == Sort::Node && item.name.as_str() == name;
        if !grammar.items.iter().any(is_node) {
            let message = format!(in self.alloc; "no node is called `{name}`")?;
            self.error(range, message)?;
        }
        Ok(())
    }

    /// A choice may not lead to itself, and to each node in one way alone.
    fn check_choices(&mut self, grammar: &Grammar) -> Result<(), AllocError> {
        let rings = rings(self.alloc, grammar, Want::Nodes)?;
        for ring in rings.iter() {
            let name = grammar.name(ring.first);
            let way = way_around(self.alloc, grammar, ring, "leads to")?;
            let message = format!(in self.alloc; "`{name}` is an alternative of itself: it {way}")?;
            self.error(grammar.range(ring.first), message)?;
        }
        if !rings.is_empty() || !self.check_ways(grammar)? {
            return Ok(());
        }
        match count_arms(self.alloc, grammar)? > MAX_ARMS {
            true => self.too_many(),
            false => Ok(()),
        }
    }

    fn too_many(&mut self) -> Result<(), AllocError> {
        let message = "the choices of this grammar lead to too many nodes";
        self.error(top(), String::from_str(self.alloc, message)?)
    }

    /// Tells the choices that lead to a node in two ways, but not those that lead to such a one. Says
    /// whether there is none.
    fn check_ways(&mut self, grammar: &Grammar) -> Result<bool, AllocError> {
        let mut is_well = true;
        let mut is_told: Vec<bool> = vec![in self.alloc; false; grammar.items.len()]?;
        for index in doubtful_choices(self.alloc, grammar)?.iter() {
            if leads_to(grammar, *index, is_told.as_slice()) {
                set(&mut is_told, *index);
                continue;
            }
            let Some(twice) = self.looker.reach(self.alloc, grammar, *index)?.twice else {
                continue;
            };
            is_well = false;
            set(&mut is_told, *index);
            let name = grammar.name(*index);
            let other = grammar.name(twice);
            let message = format!(in self.alloc; "two alternatives of `{name}` lead to `{other}`")?;
            self.error(grammar.range(*index), message)?;
        }
        Ok(is_well)
    }

    /// A node may not need a node that needs itself, for then it has no end.
    fn check_ends(&mut self, grammar: &Grammar) -> Result<(), AllocError> {
        for ring in rings(self.alloc, grammar, Want::End)?.iter() {
            if grammar.sort(ring.first) == Sort::Node {
                let name = grammar.name(ring.first);
                let way = way_around(self.alloc, grammar, ring, "needs")?;
                let message = format!(in self.alloc; "no `{name}` can end: it {way}")?;
                self.error(grammar.range(ring.first), message)?;
            }
        }
        Ok(())
    }

    /// No two calls of a node may have one name, and no child may be two of its parts.
    fn check_calls(&mut self, grammar: &Grammar) -> Result<(), AllocError> {
        for item in grammar.items.iter() {
            let calls = calls_of(self.alloc, self.text, grammar, &mut self.looker, item)?;
            self.check_call_names(item, calls.calls.as_slice())?;
            for clash in calls.clashes.iter() {
                self.tell(grammar, calls.calls.as_slice(), clash)?;
            }
            for label in calls.idle.iter() {
                self.tell_idle(*label)?;
            }
            self.calls.push(calls)?;
        }
        match self.looker.is_over() {
            true => self.too_many(),
            false => Ok(()),
        }
    }

    fn check_call_names(&mut self, item: &Item, calls: &[Call]) -> Result<(), AllocError> {
        let mut seen: HashMap<String, usize> = HashMap::new(self.alloc);
        for (index, call) in calls.iter().enumerate() {
            let name = call.name.as_str();
            if !is_call_name(name) {
                let message = format!(in self.alloc; "`{name}` is not spelled as `inline_table`")?;
                self.error(call.range, message)?;
            }
            if seen.contains_key(name) {
                let whole = item.name.as_str();
                let message = format!(in self.alloc;
                    "two calls of `{whole}` are named `{name}`: label one"
                )?;
                self.error(call.range, message)?;
            }
            seen.insert(call.name.clone()?, index)?;
        }
        Ok(())
    }

    /// Tells a child or a token that may be two parts. Of two calls of one name that is told
    /// already.
    fn tell(&mut self, grammar: &Grammar, calls: &[Call], clash: &Clash) -> Result<(), AllocError> {
        let kind = grammar.name(clash.item);
        let one = name_at(calls, clash.one);
        let other = name_at(calls, clash.other);
        let message = match (one, other) {
            (Some(one), Some(other)) if one == other => return Ok(()),
            (Some(one), Some(other)) => format!(in self.alloc;
                "a `{kind}` here may be `{one}` or `{other}`"
            )?,
            (None, Some(name)) | (Some(name), None) => format!(in self.alloc;
                "a `{kind}` here may be `{name}` or what no call gives"
            )?,
            (None, None) => return Ok(()),
        };
        self.error(clash.range, message)
    }

    fn tell_idle(&mut self, label: TextRange) -> Result<(), AllocError> {
        let name = text_at(self.text, label);
        let message = format!(in self.alloc;
            "`{name}` names no call: a label stands for nodes, or for a token that comes once"
        )?;
        self.error(label, message)
    }

    /// A token with a text of its own that stands in no rule is worth a warning.
    fn check_uses(&mut self, grammar: &Grammar) -> Result<(), AllocError> {
        for item in grammar.items.iter() {
            if item.sort == Sort::Token && item.literal.is_some() && !item.is_used {
                let name = item.name.as_str();
                let message = format!(in self.alloc; "no rule has the token `{name}`")?;
                self.add(Severity::Warning, item.range, message)?;
            }
        }
        Ok(())
    }
}

fn name_at(calls: &[Call], number: Option<usize>) -> Option<&str> {
    let call = calls.get(number?)?;
    Some(call.name.as_str())
}

/// What the first of a ring leads to, and so on up to itself: `needs B, which needs A`. Of a long
/// ring the beginning.
pub fn way_around(
    alloc: Global,
    grammar: &Grammar,
    ring: &Ring,
    verb: &str,
) -> Result<String, AllocError> {
    let mut out = String::new(alloc);
    for item in ring.others.iter().take(MAX_SHOWN) {
        let name = grammar.name(*item);
        write!(out, "{verb} `{name}`, which ")?;
    }
    let more = ring.others.len().saturating_sub(MAX_SHOWN);
    if more > 0 {
        write!(out, "{verb} {more} more, the last of which ")?;
    }
    let name = grammar.name(ring.first);
    write!(out, "{verb} `{name}`")?;
    Ok(out)
}
