//! Parsers by rules, and rules that are made a grammar.
use crate::tools::repeated;
use crate::trees::Tree;
use json_by_grammar::JsonParser;
use rowan::Fault;
use rowan_predictive::{Grammar, GrammarError, Rule, conflicts_of, operators_at};
use std::alloc::AllocError;

pub fn make(call: &str, tree: &Tree) -> Result<Option<u64>, Fault> {
    let number = match call {
        "parse_by_rules" => parse_by_rules(tree),
        "brackets_by_rules" => brackets_by_rules(tree),
        "errors_by_rules" => errors_by_rules(tree),
        "rules_on" => rules(tree, true),
        "rules_back" => rules(tree, false),
        "conflicts" => conflicts(tree),
        _ => return Ok(None),
    };
    Ok(Some(number?))
}

/// How many errors a text of JSON has.
fn parse(tree: &Tree, text: &str) -> Result<u64, Fault> {
    match JsonParser::new(tree.alloc) {
        Ok(parser) => Ok(parser.parse(tree.alloc, text)?.errors.len() as u64),
        Err(_no_memory) => Err(Fault::Memory),
    }
}

fn parse_by_rules(tree: &Tree) -> Result<u64, Fault> {
    let text = format!(in tree.alloc; "[{}0]", repeated(tree, "1, ")?)?;
    parse(tree, text.as_str())
}

fn brackets_by_rules(tree: &Tree) -> Result<u64, Fault> {
    parse(tree, repeated(tree, "[")?.as_str())
}

/// A text with an error for each number, inside of as many brackets.
fn errors_by_rules(tree: &Tree) -> Result<u64, Fault> {
    let brackets = repeated(tree, "[")?;
    let numbers = repeated(tree, "1 1, ")?;
    parse(
        tree,
        format!(in tree.alloc; "{brackets}{numbers}")?.as_str(),
    )
}

/// A row of nodes, of which each has the next one, or the one before it.
fn row(tree: &Tree, is_on: bool) -> Result<Vec<Rule>, AllocError> {
    let mut rules = Vec::new(tree.alloc);
    for number in 0..tree.size {
        let part = match is_on {
            true => number.saturating_add(1),
            false => number.saturating_sub(1),
        };
        rules.push(match part == number || part == tree.size {
            true => Rule::Token(1),
            false => Rule::Node(9, part),
        })?;
    }
    Ok(rules)
}

fn rules(tree: &Tree, is_on: bool) -> Result<u64, Fault> {
    let rules = row(tree, is_on)?;
    let mut found: u64 = 0;
    for number in 0..rules.len() {
        found = found.wrapping_add(u64::from(operators_at(rules.as_slice(), number).is_some()));
    }
    match Grammar::new(tree.alloc, rules.as_slice()) {
        Ok(_grammar) => Ok(found),
        Err(GrammarError::Memory) => Err(Fault::Memory),
        Err(_no_grammar) => Ok(1),
    }
}

/// Rules that may be left out, each before a token that begins it.
fn conflicts(tree: &Tree) -> Result<u64, Fault> {
    let mut rules = Vec::new(tree.alloc);
    rules.push(Rule::Token(1))?;
    for _ in 0..tree.size {
        let optional = rules.len();
        rules.push(Rule::Optional(0))?;
        rules.push(Rule::Seq(optional, 0))?;
    }
    Ok(conflicts_of(tree.alloc, rules.as_slice())?.len() as u64)
}
