//! The rules of a parser as lines of source text.
use crate::rules::{Of, Rules};
use rowan_grammar_model::grammar::Grammar;
use rowan_grammar_writer::WrittenRules;
use rowan_predictive::Rule;
use std::alloc::{AllocError, Global};

/// The rules, a line each. Before that of a token, a node or a choice stands its name.
pub fn written_rules(
    alloc: Global,
    grammar: &Grammar,
    rules: &Rules,
) -> Result<WrittenRules, AllocError> {
    let mut lines = String::new(alloc);
    let mut is_behind_items = false;
    for (rule, origin) in rules.rules.iter().zip(rules.origins.iter()) {
        match origin.of {
            Of::Item(item) => writeln!(lines, "    // {}", grammar.name(item))?,
            _ if !is_behind_items => {
                is_behind_items = true;
                lines.push_str("    // Parts of these.\n")?;
            }
            _ => {}
        }
        add_rule(&mut lines, *rule)?;
    }
    Ok(WrittenRules {
        lines,
        count: rules.rules.len(),
        start: rules.start,
    })
}

fn add_rule(lines: &mut String, rule: Rule) -> Result<(), AllocError> {
    match rule {
        Rule::Empty => lines.push_str("    Rule::Empty,\n"),
        Rule::Token(kind) => add(lines, "Token", usize::from(kind), None),
        Rule::Node(kind, part) => add(lines, "Node", usize::from(kind), Some(part)),
        Rule::Chain(part) => add(lines, "Chain", part, None),
        Rule::Wrap(kind, part) => add(lines, "Wrap", usize::from(kind), Some(part)),
        Rule::Seq(one, other) => add(lines, "Seq", one, Some(other)),
        Rule::Choice(one, other) => add(lines, "Choice", one, Some(other)),
        Rule::Optional(part) => add(lines, "Optional", part, None),
        Rule::Star(part) => add(lines, "Star", part, None),
    }
}

/// A rule of this name, with the numbers that it has.
fn add(lines: &mut String, name: &str, one: usize, other: Option<usize>) -> Result<(), AllocError> {
    match other {
        None => writeln!(lines, "    Rule::{name}({one}),"),
        Some(other) => writeln!(lines, "    Rule::{name}({one}, {other}),"),
    }
}
