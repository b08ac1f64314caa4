//! All that a grammar gives: what is wrong with it, or the files of its language.
ghost use Rattle.std.specs.Prelude.{◌≡◌, ◌<◌, length, IfErr};
ghost use Rattle.rowan.specs.Fits.{byte_limit};
ghost use Rattle.rowan_parser.specs.Parsing.{WhyNoTree};

use crate::checks::Checker;
use crate::rule_lines::written_rules;
use rowan::Fault;
use rowan_grammar_calls::calls::Calls;
use rowan_grammar_calls::reach::Looker;
use rowan_grammar_model::grammar::Grammar;
use rowan_grammar_reader::problems::{is_error, render};
use rowan_grammar_reader::{Reading, read};
use rowan_grammar_writer::{File, Source, WrittenRules, files_of};
use std::alloc::{AllocError, Global};

/// How much a grammar has.
#[derive(Clone, Copy, PartialEq, Eq, Debug)]
pub struct Summary {
    pub kinds: usize,
    pub wrappers: usize,
    pub calls: usize,
}

/// What a grammar gives.
#[derive(Debug, Drop)]
pub struct Written {
    /// What is wrong, as lines for a terminal.
    pub messages: String,
    pub has_errors: bool,
    pub summary: Summary,
    /// The files, if they were asked for; none where there are errors.
    pub files: Vec<File>,
}

/// Reads a grammar that is called by this name in messages, and says what is wrong with it. No file
/// is written.
///
/// Errors: `TextTooLong` if the text has more than 4,294,967,295 bytes; `TooManyChildren` if a node
/// of its tree would have more children than that; `Memory` if an allocation failed.
pub fn check(alloc: Global, text: &str, name: &str) -> Result<Written, Fault>
    ensures err { IfErr result (WhyNoTree text.now) }
    ensures too_long { byte_limit < length text.now → result ≡ Err Fault.TextTooLong }
{
    made_of(alloc, text, name, false)
}

/// Reads a grammar as `check` does, and writes the files of its language if nothing is wrong.
///
/// Errors: those of `check`.
pub fn generate(alloc: Global, text: &str, name: &str) -> Result<Written, Fault>
    ensures err { IfErr result (WhyNoTree text.now) }
    ensures too_long { byte_limit < length text.now → result ≡ Err Fault.TextTooLong }
{
    made_of(alloc, text, name, true)
}

fn made_of(alloc: Global, text: &str, name: &str, has_files: bool) -> Result<Written, Fault>
    ensures err { IfErr result (WhyNoTree text.now) }
    ensures too_long { byte_limit < length text.now → result ≡ Err Fault.TextTooLong }
{
    let Reading {
        mut grammar,
        problems,
    } = read(alloc, text)?;
    let mut checker = Checker {
        alloc,
        text,
        problems,
        looker: Looker::new(),
        calls: Vec::new(alloc),
        traits: Vec::new(alloc),
        rules: None,
    };
    checker.check(&grammar)?;
    grammar.rename()?;
    answer(text, name, &grammar, &mut checker, has_files)
}

/// The messages, and the files if they are wanted and no problem is an error.
fn answer(
    text: &str,
    name: &str,
    grammar: &Grammar,
    checker: &mut Checker<'_>,
    has_files: bool,
) -> Result<Written, Fault>
    ensures { IfErr result (λ e. e ≡ Fault.Memory) }
{
    let alloc = checker.alloc;
    let has_errors = checker.problems.iter().any(is_error);
    let messages = render(alloc, &mut checker.problems, text, name)?;
    let calls = checker.calls.as_slice();
    let files = match has_files && !has_errors {
        true => files(checker, text, name, grammar)?,
        false => Vec::new(alloc),
    };
    let summary = summary_of(grammar, calls);
    Ok(Written {
        messages,
        has_errors,
        summary,
        files,
    })
}

/// The files of a grammar in which nothing is wrong.
fn files(
    checker: &Checker<'_>,
    text: &str,
    name: &str,
    grammar: &Grammar,
) -> Result<Vec<File>, AllocError> {
    match &checker.rules {
        Some(rules) => {
            let rules = written_rules(checker.alloc, grammar, rules)?;
            files_by(checker, text, name, grammar, Some(&rules))
        }
        None => files_by(checker, text, name, grammar, None),
    }
}

/// The files of a grammar whose parser has these rules, if it is to have one.
fn files_by<'g>(
    checker: &'g Checker<'_>,
    text: &'g str,
    name: &'g str,
    grammar: &'g Grammar,
    rules: Option<&'g WrittenRules>,
) -> Result<Vec<File>, AllocError> {
    files_of(&Source {
        alloc: checker.alloc,
        text,
        name,
        grammar,
        calls: checker.calls.as_slice(),
        traits: checker.traits.as_slice(),
        rules,
    })
}

fn summary_of(grammar: &Grammar, calls: &[Calls]) -> Summary {
    let mut summary = Summary {
        kinds: 0,
        wrappers: 0,
        calls: 0,
    };
    for item in grammar.items.iter() {
        if item.sort.is_kind() {
            summary.kinds = summary.kinds.saturating_add(1);
        }
        if item.is_wrapped() {
            summary.wrappers = summary.wrappers.saturating_add(1);
        }
    }
    for (item, calls) in grammar.items.iter().zip(calls.iter()) {
        if item.is_wrapped() {
            summary.calls = summary.calls.saturating_add(calls.calls.len());
        }
    }
    summary
}
