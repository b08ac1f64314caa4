//! Runs the cases of a case file.

use crate::answer::{Answer, Answered};
use crate::building::{Built, build};
use crate::case_file::{CacheLine, CaseFile, Line};
use crate::instruction::Instruction;
use crate::list_edits::ListEdits;
use crate::standing::Standing;
use crate::trace::Trace;
use rowan::{Fault, GreenNode, GreenNodeBuilder, NodeCache};
use rowan_tool::sexp;
use std::alloc::Global;
use std::fmt;

/// A cache that the cases of a case file share.
#[derive(Drop)]
struct SharedCache {
    number: u32,
    cache: NodeCache,
}

/// Over which caches the trees of a case file are built.
#[derive(Clone, Copy)]
pub enum Caches {
    /// The caches that the lines `Cache` name; a case without such a line has one of its own.
    OfCases,
    /// One of this limit, which all cases share. The file has no line `Cache`.
    Shared(usize),
}

/// What a cache that all cases share keeps in the end.
#[derive(Clone, Copy)]
pub enum Kept {
    /// The cases share none.
    Nothing,
    /// So many tokens and nodes.
    Counts(usize, usize),
}

impl fmt::Display for Kept {
    fn fmt<W: fmt::Write>(&self, f: &mut fmt::Formatter<W>) -> fmt::Result {
        match self {
            Kept::Nothing => Ok(()),
            Kept::Counts(tokens, nodes) => {
                write!(f, "; the cache keeps {tokens} tokens, {nodes} nodes")
            }
        }
    }
}

/// The answers to all lines of a case file, in order.
pub fn answers_of<'s>(
    alloc: Global,
    file: &'s CaseFile<'_>,
    caches: Caches,
) -> Result<(Vec<Answered<'s>>, Kept), Fault> {
    let mut answers = Vec::new(alloc);
    let kept = match caches {
        Caches::OfCases => {
            answer_cases(alloc, file, &mut answers)?;
            Kept::Nothing
        }
        Caches::Shared(limit) => {
            let mut cache = NodeCache::with_limit(alloc, limit);
            answer_cases_over(alloc, file, &mut cache, &mut answers)?;
            Kept::Counts(cache.token_count(), cache.node_count())
        }
    };
    Ok((answers, kept))
}

fn answer_cases<'s>(
    alloc: Global,
    file: &'s CaseFile<'_>,
    answers: &mut Vec<Answered<'s>>,
) -> Result<(), Fault> {
    let mut caches = Vec::new(alloc);
    for case in file.cases.as_slice() {
        answers.push(case.beginning())?;
        match &case.cache {
            None => {
                let mut own = NodeCache::new(alloc);
                answer_lines(alloc, &mut own, case.lines.as_slice(), answers)?;
            }
            Some(line) => {
                let cache = shared_cache(alloc, &mut caches, *line)?;
                answers.push(Answered {
                    line: line.line,
                    answer: Answer::counts(cache),
                    by_refs: None,
                })?;
                answer_lines(alloc, cache, case.lines.as_slice(), answers)?;
            }
        }
    }
    Ok(())
}

fn answer_cases_over<'s>(
    alloc: Global,
    file: &'s CaseFile<'_>,
    cache: &mut NodeCache,
    answers: &mut Vec<Answered<'s>>,
) -> Result<(), Fault> {
    for case in file.cases.as_slice() {
        answers.push(case.beginning())?;
        answer_lines(alloc, cache, case.lines.as_slice(), answers)?;
    }
    Ok(())
}

/// The cache of that number, which is made where the file first names it.
fn shared_cache<'c>(
    alloc: Global,
    caches: &'c mut Vec<SharedCache>,
    line: CacheLine,
) -> Result<&'c mut NodeCache, Fault> {
    let found = caches
        .as_slice()
        .iter()
        .position(|shared| shared.number == line.number);
    let place = match found {
        Some(place) => place,
        None => {
            caches.push(SharedCache {
                number: line.number,
                cache: NodeCache::with_limit(alloc, line.limit as usize),
            })?;
            caches.len() - 1
        }
    };
    Ok(&mut caches[place].cache)
}

fn answer_lines<'s>(
    alloc: Global,
    cache: &mut NodeCache,
    lines: &'s [Line],
    answers: &mut Vec<Answered<'s>>,
) -> Result<(), Fault> {
    match answer_building(alloc, cache, lines, answers)? {
        Built::Finished(tree, rest) => answer_steps(alloc, cache, tree, rest, answers),
        Built::Parse(line, text, rest) => match parse(alloc, cache, line, text, answers)? {
            Some(tree) => answer_steps(alloc, cache, tree, rest, answers),
            None => answer_without_tree(cache, rest, answers),
        },
        Built::Open => Ok(()),
    }
}

/// Answers the building part of a case.
fn answer_building<'s>(
    alloc: Global,
    cache: &mut NodeCache,
    lines: &'s [Line],
    answers: &mut Vec<Answered<'s>>,
) -> Result<Built<'s>, Fault> {
    build(
        alloc,
        GreenNodeBuilder::with_cache(alloc, cache),
        lines,
        answers,
    )
}

/// Answers the lines behind the building part. Steps of which scripts are made, and edits of which
/// lists are made, are put off to the next other line.
fn answer_steps<'s>(
    alloc: Global,
    cache: &NodeCache,
    tree: GreenNode,
    lines: &'s [Line],
    answers: &mut Vec<Answered<'s>>,
) -> Result<(), Fault> {
    let mut standing = Standing::new(alloc, tree)?;
    let mut trace = Trace::new(alloc);
    let mut edits = ListEdits::new(alloc);
    for line in lines {
        match &line.instruction {
            Instruction::ScriptStep(step) => {
                edits.make(&mut standing.here, answers)?;
                trace.push(line, step)?;
            }
            Instruction::EditList(edit) => {
                trace.make(standing.start, &mut standing.here, answers)?;
                edits.push(line, edit)?;
            }
            other => {
                trace.make(standing.start, &mut standing.here, answers)?;
                edits.make(&mut standing.here, answers)?;
                let answered = match other {
                    Instruction::Counts => line.with_answer(Answer::counts(cache)),
                    Instruction::Step(step) => standing.answer_line(alloc, line, step)?,
                    _ => line.with_answer(Answer::NoBuilder),
                };
                answers.push(answered)?;
            }
        }
    }
    trace.make(standing.start, &mut standing.here, answers)?;
    edits.make(&mut standing.here, answers)
}

/// Parses a text in place of builder calls.
fn parse<'s>(
    alloc: Global,
    cache: &mut NodeCache,
    line: &'s Line,
    text: &str,
    answers: &mut Vec<Answered<'s>>,
) -> Result<Option<GreenNode>, Fault> {
    let (tree, answer) = match sexp::parse_with(alloc, text, cache) {
        Ok(parse) => {
            let answer = Answer::Finished(parse.green().clone()?);
            (Some(parse.green().clone()?), answer)
        }
        Err(fault) => (None, Answer::Refused(fault)),
    };
    answers.push(line.with_answer(answer))?;
    Ok(tree)
}

/// Answers the lines behind a text that was refused.
fn answer_without_tree<'s>(
    cache: &NodeCache,
    lines: &'s [Line],
    answers: &mut Vec<Answered<'s>>,
) -> Result<(), Fault> {
    for line in lines {
        let answer = match &line.instruction {
            Instruction::Counts => Answer::counts(cache),
            Instruction::ScriptStep(_) | Instruction::Step(_) | Instruction::EditList(_) => {
                Answer::NoTree
            }
            Instruction::Call(_) | Instruction::Finish | Instruction::Parse(_) => Answer::NoBuilder,
        };
        answers.push(line.with_answer(answer))?;
    }
    Ok(())
}
