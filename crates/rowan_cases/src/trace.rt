//! The steps of a case that are made as scripts: traces, each with the reports of all its steps.

use crate::answer::{Answer, Answered};
use crate::by_refs::{Start, moves};
use crate::case_file::Line;
use crate::instruction::{Instruction, copy_of};
use rowan::cursor::{SyntaxElement, SyntaxNode};
use rowan::script::{self, Report, Step};
use rowan::{Fault, NodeOrToken};
use std::alloc::Global;
use std::mem;

/// Steps that are still to be made, with their lines.
#[derive(Drop)]
pub struct Trace<'s> {
    alloc: Global,
    steps: Vec<Step>,
    lines: Vec<&'s Line>,
}

impl<'s> Trace<'s> {
    /// A trace without steps.
    pub fn new(alloc: Global) -> Trace<'s> {
        Trace {
            alloc,
            steps: Vec::new(alloc),
            lines: Vec::new(alloc),
        }
    }

    /// Adds a step that is to be made.
    pub fn push(&mut self, line: &'s Line, step: &Step) -> Result<(), Fault> {
        self.steps.push(copy_of(step)?)?;
        self.lines.push(line)?;
        Ok(())
    }

    /// Makes the steps that were added, from an element on, answers them, and goes where they lead.
    /// Borrowed cursors make each step from where the one before it led.
    pub fn make(
        &mut self,
        refs: Start,
        here: &mut SyntaxElement,
        answers: &mut Vec<Answered<'s>>,
    ) -> Result<(), Fault> {
        let lines = mem::replace(&mut self.lines, Vec::new(self.alloc));
        let (start, mut steps) = way_to(self.alloc, here)?;
        let way_len = steps.len();
        for step in mem::replace(&mut self.steps, Vec::new(self.alloc)) {
            steps.push(step)?;
        }
        let reports = script::trace(self.alloc, &start, steps.as_slice())?;
        for (line, report) in lines.into_iter().zip(reports.into_iter().skip(way_len)) {
            let by_refs = step_by_refs(self.alloc, refs, here, line)?;
            let answer = answer(here, report)?;
            answers.push(line.with_answers(answer, by_refs))?;
        }
        Ok(())
    }
}

/// A node, and the steps that lead from it to an element: a trace starts at a node, also where the
/// element is a token.
fn way_to(alloc: Global, element: &SyntaxElement) -> Result<(SyntaxNode, Vec<Step>), Fault> {
    let mut steps = Vec::new(alloc);
    let token = match element {
        NodeOrToken::Node(node) => return Ok((node.clone()?, steps)),
        NodeOrToken::Token(token) => token,
    };
    let Some(parent) = token.parent()? else {
        return Err(Fault::NotFound);
    };
    steps.push(Step::FirstChildOrToken)?;
    for _sibling in 0..token.index() {
        steps.push(Step::NextSiblingOrToken)?;
    }
    Ok((parent, steps))
}

/// What borrowed cursors answer to the step of a line.
fn step_by_refs(
    alloc: Global,
    refs: Start,
    here: &SyntaxElement,
    line: &Line,
) -> Result<Option<String>, Fault> {
    match &line.instruction {
        Instruction::ScriptStep(step) => Ok(Some(moves::step(alloc, refs.by(here), step)?)),
        _ => Ok(None),
    }
}

/// The answer that a report is. Where it leads somewhere, the case stands there from then on.
fn answer<'a>(here: &mut SyntaxElement, report: Report) -> Result<Answer<'a>, Fault> {
    Ok(match report {
        Report::Moved(element) => {
            *here = element.clone()?;
            Answer::Moved(element)
        }
        Report::Replaced(root) => {
            *here = NodeOrToken::Node(root.clone()?);
            Answer::Replaced(root)
        }
        Report::Nowhere => Answer::Nowhere,
        Report::Refused(fault) => Answer::Refused(fault),
    })
}
