//! Traces of steps, of which a single one may be refused.

use crate::calls::{Call, tree_of};
use rowan::cursor::SyntaxNode;
use rowan::script::{Report, Step, trace};
use rowan::{Fault, GreenToken, SyntaxKind, TextSize};
use rowan_transcript::{Part, Shape, Stop, Transcript};
use std::alloc::Global;

/// A step of a trace, as a constant can hold it.
#[derive(Clone, Copy)]
pub enum Stride {
    Parent,
    NextSibling,
    FirstToken,
    NextToken,
    LeftTokenAt(u32),
    RightTokenAt(u32),
    /// Puts a token of a kind and a text in the place of the one that is reached.
    PutToken(u16, &'static str),
    /// Puts the tree that the calls build in the place of the node that is reached.
    PutNode(&'static [Call]),
}

impl Stride {
    pub fn as_step(self, alloc: Global) -> Result<Step, Fault> {
        Ok(match self {
            Stride::Parent => Step::Parent,
            Stride::NextSibling => Step::NextSibling,
            Stride::FirstToken => Step::FirstToken,
            Stride::NextToken => Step::NextToken,
            Stride::LeftTokenAt(offset) => Step::LeftTokenAt(TextSize::from(offset)),
            Stride::RightTokenAt(offset) => Step::RightTokenAt(TextSize::from(offset)),
            Stride::PutToken(kind, text) => {
                Step::ReplaceToken(GreenToken::new(alloc, SyntaxKind(kind), text)?)
            }
            Stride::PutNode(calls) => Step::ReplaceNode(tree_of(alloc, calls)?),
        })
    }
}

/// Says what a trace from a node reports, and drops the reports. Where a request is refused in it,
/// it is made once more.
pub fn tell_trace(
    log: &Transcript<'_>,
    start: &SyntaxNode,
    steps: &mut Vec<Step>,
) -> Result<(), Stop> {
    let mut answer = trace(log.alloc(), start, steps.as_slice());
    if let Some(part) = refused_part(&answer) {
        log.tell_refusal("trace", part)?;
        if !is_without(log.alloc(), start, steps, part, answer)? {
            log.show("trace", &"other steps are not reported as without that one")?;
        }
        answer = trace(log.alloc(), start, steps.as_slice());
    }
    let reports = answer?;
    log.tell_answer("trace", Ok(()))?;
    log.tell("reports", &reports)?;
    tell_trees(log, reports.as_slice())?;
    log.drop_apart(reports)
}

/// Says what the trees are that came about.
fn tell_trees(log: &Transcript<'_>, reports: &[Report]) -> Result<(), Stop> {
    for report in reports {
        if let Report::Replaced(root) = report {
            log.tell("tree", &Shape(root.green()))?;
        }
    }
    Ok(())
}

/// Which part of a trace was refused for memory.
fn refused_part(answer: &Result<Vec<Report>, Fault>) -> Option<Part> {
    match answer {
        Err(_) => Some(Part::Whole),
        Ok(reports) => {
            let refused = Report::Refused(Fault::Memory);
            let at = reports.iter().position(|report| *report == refused)?;
            Some(Part::Step(at))
        }
    }
}

/// Whether the reports are those of the steps without the refused one. Where the whole trace was
/// refused there are none.
fn is_without(
    alloc: Global,
    start: &SyntaxNode,
    steps: &mut Vec<Step>,
    part: Part,
    answer: Result<Vec<Report>, Fault>,
) -> Result<bool, Fault> {
    match part {
        Part::Step(at) if at < steps.len() => {
            let step = steps.remove(at);
            let mut reports = trace(alloc, start, steps.as_slice())?;
            if at > steps.len() || at > reports.len() {
                return Ok(false);
            }
            steps.insert(at, step)?;
            reports.insert(at, Report::Refused(Fault::Memory))?;
            Ok(answer == Ok(reports))
        }
        _ => Ok(part == Part::Whole),
    }
}
