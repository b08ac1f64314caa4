//! The builder calls of a case, which are made as scripts: runs of calls, each with the outcomes of
//! all.

use crate::answer::{Answer, Answered};
use crate::case_file::Line;
use crate::checkpoint;
use crate::instruction::Call;
use rowan::script::{self, Outcome, replay};
use rowan::{Checkpoint, Fault, GreenNodeBuilder};
use std::alloc::Global;
use std::mem;

/// Calls that are still to be made, with their lines, and the marks that earlier ones took.
#[derive(Drop)]
pub struct Run<'s> {
    alloc: Global,
    calls: Vec<script::Call>,
    lines: Vec<&'s Line>,
    marks: Vec<Checkpoint>,
    /// More elements than the builder of the case can hold.
    too_many: usize,
}

impl<'s> Run<'s> {
    /// The run of a case of so many lines.
    pub fn new(alloc: Global, line_count: usize) -> Run<'s> {
        Run {
            alloc,
            calls: Vec::new(alloc),
            lines: Vec::new(alloc),
            marks: Vec::new(alloc),
            too_many: line_count.saturating_add(1),
        }
    }

    /// Adds a call that is to be made.
    pub fn push(&mut self, line: &'s Line, call: &Call) -> Result<(), Fault> {
        let call = self.script_call(call)?;
        self.calls.push(call)?;
        self.lines.push(line)?;
        Ok(())
    }

    fn script_call(&self, call: &Call) -> Result<script::Call, Fault> {
        Ok(match call {
            Call::Token(kind, text) => script::Call::Token(*kind, text.clone()?),
            Call::StartNode(kind) => script::Call::StartNode(*kind),
            Call::FinishNode => script::Call::FinishNode,
            Call::Mark => script::Call::Mark,
            // A script numbers its own marks from 0.
            Call::StartNodeAt(mark, kind) => match self.marks.get(*mark as usize) {
                Some(taken) => script::Call::StartNodeAtCheckpoint(*taken, *kind),
                None => {
                    let mark = (*mark as usize).saturating_sub(self.marks.len());
                    script::Call::StartNodeAt(mark, *kind)
                }
            },
            // All checkpoints past the elements of the builder are refused alike, so one of them
            // stands for a far one.
            Call::StartNodeAtCheckpoint(tokens, kind) => {
                let tokens = (*tokens as usize).min(self.too_many);
                let checkpoint = checkpoint::with_tokens(self.alloc, tokens)?;
                script::Call::StartNodeAtCheckpoint(checkpoint, *kind)
            }
        })
    }

    /// Makes the calls that were added, and answers them.
    pub fn make(
        &mut self,
        builder: &mut GreenNodeBuilder<'_>,
        answers: &mut Vec<Answered<'s>>,
    ) -> Result<(), Fault> {
        let calls = mem::replace(&mut self.calls, Vec::new(self.alloc));
        let lines = mem::replace(&mut self.lines, Vec::new(self.alloc));
        let outcomes = replay(self.alloc, builder, calls.as_slice())?;
        for (line, outcome) in lines.into_iter().zip(outcomes) {
            let answer = self.answer(outcome)?;
            answers.push(line.with_answer(answer))?;
        }
        Ok(())
    }

    fn answer(&mut self, outcome: Outcome) -> Result<Answer<'s>, Fault> {
        match outcome {
            Outcome::Accepted => Ok(Answer::Accepted),
            Outcome::Marked(mark) => {
                self.marks.push(mark)?;
                Ok(Answer::Marked(checkpoint::number_of(self.alloc, mark)?))
            }
            Outcome::Refused(fault) => Ok(Answer::Refused(fault)),
        }
    }
}
