//! The building part of a case: the lines up to the one that gives its tree.

use crate::answer::{Answer, Answered};
use crate::case_file::Line;
use crate::instruction::Instruction;
use crate::run::Run;
use rowan::{Fault, GreenNode, GreenNodeBuilder};
use std::alloc::Global;

/// How the building part ended, and the lines behind it.
#[derive(Drop)]
pub enum Built<'s> {
    /// A tree is finished.
    Finished(GreenNode, &'s [Line]),
    /// A text is to be parsed in place of builder calls. The line of `Parse` is not answered.
    Parse(&'s Line, &'s str, &'s [Line]),
    /// The case has no more lines.
    Open,
}

/// Answers the lines of a case up to the one that gives its tree.
pub fn build<'cache, 's>(
    alloc: Global,
    builder: GreenNodeBuilder<'cache>,
    lines: &'s [Line],
    answers: &mut Vec<Answered<'s>>,
) -> Result<Built<'s>, Fault> {
    let mut builder = builder;
    let mut run = Run::new(alloc, lines.len());
    let mut rest = lines;
    while let Some((line, others)) = rest.split_first() {
        rest = others;
        if let Instruction::Call(call) = &line.instruction {
            run.push(line, call)?;
            continue;
        }
        run.make(&mut builder, answers)?;
        let answer = match &line.instruction {
            Instruction::Finish => match builder.finish() {
                Ok(tree) => {
                    answers.push(line.with_answer(Answer::Finished(tree.clone()?)))?;
                    return Ok(Built::Finished(tree, rest));
                }
                Err(unfinished) => {
                    let fault = unfinished.fault();
                    builder = unfinished.into_builder();
                    Answer::Refused(fault)
                }
            },
            Instruction::Parse(text) => return Ok(Built::Parse(line, text.as_str(), rest)),
            Instruction::Counts => Answer::counts(builder.cache()),
            Instruction::Call(_)
            | Instruction::ScriptStep(_)
            | Instruction::Step(_)
            | Instruction::EditList(_) => Answer::NoTree,
        };
        answers.push(line.with_answer(answer))?;
    }
    run.make(&mut builder, answers)?;
    Ok(Built::Open)
}
