//! A case file, cut into its cases.

use crate::answer::{Answer, Answered};
use crate::instruction::Instruction;
use crate::operand;
use anyhow::{Context, Result, bail, ensure};
use std::alloc::Global;

/// A case file. The names of its cases are slices of the text that was read.
#[derive(Drop)]
pub struct CaseFile<'a> {
    pub cases: Vec<Case<'a>>,
}

/// A case: one tree is built, and then the steps go from its root.
#[derive(Drop)]
pub struct Case<'a> {
    pub name: &'a str,
    /// The number of its first line in the file, from 1.
    pub number: usize,
    pub cache: Option<CacheLine>,
    pub lines: Vec<Line>,
}

/// The line `Cache N L`: the builder borrows the cache of this number, which is made with this
/// limit.
#[derive(Clone, Copy)]
pub struct CacheLine {
    pub line: usize,
    pub number: u32,
    pub limit: u32,
}

/// An instruction, and the number of its line.
#[derive(Drop)]
pub struct Line {
    pub number: usize,
    pub instruction: Instruction,
}

impl Line {
    /// An answer to this line.
    pub fn with_answer<'a>(&self, answer: Answer<'a>) -> Answered<'a> {
        self.with_answers(answer, None)
    }

    /// An answer to this line, and that of borrowed cursors.
    pub fn with_answers<'a>(&self, answer: Answer<'a>, by_refs: Option<String>) -> Answered<'a> {
        Answered {
            line: self.number,
            answer,
            by_refs,
        }
    }
}

impl<'a> CaseFile<'a> {
    /// Reads a case file. A line that is no instruction is an error that names the line, and then
    /// nothing is run.
    pub fn parse(alloc: Global, text: &'a str) -> Result<CaseFile<'a>> {
        let mut file = CaseFile {
            cases: Vec::new(alloc),
        };
        let mut number = 0usize;
        for line in text.split('\n') {
            number = number.saturating_add(1);
            let is_comment = line.starts_with('#');
            if is_comment || line.trim().is_empty() {
                continue;
            }
            file.push_line(alloc, number, line)
                .context(format_args!("line {number}"))?;
        }
        Ok(file)
    }

    fn push_line(&mut self, alloc: Global, number: usize, line: &'a str) -> Result<()> {
        if let Some(name) = line.strip_prefix("case ") {
            self.cases.push(Case {
                name,
                number,
                cache: None,
                lines: Vec::new(alloc),
            })?;
            return Ok(());
        }
        match self.cases.last_mut() {
            Some(case) => case.push_line(alloc, number, line),
            None => bail!("an instruction before the first case"),
        }
    }
}

impl<'a> Case<'a> {
    /// The answer to its first line.
    pub fn beginning(&self) -> Answered<'a> {
        Answered {
            line: self.number,
            answer: Answer::Case(self.name),
            by_refs: None,
        }
    }

    fn push_line(&mut self, alloc: Global, number: usize, line: &str) -> Result<()> {
        if let Some(operands) = line.strip_prefix("Cache ") {
            ensure!(
                self.cache.is_none() && self.lines.is_empty(),
                "Cache stands only as the first instruction of a case"
            );
            let (cache, limit) = operand::pair(operands)?;
            self.cache = Some(CacheLine {
                line: number,
                number: operand::number(cache)?,
                limit: operand::number(limit)?,
            });
            return Ok(());
        }
        let instruction = Instruction::parse(alloc, line)?;
        self.lines.push(Line {
            number,
            instruction,
        })?;
        Ok(())
    }
}
