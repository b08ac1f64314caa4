//! Answers case files by public calls of the library, and compares answers with stored ones.
//!
//! Without arguments it reads a case file on standard input and writes its answers. Each argument
//! names stored answers: for each it prints how many answers are equal, or which is the first other
//! one, and then it ends with status 1. After `other:` it is the other way round: it ends with status
//! 1 where all are equal. `crates/rowan_cases/README.md` describes all of this.
#![tactic(auto)]

mod answer;
mod building;
mod by_refs;
mod case_file;
mod checkpoint;
mod compare;
mod cursor;
mod element;
mod instruction;
mod list_edits;
mod operand;
mod pointers;
mod program_run;
mod run;
mod runner;
mod standing;
mod stored;
mod texts;
mod trace;
mod tree;
mod wrapper;

use anyhow::{Context, Result};
use case_file::CaseFile;
use runner::Caches;
use std::process::ExitCode;
use std::{env, io};

/// Answers the case file on standard input.
fn answer_input(rt: &(impl Input + Print + AllocGlobal)) -> Result<()> {
    let alloc = rt.alloc();
    let text = io::read_to_string(alloc, rt.reader()).context("reading the case file")?;
    let file = CaseFile::parse(alloc, text.as_str())?;
    answer_file(rt, &file)
}

/// Writes the answers of a case file, a line each.
fn answer_file(rt: &(impl Print + AllocGlobal), file: &CaseFile) -> Result<()> {
    let (answers, _) = runner::answers_of(rt.alloc(), file, Caches::OfCases)?;
    for answered in answers.as_slice() {
        println!(rt; "{}", answered.text(rt.alloc())?)?;
    }
    Ok(())
}

fn main(rt: HostRuntime) -> Result<ExitCode> {
    let arguments: Vec<String> = env::args(&rt)?.skip(1).collect(rt.alloc())?;
    if arguments.is_empty() {
        answer_input(&rt)?;
    }
    for argument in arguments.as_slice() {
        if !stored::is_as_wanted(&rt, argument.as_str())? {
            return Ok(ExitCode::FAILURE);
        }
    }
    Ok(ExitCode::SUCCESS)
}
