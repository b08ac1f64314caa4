//! Worked cases of parsers, lines, editors and languages over a heap that refuses one request for
//! memory: `tools/refuse_each_request` links the program with such a heap, has it refuse the first
//! request, then the second and so on, and judges what the program prints.
//!
//! Each call of a case prints a line with its answer. Where it is refused for memory it is made
//! once more, so that all other lines have to be those of a run in which nothing is refused. The
//! cases are data, and no part of the program asks for memory between a call and its answer.
#![tactic(auto)]

mod documents;
mod many_edits;
mod parses;
mod typed_edits;

use documents::run_documents;
use many_edits::run_edits;
use parses::run_parses;
use rowan_transcript::{Stop, Transcript};
use std::process::ExitCode;
use typed_edits::run_typed_edits;

fn main(rt: HostRuntime) -> ExitCode {
    match run_cases(&Transcript::new(&rt)) {
        Ok(()) => ExitCode::SUCCESS,
        Err(stop) => {
            let _ = eprintln!(rt; "language_refusals: {stop}");
            ExitCode::FAILURE
        }
    }
}

fn run_cases(log: &Transcript<'_>) -> Result<(), Stop> {
    run_parses(log)?;
    run_edits(log)?;
    run_typed_edits(log)?;
    run_documents(log)
}
