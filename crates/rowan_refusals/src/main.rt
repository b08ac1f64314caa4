//! Worked cases over a heap that refuses one request for memory: `tools/refuse_each_request` links
//! the program with such a heap, has it refuse the first request, then the second and so on, and
//! judges what the program prints.
//!
//! Each call of a case prints a line with its answer. Where it is refused for memory it is made
//! once more, so that all other lines have to be those of a run in which nothing is refused. The
//! cases are data, and no part of the program asks for memory between a call and its answer.
#![tactic(auto)]

mod building;
mod calls;
mod cases;
mod drops;
mod edits;
mod making;
mod moving;
mod pointers;
mod refs;
mod reparses;
mod searches;
mod sessions;
mod state;
mod step;
mod texts;
mod traces;
mod trees;
mod typed;
mod typed_refs;
mod walks;

use cases::CASES;
use drops::run_drops;
use reparses::REPARSES;
use rowan_transcript::{Phase, Stop, Transcript};
use state::State;
use std::process::ExitCode;
use step::Case;

fn main(rt: HostRuntime) -> ExitCode {
    match run_cases(&Transcript::new(&rt)) {
        Ok(()) => ExitCode::SUCCESS,
        Err(stop) => {
            let _ = eprintln!(rt; "rowan_refusals: {stop}");
            ExitCode::FAILURE
        }
    }
}

fn run_cases(log: &Transcript<'_>) -> Result<(), Stop> {
    run_each(log, CASES.as_slice())?;
    run_each(log, REPARSES.as_slice())?;
    run_drops(log)
}

fn run_each(log: &Transcript<'_>, cases: &[Case]) -> Result<(), Stop> {
    for case in cases {
        run_case(log, *case)?;
    }
    Ok(())
}

fn run_case(log: &Transcript<'_>, case: Case) -> Result<(), Stop> {
    log.case(case.name)?;
    log.phase(Phase::Making)?;
    let mut state = State::new(log.alloc());
    for step in case.steps {
        state.take(log, *step)?;
    }
    log.phase(Phase::Dropping)
}
