//! Runs of a builder over a script.
use rowan::script::{Call, Outcome, replay};
use rowan::{Fault, GreenNode, GreenNodeBuilder, NodeCache};
use std::alloc::Global;

/// What a run answers: the outcome of each call, and then the tree or why there is none.
#[derive(PartialEq, Drop)]
pub struct Run {
    pub outcomes: Vec<Outcome>,
    pub finished: Result<GreenNode, Fault>,
}

/// Makes the calls on a new builder with its own cache, and finishes it.
pub fn with_own_cache(alloc: Global, calls: &[Call]) -> Result<Run, Fault> {
    let mut builder = GreenNodeBuilder::new(alloc);
    let outcomes = replay(alloc, &mut builder, calls)?;
    match builder.finish() {
        Ok(tree) => return Ok(run_of(outcomes, Ok(tree))),
        Err(unfinished) => return Ok(run_of(outcomes, Err(unfinished.fault()))),
    }
}

/// Makes the calls on a new builder with this cache, and finishes it.
pub fn with_cache(alloc: Global, calls: &[Call], cache: &mut NodeCache) -> Result<Run, Fault> {
    let mut builder = GreenNodeBuilder::with_cache(alloc, cache);
    let outcomes = replay(alloc, &mut builder, calls)?;
    match builder.finish() {
        Ok(tree) => return Ok(run_of(outcomes, Ok(tree))),
        Err(unfinished) => return Ok(run_of(outcomes, Err(unfinished.fault()))),
    }
}

fn run_of(outcomes: Vec<Outcome>, finished: Result<GreenNode, Fault>) -> Run {
    Run { outcomes, finished }
}
