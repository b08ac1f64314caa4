//! Turns that are timed, of which each makes a tree.

use anyhow::Result;
use rowan::{Fault, GreenNode};
use std::alloc::Global;
use std::time::{Duration, Instant};

/// What is done in a turn, over values that are made before.
pub trait Turn {
    /// Does it, and gives the tree that it made, if any.
    fn take(&self, alloc: Global) -> Result<Option<GreenNode>, Fault>;
}

/// How many marks the text of a tree has.
fn count_marks(alloc: Global, tree: &GreenNode) -> Result<usize> {
    let text = format!(in alloc; "{tree}")?;
    Ok(text.bytes().filter(|byte| *byte == b'#').count())
}

/// The time of so many turns, and how many marks the last tree has. What a turn makes is dropped within the time.
pub fn time(rt: &HostRuntime, turn: &impl Turn, turns: usize) -> Result<(Duration, usize)> {
    let mut last = None;
    let start = Instant::now(rt)?;
    for _ in 0..turns {
        last = turn.take(rt.alloc())?;
    }
    let total = start.elapsed(rt)?;
    match &last {
        Some(tree) => Ok((total, count_marks(rt.alloc(), tree)?)),
        None => Ok((total, 0)),
    }
}
