//! Trees that are built call by call.

use crate::calls::{Call, Way};
use rowan::builder::CacheHome;
use rowan::{Checkpoint, Fault, GreenNode, GreenNodeBuilder, NodeCache};
use rowan_transcript::{Shape, Stop, Transcript};

/// Makes the calls, one after the other. One that is refused for memory is made once more.
pub fn make_all<H: CacheHome>(
    log: &Transcript<'_>,
    builder: &mut GreenNodeBuilder<'_, H>,
    way: Way,
    calls: &[Call],
) -> Result<(), Stop> {
    let mut marks = Vec::new(log.alloc());
    for call in calls {
        let mut answer = make(log, builder, &mut marks, way, *call);
        if let Err(Fault::Memory) = answer {
            log.tell_answer(*call, answer)?;
            answer = make(log, builder, &mut marks, way, *call);
        }
        log.tell_answer(*call, answer)?;
    }
    Ok(())
}

fn make<H: CacheHome>(
    log: &Transcript<'_>,
    builder: &mut GreenNodeBuilder<'_, H>,
    marks: &mut Vec<Checkpoint>,
    way: Way,
    call: Call,
) -> Result<(), Fault> {
    match way {
        Way::Method => call.make(builder, marks),
        Way::Replay => call.replay(log.alloc(), builder, marks),
    }
}

/// Says how a builder finished, and drops the tree.
fn tell_finished(log: &Transcript<'_>, finished: Result<GreenNode, Fault>) -> Result<(), Stop> {
    match finished {
        Ok(tree) => {
            log.tell_answer("finish", Ok(()))?;
            log.tell("tree", &Shape(&tree))?;
            log.drop_apart(tree)
        }
        Err(fault) => log.tell_answer("finish", Err(fault)),
    }
}

/// Builds with a builder that has its own cache.
pub fn build(log: &Transcript<'_>, calls: &[Call]) -> Result<(), Stop> {
    let mut builder = GreenNodeBuilder::new(log.alloc());
    make_all(log, &mut builder, Way::Method, calls)?;
    let finished = match builder.finish() {
        Ok(tree) => Ok(tree),
        Err(unfinished) => Err(unfinished.fault()),
    };
    tell_finished(log, finished)
}

/// Builds over a cache that is lent, and says what is in the cache then.
pub fn build_over(
    log: &Transcript<'_>,
    cache: &mut NodeCache,
    way: Way,
    calls: &[Call],
) -> Result<(), Stop> {
    let mut builder = GreenNodeBuilder::with_cache(log.alloc(), cache);
    make_all(log, &mut builder, way, calls)?;
    let finished = match builder.finish() {
        Ok(tree) => Ok(tree),
        Err(unfinished) => Err(unfinished.fault()),
    };
    tell_finished(log, finished)?;
    log.tell("tokens in the cache", &cache.token_count())?;
    log.tell("nodes in the cache", &cache.node_count())
}

/// Builds with a builder that is refused by `finish` after the first calls, comes back, and goes on
/// with the others.
pub fn build_on(log: &Transcript<'_>, calls: &[Call], others: &[Call]) -> Result<(), Stop> {
    let mut builder = GreenNodeBuilder::new(log.alloc());
    make_all(log, &mut builder, Way::Method, calls)?;
    let finished = match builder.finish() {
        Ok(tree) => Ok(tree),
        Err(unfinished) => {
            log.tell_answer("finish", Err(unfinished.fault()))?;
            let mut builder = unfinished.into_builder();
            make_all(log, &mut builder, Way::Method, others)?;
            match builder.finish() {
                Ok(tree) => Ok(tree),
                Err(unfinished) => Err(unfinished.fault()),
            }
        }
    };
    tell_finished(log, finished)
}
