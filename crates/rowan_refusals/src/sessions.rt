//! Sessions of builder calls and steps, of which a single call may be refused.

use crate::calls::Call;
use rowan::cursor::SyntaxNode;
use rowan::script::{self, Outcome, Report, Session, Step, replay, session, trace};
use rowan::{Fault, GreenNode, GreenNodeBuilder, NodeCache};
use rowan_transcript::{Part, Shape, Stop, Transcript};
use std::alloc::Global;

/// How the calls are made, and then two steps from the root of their tree: to its first token, and
/// to the next.
#[derive(Clone, Copy)]
pub enum Playing {
    /// By `session`, with an own cache.
    OwnCache,
    /// By `session`, over the cache of the case.
    LentCache,
    /// By `replay` over the cache of the case, then `finish`, `new_root` and `trace`.
    Replay,
}

impl Playing {
    fn name(self) -> &'static str {
        match self {
            Playing::OwnCache => "session",
            Playing::LentCache => "session over the cache",
            Playing::Replay => "replay over the cache",
        }
    }

    fn play(
        self,
        alloc: Global,
        cache: &mut NodeCache,
        calls: &[script::Call],
    ) -> Result<Session, Fault> {
        let steps = [Step::FirstToken, Step::NextToken];
        let steps = steps.as_slice();
        match self {
            Playing::OwnCache => session(alloc, GreenNodeBuilder::new(alloc), calls, steps),
            Playing::LentCache => {
                let builder = GreenNodeBuilder::with_cache(alloc, cache);
                session(alloc, builder, calls, steps)
            }
            Playing::Replay => replay_session(alloc, cache, calls),
        }
    }
}

/// The session of these calls, by the calls that it is made of.
fn replay_session(
    alloc: Global,
    cache: &mut NodeCache,
    calls: &[script::Call],
) -> Result<Session, Fault> {
    let mut builder = GreenNodeBuilder::with_cache(alloc, cache);
    let outcomes = replay(alloc, &mut builder, calls)?;
    let end = match builder.finish() {
        Ok(tree) => walk(alloc, tree),
        Err(unfinished) => Err(unfinished.fault()),
    };
    Ok(Session { outcomes, end })
}

/// The root of a tree, and what the two steps from there report.
fn walk(alloc: Global, tree: GreenNode) -> Result<(SyntaxNode, Vec<Report>), Fault> {
    let root = SyntaxNode::new_root(alloc, tree)?;
    let steps = [Step::FirstToken, Step::NextToken];
    let reports = trace(alloc, &root, steps.as_slice())?;
    Ok((root, reports))
}

/// The session of these calls one by one, on a builder with a cache of its own, without the part
/// that was refused.
fn without(alloc: Global, calls: &[Call], part: Part) -> Result<Session, Fault> {
    let mut builder = GreenNodeBuilder::new(alloc);
    let mut marks = Vec::new(alloc);
    let mut outcomes = Vec::new(alloc);
    for (number, call) in calls.iter().enumerate() {
        let outcome = if part == Part::Call(number) {
            Outcome::Refused(Fault::Memory)
        } else {
            call.outcome(&mut builder, &mut marks)
        };
        outcomes.push(outcome)?;
    }
    let end = match builder.finish() {
        Ok(tree) => walk(alloc, tree),
        Err(unfinished) => Err(unfinished.fault()),
    };
    match part {
        Part::End => Ok(Session {
            outcomes,
            end: Err(Fault::Memory),
        }),
        _ => Ok(Session { outcomes, end }),
    }
}

/// Which part of a session was refused for memory.
fn refused_part(answer: &Result<Session, Fault>) -> Option<Part> {
    let Ok(session) = answer else {
        return Some(Part::Whole);
    };
    let refused = Outcome::Refused(Fault::Memory);
    match session.outcomes.iter().position(|it| *it == refused) {
        Some(number) => Some(Part::Call(number)),
        None => match &session.end {
            Err(Fault::Memory) => Some(Part::End),
            _ => None,
        },
    }
}

/// How many tokens and nodes a cache keeps.
fn counts(cache: &NodeCache) -> (usize, usize) {
    (cache.token_count(), cache.node_count())
}

/// Says what a session answers, and drops it. Where a request is refused in it, it is made once
/// more.
pub fn tell_session(
    log: &Transcript<'_>,
    playing: Playing,
    cache: &mut NodeCache,
    calls: &[Call],
    script: &[script::Call],
) -> Result<(), Stop> {
    let kept = counts(cache);
    let mut answer = playing.play(log.alloc(), cache, script);
    if let Some(part) = refused_part(&answer) {
        log.tell_refusal(playing.name(), part)?;
        let is_right = match answer {
            Ok(session) => session == without(log.alloc(), calls, part)?,
            Err(_) => counts(cache) == kept,
        };
        if !is_right {
            log.show(playing.name(), &"it is not as without what was refused")?;
        }
        answer = playing.play(log.alloc(), cache, script);
    }
    let session = answer?;
    log.tell_answer(playing.name(), Ok(()))?;
    log.tell("outcomes", &session.outcomes)?;
    log.tell("end", &session.end)?;
    if let Ok((root, _)) = &session.end {
        log.tell("tree", &Shape(root.green()))?;
    }
    log.drop_apart(session)
}
