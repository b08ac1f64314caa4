//! Sessions over the calls of `1 + 2 * 3 + 4`.
use crate::scripts::math::{MATH, NUMBER, WHITESPACE};
use crate::scripts::report::Answer::Moved;
use crate::scripts::report::are_answered;
use crate::scripts::run::Run;
use crate::scripts::worked::{MATH_OPERATIONS, calls, expected_run};
use rowan::script::{Call, Session, Step, session};
use rowan::{Fault, GreenNodeBuilder, NodeCache};
use std::alloc::Global;
use std::test::Fail;

fn with_own_cache(alloc: Global, calls: &[Call]) -> Result<Session, Fault> {
    let steps = [Step::FirstToken, Step::NextToken];
    session(alloc, GreenNodeBuilder::new(alloc), calls, steps.as_slice())
}

fn with_cache(alloc: Global, calls: &[Call], cache: &mut NodeCache) -> Result<Session, Fault> {
    let steps = [Step::FirstToken, Step::NextToken];
    session(
        alloc,
        GreenNodeBuilder::with_cache(alloc, cache),
        calls,
        steps.as_slice(),
    )
}

/// Whether the session has the outcomes and the tree of the run, and went to the tree's first two
/// tokens.
fn is_of(session: &Session, run: &Run) -> bool {
    let Ok((root, reports)) = &session.end else {
        return false;
    };
    let Ok(tree) = &run.finished else {
        return false;
    };
    let answers = [Moved(NUMBER, 0, 1), Moved(WHITESPACE, 1, 2)];
    session.outcomes == run.outcomes
        && *root.green() == *tree
        && are_answered(reports.as_slice(), answers.as_slice())
}

/// Whether a session is this one.
fn is_session(found: Result<Session, Fault>, expected: &Session) -> bool {
    match found {
        Ok(found) => found == *expected,
        Err(_) => false,
    }
}

/// Whether the calls answer so, with an own cache, and twice with a cache that is lent.
fn are_sessions(alloc: Global, calls: &[Call], run: &Run) -> Result<bool, Fault> {
    let own = with_own_cache(alloc, calls)?;
    let mut cache = NodeCache::new(alloc);
    let are_same = is_session(with_cache(alloc, calls, &mut cache), &own)
        && is_session(with_cache(alloc, calls, &mut cache), &own);
    let is_kept = cache.token_count() == 7 && cache.node_count() == 0;
    Ok(are_same && is_kept && is_of(&own, run))
}

/// Whether the first of the calls answer so.
fn is_answered(alloc: Global, count: usize, run: &Run) -> Result<bool, Fault> {
    let calls = calls(alloc, &MATH_OPERATIONS)?;
    match calls.get(..count) {
        Some(calls) => are_sessions(alloc, calls, run),
        None => Ok(false),
    }
}

#[test]
fn session_of_math(rt: HostRuntime) -> Result<(), Fail> {
    let run = expected_run(rt.alloc(), MATH_OPERATIONS.as_slice(), MATH.as_slice())?;
    assert!(rt; is_answered(rt.alloc(), 23, &run) == Ok(true));
    Ok(())
}

#[test]
fn session_of_an_open_root(rt: HostRuntime) -> Result<(), Fail> {
    let run = expected_run(rt.alloc(), &MATH_OPERATIONS[..22], &MATH[1..20])?;
    assert!(rt; is_answered(rt.alloc(), 22, &run) == Ok(true));
    Ok(())
}

#[test]
fn session_of_no_calls(rt: HostRuntime) {
    let mut cache = NodeCache::new(rt.alloc());
    let none = Session {
        outcomes: Vec::new(rt.alloc()),
        end: Err(Fault::NotOneElement),
    };
    assert!(rt; is_session(with_own_cache(rt.alloc(), &[]), &none));
    assert!(rt; is_session(with_cache(rt.alloc(), &[], &mut cache), &none));
}
