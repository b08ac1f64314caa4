//! Worked runs, with the answer to each call beside it.
use crate::parts::Part::{self, Close, Open};
use crate::scripts::math::{ADD, MATH, MUL, NUMBER, OPERATION, ROOT, WHITESPACE};
use crate::scripts::run::{Run, with_cache, with_own_cache};
use crate::scripts::step::Step::{Finish, Mark, Start, StartAtMark, Token};
use crate::scripts::step::{Step, call, checkpoint};
use crate::scripts::word::tree;
use rowan::script::{Call, Outcome};
use rowan::{Fault, NodeCache};
use std::alloc::{AllocError, Global};
use std::test::Fail;

/// The answer to a call.
#[derive(Clone, Copy)]
pub enum Answer {
    Accepted,
    /// The checkpoint that counts so many elements.
    Marked(usize),
    Refused(Fault),
}

use Answer::{Accepted, Marked, Refused};

const BLANK: Step = Token(WHITESPACE, " ");

pub const MATH_OPERATIONS: [(Step, Answer); 23] = [
    (Start(ROOT), Accepted),
    (Mark, Marked(0)),
    (Token(NUMBER, "1"), Accepted),
    (BLANK, Accepted),
    (StartAtMark(0, OPERATION), Accepted),
    (Token(ADD, "+"), Accepted),
    (Mark, Marked(3)),
    (BLANK, Accepted),
    (Token(NUMBER, "2"), Accepted),
    (BLANK, Accepted),
    (StartAtMark(1, OPERATION), Accepted),
    (Token(MUL, "*"), Accepted),
    (BLANK, Accepted),
    (Token(NUMBER, "3"), Accepted),
    (Finish, Accepted),
    (BLANK, Accepted),
    (Finish, Accepted),
    (StartAtMark(0, OPERATION), Accepted),
    (Token(ADD, "+"), Accepted),
    (BLANK, Accepted),
    (Token(NUMBER, "4"), Accepted),
    (Finish, Accepted),
    (Finish, Accepted),
];

const UNTAKEN_MARK: [(Step, Answer); 5] = [
    (Finish, Refused(Fault::NothingOpen)),
    (StartAtMark(0, ROOT), Refused(Fault::UnknownMark)),
    (Mark, Marked(0)),
    (StartAtMark(0, ROOT), Accepted),
    (Finish, Accepted),
];

/// The calls that are answered.
pub fn calls(alloc: Global, answered: &[(Step, Answer)]) -> Result<Vec<Call>, AllocError> {
    let mut calls = Vec::new(alloc);
    for (step, _) in answered {
        calls.push(call(alloc, *step)?)?;
    }
    Ok(calls)
}

fn outcome(alloc: Global, answer: Answer) -> Result<Outcome, Fault> {
    match answer {
        Accepted => Ok(Outcome::Accepted),
        Marked(count) => checkpoint(alloc, count).map(Outcome::Marked),
        Refused(fault) => Ok(Outcome::Refused(fault)),
    }
}

fn outcomes(alloc: Global, answered: &[(Step, Answer)]) -> Result<Vec<Outcome>, Fault> {
    let mut outcomes = Vec::new(alloc);
    for (_, answer) in answered {
        outcomes.push(outcome(alloc, *answer)?)?;
    }
    Ok(outcomes)
}

/// What a run of the calls has to answer.
pub fn expected_run(
    alloc: Global,
    answered: &[(Step, Answer)],
    symbols: &[Part],
) -> Result<Run, Fault> {
    let tree = tree(alloc, symbols)?;
    let outcomes = outcomes(alloc, answered)?;
    Ok(Run {
        outcomes,
        finished: Ok(tree),
    })
}

/// Whether a run answered as expected.
fn is_run(run: Result<Run, Fault>, expected: &Run) -> bool {
    match run {
        Ok(run) => run == *expected,
        Err(_) => false,
    }
}

/// Whether the calls are answered so, with an own cache, and twice with a cache that both runs
/// share.
fn are_runs(alloc: Global, calls: &[Call], expected: &Run) -> bool {
    let mut cache = NodeCache::new(alloc);
    is_run(with_own_cache(alloc, calls), expected)
        && is_run(with_cache(alloc, calls, &mut cache), expected)
        && is_run(with_cache(alloc, calls, &mut cache), expected)
}

/// Whether all runs of the calls have these answers, and this tree.
fn is_answered(
    alloc: Global,
    answered: &[(Step, Answer)],
    symbols: &[Part],
) -> Result<bool, Fault> {
    let calls = calls(alloc, answered)?;
    let expected = expected_run(alloc, answered, symbols)?;
    Ok(are_runs(alloc, calls.as_slice(), &expected))
}

#[test]
fn math_operations(rt: HostRuntime) -> Result<(), Fail> {
    assert!(rt; is_answered(rt.alloc(), MATH_OPERATIONS.as_slice(), MATH.as_slice())?);
    Ok(())
}

#[test]
fn wrap_at_untaken_mark(rt: HostRuntime) -> Result<(), Fail> {
    let symbols = [Open(ROOT), Close];
    assert!(rt; is_answered(rt.alloc(), UNTAKEN_MARK.as_slice(), symbols.as_slice())?);
    Ok(())
}
