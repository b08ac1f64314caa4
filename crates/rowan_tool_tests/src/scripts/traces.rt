//! Traces of steps through the tree of `(+ (* 15 2) 62)`.
use crate::parts::Part::{self, Close, Leaf, Open};
use crate::scripts::report::Answer::{self, Moved, Nowhere, Refused, Replaced};
use crate::scripts::report::are_answered;
use crate::scripts::word::tree;
use rowan::cursor::SyntaxNode;
use rowan::script::{Report, Step, trace};
use rowan::{Fault, GreenNode, GreenToken, SyntaxKind, TextSize};
use std::alloc::Global;
use std::test::Fail;

const L_PAREN: u16 = 0;

const R_PAREN: u16 = 1;

const WORD: u16 = 2;

const SPACE: u16 = 3;

const LIST: u16 = 5;

const ATOM: u16 = 6;

const ROOT: u16 = 7;

const SUM: [Part; 29] = [
    Open(ROOT),
    Open(LIST),
    Leaf(L_PAREN, "("),
    Open(ATOM),
    Leaf(WORD, "+"),
    Close,
    Leaf(SPACE, " "),
    Open(LIST),
    Leaf(L_PAREN, "("),
    Open(ATOM),
    Leaf(WORD, "*"),
    Close,
    Leaf(SPACE, " "),
    Open(ATOM),
    Leaf(WORD, "15"),
    Close,
    Leaf(SPACE, " "),
    Open(ATOM),
    Leaf(WORD, "2"),
    Close,
    Leaf(R_PAREN, ")"),
    Close,
    Leaf(SPACE, " "),
    Open(ATOM),
    Leaf(WORD, "62"),
    Close,
    Leaf(R_PAREN, ")"),
    Close,
    Close,
];

fn sum(alloc: Global) -> Result<SyntaxNode, Fault> {
    SyntaxNode::new_root(alloc, tree(alloc, SUM.as_slice())?)
}

/// A step, as a constant can hold it. A token that is put has a kind and a text.
#[derive(Clone, Copy)]
enum Way {
    FirstToken,
    NextToken,
    PrevToken,
    Parent,
    NextSibling,
    LeftTokenAt(u32),
    RightTokenAt(u32),
    Put(u16, &'static str),
}

use Way::{FirstToken, LeftTokenAt, NextSibling, NextToken, Parent, PrevToken, Put, RightTokenAt};

fn step(alloc: Global, way: Way) -> Result<Step, Fault> {
    match way {
        FirstToken => Ok(Step::FirstToken),
        NextToken => Ok(Step::NextToken),
        PrevToken => Ok(Step::PrevToken),
        Parent => Ok(Step::Parent),
        NextSibling => Ok(Step::NextSibling),
        LeftTokenAt(offset) => Ok(Step::LeftTokenAt(TextSize::from(offset))),
        RightTokenAt(offset) => Ok(Step::RightTokenAt(TextSize::from(offset))),
        Put(kind, text) => {
            GreenToken::new(alloc, SyntaxKind(kind), text).map(Step::ReplaceToken)
        }
    }
}

fn steps(alloc: Global, ways: &[Way]) -> Result<Vec<Step>, Fault> {
    let mut steps = Vec::new(alloc);
    for way in ways {
        steps.push(step(alloc, *way)?)?;
    }
    Ok(steps)
}

/// The reports of the steps from the root of the sum.
fn reports(alloc: Global, ways: &[Way]) -> Result<Vec<Report>, Fault> {
    let steps = steps(alloc, ways)?;
    trace(alloc, &sum(alloc)?, steps.as_slice())
}

/// Whether the steps from the root of the sum are reported so.
fn is_reported(alloc: Global, ways: &[Way], answers: &[Answer]) -> Result<bool, Fault> {
    let reports = reports(alloc, ways)?;
    Ok(are_answered(reports.as_slice(), answers))
}

#[test]
fn trace_of_sum(rt: HostRuntime) -> Result<(), Fail> {
    let ways = [
        FirstToken,
        NextToken,
        NextToken,
        Parent,
        NextSibling,
        RightTokenAt(6),
        Put(WORD, "7"),
        Put(WORD, "7"),
        LeftTokenAt(20),
    ];
    let answers = [
        Moved(L_PAREN, 0, 1),
        Moved(WORD, 1, 2),
        Moved(SPACE, 2, 3),
        Moved(LIST, 0, 15),
        Nowhere,
        Moved(WORD, 6, 8),
        Replaced(0, 14),
        Nowhere,
        Nowhere,
    ];
    assert!(rt; is_reported(rt.alloc(), ways.as_slice(), answers.as_slice())?);
    Ok(())
}

#[test]
fn another_kind_is_refused(rt: HostRuntime) -> Result<(), Fail> {
    let ways = [RightTokenAt(6), Put(ATOM, "7"), PrevToken];
    let answers = [
        Moved(WORD, 6, 8),
        Refused(Fault::OtherKind),
        Moved(SPACE, 5, 6),
    ];
    assert!(rt; is_reported(rt.alloc(), ways.as_slice(), answers.as_slice())?);
    Ok(())
}

/// The green root after the latest replacement of a trace from the root of the sum.
fn last_root(alloc: Global, ways: &[Way]) -> Result<GreenNode, Fault> {
    let reports = reports(alloc, ways)?;
    match reports.last() {
        Some(Report::Replaced(root)) => Ok(root.green().clone()?),
        _ => Err(Fault::NotFound),
    }
}

#[test]
fn separate_replacements(rt: HostRuntime) -> Result<(), Fail> {
    let ways = [
        RightTokenAt(6),
        Put(WORD, "7"),
        RightTokenAt(11),
        Put(WORD, "100"),
    ];
    let in_order = last_root(rt.alloc(), ways.as_slice())?;
    assert!(rt; in_order.to_string(rt.alloc())?.as_str() == "(+ (* 7 2) 100)");
    let ways = [
        RightTokenAt(12),
        Put(WORD, "100"),
        RightTokenAt(6),
        Put(WORD, "7"),
    ];
    assert!(rt; last_root(rt.alloc(), ways.as_slice()) == Ok(in_order));
    Ok(())
}
