use crate::script::errors::ERRORS;
use crate::script::lines::LINES;
use crate::script::operators::OPERATORS;
use crate::script::strings::STRINGS;
use crate::script::trees::Case;
use rowan::Fault;
use script_syntax::{parse, parse_to_depth};
use std::alloc::Global;
use std::process::Abort;
use std::test::Fail;

/// Whether the tree of a text has this text.
fn is_kept(alloc: Global, text: &str) -> Result<bool, Fault> {
    let parse = parse(alloc, text)?;
    Ok(parse.green.to_string(alloc)?.as_str() == text)
}

fn check(rt: &impl Abort, alloc: Global, cases: &[Case]) -> Result<(), Fail> {
    for case in cases {
        for (end, _) in case.text.char_indices() {
            let prefix = case.text.get(..end).unwrap_or("");
            assert!(rt; is_kept(alloc, prefix)?, "{prefix}");
        }
    }
    Ok(())
}

#[test]
fn every_prefix_is_kept(rt: HostRuntime) -> Result<(), Fail> {
    check(&rt, rt.alloc(), &LINES)?;
    check(&rt, rt.alloc(), &OPERATORS)?;
    check(&rt, rt.alloc(), &STRINGS)?;
    check(&rt, rt.alloc(), &ERRORS)
}

/// How long texts begin, and what they repeat.
const LONG: [(&str, &str); 7] = [
    ("", "{"),
    ("", "f("),
    ("", "\"${"),
    ("", "a<"),
    ("", "f(x\n"),
    ("union U {", "a: {"),
    ("let x: ", "A<"),
];

fn repeated(alloc: Global, head: &str, part: &str, times: usize) -> Result<String, Fault> {
    let mut text = String::from_str(alloc, head)?;
    for _ in 0..times {
        text.push_str(part)?;
    }
    Ok(text)
}

#[test]
fn long_texts_are_kept(rt: HostRuntime) -> Result<(), Fail> {
    for (head, part) in LONG {
        let text = repeated(rt.alloc(), head, part, 10_000)?;
        assert!(rt; is_kept(rt.alloc(), text.as_str())?, "{part}");
    }
    Ok(())
}

/// No caller gets past the limit, so stack is left.
#[test]
fn no_depth_is_more_than_the_limit(rt: HostRuntime) -> Result<(), Fail> {
    for (head, part) in LONG {
        let text = repeated(rt.alloc(), head, part, 10_000)?;
        let parse = parse_to_depth(rt.alloc(), text.as_str(), usize::MAX)?;
        let kept = parse.green.to_string(rt.alloc())?;
        assert!(rt; kept.as_str() == text.as_str(), "{part}");
    }
    Ok(())
}

#[test]
fn a_million_brackets_are_kept(rt: HostRuntime) -> Result<(), Fail> {
    let text = "(".repeat(rt.alloc(), 1_000_000)?;
    assert!(rt; is_kept(rt.alloc(), text.as_str())?);
    Ok(())
}

#[test]
fn many_lines_of_comments_are_kept(rt: HostRuntime) -> Result<(), Fail> {
    let mut text = repeated(rt.alloc(), "// first\n\n", "// a line\n", 20_000)?;
    text.push_str("fn f() {}")?;
    assert!(rt; is_kept(rt.alloc(), text.as_str())?);
    Ok(())
}
