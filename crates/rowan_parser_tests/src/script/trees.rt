use crate::script::errors::ERRORS;
use crate::script::lines::LINES;
use crate::script::operators::OPERATORS;
use crate::script::strings::STRINGS;
use rowan::{Fault, SyntaxNode};
use rowan_parser::SyntaxError;
use script_syntax::{Script, Source, parse, parse_to_depth};
use std::alloc::Global;
use std::process::Abort;
use std::test::Fail;

/// A text with its tree and its errors, which were worked out by hand. Brackets may stand 2 deep.
#[derive(Clone, Copy)]
pub struct Case {
    pub text: &'static str,
    pub tree: &'static str,
    /// The bytes at which each stands, and its message.
    pub errors: &'static str,
}

fn list(alloc: Global, errors: &[SyntaxError]) -> Result<String, Fault> {
    let mut out = String::new(alloc);
    for error in errors {
        writeln!(out, "{:?} {}", error.range, error.message)?;
    }
    Ok(out)
}

fn check(rt: &impl Abort, alloc: Global, cases: &[Case]) -> Result<(), Fail> {
    for case in cases {
        let parse = parse_to_depth(alloc, case.text, 2)?;
        let errors = list(alloc, parse.errors.as_slice())?;
        assert!(rt; errors.as_str() == case.errors, "{}: {errors}", case.text);
        let root: SyntaxNode<Script> = parse.syntax(alloc)?;
        let tree = root.debug_tree(alloc)?;
        assert!(rt; tree.as_str() == case.tree, "{tree}");
    }
    Ok(())
}

#[test]
fn texts_have_their_trees_and_errors(rt: HostRuntime) -> Result<(), Fail> {
    check(&rt, rt.alloc(), &LINES)?;
    check(&rt, rt.alloc(), &OPERATORS)?;
    check(&rt, rt.alloc(), &STRINGS)?;
    check(&rt, rt.alloc(), &ERRORS)
}

const DECLARED: &str = "fn f(a: T) { fn g() {} }\nlet x = 1\nunion U { a: T }\nfn ()\nfn h() {}\n";

#[test]
fn the_root_lists_what_is_declared(rt: HostRuntime) -> Result<(), Fail> {
    let parse = parse(rt.alloc(), DECLARED)?;
    let mut listed = String::new(rt.alloc());
    if let Some(source) = parse.tree::<Source>(rt.alloc())? {
        for name in source.names(rt.alloc())? {
            writeln!(listed, "{name}")?;
        }
    }
    assert!(rt; listed.as_str() == "f\nU\nh\n", "{listed}");
    Ok(())
}
