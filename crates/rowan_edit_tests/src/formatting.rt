//! Elements before tokens: formatted trees are those that their texts parse to.
use crate::calling::spaced;
use crate::fixture::Call::{Close, Open, Word};
use crate::fixture::{Call, LIST, NESTED, ROOT, TREE, are_changes, built, has_text, moves, tree};
use crate::rewriting::{Way, led, rewritten};
use arithmetic_syntax::Kind as Arithmetic;
use json_syntax::Kind as Json;
use rowan::{Fault, GreenNode, GreenToken, SyntaxKind};
use rowan_edit::rewrite_tokens;
use std::alloc::Global;
use std::test::Fail;

#[derive(Clone, Copy)]
enum Syntax {
    Json,
    Sums,
}

impl Syntax {
    fn parse(self, alloc: Global, text: &str) -> Result<GreenNode, Fault> {
        let parsed = match self {
            Syntax::Json => json_syntax::parse(alloc, text),
            Syntax::Sums => arithmetic_syntax::parse(alloc, text),
        };
        Ok(parsed?.green)
    }

    /// The white space that comes before each token: a line end, or a blank.
    fn space(self, alloc: Global) -> Result<GreenToken, Fault> {
        match self {
            Syntax::Json => GreenToken::new(alloc, SyntaxKind(Json::Whitespace as u16), "\n"),
            Syntax::Sums => GreenToken::new(alloc, SyntaxKind(Arithmetic::Space as u16), " "),
        }
    }

    /// The tree of a text with white space before each token.
    fn formatted(self, alloc: Global, text: &str) -> Result<GreenNode, Fault> {
        let old = self.parse(alloc, text)?;
        let space = self.space(alloc)?;
        spaced(alloc, &old, &space)
    }

    /// Whether that is the tree that its text is parsed to.
    fn is_as_parsed(self, alloc: Global, text: &str) -> Result<bool, Fault> {
        let new = self.formatted(alloc, text)?;
        let printed = new.to_string(alloc)?;
        match self.parse(alloc, printed.as_str()) {
            Ok(parsed) => Ok(new == parsed),
            Err(_) => Ok(false),
        }
    }
}

const JSON: [&str; 7] = [
    "[[[1]]]",
    "{\"a\": [1, {\"b\": null}], \"c\": {}}",
    " [ ]\n",
    "1",
    "// what follows\n{\"a\": // here\n 1}",
    "",
    "[1 2, }",
];

#[test]
fn json_as_parsed(rt: HostRuntime) {
    for text in JSON {
        assert!(rt; Syntax::Json.is_as_parsed(rt.alloc(), text) == Ok(true));
    }
}

const SUMS: [&str; 5] = ["1*2+3", "((1 * 2+3)+4 )* 5", "(1+(2*3", "1 2", "1+2+3+4"];

#[test]
fn sums_as_parsed(rt: HostRuntime) {
    for text in SUMS {
        assert!(rt; Syntax::Sums.is_as_parsed(rt.alloc(), text) == Ok(true));
    }
}

#[test]
fn json_text(rt: HostRuntime) -> Result<(), Fail> {
    let alloc = rt.alloc();
    let new = Syntax::Json.formatted(alloc, "{\"a\":  [1]}")?;
    assert!(rt; has_text(alloc, &new, "\n{\n\"a\"\n:\n[\n1\n]\n}"));
    Ok(())
}

/// Whether a tree with elements before its words is this one.
fn is_led(alloc: Global, old: &[Call], new: &[Call]) -> Result<bool, Fault> {
    let expected = built(alloc, new)?;
    match rewritten(alloc, &built(alloc, old)?, Way::Lead) {
        Ok(new) => Ok(new.green == expected),
        Err(_) => Ok(false),
    }
}

const LED_TREE: [Call; 16] = [
    Open(ROOT),
    Word("-"),
    Word("a"),
    Open(LIST),
    Close,
    Word("xy"),
    Open(LIST),
    Word("b"),
    Open(LIST),
    Close,
    Word("z"),
    Word("cd"),
    Close,
    Word(""),
    Word("e"),
    Close,
];

#[test]
fn before_words(rt: HostRuntime) {
    assert!(rt; is_led(rt.alloc(), &TREE, &LED_TREE) == Ok(true));
}

const LED_CHAIN: [Call; 13] = [
    Open(ROOT),
    Word("-"),
    Word("a"),
    Open(LIST),
    Close,
    Word("xy"),
    Open(LIST),
    Open(LIST),
    Word("bcd"),
    Close,
    Close,
    Word("e"),
    Close,
];

#[test]
fn before_a_chain(rt: HostRuntime) {
    assert!(rt; is_led(rt.alloc(), &NESTED, &LED_CHAIN) == Ok(true));
}

const INSERTIONS: [(u32, u32, u32); 3] = [(0, 0, 1), (1, 1, 2), (2, 2, 1)];

#[test]
fn insertions(rt: HostRuntime) -> Result<(), Fail> {
    let alloc = rt.alloc();
    let new = rewritten(alloc, &tree(alloc)?, Way::Lead)?;
    assert!(rt; are_changes(&new.changes, &INSERTIONS));
    assert!(rt; moves(&new.changes, ((2, 4), Some((6, 8)))));
    assert!(rt; moves(&new.changes, ((1, 4), None)));
    Ok(())
}

#[test]
fn refused_after_some(rt: HostRuntime) -> Result<(), Fail> {
    let alloc = rt.alloc();
    let mut asked = 0u32;
    let refused = rewrite_tokens(
        alloc,
        &tree(alloc)?,
        &mut |at| {
            asked = asked.saturating_add(1);
            if at.text() == "cd" {
                return Err(Fault::NotFound);
            }
            led(alloc, at)
        },
    );
    assert!(rt; refused.err() == Some(Fault::NotFound));
    assert!(rt; asked == 3);
    Ok(())
}
