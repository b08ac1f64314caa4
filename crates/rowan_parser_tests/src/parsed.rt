use grammar_sample::nodes::{Document, Table};
use grammar_sample::{Kind, Sample};
use rowan::ast::AstNode;
use rowan::{Fault, Language, SyntaxKind};
use rowan_parser::{Parse, Parser, TokenSet, Trivia, parse};
use std::alloc::Global;
use std::test::Fail;

fn next_token(rest: &str) -> (SyntaxKind, usize) {
    (Sample::kind_to_raw(Kind::Name), rest.len())
}

/// One name, which stands below the root, with an error if there is none.
fn document(p: &mut Parser<Sample>) {
    p.expect(Kind::Name, "expected a name");
}

fn parsed(alloc: Global, text: &str) -> Result<Parse, Fault> {
    let trivia = Trivia {
        kinds: TokenSet::EMPTY,
        attached: &[],
    };
    parse(alloc, text, next_token, trivia, Kind::Document, document)
}

#[test]
fn a_root_has_its_wrapper(rt: HostRuntime) -> Result<(), Fail> {
    let parse = parsed(rt.alloc(), "name")?;
    let wrapper: Option<Document> = parse.tree(rt.alloc())?;
    match wrapper {
        Some(document) => assert!(rt; document.syntax().kind() == Kind::Document),
        None => assert!(rt; false),
    }
    let other: Option<Table> = parse.tree(rt.alloc())?;
    assert!(rt; other.is_none());
    Ok(())
}

#[test]
fn a_tree_or_its_errors(rt: HostRuntime) -> Result<(), Fail> {
    let parse = parsed(rt.alloc(), "name")?;
    assert!(rt; parse.errors().is_empty());
    match parse.ok() {
        Ok(green) => assert!(rt; green.to_string(rt.alloc())?.as_str() == "name"),
        Err(_) => assert!(rt; false),
    }
    let parse = parsed(rt.alloc(), "")?;
    assert_eq!(rt; parse.errors().len(), 1);
    match parse.ok() {
        Ok(_) => assert!(rt; false),
        Err(errors) => assert!(rt; errors[0].message.as_str() == "expected a name"),
    }
    Ok(())
}
