//! The parser of s-expressions.
use rowan::{Fault, TextRange, TextSize};
use rowan_tool::sexp::{SyntaxKind, parse, reparse_all};
use std::alloc::Global;
use std::test::Fail;

#[test]
fn cursor_stands_at_the_root(rt: HostRuntime) -> Result<(), Fail> {
    let root = parse(rt.alloc(), "(a é)")?.syntax(rt.alloc())?;
    assert!(rt; root.kind() == SyntaxKind::ROOT);
    assert!(rt; root.text_range() == TextRange::new(TextSize::from(0), TextSize::from(6)));
    assert!(rt; root.to_string(rt.alloc())?.as_str() == "(a é)");
    Ok(())
}

#[test]
fn no_edits_leave_the_tree_of_the_text(rt: HostRuntime) -> Result<(), Fail> {
    let parsed = parse(rt.alloc(), "(a")?;
    assert!(rt; reparse_all(rt.alloc(), "(a", &[])? == *parsed.green());
    Ok(())
}

/// A text of opening parentheses.
fn open_parens(alloc: Global, count: usize) -> Result<String, Fault> {
    let mut text = String::new(alloc);
    for _ in 0..count {
        text.push('(')?;
    }
    Ok(text)
}

#[test]
fn deep_trees_are_made_and_dropped(rt: HostRuntime) -> Result<(), Fail> {
    let parsed = parse(rt.alloc(), open_parens(rt.alloc(), 100_000)?.as_str())?;
    assert!(rt; u32::from(parsed.green().text_len()) == 100_000);
    assert!(rt; parsed.green().children().len() == 1);
    Ok(())
}
