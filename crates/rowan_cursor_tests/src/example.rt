//! The example of README.md.
use rowan_builder::GreenNodeBuilder;
use rowan_cursor::cursor::{ElementCalls, SyntaxNode};
use rowan_green::{Fault, GreenNode, SyntaxKind, TextRange, TextSize};
use std::alloc::Global;
use std::test::Fail;

const NAME: SyntaxKind = SyntaxKind(0);

const CALL: SyntaxKind = SyntaxKind(1);

fn call(alloc: Global) -> Result<GreenNode, Fault> {
    let mut builder = GreenNodeBuilder::new(alloc);
    builder.start_node(CALL)?;
    builder.token(NAME, "print")?;
    builder.token(NAME, "()")?;
    builder.finish_node()?;
    Ok(builder.finish()?)
}

fn second_child(alloc: Global, tree: GreenNode) -> Result<Option<TextRange>, Fault> {
    let root = SyntaxNode::new_root(alloc, tree)?;
    let Some(first) = root.first_child_or_token()? else {
        return Ok(None);
    };
    match first.next_sibling_or_token()? {
        Some(second) => Ok(Some(second.text_range())),
        None => Ok(None),
    }
}

#[test]
fn second_child_of_a_call(rt: HostRuntime) -> Result<(), Fail> {
    let tree = call(rt.alloc())?;
    let range = second_child(rt.alloc(), tree)?.ok_or("no second child")?;
    assert!(rt; range == TextRange::new(TextSize::from(5), TextSize::from(7)));
    Ok(())
}
