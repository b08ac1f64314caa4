//! Trees for the tests of the typed layer, and what values print.
use rowan::builder::CacheHome;
use rowan::{Fault, GreenNode, GreenNodeBuilder, SyntaxKind};
use std::alloc::Global;
use std::fmt::Debug;

/// A part of a tree: the beginning of a node of a raw kind, a token of one with its text, or the
/// end of a node.
#[derive(Clone, Copy)]
pub enum Part {
    Open(u16),
    Leaf(u16, &'static str),
    Close,
}

fn make<H: CacheHome>(builder: &mut GreenNodeBuilder<'_, H>, part: Part) -> Result<(), Fault> {
    match part {
        Part::Open(kind) => builder.start_node(SyntaxKind(kind)),
        Part::Leaf(kind, text) => builder.token(SyntaxKind(kind), text),
        Part::Close => builder.finish_node(),
    }
}

/// The tree of these parts.
pub fn tree(alloc: Global, parts: &[Part]) -> Result<GreenNode, Fault> {
    let mut builder = GreenNodeBuilder::new(alloc);
    for part in parts {
        make(&mut builder, *part)?;
    }
    Ok(builder.finish()?)
}

/// Whether a value is shown so.
pub fn shows<T: Debug>(alloc: Global, value: &T, line: &str) -> bool {
    match format!(in alloc; "{value:?}") {
        Ok(shown) => shown.as_str() == line,
        Err(_) => false,
    }
}
