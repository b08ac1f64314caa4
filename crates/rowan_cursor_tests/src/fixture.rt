//! Trees for the tests, and what cursors show of themselves.
use rowan_builder::GreenNodeBuilder;
use rowan_builder::builder::CacheHome;
use rowan_cursor::cursor::{ElementCalls, SyntaxElement, SyntaxNode, SyntaxToken};
use rowan_green::text::TextRange;
use rowan_green::{Fault, GreenNode, NodeOrToken, SyntaxKind};
use std::alloc::Global;

pub const ROOT: u16 = 0;

pub const LIST: u16 = 1;

pub const ATOM: u16 = 2;

pub const WORD: u16 = 3;

/// A call of the builder.
#[derive(Clone, Copy)]
pub enum Call {
    Open(u16),
    Word(&'static str),
    Close,
}

/// `ROOT["a" LIST["b"] " " ATOM["c"]]`
pub const MIXED: [Call; 10] = [
    Call::Open(ROOT),
    Call::Word("a"),
    Call::Open(LIST),
    Call::Word("b"),
    Call::Close,
    Call::Word(" "),
    Call::Open(ATOM),
    Call::Word("c"),
    Call::Close,
    Call::Close,
];

/// The tree of `(+ (* 15 2) 62)`.
pub const SUM: [Call; 29] = [
    Call::Open(ROOT),
    Call::Open(LIST),
    Call::Word("("),
    Call::Open(ATOM),
    Call::Word("+"),
    Call::Close,
    Call::Word(" "),
    Call::Open(LIST),
    Call::Word("("),
    Call::Open(ATOM),
    Call::Word("*"),
    Call::Close,
    Call::Word(" "),
    Call::Open(ATOM),
    Call::Word("15"),
    Call::Close,
    Call::Word(" "),
    Call::Open(ATOM),
    Call::Word("2"),
    Call::Close,
    Call::Word(")"),
    Call::Close,
    Call::Word(" "),
    Call::Open(ATOM),
    Call::Word("62"),
    Call::Close,
    Call::Word(")"),
    Call::Close,
    Call::Close,
];

fn make<H: CacheHome>(builder: &mut GreenNodeBuilder<'_, H>, call: Call) -> Result<(), Fault> {
    match call {
        Call::Open(kind) => builder.start_node(SyntaxKind(kind)),
        Call::Word(text) => builder.token(SyntaxKind(WORD), text),
        Call::Close => builder.finish_node(),
    }
}

fn green(alloc: Global, calls: &[Call]) -> Result<GreenNode, Fault> {
    let mut builder = GreenNodeBuilder::new(alloc);
    for call in calls {
        make(&mut builder, *call)?;
    }
    match builder.finish() {
        Ok(tree) => return Ok(tree),
        Err(unfinished) => return Err(unfinished.fault()),
    }
}

/// The root of the tree that the calls build.
pub fn root_of(alloc: Global, calls: &[Call]) -> Result<SyntaxNode, Fault> {
    SyntaxNode::new_root(alloc, green(alloc, calls)?)
}

/// What an element shows: its kind, and where its text starts and ends.
pub type Shown = (u16, u32, u32);

fn kind_and_range(kind: SyntaxKind, range: TextRange) -> Shown {
    (kind.0, u32::from(range.start()), u32::from(range.end()))
}

/// What a node shows.
pub fn node(found: Result<Option<SyntaxNode>, Fault>) -> Result<Option<Shown>, Fault> {
    match found? {
        Some(node) => Ok(Some(kind_and_range(node.kind(), node.text_range()))),
        None => Ok(None),
    }
}

/// What a token shows.
pub fn token(found: Result<Option<SyntaxToken>, Fault>) -> Result<Option<Shown>, Fault> {
    match found? {
        Some(token) => Ok(Some(kind_and_range(token.kind(), token.text_range()))),
        None => Ok(None),
    }
}

/// What an element shows.
pub fn element(found: Result<Option<SyntaxElement>, Fault>) -> Result<Option<Shown>, Fault> {
    match found? {
        Some(element) => Ok(Some(kind_and_range(element.kind(), element.text_range()))),
        None => Ok(None),
    }
}

/// The element at a path below a node.
pub fn at(root: &SyntaxNode, path: &[usize]) -> Result<SyntaxElement, Fault> {
    let mut element = SyntaxElement::from(root.clone()?);
    for place in path {
        let NodeOrToken::Node(parent) = element else {
            return Err(Fault::NotFound);
        };
        let Some(child) = parent.child_or_token_at_index(*place)? else {
            return Err(Fault::NotFound);
        };
        element = child;
    }
    Ok(element)
}
