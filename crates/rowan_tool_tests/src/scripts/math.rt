//! A parser of arithmetic by recursive descent, which opens an operation at a checkpoint once it
//! sees its operator: a port of rowan's example.
use crate::parts::Part::{self, Close, Leaf, Open};
use crate::scripts::word::tree;
use rowan::builder::CacheHome;
use rowan::{Fault, GreenNode, GreenNodeBuilder, NodeCache, SyntaxKind};
use std::alloc::Global;
use std::slice::Iter;
use std::test::Fail;

pub const WHITESPACE: u16 = 0;

pub const ADD: u16 = 1;

const SUB: u16 = 2;

pub const MUL: u16 = 3;

const DIV: u16 = 4;

pub const NUMBER: u16 = 5;

const ERROR: u16 = 6;

pub const OPERATION: u16 = 7;

pub const ROOT: u16 = 8;

type Token = (u16, &'static str);

/// Adds the next token, if there is one.
fn bump<H: CacheHome>(
    builder: &mut GreenNodeBuilder<'_, H>,
    tokens: &mut Iter<'_, Token>,
) -> Result<(), Fault> {
    match tokens.next() {
        Some(token) => builder.token(SyntaxKind(token.0), token.1),
        None => Ok(()),
    }
}

/// The kind of the next token that is not white space. All white space before it is added.
fn peek<H: CacheHome>(
    builder: &mut GreenNodeBuilder<'_, H>,
    tokens: &mut Iter<'_, Token>,
) -> Result<Option<u16>, Fault> {
    let left = tokens.as_slice();
    let blanks = left
        .iter()
        .take_while(|token| token.0 == WHITESPACE)
        .count();
    for _blank in 0..blanks {
        bump(builder, tokens)?;
    }
    Ok(tokens.as_slice().first().map(|token| token.0))
}

/// What stands between the operators of an operation.
trait Operand {
    fn parse<H: CacheHome>(
        builder: &mut GreenNodeBuilder<'_, H>,
        tokens: &mut Iter<'_, Token>,
    ) -> Result<(), Fault>;
}

/// A number, or an error in its place.
struct Value;

impl Operand for Value {
    fn parse<H: CacheHome>(
        builder: &mut GreenNodeBuilder<'_, H>,
        tokens: &mut Iter<'_, Token>,
    ) -> Result<(), Fault> {
        if peek(builder, tokens)? == Some(NUMBER) {
            return bump(builder, tokens);
        }
        builder.start_node(SyntaxKind(ERROR))?;
        bump(builder, tokens)?;
        builder.finish_node()
    }
}

/// Values with the operators that bind more tightly.
struct Product;

impl Operand for Product {
    fn parse<H: CacheHome>(
        builder: &mut GreenNodeBuilder<'_, H>,
        tokens: &mut Iter<'_, Token>,
    ) -> Result<(), Fault> {
        handle_operation::<Value, H>(builder, tokens, &[MUL, DIV])
    }
}

/// Parses operands, and puts a node around two with one of these operators between them.
fn handle_operation<N: Operand, H: CacheHome>(
    builder: &mut GreenNodeBuilder<'_, H>,
    tokens: &mut Iter<'_, Token>,
    operators: &[u16],
) -> Result<(), Fault> {
    let checkpoint = builder.checkpoint();
    N::parse(builder, tokens)?;
    // There are no more operators than tokens.
    for _operator in 0..tokens.len() {
        match peek(builder, tokens)? {
            Some(kind) if operators.contains(&kind) => {}
            _ => break,
        }
        builder.start_node_at(checkpoint, SyntaxKind(OPERATION))?;
        bump(builder, tokens)?;
        N::parse(builder, tokens)?;
        builder.finish_node()?;
    }
    Ok(())
}

fn parse_root<H: CacheHome>(builder: &mut GreenNodeBuilder<'_, H>) -> Result<(), Fault> {
    let mut tokens = TOKENS.as_slice().iter();
    builder.start_node(SyntaxKind(ROOT))?;
    handle_operation::<Product, H>(builder, &mut tokens, &[ADD, SUB])?;
    builder.finish_node()
}

/// The tokens of `1 + 2 * 3 + 4`.
const TOKENS: [Token; 13] = [
    (NUMBER, "1"),
    (WHITESPACE, " "),
    (ADD, "+"),
    (WHITESPACE, " "),
    (NUMBER, "2"),
    (WHITESPACE, " "),
    (MUL, "*"),
    (WHITESPACE, " "),
    (NUMBER, "3"),
    (WHITESPACE, " "),
    (ADD, "+"),
    (WHITESPACE, " "),
    (NUMBER, "4"),
];

/// Their tree.
pub const MATH: [Part; 21] = [
    Open(ROOT),
    Open(OPERATION),
    Open(OPERATION),
    Leaf(NUMBER, "1"),
    Leaf(WHITESPACE, " "),
    Leaf(ADD, "+"),
    Open(OPERATION),
    Leaf(WHITESPACE, " "),
    Leaf(NUMBER, "2"),
    Leaf(WHITESPACE, " "),
    Leaf(MUL, "*"),
    Leaf(WHITESPACE, " "),
    Leaf(NUMBER, "3"),
    Close,
    Leaf(WHITESPACE, " "),
    Close,
    Leaf(ADD, "+"),
    Leaf(WHITESPACE, " "),
    Leaf(NUMBER, "4"),
    Close,
    Close,
];

fn parse(alloc: Global) -> Result<GreenNode, Fault> {
    let mut builder = GreenNodeBuilder::new(alloc);
    parse_root(&mut builder)?;
    match builder.finish() {
        Ok(tree) => return Ok(tree),
        Err(unfinished) => return Err(unfinished.fault()),
    }
}

fn parse_with(alloc: Global, cache: &mut NodeCache) -> Result<GreenNode, Fault> {
    let mut builder = GreenNodeBuilder::with_cache(alloc, cache);
    parse_root(&mut builder)?;
    match builder.finish() {
        Ok(tree) => return Ok(tree),
        Err(unfinished) => return Err(unfinished.fault()),
    }
}

#[test]
fn math_operations_are_parsed(rt: HostRuntime) -> Result<(), Fail> {
    let expected = tree(rt.alloc(), MATH.as_slice())?;
    assert!(rt; parse(rt.alloc()) == Ok(expected));
    Ok(())
}

/// Whether a tree is the one that is expected.
fn is_tree(found: Result<GreenNode, Fault>, expected: &GreenNode) -> bool {
    match found {
        Ok(found) => found == *expected,
        Err(_) => false,
    }
}

#[test]
fn math_operations_are_parsed_over_a_cache(rt: HostRuntime) -> Result<(), Fail> {
    let expected = tree(rt.alloc(), MATH.as_slice())?;
    let mut cache = NodeCache::new(rt.alloc());
    for _time in 0..2 {
        assert!(rt; is_tree(parse_with(rt.alloc(), &mut cache), &expected));
    }
    Ok(())
}
