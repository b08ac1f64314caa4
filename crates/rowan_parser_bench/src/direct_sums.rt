//! The tree of tokens of sums and products by direct calls of a builder, for texts without errors.
use arithmetic_syntax::{Arithmetic, Kind};
use rowan::{Fault, GreenNode, GreenNodeBuilder, Language, NodeCache};
use rowan_parser::Token;
use std::alloc::Global;

/// How many groups may stand one in the other, as in `arithmetic_syntax::parse`.
const MAX_DEPTH: usize = 500;

/// Builds the tree. Spaces stand where `rowan_parser` puts them.
pub fn build(alloc: Global, tokens: &[Token<'_>]) -> Result<GreenNode, Fault> {
    let mut cache = NodeCache::new(alloc);
    let mut builder = GreenNodeBuilder::with_cache(alloc, &mut cache);
    builder.start_node(Arithmetic::kind_to_raw(Kind::Root))?;
    let at = put_expression(&mut builder, tokens, 0, MAX_DEPTH, 0)?;
    put_spaces(&mut builder, tokens, at)?;
    builder.finish_node()?;
    match builder.finish() {
        Ok(tree) => return Ok(tree),
        Err(unfinished) => return Err(unfinished.fault()),
    }
}

pub fn is_trivia(token: &Token<'_>) -> bool {
    Arithmetic::kind_from_raw(token.kind) == Kind::Space
}

fn kind_at(tokens: &[Token<'_>], at: usize) -> Option<Kind> {
    let token = tokens.get(at)?;
    Some(Arithmetic::kind_from_raw(token.kind))
}

/// Puts the token at a place, and gives the next place.
fn put_token(
    builder: &mut GreenNodeBuilder<'_>,
    tokens: &[Token<'_>],
    at: usize,
) -> Result<usize, Fault> {
    let Some(token) = tokens.get(at) else {
        return Ok(at);
    };
    builder.token(token.kind, token.text)?;
    Ok(at.saturating_add(1))
}

fn put_spaces(
    builder: &mut GreenNodeBuilder<'_>,
    tokens: &[Token<'_>],
    from: usize,
) -> Result<usize, Fault> {
    let mut at = from;
    for _ in from..tokens.len() {
        if kind_at(tokens, at) != Some(Kind::Space) {
            break;
        }
        at = put_token(builder, tokens, at)?;
    }
    Ok(at)
}

/// The place behind the spaces at a place.
fn past_spaces(tokens: &[Token<'_>], from: usize) -> usize {
    let mut at = from;
    for _ in from..tokens.len() {
        if kind_at(tokens, at) != Some(Kind::Space) {
            break;
        }
        at = at.saturating_add(1);
    }
    at
}

#[cycle(sums)]
fn put_expression(
    builder: &mut GreenNodeBuilder<'_>,
    tokens: &[Token<'_>],
    from: usize,
    depth: usize,
    power: u8,
) -> Result<usize, Fault> {
    let mut at = put_spaces(builder, tokens, from)?;
    let Some(depth) = depth.checked_sub(1) else {
        return Ok(at);
    };
    let begin = builder.checkpoint();
    at = put_operand(builder, tokens, at, depth)?;
    for _ in from..tokens.len() {
        let (kind, above) = match kind_at(tokens, past_spaces(tokens, at)) {
            Some(Kind::Plus) if power < 1 => (Kind::Sum, 1),
            Some(Kind::Star) if power < 2 => (Kind::Product, 2),
            _ => break,
        };
        builder.start_node_at(begin, Arithmetic::kind_to_raw(kind))?;
        at = put_spaces(builder, tokens, at)?;
        at = put_token(builder, tokens, at)?;
        at = put_expression(builder, tokens, at, depth, above)?;
        builder.finish_node()?;
    }
    Ok(at)
}

#[cycle(sums)]
fn put_operand(
    builder: &mut GreenNodeBuilder<'_>,
    tokens: &[Token<'_>],
    from: usize,
    depth: usize,
) -> Result<usize, Fault> {
    if kind_at(tokens, from) != Some(Kind::Open) {
        builder.start_node(Arithmetic::kind_to_raw(Kind::Literal))?;
        let at = put_token(builder, tokens, from)?;
        builder.finish_node()?;
        return Ok(at);
    }
    builder.start_node(Arithmetic::kind_to_raw(Kind::Group))?;
    let inside = put_token(builder, tokens, from)?;
    let behind = put_expression(builder, tokens, inside, depth, 0)?;
    let close = put_spaces(builder, tokens, behind)?;
    let at = put_token(builder, tokens, close)?;
    builder.finish_node()?;
    Ok(at)
}
