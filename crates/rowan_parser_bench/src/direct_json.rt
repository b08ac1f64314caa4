//! The tree of tokens of JSON by direct calls of a builder, for texts without errors.
use json_syntax::{Json, Kind};
use rowan::{Fault, GreenNode, GreenNodeBuilder, Language, NodeCache};
use rowan_parser::Token;
use std::alloc::Global;

/// How deep arrays and objects may stand, as in `json_syntax::parse`.
const MAX_DEPTH: usize = 512;

/// Builds the tree. Trivia stand where `rowan_parser` puts them.
pub fn build(alloc: Global, tokens: &[Token<'_>]) -> Result<GreenNode, Fault> {
    let mut cache = NodeCache::new(alloc);
    let mut builder = GreenNodeBuilder::with_cache(alloc, &mut cache);
    builder.start_node(Json::kind_to_raw(Kind::Root))?;
    let at = put_value(&mut builder, tokens, 0, MAX_DEPTH)?;
    put_trivia(&mut builder, tokens, at)?;
    builder.finish_node()?;
    match builder.finish() {
        Ok(tree) => return Ok(tree),
        Err(unfinished) => return Err(unfinished.fault()),
    }
}

pub fn is_trivia(token: &Token<'_>) -> bool {
    matches!(
        Json::kind_from_raw(token.kind),
        Kind::Whitespace | Kind::Comment
    )
}

fn kind_at(tokens: &[Token<'_>], at: usize) -> Option<Kind> {
    let token = tokens.get(at)?;
    Some(Json::kind_from_raw(token.kind))
}

/// Puts the token at a place, and gives the next place.
fn put_token(
    builder: &mut GreenNodeBuilder<'_>,
    tokens: &[Token<'_>],
    at: usize,
) -> Result<usize, Fault> {
    let Some(token) = tokens.get(at) else {
        return Ok(at);
    };
    builder.token(token.kind, token.text)?;
    Ok(at.saturating_add(1))
}

fn put_trivia(
    builder: &mut GreenNodeBuilder<'_>,
    tokens: &[Token<'_>],
    from: usize,
) -> Result<usize, Fault> {
    let mut at = from;
    for _ in from..tokens.len() {
        if !matches!(kind_at(tokens, at), Some(Kind::Whitespace | Kind::Comment)) {
            break;
        }
        at = put_token(builder, tokens, at)?;
    }
    Ok(at)
}

#[cycle(direct)]
fn put_value(
    builder: &mut GreenNodeBuilder<'_>,
    tokens: &[Token<'_>],
    from: usize,
    depth: usize,
) -> Result<usize, Fault> {
    let at = put_trivia(builder, tokens, from)?;
    let Some(depth) = depth.checked_sub(1) else {
        return Ok(at);
    };
    match kind_at(tokens, at) {
        Some(Kind::LBracket) => put_list(builder, tokens, at, depth, Kind::Array),
        Some(Kind::LBrace) => put_list(builder, tokens, at, depth, Kind::Object),
        _ => {
            builder.start_node(Json::kind_to_raw(Kind::Literal))?;
            let at = put_token(builder, tokens, at)?;
            builder.finish_node()?;
            Ok(at)
        }
    }
}

#[cycle(direct)]
fn put_list(
    builder: &mut GreenNodeBuilder<'_>,
    tokens: &[Token<'_>],
    from: usize,
    depth: usize,
    kind: Kind,
) -> Result<usize, Fault> {
    builder.start_node(Json::kind_to_raw(kind))?;
    let mut at = put_token(builder, tokens, from)?;
    for _ in from..tokens.len() {
        at = put_trivia(builder, tokens, at)?;
        at = match kind_at(tokens, at) {
            Some(Kind::RBracket | Kind::RBrace) | None => break,
            Some(Kind::Comma) => put_token(builder, tokens, at)?,
            _ if kind == Kind::Object => put_member(builder, tokens, at, depth)?,
            _ => put_value(builder, tokens, at, depth)?,
        };
    }
    let at = put_token(builder, tokens, at)?;
    builder.finish_node()?;
    Ok(at)
}

#[cycle(direct)]
fn put_member(
    builder: &mut GreenNodeBuilder<'_>,
    tokens: &[Token<'_>],
    from: usize,
    depth: usize,
) -> Result<usize, Fault> {
    builder.start_node(Json::kind_to_raw(Kind::Member))?;
    let name = put_token(builder, tokens, from)?;
    let colon = put_trivia(builder, tokens, name)?;
    let value = put_token(builder, tokens, colon)?;
    let at = put_value(builder, tokens, value, depth)?;
    builder.finish_node()?;
    Ok(at)
}
