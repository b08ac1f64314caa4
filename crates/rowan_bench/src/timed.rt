//! Building and parsing, with a new cache and with one that has seen it all.
use rowan::{Fault, GreenNode, GreenNodeBuilder, NodeCache, SyntaxKind};
use std::alloc::Global;

const LIST: SyntaxKind = SyntaxKind(5);

const WORD: SyntaxKind = SyntaxKind(2);

const ROOT: SyntaxKind = SyntaxKind(7);

/// How many tokens of a built tree have one text.
const TOKENS_OF_TEXT: usize = 10;

/// How many tokens a node of a built tree has.
const TOKENS_IN_NODE: usize = 3;

/// The texts of that many tokens, which are made before the time is taken.
pub fn texts(alloc: Global, tokens: usize) -> Result<Vec<String>, Fault> {
    let mut texts = Vec::new(alloc);
    for number in 0..tokens / TOKENS_OF_TEXT + 1 {
        texts.push(format!(in alloc; "word{number}")?)?;
    }
    Ok(texts)
}

/// Builds a root over nodes of three tokens each, with that many tokens.
pub fn build(
    alloc: Global,
    cache: &mut NodeCache,
    texts: &[String],
    tokens: usize,
) -> Result<GreenNode, Fault> {
    let mut builder = GreenNodeBuilder::with_cache(alloc, cache);
    builder.start_node(ROOT)?;
    for node in 0..tokens / TOKENS_IN_NODE {
        builder.start_node(LIST)?;
        for place in 0..TOKENS_IN_NODE {
            add_token(&mut builder, texts, node, place)?;
        }
        builder.finish_node()?;
    }
    builder.finish_node()?;
    match builder.finish() {
        Ok(tree) => return Ok(tree),
        Err(unfinished) => return Err(unfinished.fault()),
    }
}

fn add_token(
    builder: &mut GreenNodeBuilder<'_>,
    texts: &[String],
    node: usize,
    place: usize,
) -> Result<(), Fault> {
    let number = node.wrapping_mul(TOKENS_IN_NODE).wrapping_add(place);
    match texts.get(number.checked_rem(texts.len()).unwrap_or(0)) {
        Some(text) => builder.token(WORD, text.as_str()),
        None => Ok(()),
    }
}

/// Interns that many tokens, no two equal. The builder is dropped with what it holds, and the cache stays.
pub fn intern_tokens(alloc: Global, cache: &mut NodeCache, count: usize) -> Result<(), Fault> {
    for number in 0..count {
        let text = format!(in alloc; "{number:08}")?;
        let mut builder = GreenNodeBuilder::with_cache(alloc, cache);
        builder.token(WORD, text.as_str())?;
    }
    Ok(())
}

/// Interns that many nodes of two tokens, no two equal, over about as many tokens as the root of that number.
pub fn intern_nodes(alloc: Global, cache: &mut NodeCache, count: usize) -> Result<(), Fault> {
    for number in 0..count {
        let first = format!(in alloc; "{}", number / 1000)?;
        let second = format!(in alloc; "{}", number % 1000)?;
        let mut builder = GreenNodeBuilder::with_cache(alloc, cache);
        builder.start_node(LIST)?;
        builder.token(WORD, first.as_str())?;
        builder.token(WORD, second.as_str())?;
        builder.finish_node()?;
    }
    Ok(())
}
