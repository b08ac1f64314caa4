//! A parser of another language makes its trees: assignments of sums and products, where a node is put around what came before it.
ghost use Rattle.std.specs.Prelude.{◌<◌};

use crate::digest::Digest;
use crate::draws::{Draws, Turns};
use rowan::{Checkpoint, Fault, GreenNode, GreenNodeBuilder, NodeCache, SyntaxKind};
use std::alloc::{AllocError, Global};

const SPACE: SyntaxKind = SyntaxKind(0);

const NAME: SyntaxKind = SyntaxKind(1);

const SIGN: SyntaxKind = SyntaxKind(2);

const COMMENT: SyntaxKind = SyntaxKind(3);

const BINARY: SyntaxKind = SyntaxKind(4);

const CALL: SyntaxKind = SyntaxKind(5);

const STATEMENT: SyntaxKind = SyntaxKind(6);

const FILE: SyntaxKind = SyntaxKind(7);

/// How many names a program has.
const NAMES: usize = 4_000;

/// How many sizes trees have.
const SIZES: u32 = 8;

const OPERATORS: [&str; 6] = ["+", "-", "*", "/", "==", "<="];

/// Builds so many trees of up to 10,000 statements. Every second one is built with the cache that these share.
pub fn run(
    alloc: Global,
    draws: &mut Draws,
    rounds: usize,
    digest: &mut Digest,
) -> Result<(), Fault> {
    let names = names(alloc, draws)?;
    let mut shared = NodeCache::new(alloc);
    let mut last: Option<GreenNode> = None;
    let mut sizes = Turns::new(draws, SIZES);
    let mut sizes_of_sharing = Turns::new(draws, SIZES);
    for round in 0..rounds {
        let tree = match round % 2 {
            0 => build(
                alloc,
                &mut NodeCache::new(alloc),
                draws,
                names.as_slice(),
                sizes.next_size(100),
            )?,
            _ => build(
                alloc,
                &mut shared,
                draws,
                names.as_slice(),
                sizes_of_sharing.next_size(100),
            )?,
        };
        digest.add_tree(alloc, &tree)?;
        last = Some(tree);
    }
    digest.add(shared.token_count() as u64);
    digest.add(shared.node_count() as u64);
    if let Some(tree) = &last {
        digest.add_text(tree.to_string(alloc)?.as_bytes());
    }
    Ok(())
}

fn names(alloc: Global, draws: &mut Draws) -> Result<Vec<String>, AllocError> {
    let mut names = Vec::with_capacity(alloc, NAMES)?;
    for _ in 0..NAMES {
        let word = draws.word([
            "x",
            "index",
            "parser_state",
            "next",
            "a_long_name_of_a_field",
        ]
        .as_slice());
        names.push(format!(in alloc; "{word}{}", draws.low_below(20_000))?)?;
    }
    Ok(names)
}

fn build(
    alloc: Global,
    cache: &mut NodeCache,
    draws: &mut Draws,
    names: &[String],
    statements: usize,
) -> Result<GreenNode, Fault> {
    let mut builder = GreenNodeBuilder::with_cache(alloc, cache);
    builder.start_node(FILE)?;
    for number in 0..statements {
        if draws.below(16) == 0 {
            builder.token(
                COMMENT,
                format!(in alloc; "// comment number {number}\n")?.as_str(),
            )?;
        }
        place_statement(&mut builder, draws, names)?;
    }
    builder.finish_node()?;
    match builder.finish() {
        Ok(tree) => return Ok(tree),
        Err(unfinished) => return Err(unfinished.fault()),
    }
}

fn place_statement(
    builder: &mut GreenNodeBuilder<'_>,
    draws: &mut Draws,
    names: &[String],
) -> Result<(), Fault> {
    builder.start_node(STATEMENT)?;
    place_name(builder, draws, names)?;
    builder.token(SPACE, " ")?;
    builder.token(SIGN, "=")?;
    builder.token(SPACE, " ")?;
    place_terms(builder, draws, names)?;
    builder.token(SIGN, ";")?;
    builder.token(SPACE, "\n")?;
    builder.finish_node()
}

/// Terms, each with all before it in a node of its own.
fn place_terms(
    builder: &mut GreenNodeBuilder<'_>,
    draws: &mut Draws,
    names: &[String],
) -> Result<(), Fault> {
    let left = builder.checkpoint();
    place_term(builder, draws, names)?;
    for _ in 0..draws.below(5) {
        place_operator(builder, draws, left)?;
        place_term(builder, draws, names)?;
        builder.finish_node()?;
    }
    Ok(())
}

fn place_operator(
    builder: &mut GreenNodeBuilder<'_>,
    draws: &mut Draws,
    left: Checkpoint,
) -> Result<(), Fault> {
    builder.start_node_at(left, BINARY)?;
    builder.token(SPACE, " ")?;
    builder.token(SIGN, draws.word(OPERATORS.as_slice()))?;
    builder.token(SPACE, " ")
}

/// A name, or a call of one with some.
fn place_term(
    builder: &mut GreenNodeBuilder<'_>,
    draws: &mut Draws,
    names: &[String],
) -> Result<(), Fault> {
    if draws.below(4) > 0 {
        return place_name(builder, draws, names);
    }
    builder.start_node(CALL)?;
    place_name(builder, draws, names)?;
    builder.token(SIGN, "(")?;
    for _ in 0..draws.below(4) {
        place_name(builder, draws, names)?;
        builder.token(SIGN, ",")?;
    }
    builder.token(SIGN, ")")?;
    builder.finish_node()
}

fn place_name(
    builder: &mut GreenNodeBuilder<'_>,
    draws: &mut Draws,
    names: &[String],
) -> Result<(), Fault> {
    match names.get(draws.low_below(NAMES)) {
        Some(name) => builder.token(NAME, name.as_str()),
        None => Ok(()),
    }
}
