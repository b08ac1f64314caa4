//! Drops that make no request.

use crate::building::make_all;
use crate::calls::Call::{self, Finish, Start, Token};
use crate::calls::{Way, tree_of};
use rowan::{Fault, GreenNode, GreenNodeBuilder, SyntaxKind};
use rowan_transcript::{Phase, Stop, Transcript, ask};
use std::alloc::Global;

/// How many nodes a parent has: more than a list has room for at first.
const NODES: u16 = 6;

const WORD: Call = Token(20, "a");

/// A node with more children than a cache keeps.
const FOUR_WORDS: [Call; 6] = [Start(10), WORD, WORD, WORD, WORD, Finish];

/// Nodes in each other, with a token on both sides of each.
const NESTED: [Call; 17] = [
    Start(1),
    WORD,
    Start(2),
    WORD,
    Start(3),
    WORD,
    Start(4),
    WORD,
    Start(5),
    Finish,
    WORD,
    Finish,
    WORD,
    Finish,
    WORD,
    Finish,
    Finish,
];

/// A node over nodes of different kinds, each over so many tokens.
fn over_nodes(alloc: Global, tokens: usize) -> Result<GreenNode, Fault> {
    let mut builder = GreenNodeBuilder::new(alloc);
    builder.start_node(SyntaxKind(10))?;
    for kind in 0..NODES {
        builder.start_node(SyntaxKind(kind))?;
        for _ in 0..tokens {
            builder.token(SyntaxKind(20), "a")?;
        }
        builder.finish_node()?;
    }
    builder.finish_node()?;
    match builder.finish() {
        Ok(tree) => Ok(tree),
        Err(unfinished) => Err(unfinished.fault()),
    }
}

pub fn run_drops(log: &Transcript<'_>) -> Result<(), Stop> {
    let alloc = log.alloc();
    log.case("drops that make no request")?;
    log.phase(Phase::Making)?;
    let childless = ask(log, "childless nodes", || over_nodes(alloc, 0))?;
    let over_tokens = ask(log, "nodes over a token", || over_nodes(alloc, 1))?;
    let nested = ask(log, "nested nodes", || tree_of(alloc, NESTED.as_slice()))?;
    let mut builder = GreenNodeBuilder::new(alloc);
    make_all(log, &mut builder, Way::Method, [Start(10)].as_slice())?;
    for _ in 0..NODES {
        make_all(log, &mut builder, Way::Method, FOUR_WORDS.as_slice())?;
    }
    log.phase(Phase::Moving)?;
    drop(childless);
    drop(over_tokens);
    drop(nested);
    drop(builder);
    log.phase(Phase::Dropping)
}
