//! A project is read: files of a thousand bytes to half a million.
use crate::digest::Digest;
use crate::document::{self, Phrases};
use crate::draws::{Draws, Turns};
use rowan::{Fault, GreenNode, NodeCache};
use rowan_tool::sexp;
use std::alloc::Global;

/// How many trees are kept while others are made.
const KEPT: usize = 8;

/// How many sizes files have.
const SIZES: u32 = 10;

/// Reads so many files. Every second one is read with the cache that these share.
pub fn run(
    alloc: Global,
    draws: &mut Draws,
    rounds: usize,
    digest: &mut Digest,
) -> Result<(), Fault> {
    let phrases = Phrases::new(alloc, draws)?;
    let mut cache = NodeCache::new(alloc);
    let mut kept: Vec<GreenNode> = Vec::with_capacity(alloc, KEPT)?;
    let mut sizes = Turns::new(draws, SIZES);
    let mut sizes_of_sharing = Turns::new(draws, SIZES);
    for round in 0..rounds {
        let bytes = match round % 2 {
            0 => sizes.next_size(1_000),
            _ => sizes_of_sharing.next_size(1_000),
        };
        let text = document::text(alloc, draws, &phrases, bytes)?;
        let parse = match round % 2 {
            0 => sexp::parse(alloc, text.as_str())?,
            _ => sexp::parse_with(alloc, text.as_str(), &mut cache)?,
        };
        digest.add_tree(alloc, parse.green())?;
        if kept.len() >= KEPT {
            let _oldest = kept.remove(0);
        }
        kept.push(parse.green().clone()?)?;
    }
    digest.add(cache.token_count() as u64);
    digest.add(cache.node_count() as u64);
    for tree in &kept {
        digest.add_text(tree.to_string(alloc)?.as_bytes());
    }
    Ok(())
}
