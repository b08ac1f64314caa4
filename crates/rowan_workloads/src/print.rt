//! The program is run, over an input and an output in memory.
use crate::digest::Digest;
use crate::document::{self, Phrases};
use crate::draws::{Draws, Turns};
use rowan::Fault;
use std::alloc::Global;

/// How many sizes texts have.
const SIZES: u32 = 9;

/// Prints so many texts in each of the three ways.
pub fn run(
    alloc: Global,
    draws: &mut Draws,
    rounds: usize,
    digest: &mut Digest,
) -> Result<(), Fault> {
    let phrases = Phrases::new(alloc, draws)?;
    let mut trees = Turns::new(draws, SIZES);
    let mut documents = Turns::new(draws, SIZES);
    let mut numbers = Turns::new(draws, SIZES);
    for _ in 0..rounds {
        let text = document::text(alloc, draws, &phrases, trees.next_size(1_000))?;
        print(alloc, "tree", text.as_str(), digest)?;
        let text = document::text(alloc, draws, &phrases, documents.next_size(1_000))?;
        print(alloc, "json", text.as_str(), digest)?;
        let text = document::text(alloc, draws, &phrases, numbers.next_size(1_000))?;
        print(alloc, "eval", text.as_str(), digest)?;
    }
    Ok(())
}

fn print(alloc: Global, command: &str, text: &str, digest: &mut Digest) -> Result<(), Fault> {
    let args = vec![in alloc; String::from_str(alloc, command)?]?;
    let mut unread = text.as_bytes();
    let mut output = Vec::new(alloc);
    match rowan_program::run(alloc, args.as_slice(), &mut unread, &mut output) {
        Ok(()) => digest.add_text(output.as_slice()),
        Err(stop) => digest.add(u64::from(stop.status())),
    }
    Ok(())
}
