//! Checkpoints by their numbers: a builder that holds so many tokens gives the checkpoint of that
//! number.

use rowan::{Checkpoint, Fault, GreenNodeBuilder, SyntaxKind};
use std::alloc::Global;

const KIND: SyntaxKind = SyntaxKind(0);

/// The checkpoint of a builder that holds so many tokens.
pub fn with_tokens(alloc: Global, tokens: usize) -> Result<Checkpoint, Fault> {
    let mut builder = GreenNodeBuilder::new(alloc);
    for _token in 0..tokens {
        builder.token(KIND, "")?;
    }
    Ok(builder.checkpoint())
}

/// The number of a checkpoint: how many tokens a builder holds whose checkpoint is equal.
pub fn number_of(alloc: Global, checkpoint: Checkpoint) -> Result<usize, Fault> {
    let mut builder = GreenNodeBuilder::new(alloc);
    for number in 0..usize::MAX {
        if builder.checkpoint() == checkpoint {
            return Ok(number);
        }
        builder.token(KIND, "")?;
    }
    Ok(usize::MAX)
}
