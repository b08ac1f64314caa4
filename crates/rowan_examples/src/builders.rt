//! Builders, with a cache of their own and over one that is lent.
ghost use Rattle.std.specs.Prelude.{◌≡◌, ◌++◌, IfOk, OnOk};
ghost use Rattle.rowan.specs.Loan.{loan_of, text_so_far};
ghost use Rattle.rowan.specs.Term.{node_text};

use rowan::{CacheHome, Fault, GreenNode, GreenNodeBuilder, NodeCache, SyntaxKind};
use std::alloc::Global;

/// Adds two words.
pub fn push_words<H: CacheHome>(
    builder: &mut GreenNodeBuilder<'_, H>,
    first: &str,
    second: &str,
) -> Result<(), Fault>
    ensures text { OnOk result
        (text_so_far builder.new ≡ text_so_far builder.old ++ first.now ++ second.now) }
    ensures loan { loan_of builder.new ≡ loan_of builder.old }
{
    builder.token(SyntaxKind(1), first)?;
    builder.token(SyntaxKind(1), second)?;
    Ok(())
}

/// A list of two words.
pub fn list(alloc: Global, first: &str, second: &str) -> Result<GreenNode, Fault>
    ensures { IfOk result (λ tree. node_text tree ≡ first.now ++ second.now) }
{
    let mut builder = GreenNodeBuilder::new(alloc);
    builder.start_node(SyntaxKind(0))?;
    push_words(&mut builder, first, second)?;
    builder.finish_node()?;
    Ok(builder.finish()?)
}

/// A list of a word, built over a cache that is lent.
pub fn list_in(cache: &mut NodeCache, alloc: Global, word: &str) -> Result<GreenNode, Fault>
    ensures { IfOk result (λ tree. node_text tree ≡ word.now) }
{
    let mut builder = GreenNodeBuilder::with_cache(alloc, cache);
    builder.start_node(SyntaxKind(0))?;
    builder.token(SyntaxKind(1), word)?;
    builder.finish_node()?;
    builder.finish().map_err(Fault::from)
}
