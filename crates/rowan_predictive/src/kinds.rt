//! The kinds of the tokens of a text that are no trivia.
ghost use Rattle.std.specs.Prelude.{◌≡◌, ◌++◌, ◌∷◌, [], cond, IfOk, IfErr, OnOk};
ghost use Rattle.rowan_parser.specs.Events.{is_trivia};
ghost use Rattle.rowan_predictive.specs.Parsing.{kinds_of};

use rowan::Fault;
use rowan_parser::{Token, Trivia};
use std::alloc::Global;

fn is_trivia(trivia: Trivia<'_>, token: &Token<'_>) -> bool
    ensures { result ≡ is_trivia trivia.entry token.now }
{
    trivia.kinds.contains(token.kind)
}

/// The kinds of the tokens that are no trivia.
pub(crate) fn kinds_of(
    alloc: Global,
    tokens: &[Token<'_>],
    trivia: Trivia<'_>,
) -> Result<Vec<u16>, Fault>
    ensures kinds { IfOk result (λ kinds. kinds.items ≡ kinds_of trivia.entry tokens.now) }
    ensures err { IfErr result (λ e. e ≡ Fault.Memory) }
{
    let mut kinds = Vec::with_capacity(alloc, tokens.len())?;
    for token in tokens {
        push_kind(&mut kinds, token.kind.0, is_trivia(trivia, token))?;
    }
    Ok(kinds)
}

/// Puts the kind of a token behind the others, unless the token is trivia.
#[inline(always)]
fn push_kind(kinds: &mut Vec<u16>, kind: u16, is_trivia: bool) -> Result<(), Fault>
    ensures kinds { OnOk result (kinds.new.items
        ≡ kinds.old.items ++ cond is_trivia [] (kind ∷ [])) }
    ensures err { IfErr result (λ e. e ≡ Fault.Memory) }
{
    if !is_trivia {
        kinds.push(kind)?;
    }
    Ok(())
}
