//! New elements with what stands between them.
ghost use Rattle.std.specs.Prelude.{◌≡◌, ◌++◌, ◌∷◌, [], IfOk, OnOk};
ghost use Rattle.rowan.specs.Term.{token_of};
ghost use Rattle.rowan.specs.Types.NodeOrToken.TheVariants.{Token};
ghost use Rattle.toml_edit_plan.specs.Runs.{nodes_in, others_in};
ghost use Rattle.toml_syntax.specs.Kinds.{number_of};

use rowan::{Fault, GreenElement, GreenNode, GreenToken, Language};
use std::alloc::Global;
use toml_syntax::{Kind, Toml};

/// What stands before, between and behind new elements.
#[derive(Clone, Copy)]
pub(crate) enum Sign<'a> {
    Comma,
    /// White space, or nothing where its text is empty.
    White(&'a str),
}

/// New elements, with signs before, between and behind them.
pub(crate) fn run(
    alloc: Global,
    before: &[Sign<'_>],
    pieces: Vec<GreenNode>,
    between: &[Sign<'_>],
    after: &[Sign<'_>],
) -> Result<Vec<GreenElement>, Fault>
    ensures put { IfOk result (λ new. nodes_in new.items ≡ pieces.items) }
    ensures beside { IfOk result (λ new. others_in new.items ≡ []) }
{
    let mut new = Vec::new(alloc);
    push_signs(&mut new, before)?;
    push_pieces(&mut new, pieces, between)?;
    push_signs(&mut new, after)?;
    Ok(new)
}

fn push_pieces(
    new: &mut Vec<GreenElement>,
    pieces: Vec<GreenNode>,
    between: &[Sign<'_>],
) -> Result<(), Fault>
    ensures put { OnOk result (nodes_in new.new.items ≡ nodes_in new.old.items ++ pieces.items) }
    ensures beside { OnOk result (others_in new.new.items ≡ others_in new.old.items) }
{
    let mut is_first = true;
    for piece in pieces {
        if !is_first {
            push_signs(new, between)?;
        }
        new.push(GreenElement::from(piece))?;
        is_first = false;
    }
    Ok(())
}

/// Adds tokens for signs.
fn push_signs(new: &mut Vec<GreenElement>, signs: &[Sign<'_>]) -> Result<(), Fault>
    ensures put { OnOk result (nodes_in new.new.items ≡ nodes_in new.old.items) }
    ensures beside { OnOk result (others_in new.new.items ≡ others_in new.old.items) }
{
    for sign in signs {
        match *sign {
            Sign::Comma => push_token(new, Kind::Comma, ",")?,
            Sign::White("") => {}
            Sign::White(text) => push_token(new, Kind::Whitespace, text)?,
        }
    }
    Ok(())
}

/// Adds a token.
pub(crate) fn push_token(new: &mut Vec<GreenElement>, kind: Kind, text: &str) -> Result<(), Fault>
    ensures { OnOk result (new.new.items
        ≡ new.old.items ++ Token (token_of (number_of kind) text.now) ∷ []) }
{
    let token = GreenToken::new(*new.allocator(), Toml::kind_to_raw(kind), text)?;
    new.push(GreenElement::from(token))?;
    Ok(())
}
