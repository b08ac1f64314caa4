//! White space of settings: one space between the tokens of a line, but none at its start, at its end
//! and beside brackets. Lines with nothing else stay.
ghost use Rattle.std.specs.Prelude.{◌≡◌, IfOk};
ghost use Rattle.std.specs.List.{filter};
ghost use Rattle.rowan.specs.Types.NodeOrToken.TheVariants.{Node};
ghost use Rattle.rowan.specs.Path.{tokens};
ghost use Rattle.rowan_edit.specs.Rewriting.{Keeps};
ghost use Rattle.rowan_edit.specs.TokenAts.{token_in};
ghost use Rattle.guide_language.specs.Layout.{is_no_space};

use crate::kinds::{Kind, Settings};
use rowan::{Fault, GreenElement, GreenNode, GreenToken, Language, SyntaxKind};
use rowan_edit::{Rewrite, TokenAt, rewrite_tokens};
use std::alloc::Global;

const SPACE: SyntaxKind = SyntaxKind(Kind::Whitespace as u16);

/// The tree with this white space. All other tokens are the same ones, in the same order.
///
/// Errors: as `rewrite_tokens`.
pub fn formatted(alloc: Global, tree: &GreenNode) -> Result<GreenNode, Fault>
    ensures { IfOk result (λ new. filter is_no_space (tokens (Node new))
        ≡ filter is_no_space (tokens (Node tree.now))) }
{
    let mut layout = Layout { is_tight: true };
    let place = &mut |at: TokenAt<'_>| -> Result<Rewrite, Fault>
        ensures { IfOk result (Keeps is_no_space (token_in at.entry)) }
    { layout.place(alloc, at) };
    let new = rewrite_tokens(alloc, tree, place)?;
    Ok(new.green)
}

#[derive(Drop)]
struct Layout {
    /// Whether no space comes before the next token: it stands at the start of a line or behind `[`.
    is_tight: bool,
}

impl Layout {
    /// What becomes of a token.
    fn place(&mut self, alloc: Global, at: TokenAt<'_>) -> Result<Rewrite, Fault>
        ensures { IfOk result (Keeps is_no_space (token_in at.entry)) }
    {
        let ends_line = at.text().ends_with('\n');
        if at.kind() == SPACE {
            if ends_line {
                return Ok(Rewrite::Keep);
            }
            return Ok(Rewrite::Remove);
        }
        let kind = Settings::kind_from_raw(at.kind());
        let is_tight = self.is_tight || matches!(kind, Kind::Close | Kind::Newline);
        self.is_tight = ends_line || kind == Kind::Open;
        if is_tight {
            return Ok(Rewrite::Keep);
        }
        let space = GreenToken::new(alloc, SPACE, " ")?;
        Ok(Rewrite::KeepBehind(vec![in alloc; GreenElement::from(space)]?))
    }
}
