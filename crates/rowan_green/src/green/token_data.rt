ghost use Rattle.std.specs.Prelude.{◌≡◌, IfOk};
ghost use Rattle.rowan_green.specs.Term.{token_of};
ghost use Rattle.rowan_green.specs.TokenData.{stored_kind, stored_text, stored_token};

use crate::green::SyntaxKind;
use crate::green::short_text::ShortText;
use std::alloc::{AllocError, Global};
use std::mem;

// What a token refers to: its kind and its text. A short text stands beside the kind.
#[derive(Drop)]
pub(super) enum TokenData {
    Short { kind: SyntaxKind, text: ShortText },
    Long { kind: SyntaxKind, text: Box<String> },
}

// A tree has many tokens, so each takes little memory: for that a long text stands in a box.
const _: () = prove!(mem::size_of::<TokenData>() == 24);

impl TokenData {
    pub(super) fn new(alloc: Global, kind: SyntaxKind, text: &str) -> Result<TokenData, AllocError>
        ensures { IfOk result (λ t. stored_token t ≡ token_of kind.0 text.now) }
    {
        match ShortText::new(text) {
            Some(text) => Ok(TokenData::Short { kind, text }),
            None => {
                let text = Box::new(alloc, String::from_str(alloc, text)?)?;
                Ok(TokenData::Long { kind, text })
            }
        }
    }

    pub(super) fn kind(&self) -> SyntaxKind
        ensures { result.0 ≡ stored_kind self.now }
    {
        match self {
            TokenData::Short { kind, .. } | TokenData::Long { kind, .. } => *kind,
        }
    }

    pub(super) fn as_str(&self) -> &str
        ensures { result.now ≡ stored_text self.now }
    {
        match self {
            TokenData::Short { text, .. } => text.as_str(),
            TokenData::Long { text, .. } => text.as_str(),
        }
    }
}
