ghost use Rattle.std.specs.Prelude.{◌≡◌, ◌≢◌, ◌<◌, ◌≤◌, length, IfOk, IfErr, Some};
ghost use Rattle.rowan_green.specs.Fits.{byte_limit, FitsToken};
ghost use Rattle.rowan_green.specs.Term.{token_of, token_len};

use crate::fault::Fault;
use crate::green::token_data::TokenData;
use crate::green::{MAX_TEXT_LEN, SyntaxKind};
use crate::text::TextSize;
use std::alloc::{AllocError, Global};
use std::fmt;
use std::hash::{Hash, Hasher};
use std::marker::Model;
use std::rc::Rc;

/// A leaf of a tree: a kind and a text in UTF-8, which may be empty. A clone shares the text, and
/// is an `Err` where the token cannot be shared once more, since the count of its owners is full.
#[derive(Drop)]
pub struct GreenToken {
    data: Rc<TokenData>,
}

/// Rust's rowan has a type of its own for what a token refers to. Here it is the token.
pub type GreenTokenData = GreenToken;

impl Model for GreenToken {
    ghost use Rattle.std.specs.Prelude.{◌≤◌, length};
    ghost use Rattle.rowan_green.specs.Term.{TokenTerm};
    ghost use Rattle.rowan_green.specs.Fits.{byte_limit};
    ghost use Rattle.rowan_green.specs.TokenData.{stored_text, stored_token};

    ghost Value = { TokenTerm };

    ghost view = { λ t. stored_token t.data.value };

    ghost invariant = { λ t. length (stored_text t.data.value) ≤ byte_limit };
}

impl GreenToken {
    /// The token of a kind and a text. Refused with `TextTooLong` past 4,294,967,295 bytes, and
    /// else only for want of memory.
    pub fn new(alloc: Global, kind: SyntaxKind, text: &str) -> Result<GreenToken, Fault>
        ensures ok { IfOk result (λ t. t ≡ token_of kind.0 text.now) }
        ensures err { IfErr result (λ e. e ≢ Fault.Memory → e ≡ Fault.TextTooLong) }
        ensures too_long { byte_limit < length text.now → result ≡ Err Fault.TextTooLong }
        ensures fits { result ≡ Err Fault.TextTooLong → byte_limit < length text.now }
    {
        if text.len() > MAX_TEXT_LEN {
            return Err(Fault::TextTooLong);
        }
        let data = Rc::new(alloc, TokenData::new(alloc, kind, text)?)?;
        Ok(GreenToken { data })
    }

    /// The kind of the token.
    pub fn kind(&self) -> SyntaxKind
        ensures { result.0 ≡ self.now.kind }
    {
        self.data.kind()
    }

    /// The text of the token.
    pub fn text(&self) -> &str
        ensures { result.now ≡ self.now.text }
    {
        self.data.as_str()
    }

    /// The number of bytes of the token's text.
    pub fn text_len(&self) -> TextSize
        ensures len { result ≡ token_len self.now }
        ensures fits { FitsToken self.now }
    {
        TextSize::from(self.data.as_str().len() as u32)
    }
}

impl Clone for GreenToken {
    ghost is_clone = { λ token copy. copy ≡ token };

    fn clone(&self) -> Result<GreenToken, AllocError> {
        Ok(GreenToken {
            data: self.data.clone()?,
        })
    }
}

impl PartialEq for GreenToken {
    ghost use Rattle.rowan_green.specs.Same.{same_token, same_token-laws};
    ghost use Rattle.std.specs.Cmp.{partial_equiv_from_equiv};

    ghost eq = { same_token };

    ghost laws = { partial_equiv_from_equiv same_token-laws };

    fn eq(&self, other: &GreenToken) -> bool {
        self.kind() == other.kind() && self.text() == other.text()
    }
}

impl Eq for GreenToken {
    ghost use Rattle.rowan_green.specs.Same.{same_token-laws};

    ghost laws = { same_token-laws };
}

impl Hash for GreenToken {
    ghost use Rattle.rowan_green.specs.Same.{same_token-decides};
    ghost use Rattle.rowan_green.specs.Feeds.{fed_token};
    ghost use Rattle.std.specs.Hash.{same_Alike};

    ghost hash_input = { fed_token };

    ghost respects_eq = { (same_Alike fed_token same_token-decides).fed };

    fn hash<H: Hasher>(&self, state: &mut H) {
        self.kind().hash(state);
        self.text().hash(state);
    }
}

impl fmt::Display for GreenToken {
    ghost output = { λ token. Some token.text };

    fn fmt<W: fmt::Write>(&self, f: &mut fmt::Formatter<W>) -> fmt::Result {
        f.write_str(self.text())
    }
}

impl fmt::Debug for GreenToken {
    fn fmt<W: fmt::Write>(&self, f: &mut fmt::Formatter<W>) -> fmt::Result {
        f.debug_struct("GreenToken")
            .field("kind", &self.kind())
            .field("text", &self.text())
            .finish()
    }
}
