ghost use Rattle.std.specs.Prelude.{◌≡◌, IfOk, IfErr};
ghost use Rattle.rowan_green.specs.Lent.{pointee};
ghost use Rattle.rowan_green.specs.Term.{term_kind, term_len};
ghost use Rattle.rowan_green.specs.Fits.{Fits};

use crate::fault::Fault;
use crate::green::{GreenNode, GreenToken, SyntaxKind};
use crate::text::TextSize;
use crate::utility_types::NodeOrToken;
use std::alloc::AllocError;

/// A green node or token. It is made from either by `From`.
pub type GreenElement = NodeOrToken<GreenNode, GreenToken>;

/// A green node or token that is lent. `to_owned` shares it, and is the only call whose answer may
/// be an `Err`.
pub type GreenElementRef<'a> = NodeOrToken<&'a GreenNode, &'a GreenToken>;

impl GreenElement {
    /// The kind of the node or token.
    pub fn kind(&self) -> SyntaxKind
        ensures { result.0 ≡ term_kind self.now }
    {
        self.as_ref().kind()
    }

    /// The number of bytes of its text.
    pub fn text_len(&self) -> TextSize
        ensures len { result ≡ term_len self.now }
        ensures fits { Fits self.now }
    {
        self.as_ref().text_len()
    }
}

impl From<GreenNode> for GreenElement {
    ghost use Rattle.rowan_green.specs.declared.utility_types.NodeOrToken.TheVariants.{Node};

    ghost from_gives = { λ node element. element ≡ Node node };

    fn from(node: GreenNode) -> GreenElement {
        NodeOrToken::Node(node)
    }
}

impl From<GreenToken> for GreenElement {
    ghost use Rattle.rowan_green.specs.declared.utility_types.NodeOrToken.TheVariants.{Token};

    ghost from_gives = { λ token element. element ≡ Token token };

    fn from(token: GreenToken) -> GreenElement {
        NodeOrToken::Token(token)
    }
}

impl<'a> GreenElementRef<'a> {
    /// The kind of the node or token.
    pub fn kind(&self) -> SyntaxKind
        ensures { result.0 ≡ term_kind (pointee self.now) }
    {
        match self {
            NodeOrToken::Node(node) => node.kind(),
            NodeOrToken::Token(token) => token.kind(),
        }
    }

    /// The number of bytes of its text.
    pub fn text_len(&self) -> TextSize
        ensures len { result ≡ term_len (pointee self.now) }
        ensures fits { Fits (pointee self.now) }
    {
        match self {
            NodeOrToken::Node(node) => node.text_len(),
            NodeOrToken::Token(token) => token.text_len(),
        }
    }

    /// The node or token itself, which is shared. Refused with `Memory` where it cannot be shared
    /// once more.
    pub fn to_owned(self) -> Result<GreenElement, Fault>
        ensures ok { IfOk result (λ element. element ≡ pointee self.entry) }
        ensures err { IfErr result (λ e. e ≡ Fault.Memory) }
    {
        Ok(self.share()?)
    }

    // The node or token itself, which is shared.
    #[doc(hidden)]
    pub fn share(self) -> Result<GreenElement, AllocError>
        ensures { IfOk result (λ element. element ≡ pointee self.entry) }
    {
        match self {
            NodeOrToken::Node(node) => Ok(NodeOrToken::Node(node.clone()?)),
            NodeOrToken::Token(token) => Ok(NodeOrToken::Token(token.clone()?)),
        }
    }
}

impl<'a> From<&'a GreenNode> for GreenElementRef<'a> {
    ghost use Rattle.rowan_green.specs.declared.utility_types.NodeOrToken.TheVariants.{Node};

    ghost from_gives = { λ node element. element ≡ Node node };

    fn from(node: &'a GreenNode) -> GreenElementRef<'a> {
        NodeOrToken::Node(node)
    }
}

impl<'a> From<&'a GreenToken> for GreenElementRef<'a> {
    ghost use Rattle.rowan_green.specs.declared.utility_types.NodeOrToken.TheVariants.{Token};

    ghost from_gives = { λ token element. element ≡ Token token };

    fn from(token: &'a GreenToken) -> GreenElementRef<'a> {
        NodeOrToken::Token(token)
    }
}
