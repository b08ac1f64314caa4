//! Elements, which are nodes or tokens: their calls are those of two traits.
ghost use Rattle.std.specs.Prelude.{◌≡◌, IfOk};
ghost use Rattle.rowan.specs.Moves.{place_of, parent, next_sibling_or_token};
ghost use Rattle.rowan_examples.specs.Elements.{is_token};

use crate::kinds::Lists;
use rowan::{
    ElementCalls, Fault, NodeOrToken, SyntaxElement, SyntaxNode, TypedElementCalls, cursor,
};

/// The next sibling of a raw element, by `ElementCalls`.
pub fn raw_next(element: &cursor::SyntaxElement) -> Result<Option<cursor::SyntaxElement>, Fault>
    ensures { IfOk result (λ found. found ≡ next_sibling_or_token (place_of element.now)) }
{
    element.next_sibling_or_token()
}

/// The parent of an element of a language, by `TypedElementCalls`.
pub fn parent_of(element: &SyntaxElement<Lists>) -> Result<Option<SyntaxNode<Lists>>, Fault>
    ensures { IfOk result (λ found. found ≡ parent (place_of element.now)) }
{
    element.parent()
}

/// The element with a language.
pub fn typed_element(raw: cursor::SyntaxElement) -> SyntaxElement<Lists>
    ensures { result ≡ raw }
{
    SyntaxElement::from_raw(raw)
}

/// The element without its language.
pub fn raw_element(element: SyntaxElement<Lists>) -> cursor::SyntaxElement
    ensures { result ≡ element }
{
    element.into_raw()
}

/// Whether it is a token.
pub fn is_token(element: &SyntaxElement<Lists>) -> bool
    ensures { result ≡ is_token element.now }
{
    matches!(element, NodeOrToken::Token(_))
}
