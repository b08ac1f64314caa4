//! Laws of languages and of typed cursors, each as the contract of a function.
ghost use Rattle.std.specs.Prelude.{◌≡◌};

use crate::api::{Language, SyntaxElement, TypedElementCalls};
use rowan_cursor::cursor;

/// A kind is what its raw kind means.
pub fn raw_kind_means_its_kind<L: Language>(kind: L::Kind) -> L::Kind
    ensures { result ≡ kind }
{
    L::kind_from_raw(L::kind_to_raw(kind))
}

/// A node or token that is given the kinds of a language is the same cursor: it has the same root,
/// and the same path in it.
pub fn typed_element_is_the_raw_one<L: Language>(raw: cursor::SyntaxElement) -> SyntaxElement<L>
    ensures { result ≡ raw }
{
    SyntaxElement::from_raw(raw)
}

/// A node or token that loses the kinds of its language is the same cursor. So the two conversions
/// undo each other.
pub fn raw_element_is_the_typed_one<L: Language>(typed: SyntaxElement<L>) -> cursor::SyntaxElement
    ensures { result ≡ typed }
{
    typed.into_raw()
}
