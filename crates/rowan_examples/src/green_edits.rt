//! Green nodes and tokens made by hand, and edits of them.
ghost use Rattle.std.specs.Prelude.{◌≡◌, IfOk, IfErr};
ghost use Rattle.rowan.specs.Edits.{IsEditOf, inserted, replaced};
ghost use Rattle.rowan.specs.Fits.{WhyNoNode};
ghost use Rattle.rowan.specs.Term.{node_children, node_len, token_of};
ghost use Rattle.rowan.specs.Types.NodeOrToken.TheVariants.{Token};

use rowan::{Fault, GreenElement, GreenNode, GreenToken, SyntaxKind, TextSize};
use std::alloc::Global;

/// A word.
pub fn word(alloc: Global, text: &str) -> Result<GreenElement, Fault>
    ensures { IfOk result (λ word. word ≡ Token (token_of 1 text.now)) }
{
    Ok(GreenElement::from(GreenToken::new(alloc, SyntaxKind(1), text)?))
}

/// The list with a word before all others.
pub fn prepend_word(alloc: Global, list: &GreenNode, text: &str) -> Result<GreenNode, Fault>
    ensures { IfOk result (IsEditOf list.now
        (λ children. inserted children 0 (Token (token_of 1 text.now)))) }
{
    list.insert_child(0, word(alloc, text)?)
}

/// The list with another element in place of the first.
pub fn replace_first(list: &GreenNode, element: GreenElement) -> Result<GreenNode, Fault>
    ensures ok { IfOk result (IsEditOf list.now (λ children. replaced children 0 element)) }
    ensures err { IfErr result (WhyNoNode (replaced (node_children list.now) 0 element)) }
{
    list.replace_child(0, element)
}

/// The number of bytes of a list.
pub fn len(list: &GreenNode) -> TextSize
    ensures { result ≡ node_len list.now }
{
    list.text_len()
}
