//! Small types that all parts share.
ghost use Rattle.std.specs.Prelude.{◌≡◌, IfOk};
ghost use Rattle.std.specs.List.{slice_get};
ghost use Rattle.rowan.specs.Lent.{into_token};
ghost use Rattle.rowan.specs.Moves.{siblings};
ghost use Rattle.rowan.specs.TokenAtOffset.{tokens_of};
ghost use Rattle.rowan.specs.WalkEvent.{event_value};

use crate::kinds::Lists;
use rowan::api::Siblings;
use rowan::{Direction, SyntaxElement, SyntaxNode, SyntaxToken, TokenAtOffset, WalkEvent};

/// The token, or `None` of a node.
pub fn token(element: SyntaxElement<Lists>) -> Option<SyntaxToken<Lists>>
    ensures { result ≡ into_token element }
{
    element.into_token()
}

/// Of two tokens the left one.
pub fn left(tokens: TokenAtOffset<SyntaxToken<Lists>>) -> Option<SyntaxToken<Lists>>
    ensures { result ≡ slice_get (tokens_of tokens) 0 }
{
    tokens.left_biased()
}

/// The element that an event enters or leaves.
pub fn element(event: WalkEvent<SyntaxElement<Lists>>) -> SyntaxElement<Lists>
    ensures { result ≡ event_value event }
{
    match event {
        WalkEvent::Enter(element) => element,
        WalkEvent::Leave(element) => element,
    }
}

/// A node and its siblings behind it.
pub fn from_here(node: &SyntaxNode<Lists>) -> Siblings<Lists>
    ensures { IfOk result (λ nodes. nodes ≡ siblings Direction.Next node.now) }
{
    node.siblings(Direction::Next)
}
