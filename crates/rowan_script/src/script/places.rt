//! Elements by their places.
ghost use Rattle.std.specs.Prelude.{◌≡◌, IfOk, IfErr};
ghost use Rattle.rowan_table.specs.Moves.{element_below};

use rowan_cursor::cursor::{SyntaxElement, SyntaxNode};
use rowan_green::fault::Fault;
use rowan_green::utility_types::NodeOrToken;

/// The element that is reached from a node by these places, each among all children of the element
/// before; the node itself where there are none. `None` where a place is not there. Refused only
/// for want of memory.
pub fn element_at(node: &SyntaxNode, path: &[usize]) -> Result<Option<SyntaxElement>, Fault>
    ensures ok { IfOk result (λ found. found ≡ element_below node.now path.now) }
    ensures err { IfErr result (λ e. e ≡ Fault.Memory) }
{
    let mut element = SyntaxElement::from(node.clone()?);
    for place in path {
        let NodeOrToken::Node(parent) = element else {
            return Ok(None);
        };
        let Some(child) = parent.child_or_token_at_index(*place)? else {
            return Ok(None);
        };
        element = child;
    }
    Ok(Some(element))
}
