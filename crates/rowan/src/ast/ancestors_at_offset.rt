//! The nodes around an offset, from the innermost on.
ghost use Rattle.std.specs.Prelude.{◌≡◌, ◌<◌, length, map};
ghost use Rattle.rowan_green.specs.Span.{Holds};
ghost use Rattle.rowan_green.specs.TokenAtOffset.{tokens_of};
ghost use Rattle.rowan_table.specs.Cursor.{text_range};
ghost use Rattle.rowan_table.specs.Search.{tokens_at};
ghost use Rattle.rowan_api.specs.Refs.{node_place, token_place};
ghost use Rattle.rowan.specs.AroundOffset.{rest_at_offset, all_above, takes_right};

use crate::api::{SyntaxNodeRef, SyntaxTokenRef};
use rowan_green::text::TextSize;
use rowan_green::utility_types::TokenAtOffset;

/// The nodes around the tokens that touch an offset, from the shortest on: those around one token,
/// or those around two, merged by the lengths of their texts. Of two that are as long, the one
/// around the left token comes first; a node around both comes twice.
#[derive_where(Clone, Copy)]
pub struct AncestorsAtOffset<'tree, L> {
    /// The next node around the left token, or around the only one.
    left: Option<SyntaxNodeRef<'tree, L>>,
    right: Option<SyntaxNodeRef<'tree, L>>,
}

/// The nodes around the tokens that touch an offset of the root's text, in bytes, up to the root.
/// None where the offset does not lie in the node's range.
pub fn ancestors_at_offset<'tree, L>(
    node: SyntaxNodeRef<'tree, L>,
    offset: TextSize,
) -> AncestorsAtOffset<'tree, L>
    ensures inside { let c = node_place node.entry in Holds (text_range c) offset
        → rest_at_offset result ≡ all_above (tokens_at offset c) }
    ensures some { 0 < length (rest_at_offset result)
        → Holds (text_range (node_place node.entry)) offset }
{
    if !node.text_range().contains_inclusive(offset) {
        return above_tokens(TokenAtOffset::None);
    }
    above_tokens(node.token_at_offset(offset))
}

/// The nodes around these tokens.
#[tactic(auto, using(crate::proofs::AroundLemmas::merged_nil))]
fn above_tokens<'tree, L>(
    tokens: TokenAtOffset<SyntaxTokenRef<'tree, L>>,
) -> AncestorsAtOffset<'tree, L>
    ensures { rest_at_offset result ≡ all_above (map token_place (tokens_of tokens.entry)) }
{
    match tokens {
        TokenAtOffset::None => AncestorsAtOffset {
            left: None,
            right: None,
        },
        TokenAtOffset::Single(token) => AncestorsAtOffset {
            left: token.parent(),
            right: None,
        },
        TokenAtOffset::Between(left, right) => AncestorsAtOffset {
            left: left.parent(),
            right: right.parent(),
        },
    }
}

impl<'tree, L> AncestorsAtOffset<'tree, L> {
    /// Whether the next node is one around the right token.
    fn takes_right(&self) -> bool
        ensures { result ≡ takes_right self.now }
    {
        match (self.left, self.right) {
            (Some(left), Some(right)) => right.text_range().len() < left.text_range().len(),
            (Some(_), None) => false,
            (None, _) => true,
        }
    }
}

impl<'tree, L> Iterator for AncestorsAtOffset<'tree, L> {
    type Item = SyntaxNodeRef<'tree, L>;

    ghost use Rattle.std.specs.Iterator.{YieldsFirstBy, item_count};
    ghost use Rattle.rowan_api.specs.Refs.{node_place};
    ghost use Rattle.rowan.specs.AroundOffset.{rest_at_offset};

    ghost next_gives = { YieldsFirstBy node_place rest_at_offset };

    ghost remaining = { item_count rest_at_offset };

    fn next(&mut self) -> Option<SyntaxNodeRef<'tree, L>> {
        if self.takes_right() {
            let right = self.right?;
            self.right = right.parent();
            Some(right)
        } else {
            let left = self.left?;
            self.left = left.parent();
            Some(left)
        }
    }

    fn size_hint(&self) -> (usize, Option<usize>) {
        (0, None)
    }
}
