//! Searches by place from a borrowed node: at a range or an offset of the root's text.
ghost use Rattle.std.specs.Prelude.{◌≡◌, ◌+◌, ◌<◌, ◌≤◌, ◌↔◌, [], map, IsSome};
ghost use Rattle.std.specs.Option.{option_map};
ghost use Rattle.rowan_green.specs.Search.{digits};
ghost use Rattle.rowan_green.specs.Span.{Holds};
ghost use Rattle.rowan_green.specs.Steps.{count_limit};
ghost use Rattle.rowan_green.specs.TokenAtOffset.{tokens_of};
ghost use Rattle.rowan_table.specs.Cursor.{text_at, text_range};
ghost use Rattle.rowan_table.specs.Moves.{child_count};
ghost use Rattle.rowan_table.specs.Search.{LiesIn, FindsChild, IsCovering, tokens_at};
ghost use Rattle.rowan_api.specs.Refs.{node_place, token_place, element_place};

use super::SyntaxNodeRef;
use crate::api::{SyntaxElementRef, SyntaxTokenRef, element_ref};
use rowan_green::steps::Steps;
use rowan_green::text::{TextRange, TextSize};
use rowan_green::utility_types::TokenAtOffset;

impl<'tree, L> SyntaxNodeRef<'tree, L> {
    /// The child at a range of the root's text, in bytes: the child that has all bytes of the
    /// range. An empty range is a place between bytes. The child there is the one with bytes on
    /// both sides of it, else the last one that ends there, else the first one, if it begins there.
    /// `None` where no child has the whole range.
    pub fn child_or_token_at_range(&self, range: TextRange) -> Option<SyntaxElementRef<'tree, L>>
        ensures { FindsChild range (node_place self.now) (option_map element_place result) }
    {
        element_ref::from_answer(self.raw.child_or_token_at_range(range))
    }

    /// Answers as `child_or_token_at_range` does, and counts how many children were compared with
    /// the range: at most as many as the number of all children has binary digits, and one at least
    /// where a child is found.
    pub fn child_or_token_at_range_counted(
        &self,
        range: TextRange,
        steps: &mut Steps,
    ) -> Option<SyntaxElementRef<'tree, L>>
        ensures found { FindsChild range (node_place self.now) (option_map element_place result) }

        // the counters
        ensures most { let place = node_place self.now in
            let children = child_count place.root place.path in
            steps.new.comparisons ≤ steps.old.comparisons + digits children }
        ensures least { IsSome result → steps.old.comparisons < count_limit
            → steps.old.comparisons < steps.new.comparisons }
        ensures grows { steps.old.comparisons ≤ steps.new.comparisons }
        ensures visits { steps.new.visits ≡ steps.old.visits }
    {
        element_ref::from_answer(self.raw.child_or_token_at_range_counted(range, steps))
    }

    /// The element that covers a range of the root's text, in bytes: from this node on, the search
    /// goes down from child to child at the range, as `child_or_token_at_range` finds it, and the
    /// last one covers it. The range lies in the node's, as `contains_range` tests.
    pub fn covering_element(&self, range: TextRange) -> SyntaxElementRef<'tree, L>
        requires { LiesIn range (text_range (node_place self.now)) }
        ensures { IsCovering range (node_place self.now) (element_place result) }
    {
        element_ref::give_kinds(self.raw.covering_element(range))
    }

    /// The tokens of this node that touch an offset of the root's text, in bytes: those with bytes
    /// that begin there, end there, or have the offset between their bytes. That is one token, or
    /// two neighbours where the offset lies between them; `None` only of an empty node. The offset
    /// lies in the node's range or is an end of it, as `contains_inclusive` tests.
    pub fn token_at_offset(&self, offset: TextSize) -> TokenAtOffset<SyntaxTokenRef<'tree, L>>
        requires { Holds (text_range (node_place self.now)) offset }
        ensures tokens { map token_place (tokens_of result)
            ≡ tokens_at offset (node_place self.now) }
        ensures none { (result ≡ TokenAtOffset.None) ↔ (text_at (node_place self.now) ≡ []) }
    {
        match self.raw.token_at_offset(offset) {
            TokenAtOffset::None => TokenAtOffset::None,
            TokenAtOffset::Single(token) => TokenAtOffset::Single(SyntaxTokenRef::from(token)),
            TokenAtOffset::Between(left, right) => {
                TokenAtOffset::Between(SyntaxTokenRef::from(left), SyntaxTokenRef::from(right))
            }
        }
    }
}
