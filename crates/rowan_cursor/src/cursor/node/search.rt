//! Searches by place: at a range or an offset of the root's text.
ghost use Rattle.std.specs.Prelude.{◌≡◌, ◌+◌, ◌<◌, ◌≤◌, ◌↔◌, [], IfOk, IfErr, IsSome};
ghost use Rattle.rowan_green.specs.Search.{digits};
ghost use Rattle.rowan_green.specs.Span.{Holds};
ghost use Rattle.rowan_green.specs.Steps.{count_limit};
ghost use Rattle.rowan_green.specs.TokenAtOffset.{tokens_of};
ghost use Rattle.rowan_table.specs.Cursor.{text_at, text_range};
ghost use Rattle.rowan_table.specs.Moves.{child_count};
ghost use Rattle.rowan_table.specs.Search.{LiesIn, FindsChild, IsCovering, tokens_at};

use crate::cursor::{ElementRefCalls, SyntaxElement, SyntaxNode, SyntaxToken};
use rowan_green::fault::Fault;
use rowan_green::steps::Steps;
use rowan_green::text::{TextRange, TextSize};
use rowan_green::utility_types::TokenAtOffset;

impl SyntaxNode {
    /// The child at a range of the root's text, in bytes: the child that has all bytes of the
    /// range. An empty range is a place between bytes. The child there is the one with bytes on
    /// both sides of it, else the last one that ends there, else the first one, if it begins there.
    /// `None` where no child has the whole range. Refused as a move is.
    pub fn child_or_token_at_range(&self, range: TextRange) -> Result<Option<SyntaxElement>, Fault>
        ensures ok { IfOk result (FindsChild range self.now) }
        ensures err { IfErr result (λ e. e ≡ Fault.Memory) }
    {
        let mut steps = Steps::new();
        self.child_or_token_at_range_counted(range, &mut steps)
    }

    /// Answers as `child_or_token_at_range` does, is refused as that is, and counts how many
    /// children were compared with the range: at most as many as the number of all children has
    /// binary digits, and one at least where a child is found.
    pub fn child_or_token_at_range_counted(
        &self,
        range: TextRange,
        steps: &mut Steps,
    ) -> Result<Option<SyntaxElement>, Fault>
        // the answer
        ensures ok { IfOk result (FindsChild range self.now) }
        ensures err { IfErr result (λ e. e ≡ Fault.Memory) }

        // the counters
        ensures most { let children = child_count self.now.root self.now.path in
            steps.new.comparisons ≤ steps.old.comparisons + digits children }
        ensures least { IfOk result (λ found. IsSome found → steps.old.comparisons < count_limit
            → steps.old.comparisons < steps.new.comparisons) }
        ensures grows { steps.old.comparisons ≤ steps.new.comparisons }
        ensures visits { steps.new.visits ≡ steps.old.visits }
    {
        match self.as_ref().child_or_token_at_range_counted(range, steps) {
            Some(child) => Ok(Some(child.into_owned()?)),
            None => Ok(None),
        }
    }

    /// The element that covers a range of the root's text, in bytes: from this node on, the search
    /// goes down from child to child at the range, as `child_or_token_at_range` finds it, and the
    /// last one covers it. The range lies in the node's, as `contains_range` tests. Refused as a
    /// move is.
    pub fn covering_element(&self, range: TextRange) -> Result<SyntaxElement, Fault>
        requires { LiesIn range (text_range self.now) }
        ensures ok { IfOk result (IsCovering range self.now) }
        ensures err { IfErr result (λ e. e ≡ Fault.Memory) }
    {
        self.as_ref().covering_element(range).into_owned()
    }

    /// The tokens of this node that touch an offset of the root's text, in bytes: those with bytes
    /// that begin there, end there, or have the offset between their bytes. That is one token, or
    /// two neighbours where the offset lies between them; `None` only of an empty node. The offset
    /// lies in the node's range or is an end of it, as `contains_inclusive` tests. Refused as a
    /// move is.
    pub fn token_at_offset(&self, offset: TextSize) -> Result<TokenAtOffset<SyntaxToken>, Fault>
        requires { Holds (text_range self.now) offset }
        ensures ok { IfOk result (λ tokens. tokens_of tokens ≡ tokens_at offset self.now) }
        ensures none { IfOk result
            (λ tokens. (tokens ≡ TokenAtOffset.None) ↔ (text_at self.now ≡ [])) }
        ensures err { IfErr result (λ e. e ≡ Fault.Memory) }
    {
        match self.as_ref().token_at_offset(offset) {
            TokenAtOffset::None => Ok(TokenAtOffset::None),
            TokenAtOffset::Single(token) => Ok(TokenAtOffset::Single(token.to_owned()?)),
            TokenAtOffset::Between(left, right) => {
                let left = left.to_owned()?;
                let right = right.to_owned()?;
                Ok(TokenAtOffset::Between(left, right))
            }
        }
    }
}
