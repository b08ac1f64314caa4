ghost use Rattle.std.specs.Prelude.{◌≡◌, ◌+◌, ◌<◌, ◌≤◌, map, length};
ghost use Rattle.rowan_green.specs.Search.{IsOnlyChoice, digits};
ghost use Rattle.rowan_green.specs.Span.{EndsBefore, Overlaps, StartsBehind};
ghost use Rattle.rowan_green.specs.Steps.{one_more, Rises};
ghost use Rattle.rowan_green.specs.Term.{sum_of_lens};
ghost use Rattle.rowan_green.specs.View.{child_term, span_at, HasOffsetsFrom};

use crate::green::node::GreenChild;
use crate::steps::Steps;
use crate::text::{TextRange, TextSize};
use std::cmp::Ordering;

// A search reads the list of children alone: a child ends where the next one begins, and the last
// where the text ends. What a child refers to lies elsewhere in memory, and would be waited for.
impl GreenChild {
    // Where the child at an index lies in its node's text.
    pub(super) fn rel_range(children: &[GreenChild], text_len: TextSize, index: usize) -> TextRange
        requires place { index < length children.now }
        requires placed { HasOffsetsFrom 0 children.now }
        requires sum { text_len ≡ sum_of_lens (map child_term children.now) }
        ensures { result ≡ span_at children.now index }
    {
        let start = children[index].rel_offset();
        let end = match children.get(index + 1) {
            Some(next) => next.rel_offset(),
            None => text_len,
        };
        TextRange::new(start, end)
    }

    // How the child at an index lies to a range: before it, over some of it, or behind it. A search
    // compares by this alone.
    fn compare(
        children: &[GreenChild],
        text_len: TextSize,
        index: usize,
        range: TextRange,
        steps: &mut Steps,
    ) -> Ordering
        requires place { index < length children.now }
        requires placed { HasOffsetsFrom 0 children.now }
        requires sum { text_len ≡ sum_of_lens (map child_term children.now) }

        // How the child lies to the range.
        ensures less { let child = span_at children.now index in
            result ≡ Ordering.Less → EndsBefore child range }
        ensures equal { let child = span_at children.now index in
            result ≡ Ordering.Equal → Overlaps child range }
        ensures greater { let child = span_at children.now index in
            result ≡ Ordering.Greater → StartsBehind child range }

        // One comparison is counted.
        ensures comparisons { steps.new.comparisons ≡ one_more steps.old.comparisons }
        ensures grows { steps.old.comparisons ≤ steps.new.comparisons }
        ensures visits { steps.new.visits ≡ steps.old.visits }
    {
        steps.compare();
        GreenChild::rel_range(children, text_len, index).ordering(range)
    }

    // The place of a child that lies over some of the range. Where there is none, it is that of the
    // last child before the range, or else the first place.
    pub(super) fn search(
        children: &[GreenChild],
        text_len: TextSize,
        range: TextRange,
        steps: &mut Steps,
    ) -> usize
        requires placed { HasOffsetsFrom 0 children.now }
        requires sum { text_len ≡ sum_of_lens (map child_term children.now) }

        // Which child it is.
        ensures choice { range.start ≤ range.end
            → IsOnlyChoice (map child_term children.now) range.start range.end result }

        // What is counted.
        ensures most { let count = length children.now in
            steps.new.comparisons ≤ steps.old.comparisons + digits count }
        ensures least { 0 < length children.now
            → Rises steps.old.comparisons steps.new.comparisons }
        ensures grows { steps.old.comparisons ≤ steps.new.comparisons }
        ensures visits { steps.new.visits ≡ steps.old.visits }
    {
        let mut low = 0;
        let mut high = children.len();
        while low < high {
            let middle = low + (high - low) / 2;
            match GreenChild::compare(children, text_len, middle, range, steps) {
                Ordering::Less => low = middle + 1,
                Ordering::Equal => return middle,
                Ordering::Greater => high = middle,
            }
        }
        low.saturating_sub(1)
    }
}
