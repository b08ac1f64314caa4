//! Searches by place: among the children of one node by halves, and so down from node to child.
ghost use Rattle.std.specs.Prelude.{◌≡◌, ℕ, ◌+◌, ◌-◌, ◌<◌, ◌≤◌, ◌↔◌, IfSome, IsNone, IsSome, map};
ghost use Rattle.std.specs.List.{AllByRecursion};
ghost use Rattle.rowan_terms.specs.Path.{Path};
ghost use Rattle.rowan_green.specs.Span.{Holds};
ghost use Rattle.rowan_green.specs.TokenAtOffset.{tokens_of};
ghost use Rattle.rowan_table.specs.Chunks.{SkipsTo};
ghost use Rattle.rowan_table.specs.Cursor.{text_range};
ghost use Rattle.rowan_table.specs.Moves.{child_count};
ghost use Rattle.rowan_table.specs.Search.{IsRangeChild, IsOnlyRangeChild, CountsSearch, Covers};
ghost use Rattle.rowan_table.specs.Search.{IsChildBefore, IsLeafOver, touching};

use super::Table;
use rowan_green::steps::Steps;
use rowan_green::text::{TextRange, TextSize};
use rowan_green::utility_types::TokenAtOffset;

/// An entry, and where its text lies.
#[derive(Clone, Copy)]
struct Place {
    number: usize,
    range: TextRange,
}

impl Table {
    ghost use Rattle.rowan_table.specs.TableView.{root_of, path_at, cursor_of, IsWithin};
    ghost use Rattle.rowan_table.specs.TableView.{IsTokenIn, IsPlace, IsChildUpTo};

    fn place(&self, number: usize) -> Place
        requires { IsWithin self.now number }
        ensures number { result.number ≡ number }
        ensures place { IsPlace self.now result }
    {
        Place {
            number,
            range: self.text_range(number),
        }
    }

    /// The child at a range of the root's text. Counts the comparisons.
    pub fn child_at_range(
        &self,
        number: usize,
        range: TextRange,
        steps: &mut Steps,
    ) -> Option<usize>
        requires { IsWithin self.now number }
        ensures child { let here = path_at self.now number in
            IfSome result (λ n. IsRangeChild (root_of self.now) range here (path_at self.now n)) }
        ensures none { let here = path_at self.now number in
            IsNone result → (q : Path) → ¬ IsRangeChild (root_of self.now) range here q }
        ensures within { IfSome result (IsWithin self.now) }
        ensures counts { let children = child_count (root_of self.now) (path_at self.now number) in
            CountsSearch children (IsSome result) steps.old steps.new }
    {
        let child = self.child_in(&self.place(number), range, steps)?;
        Some(child.number)
    }

    // Where the text of a child lies: up to where the next child's begins, and the last's up to
    // where the parent's ends. The children's numbers go up to `stop`.
    fn child_range(&self, child: usize, stop: usize, end: TextSize) -> TextRange
        requires { IsChildUpTo self.now stop end child }
        ensures { result ≡ text_range (cursor_of self.now child) }
    {
        let start = self.start(child);
        if child + 1 == stop {
            return TextRange::new(start, end);
        }
        TextRange::new(start, self.start(child + 1))
    }

    // The only child that can be the one at a range; none, if there are no children. By halves: it
    // reads entries alone, which stand side by side. Counts the comparisons.
    #[inline(always)]
    fn only_child_at(&self, parent: &Place, range: TextRange, steps: &mut Steps) -> Option<Place>
        requires place { IsPlace self.now parent.now }
        requires from { parent.now.range.start ≤ range.start }

        ensures only { let here = path_at self.now parent.now.number in IfSome result
            (λ c. IsOnlyRangeChild (root_of self.now) range here (path_at self.now c.number)) }
        ensures place { IfSome result (IsPlace self.now) }
        ensures none { IsNone result
            → child_count (root_of self.now) (path_at self.now parent.now.number) ≡ 0 }
        ensures later { IfSome result (λ c. parent.now.number < c.number) }
        ensures counts { let here = path_at self.now parent.now.number in
            let children = child_count (root_of self.now) here in
            CountsSearch children (IsSome result) steps.old steps.new }
    {
        let children = self.child_numbers(parent.number);
        if children.start == children.end {
            return None;
        }
        let end = parent.range.end();
        let mut low = 0;
        let mut high = children.end - children.start;
        while low < high {
            let middle = low + (high - low) / 2;
            let number = children.start + middle;
            let own = self.child_range(number, children.end, end);
            steps.compare();
            if own.end() <= range.start() {
                low = middle + 1;
            } else if range.end() <= own.start() {
                high = middle;
            } else {
                return Some(Place { number, range: own });
            }
        }
        let number = children.start + low.saturating_sub(1);
        let range = self.child_range(number, children.end, end);
        Some(Place { number, range })
    }

    // The child at a range of the root's text. Counts the comparisons. Inlined, so that a search
    // that goes down the tree makes no call for each node, and where nobody reads the count there
    // is none.
    #[inline(always)]
    fn child_in(&self, parent: &Place, range: TextRange, steps: &mut Steps) -> Option<Place>
        requires { IsPlace self.now parent.now }

        ensures child { let here = path_at self.now parent.now.number in IfSome result
            (λ c. IsRangeChild (root_of self.now) range here (path_at self.now c.number)) }
        ensures place { IfSome result (IsPlace self.now) }
        ensures none { let here = path_at self.now parent.now.number in
            IsNone result → (q : Path) → ¬ IsRangeChild (root_of self.now) range here q }
        ensures later { IfSome result (λ c. parent.now.number < c.number) }
        ensures counts { let here = path_at self.now parent.now.number in
            let children = child_count (root_of self.now) here in
            CountsSearch children (IsSome result) steps.old steps.new }
    {
        if range.start() < parent.range.start() {
            return None;
        }
        let only = self.only_child_at(parent, range, steps)?;
        if !only.range.contains_range(range) {
            return None;
        }
        Some(only)
    }

    /// The element that covers a range of the root's text, of those at and below an entry.
    pub fn covering_element(&self, number: usize, range: TextRange) -> usize
        requires { IsWithin self.now number }
        ensures covers { let here = path_at self.now number in
            Covers (root_of self.now) range here (path_at self.now result) }
        ensures within { IsWithin self.now result }
    {
        self.covering(&self.place(number), range).number
    }

    // The place of the element that covers a range, of those at and below a place.
    #[inline(always)]
    fn covering(&self, top: &Place, range: TextRange) -> Place
        requires { IsPlace self.now top.now }
        ensures covers { let here = path_at self.now top.now.number in
            Covers (root_of self.now) range here (path_at self.now result.number) }
        ensures place { IsPlace self.now result }
    {
        let mut steps = Steps::new();
        let mut covering = *top;
        while let Some(child) = self.child_in(&covering, range, &mut steps) {
            covering = child;
        }
        covering
    }

    // The last child that starts before an offset of the root's text, or the first child, if none
    // does. By halves.
    fn child_before(&self, number: usize, offset: TextSize) -> Option<usize>
        requires { IsWithin self.now number }
        ensures child { let here = path_at self.now number in
            IfSome result (λ n. IsChildBefore (root_of self.now) offset here (path_at self.now n)) }
        ensures none { IsNone result
            → child_count (root_of self.now) (path_at self.now number) ≡ 0 }
        ensures within { IfSome result (IsWithin self.now) }
        ensures later { IfSome result (λ n. number < n) }
    {
        let children = self.child_numbers(number);
        if children.start == children.end {
            return None;
        }
        let mut child = children.start;
        let mut end = children.end;
        while child + 1 < end {
            let middle = child + (end - child) / 2;
            if self.start(middle) < offset {
                child = middle;
            } else {
                end = middle;
            }
        }
        Some(child)
    }

    /// An element at or below that at `top`: of the tokens there, all those before it end before an
    /// offset of the root's text.
    pub fn skip_to(&self, top: usize, offset: TextSize) -> usize
        requires { IsWithin self.now top }
        ensures { SkipsTo self.now offset top result }
    {
        let mut number = top;
        while let Some(child) = self.child_before(number, offset) {
            number = child;
        }
        number
    }

    // The token that has a byte of the root's text, at or below a place that has it.
    fn leaf_over(&self, top: &Place, byte: TextSize) -> usize
        requires place { IsPlace self.now top.now }
        requires from { top.now.range.start ≤ byte }
        requires to { byte < top.now.range.end }
        ensures leaf { let here = path_at self.now top.now.number in
            IsLeafOver (root_of self.now) byte here (path_at self.now result) }
        ensures token { IsTokenIn self.now result }
    {
        let over = TextRange::at(byte, TextSize::from(1));
        self.covering(top, over).number
    }

    // The tokens that have the byte before an offset of the root's text and the byte behind it, at
    // or below a place that has both bytes. The searches part at the element that covers both.
    fn leaves_beside(&self, top: &Place, offset: TextSize) -> (usize, usize)
        // the place has both bytes
        requires place { IsPlace self.now top.now }
        requires from { top.now.range.start < offset }
        requires to { offset < top.now.range.end }

        // the tokens
        ensures left { let here = path_at self.now top.now.number in
            IsLeafOver (root_of self.now) (offset - 1) here (path_at self.now result.0) }
        ensures right { let here = path_at self.now top.now.number in
            IsLeafOver (root_of self.now) offset here (path_at self.now result.1) }
        ensures tokens { IsTokenIn self.now result.0 × IsTokenIn self.now result.1 }
    {
        let before = TextSize::from(u32::from(offset) - 1);
        let beside = TextRange::at(before, TextSize::from(2));
        let both = self.covering(top, beside);
        (self.leaf_over(&both, before), self.leaf_over(&both, offset))
    }

    /// The tokens at or below an entry that touch an offset of the root's text. The offset lies in
    /// the entry's text or at an end of it.
    pub fn token_at_offset(&self, number: usize, offset: TextSize) -> TokenAtOffset<usize>
        requires number { IsWithin self.now number }
        requires offset { Holds (text_range (cursor_of self.now number)) offset }
        ensures found { let leaves = touching (root_of self.now) offset (path_at self.now number) in
            map (path_at self.now) (tokens_of result) ≡ leaves }
        ensures none { let whole = text_range (cursor_of self.now number) in
            (result ≡ TokenAtOffset.None) ↔ (whole.start ≡ whole.end) }
        ensures tokens { AllByRecursion (IsTokenIn self.now) (tokens_of result) }
    {
        let top = self.place(number);
        if top.range.is_empty() {
            return TokenAtOffset::None;
        }
        if offset == top.range.start() {
            return TokenAtOffset::Single(self.leaf_over(&top, offset));
        }
        if offset == top.range.end() {
            let last = TextSize::from(u32::from(offset) - 1);
            return TokenAtOffset::Single(self.leaf_over(&top, last));
        }
        let (left, right) = self.leaves_beside(&top, offset);
        if left == right {
            TokenAtOffset::Single(left)
        } else {
            TokenAtOffset::Between(left, right)
        }
    }
}
