//! Ranges by which a text is sliced.
ghost use Rattle.std.specs.Prelude.{◌≡◌, ℕ, Option, Some, None};

use rowan_green::text::{TextRange, TextSize};
use std::ops::{Range, RangeFrom, RangeFull, RangeTo};

/// A range of bytes of a text, counted from its start.
pub trait SyntaxTextRange {
    ghost first: { Self → Option ℕ };

    ghost last: { Self → Option ℕ };

    /// Where the range starts; `None` is the start of the text.
    fn start(&self) -> Option<TextSize>
        ensures { result ≡ first self.now };

    /// Where the range ends; `None` is the end of the text.
    fn end(&self) -> Option<TextSize>
        ensures { result ≡ last self.now };
}

impl SyntaxTextRange for TextRange {
    ghost first = { λ range. Some range.start };

    ghost last = { λ range. Some range.end };

    fn start(&self) -> Option<TextSize> {
        Some(TextRange::start(*self))
    }

    fn end(&self) -> Option<TextSize> {
        Some(TextRange::end(*self))
    }
}

impl SyntaxTextRange for Range<TextSize> {
    ghost first = { λ range. Some range.start };

    ghost last = { λ range. Some range.end };

    fn start(&self) -> Option<TextSize> {
        Some(self.start)
    }

    fn end(&self) -> Option<TextSize> {
        Some(self.end)
    }
}

impl SyntaxTextRange for RangeFrom<TextSize> {
    ghost first = { λ range. Some range.start };

    ghost last = { λ _. None };

    fn start(&self) -> Option<TextSize> {
        Some(self.start)
    }

    fn end(&self) -> Option<TextSize> {
        None
    }
}

impl SyntaxTextRange for RangeTo<TextSize> {
    ghost first = { λ _. None };

    ghost last = { λ range. Some range.end };

    fn start(&self) -> Option<TextSize> {
        None
    }

    fn end(&self) -> Option<TextSize> {
        Some(self.end)
    }
}

impl SyntaxTextRange for RangeFull {
    ghost first = { λ _. None };

    ghost last = { λ _. None };

    fn start(&self) -> Option<TextSize> {
        None
    }

    fn end(&self) -> Option<TextSize> {
        None
    }
}
