//! Sizes and ranges of text, in bytes of UTF-8.
ghost use Rattle.std.specs.Prelude.{◌≡◌, ℕ, ◌+◌, ◌-◌, ◌<◌, ◌≤◌, ◌↔◌, ◌++◌, IsTrue, List, Some};
ghost use Rattle.std.specs.Prelude.{codes, length};
ghost use Rattle.std.specs.Fmt.{decimal};
ghost use Rattle.std.specs.Option.{SomeIff};
ghost use Rattle.rowan_green.specs.Fits.{byte_limit};
ghost use Rattle.rowan_green.specs.Span.{Holds, intersection, EndsBefore, Overlaps, StartsBehind};

use std::cmp::{self, Ordering};
use std::fmt;
use std::marker::Model;

/// A length or an offset of text, in bytes. At most 4,294,967,295.
#[derive(Clone, Copy, PartialEq, Eq, PartialOrd, Ord, Hash, Default)]
pub struct TextSize {
    raw: u32,
}

impl Model for TextSize {
    ghost use Rattle.std.specs.Prelude.{ℕ};

    ghost Value = { ℕ };

    ghost view = { λ s. s.raw };

    ghost inverse = { λ n. record { raw = n } };
}

impl TextSize {
    /// The length of a text, in bytes.
    pub fn of<T: TextLen>(text: T) -> TextSize
        requires { length (T.bytes text) ≤ byte_limit }
        ensures { result ≡ length (T.bytes text) }
    {
        text.text_len()
    }

    /// The sum, or `None` where it is past the limit.
    pub fn checked_add(self, rhs: TextSize) -> Option<TextSize>
        ensures { SomeIff result (self + rhs ≤ byte_limit) (self + rhs) }
    {
        let raw = self.raw.checked_add(rhs.raw)?;
        Some(TextSize { raw })
    }

    /// The difference, or `None` where it is below 0.
    pub fn checked_sub(self, rhs: TextSize) -> Option<TextSize>
        ensures { SomeIff result (rhs ≤ self) (self - rhs) }
    {
        let raw = self.raw.checked_sub(rhs.raw)?;
        Some(TextSize { raw })
    }
}

impl fmt::Debug for TextSize {
    ghost debug_output = { λ size. Some (decimal size) };

    fn fmt<W: fmt::Write>(&self, f: &mut fmt::Formatter<W>) -> fmt::Result {
        let raw = self.raw;
        write!(f, "{raw}")
    }
}

impl From<u32> for TextSize {
    ghost from_gives = { λ raw size. size ≡ raw };

    fn from(raw: u32) -> TextSize {
        TextSize { raw }
    }
}

impl From<TextSize> for u32 {
    ghost from_gives = { λ size raw. raw ≡ size };

    fn from(size: TextSize) -> u32 {
        size.raw
    }
}

/// Text that has a length.
pub trait TextLen: Copy {
    ghost bytes: { Self → List ℕ };

    /// The length of this text in bytes of UTF-8, which has to be within the limit of a `TextSize`.
    fn text_len(self) -> TextSize
        requires { length (bytes self) ≤ byte_limit }
        ensures { result ≡ length (bytes self) };
}

impl TextLen for &str {
    ghost bytes = { λ text. text.now };

    fn text_len(self) -> TextSize {
        TextSize::from(self.len() as u32)
    }
}

/// A range of text, in bytes: from a start to an end, which does not lie before it.
#[derive(Clone, Copy, PartialEq, Eq, Hash)]
pub struct TextRange {
    start: TextSize,
    end: TextSize,
}

impl Model for TextRange {
    ghost use Rattle.std.specs.Prelude.{◌≤◌};
    ghost use Rattle.rowan_green.specs.Span.{Span};

    ghost Value = { Span };

    ghost view = { λ r. record { start = r.start; end = r.end } };

    ghost invariant = { λ r. r.start ≤ r.end };

    ghost inverse = { λ s. record { start = s.start; end = s.end } };
}

impl TextRange {
    /// The range from a start to an end.
    pub fn new(start: TextSize, end: TextSize) -> TextRange
        requires { start ≤ end }
        ensures { result ≡ record { start = start; end = end } }
    {
        TextRange { start, end }
    }

    /// The range of a length from an offset on.
    pub fn at(offset: TextSize, len: TextSize) -> TextRange
        requires { offset + len ≤ byte_limit }
        ensures { result ≡ record { start = offset; end = offset + len } }
    {
        let end = TextSize::from(offset.raw + len.raw);
        TextRange { start: offset, end }
    }

    /// Where the range starts, in bytes.
    pub fn start(self) -> TextSize
        ensures offset { result ≡ self.start }
        ensures order { result ≤ self.end }
    {
        self.start
    }

    /// Where the range ends, in bytes: the offset of the first byte behind it.
    pub fn end(self) -> TextSize
        ensures offset { result ≡ self.end }
        ensures order { self.start ≤ result }
    {
        self.end
    }

    /// How many bytes the range has.
    pub fn len(self) -> TextSize
        ensures difference { result ≡ self.end - self.start }
        ensures reach { self.start + result ≡ self.end }
    {
        TextSize::from(self.end.raw - self.start.raw)
    }

    /// Whether the range has no bytes.
    pub fn is_empty(self) -> bool
        ensures { IsTrue result ↔ (self.start ≡ self.end) }
    {
        self.start == self.end
    }

    /// Whether the other range, whose end does not lie before its start, starts and ends within
    /// this one.
    pub fn contains_range(self, other: TextRange) -> bool
        ensures contains { IsTrue result ↔ ((self.start ≤ other.start) × (other.end ≤ self.end)) }
        ensures order { other.start ≤ other.end }
    {
        self.start <= other.start && other.end <= self.end
    }

    /// Whether the offset lies in the range or is its end.
    pub fn contains_inclusive(self, offset: TextSize) -> bool
        ensures { IsTrue result ↔ Holds self offset }
    {
        self.start <= offset && offset <= self.end
    }

    /// The offsets that both ranges hold, their ends among them: a range, which is empty where the
    /// two only touch. `None` where there are none.
    pub fn intersect(self, other: TextRange) -> Option<TextRange>
        ensures { let common = intersection self other in
            SomeIff result (common.start ≤ common.end) common }
    {
        let start = cmp::max(self.start, other.start);
        let end = cmp::min(self.end, other.end);
        if end < start {
            return None;
        }
        Some(TextRange::new(start, end))
    }

    /// `Less` where this range ends before the other starts, `Greater` the other way round, and
    /// `Equal` where they overlap. Ranges that only touch do not overlap.
    pub fn ordering(self, other: TextRange) -> Ordering
        ensures less { (result ≡ Ordering.Less) ↔ EndsBefore self other }
        ensures greater { (result ≡ Ordering.Greater) ↔ StartsBehind self other }
        ensures equal { (result ≡ Ordering.Equal) ↔ Overlaps self other }
    {
        if self.end <= other.start {
            Ordering::Less
        } else if other.end <= self.start {
            Ordering::Greater
        } else {
            Ordering::Equal
        }
    }
}

impl fmt::Debug for TextRange {
    ghost debug_output = { λ range. Some (decimal range.start ++ codes ".." ++ decimal range.end) };

    fn fmt<W: fmt::Write>(&self, f: &mut fmt::Formatter<W>) -> fmt::Result {
        let start = self.start.raw;
        let end = self.end.raw;
        write!(f, "{start}..{end}")
    }
}
