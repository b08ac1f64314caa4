//! Lines and columns of a text.
ghost use Rattle.std.specs.Prelude.{◌≡◌, ℕ, ◌+◌, ◌^◌, ◌<◌, ◌≤◌, Some, take, length, get_or};
ghost use Rattle.std.specs.Prelude.{IfSome, IsSome, IsNone, IfOk, IfErr};
ghost use Rattle.std.specs.Str.{chars, IsCharBoundary};
ghost use Rattle.rowan_lines.specs.Lines.{line_ends, bytes_since, line_starts, IsInLine, IsLast};
ghost use Rattle.rowan_lines.specs.Lines.{utf16_len, IsLineUpTo, IsCounted, line_start, line_text};
ghost use Rattle.rowan_lines.specs.Lines.{IsUtf16End, without_end};

use rowan_green::{Fault, TextRange, TextSize};
use std::alloc::Global;
use std::marker::Model;

/// So many bytes are counted in one go.
const BLOCK: usize = 1024;

/// A place in a text by its line and its column, both from 0.
#[derive(Clone, Copy, PartialEq, Eq, Debug)]
pub struct LineColumn {
    pub line: usize,
    pub column: usize,
}

/// Where the lines of a text begin. A line ends behind each `\n`; so `\r\n` is one end, and a `\r`
/// before it is the last character of its line.
///
/// A contract sees an index as the bytes of its text.
#[derive(Drop)]
pub struct LineIndex<'text> {
    text: &'text str,
    starts: Vec<usize>,
    blocks: Vec<usize>,
}

impl<'text> Model for LineIndex<'text> {
    ghost use Rattle.std.specs.Prelude.{ℕ, List, ◌≡◌};
    ghost use Rattle.std.specs.Str.{IsUtf8};
    ghost use Rattle.rowan_lines.specs.Lines.{line_starts};

    ghost Value = { List ℕ };

    ghost view = { λ index. index.text.now };

    ghost invariant = { λ index. (index.starts.items ≡ line_starts index.text.now)
        × IsUtf8 index.text.now };
}

impl<'text> LineIndex<'text> {
    /// Takes time in the length of the text. Refused only for want of memory.
    pub fn new(alloc: Global, text: &'text str) -> Result<LineIndex<'text>, Fault>
        ensures ok { IfOk result (λ index. index ≡ text.now) }
        ensures err { IfErr result (λ e. e ≡ Fault.Memory) }
    {
        let starts = read_starts(alloc, text.as_bytes())?;
        let blocks = read_blocks(alloc, text.as_bytes())?;
        Ok(LineIndex {
            text,
            starts,
            blocks,
        })
    }

    /// The line of an offset, which is the number of line ends before it, and its column: the bytes
    /// since the last of these. An offset past the end of the text stands for the end. A binary
    /// search.
    pub fn line_column(&self, offset: TextSize) -> LineColumn
        ensures line { result.line ≡ line_ends (take offset self.now) }
        ensures column { result.column ≡ bytes_since 0 (take offset self.now) }
    {
        let offset = (u32::from(offset) as usize).min(self.text.len());
        let line = line_at(self.starts.as_slice(), offset);
        let column = match self.starts.get(line) {
            Some(start) => offset.saturating_sub(*start),
            None => 0,
        };
        LineColumn { line, column }
    }

    /// The offset of a place: the one that has this line and column. `None` where the text has no
    /// such place.
    pub fn offset(&self, place: LineColumn) -> Option<TextSize>
        ensures there { IfSome result (λ offset. IsInLine self.now offset place) }
        ensures all { (offset : ℕ) → IsInLine self.now offset place → offset < 2 ^ 32
            → result ≡ Some offset }
    {
        let start = self.starts.get(place.line)?;
        let offset = start.saturating_add(place.column).min(self.text.len());
        if offset > u32::MAX as usize {
            return None;
        }
        let offset = TextSize::from(offset as u32);
        let found = self.line_column(offset);
        if found.line != place.line || found.column != place.column {
            return None;
        }
        Some(offset)
    }

    /// The same place with its column counted in units of UTF-16. `None` where the text has no such
    /// place, or where it is within a character.
    pub fn to_utf16(&self, place: LineColumn) -> Option<LineColumn>
        ensures there { IfSome result (λ other. IsCounted utf16_len self.now place other) }
        ensures all { (offset : ℕ) → IsInLine self.now offset place → IsCharBoundary self.now offset
            → offset < 2 ^ 32 → IsSome result }
    {
        let before = self.text_before(place)?;
        Some(LineColumn {
            line: place.line,
            column: utf16_len(before),
        })
    }

    /// The same place with its column counted in characters. `None` where the text has no such
    /// place, or where it is within a character.
    pub fn to_characters(&self, place: LineColumn) -> Option<LineColumn>
        ensures there { IfSome result (λ other. IsCounted length self.now place other) }
        ensures all { (offset : ℕ) → IsInLine self.now offset place → IsCharBoundary self.now offset
            → offset < 2 ^ 32 → IsSome result }
    {
        let before = self.text_before(place)?;
        Some(LineColumn {
            line: place.line,
            column: character_count(before),
        })
    }

    /// The same place with its column counted in bytes, where it was counted in units of UTF-16:
    /// what `to_utf16` turns into it. `None` where the text has no such place, or where it is
    /// within a character.
    pub fn from_utf16(&self, place: LineColumn) -> Option<LineColumn>
        ensures there { IfSome result (λ other. IsCounted utf16_len self.now other place) }
        ensures all { (other : LineColumn) → IsCounted utf16_len self.now other place
            → length self.now < 2 ^ 32 → result ≡ Some other }
    {
        let (start, end) = self.bounds(place.line)?;
        let line = self.text.get(start..end)?;
        let found = LineColumn {
            line: place.line,
            column: utf16_end(line, place.column)?,
        };
        let _before = self.text_before(found)?;
        Some(found)
    }

    /// The range of a line, with its end. `None` where the text has no such line, or where the line
    /// ends past the last offset that a `TextSize` has.
    pub fn line(&self, line: usize) -> Option<TextRange>
        ensures start { IfSome result (λ range. range.start ≡ line_start self.now line) }
        ensures end { IfSome result (λ range. range.end ≡ line_start self.now (line + 1)) }
        ensures all { line < length (line_starts self.now)
            → line_start self.now (line + 1) < 2 ^ 32 → IsSome result }
        ensures there { IsSome result → line < length (line_starts self.now) }
    {
        let (start, end) = self.bounds(line)?;
        if end > u32::MAX as usize {
            return None;
        }
        Some(TextRange::new(TextSize::from(start as u32), TextSize::from(end as u32)))
    }

    /// How many characters begin between the start of the line and the place. It counts within two
    /// blocks alone, so that many places of one long line take no longer than as many short ones.
    pub(crate) fn characters_before(&self, place: LineColumn) -> usize {
        let Some((start, _)) = self.bounds(place.line) else {
            return 0;
        };
        let end = start.saturating_add(place.column);
        self.characters_to(end)
            .saturating_sub(self.characters_to(start))
    }

    /// How many characters begin before an offset.
    fn characters_to(&self, offset: usize) -> usize {
        let block = offset / BLOCK;
        let before = self.blocks.get(block).copied().unwrap_or(0);
        match self.text.as_bytes().get(block * BLOCK..offset) {
            Some(since) => before.saturating_add(character_starts(since)),
            None => before,
        }
    }

    /// The text of a line, without the `\n` or `\r\n` that ends it. Empty where there is no such
    /// line.
    pub fn line_text(&self, line: usize) -> &'text str
        ensures { result.now ≡ line_text self.now line }
    {
        let Some((start, end)) = self.bounds(line) else {
            return "";
        };
        without_end(self.text.get(start..end).unwrap_or(""))
    }

    /// The offsets at which a line starts and at which the next one does, or the text ends.
    fn bounds(&self, line: usize) -> Option<(usize, usize)>
        ensures there { IsSome result → line < length (line_starts self.now) }
        ensures none { IsNone result → length (line_starts self.now) ≤ line }
        ensures start { IfSome result (λ bounds. bounds.0 ≡ line_start self.now line) }
        ensures end { IfSome result (λ bounds. bounds.1 ≡ line_start self.now (line + 1)) }
        ensures order { IfSome result (λ bounds. bounds.0 ≤ bounds.1) }
        ensures within { IfSome result (λ bounds. bounds.1 ≤ length self.now) }
    {
        if line >= self.starts.as_slice().len() {
            return None;
        }
        Some((self.start(line), self.start(line + 1)))
    }

    /// The offset at which a line starts, or the text ends where it has no such line.
    fn start(&self, line: usize) -> usize
        ensures { result ≡ line_start self.now line }
    {
        match self.starts.get(line) {
            Some(start) => *start,
            None => self.text.len(),
        }
    }

    /// The text from the start of the line up to a place.
    fn text_before(&self, place: LineColumn) -> Option<&'text str>
        ensures there { IfSome result (λ before. IsLineUpTo self.now place before.now) }
        ensures all { (offset : ℕ) → IsInLine self.now offset place → IsCharBoundary self.now offset
            → offset < 2 ^ 32 → IsSome result }
    {
        let end = u32::from(self.offset(place)?) as usize;
        if !self.text.is_char_boundary(end) {
            return None;
        }
        self.text.get(end.saturating_sub(place.column)..end)
    }
}

/// The line without the `\n` or `\r\n` at its end.
fn without_end(line: &str) -> &str
    ensures { result.now ≡ without_end line.now }
{
    let Some(line) = line.strip_suffix('\n') else {
        return line;
    };
    line.strip_suffix('\r').unwrap_or(line)
}

/// How many units of UTF-16 the text takes.
fn utf16_len(text: &str) -> usize
    ensures { result ≡ utf16_len (chars text.now) }
{
    let mut len = 0;
    let mut rest = text.chars();
    while let Some(character) = rest.next() {
        len += character.len_utf16();
    }
    len
}

/// The length in bytes of the front of a text that takes so many units of UTF-16. `None` where no
/// character ends there.
fn utf16_end(text: &str, units: usize) -> Option<usize>
    ensures there { IfSome result (λ end. IsUtf16End text.now units end) }
    ensures all { (end : ℕ) → IsUtf16End text.now units end → result ≡ Some end }
{
    let mut left = units;
    let mut end = 0;
    let mut rest = text.chars();
    'characters: while left > 0 {
        let character = rest.next()?;
        let units = character.len_utf16();
        left = left.checked_sub(units)?;
        end += character.len_utf8();
    }
    Some(end)
}

pub(crate) fn character_count(text: &str) -> usize
    ensures { result ≡ length (chars text.now) }
{
    text.chars().count()
}

/// The offsets at which the lines of a text begin.
fn read_starts(alloc: Global, text: &[u8]) -> Result<Vec<usize>, Fault>
    ensures ok { IfOk result (λ starts. starts.items ≡ line_starts text.now) }
    ensures err { IfErr result (λ e. e ≡ Fault.Memory) }
{
    let mut starts = Vec::new(alloc);
    starts.push(0)?;
    let mut rest = text;
    let mut place = 0;
    while let Some((byte, others)) = rest.split_first() {
        place += 1;
        if *byte == b'\n' {
            starts.push(place)?;
        }
        rest = others;
    }
    Ok(starts)
}

/// How many characters begin before each block of bytes.
fn read_blocks(alloc: Global, text: &[u8]) -> Result<Vec<usize>, Fault>
    ensures err { IfErr result (λ e. e ≡ Fault.Memory) }
{
    let mut blocks = Vec::new(alloc);
    blocks.push(0)?;
    let mut count: usize = 0;
    for block in text.chunks(BLOCK) {
        count = count.saturating_add(character_starts(block));
        blocks.push(count)?;
    }
    Ok(blocks)
}

/// How many of the bytes begin a character.
fn character_starts(bytes: &[u8]) -> usize {
    bytes.iter().filter(|byte| (**byte & 0xc0) != 0x80).count()
}

/// The number of the last start that is not past an offset. The first one is 0.
fn line_at(starts: &[usize], offset: usize) -> usize
    requires some { 0 < length starts.now }
    requires first { get_or starts.now 0 0 ≡ 0 }
    ensures { IsLast starts.now offset result }
{
    let mut line = 0;
    let mut end = starts.len();
    while end - line > 1 {
        let middle = line + (end - line) / 2;
        if starts[middle] <= offset {
            line = middle;
        } else {
            end = middle;
        }
    }
    line
}
