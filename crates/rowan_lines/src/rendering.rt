//! Diagnostics as text for a terminal, in the layout of `rustc`.
ghost use Rattle.std.specs.Prelude.{◌≡◌, ◌≤◌, ◌<◌, ◌+◌, ◌-◌, ◌^◌, ◌++◌, length, take, drop, max};
ghost use Rattle.std.specs.Prelude.{chars, OnOk, IfOk, IfErr, string_bytes, codes};
ghost use Rattle.std.specs.Fmt.{decimal};
ghost use Rattle.rowan_lines.specs.Lines.{line_text};
ghost use Rattle.rowan_lines.specs.Pictures.{columns};
ghost use Rattle.rowan_lines.specs.Printed.{severity_name, header, place_line, bar_line};
ghost use Rattle.rowan_lines.specs.Printed.{source_line, caret_line, shown_line, shown_range};
ghost use Rattle.rowan_lines.specs.Printed.{diagnostic, FitsWhole, IsInShortLine, IsCut};
ghost use Rattle.rowan_lines.specs.Printed.{errors_text, more_text, AreInShortLines};

use crate::excerpt::{BYTES, Excerpt, Parts};
use crate::line_index::{LineColumn, LineIndex, character_count};
use crate::pictures::{push_pictured, push_times};
use crate::syntax_error::SyntaxError;
use rowan_green::{Fault, TextRange, TextSize};
use std::alloc::Global;
use unicode_width::UnicodeWidthStr;

/// `render` prints so many errors.
const LIMIT: usize = 20;

/// Prints the first 20 errors, and how many more there are:
///
/// ```text
/// error: expected a value
///  --> notes.json:3:8
///   |
/// 3 | { "a": ,
///   |        ^
///
/// 2 more errors
/// ```
///
/// Lines and columns count from 1, columns in characters. [`Renderer::diagnostic`] says how a
/// place is shown.
///
/// Errors: `Memory` if an allocation failed.
pub fn render(
    alloc: Global,
    errors: &[SyntaxError],
    text: &str,
    name: &str,
) -> Result<String, Fault>
    ensures printed { AreInShortLines text.now (take 20 errors.now) → IfOk result (λ out.
        string_bytes out ≡ errors_text name.now text.now (take 20 errors.now)
        ++ more_text (length errors.now - 20)) }
    ensures err { IfErr result (λ e. e ≡ Fault.Memory) }
{
    render_up_to(alloc, errors, text, name, LIMIT)
}

/// Prints the first errors, at most `limit` of them, and how many more there are, as `render` does.
///
/// Errors: `Memory` if an allocation failed.
pub fn render_up_to(
    alloc: Global,
    errors: &[SyntaxError],
    text: &str,
    name: &str,
    limit: usize,
) -> Result<String, Fault>
    ensures printed { AreInShortLines text.now (take limit errors.now) → IfOk result (λ out.
        string_bytes out ≡ errors_text name.now text.now (take limit errors.now)
        ++ more_text (length errors.now - limit)) }
    ensures err { IfErr result (λ e. e ≡ Fault.Memory) }
{
    let index = LineIndex::new(alloc, text)?;
    let renderer = Renderer {
        index: &index,
        name,
    };
    let mut out = String::new(alloc);
    let (shown, more) = errors.split_at(errors.len().min(limit));
    renderer.push_errors(&mut out, shown)?;
    push_more(&mut out, more.len())?;
    Ok(out)
}

/// How many errors were not shown.
fn push_more(out: &mut String, more: usize) -> Result<(), Fault>
    ensures put { OnOk result (string_bytes out.new ≡ string_bytes out.old ++ more_text more) }
    ensures err { IfErr result (λ e. e ≡ Fault.Memory) }
{
    if more == 0 {
        return Ok(());
    }
    if more == 1 {
        out.push_str("1 more error\n")?;
        return Ok(());
    }
    writeln!(out, "{more} more errors")?;
    Ok(())
}

/// How much a diagnostic weighs. A note stands behind another diagnostic and shows a second place.
#[derive(Clone, Copy, PartialEq, Eq, Debug)]
pub enum Severity {
    Error,
    Warning,
    Note,
}

/// Prints diagnostics of one text, which stands in a file of this name.
#[derive(Clone, Copy)]
pub struct Renderer<'index, 'text> {
    pub index: &'index LineIndex<'text>,
    pub name: &'index str,
}

impl Renderer<'_, '_> {
    /// Appends what is wrong, where it stands, its line with carets under the range, and an empty
    /// line. An empty range, and one within a line's end, has one caret. A range that goes over
    /// lines has its first and its last line:
    ///
    /// ```text
    /// error: expected the end of the text
    ///  --> notes.json:2:5
    ///   |
    /// 2 |   1 /* a
    ///   |  _____^
    /// ... |
    /// 9 | | z
    ///   | |_^
    /// ```
    ///
    /// A line of more than 160 columns or 640 bytes is cropped around the place, with `...` where
    /// it goes on. A tab is four spaces wide. Other control characters of the message, the name
    /// and the text are shown by their pictures, as `␛`; those that have none, and those that turn
    /// the direction of the text, by U+FFFD. A range that starts or ends within a character does
    /// so at the character's start.
    ///
    /// Errors: `Memory` if an allocation failed. Part of the diagnostic is then appended.
    pub fn diagnostic(
        &self,
        out: &mut String,
        severity: Severity,
        message: &str,
        range: TextRange,
    ) -> Result<(), Fault>
        ensures printed { IsInShortLine self.now.index.now range → OnOk result
            (string_bytes out.new ≡ string_bytes out.old ++ diagnostic severity message.now
            self.now.name.now self.now.index.now range) }
        ensures err { IfErr result (λ e. e ≡ Fault.Memory) }
    {
        push_header(out, severity, message)?;
        self.push_range(out, range)?;
        out.push_str("\n")?;
        Ok(())
    }

    fn push_errors(&self, out: &mut String, errors: &[SyntaxError]) -> Result<(), Fault>
        ensures printed { AreInShortLines self.now.index.now errors.now → OnOk result
            (string_bytes out.new ≡ string_bytes out.old
            ++ errors_text self.now.name.now self.now.index.now errors.now) }
        ensures err { IfErr result (λ e. e ≡ Fault.Memory) }
    {
        let mut rest = errors;
        'errors: while let Some((error, others)) = rest.split_first() {
            let message = error.message.as_str();
            self.diagnostic(out, Severity::Error, message, error.range)?;
            rest = others;
        }
        Ok(())
    }

    fn push_range(&self, out: &mut String, range: TextRange) -> Result<(), Fault>
        ensures printed { IsInShortLine self.now.index.now range → OnOk result
            (string_bytes out.new ≡ string_bytes out.old
            ++ shown_range self.now.name.now self.now.index.now range) }
        ensures err { IfErr result (λ e. e ≡ Fault.Memory) }
    {
        let first = self.index.line_column(range.start());
        let last = self.index.line_column(last_byte(range));
        if last.line > first.line {
            return self.push_lines(out, first, last);
        }
        self.push_one_line(out, first, u32::from(range.len()) as usize)
    }

    /// A range of so many bytes that starts at a place.
    fn push_one_line(&self, out: &mut String, place: LineColumn, len: usize) -> Result<(), Fault>
        ensures printed { let line = line_text self.now.index.now place.line in
            let front = take (place.column + len) line in
            place.line < 2 ^ 32 → place.column + len < 2 ^ 34 → FitsWhole line
            → IsCut line (place.column + len) → IsCut front place.column
            → OnOk result (string_bytes out.new ≡ string_bytes out.old
            ++ shown_line self.now.name.now (place.line + 1) line
            (take place.column front) (drop place.column front)) }
        ensures err { IfErr result (λ e. e ≡ Fault.Memory) }
    {
        let line = self.index.line_text(place.line);
        let end = place.column.saturating_add(len);
        let parts = Parts::new(line, place.column, end);
        let place = self.shown_place(place.line, line, parts.before);
        let excerpt = Excerpt::new(*out.allocator(), line, parts)?;
        push_line(out, self.name, place, &excerpt)
    }

    /// The number of a line and the column behind the front of it, both from 1, columns in
    /// characters.
    fn shown_place(&self, number: usize, line: &str, front: &str) -> LineColumn
        ensures line { number < 2 ^ 32 → result.line ≡ number + 1 }
        ensures column { length line.now ≤ 640 → length front.now ≤ 640
            → result.column ≡ length (chars front.now) + 1 }
    {
        let column = self.column_of(number, line, front);
        LineColumn {
            line: number.saturating_add(1),
            column: column.saturating_add(1),
        }
    }

    /// How many characters the front of a line has.
    fn column_of(&self, number: usize, line: &str, front: &str) -> usize
        ensures { length line.now ≤ 640 → result ≡ length (chars front.now) }
    {
        if line.len() > BYTES {
            let column = front.len();
            return self.index.characters_before(LineColumn {
                line: number,
                column,
            });
        }
        character_count(front)
    }

    /// The first and the last line of a range that goes over lines. The last place is that of the
    /// last byte.
    fn push_lines(&self, out: &mut String, first: LineColumn, last: LineColumn) -> Result<(), Fault>
        ensures err { IfErr result (λ e. e ≡ Fault.Memory) }
    {
        let alloc = *out.allocator();
        let line = self.index.line_text(first.line);
        let parts = Parts::new(line, first.column, line.len());
        let start = Excerpt::new(alloc, line, parts)?;
        let place = self.shown_place(first.line, line, parts.before);
        let line = self.index.line_text(last.line);
        let column = last.column.saturating_add(1);
        let end = Excerpt::new(alloc, line, Parts::new(line, column, column))?;
        let number = last.line.saturating_add(1);
        let margin = format!(in alloc; "{number}")?.len();
        push_place(out, margin, self.name, place)?;
        push_first(out, margin, place.line, &start)?;
        if last.line.saturating_sub(first.line) > 1 {
            out.push_str("...")?;
            push_times(out, ' ', margin)?;
            out.push_str("|\n")?;
        }
        push_last(out, margin, number, &end)
    }
}

/// The last byte of a range, or where it is empty its offset.
fn last_byte(range: TextRange) -> TextSize
    ensures value { result ≡ max (range.end - 1) range.start }
    ensures bound { result < 2 ^ 32 }
{
    let last = u32::from(range.end()).saturating_sub(1);
    TextSize::from(last.max(u32::from(range.start())))
}

fn push_header(out: &mut String, severity: Severity, message: &str) -> Result<(), Fault>
    ensures put { OnOk result (string_bytes out.new
        ≡ string_bytes out.old ++ header severity message.now) }
    ensures err { IfErr result (λ e. e ≡ Fault.Memory) }
{
    out.push_str(severity_name(severity))?;
    out.push_str(": ")?;
    push_pictured(out, message)?;
    out.push_str("\n")?;
    Ok(())
}

fn severity_name(severity: Severity) -> &'static str
    ensures { result.now ≡ severity_name severity }
{
    match severity {
        Severity::Error => "error",
        Severity::Warning => "warning",
        Severity::Note => "note",
    }
}

/// The place of a range on one line, its line, and the carets.
fn push_line(
    out: &mut String,
    name: &str,
    place: LineColumn,
    excerpt: &Excerpt,
) -> Result<(), Fault>
    ensures put { OnOk result (let margin = length (decimal place.line) in
        let before = string_bytes excerpt.now.before in
        let inside = string_bytes excerpt.now.inside in
        let shown = before ++ (inside ++ string_bytes excerpt.now.after) in
        string_bytes out.new ≡ string_bytes out.old
        ++ (place_line margin name.now place.line place.column ++ (bar_line margin
        ++ (source_line place.line shown
        ++ caret_line margin (columns before) (columns inside))))) }
    ensures err { IfErr result (λ e. e ≡ Fault.Memory) }
{
    let number = format!(in *out.allocator(); "{}", place.line)?;
    let margin = number.len();
    push_place(out, margin, name, place)?;
    push_source(out, number.as_str(), excerpt)?;
    push_carets(out, margin, excerpt)
}

/// The place, and a line with the bar alone.
fn push_place(out: &mut String, margin: usize, name: &str, place: LineColumn) -> Result<(), Fault>
    ensures put { OnOk result (string_bytes out.new ≡ string_bytes out.old
        ++ (place_line margin name.now place.line place.column ++ bar_line margin)) }
    ensures err { IfErr result (λ e. e ≡ Fault.Memory) }
{
    let LineColumn { line, column } = place;
    push_times(out, ' ', margin)?;
    out.push_str("--> ")?;
    push_pictured(out, name)?;
    writeln!(out, ":{line}:{column}")?;
    push_times(out, ' ', margin)?;
    out.push_str(" |\n")?;
    Ok(())
}

fn push_source(out: &mut String, number: &str, excerpt: &Excerpt) -> Result<(), Fault>
    ensures put { OnOk result (string_bytes out.new ≡ string_bytes out.old ++ (number.now
        ++ (codes " | " ++ ((string_bytes excerpt.now.before ++ (string_bytes excerpt.now.inside
        ++ string_bytes excerpt.now.after)) ++ codes "\n")))) }
    ensures err { IfErr result (λ e. e ≡ Fault.Memory) }
{
    out.push_str(number)?;
    out.push_str(" | ")?;
    push_text(out, excerpt)
}

/// The text of a line, and the end of the line.
fn push_text(out: &mut String, excerpt: &Excerpt) -> Result<(), Fault>
    ensures put { OnOk result (string_bytes out.new ≡ string_bytes out.old
        ++ ((string_bytes excerpt.now.before ++ (string_bytes excerpt.now.inside
        ++ string_bytes excerpt.now.after)) ++ codes "\n")) }
    ensures err { IfErr result (λ e. e ≡ Fault.Memory) }
{
    out.push_str(excerpt.before.as_str())?;
    out.push_str(excerpt.inside.as_str())?;
    out.push_str(excerpt.after.as_str())?;
    out.push_str("\n")?;
    Ok(())
}

fn push_carets(out: &mut String, margin: usize, excerpt: &Excerpt) -> Result<(), Fault>
    ensures put { OnOk result (string_bytes out.new ≡ string_bytes out.old ++ caret_line margin
        (columns (string_bytes excerpt.now.before)) (columns (string_bytes excerpt.now.inside))) }
    ensures err { IfErr result (λ e. e ≡ Fault.Memory) }
{
    let indent = excerpt.before.as_str().width();
    let width = excerpt.inside.as_str().width();
    push_times(out, ' ', margin)?;
    out.push_str(" | ")?;
    push_times(out, ' ', indent)?;
    push_times(out, '^', width.max(1))?;
    out.push_str("\n")?;
    Ok(())
}

/// The first of several lines, and a bar that leads to its place.
fn push_first(
    out: &mut String,
    margin: usize,
    number: usize,
    excerpt: &Excerpt,
) -> Result<(), Fault>
    ensures err { IfErr result (λ e. e ≡ Fault.Memory) }
{
    let indent = excerpt.before.as_str().width();
    push_number(out, margin, number)?;
    out.push_str(" |   ")?;
    push_text(out, excerpt)?;
    push_times(out, ' ', margin)?;
    out.push_str(" |  ")?;
    push_times(out, '_', indent.saturating_add(1))?;
    out.push_str("^\n")?;
    Ok(())
}

/// The last of several lines, and the bar that comes from the first one.
fn push_last(out: &mut String, margin: usize, number: usize, excerpt: &Excerpt) -> Result<(), Fault>
    ensures err { IfErr result (λ e. e ≡ Fault.Memory) }
{
    let indent = excerpt.before.as_str().width();
    push_number(out, margin, number)?;
    out.push_str(" | | ")?;
    push_text(out, excerpt)?;
    push_times(out, ' ', margin)?;
    out.push_str(" | |")?;
    push_times(out, '_', indent.max(1))?;
    out.push_str("^\n")?;
    Ok(())
}

/// The number of a line, with spaces behind it up to the margin.
fn push_number(out: &mut String, margin: usize, number: usize) -> Result<(), Fault>
    ensures err { IfErr result (λ e. e ≡ Fault.Memory) }
{
    let before = out.len();
    write!(out, "{number}")?;
    let digits = out.len().saturating_sub(before);
    push_times(out, ' ', margin.saturating_sub(digits))
}
