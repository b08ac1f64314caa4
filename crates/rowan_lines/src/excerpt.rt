//! The part of a line that is shown.
ghost use Rattle.std.specs.Prelude.{◌≡◌, ◌↔◌, IsTrue, take, drop, string_bytes, IfOk, IfErr};
ghost use Rattle.rowan_lines.specs.Pictures.{pictured};
ghost use Rattle.rowan_lines.specs.Printed.{FitsWhole, IsCut};

use crate::pictures::{pictured, push_pictured};
use rowan_green::Fault;
use std::alloc::Global;
use unicode_width::{UnicodeWidthChar, UnicodeWidthStr};

/// A line of more columns is cropped.
const COLUMNS: usize = 160;
/// A line of more bytes is cropped, however few columns it takes.
pub(crate) const BYTES: usize = 640;
/// Of a cropped line so many columns are shown on each side of a place.
const SIDE: usize = 50;
/// So many bytes at most are looked at for these.
const SIDE_BYTES: usize = 200;

/// A line in three parts: before a range, in it, and behind it.
#[derive(Clone, Copy)]
pub(crate) struct Parts<'t> {
    pub before: &'t str,
    pub inside: &'t str,
    pub after: &'t str,
}

impl<'t> Parts<'t> {
    /// From a byte of the line to another. A byte within a character stands for its start, and one
    /// past the end of the line for the end.
    pub fn new(line: &'t str, start: usize, end: usize) -> Parts<'t>
        ensures after { IsCut line.now end → result.after.now ≡ drop end line.now }
        ensures front { IsCut line.now end → IsCut (take end line.now) start
            → (result.before.now ≡ take start (take end line.now))
            × (result.inside.now ≡ drop start (take end line.now)) }
    {
        let (front, after) = split(line, end);
        let (before, inside) = split(front, start);
        Parts {
            before,
            inside,
            after,
        }
    }
}

/// The parts as they are shown.
#[derive(Drop)]
pub(crate) struct Excerpt {
    pub before: String,
    pub inside: String,
    pub after: String,
}

impl Excerpt {
    /// The parts of a line: all of it where it is short, and else what is near the start of the
    /// range.
    pub fn new(alloc: Global, line: &str, parts: Parts<'_>) -> Result<Excerpt, Fault>
        ensures whole { FitsWhole line.now → IfOk result (λ e.
            (string_bytes e.before ≡ pictured parts.entry.before.now)
            × (string_bytes e.inside ≡ pictured parts.entry.inside.now)
            × (string_bytes e.after ≡ pictured parts.entry.after.now)) }
        ensures err { IfErr result (λ e. e ≡ Fault.Memory) }
    {
        if fits_whole(alloc, line)? {
            return Excerpt::whole(alloc, parts);
        }
        Excerpt::cropped(alloc, parts)
    }

    fn whole(alloc: Global, parts: Parts<'_>) -> Result<Excerpt, Fault>
        ensures before { IfOk result (λ e.
            string_bytes e.before ≡ pictured parts.entry.before.now) }
        ensures inside { IfOk result (λ e.
            string_bytes e.inside ≡ pictured parts.entry.inside.now) }
        ensures after { IfOk result (λ e. string_bytes e.after ≡ pictured parts.entry.after.now) }
        ensures err { IfErr result (λ e. e ≡ Fault.Memory) }
    {
        Ok(Excerpt {
            before: pictured(alloc, parts.before)?,
            inside: pictured(alloc, parts.inside)?,
            after: pictured(alloc, parts.after)?,
        })
    }

    /// What is near the start of the range, with `...` where the line goes on.
    fn cropped(alloc: Global, parts: Parts<'_>) -> Result<Excerpt, Fault>
        ensures err { IfErr result (λ e. e ≡ Fault.Memory) }
    {
        let before = last_columns(parts.before);
        let inside = first_columns(parts.inside);
        let mut excerpt = Excerpt {
            before: String::new(alloc),
            inside: pictured(alloc, inside)?,
            after: String::new(alloc),
        };
        if before.len() < parts.before.len() {
            excerpt.before.push_str("...")?;
        }
        push_pictured(&mut excerpt.before, before)?;
        let is_whole = inside.len() == parts.inside.len();
        let after = if is_whole {
            first_columns(parts.after)
        } else {
            ""
        };
        push_pictured(&mut excerpt.after, after)?;
        if !is_whole || after.len() < parts.after.len() {
            excerpt.after.push_str("...")?;
        }
        Ok(excerpt)
    }
}

/// Whether the line is short enough to be shown whole.
fn fits_whole(alloc: Global, line: &str) -> Result<bool, Fault>
    ensures ok { IfOk result (λ fits. IsTrue fits ↔ FitsWhole line.now) }
    ensures err { IfErr result (λ e. e ≡ Fault.Memory) }
{
    if line.len() > BYTES {
        return Ok(false);
    }
    let shown = pictured(alloc, line)?;
    Ok(shown.as_str().width() <= COLUMNS)
}

/// The text up to a byte and from it on. A byte within a character stands for its start, and one
/// past the end for the end.
fn split(text: &str, at: usize) -> (&str, &str)
    ensures front { IsCut text.now at → result.0.now ≡ take at text.now }
    ensures back { IsCut text.now at → result.1.now ≡ drop at text.now }
{
    text.split_at(text.floor_char_boundary(at))
}

/// The characters at the end of a text that take few columns.
fn last_columns(text: &str) -> &str {
    let (_, tail) = split(text, text.len().saturating_sub(SIDE_BYTES));
    let mut width: usize = 0;
    let mut len: usize = 0;
    for character in tail.chars().rev() {
        width = width.saturating_add(shown_width(character));
        if width > SIDE {
            break;
        }
        len = len.saturating_add(character.len_utf8());
    }
    split(tail, tail.len().saturating_sub(len)).1
}

/// The characters at the start of a text that take few columns.
fn first_columns(text: &str) -> &str {
    let (head, _) = split(text, SIDE_BYTES);
    let mut width: usize = 0;
    let mut len: usize = 0;
    for character in head.chars() {
        width = width.saturating_add(shown_width(character));
        if width > SIDE {
            break;
        }
        len = len.saturating_add(character.len_utf8());
    }
    split(head, len).0
}

/// The columns of one character where it is shown alone: four for a tab.
fn shown_width(character: char) -> usize {
    if character == '\t' {
        return 4;
    }
    character.width().unwrap_or(1)
}
