//! Which white space stands before each token.
use crate::brackets::{Bracket, Measures};
use crate::style::Style;
use rowan::{Fault, GreenElement, GreenElementRef, GreenToken, Language, NodeOrToken, SyntaxKind};
use rowan_edit::{Rewrite, TokenAt};
use std::alloc::{AllocError, Global};
use toml_syntax::{Kind, Toml};

/// A byte order mark, which is white space at the start of a text and stays.
const MARK: char = '\u{feff}';

/// How far a layout has come.
#[derive(Drop)]
pub(crate) struct Layout<'a> {
    style: Style,
    line_end: &'static str,
    brackets: &'a [Bracket],
    /// How many of the arrays and inline tables have begun.
    begun: usize,
    /// Of each that is open, whether it stands over several lines.
    open: Vec<bool>,
    /// How many tokens that are no white space are to come.
    left: usize,
    /// The last one that was no white space.
    last: Option<Kind>,
    /// How many lines of the old text ended behind it.
    lines: usize,
    /// Whether white space stood behind it in the old text.
    was_apart: bool,
    /// How many characters the line has so far.
    column: usize,
}

/// What stands between two tokens.
#[derive(Clone, Copy, PartialEq, Eq)]
enum Gap {
    Nothing,
    Space,
    /// A line end.
    Line,
    /// A line end and a blank line.
    BlankLine,
    /// A blank line, behind a line that has ended.
    Blank,
}

/// The text that ends a line.
fn line_end(has_returns: bool) -> &'static str {
    if has_returns { "\r\n" } else { "\n" }
}

impl<'a> Layout<'a> {
    pub(crate) fn new(alloc: Global, style: Style, measures: &'a Measures) -> Layout<'a> {
        Layout {
            style,
            line_end: line_end(measures.has_returns),
            brackets: measures.brackets.as_slice(),
            begun: 0,
            open: Vec::new(alloc),
            left: measures.count,
            last: None,
            lines: 0,
            was_apart: false,
            column: 0,
        }
    }

    /// What becomes of a token.
    pub(crate) fn place(&mut self, alloc: Global, at: TokenAt<'_>) -> Result<Rewrite, Fault> {
        match Toml::kind_from_raw(at.kind()) {
            Kind::Whitespace => Ok(self.pass_white(at.text())),
            Kind::Newline => {
                self.left = self.left.saturating_sub(1);
                self.pass_line_end();
                end_line(alloc, at, self.line_end)
            }
            kind => self.pass_sign(alloc, kind, at),
        }
    }

    fn pass_white(&mut self, text: &str) -> Rewrite {
        if text.starts_with(MARK) {
            return Rewrite::Keep;
        }
        let lines = text.bytes().filter(|byte| *byte == b'\n').count();
        self.lines = self.lines.saturating_add(lines);
        self.was_apart = true;
        Rewrite::Remove
    }

    fn pass_line_end(&mut self) {
        self.last = Some(Kind::Newline);
        self.lines = 1;
        self.was_apart = false;
        self.column = 0;
    }

    fn pass_sign(&mut self, alloc: Global, kind: Kind, at: TokenAt<'_>) -> Result<Rewrite, Fault> {
        let closes = self.closes(kind, at);
        let gap = self.gap(kind, closes, at);
        let ends_line = self.is_behind(kind);
        let depth = self.open.len().saturating_sub(usize::from(closes));
        let space = self.white_space(alloc, gap, depth)?;
        self.move_on(&space, at.text());
        if closes {
            self.open.pop();
        }
        if self.opens(kind, at) {
            self.begin(kind == Kind::LBrace)?;
        }
        self.last = Some(kind);
        self.lines = 0;
        self.was_apart = false;
        self.left = self.left.saturating_sub(1);
        if self.left == 0 && !ends_line {
            return last_token(alloc, &space, at, self.line_end);
        }
        if space.is_empty() {
            return Ok(Rewrite::Keep);
        }
        Ok(Rewrite::KeepBehind(vec![in alloc; white(alloc, &space)?]?))
    }

    /// Whether a token is a comment behind something in its line. Where the text ends with it, no
    /// line end comes behind it: that would make it part of the entry.
    fn is_behind(&self, kind: Kind) -> bool {
        kind == Kind::Comment && self.lines == 0 && !matches!(self.last, None | Some(Kind::Newline))
    }

    fn opens(&self, kind: Kind, at: TokenAt<'_>) -> bool {
        kind == Kind::LBrace || kind == Kind::LBracket && is_in_array(at)
    }

    fn closes(&self, kind: Kind, at: TokenAt<'_>) -> bool {
        kind == Kind::RBrace || kind == Kind::RBracket && is_in_array(at)
    }

    /// An array or an inline table begins, whose bracket was just placed.
    fn begin(&mut self, is_brace: bool) -> Result<(), AllocError> {
        let bracket = self.brackets.get(self.begun).copied().unwrap_or(Bracket {
            width: 0,
            has_comment: false,
        });
        self.begun = self.begun.saturating_add(1);
        let end = self.column.saturating_add(bracket.width).saturating_sub(1);
        let is_wide = !is_brace && bracket.width > 2 && end > self.style.width;
        self.open.push(bracket.has_comment || is_wide)?;
        Ok(())
    }

    /// What stands between the last token and one of a kind.
    fn gap(&self, kind: Kind, closes: bool, at: TokenAt<'_>) -> Gap {
        let Some(last) = self.last else {
            return Gap::Nothing;
        };
        match self.open.last() {
            Some(true) => self.gap_in_lines(last, kind, closes),
            Some(false) => self.gap_in_line(last, kind, closes),
            None => self.gap_outside(last, kind, at),
        }
    }

    /// Outside of arrays and inline tables.
    fn gap_outside(&self, last: Kind, kind: Kind, at: TokenAt<'_>) -> Gap {
        let is_blank = self.has_blank_line(last, kind, at);
        match last {
            Kind::Newline if is_blank => Gap::Blank,
            Kind::Newline => Gap::Nothing,
            Kind::Comment if is_blank => Gap::BlankLine,
            Kind::Comment => Gap::Line,
            _ => self.gap_between(last, kind),
        }
    }

    /// Whether a blank line stands above a token that begins a line.
    fn has_blank_line(&self, last: Kind, kind: Kind, at: TokenAt<'_>) -> bool {
        if self.lines >= 2 && (self.style.keeps_blank_lines || last == Kind::Comment) {
            return true;
        }
        !self.style.keeps_blank_lines && last == Kind::Newline && begins_section(kind, at)
    }

    /// In an array or an inline table over several lines.
    fn gap_in_lines(&self, last: Kind, kind: Kind, closes: bool) -> Gap {
        let is_first = matches!(last, Kind::LBracket | Kind::LBrace);
        let begins_line = closes || is_first || matches!(last, Kind::Comma | Kind::Comment);
        if kind == Kind::Comment && self.lines == 0 {
            return Gap::Space;
        }
        if !begins_line && kind != Kind::Comment {
            return self.gap_between(last, kind);
        }
        if self.lines >= 2 && self.style.keeps_blank_lines && !is_first && !closes {
            return Gap::BlankLine;
        }
        Gap::Line
    }

    /// In an array or an inline table in one line.
    fn gap_in_line(&self, last: Kind, kind: Kind, closes: bool) -> Gap {
        if closes && matches!(last, Kind::LBracket | Kind::LBrace) {
            return Gap::Nothing;
        }
        if closes && kind == Kind::RBrace || last == Kind::LBrace {
            return Gap::Space;
        }
        if closes || last == Kind::LBracket {
            return Gap::Nothing;
        }
        if last == Kind::Comma {
            return Gap::Space;
        }
        self.gap_between(last, kind)
    }

    /// In a line.
    fn gap_between(&self, last: Kind, kind: Kind) -> Gap {
        match (last, kind) {
            (_, Kind::Comment | Kind::Equals) | (Kind::Equals, _) => Gap::Space,
            (_, Kind::Comma | Kind::Dot | Kind::RBracket | Kind::RBrackets) => Gap::Nothing,
            (Kind::Dot | Kind::LBracket | Kind::LBrackets, _) => Gap::Nothing,
            _ if self.was_apart => Gap::Space,
            _ => Gap::Nothing,
        }
    }

    fn white_space(&self, alloc: Global, gap: Gap, depth: usize) -> Result<String, AllocError> {
        let indent = self.style.indent.saturating_mul(depth);
        let end = self.line_end;
        match gap {
            Gap::Nothing => Ok(String::new(alloc)),
            Gap::Space => format!(in alloc; " "),
            Gap::Line => format!(in alloc; "{end}{:1$}", "", indent),
            Gap::BlankLine => format!(in alloc; "{end}{end}{:1$}", "", indent),
            Gap::Blank => format!(in alloc; "{end}"),
        }
    }

    /// Counts the characters of the line on over white space and a token.
    fn move_on(&mut self, space: &str, text: &str) {
        self.column = column_behind(column_behind(self.column, space), text);
    }
}

/// Whether a bracket is one of an array, and not of a header.
fn is_in_array(at: TokenAt<'_>) -> bool {
    Toml::kind_from_raw(at.parent().kind()) == Kind::Array
}

/// Whether a token begins a table or an element of an array of tables, with its comments.
fn begins_section(kind: Kind, at: TokenAt<'_>) -> bool {
    let parent = Toml::kind_from_raw(at.parent().kind());
    let is_in_section = matches!(parent, Kind::Table | Kind::ArrayTable);
    let is_head = matches!(kind, Kind::LBracket | Kind::LBrackets | Kind::Comment);
    is_in_section && is_head && at.before().is_none()
}

/// The column behind a text that begins at a column.
fn column_behind(column: usize, text: &str) -> usize {
    match text.rfind('\n') {
        Some(place) => text
            .get(place..)
            .unwrap_or("")
            .chars()
            .count()
            .saturating_sub(1),
        None => column.saturating_add(text.chars().count()),
    }
}

fn white(alloc: Global, text: &str) -> Result<GreenElement, Fault> {
    let kind = Toml::kind_to_raw(Kind::Whitespace);
    Ok(GreenElement::from(GreenToken::new(alloc, kind, text)?))
}

/// The end of a line, as all are.
fn end_line(alloc: Global, at: TokenAt<'_>, line_end: &str) -> Result<Rewrite, Fault> {
    if at.text() == line_end {
        return Ok(Rewrite::Keep);
    }
    let token = GreenToken::new(alloc, at.kind(), line_end)?;
    Ok(Rewrite::Replace(vec![in alloc; GreenElement::from(token)]?))
}

/// The last token, where it is no line end: one comes behind it.
fn last_token(
    alloc: Global,
    space: &str,
    at: TokenAt<'_>,
    line_end: &str,
) -> Result<Rewrite, Fault> {
    let mut new = Vec::new(alloc);
    if !space.is_empty() {
        new.push(white(alloc, space)?)?;
    }
    new.push(GreenElement::from(at.token().clone()?))?;
    new.push(white(alloc, line_end)?)?;
    Ok(Rewrite::Replace(new))
}
