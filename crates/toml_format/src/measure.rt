//! Measures arrays and inline tables.
use crate::brackets::{Bracket, Measures};
use rowan::cursor::{SyntaxNodeRef, SyntaxTokenRef};
use rowan::{Language, NodeOrToken};
use std::alloc::{AllocError, Global};
use toml_syntax::{Kind, Toml};

/// An array or an inline table whose end has not come.
#[derive(Clone, Copy)]
struct Open {
    /// Its place among those that began.
    index: usize,
    is_brace: bool,
    /// The characters so far.
    width: usize,
    /// Whether a comma came last.
    ends_with_comma: bool,
    has_comment: bool,
}

/// The state of measuring.
#[derive(Drop)]
struct Measurer {
    brackets: Vec<Bracket>,
    open: Vec<Open>,
    count: usize,
    has_returns: Option<bool>,
}

/// What a layout has to know of a tree before it begins.
pub(crate) fn measured(alloc: Global, root: SyntaxNodeRef<'_>) -> Result<Measures, AllocError> {
    let mut measurer = Measurer {
        brackets: Vec::new(alloc),
        open: Vec::new(alloc),
        count: 0,
        has_returns: None,
    };
    for element in root.descendants_with_tokens() {
        if let NodeOrToken::Token(token) = element {
            measurer.pass(token)?;
        }
    }
    let Measurer {
        brackets,
        open: _,
        count,
        has_returns,
    } = measurer;
    Ok(Measures {
        brackets,
        count,
        has_returns: has_returns.unwrap_or(false),
    })
}

impl Measurer {
    fn pass(&mut self, token: SyntaxTokenRef<'_>) -> Result<(), AllocError> {
        let text = token.text();
        match Toml::kind_from_raw(token.kind()) {
            Kind::Whitespace => self.pass_white(text),
            Kind::Newline => {
                self.pass_white(text);
                self.count = self.count.saturating_add(1);
            }
            kind => {
                self.count = self.count.saturating_add(1);
                self.pass_sign(kind, text, is_of_header(token))?;
            }
        }
        Ok(())
    }

    fn pass_white(&mut self, text: &str) {
        if self.has_returns.is_none() && text.contains('\n') {
            self.has_returns = Some(begins_with_return(text));
        }
    }

    fn pass_sign(&mut self, kind: Kind, text: &str, of_header: bool) -> Result<(), AllocError> {
        match kind {
            Kind::LBracket if !of_header => self.begin(false),
            Kind::LBrace => self.begin(true),
            Kind::RBracket if !of_header => {
                self.end();
                Ok(())
            }
            Kind::RBrace => {
                self.end();
                Ok(())
            }
            _ => {
                self.add(kind, text);
                Ok(())
            }
        }
    }

    fn begin(&mut self, is_brace: bool) -> Result<(), AllocError> {
        let index = self.brackets.len();
        self.brackets.push(Bracket {
            width: 0,
            has_comment: false,
        })?;
        self.open.push(Open {
            index,
            is_brace,
            width: if is_brace { 4 } else { 2 },
            ends_with_comma: false,
            has_comment: false,
        })?;
        Ok(())
    }

    /// What is innermost ends, and counts for what is around it.
    fn end(&mut self) {
        let Some(ended) = self.open.pop() else {
            return;
        };
        let width = ended
            .width
            .saturating_sub(usize::from(ended.ends_with_comma));
        if let Some(bracket) = self.brackets.get_mut(ended.index) {
            *bracket = Bracket {
                width,
                has_comment: ended.has_comment,
            };
        }
        if let Some(outer) = self.open.last_mut() {
            outer.width = outer.width.saturating_add(width);
            outer.ends_with_comma = false;
            outer.has_comment = outer.has_comment || ended.has_comment && !outer.is_brace;
        }
    }

    fn add(&mut self, kind: Kind, text: &str) {
        let Some(open) = self.open.last_mut() else {
            return;
        };
        let width = match kind {
            Kind::Comma => 2,
            Kind::Equals => 3,
            _ => text.chars().count(),
        };
        open.width = open.width.saturating_add(width);
        open.ends_with_comma = kind == Kind::Comma;
        open.has_comment = open.has_comment || kind == Kind::Comment;
    }
}

/// Whether a bracket is one of a header, and not of an array.
fn is_of_header(token: SyntaxTokenRef<'_>) -> bool {
    match token.parent() {
        Some(parent) => Toml::kind_from_raw(parent.kind()) != Kind::Array,
        None => true,
    }
}

/// Whether the first line end of a text has a carriage return.
fn begins_with_return(text: &str) -> bool {
    match text.find('\n') {
        Some(place) => text.get(..place).unwrap_or("").ends_with('\r'),
        None => false,
    }
}
