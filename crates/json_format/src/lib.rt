//! White space of JSON: each element of an array and each member of an object has its own line.
#![tactic(auto)]

use json_syntax::{Json, Kind};
use rowan::{Fault, GreenElement, GreenNode, GreenToken, Language};
use rowan_edit::{Rewrite, TokenAt, rewrite_tokens};
use std::alloc::{AllocError, Global};

/// The tree with two spaces a level at the beginning of each line. A comment behind something else
/// in its line stays there. The new white space stands where a parser has it, in front of the nodes
/// that begin there.
pub fn formatted(alloc: Global, tree: &GreenNode) -> Result<GreenNode, Fault> {
    let mut layout = Layout {
        depth: 0,
        last: None,
        has_line_end: false,
    };
    Ok(rewrite_tokens(alloc, tree, &mut |at| layout.place(alloc, at))?.green)
}

#[derive(Drop)]
struct Layout {
    /// How many arrays and objects are open.
    depth: usize,
    /// The kind of the last token that was no white space.
    last: Option<Kind>,
    /// Whether the line ended behind it.
    has_line_end: bool,
}

fn white_space(alloc: Global, text: &str) -> Result<Vec<GreenElement>, Fault> {
    let space = GreenToken::new(alloc, Json::kind_to_raw(Kind::Whitespace), text)?;
    Ok(vec![in alloc; GreenElement::from(space)]?)
}

/// White space is taken away, but for a line end at the end of the text.
fn end_of_text(alloc: Global, at: TokenAt<'_>) -> Result<Rewrite, Fault> {
    let is_last = at.parent().kind() == Json::kind_to_raw(Kind::Root) && at.behind().is_none();
    if is_last && at.text().ends_with('\n') {
        return Ok(Rewrite::Replace(white_space(alloc, "\n")?));
    }
    Ok(Rewrite::Remove)
}

impl Layout {
    fn place(&mut self, alloc: Global, at: TokenAt<'_>) -> Result<Rewrite, Fault> {
        let kind = Json::kind_from_raw(at.kind());
        if kind == Kind::Whitespace {
            self.has_line_end = at.text().contains('\n');
            return end_of_text(alloc, at);
        }
        if matches!(kind, Kind::RBrace | Kind::RBracket) {
            self.depth = self.depth.saturating_sub(1);
        }
        let space = self.space_before(alloc, kind)?;
        if matches!(kind, Kind::LBrace | Kind::LBracket) {
            self.depth = self.depth.saturating_add(1);
        }
        self.last = Some(kind);
        self.has_line_end = false;
        if space.is_empty() {
            return Ok(Rewrite::Keep);
        }
        Ok(Rewrite::KeepBehind(white_space(alloc, space.as_str())?))
    }

    /// The white space between the last token and one of a kind.
    fn space_before(&self, alloc: Global, kind: Kind) -> Result<String, AllocError> {
        let is_empty = matches!(
            (self.last, kind),
            (Some(Kind::LBrace), Kind::RBrace) | (Some(Kind::LBracket), Kind::RBracket)
        );
        if self.ends_line(kind) && !is_empty {
            return format!(in alloc; "\n{:1$}", "", self.depth.saturating_mul(2));
        }
        match (self.last, kind) {
            (Some(Kind::Colon), _) | (Some(_), Kind::Comment) => format!(in alloc; " "),
            _ => Ok(String::new(alloc)),
        }
    }

    /// Whether the line ends between the last token and one of a kind.
    fn ends_line(&self, kind: Kind) -> bool {
        match (self.last, kind) {
            (None, _) => false,
            (Some(Kind::Comment), _) => true,
            (_, Kind::Comment) => self.has_line_end,
            (_, Kind::RBrace | Kind::RBracket) => true,
            (Some(Kind::LBrace | Kind::LBracket | Kind::Comma), _) => true,
            _ => false,
        }
    }
}
