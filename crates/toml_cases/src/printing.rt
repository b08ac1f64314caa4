//! Trees in one line.
use anyhow::Result;
use rowan::{Fault, Language, NodeOrToken, SyntaxNodeRef, WalkEvent};
use std::alloc::{AllocError, Global};
use toml_document::push_quoted;
use toml_syntax::{Kind, Toml};

/// Appends a tree: each node in parentheses behind its kind, and its tokens. Trivia stand in quotes.
pub(crate) fn push_tree(out: &mut String, root: SyntaxNodeRef<'_, Toml>) -> Result<()> {
    for event in root.preorder_with_tokens() {
        match event {
            WalkEvent::Enter(NodeOrToken::Node(node)) => {
                out.push('(')?;
                out.push_str(Toml::kind_name(node.kind()))?;
            }
            WalkEvent::Enter(NodeOrToken::Token(token)) => {
                out.push(' ')?;
                push_token(out, token.kind(), token.text())?;
            }
            WalkEvent::Leave(NodeOrToken::Node(_)) => out.push(')')?,
            WalkEvent::Leave(_) => {}
        }
    }
    out.push('\n')?;
    Ok(())
}

fn push_token(out: &mut String, kind: Kind, text: &str) -> Result<(), Fault> {
    match kind {
        Kind::Whitespace | Kind::Newline | Kind::Comment => push_quoted(out, text)?,
        _ if text.contains(is_hidden) => push_quoted(out, text)?,
        _ => out.push_str(text)?,
    }
    Ok(())
}

fn is_hidden(character: char) -> bool {
    character.is_control()
}

/// A text with the characters for which its marks stand, as a carriage return for `‹CR›`.
pub(crate) fn without_marks(alloc: Global, text: &str) -> Result<String, AllocError> {
    let mut out = String::new(alloc);
    for (index, part) in text.split('‹').enumerate() {
        match part.split_once('›') {
            Some((mark, rest)) if index > 0 => {
                out.push_str(meaning(mark))?;
                out.push_str(rest)?;
            }
            _ => out.push_str(part)?,
        }
    }
    Ok(out)
}

/// What a mark stands for.
fn meaning(mark: &str) -> &'static str {
    match mark {
        "CR" => "\r",
        "TAB" => "\t",
        "NUL" => "\0",
        "ESC" => "\u{1b}",
        "DEL" => "\u{7f}",
        "BOM" => "\u{feff}",
        _ => "",
    }
}
