//! Edits of settings. Each changes what it names, and leaves every other byte as it is.
use crate::kinds::{Kind, Settings};
use crate::lexer::is_key;
use crate::nodes::EntryRef;
use crate::parser::SettingsParser;
use crate::walks::{Node, get};
use rowan::ast::AstNodeRef;
use rowan::{Direction, SyntaxElementRef, TextSize, TypedElementRefCalls};
use rowan_edit::{EditError, Refusal, SyntaxEditor};

pub type Editor = SyntaxEditor<Settings>;

const NOT_FOUND: EditError = EditError::Refused(Refusal::NotFound);

/// The entry at a path. Errors: `Refused(NotFound)` if there is none.
fn entry<'tree>(root: Node<'tree>, path: &str) -> Result<EntryRef<'tree>, EditError> {
    let found = get(root, path).and_then(|node| EntryRef::cast(node));
    found.ok_or(NOT_FOUND)
}

/// Gives the entry at a path another value.
///
/// Errors: `Refused(NotFound)` if there is no such entry or it has no value; `TextHasErrors` if the
/// text is not a value and nothing else.
pub fn set(
    editor: &mut Editor,
    parser: &SettingsParser,
    root: Node<'_>,
    path: &str,
    value: &str,
) -> Result<(), EditError> {
    let old = entry(root, path)?.value().ok_or(NOT_FOUND)?;
    let alloc = editor.allocator();
    let line = format!(in alloc; "key = {value}")?;
    let parse = |text: &str| parser.parse(alloc, text).map(|p| (p.green, p.errors.len()));
    let new = editor.from_text(&line, parse, |kind| kind == Kind::Value)?;
    if new.text_len() != TextSize::of(value) {
        return Err(EditError::TextHasErrors);
    }
    editor.replace(old.syntax(), new)
}

/// Takes the entry at a path away, with the comments on the lines right above it.
///
/// Errors: `Refused(NotFound)` if there is no such entry.
pub fn remove(editor: &mut Editor, root: Node<'_>, path: &str) -> Result<(), EditError> {
    let entry = entry(root, path)?.syntax();
    editor.delete(entry)?;
    let above = entry.siblings_with_tokens(Direction::Prev).skip(1);
    let mut comments = above.take_while(|element| is_comment(*element));
    comments.try_for_each(|comment| editor.delete(comment))
}

/// Whether an element is a comment, or the spaces before one. A line with nothing in it is neither.
fn is_comment(element: SyntaxElementRef<'_, Settings>) -> bool {
    match element.into_token() {
        Some(token) => match token.kind() {
            Kind::Comment => true,
            Kind::Whitespace => !token.text().ends_with('\n'),
            _ => false,
        },
        None => false,
    }
}

/// Gives the entry at a path another key.
///
/// Errors: `Refused(NotFound)` if there is no such entry; `TextHasErrors` if the text is no key.
pub fn rename(editor: &mut Editor, root: Node<'_>, path: &str, key: &str) -> Result<(), EditError> {
    let old = entry(root, path)?.key_token().ok_or(NOT_FOUND)?;
    if !is_key(key) {
        return Err(EditError::TextHasErrors);
    }
    editor.set_text(old, key)
}
