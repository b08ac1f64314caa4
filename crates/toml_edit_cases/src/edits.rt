//! Edits from lines: a word, a path, and behind ` := ` a value, a key or a comment.
use anyhow::Result;
use std::alloc::Global;
use toml_edit::{Edit, NewValue, Side};
use toml_path::Path;

/// The path of an edit.
pub(crate) fn path_of(alloc: Global, line: &str) -> Result<Path> {
    let (_, rest) = line.split_once(' ').unwrap_or((line, ""));
    let (path, _) = rest.split_once(" := ").unwrap_or((rest, ""));
    Ok(Path::parse(alloc, path)?)
}

/// The edit of a line, if there is such a one.
pub(crate) fn edit_of<'a>(line: &'a str, path: &'a Path) -> Option<Edit<'a>> {
    let (word, _) = line.split_once(' ').unwrap_or((line, ""));
    let (_, text) = line.split_once(" := ").unwrap_or((line, ""));
    match word {
        "above" => Some(Edit::Comment(path, Side::Above, Some(text))),
        "behind" => Some(Edit::Comment(path, Side::Behind, Some(text))),
        "no-above" => Some(Edit::Comment(path, Side::Above, None)),
        "no-behind" => Some(Edit::Comment(path, Side::Behind, None)),
        "remove" => Some(Edit::Remove(path)),
        "rename" => Some(Edit::Rename(path, text)),
        _ => value_of(word, path, NewValue::Text(text)),
    }
}

fn value_of<'a>(word: &str, path: &'a Path, value: NewValue<'a>) -> Option<Edit<'a>> {
    match word {
        "set" => Some(Edit::Set(path, value)),
        "push" => Some(Edit::Push(path, value)),
        "insert0" => Some(Edit::Insert(path, 0, value)),
        "insert1" => Some(Edit::Insert(path, 1, value)),
        "insert2" => Some(Edit::Insert(path, 2, value)),
        _ => None,
    }
}
