//! Edits, as data.
use toml_edit_plan::{NewValue, Side};
use toml_path::Path;

/// An edit of a list, which does what the call of `Document` of this name does.
#[derive(Clone, Copy)]
pub enum Edit<'a> {
    Set(&'a Path, NewValue<'a>),
    Push(&'a Path, NewValue<'a>),
    Insert(&'a Path, usize, NewValue<'a>),
    Remove(&'a Path),
    Rename(&'a Path, &'a str),
    /// As `set_comment`.
    Comment(&'a Path, Side, Option<&'a str>),
}
