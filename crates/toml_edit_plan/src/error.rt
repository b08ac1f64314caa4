//! Why a document is not edited.
ghost use Rattle.std.specs.Prelude.{◌≡◌};
ghost use Rattle.toml_edit_plan.specs.declared.error.TomlEditError.TheVariants.{Failed};

use rowan::{Fault, TextRange, TextSize};
use rowan_edit::{EditError, Refusal};
use std::alloc::{AllocError, AllocFailed};
use std::error::Error;
use std::fmt;

/// What is in the way of an edit.
#[derive(Clone, Copy, Debug, PartialEq, Eq, Hash)]
pub enum Cause {
    /// The path leads to nothing.
    NotFound,
    /// The path leads to a table or an array of tables that headers or dotted keys make.
    IsTable,
    /// The path goes on with a key from what is no table.
    NotTable,
    /// The path goes on with an index from what is no array in brackets, or a push is to one.
    NotArray,
    /// The array has no such element.
    NoElement,
    /// The table has the new key already.
    KeyExists,
    /// The text is not one value and nothing else.
    BadValue,
    /// The text is none for one line of a comment, or what the path leads to can have no comment.
    BadComment,
    /// Another edit of the list is in the way.
    Conflict,
}

/// Why a document is not edited.
#[derive(Clone, Copy, PartialEq, Eq)]
pub enum TomlEditError {
    /// What is in the way, and where the path stops in the text: at the value that is in the way.
    Refused(Cause, TextRange),
    /// A tree or a text is not made: it would pass a limit, or an allocation failed.
    Failed(Fault),
}

impl TomlEditError {
    /// A refusal at no place of the text.
    pub fn nowhere(cause: Cause) -> TomlEditError {
        let start = TextSize::from(0);
        TomlEditError::Refused(cause, TextRange::new(start, start))
    }
}

impl Cause {
    /// What is in the way, in words.
    pub fn message(self) -> &'static str {
        match self {
            Cause::NotFound => "there is no such key",
            Cause::IsTable => "this is a table of its own: name a key in it, or remove it first",
            Cause::NotTable => "this is no table",
            Cause::NotArray => "this is no array in brackets",
            Cause::NoElement => "the array has no such element",
            Cause::KeyExists => "the table has this key already",
            _ => self.about_texts(),
        }
    }

    fn about_texts(self) -> &'static str {
        match self {
            Cause::BadValue => "the text is not one value of TOML and nothing else",
            Cause::BadComment => "no such comment can stand there",
            _ => "two edits of the list don't go together",
        }
    }
}

impl fmt::Display for Cause {
    fn fmt<W: fmt::Write>(&self, f: &mut fmt::Formatter<W>) -> fmt::Result {
        f.write_str(self.message())
    }
}

impl fmt::Display for TomlEditError {
    fn fmt<W: fmt::Write>(&self, f: &mut fmt::Formatter<W>) -> fmt::Result {
        match self {
            TomlEditError::Refused(cause, _) => write!(f, "{cause}"),
            TomlEditError::Failed(fault) => write!(f, "{fault}"),
        }
    }
}

impl fmt::Debug for TomlEditError {
    fn fmt<W: fmt::Write>(&self, f: &mut fmt::Formatter<W>) -> fmt::Result {
        match self {
            TomlEditError::Refused(cause, range) => write!(f, "{cause:?} at {range:?}"),
            TomlEditError::Failed(fault) => write!(f, "{fault:?}"),
        }
    }
}

impl Error for TomlEditError {}

impl From<Fault> for TomlEditError {
    ghost from_gives = { λ fault e. e ≡ Failed fault };

    fn from(fault: Fault) -> TomlEditError {
        TomlEditError::Failed(fault)
    }
}

impl From<AllocError> for TomlEditError {
    ghost use Rattle.rowan.specs.Types.Fault.TheVariants.{Memory};

    ghost from_gives = { λ _ e. e ≡ Failed Memory };

    fn from(_error: AllocError) -> TomlEditError {
        TomlEditError::Failed(Fault::Memory)
    }
}

impl<T: Drop> From<AllocFailed<T>> for TomlEditError {
    ghost use Rattle.rowan.specs.Types.Fault.TheVariants.{Memory};

    ghost from_gives = { λ _ e. e ≡ Failed Memory };

    fn from(_failed: AllocFailed<T>) -> TomlEditError {
        TomlEditError::Failed(Fault::Memory)
    }
}

/// An editor of trees refuses only what conflicts: all places are those of its tree.
impl From<EditError> for TomlEditError {
    fn from(error: EditError) -> TomlEditError {
        match error {
            EditError::Failed(fault) => TomlEditError::Failed(fault),
            EditError::Refused(Refusal::Memory) => TomlEditError::Failed(Fault::Memory),
            _ => TomlEditError::nowhere(Cause::Conflict),
        }
    }
}
