//! What a path is, and its text.
use std::alloc::{AllocError, AllocFailed};
use std::error::Error;
use std::fmt;
use toml_writer::write_key;

/// A step from a value to one in it.
#[derive(Debug, PartialEq, Eq, Drop)]
pub enum Step {
    /// To the value of this key of a table. The key is decoded: without quotes and escapes.
    Key(String),
    /// To an element of an array. The first one has the number 0.
    Index(usize),
}

/// Where a value stands in a document: the steps to it from the root. Without steps it is the root.
#[derive(Debug, PartialEq, Eq, Drop)]
pub struct Path {
    pub steps: Vec<Step>,
}

/// The text of the path: keys without quotes where they need none.
impl fmt::Display for Path {
    fn fmt<W: fmt::Write>(&self, f: &mut fmt::Formatter<W>) -> fmt::Result {
        let mut is_first = true;
        for step in self.steps.iter() {
            match step {
                Step::Key(key) => {
                    if !is_first {
                        f.write_str(".")?;
                    }
                    write_key(f, key.as_str())?;
                }
                Step::Index(index) => write!(f, "[{index}]")?,
            }
            is_first = false;
        }
        Ok(())
    }
}

/// What is wrong with the text of a path.
#[derive(Clone, Copy, Debug, PartialEq, Eq, Hash)]
pub enum PathFault {
    /// A key is wanted.
    NoKey,
    /// A string that is no key of TOML, as one without its end.
    BadString,
    /// A number from 0 to 18,446,744,073,709,551,615 in digits is wanted between `[` and `]`.
    BadIndex,
    /// Behind a part of a path `.` or `[` is wanted.
    BadEnd,
}

/// Why a text is no path.
#[derive(Clone, Copy, Debug, PartialEq, Eq, Hash)]
pub enum PathError {
    /// An allocation failed.
    Memory,
    /// So many bytes from the start of the text something else is wanted.
    At(PathFault, usize),
}

impl fmt::Display for PathFault {
    fn fmt<W: fmt::Write>(&self, f: &mut fmt::Formatter<W>) -> fmt::Result {
        match self {
            PathFault::NoKey => f.write_str("expected a key"),
            PathFault::BadString => f.write_str("expected a string as TOML writes it in one line"),
            PathFault::BadIndex => f.write_str("expected a number in digits and `]`"),
            PathFault::BadEnd => f.write_str("expected `.` or `[`"),
        }
    }
}

impl fmt::Display for PathError {
    fn fmt<W: fmt::Write>(&self, f: &mut fmt::Formatter<W>) -> fmt::Result {
        match self {
            PathError::Memory => f.write_str("out of memory"),
            PathError::At(fault, offset) => write!(f, "{fault} at byte {offset} of the path"),
        }
    }
}

impl Error for PathFault {}

impl Error for PathError {}

impl From<AllocError> for PathError {
    ghost use Rattle.std.specs.Prelude.{◌≡◌};
    ghost use Rattle.toml_path.specs.declared.path.PathError.TheVariants.{Memory};

    ghost from_gives = { λ _ e. e ≡ Memory };

    fn from(_refused: AllocError) -> PathError {
        PathError::Memory
    }
}

impl<T: Drop> From<AllocFailed<T>> for PathError {
    ghost use Rattle.std.specs.Prelude.{◌≡◌};
    ghost use Rattle.toml_path.specs.declared.path.PathError.TheVariants.{Memory};

    ghost from_gives = { λ _ e. e ≡ Memory };

    fn from(_refused: AllocFailed<T>) -> PathError {
        PathError::Memory
    }
}
