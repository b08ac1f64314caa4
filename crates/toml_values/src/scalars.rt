//! Values in one token.
ghost use Rattle.std.specs.Prelude.{◌≡◌, IfOk};
ghost use Rattle.toml_values.specs.Strings.{IsString};

use crate::problem::{ProblemKind, Version};
use crate::strings::Token;
use crate::value::Item;
use std::alloc::{AllocError, Global};
use toml_datetime::Datetime;
use toml_parser::{ErrorKind, ParseError, Scalar, unquoted};

/// What a value in one token is by its form.
#[derive(Clone, Copy, Debug, PartialEq, Eq, Hash)]
pub enum Shape {
    String,
    Boolean,
    Integer,
    Float,
    Datetime,
}

impl Token<'_> {
    /// The value of a token of a shape. Where it has none, that is noted, and the value is the
    /// integer 0, or infinite for a float that is too large.
    ///
    /// Errors: only when an allocation failed.
    pub fn value(&mut self, alloc: Global, shape: Shape) -> Result<Item, AllocError>
        ensures { IfOk result (λ item. IsString self.old.text.now shape item) }
    {
        match shape {
            Shape::String => self.decoded(alloc).map(Item::String),
            _ => self.word(alloc, shape),
        }
    }

    fn word(&mut self, alloc: Global, shape: Shape) -> Result<Item, AllocError> {
        match unquoted(alloc, self.text) {
            Ok((scalar, rest)) if rest.is_empty() => self.scalar(scalar),
            Ok(_) => self.wrong(shape, ErrorKind::Value),
            Err(ParseError::OutOfMemory) => Err(AllocError),
            Err(ParseError::At(error, _, _)) => self.wrong(shape, error),
        }
    }

    fn scalar(&mut self, scalar: Scalar) -> Result<Item, AllocError> {
        match scalar {
            Scalar::Boolean(answer) => Ok(Item::Boolean(answer)),
            Scalar::Integer(number) => Ok(Item::Integer(number)),
            Scalar::Float(number) => Ok(Item::Float(number)),
            Scalar::Datetime(when) => {
                if self.version == Version::V1_0 && has_no_seconds(when) {
                    self.note_all(ProblemKind::NoSeconds)?;
                }
                Ok(Item::Datetime(when))
            }
        }
    }

    /// Notes why a token is no value, and gives one of its kind. A float that is too large is
    /// infinite, which is no problem.
    fn wrong(&mut self, shape: Shape, error: ErrorKind) -> Result<Item, AllocError> {
        if error == ErrorKind::Overflow && shape == Shape::Float {
            return Ok(Item::Float(infinity(self.text)));
        }
        self.note_all(problem_of(shape, error, self.text))?;
        Ok(Item::Integer(0))
    }
}

fn has_no_seconds(when: Datetime) -> bool {
    when.time.is_some_and(|time| time.second.is_none())
}

fn infinity(text: &str) -> f64 {
    if text.starts_with('-') {
        f64::NEG_INFINITY
    } else {
        f64::INFINITY
    }
}

fn problem_of(shape: Shape, error: ErrorKind, text: &str) -> ProblemKind {
    match shape {
        Shape::Datetime => ProblemKind::DateTime,
        _ => match error {
            ErrorKind::Underscore => ProblemKind::Underscore,
            ErrorKind::Overflow => ProblemKind::IntegerRange,
            ErrorKind::Datetime => ProblemKind::DateTime,
            _ if is_in_base(text) => ProblemKind::IntegerRange,
            _ => ProblemKind::Number,
        },
    }
}

/// Whether a text is a number of base 2, 8 or 16 by its form.
fn is_in_base(text: &str) -> bool {
    let digits = text.get(2..).unwrap_or("");
    let has_digits = !digits.is_empty();
    match text.get(..2) {
        Some("0x") => has_digits && digits.bytes().all(is_hexadecimal),
        Some("0o") => has_digits && digits.bytes().all(is_octal),
        Some("0b") => has_digits && digits.bytes().all(is_binary),
        _ => false,
    }
}

fn is_hexadecimal(byte: u8) -> bool {
    byte.is_ascii_hexdigit() || byte == b'_'
}

fn is_octal(byte: u8) -> bool {
    matches!(byte, b'0'..=b'7' | b'_')
}

fn is_binary(byte: u8) -> bool {
    matches!(byte, b'0' | b'1' | b'_')
}
