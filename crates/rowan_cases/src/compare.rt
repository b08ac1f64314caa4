//! Compares answers with stored ones.

use crate::answer::Answered;
use std::alloc::{AllocError, Global};
use std::fmt;

/// What a comparison found.
#[derive(Drop)]
pub enum Comparison<'a> {
    /// All answers are equal, so many.
    Equal(usize),
    /// The answer to this line of the case file is another one. There is nothing on a side that has
    /// fewer answers.
    Other {
        line: Option<usize>,
        wanted: Option<&'a str>,
        got: Option<String>,
    },
}

impl<'a> fmt::Display for Comparison<'a> {
    fn fmt<W: fmt::Write>(&self, f: &mut fmt::Formatter<W>) -> fmt::Result {
        match self {
            Comparison::Equal(count) => write!(f, "{count} answers equal"),
            Comparison::Other { line, wanted, got } => {
                match line {
                    Some(line) => write!(f, "another answer to line {line}")?,
                    None => write!(f, "an answer is missing at the end")?,
                }
                write!(f, "\n  wanted: {}\n  got:    ", wanted.unwrap_or("nothing"))?;
                match got {
                    Some(got) => write!(f, "{got}"),
                    None => write!(f, "nothing"),
                }
            }
        }
    }
}

/// Compares answers with the lines of a stored text, up to the first other one.
pub fn compare<'a>(
    alloc: Global,
    answers: &[Answered<'_>],
    stored: &'a str,
) -> Result<Comparison<'a>, AllocError> {
    let mut lines = stored.split('\n').filter(|line| !line.is_empty());
    let mut equal = 0usize;
    for answered in answers {
        let wanted = lines.next();
        let got = answered.text(alloc)?;
        match wanted {
            Some(text) if text == got.as_str() => equal = equal.saturating_add(1),
            _ => {
                return Ok(Comparison::Other {
                    line: Some(answered.line),
                    wanted,
                    got: Some(got),
                });
            }
        }
    }
    match lines.next() {
        None => Ok(Comparison::Equal(equal)),
        wanted => Ok(Comparison::Other {
            line: None,
            wanted,
            got: None,
        }),
    }
}
