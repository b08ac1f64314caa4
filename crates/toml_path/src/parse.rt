//! From a text to a path.
ghost use Rattle.std.specs.Prelude.{◌≡◌, true};
ghost use Rattle.toml_parser.specs.Strings.{starts_string};

use crate::path::{Path, PathError, PathFault, Step};
use std::alloc::Global;
use toml_parser::text::skip_ws;
use toml_parser::{ParseError, quoted, starts_string};

impl Path {
    /// The path to the root of a document.
    pub fn root(alloc: Global) -> Path {
        Path {
            steps: Vec::new(alloc),
        }
    }

    /// Parses a path: keys with dots between them, as TOML writes a dotted key, and behind each key
    /// any number of `[N]`. Blanks may stand around dots. An empty text is the path to the root.
    ///
    /// Errors: `Memory` if an allocation failed; `At` with what is wrong, and the first byte that
    /// can't stand where it does.
    pub fn parse(alloc: Global, text: &str) -> Result<Path, PathError> {
        let mut path = Path::root(alloc);
        let mut rest = skip_ws(text);
        if rest.is_empty() {
            return Ok(path);
        }
        for _part in 0..text.len() {
            let (key, behind) = key_at(alloc, text, rest)?;
            path.steps.push(Step::Key(key))?;
            let behind = indexes(&mut path, text, behind)?;
            match behind.strip_prefix('.') {
                Some(next) => rest = skip_ws(next),
                None if behind.is_empty() => return Ok(path),
                None => return Err(at(PathFault::BadEnd, text, behind)),
            }
        }
        Err(at(PathFault::NoKey, text, rest))
    }
}

/// A complaint of the byte where the rest of a text begins.
fn at(fault: PathFault, text: &str, rest: &str) -> PathError {
    PathError::At(fault, text.len().saturating_sub(rest.len()))
}

/// The key with which the rest of a text begins, and what is behind it and blanks.
fn key_at<'a>(alloc: Global, text: &'a str, rest: &'a str) -> Result<(String, &'a str), PathError> {
    if starts_string(rest) {
        return string_at(alloc, text, rest);
    }
    let len = rest.bytes().take_while(is_bare).count();
    match (rest.get(..len), rest.get(len..)) {
        (Some(key), Some(behind)) if len > 0 => {
            Ok((String::from_str(alloc, key)?, skip_ws(behind)))
        }
        _ => Err(at(PathFault::NoKey, text, rest)),
    }
}

fn is_bare(byte: &u8) -> bool {
    byte.is_ascii_alphanumeric() || matches!(byte, b'_' | b'-')
}

/// The decoded string with which the rest of a text begins. One of several lines is no key.
fn string_at<'a>(
    alloc: Global,
    text: &'a str,
    rest: &'a str,
) -> Result<(String, &'a str), PathError>
    requires { starts_string rest.now ≡ true }
{
    if rest.starts_with("\"\"\"") || rest.starts_with("'''") {
        return Err(at(PathFault::BadString, text, rest));
    }
    match quoted(alloc, rest) {
        Ok((key, behind)) => Ok((key, skip_ws(behind))),
        Err(ParseError::OutOfMemory) => Err(PathError::Memory),
        Err(ParseError::At(_, _, _)) => Err(at(PathFault::BadString, text, rest)),
    }
}

/// Adds each `[N]` with which the rest of a text begins, and gives what is behind them and blanks.
fn indexes<'a>(path: &mut Path, text: &'a str, rest: &'a str) -> Result<&'a str, PathError> {
    let mut rest = rest;
    for _index in 0..text.len() {
        let Some(inner) = rest.strip_prefix('[') else {
            break;
        };
        let (index, behind) = index_at(text, inner)?;
        path.steps.push(Step::Index(index))?;
        rest = skip_ws(behind);
    }
    Ok(rest)
}

/// The number with which the rest of a text begins, and what is behind its `]`.
fn index_at<'a>(text: &'a str, rest: &'a str) -> Result<(usize, &'a str), PathError> {
    let len = rest.bytes().take_while(u8::is_ascii_digit).count();
    let digits = rest.get(..len).unwrap_or("");
    let behind = rest.get(len..).unwrap_or("");
    match (digits.parse::<usize>(), behind.strip_prefix(']')) {
        (Ok(index), Some(behind)) => Ok((index, behind)),
        _ => Err(at(PathFault::BadIndex, text, rest)),
    }
}
